// A request met on a plan by value: each kind is a call of counter_log or tries, or a step of this crate's own.
ghost use Rattle.std.specs.Prelude.{◌≡◌};
ghost use Rattle.basics.specs.Answers.{beside};
ghost use Rattle.decisions.specs.Outcomes.{ShowsDone};
ghost use Rattle.decisions.specs.Ready.{answered_of};
ghost use Rattle.host.specs.Requests.{requested};

use crate::{Kind, Request, places};
use decisions::Done;
use flash::Plan;
use records::Log;
use sectors::Step;

// A step alone, as an answer: the log is handed back as it came.
fn stepped(step: Step, log: Log) -> Done
    ensures { result ≡ answered_of (beside step.answer 0) log step.used }
{
    decisions::answered(step.answer.and(Ok(0)), log, step.used)
}

// What is asked, done.
pub fn meet(image: &mut [u8], log: Log, plan: Plan, request: Request) -> Done
    ensures { ShowsDone (requested request image.old log plan) result image.new }
{
    let kind = request.kind;
    let seeds = request.seeds;
    let bytes = request.bytes;
    match kind {
        Kind::Nothing => decisions::answered(Ok(0), log, decisions::unused(plan)),
        Kind::Put { credential, new } => counter_log::put(image, log, plan, credential, new),
        Kind::PutValue { id, new } => counter_log::put_value(image, log, plan, id, new),
        Kind::PutAnchor(new) => counter_log::put_anchor(image, log, plan, new),
        Kind::Format { count } => counter_log::format(image, log, plan, seeds, count),
        Kind::Spend {
            credential,
            current,
        } => tries::spend(image, log, plan, credential, current),
        Kind::Set { credential, tries } => tries::set(image, log, plan, credential, tries),
        Kind::AdvanceLamport { seen } => tries::advance_lamport(image, log, plan, seen),
        Kind::Program { sector, slot } => {
            stepped(places::program(image, sector, plan, slot, bytes), log)
        }
        Kind::Erase { sector } => stepped(places::erase(image, sector, plan), log),
    }
}
