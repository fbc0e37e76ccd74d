// The Lamport clock's step to its next number, past what is held and past what was seen.
ghost use Rattle.std.specs.Prelude.{◌≡◌};
ghost use Rattle.decisions.specs.Outcomes.{ShowsDone};
ghost use Rattle.tries.specs.Tries.{seen_of, advance_from, advance_of};

use basics::Refusal;
use codec::Raw;
use decisions::{Decision, Done};
use flash::Plan;
use records::Log;

// The highest number of the Lamport clock.
const LAMPORT_MAX: u64 = 18_446_744_073_709_551_615;

// The larger of the number held and the one seen.
fn larger(held: Option<Raw>, seen: u64) -> u64
    ensures { result ≡ seen_of held seen }
{
    let Some(raw) = held else {
        return seen;
    };
    let old = bodies::value_of(raw);
    let is_behind = seen < old;
    if is_behind { old } else { seen }
}

// What advance_lamport decides: 1 more than this number; 6 where there is none.
fn advance_from(most: u64, room: bool) -> Decision
    ensures { result ≡ advance_from most room }
{
    if most == LAMPORT_MAX {
        return Decision::Refuse(Refusal::WriteError);
    }
    let next = most + 1;
    decisions::writes(room, bodies::value_record(ids::LAMPORT, next), next)
}

// The next number of the Lamport clock: the larger of held and seen, plus 1; on flash before this answers.
pub fn advance_lamport(image: &mut [u8], log: Log, plan: Plan, seen: u64) -> Done
    ensures { ShowsDone (advance_of image.old log plan seen) result image.new }
{
    let n = flash::sectors(image.len());
    let entry = reads::enter(log, n, true, ids::VALUE_TAG, ids::LAMPORT);
    let decided = entry.map(|e| (e.at, advance_from(larger(e.held, seen), e.room)));
    decisions::perform(image, log, decisions::unused(plan), n, decided)
}
