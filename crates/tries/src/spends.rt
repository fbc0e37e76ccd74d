// The applet helpers that change a counter: one try spent, and tries set.
// Each decides on the counter held, or on a fresh one.
ghost use Rattle.std.specs.Prelude.{◌≡◌};
ghost use Rattle.decisions.specs.Outcomes.{ShowsDone};
ghost use Rattle.tries.specs.Tries.{start_of, spend_from, set_decision, spend_of, set_of};

use codec::Raw;
use decisions::{Decision, Done};
use flash::Plan;
use ids::CounterState;
use records::Log;

// The counter that is held, or a fresh one where none is.
fn start(held: Option<Raw>, fresh: u8) -> CounterState
    ensures { result ≡ start_of held fresh }
{
    match held {
        Some(raw) => bodies::counter_of(raw),
        None => CounterState::fresh(fresh),
    }
}

// What spend decides on a counter: 0 tries write nothing, the highest total is 6, else one failure more.
fn spend_from(s: CounterState, room: bool, credential: u8) -> Decision
    ensures { result ≡ spend_from s room credential }
{
    let before = s.remaining();
    let is_none_left = before == 0;
    if is_none_left {
        return Decision::Give(0);
    }
    match s.after_failure() {
        Err(refusal) => Decision::Refuse(refusal),
        Ok(new) => decisions::writes(room, bodies::counter_record(credential, new), before as u64),
    }
}

// Spends one try: it is on flash before this answers with the tries there were. Of 0 tries nothing is written. Where no record is held it
// starts from `current`.
pub fn spend(image: &mut [u8], log: Log, plan: Plan, credential: u8, current: u8) -> Done
    ensures { ShowsDone (spend_of image.old log plan credential current) result image.new }
{
    let n = flash::sectors(image.len());
    let known = ids::is_credential(credential);
    let entry = reads::enter(log, n, known, ids::COUNTER_TAG, credential);
    let decided = entry.map(|e| (e.at, spend_from(start(e.held, current), e.room, credential)));
    decisions::perform(image, log, decisions::unused(plan), n, decided)
}

// What set decides: nothing is written where so many remain already.
fn set_decision(held: Option<Raw>, room: bool, credential: u8, tries: u8) -> Decision
    ensures { result ≡ set_decision held room credential tries }
{
    let s = start(held, tries);
    let new = s.after_reset(tries);
    let written = decisions::writes(room, bodies::counter_record(credential, new), 0);
    if held.is_none() {
        return written;
    }
    let left = s.remaining();
    let is_same = left == tries;
    if is_same {
        return Decision::Give(0);
    }
    written
}

// Sets the tries: at_reset becomes total and the allowance this number. Nothing is written if so many remain already.
pub fn set(image: &mut [u8], log: Log, plan: Plan, credential: u8, tries: u8) -> Done
    ensures { ShowsDone (set_of image.old log plan credential tries) result image.new }
{
    let n = flash::sectors(image.len());
    let known = ids::is_credential(credential);
    let entry = reads::enter(log, n, known, ids::COUNTER_TAG, credential);
    let decided = entry.map(|e| (e.at, set_decision(e.held, e.room, credential, tries)));
    decisions::perform(image, log, decisions::unused(plan), n, decided)
}
