// The call put_anchor, and its first anchor: on an Unformatted log it formats empty first.
ghost use Rattle.std.specs.Prelude.{◌≡◌, Bool, [], length};
ghost use Rattle.sectors.specs.Shown.{flash_with};
ghost use Rattle.decisions.specs.Outcomes.{ShowsDone};
ghost use Rattle.decisions.specs.Performing.{formatted};
ghost use Rattle.counter_log.specs.Calls.{anchored_first, put_anchor_of};
ghost use Rattle.counter_log.specs.FirstAnchor.{opens_log, FitForFirst};

use decisions::Done;
use flash::Plan;
use ids::Anchor;
use records::{Log, State};
use sectors::Used;

// Whether an anchor is the first of its log: the log is Unformatted, head_seq and head_slot are 0.
fn is_first(state: State, new: Anchor) -> bool
    ensures { result ≡ opens_log state new }
{
    match state {
        State::Unformatted => new.head_seq == 0 && new.head_slot == 0,
        State::Failed | State::Active { .. } => false,
    }
}

// The first anchor: the log is formatted empty, and then the anchor is its first record.
fn first_anchor(image: &mut [u8], log: Log, used: Used, sectors: usize, new: Anchor) -> Done
    requires { FitForFirst (length image.old) sectors log used }
    ensures { (cut : Bool)
        → ShowsDone (anchored_first new sectors (formatted [] sectors log (flash_with image.old used cut))) result
        image.new }
{
    let f = decisions::format_with(image, log, used, sectors, records::empty_table(), 0);
    if f.answer.is_err() {
        return f;
    }
    let left = Used {
        plan: f.plan,
        programmed: f.programmed,
        erased: f.erased,
    };
    let d = decisions::anchor_decision(None, true, new);
    decisions::perform(image, f.log, left, sectors, Ok((0, d)))
}

// Writes the anchor. An equal one is 0; the same format_gen with a smaller head_seq is 9; a head_seq above 2^48 - 1 is 6.
pub fn put_anchor(image: &mut [u8], log: Log, plan: Plan, new: Anchor) -> Done
    ensures { ShowsDone (put_anchor_of image.old log plan new) result image.new }
{
    let n = flash::sectors(image.len());
    let used = decisions::unused(plan);
    let entry = reads::enter(log, n, true, ids::ANCHOR_TAG, 0);
    if entry.is_ok() && is_first(log.state, new) {
        return first_anchor(image, log, used, n, new);
    }
    let decided = entry.map(|e| (e.at, decisions::anchor_decision(e.held, e.room, new)));
    decisions::perform(image, log, used, n, decided)
}
