// The call format: a log that was never formatted starts with the counters that it is given.
// On any other log nothing is written.
ghost use Rattle.decisions.specs.Outcomes.{ShowsDone};
ghost use Rattle.counter_log.specs.Calls.{format_of};

use basics::Refusal;
use decisions::{Done, SEEDS, Seed};
use flash::Plan;
use records::{Log, State};

// Formats an Unformatted log with the first `count` seeds; any other log is 6. Places past the count are not looked at.
pub fn format(image: &mut [u8], log: Log, plan: Plan, seeds: [Seed; SEEDS], count: usize) -> Done
    ensures { ShowsDone (format_of image.old log plan seeds count) result image.new }
{
    let n = flash::sectors(image.len());
    let used = decisions::unused(plan);
    let known = decisions::seeds_known(seeds, count);
    if let Err(refusal) = reads::enter(log, n, known, ids::COUNTER_TAG, 0) {
        return decisions::answered(Err(refusal), log, used);
    }
    match log.state {
        State::Unformatted => {
            let t = decisions::seed_table(seeds, count);
            let table = t.table;
            decisions::format_with(image, log, used, n, table, t.count)
        }
        State::Failed => decisions::answered(Err(Refusal::WriteError), log, used),
        State::Active { .. } => decisions::answered(Err(Refusal::WriteError), log, used),
    }
}
