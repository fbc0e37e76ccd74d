// The calls that write one record of a key: put and put_value.
ghost use Rattle.decisions.specs.Outcomes.{ShowsDone};
ghost use Rattle.counter_log.specs.Calls.{put_of, put_value_of};

use decisions::Done;
use flash::Plan;
use ids::CounterState;
use records::Log;

// Writes a credential's counter. A total below the held one is 9; equal to the held state is 0 without a write.
pub fn put(image: &mut [u8], log: Log, plan: Plan, credential: u8, new: CounterState) -> Done
    ensures { ShowsDone (put_of image.old log plan credential new) result image.new }
{
    let n = flash::sectors(image.len());
    let known = ids::is_credential(credential);
    let entry = reads::enter(log, n, known, ids::COUNTER_TAG, credential);
    let decided = entry.map(|e| (
        e.at,
        decisions::put_decision(e.held, e.room, credential, new),
    ));
    decisions::perform(image, log, decisions::unused(plan), n, decided)
}

// Writes a device value. A smaller monotonic value is 9; an equal value is 0 without a write.
pub fn put_value(image: &mut [u8], log: Log, plan: Plan, id: u8, new: u64) -> Done
    ensures { ShowsDone (put_value_of image.old log plan id new) result image.new }
{
    let n = flash::sectors(image.len());
    let entry = reads::enter(log, n, ids::is_value(id), ids::VALUE_TAG, id);
    let decided = entry.map(|e| (e.at, decisions::value_decision(e.held, e.room, id, new)));
    decisions::perform(image, log, decisions::unused(plan), n, decided)
}
