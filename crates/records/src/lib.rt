// The log value: its state, next_seq, and a table of at most 32 records as places and a count; and number 2, whether it fits an image.
// A record is found by its key, which is its tag and id.
#![tactic(auto)]

mod fitting; // the tests of number 2 on the state, and on the places past the count
mod survey; // one pass over the records: whether their keys fit, and where one key stands
mod lookup; // all of number 2, and the place of a key

pub use fitting::{HEAD_MAX, Looked, SEQ_MAX};
pub use lookup::look;

// What stands here uses:
ghost use Rattle.std.specs.Prelude.{◌≡◌, not, [], ◌≤◌, length, take};
ghost use Rattle.records.specs.Logs.{places, log_of};
ghost use Rattle.records.specs.Table.{limit, falls, key_place, new_count};

use codec::Raw;

// The most records that a log holds.
pub const LIMIT: usize = 32;

// What a log is: never formatted, unreadable, or in use in a sector with this seq, where head is the next slot.
#[derive(Clone, Copy)]
pub enum State {
    Unformatted,
    Failed,
    Active { sector: u32, seq: u32, head: u32 },
}

// The log as calls take it and hand it back. Places past the count hold zeros only.
#[derive(Clone, Copy)]
pub struct Log {
    pub state: State,
    pub next_seq: u32,
    pub count: usize,
    pub table: [Raw; LIMIT],
}

// All places empty.
pub fn empty_table() -> [Raw; LIMIT]
    ensures { result ≡ places [] }
{
    let z = Raw::none();
    [z; LIMIT]
}

// A log with no records.
pub fn empty(state: State, next_seq: u32) -> Log
    ensures { result ≡ log_of state next_seq [] }
{
    let t = empty_table();
    Log {
        state,
        next_seq,
        count: 0,
        table: t,
    }
}

// The place of a key among the first `count` tags and ids, or `count` where it isn't there.
pub fn find(tags: &[u8], ids: &[u8], count: usize, tag: u8, id: u8) -> usize
    requires { (count ≤ length tags.now) × (count ≤ length ids.now) }
    ensures { result ≡ key_place tag id (take count tags.now) (take count ids.now) }
{
    for i in 0..count {
        if tags[i] == tag {
            if ids[i] == id {
                return i;
            }
        }
    }
    count
}

// Whether a record read takes the place of the one held: a monotonic value only if it isn't smaller.
pub fn replaces(new: Raw, held: Raw) -> bool
    ensures { result ≡ not (falls new held) }
{
    if ids::is_monotonic(new.tag, new.id) {
        bodies::value_of(held) <= bodies::value_of(new)
    } else {
        true
    }
}

// The count after a record is stored at a place: one more where the place is the first that is free.
pub fn new_count(count: usize, at: usize) -> usize
    requires { count ≤ limit }
    ensures { result ≡ new_count count at }
{
    if at == count { count + 1 } else { count }
}
