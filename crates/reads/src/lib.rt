// The calls that only read the log, and the tests 1, 2, 3 that every call begins with.
// Here stands `enter`, which makes the tests, and what a call finds that passes them.
#![tactic(auto)]

mod counters; // get
mod values; // value
mod anchors; // anchor
mod status; // lamport, needs_migration

pub use anchors::anchor;
pub use counters::get;
pub use status::{lamport, needs_migration};
pub use values::value;

// What stands here uses:
ghost use Rattle.std.specs.Prelude.{◌≡◌};
ghost use Rattle.reads.specs.Entering.{entry_of};

use basics::Refusal;
use codec::Raw;
use records::{LIMIT, Log};

// What a call finds that is let in: the place of its key, or the count, whether there is room for it, and the record held.
#[derive(Clone, Copy, Debug, PartialEq, Eq)]
pub struct Entry {
    pub at: usize,
    pub room: bool,
    pub held: Option<Raw>,
}

// The refusals 1, 2 and 3, in this order, or what is found of a key. An image that is none has no sectors.
pub fn enter(log: Log, sectors: usize, known: bool, tag: u8, id: u8) -> Result<Entry, Refusal>
    ensures { result ≡ entry_of sectors log known tag id }
{
    if sectors == 0 {
        return Err(Refusal::BadImage);
    }
    let l = records::look(log, sectors, tag, id).ok_or(Refusal::BadLog)?;
    if !known {
        return Err(Refusal::BadId);
    }
    Ok(Entry {
        at: l.at,
        room: l.at < LIMIT,
        held: l.held,
    })
}
