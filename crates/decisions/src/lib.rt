// What a call decides on the record held of its key (to refuse, to answer without a write, or to write a record), and what comes of it.
// Here stands what a decision is; the calls themselves stand in counter_log and tries.
#![tactic(auto)]

mod puts; // what put and put_value decide
mod anchors; // what put_anchor decides
mod seeds; // the seeds of a format, and the table that they make
mod actions; // a decision performed: an answer, or a record appended
mod formats; // a format performed: a table committed
mod outcomes; // what a call hands back

pub use actions::perform;
pub use anchors::anchor_decision;
pub use formats::format_with;
pub use outcomes::{Done, answered, unused};
pub use puts::{put_decision, value_decision};
pub use seeds::{SEEDS, Seed, Seeded, seed_table, seeds_known};

// What stands here uses:
ghost use Rattle.std.specs.Prelude.{◌≡◌};
ghost use Rattle.decisions.specs.Decisions.{write};

use basics::Refusal;
use codec::Raw;

// What a call has decided: to refuse, to answer this value without a write, or to append this record first.
#[derive(Clone, Copy, Debug, PartialEq, Eq)]
pub enum Decision {
    Refuse(Refusal),
    Give(u64),
    Write { rec: Raw, value: u64 },
}

// A record to write, and this value to answer; 8 where there is no room for its key.
pub fn writes(room: bool, rec: Raw, reply: u64) -> Decision
    ensures { result ≡ write room rec reply }
{
    if !room {
        return Decision::Refuse(Refusal::KeystoreFull);
    }
    Decision::Write { rec, value: reply }
}
