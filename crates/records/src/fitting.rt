// The tests of number 2, BadLog, one by one: of the state, and of the places past the count. All of them together stand in lookup.
ghost use Rattle.std.specs.Prelude.{◌≡◌, eqb, drop};
ghost use Rattle.records.specs.Fitting.{state_fits, is_zeros, all_zeros};

use crate::{LIMIT, State};
use codec::Raw;
use flash::SLOTS;

// The highest sequence number that a sector can have.
pub const SEQ_MAX: u32 = 4_294_967_295;

// The head of a full sector: one past its last slot.
pub const HEAD_MAX: u32 = SLOTS as u32;

// What a look finds in a log that fits: the place of the key, or the count, and the record held of it.
#[derive(Clone, Copy, Debug, PartialEq, Eq)]
pub struct Looked {
    pub at: usize,
    pub held: Option<Raw>,
}

// Whether the state fits an image of so many sectors, this next_seq and this count.
pub fn state_fits(state: State, next_seq: u32, count: usize, sectors: usize) -> bool
    ensures { result ≡ state_fits sectors state next_seq count }
{
    match state {
        State::Active { sector, seq, head } => {
            (sector as usize) < sectors
                && (1..=HEAD_MAX).contains(&head)
                && (seq < next_seq || next_seq == SEQ_MAX)
        }
        State::Unformatted | State::Failed => count == 0,
    }
}

// The bits that stand anywhere in a record: 0 just where it is zeros only.
fn bits_of(r: Raw) -> u32
    ensures { eqb result 0 ≡ is_zeros r }
{
    let b = r.body;
    basics::number4(r.tag, r.id, b[0], b[1])
        | basics::number4(b[2], b[3], b[4], b[5])
        | basics::number4(b[6], b[7], b[8], b[9])
}

// Whether the places past the count are zeros. Every place is looked at, so that the loop has no branch.
pub fn zeros_past(table: [Raw; LIMIT], count: usize) -> bool
    ensures { result ≡ all_zeros (drop count table) }
{
    let mut any: u32 = 0;
    for i in count..LIMIT {
        any |= bits_of(table[i]);
    }
    any == 0
}
