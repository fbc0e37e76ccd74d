// What can be asked of the flash, as a value: a call that writes, or a program or an erase alone.
// The arrays stand beside the kind, and are not looked at where the kind doesn't say so.
ghost use Rattle.std.specs.Prelude.{◌≡◌};
ghost use Rattle.host.specs.Requests.{no_seed, request_of, format_with, program_with};

use codec::SLOT;
use decisions::{SEEDS, Seed};
use ids::{Anchor, CounterState};

// The calls that can write, and the two steps that they are made of.
#[derive(Clone, Copy)]
pub enum Kind {
    Nothing,
    Put { credential: u8, new: CounterState },
    PutValue { id: u8, new: u64 },
    PutAnchor(Anchor),
    Format { count: usize },
    Spend { credential: u8, current: u8 },
    Set { credential: u8, tries: u8 },
    AdvanceLamport { seen: u64 },
    Program { sector: usize, slot: usize },
    Erase { sector: usize },
}

// A kind, the seeds of a format, and the bytes of a program.
#[derive(Clone, Copy)]
pub struct Request {
    pub kind: Kind,
    pub seeds: [Seed; SEEDS],
    pub bytes: [u8; SLOT],
}

// A seed of zeros.
fn no_seed() -> Seed
    ensures { result ≡ no_seed }
{
    let state = CounterState::fresh(0);
    Seed {
        credential: 0,
        state,
    }
}

impl Request {
    // A request that needs no array.
    pub fn of(kind: Kind) -> Request
        ensures { result ≡ request_of kind }
    {
        let z = no_seed();
        Request {
            kind,
            seeds: [z; SEEDS],
            bytes: [0; SLOT],
        }
    }

    // A format with the first `count` of these seeds.
    pub fn format(seeds: [Seed; SEEDS], count: usize) -> Request
        ensures { result ≡ format_with seeds count }
    {
        Request {
            kind: Kind::Format { count },
            seeds,
            bytes: [0; SLOT],
        }
    }

    // A program of one slot.
    pub fn program(sector: usize, slot: usize, bytes: [u8; SLOT]) -> Request
        ensures { result ≡ program_with sector slot bytes }
    {
        let z = no_seed();
        Request {
            kind: Kind::Program { sector, slot },
            seeds: [z; SEEDS],
            bytes,
        }
    }
}
