// "Slot layouts": the sixteen bytes of a slot, as a sector's header or as a record, with their checksum.
// Here stand the types of both, and the test for erased bytes.
#![tactic(auto)]

mod checksum; // the checksum of a slot: begun with the sector's seq, worked, and read
mod seal; // twelve bytes with their checksum behind them
mod headers; // a header as a slot, both ways
mod slots; // a record as a slot, both ways

ghost use Rattle.std.specs.Prelude.{◌≡◌};
ghost use Rattle.basics.specs.Lists.{all_are};
ghost use Rattle.codec.specs.Slots.{no_raw};

pub use checksum::under;
pub use headers::{decode_header, encode_header};
pub use slots::{decode, decode_from, encode, encode_from};

// A record's payload by tag and id: bytes 0, 1 and 2..11 of its slot.
#[derive(Clone, Copy, Debug, PartialEq, Eq)]
pub struct Raw {
    pub tag: u8,
    pub id: u8,
    pub body: [u8; 10],
}

// The bytes of a slot.
pub const SLOT: usize = 16;

// The version that headers are written with.
pub const FORMAT_VERSION: u8 = 2;

// Whether every byte is FF. Every byte is looked at, so that the loop has no branch.
pub fn is_erased(bytes: &[u8]) -> bool
    ensures { result ≡ all_are 0xFF bytes.now }
{
    let mut all: u8 = 0xFF;
    for b in bytes {
        all &= *b;
    }
    all == 0xFF
}

impl Raw {
    // No record: zeros only.
    pub fn none() -> Raw
        ensures { result ≡ no_raw }
    {
        Raw {
            tag: 0,
            id: 0,
            body: [0u8; 10],
        }
    }
}
