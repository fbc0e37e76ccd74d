// A device value as a record, both ways.
// Its id is the value's, and its body holds one number of 64 bits.
ghost use Rattle.std.specs.Prelude.{◌≡◌};
ghost use Rattle.bodies.specs.Bodies.{value_record, value_in};

use codec::Raw;

// The record of a value.
pub fn value_record(id: u8, x: u64) -> Raw
    ensures { result ≡ value_record id x }
{
    let b = basics::bytes8(x);
    Raw {
        tag: ids::VALUE_TAG,
        id,
        body: [0, 0, b[0], b[1], b[2], b[3], b[4], b[5], b[6], b[7]],
    }
}

// The number in a value's record.
pub fn value_of(raw: Raw) -> u64
    ensures { result ≡ value_in raw.body }
{
    let b = raw.body;
    let low = basics::number4(b[2], b[3], b[4], b[5]);
    let high = basics::number4(b[6], b[7], b[8], b[9]);
    basics::joined(low, high)
}
