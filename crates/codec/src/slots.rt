// A record as a slot, both ways, under the checksum of its sector.
// What isn't a record reads as none.
ghost use Rattle.std.specs.Prelude.{◌≡◌, length, take};
ghost use Rattle.codec.specs.Slots.{slot_size, crc_from, sealed, bytes_of, slot_of, raw_of, decoded_with, decoded};

use crate::{Raw, SLOT, checksum, seal};

// The record that a slot's first twelve bytes spell.
fn from_slot(s: &[u8]) -> Raw
    requires { length s.now ≡ slot_size }
    ensures { result ≡ raw_of s.now }
{
    Raw {
        tag: s[0],
        id: s[1],
        body: [s[2], s[3], s[4], s[5], s[6], s[7], s[8], s[9], s[10], s[11]],
    }
}

// The twelve bytes that the checksum runs over.
fn bytes(record: Raw) -> [u8; 12]
    ensures { result ≡ bytes_of «record» }
{
    let b = record.body;
    [
        record.tag, record.id, b[0], b[1], b[2], b[3], b[4], b[5], b[6], b[7], b[8], b[9],
    ]
}

// The record's slot, from the register that the sector's seq left.
pub fn encode_from(record: Raw, start: u32) -> [u8; SLOT]
    ensures { result ≡ sealed (crc_from start (bytes_of «record»)) (bytes_of «record») }
{
    let b = bytes(record);
    seal::seal(b, crc::finish(crc::update(start, &b)))
}

// The record's slot in a sector with this seq.
pub fn encode(record: Raw, seq: u32) -> [u8; SLOT]
    ensures { result ≡ slot_of seq «record» }
{
    encode_from(record, checksum::under(seq))
}

// The record in a slot, from the register that the sector's seq left; none where byte 0 is FF or the checksum differs.
// Not inlined: among its loads LLVM tests whether a slot is erased in three times as many steps, and opening a young log took half as long again.
#[inline(never)]
pub fn decode_from(slot: &[u8], start: u32) -> Option<Raw>
    ensures { result ≡ decoded_with (crc_from start (take 12 slot.now)) slot.now }
{
    if slot.len() != SLOT {
        return None;
    }
    let is_free = slot[0] == 0xFF;
    if is_free {
        return None;
    }
    if checksum::check12(start, slot) != checksum::carried(slot) {
        return None;
    }
    Some(from_slot(slot))
}

// The record in a slot of a sector with this seq.
pub fn decode(slot: &[u8], seq: u32) -> Option<Raw>
    ensures { result ≡ decoded seq slot.now }
{
    decode_from(slot, checksum::under(seq))
}
