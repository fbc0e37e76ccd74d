// A sector's header as a slot, both ways.
// What it holds is its magic, the sector's seq and the version of the format.
ghost use Rattle.std.specs.Prelude.{◌≡◌, length};
ghost use Rattle.codec.specs.Slots.{slot_size, header_bytes, header_slot, magic_at, header_of};

use crate::{SLOT, checksum, seal};

// The twelve bytes in front of a header's checksum: magic, seq, version, zeros.
fn header_bytes(seq: u32) -> [u8; 12]
    ensures { result ≡ header_bytes seq }
{
    let m = *b"P2RC";
    let s = basics::bytes4(seq);
    [
        m[0],
        m[1],
        m[2],
        m[3],
        s[0],
        s[1],
        s[2],
        s[3],
        crate::FORMAT_VERSION,
        0,
        0,
        0,
    ]
}

// The header of a sector with this seq, as a slot.
pub fn encode_header(seq: u32) -> [u8; SLOT]
    ensures { result ≡ header_slot seq }
{
    let b = header_bytes(seq);
    seal::seal(b, crc::crc32(&b))
}

// Whether a slot begins with the four bytes P2RC.
fn has_magic(slot: &[u8]) -> bool
    requires { length slot.now ≡ slot_size }
    ensures { result ≡ magic_at slot.now }
{
    slot.starts_with(b"P2RC")
}

// The seq of the header that a slot holds: magic, version and checksum are tested, bytes 9 to 11 are not. What isn't sixteen bytes is no header.
pub fn decode_header(slot: &[u8], version: u8) -> Option<u32>
    ensures { result ≡ header_of version slot.now }
{
    if slot.len() != SLOT {
        return None;
    }
    if !has_magic(slot) {
        return None;
    }
    let is_other = slot[8] != version;
    if is_other {
        return None;
    }
    if checksum::check12(crc::start(), slot) != checksum::carried(slot) {
        return None;
    }
    Some(basics::number4(slot[4], slot[5], slot[6], slot[7]))
}
