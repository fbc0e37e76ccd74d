// CRC-32 of IEEE 802.3: of bytes at once, and as a register that is run on, part after part.
#![tactic(auto)]

ghost use Rattle.std.specs.Prelude.{◌≡◌};
ghost use Rattle.basics.specs.Little.{le_bytes};
ghost use Rattle.crc.specs.Ieee.{IsCheck, message, bits};
ghost use Rattle.crc.specs.Register.{turn, eat, feed, initial, finished, crc32_of};

// The reflected polynomial.
const POLY: u32 = 0xEDB8_8320;

// One bit: a shift, and the polynomial where the bit shifted out is 1.
fn turned(s: u32) -> u32
    ensures { result ≡ turn s }
{
    s / 2 ^ s % 2 * POLY
}

// One byte more.
fn fed(s: u32, b: u8) -> u32
    ensures { result ≡ eat s b }
{
    let mut r = s ^ (b as u32);
    for _ in 0..8u32 {
        r = turned(r);
    }
    r
}

// The register before the first byte.
pub fn start() -> u32
    ensures { result ≡ initial }
{
    0xFFFF_FFFF
}

// The register after some bytes more.
pub fn update(state: u32, bytes: &[u8]) -> u32
    ensures { result ≡ feed state bytes.now }
{
    let mut s = state;
    for b in bytes {
        s = fed(s, *b);
    }
    s
}

// The register after the four bytes of a number, lowest first.
pub fn update_word(state: u32, x: u32) -> u32
    ensures { result ≡ feed state (le_bytes 4 x) }
{
    let b = basics::bytes4(x);
    update(state, &b)
}

// The checksum that a register comes to.
pub fn finish(state: u32) -> u32
    ensures { result ≡ finished state }
{
    state ^ 0xFFFF_FFFF
}

// The checksum of bytes.
pub fn crc32(bytes: &[u8]) -> u32
    ensures { result ≡ crc32_of bytes.now }
{
    finish(update(start(), bytes))
}

// The checksum of bytes, in the words of the standard.
pub fn crc32_ieee(bytes: &[u8]) -> u32
    ensures { IsCheck (message bytes.now) (bits 32 result) }
{
    crc32(bytes)
}
