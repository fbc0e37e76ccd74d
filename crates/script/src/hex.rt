// Bytes of a line, in lower-case hex: one, as many as there are and have room, and just so many.
// A place is any number: what is not there is refused.
ghost use Rattle.std.specs.Prelude.{◌≡◌, length};
ghost use Rattle.text.specs.Text.{Puts};
ghost use Rattle.script.specs.Hex.{hex_value, byte_at, bytes_in, whole_of};

// The value of a lower-case hex digit.
#[tactic(auto, unfolding(crate::specs::Hex::hex_value))]
fn hex_value(c: u8) -> Option<u8>
    ensures { result ≡ hex_value c }
{
    match c {
        b'0'..=b'9' => Some(c - b'0'),
        b'a'..=b'f' => Some(c - b'a' + 10),
        _ => None,
    }
}

// The byte whose two hex digits stand at `at`.
#[tactic(auto, using(crate::proofs::HexPairs::byte_laws))]
pub fn hex_byte(text: &[u8], at: usize) -> Option<u8>
    ensures { result ≡ byte_at at text.now }
{
    let high = hex_value(*text.get(at)?)?;
    let low = hex_value(*text.get(at + 1)?)?;
    Some(16 * high + low)
}

// The bytes in hex from `at` on, put into a buffer up to what is no byte or to the buffer's end; answers the place one past them there.
pub fn hex_bytes(text: &[u8], at: usize, out: &mut [u8], to: usize) -> usize
    ensures { Puts out.old to (bytes_in at text.now to (length out.old)) out.new result }
{
    if out.len() <= to {
        return to;
    }
    let mut from = at;
    for k in to..out.len() {
        let Some(b) = hex_byte(text, from) else {
            return k;
        };
        out[k] = b;
        from += 2;
    }
    out.len()
}

// The N bytes that a whole text is in hex.
pub fn hex_array<const N: usize>(text: &[u8]) -> Option<[u8; N]>
    ensures { result ≡ whole_of N text.now }
{
    let mut bytes = [0u8; N];
    if text.len() % 2 != 0 || text.len() / 2 != N || hex_bytes(text, 0, &mut bytes, 0) != N {
        return None;
    }
    Some(bytes)
}
