// Numbers as text into a lent buffer: in decimal, and a byte in hex. Each answers the place one past what it put.
ghost use Rattle.std.specs.Prelude.{◌≡◌, ◌+◌, ◌≤◌, ◌<◌, length};
ghost use Rattle.text.specs.Text.{decimal, hex_digit, hex_of, Puts};

// Puts a number in decimal: what its tenth part has for digits, and the last one behind them.
pub fn put_decimal(out: &mut [u8], at: usize, x: u64) -> usize
    requires { at + length (decimal x) ≤ length out.old }
    ensures { Puts out.old at (decimal x) out.new result }
{
    let next = if x < 10 {
        at
    } else {
        put_decimal(out, at, x / 10)
    };
    crate::put_byte(out, next, b'0' + (x % 10) as u8)
}

// The lower-case hex digit of a number below 16.
fn hex_digit(x: u8) -> u8
    requires { x < 16 }
    ensures { result ≡ hex_digit x }
{
    if x < 10 { b'0' + x } else { b'a' + (x - 10) }
}

// Puts a byte as two lower-case hex digits.
pub fn put_hex(out: &mut [u8], at: usize, byte: u8) -> usize
    requires { at + 2 ≤ length out.old }
    ensures { Puts out.old at (hex_of byte) out.new result }
{
    let next = crate::put_byte(out, at, hex_digit(byte / 16));
    crate::put_byte(out, next, hex_digit(byte % 16))
}
