// What is written, by way of a buffer: where a piece doesn't fit, what stands in the buffer goes to standard output first.
// Only a flush and such a piece write. What stands there when the buffer is let go is lost: a refused write is offered once.
ghost use Rattle.std.specs.Prelude.{◌≡◌, ◌+◌, ◌≤◌, ◌++◌, length, OnOk};
ghost use Rattle.std.specs.Io.KnownBytes.{Appends};
ghost use Rattle.flash.specs.Image.{largest};
ghost use Rattle.text.specs.Text.{decimal, Puts};

use flash::LARGEST;
use std::io;
use std::io::Write;

// The most digits of a number.
const DIGITS: usize = 20;

// The text that waits, and where it goes. It lies in its buffer.
#[derive(Drop)]
pub struct Output<'a, P: Print> {
    to: &'a P,
    text: [u8; LARGEST],
    len: usize,
    ghost in_bounds: { len ≤ largest },
}

impl<'a, P: Print> Output<'a, P> {
    // An empty buffer.
    pub fn new(to: &'a P) -> Output<'a, P> {
        Output {
            to,
            text: [0; LARGEST],
            len: 0,
        }
    }

    // Puts a piece behind what stands there.
    fn append(&mut self, piece: &[u8])
        requires { self.old.len + length piece.now ≤ largest }
        ensures { Puts self.old.text self.old.len piece.now self.new.text self.new.len }
    {
        self.len = text::put_bytes(&mut self.text, self.len, piece);
    }

    // Writes what stands there. The buffer is empty then, also where the write failed, so that nothing is written twice.
    fn empty(&mut self) -> io::Result<()>
        ensures { self.new.len ≡ 0 }
    {
        let len = self.len;
        self.len = 0;
        self.to.write_all(&self.text[..len])
    }

    // A piece that doesn't fit behind what stands there.
    #[cold]
    #[inline(never)]
    fn write_cold(&mut self, piece: &[u8]) -> io::Result<()> {
        self.empty()?;
        if LARGEST < piece.len() {
            return self.to.write_all(piece);
        }
        self.append(piece);
        Ok(())
    }
}

impl<P: Print> Write for Output<'_, P> {
    fn write(&mut self, piece: &[u8]) -> io::Result<usize> {
        self.write_all(piece)?;
        Ok(piece.len())
    }

    fn flush(&mut self) -> io::Result<()> {
        self.empty()
    }

    #[inline(always)]
    fn write_all(&mut self, piece: &[u8]) -> io::Result<()> {
        if LARGEST - self.len < piece.len() {
            return self.write_cold(piece);
        }
        self.append(piece);
        Ok(())
    }
}

// Writes a number in decimal, as a line of a script would have it.
pub fn number<W: Write>(out: &mut W, x: u64) -> io::Result<()>
    ensures { OnOk result (Appends (W.contents out.old) (W.contents out.new) (decimal x)) }
{
    let mut digits = [0u8; DIGITS];
    let end = text::put_decimal(&mut digits, 0, x);
    out.write_all(&digits[..end])
}

// Writes a number in decimal, and what stands behind it.
pub fn field<W: Write>(out: &mut W, x: u64, behind: &[u8]) -> io::Result<()>
    ensures { OnOk result (Appends (W.contents out.old) (W.contents out.new) (decimal x ++ behind.now)) }
{
    number(out, x)?;
    out.write_all(behind)
}

// Writes bytes in lower-case hex.
pub fn hex(out: &mut impl Write, bytes: &[u8]) -> io::Result<()> {
    let mut digits = [0u8; 2];
    for b in bytes {
        text::put_hex(&mut digits, 0, *b);
        out.write_all(&digits)?;
    }
    Ok(())
}
