// The script's lines, as they are read: by way of a buffer, out of which each line is handed as a slice.
// What was read of a line without its end waits for the next read.
ghost use Rattle.std.specs.Prelude.{◌≡◌, ◌-◌, ◌<◌, ◌≤◌, length, take, slice_range, IfOk, IfSome, IsTrue};
ghost use Rattle.flash.specs.Image.{largest};

use flash::LARGEST;
use std::io;
use std::io::{Read, Write};

// The most characters of a line.
pub const LINE: usize = 16384;

// What is read and not handed out lies between two places of the buffer.
#[derive(Drop)]
pub struct Input<R: Read + Drop> {
    reader: R,
    bytes: [u8; LARGEST],
    from: usize,
    to: usize,
    ghost ordered: { from ≤ to },
    ghost in_bounds: { to ≤ largest },
}

impl<R: Read + Drop> Input<R> {
    // An empty buffer.
    pub fn new(reader: R) -> Input<R> {
        Input {
            reader,
            bytes: [0; LARGEST],
            from: 0,
            to: 0,
        }
    }

    // What waits goes to the front of the buffer.
    fn keep(&mut self)
        ensures front { self.new.from ≡ 0 }
        ensures count { self.new.to ≡ self.old.to - self.old.from }
        ensures kept { slice_range self.new.bytes self.new.from self.new.to ≡ slice_range self.old.bytes self.old.from self.old.to }
    {
        let (from, to) = (self.from, self.to);
        self.bytes.copy_within(from..to, 0);
        self.from = 0;
        self.to = to - from;
    }

    // One read behind what waits; answers whether there was more. The only error is the reader's; what waits stays, also then.
    fn more(&mut self) -> io::Result<bool>
        ensures from { self.new.from ≡ self.old.from }
        ensures to { self.old.to ≤ self.new.to }
        ensures grows { IfOk result (λ more. IsTrue more → self.old.to < self.new.to) }
        ensures kept { take self.old.to self.new.bytes ≡ take self.old.to self.old.bytes }
    {
        let to = self.to;
        let got = self.reader.read(&mut self.bytes[to..])?;
        self.to = to + got;
        Ok(0 < got)
    }

    // Where the next line ends: at its newline, or behind all that waits where that is too long. None at the end of the input.
    // What is written so far goes out before the input is waited for.
    fn line_end(&mut self, out: &mut impl Write) -> io::Result<Option<usize>>
        ensures { IfOk result (λ found. IfSome found (λ end. (self.new.from ≤ end) × (end ≤ self.new.to))) }
    {
        let mut end = script::until(&self.bytes[..self.to], self.from, b'\n');
        // Each turn reads a byte at least, and looks at what it read.
        while end == self.to && end - self.from <= LINE {
            out.flush()?;
            self.keep();
            let seen = self.to;
            if !self.more()? {
                return Ok(None);
            }
            end = script::until(&self.bytes[..self.to], seen, b'\n');
        }
        Ok(Some(end))
    }

    // The next line without its newline, or what waits of one that is too long.
    // None at the end of the input: what follows the last newline is no line.
    pub fn next_line(&mut self, out: &mut impl Write) -> io::Result<Option<&[u8]>> {
        let Some(end) = self.line_end(out)? else {
            return Ok(None);
        };
        let from = self.from;
        self.from = self.to.min(end + 1);
        let all = &self.bytes[..];
        Ok(Some(&all[from..end]))
    }
}
