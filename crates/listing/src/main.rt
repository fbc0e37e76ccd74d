// The program `listing`: lists the image on its standard input.
#![tactic(auto)]

ghost use Rattle.std.specs.Prelude.{◌≤◌, length, IfOk};

use flash::LARGEST;
use list::LONGEST;
use std::io;
use std::io::Read;

// One byte more than the largest image, so that a longer one is seen to be too long.
const SPACE: usize = LARGEST + 1;

// Reads until the buffer is full or the input ends; answers how many bytes there are then.
fn read_full(reader: &mut impl Read, buffer: &mut [u8]) -> io::Result<usize>
    ensures { IfOk result (λ n. n ≤ length buffer.new) }
{
    let mut done = 0;
    // Each turn reads a byte at least.
    while done < buffer.len() {
        match reader.read(&mut buffer[done..])? {
            0 => break,
            got => done += got,
        }
    }
    Ok(done)
}

fn main(rt: HostRuntime) -> io::Result<()> {
    let mut image = [0u8; SPACE];
    let len = read_full(&mut rt.stdin(), &mut image)?;
    let mut text = [0u8; LONGEST];
    let end = list::list(&image[..len], &mut text);
    rt.write_all(&text[..end])
}
