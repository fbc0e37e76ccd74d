// The program `replay`: plays the script on its standard input call by call, and writes what each answered, to compare with the Rust.
// The format: docs/REPLAY.md.
#![tactic(auto)]

mod input; // the script's lines, as they are read
mod output; // what is written, by way of a buffer; numbers, and bytes in hex
mod answers; // the fields of an answer
mod changes; // what a call changed of the image
mod queries; // the calls that only read
mod calls; // the calls that can write
mod views; // the line of a call; open, dump and list
mod sessions; // what a script works on, and each line of it played

ghost use Rattle.std.specs.Prelude.{◌≤◌, length};
ghost use Rattle.flash.specs.Image.{largest};
ghost use Rattle.replay.specs.Limits.{Sound};

use crate::input::{Input, LINE};
use crate::output::Output;
use crate::sessions::Session;
use flash::LARGEST;
use std::io;
use std::io::{Read, Write};

// Plays the next line; answers whether there may be another.
fn turn<R: Read + Drop>(
    input: &mut Input<R>,
    number: u64,
    out: &mut impl Write,
    image: &mut [u8],
    saved: &mut [u8],
    before: &mut [u8],
    session: &mut Session,
) -> io::Result<bool>
    requires largest_in_bounds { (largest ≤ length image.old) × (largest ≤ length saved.old) × (largest ≤ length before.old) }
    requires sound { Sound session.old }
    ensures { Sound session.new }
{
    let Some(line) = input.next_line(out)? else {
        return Ok(false);
    };
    let text = line.strip_suffix(b" ").unwrap_or(line);
    let is_read = line.len() <= LINE && sessions::play(out, text, image, saved, before, session)?;
    if !is_read {
        out.write_all(b"bad line ")?;
        output::field(out, number, b"\n")?;
    }
    Ok(is_read)
}

fn main(rt: HostRuntime) -> io::Result<()> {
    let mut input = Input::new(rt.stdin());
    let mut out = Output::new(&rt);
    let mut image = [0u8; LARGEST];
    let mut saved = [0u8; LARGEST];
    let mut before = [0u8; LARGEST];
    let mut session = sessions::start();
    for number in 1..u64::MAX {
        if !turn(
            &mut input,
            number,
            &mut out,
            &mut image,
            &mut saved,
            &mut before,
            &mut session,
        )? {
            break;
        }
    }
    out.flush()
}
