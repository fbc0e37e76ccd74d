// The line that is written of a call; and the lines that look at the image: open, dump and list.
ghost use Rattle.std.specs.Prelude.{◌≡◌, length, IfOk, IfSome};

use crate::{answers, changes, output};
use decisions::Done;
use list::LONGEST;
use script::{Board, Given, Reply};
use std::io;
use std::io::Write;

// The line of a call that leaves the image as it is.
pub fn answered(out: &mut impl Write, r: Reply, board: Board) -> io::Result<()> {
    let number = basics::number(r.answer);
    answers::answer(out, number, r.value, 0, 0, board.plan, board.log)?;
    out.write_all(b"\n")
}

// The line of a call that may have changed the image.
pub fn worked(
    out: &mut impl Write,
    value: Given,
    d: Done,
    before: &[u8],
    image: &[u8],
) -> io::Result<()>
    requires { length before.now ≡ length image.now }
{
    let number = basics::number(d.answer.map(|_| ()));
    answers::answer(out, number, value, d.programmed, d.erased, d.plan, d.log)?;
    changes::changes(out, before, image)?;
    out.write_all(b"\n")
}

// The line `open`: the image is opened anew, and its log becomes the board's.
fn open(out: &mut impl Write, image: &[u8], board: Board) -> io::Result<Board>
    ensures { IfOk result (λ b. b.len ≡ board.len) }
{
    let o = scan::open(image);
    let opened = Board {
        log: o.log,
        ..board
    };
    let r = Reply {
        answer: o.answer,
        value: Given::Dash,
    };
    answered(out, r, opened)?;
    Ok(opened)
}

// The line `dump`: the whole image in hex.
fn dump(out: &mut impl Write, image: &[u8]) -> io::Result<()> {
    output::hex(out, image)?;
    out.write_all(b"\n")
}

// The line `list`: the listing of the image.
fn listing(out: &mut impl Write, image: &[u8]) -> io::Result<()> {
    let mut text = [0u8; LONGEST];
    let len = list::list(image, &mut text);
    out.write_all(&text[..len])
}

// The board behind a line that looks at the image, if it is one of these.
pub fn look(
    out: &mut impl Write,
    line: &[u8],
    image: &[u8],
    board: Board,
) -> io::Result<Option<Board>>
    ensures { IfOk result (λ o. IfSome o (λ b. b.len ≡ board.len)) }
{
    match line {
        b"open" => return Ok(Some(open(out, image, board)?)),
        b"dump" => dump(out, image)?,
        b"list" => listing(out, image)?,
        _ => return Ok(None),
    }
    Ok(Some(board))
}
