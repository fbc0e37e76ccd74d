// What a script works on, and each line of it played: passed over, save and restore, a setting, or a call.
ghost use Rattle.std.specs.Prelude.{◌≡◌, ◌≤◌, length, IfOk, IfSome};
ghost use Rattle.flash.specs.Image.{largest};
ghost use Rattle.replay.specs.Limits.{Sound};

use crate::{calls, queries, views};
use flash::Plan;
use records::State;
use script::Board;
use std::io;
use std::io::Write;

// The board as it stands, and the one that `save` kept. What lies in the image, and what was kept of it, stands in buffers of its own.
#[derive(Clone, Copy)]
pub struct Session {
    pub now: Board,
    pub kept: Board,
}

// A script's start: no image, a plan that refuses nothing, an Unformatted log; and as if this had been kept.
pub fn start() -> Session
    ensures { Sound result }
{
    let plan = Plan {
        units: None,
        refuse_erase: false,
        refuse_programs: 0,
    };
    let board = Board {
        len: 0,
        plan,
        log: records::empty(State::Unformatted, 1),
    };
    Session {
        now: board,
        kept: board,
    }
}

// The board behind a call that can write, if the line is one. The image is copied first, so that what changed is seen.
fn write(
    out: &mut impl Write,
    line: &[u8],
    e: usize,
    image: &mut [u8],
    before: &mut [u8],
    board: Board,
) -> io::Result<Option<Board>>
    requires e_in_bounds { e ≤ length line.now }
    requires same_len { length before.old ≡ length image.old }
    ensures { IfOk result (λ o. IfSome o (λ b. b.len ≡ board.len)) }
{
    before.copy_from_slice(image);
    let Some(w) = calls::write(line, e, image, board.log, board.plan) else {
        return Ok(None);
    };
    views::worked(out, w.value, w.done, before, image)?;
    Ok(Some(Board {
        len: board.len,
        plan: w.done.plan,
        log: w.done.log,
    }))
}

// The board behind any call, or behind a line that shows the image.
fn call(
    out: &mut impl Write,
    line: &[u8],
    e: usize,
    image: &mut [u8],
    before: &mut [u8],
    board: Board,
) -> io::Result<Option<Board>>
    requires e_in_bounds { e ≤ length line.now }
    requires same_len { length before.old ≡ length image.old }
    ensures { IfOk result (λ o. IfSome o (λ b. b.len ≡ board.len)) }
{
    if let Some(r) = queries::read(line, e, board.log) {
        views::answered(out, r, board)?;
        return Ok(Some(board));
    }
    if let Some(new) = views::look(out, line, image, board)? {
        return Ok(Some(new));
    }
    write(out, line, e, image, before, board)
}

// The board behind any line but those that are passed over, save and restore.
fn work(
    out: &mut impl Write,
    line: &[u8],
    image: &mut [u8],
    before: &mut [u8],
    board: Board,
) -> io::Result<Option<Board>>
    requires largest_in_bounds { (largest ≤ length image.old) × (largest ≤ length before.old) }
    requires len_le_largest { board.len ≤ largest }
    ensures { IfOk result (λ o. IfSome o (λ b. b.len ≤ largest)) }
{
    let e = script::until(line, 0, b' ');
    if let Some(set) = script::setting(line, e, image, board) {
        return Ok(Some(set));
    }
    let n = board.len;
    call(out, line, e, &mut image[..n], &mut before[..n], board)
}

// Plays a line, without its newline and a space at its end; answers whether it could be read.
pub fn play(
    out: &mut impl Write,
    line: &[u8],
    image: &mut [u8],
    saved: &mut [u8],
    before: &mut [u8],
    session: &mut Session,
) -> io::Result<bool>
    requires largest_in_bounds { (largest ≤ length image.old) × (largest ≤ length saved.old) × (largest ≤ length before.old) }
    requires sound { Sound session.old }
    ensures { Sound session.new }
{
    match line {
        [] | [b'#', ..] => {}
        b"save" => {
            let n = session.now.len;
            saved[..n].copy_from_slice(&image[..n]);
            session.kept = session.now;
        }
        b"restore" => {
            let n = session.kept.len;
            image[..n].copy_from_slice(&saved[..n]);
            session.now = session.kept;
        }
        _ => match work(out, line, image, before, session.now)? {
            Some(board) => session.now = board,
            None => return Ok(false),
        },
    }
    Ok(true)
}
