// Lines that set something: image, at, plan and log.
ghost use Rattle.std.specs.Prelude.{◌≡◌, ◌≤◌, length, IfSome};
ghost use Rattle.flash.specs.Image.{largest};

use crate::arguments::{MAX_32, MAX_64};
use crate::board::Board;
use crate::{arguments, decimals, hex, loglines, words};
use flash::{LARGEST, Plan};

// A plan with this power; its flag and number of refused programs stand at `at`.
fn plan_rest(line: &[u8], at: usize, units: Option<u64>) -> Option<Plan> {
    let [refuse_erase, refuse_programs] = arguments::all_numbers(line, at, [1, MAX_32])?;
    Some(Plan {
        units,
        refuse_erase: refuse_erase == 1,
        refuse_programs: refuse_programs as u32,
    })
}

// A plan: inf or a number of units, then the rest.
fn plan_line(line: &[u8], at: usize) -> Option<Plan> {
    if let Some(next) = words::skip(line, at, b"inf") {
        return plan_rest(line, next, None);
    }
    let (units, next) = decimals::number(line, at, MAX_64)?;
    plan_rest(line, next, Some(units))
}

// An offset, and bytes that are put into the image there; all of them must lie in it.
fn at_line(line: &[u8], at: usize, image: &mut [u8]) -> Option<()> {
    let (offset, next) = decimals::number(line, at, MAX_64)?;
    let digits = line.get(next..)?.strip_prefix(b" ")?;
    let to = offset as usize;
    let bytes = hex::hex_bytes(digits, 0, image, to) - to;
    if bytes == 0 || digits.len() % 2 != 0 || digits.len() / 2 != bytes {
        return None;
    }
    Some(())
}

// The image's length: a number above the largest stands for a wrong size, and becomes one byte.
fn size_of(len: u64) -> usize
    ensures { result ≤ largest }
{
    if (LARGEST as u64) < len {
        return 1;
    }
    len as usize
}

// The line `log`.
fn set_log(line: &[u8], at: usize, board: Board) -> Option<Board>
    ensures { IfSome result (λ b. b.len ≡ board.len) }
{
    let log = loglines::log_line(line, at)?;
    Some(Board { log, ..board })
}

// The line `plan`.
fn set_plan(line: &[u8], at: usize, board: Board) -> Option<Board>
    ensures { IfSome result (λ b. b.len ≡ board.len) }
{
    let plan = plan_line(line, at)?;
    Some(Board { plan, ..board })
}

// The line `at`.
fn set_bytes(line: &[u8], at: usize, image: &mut [u8], board: Board) -> Option<Board>
    requires { board.len ≤ length image.old }
    ensures { IfSome result (λ b. b.len ≡ board.len) }
{
    at_line(line, at, &mut image[..board.len])?;
    Some(board)
}

// The line `image`.
fn set_image(line: &[u8], at: usize, image: &mut [u8], board: Board) -> Option<Board>
    requires { largest ≤ length image.old }
    ensures { IfSome result (λ b. b.len ≤ largest) }
{
    let [number] = arguments::all_numbers(line, at, [MAX_64])?;
    let len = size_of(number);
    image[..len].fill(0xFF);
    Some(Board { len, ..board })
}

// The board behind a line whose first word ends at `e`, if it is one of these.
pub fn setting(line: &[u8], e: usize, image: &mut [u8], board: Board) -> Option<Board>
    requires e_in_bounds { (e ≤ length line.now) × (largest ≤ length image.old) }
    requires len_le_largest { board.len ≤ largest }
    ensures { IfSome result (λ b. b.len ≤ largest) }
{
    match &line[..e] {
        b"at" => set_bytes(line, e, image, board),
        b"plan" => set_plan(line, e, board),
        b"log" => set_log(line, e, board),
        b"image" => set_image(line, e, image, board),
        _ => None,
    }
}
