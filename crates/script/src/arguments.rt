// The numbers of a line, each within a limit of its own; and a slot in hex.
ghost use Rattle.script.specs.Limits.{TakenWithin, AllWithin};

use crate::{decimals, hex};
use codec::SLOT;

// The largest numbers of 8, 16, 32 and 64 bits.
pub const MAX_8: u64 = u8::MAX as u64;

pub const MAX_16: u64 = u16::MAX as u64;

pub const MAX_32: u64 = u32::MAX as u64;

pub const MAX_64: u64 = u64::MAX;

// The first N numbers from `at` on, none above its limit, and the place behind them.
#[tactic(auto, using(crate::proofs::LimitsLaws::within_zeros, crate::proofs::LimitsLaws::within_set))]
pub fn some_numbers<const N: usize>(
    line: &[u8],
    at: usize,
    most: [u64; N],
) -> Option<([u64; N], usize)>
    ensures { TakenWithin result most.entry }
{
    let mut numbers = [0u64; N];
    let mut next = at;
    for (i, limit) in most.iter().enumerate() {
        let (value, behind) = decimals::number(line, next, *limit)?;
        numbers[i] = value;
        next = behind;
    }
    Some((numbers, next))
}

// The same, where the line ends behind them.
pub fn all_numbers<const N: usize>(line: &[u8], at: usize, most: [u64; N]) -> Option<[u64; N]>
    ensures { AllWithin result most.entry }
{
    let (numbers, next) = some_numbers(line, at, most)?;
    if next == line.len() {
        Some(numbers)
    } else {
        None
    }
}

// A space, the sixteen bytes of a slot, and the line's end.
pub fn slot_at(line: &[u8], at: usize) -> Option<[u8; SLOT]> {
    hex::hex_array(line.get(at..)?.strip_prefix(b" ")?)
}
