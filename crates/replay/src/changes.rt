// What a call changed of the image, as runs of hex: the image before it and behind it are compared.
ghost use Rattle.std.specs.Prelude.{◌≡◌, ◌<◌, ◌≤◌, length, IfOk};

use crate::output;
use std::io;
use std::io::Write;

// Bytes that are compared at once.
const BLOCK: usize = 64;

// Whether two parts are the same. Every byte is looked at, so that the loop has no branch.
fn is_alike(old: &[u8], new: &[u8]) -> bool {
    old.iter().zip(new).fold(0, |bits, (a, b)| bits | (a ^ b)) == 0
}

// The place of the first byte from `from` on that differs, or the end.
fn next_change(old: &[u8], new: &[u8], from: usize) -> usize
    requires { (length old.now ≡ length new.now) × (from ≤ length new.now) }
    ensures { (from ≤ result) × (result ≤ length new.now) }
{
    let mut at = from;
    // Whole blocks first, by a loop without a branch in each: with `==` of slices the comparison took twice the time.
    while BLOCK <= new.len() - at && is_alike(&old[at..at + BLOCK], &new[at..at + BLOCK]) {
        at += BLOCK;
    }
    let differs = old[at..].iter().zip(&new[at..]).position(|(a, b)| a != b);
    differs.map_or(new.len(), |n| at + n)
}

// Writes a run of changed bytes, whose first is at `from`; answers where it ends.
fn run(out: &mut impl Write, old: &[u8], new: &[u8], from: usize) -> io::Result<usize>
    requires { (length old.now ≡ length new.now) × (from < length new.now) }
    ensures { IfOk result (λ end. (from < end) × (end ≤ length new.now)) }
{
    let next = from + 1;
    let same = old[next..]
        .iter()
        .zip(&new[next..])
        .position(|(a, b)| a == b);
    let end = same.map_or(new.len(), |n| next + n);
    output::field(out, from as u64, b":")?;
    output::hex(out, &new[from..end])?;
    Ok(end)
}

// Writes the runs of bytes that differ, with a comma between two.
pub fn changes(out: &mut impl Write, old: &[u8], new: &[u8]) -> io::Result<()>
    requires { length old.now ≡ length new.now }
{
    let mut from = next_change(old, new, 0);
    // From run to run: where the next begins is known only when this one is written.
    while from < new.len() {
        let end = run(out, old, new, from)?;
        from = next_change(old, new, end);
        if from < new.len() {
            out.write_all(b",")?;
        }
    }
    Ok(())
}
