// The listing of an image, as text in a lent buffer: a line with its state, then each record in decimal.
#![tactic(auto)]

ghost use Rattle.std.specs.Prelude.{◌+◌, ◌≤◌, length, take};
ghost use Rattle.records.specs.Table.{limit};
ghost use Rattle.text.specs.Text.{Puts};
ghost use Rattle.list.specs.Listing.{number, active_line, record_line, record_lines, listing_in};

use codec::Raw;
use records::{LIMIT, State};

// The bytes of the longest listing: 28 for the state, 48 for each record.
pub const LONGEST: usize = 28 + 48 * LIMIT;

// Puts a number and the byte behind it.
fn put_number(out: &mut [u8], at: usize, x: u64, behind: u8) -> usize
    requires { at + length (number x behind) ≤ length out.old }
    ensures { Puts out.old at (number x behind) out.new result }
{
    let end = text::put_decimal(out, at, x);
    text::put_byte(out, end, behind)
}

// Puts a number below 256 and the byte behind it.
fn put_small(out: &mut [u8], at: usize, x: u8, behind: u8) -> usize
    requires { at + length (number x behind) ≤ length out.old }
    ensures { Puts out.old at (number x behind) out.new result }
{
    put_number(out, at, x as u64, behind)
}

// Puts the line of an Active log: sector, seq, head and the number of records.
fn put_active(out: &mut [u8], sector: u32, seq: u32, head: u32, count: usize) -> usize
    requires { length (active_line sector seq head count) ≤ length out.old }
    ensures { Puts out.old 0 (active_line sector seq head count) out.new result }
{
    let a = text::put_bytes(out, 0, b"active ");
    let b = put_number(out, a, sector as u64, b' ');
    let c = put_number(out, b, seq as u64, b' ');
    let d = put_number(out, c, head as u64, b' ');
    put_number(out, d, count as u64, b'\n')
}

// Puts a record's line: tag, id and the ten bytes of its body.
fn put_record(out: &mut [u8], at: usize, r: Raw) -> usize
    requires { at + length (record_line r) ≤ length out.old }
    ensures { Puts out.old at (record_line r) out.new result }
{
    let a = put_small(out, at, r.tag, b' ');
    let mut to = put_small(out, a, r.id, b' ');
    for b in &r.body[..9] {
        to = put_small(out, to, *b, b' ');
    }
    put_small(out, to, r.body[9], b'\n')
}

// Puts the lines of the records in the first `count` places.
fn put_records(out: &mut [u8], at: usize, table: [Raw; LIMIT], count: usize) -> usize
    requires { (count ≤ limit) × (at + length (record_lines (take count table)) ≤ length out.old) }
    ensures { Puts out.old at (record_lines (take count table)) out.new result }
{
    let mut to = at;
    for r in &table[..count] {
        to = put_record(out, to, *r);
    }
    to
}

// Lists an image from the start of the buffer on, and answers the listing's length.
// A buffer shorter than LONGEST stays as it is, and the answer is 0: no Option, since the contract gives a length.
pub fn list(image: &[u8], out: &mut [u8]) -> usize
    ensures { Puts out.old 0 (listing_in (length out.old) image.now) out.new result }
{
    if out.len() < LONGEST {
        return 0;
    }
    let o = scan::open(image);
    if o.answer.is_err() {
        return text::put_bytes(out, 0, b"bad-image\n");
    }
    let log = o.log;
    let state = log.state;
    match state {
        State::Unformatted => text::put_bytes(out, 0, b"unformatted\n"),
        State::Failed => text::put_bytes(out, 0, b"failed\n"),
        State::Active { sector, seq, head } => {
            let n = put_active(out, sector, seq, head, log.count);
            let table = log.table;
            put_records(out, n, table, log.count)
        }
    }
}
