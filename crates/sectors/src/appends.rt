// An append: one record into the active sector in up to three tries,
// or a commit where that sector is full.
ghost use Rattle.std.specs.Prelude.{Err, Bool, ◌≤◌, length, take};
ghost use Rattle.basics.specs.declared.Refusal.TheVariants.{WriteError};
ghost use Rattle.records.specs.Fitting.{head_max};
ghost use Rattle.sectors.specs.Asks.{HasSector, SlotsMore, CanAppend};
ghost use Rattle.sectors.specs.Appends.{tries_from, append_of};
ghost use Rattle.sectors.specs.Shown.{flash_with, ShowsWrote, ShowsTried};

use crate::{Tried, Used, Wrote, commits};
use basics::Refusal;
use codec::{Raw, SLOT};
use records::{HEAD_MAX, LIMIT, State};

// Up to three tries of a slot, each in a new place; `full` where head reaches 256 first.
fn try_slots(image: &mut [u8], sector: usize, head: u32, bytes: [u8; SLOT], used: Used) -> Tried
    requires { (head ≤ head_max) × HasSector (length image.old) sector × SlotsMore 3 used }
    ensures { (cut : Bool)
        → ShowsTried (tries_from 3 sector head bytes (Err WriteError) (flash_with image.old used cut)) result image.new }
{
    let mut answer = Err(Refusal::WriteError);
    let mut h = head;
    let mut u = used;
    for _ in 0..3u32 {
        let is_full = h == HEAD_MAX;
        if is_full {
            return Tried {
                full: true,
                answer,
                head: h,
                used: u,
            };
        }
        let s = crate::program(image, sector, h as usize, bytes, u);
        h += 1;
        u = s.used;
        answer = s.answer;
        if answer.is_ok() {
            return Tried {
                full: false,
                answer: Ok(()),
                head: h,
                used: u,
            };
        }
    }
    Tried {
        full: false,
        answer,
        head: h,
        used: u,
    }
}

// Appends a record in the active sector; where head is 256, commits the new table to another.
pub fn append(
    image: &mut [u8],
    sectors: usize,
    sector: usize,
    seq: u32,
    head: u32,
    next_seq: u32,
    record: Raw,
    table: [Raw; LIMIT],
    count: usize,
    used: Used,
) -> Wrote
    requires { CanAppend (length image.old) sectors sector head count used }
    ensures { (cut : Bool)
        → ShowsWrote
        (append_of sectors sector seq head next_seq «record» (take count table) (flash_with image.old used cut)) result
        image.new }
{
    let w = try_slots(image, sector, head, codec::encode(record, seq), used);
    let here = State::Active {
        sector: sector as u32,
        seq,
        head: w.head,
    };
    let u = w.used;
    if w.full {
        let first = commits::sector_after(sectors, sector);
        return commits::commit(
            image, sectors, sector, first, here, next_seq, table, count, u,
        );
    }
    let answer = w.answer;
    Wrote {
        answer,
        state: here,
        next_seq,
        used: u,
    }
}
