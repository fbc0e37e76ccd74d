// A sector written anew: erased and checked, the records from slot 1 on, and the header last.
ghost use Rattle.std.specs.Prelude.{Bool, ◌+◌, ◌≤◌, length, take};
ghost use Rattle.records.specs.Table.{limit};
ghost use Rattle.sectors.specs.Asks.{HasSector, SlotsMore, SectorsMore};
ghost use Rattle.sectors.specs.Sectors.{write_records, write_sector};
ghost use Rattle.sectors.specs.Shown.{flash_with, ShowsStep};

use crate::{Step, Used};
use codec::Raw;
use records::LIMIT;

// Programs the records, from slot 1 on.
fn write_records(
    image: &mut [u8],
    sector: usize,
    seq: u32,
    table: [Raw; LIMIT],
    count: usize,
    used: Used,
) -> Step
    requires { (count ≤ limit) × HasSector (length image.old) sector × SlotsMore count used }
    ensures { (cut : Bool)
        → ShowsStep (write_records sector seq 1 (take count table) (flash_with image.old used cut)) result image.new }
{
    let start = codec::under(seq);
    let mut u = used;
    for i in 0..count {
        let r = table[i];
        let s = crate::program(image, sector, i + 1, codec::encode_from(r, start), u);
        let answer = s.answer;
        if !answer.is_ok() {
            return s;
        }
        u = s.used;
    }
    Step {
        answer: Ok(()),
        used: u,
    }
}

// Erases a sector, checks that all is erased, programs the records, and the header last.
pub fn write_sector(
    image: &mut [u8],
    sector: usize,
    seq: u32,
    table: [Raw; LIMIT],
    count: usize,
    used: Used,
) -> Step
    requires { (count ≤ limit) × HasSector (length image.old) sector × SlotsMore (count + 1) used × SectorsMore 1 used }
    ensures { (cut : Bool)
        → ShowsStep (write_sector sector seq (take count table) (flash_with image.old used cut)) result image.new }
{
    let e = crate::erase(image, sector, used);
    let erased = e.answer;
    if !erased.is_ok() {
        return e;
    }
    let w = write_records(image, sector, seq, table, count, e.used);
    let written = w.answer;
    if !written.is_ok() {
        return w;
    }
    crate::program(image, sector, 0, codec::encode_header(seq), w.used)
}
