// One pass over the slots of the sector that won: its records, and where the next one goes.
ghost use Rattle.std.specs.Prelude.{◌≡◌, [], ◌+◌, ◌*◌, ◌≤◌, ◌<◌, length};
ghost use Rattle.flash.specs.Image.{sector_size, sectors_most, slot_at};
ghost use Rattle.scan.specs.Reading.{records_in, head_in};
ghost use Rattle.scan.specs.Opening.{region_of, region_read};

use crate::RegionScan;
use flash::SLOTS;
use records::{LIMIT, State};

// One pass over the slots of a sector: the records, and one past the last slot that isn't erased.
pub fn scan_sector(image: &[u8], sector: usize, seq: u32) -> RegionScan
    requires { (sector < sectors_most) × (sector * sector_size + sector_size ≤ length image.now) }
    ensures { result ≡ region_read sector seq (head_in (slot_at image.now sector)) (records_in seq (slot_at image.now sector)) }
{
    let start = codec::under(seq);
    let mut table = records::empty_table();
    let mut tags = [0u8; LIMIT];
    let mut ids = [0u8; LIMIT];
    let mut count: usize = 0;
    let mut head: u32 = 1;
    for k in 1..SLOTS {
        let slot = flash::slot(image, sector, k);
        if codec::is_erased(slot) {
            continue;
        }
        head = k as u32 + 1;
        let Some(r) = codec::decode_from(slot, start) else {
            continue;
        };
        let at = records::find(&tags, &ids, count, r.tag, r.id);
        if at < count {
            if records::replaces(r, table[at]) {
                table[at] = r;
            }
            continue;
        }
        let is_full = count == LIMIT;
        if is_full {
            return unreadable();
        }
        table[count] = r;
        tags[count] = r.tag;
        ids[count] = r.id;
        count += 1;
    }
    let state = State::Active {
        sector: sector as u32,
        seq,
        head,
    };
    RegionScan {
        state,
        count,
        table,
    }
}

// More keys than a log can hold: nothing of it is taken.
fn unreadable() -> RegionScan
    ensures { result ≡ region_of State.Failed [] }
{
    let t = records::empty_table();
    RegionScan {
        state: State::Failed,
        count: 0,
        table: t,
    }
}
