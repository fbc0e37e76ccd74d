// Opening an image: the sector whose header wins, the pass over its slots, and the log that they give.
ghost use Rattle.std.specs.Prelude.{◌≡◌};
ghost use Rattle.scan.specs.Opening.{scan_of, open_of};

use crate::{Opened, RegionScan, sector};
use basics::Refusal;
use records::{Log, State};

// What the image holds, by its headers of this version.
pub fn scan_region(image: &[u8], version: u8) -> RegionScan
    ensures { result ≡ scan_of version image.now }
{
    let n = flash::sectors(image.len());
    match crate::choose(image, n, version) {
        None => {
            let t = records::empty_table();
            RegionScan {
                state: State::Unformatted,
                count: 0,
                table: t,
            }
        }
        Some((sector, seq)) => sector::scan_sector(image, sector, seq),
    }
}

// Opens an image. It always gives a log; the answer is about the image's size alone.
pub fn open(image: &[u8]) -> Opened
    ensures { result ≡ open_of image.now }
{
    if flash::sectors(image.len()) == 0 {
        let none = records::empty(State::Failed, 1);
        return Opened {
            answer: Err(Refusal::BadImage),
            log: none,
        };
    }
    let r = scan_region(image, codec::FORMAT_VERSION);
    let table = r.table;
    let log = Log {
        state: r.state,
        next_seq: crate::next_of(r.state),
        count: r.count,
        table,
    };
    Opened {
        answer: Ok(()),
        log,
    }
}
