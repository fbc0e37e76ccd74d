// "Opening": the sector whose header wins, its records and head, and the log that they make.
// Here stand the header that wins and next_seq.
#![tactic(auto)]

mod sector; // one pass over the slots of the sector that won
mod opening; // open, and the scan of a region

pub use opening::{open, scan_region};

// What stands here uses:
ghost use Rattle.std.specs.Prelude.{◌≡◌, ◌*◌, ◌≤◌, length};
ghost use Rattle.flash.specs.Image.{sector_size, sectors_most};
ghost use Rattle.scan.specs.Choosing.{better, chosen_of};
ghost use Rattle.scan.specs.Opening.{next_of};

use basics::Answer;
use codec::Raw;
use records::{LIMIT, Log, State};

// A region as it was found: Unformatted without a header, Failed with more keys than a log can hold.
#[derive(Clone, Copy)]
pub struct RegionScan {
    pub state: State,
    pub count: usize,
    pub table: [Raw; LIMIT],
}

// What opening answers: always with a log, beside a refusal too, so this is no Result.
#[derive(Clone, Copy)]
pub struct Opened {
    pub answer: Answer,
    pub log: Log,
}

// The better of the best so far and this sector's header: the first one, or one with a higher seq.
fn better_of(best: Option<(usize, u32)>, sector: usize, header: Option<u32>) -> Option<(usize, u32)>
    ensures { result ≡ better best sector header }
{
    match (best, header) {
        (_, None) => best,
        (None, Some(seq)) => Some((sector, seq)),
        (Some((_, most)), Some(seq)) => {
            if most < seq {
                Some((sector, seq))
            } else {
                best
            }
        }
    }
}

// The sector of the valid header with the highest seq, and that seq; among equals, the lowest sector.
fn choose(image: &[u8], sectors: usize, version: u8) -> Option<(usize, u32)>
    requires { (sectors ≤ sectors_most) × (sectors * sector_size ≤ length image.now) }
    ensures { result ≡ chosen_of version sectors image.now }
{
    let mut best = None;
    for s in 0..sectors {
        let h = codec::decode_header(flash::slot(image, s, 0), version);
        best = better_of(best, s, h);
    }
    best
}

// The larger of 1 and the winner's seq plus 1, held at the maximum; 1 where nothing won or the log is Failed.
fn next_of(state: State) -> u32
    ensures { result ≡ next_of state }
{
    match state {
        State::Active { seq, .. } => seq.saturating_add(1),
        State::Unformatted | State::Failed => 1,
    }
}
