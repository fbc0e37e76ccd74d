// A commit: the table of records written to a new sector, in turn from a first one,
// until one takes it.
ghost use Rattle.std.specs.Prelude.{Err, ◌≡◌, Bool, ◌<◌, length, take};
ghost use Rattle.basics.specs.declared.Refusal.TheVariants.{WriteError};
ghost use Rattle.sectors.specs.Asks.{CanCommit};
ghost use Rattle.sectors.specs.Commits.{sector_after, commit_from};
ghost use Rattle.sectors.specs.Shown.{flash_with, ShowsWrote};

use crate::{Used, Wrote, rewrites};
use basics::Refusal;
use codec::Raw;
use records::{LIMIT, SEQ_MAX, State};

// The sector after s, round from the last to 0.
pub fn sector_after(sectors: usize, s: usize) -> usize
    requires { s < sectors }
    ensures { result ≡ sector_after sectors s }
{
    if s + 1 == sectors { 0 } else { s + 1 }
}

// Commits a table to the first sector that takes it, from `first` on and round, `avoid` skipped. Each that is tried takes next_seq and raises it.
pub fn commit(
    image: &mut [u8],
    sectors: usize,
    avoid: usize,
    first: usize,
    state: State,
    next_seq: u32,
    table: [Raw; LIMIT],
    count: usize,
    used: Used,
) -> Wrote
    requires { CanCommit (length image.old) sectors count used × (first < sectors) }
    ensures { (cut : Bool)
        → ShowsWrote
        (commit_from sectors sectors avoid first (take count table) (Err WriteError) state next_seq
        (flash_with image.old used cut))
        result image.new }
{
    let mut answer = Err(Refusal::WriteError);
    let mut next = next_seq;
    let mut u = used;
    let mut s = first;
    for _ in 0..sectors {
        let here = s;
        s = sector_after(sectors, s);
        let is_avoided = here == avoid;
        if is_avoided {
            continue;
        }
        if next == SEQ_MAX {
            return Wrote {
                answer: Err(Refusal::WriteError),
                state,
                next_seq: next,
                used: u,
            };
        }
        let w = rewrites::write_sector(image, here, next, table, count, u);
        let seq = next;
        next = seq + 1;
        u = w.used;
        answer = w.answer;
        if answer.is_ok() {
            let active = State::Active {
                sector: here as u32,
                seq,
                head: count as u32 + 1,
            };
            return Wrote {
                answer: Ok(()),
                state: active,
                next_seq: next,
                used: u,
            };
        }
    }
    Wrote {
        answer,
        state,
        next_seq: next,
        used: u,
    }
}
