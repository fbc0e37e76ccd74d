// What comes of a format: a sector with a table of records,
// and the log that is Active there.
ghost use Rattle.std.specs.Prelude.{◌≡◌, Bool, ◌<◌, length, take};
ghost use Rattle.records.specs.declared.State.TheVariants.{Unformatted};
ghost use Rattle.sectors.specs.Shown.{flash_with};
ghost use Rattle.decisions.specs.Outcomes.{ShowsDone};
ghost use Rattle.decisions.specs.Performing.{formatted};
ghost use Rattle.decisions.specs.Ready.{FitToWrite, Filled};

use crate::outcomes;
use crate::outcomes::Done;
use codec::Raw;
use records::{LIMIT, Log};
use sectors::Used;

// Formats an Unformatted log with the first `count` records of a table, from sector 0 on.
pub fn format_with(
    image: &mut [u8],
    log: Log,
    used: Used,
    sectors: usize,
    table: [Raw; LIMIT],
    count: usize,
) -> Done
    requires { FitToWrite (length image.old) sectors log used × (log.state ≡ Unformatted) × (0 < sectors) × Filled table count }
    ensures { (cut : Bool) → ShowsDone (formatted (take count table) sectors log (flash_with image.old used cut)) result image.new }
{
    let state = log.state;
    let w = sectors::commit(
        image,
        sectors,
        sectors,
        0,
        state,
        log.next_seq,
        table,
        count,
        used,
    );
    outcomes::finish(w, 0, log, table, count)
}
