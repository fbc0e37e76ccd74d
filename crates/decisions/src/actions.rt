// What comes of a decision: an answer without a write, or a record appended.
// The log is taken apart here, once a call.
ghost use Rattle.std.specs.Prelude.{◌≡◌, Bool, length};
ghost use Rattle.records.specs.declared.State.TheVariants.{Active};
ghost use Rattle.sectors.specs.Shown.{flash_with};
ghost use Rattle.decisions.specs.Outcomes.{ShowsDone};
ghost use Rattle.decisions.specs.Performing.{appended};
ghost use Rattle.decisions.specs.Ready.{FitToWrite, Placed, Ready, performed_on};

use crate::outcomes::Done;
use crate::{Decision, outcomes};
use basics::Refusal;
use codec::Raw;
use records::{Log, State};
use sectors::Used;

// Appends a record whose key has its place at `at`, and answers with this value.
fn write_record(
    image: &mut [u8],
    log: Log,
    used: Used,
    sectors: usize,
    sector: u32,
    seq: u32,
    head: u32,
    at: usize,
    rec: Raw,
    value: u64,
) -> Done
    requires { FitToWrite (length image.old) sectors log used × (log.state ≡ Active sector seq head) × Placed log at rec }
    ensures { (cut : Bool)
        → ShowsDone (appended (Active sector seq head) sectors rec value log (flash_with image.old used cut)) result
        image.new }
{
    let count = records::new_count(log.count, at);
    let mut table = log.table;
    table[at] = rec;
    let w = sectors::append(
        image,
        sectors,
        sector as usize,
        seq,
        head,
        log.next_seq,
        rec,
        table,
        count,
        used,
    );
    outcomes::finish(w, value, log, table, count)
}

// Does what was decided, where the call was let in and the log is Active; 4 or 5 where it isn't. Beside a decision stands the place of its key.
pub fn perform(
    image: &mut [u8],
    log: Log,
    used: Used,
    sectors: usize,
    decided: Result<(usize, Decision), Refusal>,
) -> Done
    requires { Ready (length image.old) sectors log used decided }
    ensures { (cut : Bool) → ShowsDone (performed_on decided sectors log (flash_with image.old used cut)) result image.new }
{
    let (at, decision) = match decided {
        Err(refusal) => return outcomes::answered(Err(refusal), log, used),
        Ok(x) => x,
    };
    // Left early, so that what is handed back is put together in its place.
    let (sector, seq, head) = match log.state {
        State::Unformatted => return outcomes::answered(Err(Refusal::NotFormatted), log, used),
        State::Failed => return outcomes::answered(Err(Refusal::ReadError), log, used),
        State::Active { sector, seq, head } => (sector, seq, head),
    };
    let (rec, value) = match decision {
        Decision::Refuse(refusal) => return outcomes::answered(Err(refusal), log, used),
        Decision::Give(value) => return outcomes::answered(Ok(value), log, used),
        Decision::Write { rec, value } => (rec, value),
    };
    write_record(image, log, used, sectors, sector, seq, head, at, rec, value)
}
