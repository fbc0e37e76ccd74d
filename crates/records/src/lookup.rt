// Looking a log value over once: whether it fits an image of so many sectors, and where a key stands in it.
ghost use Rattle.std.specs.Prelude.{◌≡◌};
ghost use Rattle.records.specs.Fitting.{looked_of};

use crate::fitting::Looked;
use crate::{LIMIT, Log, fitting, survey};

// In a log that fits an image of so many sectors, the place of a key, or the count, and the record held of it; none in any other.
pub fn look(log: Log, sectors: usize, tag: u8, id: u8) -> Option<Looked>
    ensures { result ≡ looked_of sectors tag id log }
{
    let state = log.state;
    let table = log.table;
    let count = log.count;
    let has_no_seq = log.next_seq == 0;
    if has_no_seq {
        return None;
    }
    let is_over = LIMIT < count;
    if is_over {
        return None;
    }
    if !fitting::state_fits(state, log.next_seq, count, sectors) {
        return None;
    }
    if !fitting::zeros_past(table, count) {
        return None;
    }
    survey::survey(table, count, tag, id)
}
