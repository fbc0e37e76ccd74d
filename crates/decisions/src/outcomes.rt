// What a call hands back: an answer beside the log as it came, or beside the log that was written.
// A decision is performed in actions, a format in formats; what comes of them is defined in specs/.
ghost use Rattle.std.specs.Prelude.{◌≡◌};
ghost use Rattle.decisions.specs.Ready.{answered_of, finished_of};

use basics::Refusal;
use codec::Raw;
use flash::Plan;
use records::{LIMIT, Log};
use sectors::{Used, Wrote};

// What a call on an image answers, with the value asked for or a refusal, and the log and plan that it hands back.
#[derive(Clone, Copy)]
pub struct Done {
    pub answer: Result<u64, Refusal>,
    pub programmed: usize,
    pub erased: usize,
    pub plan: Plan,
    pub log: Log,
}

// A plan of which nothing is used yet.
pub fn unused(plan: Plan) -> Used
    ensures { result ≡ record { plan = plan; programmed = 0; erased = 0 } }
{
    Used {
        plan,
        programmed: 0,
        erased: 0,
    }
}

// An answer without a write: the log is handed back as it came.
pub fn answered(answer: Result<u64, Refusal>, log: Log, used: Used) -> Done
    ensures { result ≡ answered_of answer log used }
{
    let plan = used.plan;
    Done {
        answer,
        programmed: used.programmed,
        erased: used.erased,
        plan,
        log,
    }
}

// An answer after a write: where it is done the new table becomes the log's, else the old one stays.
pub fn finish(w: Wrote, value: u64, log: Log, table: [Raw; LIMIT], count: usize) -> Done
    ensures { result ≡ finished_of w value log table count }
{
    match w.answer {
        Ok(()) => {
            let new = Log {
                state: w.state,
                next_seq: w.next_seq,
                count,
                table,
            };
            answered(Ok(value), new, w.used)
        }
        Err(refusal) => {
            let old = Log {
                state: w.state,
                next_seq: w.next_seq,
                ..log
            };
            answered(Err(refusal), old, w.used)
        }
    }
}
