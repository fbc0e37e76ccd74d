// What is written of a call: four of the five fields of an answer, each with a bar behind it.
ghost use Rattle.std.specs.Prelude.{◌≤◌};

use crate::output;
use codec::Raw;
use flash::Plan;
use records::{LIMIT, Log, State};
use script::Given;
use std::io;
use std::io::Write;

// Writes the value of a call, and a bar.
fn value_text(out: &mut impl Write, value: Given) -> io::Result<()> {
    match value {
        Given::Dash => out.write_all(b"-|"),
        Given::Absent => out.write_all(b"none|"),
        Given::One(x) => output::field(out, x, b"|"),
        Given::Three {
            first,
            second,
            third,
        } => {
            output::field(out, first, b" ")?;
            output::field(out, second, b" ")?;
            output::field(out, third, b"|")
        }
    }
}

// Writes a plan, and a bar.
fn plan_text(out: &mut impl Write, plan: Plan) -> io::Result<()> {
    match plan.units {
        Some(units) => output::field(out, units, b" ")?,
        None => out.write_all(b"inf ")?,
    }
    output::field(out, u64::from(plan.refuse_erase), b" ")?;
    output::field(out, u64::from(plan.refuse_programs), b"|")
}

// Writes a log's state, and a space.
fn state_text(out: &mut impl Write, state: State) -> io::Result<()> {
    match state {
        State::Unformatted => out.write_all(b"unformatted "),
        State::Failed => out.write_all(b"failed "),
        State::Active { sector, seq, head } => {
            out.write_all(b"active ")?;
            output::field(out, u64::from(sector), b" ")?;
            output::field(out, u64::from(seq), b" ")?;
            output::field(out, u64::from(head), b" ")
        }
    }
}

// Writes a space, and the twelve bytes of a record.
fn record(out: &mut impl Write, r: Raw) -> io::Result<()> {
    out.write_all(b" ")?;
    output::hex(out, &[r.tag, r.id])?;
    output::hex(out, &r.body)
}

// Whether a record is zeros only.
fn is_zeros(r: &Raw) -> bool {
    r.tag == 0 && r.id == 0 && r.body == [0; 10]
}

// How many places are written: those in the count, and beyond them up to the last that isn't zeros.
fn places(table: [Raw; LIMIT], count: usize) -> usize
    ensures { result ≤ 32 }
{
    let filled = table
        .iter()
        .rposition(|r| !is_zeros(r))
        .map_or(0, |last| last + 1);
    filled.max(count.min(LIMIT))
}

// Writes a log.
fn log_text(out: &mut impl Write, log: Log) -> io::Result<()> {
    state_text(out, log.state)?;
    out.write_all(b"next ")?;
    output::field(out, u64::from(log.next_seq), b" count ")?;
    output::number(out, log.count as u64)?;
    let table = log.table;
    for r in &table[..places(table, log.count)] {
        record(out, *r)?;
    }
    Ok(())
}

// Writes four of the five fields of an answer, each with a bar behind it.
pub fn answer(
    out: &mut impl Write,
    number: u8,
    value: Given,
    programmed: usize,
    erased: usize,
    plan: Plan,
    log: Log,
) -> io::Result<()> {
    output::field(out, u64::from(number), b" ")?;
    value_text(out, value)?;
    output::field(out, programmed as u64, b" ")?;
    output::field(out, erased as u64, b"|")?;
    plan_text(out, plan)?;
    log_text(out, log)?;
    out.write_all(b"|")
}
