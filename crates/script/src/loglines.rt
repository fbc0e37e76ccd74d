// A log of a script's own, as a line gives it: the state, the next seq, the count, and the records of the table.
ghost use Rattle.script.specs.Limits.{NumberWithin};

use crate::arguments::{MAX_32, MAX_64};
use crate::{arguments, decimals, hex, words};
use codec::Raw;
use records::{LIMIT, Log, State};

// A space, and the twelve bytes of a record in hex.
const RECORD: usize = 25;

// The sector, seq and head of an Active state, and the place behind them.
fn active_at(line: &[u8], at: usize) -> Option<(State, usize)> {
    let ([sector, seq, head], next) = arguments::some_numbers(line, at, [MAX_32; 3])?;
    let state = State::Active {
        sector: sector as u32,
        seq: seq as u32,
        head: head as u32,
    };
    Some((state, next))
}

// A state, active with its numbers, failed, or unformatted, and the place behind it.
fn state_at(line: &[u8], at: usize) -> Option<(State, usize)> {
    if let Some(next) = words::skip(line, at, b"active") {
        return active_at(line, next);
    }
    if let Some(next) = words::skip(line, at, b"failed") {
        return Some((State::Failed, next));
    }
    let next = words::skip(line, at, b"unformatted")?;
    Some((State::Unformatted, next))
}

// A word, a number behind it, and the place behind that.
fn named(line: &[u8], at: usize, word: &[u8], most: u64) -> Option<(u64, usize)>
    ensures { NumberWithin result most }
{
    decimals::number(line, words::skip(line, at, word)?, most)
}

// The record of a space and twelve bytes in hex.
fn record_of(text: &[u8]) -> Option<Raw> {
    let digits = text.strip_prefix(b" ")?;
    let tag = hex::hex_byte(digits, 0)?;
    let id = hex::hex_byte(digits, 2)?;
    let body = hex::hex_array(digits.get(4..)?)?;
    Some(Raw { tag, id, body })
}

// Records up to the line's end; the places behind them are zeros.
fn table_at(line: &[u8], at: usize) -> Option<[Raw; LIMIT]> {
    let rest = line.get(at..)?;
    if LIMIT * RECORD < rest.len() {
        return None;
    }
    let mut table = records::empty_table();
    for (place, text) in table.iter_mut().zip(rest.chunks(RECORD)) {
        *place = record_of(text)?;
    }
    Some(table)
}

// The log that a line gives: state, next and count, then the records.
pub fn log_line(line: &[u8], at: usize) -> Option<Log> {
    let (state, at) = state_at(line, at)?;
    let (next_seq, at) = named(line, at, b"next", MAX_32)?;
    let (count, at) = named(line, at, b"count", MAX_64)?;
    let table = table_at(line, at)?;
    Some(Log {
        state,
        next_seq: next_seq as u32,
        count: count as usize,
        table,
    })
}
