// The calls that only read the log: each reads its numbers from the line, calls the library, and says what it answered.
ghost use Rattle.std.specs.Prelude.{◌≤◌, length};

use basics::Refusal;
use records::Log;
use script::{Given, MAX_8, Reply};

// The reply of a call that looks for one record: none beside a refusal.
fn held(told: Result<Given, Refusal>) -> Reply {
    Reply {
        answer: told.map(|_| ()),
        value: told.unwrap_or(Given::Absent),
    }
}

// The reply of a call that tells a number: 0 beside a refusal.
fn number(told: Result<u64, Refusal>) -> Reply {
    Reply {
        answer: told.map(|_| ()),
        value: Given::One(basics::value(told)),
    }
}

// The reply of a call that tells whether something is so: 1 or 0.
fn flag(told: Result<bool, Refusal>) -> Reply {
    Reply {
        answer: told.map(|_| ()),
        value: Given::One(basics::flag(told)),
    }
}

// The line `get`.
fn get(log: Log, credential: u8) -> Result<Given, Refusal> {
    Ok(match reads::get(log, credential)? {
        Some(counter) => Given::Three {
            first: u64::from(counter.allowance),
            second: u64::from(counter.total),
            third: u64::from(counter.at_reset),
        },
        None => Given::Absent,
    })
}

// The line `value`.
fn value(log: Log, id: u8) -> Result<Given, Refusal> {
    let held = reads::value(log, id)?;
    Ok(held.map_or(Given::Absent, |number| Given::One(number)))
}

// The line `anchor`.
fn anchor(log: Log) -> Result<Given, Refusal> {
    Ok(match reads::anchor(log)? {
        Some(anchor) => Given::Three {
            first: u64::from(anchor.format_gen),
            second: anchor.head_seq,
            third: u64::from(anchor.head_slot),
        },
        None => Given::Absent,
    })
}

// The line `remaining`.
fn remaining(log: Log, credential: u8) -> Result<Given, Refusal> {
    let tries = tries::remaining(log, credential)?;
    Ok(tries.map_or(Given::Absent, |number| Given::One(u64::from(number))))
}

// A call without numbers: the line is its word.
fn read_none(line: &[u8], log: Log) -> Option<Reply> {
    match line {
        b"anchor" => Some(held(anchor(log))),
        b"lamport" => Some(number(reads::lamport(log))),
        b"needs_migration" => Some(flag(reads::needs_migration(log))),
        _ => None,
    }
}

// A call with a credential or an id.
fn read_one(line: &[u8], e: usize, log: Log) -> Option<Reply>
    requires { e ≤ length line.now }
{
    let [id] = script::all_numbers(line, e, [MAX_8])?;
    let id = id as u8;
    match &line[..e] {
        b"get" => Some(held(get(log, id))),
        b"value" => Some(held(value(log, id))),
        b"remaining" => Some(held(remaining(log, id))),
        _ => None,
    }
}

// The line `load`.
fn load(line: &[u8], e: usize, log: Log) -> Option<Reply> {
    let [credential, exists, fresh] = script::all_numbers(line, e, [MAX_8, 1, MAX_8])?;
    let tries = tries::load(log, credential as u8, exists == 1, fresh as u8);
    Some(number(tries.map(u64::from)))
}

// What a line whose first word ends at `e` answered, if it is a call that only reads the log.
pub fn read(line: &[u8], e: usize, log: Log) -> Option<Reply>
    requires { e ≤ length line.now }
{
    if let b"load" = &line[..e] {
        return load(line, e, log);
    }
    read_none(line, log).or_else(|| read_one(line, e, log))
}
