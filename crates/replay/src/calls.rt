// What can write: each line gives a request, which is made on a plan in its place; and what was answered.
ghost use Rattle.std.specs.Prelude.{◌≤◌, [], ◌∷◌, length};
ghost use Rattle.script.specs.Limits.{Within};

use basics::Refusal;
use decisions::{Done, SEEDS, Seed};
use flash::Plan;
use host::{Kind, Request};
use ids::{Anchor, CounterState};
use records::Log;
use script::{Given, MAX_8, MAX_16, MAX_32, MAX_64};

// What a call on an image answered.
#[derive(Clone, Copy)]
pub struct Work {
    pub value: Given,
    pub done: Done,
}

// The limits of a credential, its allowance, its total and its total at the last reset.
const COUNTER: [u64; 4] = [MAX_8, MAX_8, MAX_32, MAX_32];

// The credential and counter of four such numbers.
fn seed_of(numbers: [u64; 4]) -> Seed
    requires { Within numbers (255 ∷ 255 ∷ 4294967295 ∷ 4294967295 ∷ []) }
{
    let [credential, allowance, total, at_reset] = numbers;
    let state = CounterState {
        total: total as u32,
        at_reset: at_reset as u32,
        allowance: allowance as u8,
    };
    Seed {
        credential: credential as u8,
        state,
    }
}

// The line `put`.
fn put(line: &[u8], e: usize) -> Option<Request> {
    let Seed { credential, state } = seed_of(script::all_numbers(line, e, COUNTER)?);
    Some(Request::of(Kind::Put {
        credential,
        new: state,
    }))
}

// The line `put_value`.
fn put_value(line: &[u8], e: usize) -> Option<Request> {
    let [id, new] = script::all_numbers(line, e, [MAX_8, MAX_64])?;
    let id = id as u8;
    Some(Request::of(Kind::PutValue { id, new }))
}

// The line `put_anchor`.
fn put_anchor(line: &[u8], e: usize) -> Option<Request> {
    let [format_gen, head_seq, head_slot] = script::all_numbers(line, e, [MAX_16, MAX_64, MAX_16])?;
    let new = Anchor {
        format_gen: format_gen as u16,
        head_seq,
        head_slot: head_slot as u16,
    };
    Some(Request::of(Kind::PutAnchor(new)))
}

// Seeds up to the line's end; places not written are zeros.
fn seeds_at(line: &[u8], at: usize) -> Option<[Seed; SEEDS]> {
    let none = Seed {
        credential: 0,
        state: CounterState::fresh(0),
    };
    let mut seeds = [none; SEEDS];
    let mut from = at;
    for place in seeds.iter_mut() {
        if line.len() <= from {
            break;
        }
        let (numbers, next) = script::some_numbers(line, from, COUNTER)?;
        *place = seed_of(numbers);
        from = next;
    }
    if from < line.len() {
        return None;
    }
    Some(seeds)
}

// The line `format`.
fn format(line: &[u8], e: usize) -> Option<Request> {
    let ([count], next) = script::some_numbers(line, e, [MAX_64])?;
    let seeds = seeds_at(line, next)?;
    Some(Request::format(seeds, count as usize))
}

// The line `spend`.
fn spend(line: &[u8], e: usize) -> Option<Request> {
    let [credential, current] = script::all_numbers(line, e, [MAX_8, MAX_8])?;
    Some(Request::of(Kind::Spend {
        credential: credential as u8,
        current: current as u8,
    }))
}

// The line `set`.
fn set(line: &[u8], e: usize) -> Option<Request> {
    let [credential, tries] = script::all_numbers(line, e, [MAX_8, MAX_8])?;
    Some(Request::of(Kind::Set {
        credential: credential as u8,
        tries: tries as u8,
    }))
}

// The line `advance_lamport`.
fn advance_lamport(line: &[u8], e: usize) -> Option<Request> {
    let [seen] = script::all_numbers(line, e, [MAX_64])?;
    Some(Request::of(Kind::AdvanceLamport { seen }))
}

// The line `program`.
fn program(line: &[u8], e: usize) -> Option<Request> {
    let ([sector, slot], next) = script::some_numbers(line, e, [MAX_64, MAX_64])?;
    let bytes = script::slot_at(line, next)?;
    Some(Request::program(sector as usize, slot as usize, bytes))
}

// The line `erase`.
fn erase(line: &[u8], e: usize) -> Option<Request> {
    let [sector] = script::all_numbers(line, e, [MAX_64])?;
    let sector = sector as usize;
    Some(Request::of(Kind::Erase { sector }))
}

// The request of a line whose first word ends at `e`.
fn request_of(line: &[u8], e: usize) -> Option<Request>
    requires { e ≤ length line.now }
{
    match &line[..e] {
        b"put" => put(line, e),
        b"put_value" => put_value(line, e),
        b"put_anchor" => put_anchor(line, e),
        b"format" => format(line, e),
        b"spend" => spend(line, e),
        b"set" => set(line, e),
        b"advance_lamport" => advance_lamport(line, e),
        b"program" => program(line, e),
        b"erase" => erase(line, e),
        _ => None,
    }
}

// What a request hands back beside its number: 0 beside a refusal, where it tells a value.
fn value_of(request: Request, answer: Result<u64, Refusal>) -> Given {
    match request.kind {
        Kind::Spend { .. } | Kind::AdvanceLamport { .. } => Given::One(basics::value(answer)),
        _ => Given::Dash,
    }
}

// A request on a plan in its place. The plan handed back is the one that a second request, which asks nothing, finds there.
fn in_place(image: &mut [u8], log: Log, plan: Plan, request: Request) -> Done {
    let turns = host::in_turn(image, log, plan, request, Request::of(Kind::Nothing));
    Done {
        plan: turns.second.plan,
        ..turns.first
    }
}

// The line `attempt`: the try's answer, beside the number's answer, the number, and the tries before.
fn attempt(line: &[u8], e: usize, image: &mut [u8], log: Log, plan: Plan) -> Option<Work> {
    let [credential, current, seen] = script::all_numbers(line, e, [MAX_8, MAX_8, MAX_64])?;
    let turns = host::attempt(image, log, plan, credential as u8, current as u8, seen);
    let numbered = turns.first;
    let spent = turns.second;
    Some(Work {
        value: Given::Three {
            first: u64::from(basics::number(numbered.answer.map(|_| ()))),
            second: basics::value(numbered.answer),
            third: basics::value(spent.answer),
        },
        done: spent,
    })
}

// What a line whose first word ends at `e` did, if it is one that can write.
pub fn write(line: &[u8], e: usize, image: &mut [u8], log: Log, plan: Plan) -> Option<Work>
    requires { e ≤ length line.now }
{
    if let b"attempt" = &line[..e] {
        return attempt(line, e, image, log, plan);
    }
    let request = request_of(line, e)?;
    let done = in_place(image, log, plan, request);
    Some(Work {
        value: value_of(request, done.answer),
        done,
    })
}
