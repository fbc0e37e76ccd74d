// Runs the cases of "Worked by hand" through the code. Of the starred ones it writes a slot of a sector with seq 1 in
// hexadecimal, or a number; of each call its answer and value, the bytes it programmed and erased, the log that it handed
// back, and two checksums of the image: of all of it, which shows where sealed slots stand, and of what the slots hold.
#![tactic(auto)]

use codec::{Raw, SLOT};
use decisions::{Done, SEEDS, Seed};
use flash::Plan;
use ids::{Anchor, CounterState};
use list::LONGEST;
use records::{LIMIT, Log, State};
use std::io;

fn byte(rt: &impl Print, b: u8) -> io::Result<()> {
    print!(rt; "{b:02x}")
}

fn slot_line(rt: &impl Print, label: &str, slot: [u8; SLOT]) -> io::Result<()> {
    print!(rt; "{label}")?;
    for b in slot {
        byte(rt, b)?;
    }
    println!(rt)
}

fn number_line(rt: &impl Print, label: &str, n: u8) -> io::Result<()> {
    println!(rt; "{label}{n}")
}

fn counter(allowance: u8, total: u32, at_reset: u32) -> CounterState {
    CounterState {
        total,
        at_reset,
        allowance,
    }
}

fn anchor(format_gen: u16, head_seq: u64, head_slot: u16) -> Anchor {
    Anchor {
        format_gen,
        head_seq,
        head_slot,
    }
}

// An anchor's slot, or the number of what refuses it.
fn anchor_line(rt: &impl Print, label: &str, anchor: Anchor) -> io::Result<()> {
    match bodies::anchor_record(anchor) {
        Ok(raw) => slot_line(rt, label, codec::encode(raw, 1)),
        Err(refusal) => number_line(rt, label, refusal.number()),
    }
}

// Cases 1 to 5, each as the functions give it.
fn starred(rt: &impl Print) -> io::Result<()> {
    slot_line(rt, "header 1: ", codec::encode_header(1))?;
    let sum = crc::crc32(b"123456789");
    println!(rt; "crc of 123456789: {sum:08x}")?;
    let pin = counter(3, 5, 4);
    slot_line(
        rt,
        "user pin 3, 5, 4: ",
        codec::encode(bodies::counter_record(1, pin), 1),
    )?;
    number_line(rt, "remaining: ", pin.remaining())?;
    slot_line(
        rt,
        "lamport 258: ",
        codec::encode(bodies::value_record(ids::LAMPORT, 258), 1),
    )?;
    anchor_line(
        rt,
        "anchor 7, 2^48 - 1, 9: ",
        anchor(7, 281_474_976_710_655, 9),
    )?;
    anchor_line(rt, "anchor 7, 2^48, 9: ", anchor(7, 281_474_976_710_656, 9))?;
    number_line(rt, "remaining of 3, 1, 2: ", counter(3, 1, 2).remaining())?;
    number_line(rt, "remaining of 3, 4, 0: ", counter(3, 4, 0).remaining())
}

// A flash that refuses nothing.
fn calm() -> Plan {
    Plan {
        units: None,
        refuse_erase: false,
        refuse_programs: 0,
    }
}

fn refusing(programs: u32) -> Plan {
    Plan {
        refuse_programs: programs,
        ..calm()
    }
}

fn number_word(rt: &impl Print, n: u64) -> io::Result<()> {
    print!(rt; " {n}")
}

fn log_words(rt: &impl Print, log: Log) -> io::Result<()> {
    match log.state {
        State::Unformatted => print!(rt; " unformatted")?,
        State::Failed => print!(rt; " failed")?,
        State::Active { sector, seq, head } => {
            print!(rt; " active")?;
            number_word(rt, sector as u64)?;
            number_word(rt, seq as u64)?;
            number_word(rt, head as u64)?;
        }
    }
    print!(rt; " next")?;
    number_word(rt, log.next_seq as u64)?;
    print!(rt; " count")?;
    number_word(rt, log.count as u64)
}

// The checksum of the first twelve bytes of each slot. One of whole slots doesn't see what they hold, since each ends in its own.
fn contents(image: &[u8]) -> u32 {
    let mut s = crc::start();
    let (slots, _) = image.as_chunks::<SLOT>();
    for slot in slots {
        s = crc::update(s, &slot[..12]);
    }
    crc::finish(s)
}

// What a call did, on a line; the log is handed on.
fn call_line(rt: &impl Print, label: &str, image: &[u8], d: Done) -> io::Result<Log> {
    let number = basics::number(d.answer.map(|_| ()));
    print!(rt; "{label}{number}")?;
    number_word(rt, basics::value(d.answer))?;
    number_word(rt, d.programmed as u64)?;
    number_word(rt, d.erased as u64)?;
    log_words(rt, d.log)?;
    let whole = crc::crc32(image);
    let held = contents(image);
    println!(rt; " image {whole:08x} {held:08x}")?;
    Ok(d.log)
}

fn listed(rt: &impl Print, image: &[u8]) -> io::Result<()> {
    let mut out = [0u8; LONGEST];
    let len = list::list(image, &mut out);
    rt.write_all(&out[..len])
}

// The user PIN and 31 records that nobody knows, in a sector whose next slot is this.
fn crowded(head: u32) -> Log {
    let mut table = records::empty_table();
    for (i, place) in table.iter_mut().enumerate() {
        *place = Raw {
            tag: 0x60,
            id: i as u8,
            body: [0; 10],
        };
    }
    table[0] = bodies::counter_record(1, CounterState::fresh(3));
    Log {
        state: State::Active {
            sector: 0,
            seq: 1,
            head,
        },
        next_seq: 2,
        count: LIMIT,
        table,
    }
}

fn user_pin() -> [Seed; SEEDS] {
    let none = Seed {
        credential: 0,
        state: CounterState::fresh(0),
    };
    let mut seeds = [none; SEEDS];
    seeds[0] = Seed {
        credential: 1,
        state: CounterState::fresh(3),
    };
    seeds
}

// Case 6: "Lamport put of 4 over 5: 9. SignatureCounter 4 over 5: accepted." The listing shows what is held then.
fn four_over_five(rt: &impl Print) -> io::Result<()> {
    let mut image = [0xFFu8; 8192];
    let blank = records::empty(State::Unformatted, 1);
    let d = counter_log::format(&mut image, blank, calm(), user_pin(), 0);
    let l = call_line(rt, "format, no seeds: ", &image, d)?;
    let d = counter_log::put_value(&mut image, l, calm(), ids::LAMPORT, 5);
    let l = call_line(rt, "lamport 5: ", &image, d)?;
    let d = counter_log::put_value(&mut image, l, calm(), ids::LAMPORT, 4);
    let l = call_line(rt, "lamport 4 over 5: ", &image, d)?;
    let d = counter_log::put_value(&mut image, l, calm(), ids::SIGNATURE_COUNTER, 5);
    let l = call_line(rt, "signature counter 5: ", &image, d)?;
    let d = counter_log::put_value(&mut image, l, calm(), ids::SIGNATURE_COUNTER, 4);
    call_line(rt, "signature counter 4 over 5: ", &image, d)?;
    listed(rt, &image)
}

// Case 7: "32 keys: a known key is written, a new one gets 8."
fn full_table(rt: &impl Print) -> io::Result<()> {
    let mut image = [0xFFu8; 8192];
    let log = crowded(33);
    let d = tries::spend(&mut image, log, calm(), 1, 0);
    let log = call_line(rt, "32 keys, one of them spent: ", &image, d)?;
    let d = tries::spend(&mut image, log, calm(), 2, 3);
    call_line(rt, "32 keys, a new one: ", &image, d)?;
    Ok(())
}

// Case 7: "Head 255 appends, head 256 rotates."
fn full_sector(rt: &impl Print) -> io::Result<()> {
    let mut image = [0xFFu8; 8192];
    let d = tries::spend(&mut image, crowded(255), calm(), 1, 0);
    let log = call_line(rt, "head 255: ", &image, d)?;
    let d = tries::spend(&mut image, log, calm(), 1, 0);
    call_line(rt, "head 256: ", &image, d)?;
    Ok(())
}

// Case 7: "Two refused programs: success in the third slot; three: 6."
fn refused_programs(rt: &impl Print) -> io::Result<()> {
    let mut image = [0xFFu8; 8192];
    let d = tries::spend(&mut image, crowded(33), refusing(2), 1, 0);
    let log = call_line(rt, "two refused programs: ", &image, d)?;
    let d = tries::spend(&mut image, log, refusing(3), 1, 0);
    call_line(rt, "three: ", &image, d)?;
    Ok(())
}

// Case 8: "Blank 8,192 bytes, format user PIN with 3, one spend (answers 3)", and the listing.
fn one_spend(rt: &impl Print) -> io::Result<()> {
    let mut image = [0xFFu8; 8192];
    let blank = scan::open(&image).log;
    let d = counter_log::format(&mut image, blank, calm(), user_pin(), 1);
    let log = call_line(rt, "format: ", &image, d)?;
    let d = tries::spend(&mut image, log, calm(), 1, 9);
    call_line(rt, "spend: ", &image, d)?;
    listed(rt, &image)
}

// One call that gets each of the numbers 1 to 5, and is turned away before it looks at the flash.
fn turned_away(rt: &impl Print) -> io::Result<()> {
    let pin = CounterState::fresh(3);
    let mut short = [0xFFu8; 4095];
    let d = counter_log::put(&mut short, crowded(33), calm(), 1, pin);
    call_line(rt, "4,095 bytes: ", &short, d)?;
    let mut image = [0xFFu8; 8192];
    let d = counter_log::put(&mut image, crowded(257), calm(), 1, pin);
    call_line(rt, "head 257: ", &image, d)?;
    let d = counter_log::put(&mut image, crowded(33), calm(), 9, pin);
    call_line(rt, "credential 9: ", &image, d)?;
    let blank = records::empty(State::Unformatted, 1);
    let d = counter_log::put(&mut image, blank, calm(), 1, pin);
    call_line(rt, "put, unformatted: ", &image, d)?;
    let failed = records::empty(State::Failed, 1);
    let d = counter_log::put(&mut image, failed, calm(), 1, pin);
    call_line(rt, "put, failed: ", &image, d)?;
    Ok(())
}

// One that gets each of 6, 7, 8 and 9, and what it leaves.
fn refused(rt: &impl Print) -> io::Result<()> {
    let mut image = [0xFFu8; 8192];
    let d = counter_log::format(&mut image, crowded(33), calm(), user_pin(), 1);
    call_line(rt, "format, active: ", &image, d)?;
    let erase_refused = Plan {
        refuse_erase: true,
        ..calm()
    };
    let blank = records::empty(State::Unformatted, 1);
    let d = counter_log::format(&mut image, blank, erase_refused, user_pin(), 1);
    call_line(rt, "format, erases refused: ", &image, d)?;
    let d = counter_log::put_value(&mut image, crowded(33), calm(), 5, 4);
    call_line(rt, "a 33rd key: ", &image, d)?;
    let d = counter_log::put(&mut image, crowded(33), calm(), 1, counter(3, 2, 0));
    let l = call_line(rt, "put of total 2: ", &image, d)?;
    let d = counter_log::put(&mut image, l, calm(), 1, counter(3, 1, 0));
    call_line(rt, "put of total 1 over it: ", &image, d)?;
    Ok(())
}

fn main(rt: HostRuntime) -> io::Result<()> {
    starred(&rt)?;
    four_over_five(&rt)?;
    full_table(&rt)?;
    full_sector(&rt)?;
    refused_programs(&rt)?;
    one_spend(&rt)?;
    turned_away(&rt)?;
    refused(&rt)
}
