// "Tries": the applets' helpers. What each comes to is defined in specs/Tries.antt.
// Here stand remaining and load, which only read; `reads::lamport` is the clock's reader.
#![tactic(auto)]

mod spends; // spend, set
mod clock; // advance_lamport

pub use clock::advance_lamport;
pub use spends::{set, spend};

// What stands here uses:
ghost use Rattle.std.specs.Prelude.{◌≡◌};
ghost use Rattle.basics.specs.Says.{option_says};
ghost use Rattle.tries.specs.Tries.{tries_left_of, tries_left_says_of, load_of};

use basics::Refusal;
use records::Log;

// The tries left of a credential: its counter's, where one is held.
pub fn remaining(log: Log, credential: u8) -> Result<Option<u8>, Refusal>
    ensures { (result ≡ tries_left_of log credential) × (option_says result ≡ tries_left_says_of log credential) }
{
    let held = reads::get(log, credential)?;
    Ok(held.map(|counter| counter.remaining()))
}

// The tries that an applet starts with. 0 where the log would answer 4 or 5; the fresh number only if nothing is held and no record exists.
pub fn load(log: Log, credential: u8, exists: bool, fresh: u8) -> Result<u8, Refusal>
    ensures { result ≡ load_of log credential exists fresh }
{
    match remaining(log, credential) {
        Ok(held) => {
            let is_lost = exists;
            Ok(held.unwrap_or(if is_lost { 0 } else { fresh }))
        }
        Err(refusal) => {
            let is_of_state = 4 <= refusal.number();
            if is_of_state { Ok(0) } else { Err(refusal) }
        }
    }
}
