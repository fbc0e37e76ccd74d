// Credentials, values and anchors by their numbers, what a tag and id mean, and the counter of tries.
// The counter's methods are the paper's: remaining, after a failure, after a reset.
#![tactic(auto)]

mod meanings; // which ids are known, and what a tag and id mean

pub use meanings::{is_credential, is_monotonic, is_value, meaning_of};

// What stands here uses:
ghost use Rattle.std.specs.Prelude.{◌≡◌};
ghost use Rattle.basics.specs.Says.{result_says};
ghost use Rattle.ids.specs.Counters.{fresh_of, remaining_of, failed_of, failed_says, reset_of};

use basics::Refusal;

// The ids of the device values; the numbers stand on flash, so they never change.
pub const LAMPORT: u8 = 1;

pub const POOL_CLOCK: u8 = 2;

pub const POOL_CONFIG: u8 = 3;

pub const POOL_SEQ: u8 = 4;

pub const SIGNATURE_COUNTER: u8 = 5;

pub const STORE_DEGRADED_OPENS: u8 = 6;

pub const STORE_REANCHORS: u8 = 7;

pub const STORE_LAST_REANCHOR: u8 = 8;

// The tag of each kind of record.
pub const COUNTER_TAG: u8 = 0x52;

pub const VALUE_TAG: u8 = 0x4C;

pub const ANCHOR_TAG: u8 = 0x41;

// The highest total of failures that a record holds.
const TOTAL_MAX: u32 = 4_294_967_295;

// The highest head_seq that fits the 48 bits of an anchor record.
pub const ANCHOR_SEQ_MAX: u64 = 281_474_976_710_655;

// What a tag and id mean; a free value may fall, a monotonic one may not.
#[derive(Clone, Copy, Debug, PartialEq, Eq)]
pub enum Meaning {
    Credential(usize),
    Monotonic,
    Free,
    Anchor,
    Unknown,
}

// The counter of one credential: failures ever, their number at the last reset, and the tries granted then.
#[derive(Clone, Copy, Debug, PartialEq, Eq)]
pub struct CounterState {
    pub total: u32,
    pub at_reset: u32,
    pub allowance: u8,
}

// The head of a key store's log, by which the store is found again.
#[derive(Clone, Copy, Debug, PartialEq, Eq)]
pub struct Anchor {
    pub format_gen: u16,
    pub head_seq: u64,
    pub head_slot: u16,
}

impl CounterState {
    // The counter of a credential that nobody has tried yet.
    pub fn fresh(allowance: u8) -> Self
        ensures { result ≡ fresh_of allowance }
    {
        CounterState {
            total: 0,
            at_reset: 0,
            allowance,
        }
    }

    // The tries that are left: 0 if total is below at_reset, else the allowance less the failures since the reset, not below 0.
    pub fn remaining(self) -> u8
        ensures { result ≡ remaining_of self }
    {
        let total = self.total;
        let at_reset = self.at_reset;
        let allowance = self.allowance as u32;
        if total < at_reset {
            return 0;
        }
        let spent = total - at_reset;
        if allowance < spent {
            return 0;
        }
        (allowance - spent) as u8
    }

    // The counter after one failure more. At the highest total it is refused: a total that wrapped would hand back tries.
    pub fn after_failure(self) -> Result<CounterState, Refusal>
        ensures { (result ≡ failed_of self) × (result_says result ≡ failed_says self) }
    {
        if self.total == TOTAL_MAX {
            return Err(Refusal::WriteError);
        }
        Ok(CounterState {
            total: self.total + 1,
            ..self
        })
    }

    // The counter after a reset to this many tries.
    pub fn after_reset(self, tries: u8) -> Self
        ensures { result ≡ reset_of self tries }
    {
        CounterState {
            at_reset: self.total,
            allowance: tries,
            ..self
        }
    }
}
