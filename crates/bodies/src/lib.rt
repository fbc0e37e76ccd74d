// "Slot layouts": the ten bytes of a record's body, as a counter, a value or an anchor, both ways.
#![tactic(auto)]

mod counters; // a credential's counter of tries
mod values; // a device value
mod anchors; // an anchor, of which not every one has a record

pub use anchors::{anchor_of, anchor_record};
pub use counters::{counter_of, counter_record};
pub use values::{value_of, value_record};
