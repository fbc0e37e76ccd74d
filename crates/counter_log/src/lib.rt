// "Writing": the calls put, put_value, put_anchor and format. What each comes to is defined in specs/Calls.antt.
// Each looks for itself, decides, and performs what it decided.
#![tactic(auto)]

mod puts; // put, put_value
mod anchors; // put_anchor, whose first one formats the log
mod formats; // format

pub use anchors::put_anchor;
pub use formats::format;
pub use puts::{put, put_value};
