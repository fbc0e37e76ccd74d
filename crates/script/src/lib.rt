// A script of calls, line by line: its words and numbers, and the lines that set something.
// The format: docs/REPLAY.md. A place in a line is any number: what is not there is refused.
#![tactic(auto)]

mod words; // where a word ends, and a word that is expected
mod decimals; // a number in decimal, within a limit
mod hex; // bytes in lower-case hex
mod arguments; // the numbers of a line, and a slot in hex
mod loglines; // a log, as a line gives it
mod settings; // the lines image, at, plan and log
mod board; // what the parts of the program `replay` hand each other

pub use arguments::{MAX_8, MAX_16, MAX_32, MAX_64, all_numbers, slot_at, some_numbers};
pub use board::{Board, Given, Reply};
pub use settings::setting;
pub use words::until;
