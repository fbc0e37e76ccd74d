// What the parts of the program `replay` hand each other: the board that calls work on, and what a call answered.
// They stand on this, and not on each other.
use basics::Answer;
use flash::Plan;
use records::Log;

// What the calls work on beside the image's bytes.
#[derive(Clone, Copy)]
pub struct Board {
    pub len: usize,
    pub plan: Plan,
    pub log: Log,
}

// What a call hands back beside its answer: nothing at all, no value, or numbers.
#[derive(Clone, Copy)]
pub enum Given {
    Dash,
    Absent,
    One(u64),
    Three { first: u64, second: u64, third: u64 },
}

// What a call that only reads answered.
#[derive(Clone, Copy)]
pub struct Reply {
    pub answer: Answer,
    pub value: Given,
}
