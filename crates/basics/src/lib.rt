// What every crate shares: the answers 0 to 9 of document 01, and numbers as bytes, lowest first.
// specs/ also has the choices and lists that all definitions are written with.
#![tactic(auto)]

mod le_bytes; // a number as two, four or eight bytes
mod le_numbers; // the number that bytes spell

ghost use Rattle.std.specs.Prelude.{◌≡◌};
ghost use Rattle.basics.specs.Answers.{refusal_number, number_of, is_done};
ghost use Rattle.basics.specs.Says.{value_told, flag_told};

pub use le_bytes::{bytes2, bytes4, bytes8};
pub use le_numbers::{joined, number2, number4};

// Why a call was refused, in the order of the numbers 1 to 9.
#[derive(Clone, Copy, Debug, PartialEq, Eq)]
pub enum Refusal {
    BadImage,
    BadLog,
    BadId,
    NotFormatted,
    ReadError,
    WriteError,
    EraseError,
    KeystoreFull,
    IntegrityFailure,
}

// What a call answers that hands back no value.
pub type Answer = Result<(), Refusal>;

impl Refusal {
    // The number of a refusal in document 01's table.
    pub fn number(self) -> u8
        ensures { result ≡ refusal_number self }
    {
        match self {
            Refusal::BadImage => 1,
            Refusal::BadLog => 2,
            Refusal::BadId => 3,
            Refusal::NotFormatted => 4,
            Refusal::ReadError => 5,
            Refusal::WriteError => 6,
            Refusal::EraseError => 7,
            Refusal::KeystoreFull => 8,
            Refusal::IntegrityFailure => 9,
        }
    }
}

// The number of an answer in document 01's table: 0 where it is done.
pub fn number(answer: Answer) -> u8
    ensures { result ≡ number_of answer }
{
    match answer {
        Ok(()) => 0,
        Err(refusal) => refusal.number(),
    }
}

// Whether an answer is 0: the call was done.
pub fn is_done(answer: Answer) -> bool
    ensures { result ≡ is_done answer }
{
    number(answer) == 0
}

// The number that a call tells: 0 beside a refusal.
pub fn value(answer: Result<u64, Refusal>) -> u64
    ensures { result ≡ value_told answer }
{
    answer.unwrap_or(0)
}

// A flag that a call tells, as a number: 1 where it is true; 0 where it is false, and beside a refusal.
pub fn flag(answer: Result<bool, Refusal>) -> u64
    ensures { result ≡ flag_told answer }
{
    match answer {
        Ok(is_so) => u64::from(is_so),
        Err(_) => 0,
    }
}
