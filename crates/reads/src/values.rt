// The call that reads a value of the log. It takes no image, so the log is tested against the most sectors that one has.
ghost use Rattle.std.specs.Prelude.{◌≡◌};
ghost use Rattle.basics.specs.Says.{option_says};
ghost use Rattle.reads.specs.Reads.{value_of, value_says};

use basics::Refusal;
use flash::SECTORS_MOST;
use records::{Log, State};

// The number held of a value id.
pub fn value(log: Log, id: u8) -> Result<Option<u64>, Refusal>
    ensures { (result ≡ value_of log id) × (option_says result ≡ value_says log id) }
{
    let known = ids::is_value(id);
    let e = crate::enter(log, SECTORS_MOST, known, ids::VALUE_TAG, id)?;
    match log.state {
        State::Unformatted => Err(Refusal::NotFormatted),
        State::Failed => Err(Refusal::ReadError),
        State::Active { .. } => Ok(e.held.map(|raw| bodies::value_of(raw))),
    }
}
