// The call that reads a counter of the log. It takes no image, so the log is tested against the most sectors that one has.
ghost use Rattle.std.specs.Prelude.{◌≡◌};
ghost use Rattle.basics.specs.Says.{option_says};
ghost use Rattle.reads.specs.Reads.{get_of, get_says};

use basics::Refusal;
use flash::SECTORS_MOST;
use ids::CounterState;
use records::{Log, State};

// The counter held of a credential.
pub fn get(log: Log, credential: u8) -> Result<Option<CounterState>, Refusal>
    ensures { (result ≡ get_of log credential) × (option_says result ≡ get_says log credential) }
{
    let known = ids::is_credential(credential);
    let e = crate::enter(log, SECTORS_MOST, known, ids::COUNTER_TAG, credential)?;
    match log.state {
        State::Unformatted => Err(Refusal::NotFormatted),
        State::Failed => Err(Refusal::ReadError),
        State::Active { .. } => Ok(e.held.map(|raw| bodies::counter_of(raw))),
    }
}
