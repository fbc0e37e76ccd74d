// The call that reads the anchor of the log. It takes no image, so the log is tested against the most sectors that one has.
ghost use Rattle.std.specs.Prelude.{◌≡◌};
ghost use Rattle.basics.specs.Says.{option_says};
ghost use Rattle.reads.specs.Reads.{anchor_of, anchor_says};

use basics::Refusal;
use flash::SECTORS_MOST;
use ids::Anchor;
use records::{Log, State};

// The anchor held. On an Unformatted log it answers "none" and no refusal.
pub fn anchor(log: Log) -> Result<Option<Anchor>, Refusal>
    ensures { (result ≡ anchor_of log) × (option_says result ≡ anchor_says log) }
{
    let e = crate::enter(log, SECTORS_MOST, true, ids::ANCHOR_TAG, 0)?;
    match log.state {
        State::Unformatted => Ok(None),
        State::Failed => Err(Refusal::ReadError),
        State::Active { .. } => Ok(e.held.map(|raw| bodies::anchor_of(raw))),
    }
}
