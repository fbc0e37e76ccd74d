// The calls that tell something of the log: its Lamport number, and whether it was never formatted.
ghost use Rattle.std.specs.Prelude.{◌≡◌};
ghost use Rattle.reads.specs.Reads.{lamport_of, needs_migration_of};

use crate::values;
use basics::Refusal;
use flash::SECTORS_MOST;
use records::{Log, State};

// The number of the Lamport clock; 0 where no record is held.
pub fn lamport(log: Log) -> Result<u64, Refusal>
    ensures { result ≡ lamport_of log }
{
    Ok(values::value(log, ids::LAMPORT)?.unwrap_or(0))
}

// Whether the log is Unformatted.
#[tactic(auto, using(crate::proofs::ReadsMigration::migration_refused, crate::proofs::ReadsMigration::migration_where, crate::proofs::ReadsMigration::migration_nowhere_else))]
pub fn needs_migration(log: Log) -> Result<bool, Refusal>
    ensures { result ≡ needs_migration_of log }
{
    crate::enter(log, SECTORS_MOST, true, ids::ANCHOR_TAG, 0)?;
    Ok(matches!(log.state, State::Unformatted))
}
