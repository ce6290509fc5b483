// 01, "End of stream": what a session's stage tells, and what the end of the stream makes of it.
ghost use Rattle.std.specs.Prelude.{◌≡◌, List, ℕ};
ghost use Rattle.protocol.specs.declared.Bound.{Bound};
ghost use Rattle.protocol.specs.Client.{outcome_of};
ghost use Rattle.client_stages.specs.due.Stages.{view_at};
ghost use Rattle.client_stages.specs.outcome.Told.{is_open};
ghost use Rattle.client_stages.specs.outcome.Ends.{end_at};

use crate::due::Stage;
use protocol::{Outcome, SocksError};

pub fn is_open(stage: Stage) -> bool
    ensures { result ≡ is_open stage }
{
    matches!(stage, Stage::Open)
}

// Whatever is held and bound.
pub fn outcome(stage: Stage) -> Outcome
    ensures { (b : Bound) (h : List ℕ) → result ≡ outcome_of (view_at stage b h) }
{
    match stage {
        Stage::Awaiting(_) => Outcome::Waiting,
        Stage::Open => Outcome::Open,
        Stage::Failed(error) => Outcome::Failed(error),
    }
}

// The stage behind the end of the stream: a session that waits, but not before its start, has failed.
pub fn end(stage: Stage, started: bool) -> Result<Stage, SocksError>
    ensures { result ≡ end_at stage started }
{
    if !matches!(stage, Stage::Awaiting(_)) {
        return Err(SocksError::Settled);
    }
    if !started {
        return Err(SocksError::OutOfOrder);
    }
    Ok(Stage::Failed(SocksError::UnexpectedEof))
}
