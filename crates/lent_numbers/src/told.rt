// What a call tells: its answer, its counts, and how it leaves what was lent.
ghost use Rattle.std.specs.Prelude.{◌≡◌};
ghost use Rattle.lent_numbers.specs.told.Told.{outcome_of};

use error_numbers::{number, status};
use protocol::Outcome;

// How a session, a route or a proxy's end stands: 0 waiting, 1 open, 2 failed with a number and a status, 3 asked, and then the status that grants.
#[repr(C)]
#[derive(Clone, Copy)]
pub struct RawOutcome {
    pub state: u8,
    pub number: u8,
    pub status: u8,
}

// What a call used of the piece and put at the output's start, its answer, which is 0 or the refusal's number, and how it leaves what was lent.
// The C interface has its answer as a number.
#[repr(C)]
#[derive(Clone, Copy)]
pub struct RawStep {
    pub used: usize,
    pub sent: usize,
    pub answer: u8,
    pub outcome: RawOutcome,
}

pub fn outcome_of(outcome: Outcome) -> RawOutcome
    ensures { result ≡ outcome_of outcome }
{
    let (state, number, status) = match outcome {
        Outcome::Waiting => (0, 0, 0),
        Outcome::Open => (1, 0, 0),
        Outcome::Failed(error) => (2, number(error), status(error)),
    };
    RawOutcome {
        state,
        number,
        status,
    }
}
