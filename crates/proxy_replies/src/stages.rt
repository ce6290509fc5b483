// F-3: what a stage of the proxy's end tells, and what the caller's answer and the end of the stream make of it.
ghost use Rattle.std.specs.Prelude.{◌≡◌};
ghost use Rattle.proxy_spec.specs.End as machine;
ghost use Rattle.proxy_spec.specs.End.{endpoint_of, stage_after};
ghost use Rattle.proxy_replies.specs.stages.Told.{outcome_at, has_destination, end_at};
ghost use Rattle.proxy_replies.specs.stages.Answers.{unanswered, answer_asked, answer_at, AnswerResult};

use crate::write::{put_answer, status_to};
use protocol::{PROXY_OUTPUT, Record, SocksError, Version};
use proxy_spec::Stage;

// Waiting for bytes; asked, and awaiting the caller's answer; open; or failed, and with what.
#[derive(Clone, Copy)]
pub enum Outcome {
    Waiting,
    Asked,
    Open,
    Failed(SocksError),
}

pub fn outcome_at(stage: Stage) -> Outcome
    ensures { result ≡ outcome_at stage }
{
    match stage {
        Stage::Awaiting(_) => Outcome::Waiting,
        Stage::Asked(_) => Outcome::Asked,
        Stage::Open(_) => Outcome::Open,
        Stage::Failed(error) => Outcome::Failed(error),
    }
}

// Whether a destination was handed out, and the end has not failed since.
pub fn has_destination(stage: Stage) -> bool
    ensures { result ≡ has_destination stage }
{
    matches!(stage, Stage::Asked(_) | Stage::Open(_))
}

// The stream has ended: an end that waits has failed, and then holds nothing. It is not at its end for another.
pub fn end(stage: Stage) -> Result<Stage, SocksError>
    ensures { result ≡ end_at stage }
{
    match stage {
        Stage::Awaiting(_) => Ok(Stage::Failed(SocksError::UnexpectedEof)),
        Stage::Asked(_) | Stage::Open(_) | Stage::Failed(_) => Err(SocksError::Settled),
    }
}

// What the caller's answer is answered with, how many bytes it sent, and the stage behind it.
// A refused one has a stage too, so that the value is rebuilt in one way.
#[derive(Clone, Copy)]
pub struct Said {
    pub answer: Result<(), SocksError>,
    pub sent: usize,
    pub stage: Stage,
}

fn unanswered(error: SocksError, stage: Stage) -> Said
    ensures { result ≡ unanswered error stage }
{
    Said {
        answer: Err(error),
        sent: 0,
        stage,
    }
}

// The status of success in a version.
pub fn success(version: Version) -> u8
    ensures { result ≡ machine.success version }
{
    match version {
        Version::V4 => 90,
        Version::V5 => 0,
    }
}

// The stage behind an answer.
fn stage_after(version: Version, status: u8) -> Stage
    ensures { result ≡ stage_after version status }
{
    let sent = status_to(version, status);
    if sent == success(version) {
        return Stage::Open(version);
    }
    Stage::Failed(SocksError::Command(sent))
}

// An answer that is awaited.
fn answer_asked(version: Version, status: u8, bound: Record, port: u16, out: &mut [u8]) -> Said
    ensures { AnswerResult (answer_asked version status (endpoint_of bound port) out.old) result out.new }
{
    if out.len() < PROXY_OUTPUT {
        return unanswered(SocksError::ShortOutput, Stage::Asked(version));
    }
    Said {
        answer: Ok(()),
        sent: put_answer(out, version, status, bound, port),
        stage: stage_after(version, status),
    }
}

// The caller's answer, from the output's start.
pub fn answer(stage: Stage, status: u8, bound: Record, port: u16, out: &mut [u8]) -> Said
    ensures { AnswerResult (answer_at stage status (endpoint_of bound port) out.old) result out.new }
{
    match stage {
        Stage::Asked(version) => answer_asked(version, status, bound, port, out),
        _ => unanswered(SocksError::Settled, stage),
    }
}
