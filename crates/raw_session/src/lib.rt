// A session as numbers and arrays, by value, for programs in C and Rust.

#![tactic(auto)]

ghost use Rattle.std.specs.Prelude.{◌≡◌};
ghost use Rattle.raw_session.specs.Raw.{stage_of, reply_number, stage_numbers, session_of, raw_of, outcome_of, step_of};

use client_session::Session;
use client_stages::due::{Lengths, Requests, Stage};
use error_numbers::{answer_number, number, status};
use protocol::{AuthMethod, Bound, Outcome, Reply, SocksError};
use raw_errors::error_of;
use raw_numbers::{bit, kind_number, kind_of, truth};

// Every value of every field has a meaning (specs/Raw.antt); all zeros is a session that refuses everything.
#[repr(C)]
#[derive(Clone, Copy)]
pub struct RawSession {
    pub attempts: u64,
    pub held: usize,
    pub first: usize,
    pub authentication: usize,
    pub proxy: usize,
    pub port: u16,
    pub kind: u8,
    pub stage: u8,
    pub error: u8,
    pub status: u8,
    pub started: u8,
    pub optimistic: u8,
    pub hold: [u8; 261],
    pub requests: [u8; 1024],
}

// How a session stands: 0 waiting, 1 open, 2 failed, and then with what.
#[repr(C)]
#[derive(Clone, Copy)]
pub struct RawOutcome {
    pub state: u8,
    pub number: u8,
    pub status: u8,
}

// What a call answers, which is 0 or the refusal's number, what it used of the piece and put at the output's start, the session that it
// leaves, and how that stands.
// The C interface has its answer as a number.
#[repr(C)]
#[derive(Clone, Copy)]
pub struct RawStep {
    pub session: RawSession,
    pub used: usize,
    pub sent: usize,
    pub answer: u8,
    pub outcome: RawOutcome,
}

// What a session's numbers say of its stage.
#[derive(Clone, Copy)]
struct StageNumbers {
    stage: u8,
    error: u8,
    status: u8,
}

// The stage of a number: failed for one that no other stage has.
fn stage_of(n: u8, error: u8, status: u8) -> Stage
    ensures { result ≡ stage_of n error status }
{
    match n {
        1 => Stage::Awaiting(Reply::NegotiationRes(AuthMethod::NoAuth)),
        2 => Stage::Awaiting(Reply::NegotiationRes(AuthMethod::UserPass)),
        3 => Stage::Awaiting(Reply::NegotiationRes(AuthMethod::NoneAcceptable)),
        4 => Stage::Awaiting(Reply::AuthenticationRes),
        5 => Stage::Awaiting(Reply::ProxyRes),
        6 => Stage::Awaiting(Reply::Response),
        7 => Stage::Open,
        _ => Stage::Failed(error_of(error, status)),
    }
}

fn reply_number(reply: Reply) -> u8
    ensures { result ≡ reply_number reply }
{
    match reply {
        Reply::NegotiationRes(AuthMethod::NoAuth) => 1,
        Reply::NegotiationRes(AuthMethod::UserPass) => 2,
        Reply::NegotiationRes(AuthMethod::NoneAcceptable) => 3,
        Reply::AuthenticationRes => 4,
        Reply::ProxyRes => 5,
        Reply::Response => 6,
    }
}

fn stage_numbers(stage: Stage) -> StageNumbers
    ensures { result ≡ stage_numbers stage }
{
    let (stage, error, status) = match stage {
        Stage::Awaiting(reply) => (reply_number(reply), 0, 0),
        Stage::Open => (7, 0, 0),
        Stage::Failed(error) => (0, number(error), status(error)),
    };
    StageNumbers {
        stage,
        error,
        status,
    }
}

// The session that numbers mean.
pub fn session_of(raw: RawSession) -> Session
    ensures { result ≡ session_of raw }
{
    let hold = raw.hold;
    let bytes = raw.requests;
    Session {
        stage: stage_of(raw.stage, raw.error, raw.status),
        started: truth(raw.started),
        held: raw.held,
        hold,
        bound: Bound {
            kind: kind_of(raw.kind),
            port: raw.port,
        },
        attempts: raw.attempts,
        requests: Requests {
            lengths: Lengths {
                optimistic: truth(raw.optimistic),
                first: raw.first,
                authentication: raw.authentication,
                proxy: raw.proxy,
            },
            bytes,
        },
    }
}

// The numbers of a session.
pub fn raw_of(session: Session) -> RawSession
    ensures { result ≡ raw_of session }
{
    let numbers = stage_numbers(session.stage);
    let lengths = session.requests.lengths;
    let hold = session.hold;
    let requests = session.requests.bytes;
    RawSession {
        attempts: session.attempts,
        held: session.held,
        first: lengths.first,
        authentication: lengths.authentication,
        proxy: lengths.proxy,
        port: session.bound.port,
        kind: kind_number(session.bound.kind),
        stage: numbers.stage,
        error: numbers.error,
        status: numbers.status,
        started: bit(session.started),
        optimistic: bit(lengths.optimistic),
        hold,
        requests,
    }
}

pub fn outcome_of(outcome: Outcome) -> RawOutcome
    ensures { result ≡ outcome_of outcome }
{
    let (state, number, status) = match outcome {
        Outcome::Waiting => (0, 0, 0),
        Outcome::Open => (1, 0, 0),
        Outcome::Failed(error) => (2, number(error), status(error)),
    };
    RawOutcome {
        state,
        number,
        status,
    }
}

pub fn step(answer: Result<(), SocksError>, session: Session, used: usize, sent: usize) -> RawStep
    ensures { result ≡ step_of answer session used sent }
{
    RawStep {
        session: raw_of(session),
        used,
        sent,
        answer: answer_number(answer),
        outcome: outcome_of(session.outcome()),
    }
}
