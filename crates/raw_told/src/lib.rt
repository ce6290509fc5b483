// What is told of a session of numbers and arrays, each time by the library of the session that they mean; and of a piece.

#![tactic(auto)]

ghost use Rattle.std.specs.Prelude.{◌≡◌, ◌≤◌, length};
ghost use Rattle.talk.specs.Tunnel.{rest};
ghost use Rattle.client_session.specs.Session.{write_bound};
ghost use Rattle.raw_session.specs.Raw.{session_of};
ghost use Rattle.raw_told.specs.Told.{raw_outcome, raw_bound, raw_attempts, Tells};

use error_numbers::number;
use raw_numbers::kind_number;
use raw_session::{RawOutcome, RawSession, outcome_of, session_of};

#[repr(C)]
#[derive(Clone, Copy)]
pub struct RawAddress {
    pub port: u16,
    pub kind: u8,
    pub len: u8,
    pub bytes: [u8; 255],
}

// The C interface has its answer as a number.
#[repr(C)]
#[derive(Clone, Copy)]
pub struct RawText {
    pub len: usize,
    pub answer: u8,
}

pub fn outcome(session: RawSession) -> RawOutcome
    ensures { result ≡ raw_outcome session }
{
    outcome_of(session_of(session).outcome())
}

pub fn bound(session: RawSession) -> RawAddress
    ensures { result ≡ raw_bound session }
{
    let address = session_of(session).bound();
    let bytes = address.bytes;
    RawAddress {
        port: address.port,
        kind: kind_number(address.kind),
        len: address.len,
        bytes,
    }
}

pub fn bound_text(session: RawSession, text: &mut [u8]) -> RawText
    ensures tells { Tells (write_bound (session_of session) text.old) result text.new }
    ensures enough { 261 ≤ length text.old → result.answer ≡ 18 → ⊥ }
{
    match session_of(session).bound_text(text) {
        Ok(len) => RawText { len, answer: 0 },
        Err(error) => RawText {
            len: 0,
            answer: number(error),
        },
    }
}

pub fn attempts(session: RawSession) -> u64
    ensures { result ≡ raw_attempts session }
{
    session.attempts
}

// How many bytes of a piece follow its first ones.
pub fn rest(piece: &[u8], count: usize) -> usize
    ensures { result ≡ length (rest piece.now count) }
{
    buffers::write::rest(piece, count).len()
}
