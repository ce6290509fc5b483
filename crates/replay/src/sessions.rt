// Cases of sessions: an opening that is prepared, and calls of the session that comes back.
use crate::tally;
use crate::tally::{Call, Tally, call_of};
use cases::Opening;
use input::places::{byte_at, number_at, past, text_at};
use protocol::Outcome;
use report::{State, Writer};
use socks::{Prepared, Session, v4, v5};

// A session, and what came of the call before.
#[derive(Clone, Copy)]
struct Turn {
    session: Session,
    call: Call,
}

fn prepare(s: &[u8], opening: Opening) -> Prepared {
    let config = opening.config;
    let port = opening.port;
    let host = text_at(s, opening.host);
    let four = opening.version == 4;
    let chosen = cases::chosen_at(s, opening.records, four);
    if four {
        return v4::prepare_chosen(config.local_dns, host, port, chosen);
    }
    let user = text_at(s, opening.user);
    let password = text_at(s, opening.password);
    v5::prepare_chosen(config, host, port, user, password, chosen)
}

fn begin(s: &[u8]) -> Turn {
    let prepared = prepare(s, cases::opening_at(s, 1));
    let answer = prepared.answer;
    let session = prepared.session;
    Turn {
        session,
        call: call_of(answer, 0, 0),
    }
}

fn start(session: Session, out: &mut [u8]) -> Turn {
    let started = session.start(out);
    let answer = started.answer;
    let next = started.session;
    Turn {
        session: next,
        call: call_of(answer, 0, started.sent),
    }
}

fn deliver(session: Session, piece: &[u8], out: &mut [u8]) -> Turn {
    let delivered = session.deliver(piece, out);
    let answer = delivered.answer;
    let next = delivered.session;
    Turn {
        session: next,
        call: call_of(answer, delivered.used, delivered.sent),
    }
}

fn end(session: Session) -> Turn {
    let ended = session.end();
    let answer = ended.answer;
    let next = ended.session;
    Turn {
        session: next,
        call: call_of(answer, 0, 0),
    }
}

// The text of the bound address.
fn bound_text(session: Session, out: &mut [u8]) -> Call {
    let (answer, len) = match session.bound_text(out) {
        Ok(len) => (Ok(()), len),
        Err(error) => (Err(error), 0),
    };
    call_of(answer, 0, len)
}

// The number of attempts.
fn attempts(session: Session) -> Call {
    Call {
        number: session.attempts(),
        used: 0,
        sent: 0,
    }
}

// The call at a place, with what is lent to it.
fn take_call(session: Session, s: &[u8], at: usize, out: &mut [u8]) -> Turn {
    let call = byte_at(s, at);
    if call == b's' {
        return start(session, out);
    }
    if call == b'd' {
        return deliver(session, text_at(s, past(s, at, 3)), out);
    }
    if call == b'e' {
        return end(session);
    }
    if call == b'b' {
        return Turn {
            session,
            call: bound_text(session, out),
        };
    }
    Turn {
        session,
        call: attempts(session),
    }
}

fn take_calls(
    mut turn: Turn,
    mut tally: Tally,
    s: &[u8],
    from: usize,
    kept: &mut [u8],
    text: &mut [u8],
) -> Writer {
    let mut at = past(s, from, 2);
    for i in 0..number_at(s, from) {
        let lent = cases::lent_at(s, past(s, at, 1));
        turn = take_call(turn.session, s, at, tally::output(kept, lent));
        tally = tally::take(tally, turn.call, s, at, kept, text);
        at = cases::call_end(s, at, b'S');
    }
    let last = turn.session;
    tally::finish(tally, state_of(last.outcome()), kept, text)
}

// How a session or a route stands.
pub fn state_of(outcome: Outcome) -> State {
    match outcome {
        Outcome::Waiting => State::Waiting,
        Outcome::Open => State::Open,
        Outcome::Failed(error) => State::Failed(error),
    }
}

// The output that a delivery asks.
fn room_of(version: u8) -> usize {
    if version == 4 {
        return 262;
    }
    778
}

pub fn run(s: &[u8], writer: Writer, kept: &mut [u8], text: &mut [u8]) -> Writer {
    let first = begin(s);
    let tally = tally::check(writer, first.call, room_of(byte_at(s, 1)), text);
    take_calls(first, tally, s, cases::calls_at(s), kept, text)
}
