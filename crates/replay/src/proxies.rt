// Cases of the proxy's end: one that is set up, calls of the one that comes back, and the destination that it handed out.
use crate::tally;
use crate::tally::{Call, Tally, call_of};
use cases::{Said, said_at};
use input::places::{byte_at, number_at, part, past, text_at, text_end};
use protocol::AddressKind;
use proxy::{Outcome, Server, Target};
use report::{State, Writer, put_byte, put_hex, put_number};

// The output that a delivery asks.
const ROOM: usize = 262;

// The proxy's end, and what came of the call before.
#[derive(Clone, Copy)]
struct Turn {
    server: Server,
    call: Call,
}

fn no_target() -> Target {
    Target {
        kind: AddressKind::Ipv4,
        len: 0,
        bytes: [0u8; 1014],
        port: 0,
    }
}

fn begin(s: &[u8]) -> Turn {
    let user = past(s, 1, 1);
    let set = proxy::set_up(
        cases::has(byte_at(s, 1), 1),
        text_at(s, user),
        text_at(s, text_end(s, user)),
    );
    let answer = set.answer;
    let server = set.server;
    Turn {
        server,
        call: call_of(answer, 0, 0),
    }
}

fn deliver(server: Server, piece: &[u8], out: &mut [u8]) -> Turn {
    let delivered = server.deliver(piece, out);
    let answer = delivered.answer;
    let next = delivered.server;
    Turn {
        server: next,
        call: call_of(answer, delivered.used, delivered.sent),
    }
}

// The caller's answer.
fn answer(server: Server, said: Said, out: &mut [u8]) -> Turn {
    let bound = said.bound;
    let answered = server.answer(said.status, bound, said.port, out);
    let answer = answered.answer;
    let next = answered.server;
    Turn {
        server: next,
        call: call_of(answer, 0, answered.sent),
    }
}

fn end(server: Server) -> Turn {
    let ended = server.end();
    let answer = ended.answer;
    let next = ended.server;
    Turn {
        server: next,
        call: call_of(answer, 0, 0),
    }
}

// The call at a place, with what is lent to it.
fn take_call(server: Server, s: &[u8], at: usize, out: &mut [u8]) -> Turn {
    let call = byte_at(s, at);
    if call == b'd' {
        return deliver(server, text_at(s, past(s, at, 3)), out);
    }
    if call == b'a' {
        return answer(server, said_at(s, at), out);
    }
    end(server)
}

// The destination that was handed out last.
fn handed_out(server: Server, before: Target) -> Target {
    match server.outcome() {
        Outcome::Waiting => before,
        Outcome::Asked => server.destination(),
        Outcome::Open => before,
        Outcome::Failed(error) => before,
    }
}

fn state_of(outcome: Outcome) -> State {
    match outcome {
        Outcome::Waiting => State::Waiting,
        Outcome::Asked => State::Asked,
        Outcome::Open => State::Open,
        Outcome::Failed(error) => State::Failed(error),
    }
}

// `4`, `6`, or `n` for a name.
fn kind_byte(kind: AddressKind) -> u8 {
    match kind {
        AddressKind::Ipv4 => b'4',
        AddressKind::Ipv6 => b'6',
        AddressKind::Domain => b'n',
    }
}

// The kind, the first n bytes and the port of a destination, split by colons.
fn put_target(
    start: Writer,
    text: &mut [u8],
    kind: AddressKind,
    bytes: [u8; 1014],
    n: usize,
) -> Writer {
    let writer = put_byte(start, text, kind_byte(kind));
    let next = put_byte(writer, text, b':');
    let told = put_hex(next, text, part(&bytes, 0, n));
    put_byte(told, text, b':')
}

// A destination, or `-` if none was handed out.
fn put_destination(start: Writer, text: &mut [u8], target: Target) -> Writer {
    if target.len == 0 {
        return put_byte(start, text, b'-');
    }
    let kind = target.kind;
    let bytes = target.bytes;
    let writer = put_target(start, text, kind, bytes, target.len);
    put_number(writer, text, target.port as u64)
}

fn finish(state: State, target: Target, tally: Tally, kept: &[u8], text: &mut [u8]) -> Writer {
    let line = tally::finish(tally, state, kept, text);
    let writer = put_byte(line, text, b' ');
    put_destination(writer, text, target)
}

// The next call, with the output that it lends.
fn next_call(before: Turn, s: &[u8], at: usize, kept: &mut [u8]) -> Turn {
    let lent = cases::lent_at(s, past(s, at, 1));
    take_call(before.server, s, at, tally::output(kept, lent))
}

fn take_calls(
    mut turn: Turn,
    mut tally: Tally,
    s: &[u8],
    from: usize,
    kept: &mut [u8],
    text: &mut [u8],
) -> Writer {
    let mut target = no_target();
    let mut at = past(s, from, 2);
    for i in 0..number_at(s, from) {
        turn = next_call(turn, s, at, kept);
        target = handed_out(turn.server, target);
        tally = tally::take(tally, turn.call, s, at, kept, text);
        at = cases::call_end(s, at, b'P');
    }
    let last = turn.server;
    finish(state_of(last.outcome()), target, tally, kept, text)
}

pub fn run(s: &[u8], writer: Writer, kept: &mut [u8], text: &mut [u8]) -> Writer {
    let first = begin(s);
    let tally = tally::check(writer, first.call, ROOM, text);
    take_calls(first, tally, s, cases::calls_at(s), kept, text)
}
