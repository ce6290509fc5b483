// Cases of routes: a route that is opened, and calls of the one that comes back.
use crate::sessions::state_of;
use crate::tally;
use crate::tally::{Call, Tally, call_of};
use cases::Target;
use input::places::{byte_at, number_at, past, text_at};
use report::Writer;
use route::{Opened, Route};

// A route, and what came of the call before.
#[derive(Clone, Copy)]
struct Turn {
    route: Route,
    call: Call,
}

fn open(s: &[u8], target: Target, out: &mut [u8]) -> Opened {
    let proxies = cases::proxies_at(s, target.proxies);
    let count = byte_at(s, target.proxies) as usize;
    let port = target.port;
    route::open(proxies, count, s, text_at(s, target.host), port, out)
}

fn begin(s: &[u8], target: Target, out: &mut [u8]) -> Turn {
    let opened = open(s, target, out);
    let answer = opened.answer;
    let route = opened.route;
    Turn {
        route,
        call: call_of(answer, 0, opened.sent),
    }
}

fn deliver(route: Route, piece: &[u8], out: &mut [u8]) -> Turn {
    let delivered = route.deliver(piece, out);
    let answer = delivered.answer;
    let next = delivered.route;
    Turn {
        route: next,
        call: call_of(answer, delivered.used, delivered.sent),
    }
}

fn end(route: Route) -> Turn {
    let ended = route.end();
    let answer = ended.answer;
    let next = ended.route;
    Turn {
        route: next,
        call: call_of(answer, 0, 0),
    }
}

// The number of attempts.
fn attempts(route: Route) -> Call {
    Call {
        number: route.attempts(),
        used: 0,
        sent: 0,
    }
}

// The call at a place, with what is lent to it.
fn take_call(route: Route, s: &[u8], at: usize, out: &mut [u8]) -> Turn {
    let call = byte_at(s, at);
    if call == b'd' {
        return deliver(route, text_at(s, past(s, at, 3)), out);
    }
    if call == b'e' {
        return end(route);
    }
    Turn {
        route,
        call: attempts(route),
    }
}

// The next call, with the output that it lends.
fn next_call(before: Turn, s: &[u8], at: usize, kept: &mut [u8]) -> Turn {
    let lent = cases::lent_at(s, past(s, at, 1));
    take_call(before.route, s, at, tally::output(kept, lent))
}

fn take_calls(
    mut turn: Turn,
    mut tally: Tally,
    s: &[u8],
    from: usize,
    kept: &mut [u8],
    text: &mut [u8],
) -> Writer {
    let mut at = past(s, from, 2);
    for i in 0..number_at(s, from) {
        turn = next_call(turn, s, at, kept);
        tally = tally::take(tally, turn.call, s, at, kept, text);
        at = cases::call_end(s, at, b'R');
    }
    let last = turn.route;
    tally::finish(tally, state_of(last.outcome()), kept, text)
}

// The output lent to the opening stands behind the proxies.
fn start(s: &[u8], target: Target, kept: &mut [u8]) -> Turn {
    let lent = cases::lent_at(s, cases::proxies_end(s, target.proxies));
    begin(s, target, tally::output(kept, lent))
}

pub fn run(s: &[u8], writer: Writer, kept: &mut [u8], text: &mut [u8]) -> Writer {
    let target = cases::target_at(s, 1);
    let first = start(s, target, kept);
    let room = 1024 * byte_at(s, target.proxies) as usize;
    let tally = tally::check_sent(writer, first.call, room, kept, text);
    take_calls(first, tally, s, cases::calls_at(s), kept, text)
}
