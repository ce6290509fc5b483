// F-5: a delivery to a route in lent bytes, and its end.
ghost use Rattle.std.specs.Prelude.{◌≡◌, [], true, ◌^◌, ◌<◌, length};
ghost use Rattle.protocol.specs.declared.Reply.{Reply};
ghost use Rattle.lent_session.specs.State.{two_at, reply_number, session_at};
ghost use Rattle.lent_session.specs.Fits.{awaited_number};
ghost use Rattle.route_session.specs.calls.Calls.{deliver, end};
ghost use Rattle.lent_route.specs.State.{phase_at, route_at};
ghost use Rattle.lent_route.specs.Calls.{Leaves, Delivers};
ghost use Rattle.lent_route.specs.delivery.Settling.{spot_in, Short, Settles};

use crate::state::{BEHIND_AT, BYTES_AT, COUNT_AT, hops_at, put_spoken};
use buffers::write::copy;
use client_stages::due::{Lengths, Stage};
use lent_numbers::bytes::{eight_at, two_at};
use lent_numbers::told::{RawStep, outcome_of};
use lent_session::delivery::{append, is_held, refused};
use lent_session::state::{HELD_AT, SESSION, awaited, bound_at, is_started, lengths_at, reply_of};
use protocol::{HOLD, PROXIES, REQUESTS, SocksError};
use route_delivery::{Relayed, Row, Spot};
use route_session::calls::last_of;

// Whether a piece decides nothing, and is only to be held. In forged bytes the number behind may be too large, and is then to be written.
fn is_short(s: &[u8], n: u8, held: usize, len: usize) -> bool
    requires { length s.now ≡ 8538 }
    ensures { result ≡ true → (e : Reply) → n ≡ reply_number e → Short e s.now held len }
{
    let count = two_at(s, COUNT_AT);
    if len == 0 || PROXIES < count || count <= two_at(s, BEHIND_AT) {
        return false;
    }
    is_held(&s[..SESSION], n, held, len)
}

// Where a piece leaves the route.
fn settle(s: &mut [u8], reached: Relayed, hold: &[u8]) -> RawStep
    requires { (length s.old ≡ 8538) × (length hold.now ≡ 261) }
    ensures { Settles s.old reached hold.now result s.new }
{
    let spot = reached.spot;
    let lengths = Lengths {
        authentication: spot.behind,
        ..lengths_at(&s[..SESSION])
    };
    put_spoken(s, spot, lengths, hold);
    RawStep {
        used: reached.used,
        sent: spot.sent,
        answer: 0,
        outcome: outcome_of(client_stages::outcome::outcome(spot.stage)),
    }
}

// Where the route stands, which waits for the reply of a number.
fn spot_at(s: &[u8], n: u8, held: usize, last: usize) -> Spot
    requires { length s.now ≡ 8538 }
    ensures value { (e : Reply) → n ≡ reply_number e → result ≡ spot_in s.now e held last }
    ensures attempts_bound { result.attempts < 2 ^ 64 }
{
    Spot {
        behind: two_at(s, BEHIND_AT).min(last),
        stage: Stage::Awaiting(reply_of(n)),
        held,
        bound: bound_at(&s[..SESSION]),
        attempts: eight_at(s, 0),
        sent: 0,
    }
}

// A piece for a route that waits for the reply of a number, whatever it comes to.
fn decide(s: &mut [u8], n: u8, held: usize, piece: &[u8], out: &mut [u8]) -> RawStep
    requires { (length s.old ≡ 8538) × ((length out.old ≡ 8192) × ((n ≡ awaited_number (session_at s.old).stage) × ((n ≡ 0 → ⊥) × (((session_at s.old).started ≡ true) × (held ≡ two_at s.old 8))))) }
    ensures { Leaves (deliver (route_at s.old) piece.now out.old) s.old result s.new out.new }
{
    let last = last_of(two_at(s, COUNT_AT));
    let hops = hops_at(s, last);
    let spot = spot_at(s, n, held, last);
    let from = BYTES_AT + REQUESTS * (7 - last);
    let mut hold = [0u8; HOLD];
    copy(&mut hold, 0, &s[21..282]);
    let row = Row {
        hops: &hops,
        bytes: &s[from..],
    };
    let reached = row.relay(spot, &mut hold, piece, out);
    settle(s, reached, &hold)
}

// Takes a piece, and puts what it makes due at the output's start: to the proxy that is spoken to, and once that is open to the next, which takes what it left.
pub fn deliver(s: &mut [u8], piece: &[u8], out: &mut [u8]) -> RawStep
    requires { (length s.old ≡ 8538) × (length out.old ≡ 8192) }
    ensures { Delivers (phase_at s.old) (deliver (route_at s.old) piece.now out.old) s.old out.old result s.new out.new }
{
    let n = awaited(&s[..SESSION]);
    if n == 0 {
        return refused(&s[..SESSION], SocksError::Settled);
    }
    if is_started(&s[..SESSION]) {
        let held = two_at(s, HELD_AT);
        if is_short(s, n, held, piece.len()) {
            return append(&mut s[..SESSION], held, piece);
        }
        return decide(s, n, held, piece, out);
    }
    refused(&s[..SESSION], SocksError::OutOfOrder)
}

// The stream has ended: a route that waits has failed.
pub fn end(s: &mut [u8]) -> RawStep
    requires { length s.old ≡ 8538 }
    ensures { Delivers (phase_at s.old) (end (route_at s.old)) s.old [] result s.new [] }
{
    lent_session::delivery::end(&mut s[..SESSION])
}
