// 01, "Delivery", "End of stream", and F-7: a start, a delivery and an end of a session in lent bytes.
ghost use Rattle.std.specs.Prelude.{◌≡◌, ℕ, ◌+◌, ◌<◌, ◌≤◌, true, [], length, take, drop, ◌≢◌};
ghost use Rattle.protocol.specs.declared.Outcome.TheVariants as outcomes;
ghost use Rattle.protocol.specs.declared.Reply.{Reply};
ghost use Rattle.protocol.specs.declared.Reply.TheVariants as Reply;
ghost use Rattle.buffers.specs.write.Written.{overwrite};
ghost use Rattle.client_stages.specs.declared.due.Stage.TheVariants as Stage;
ghost use Rattle.client_stages.specs.due.Parts.{part};
ghost use Rattle.client_session.specs.declared.Session.{Session};
ghost use Rattle.client_session.specs.Calls.{refusal, start, deliver, end};
ghost use Rattle.lent_numbers.specs.told.Told.{outcome_of};
ghost use Rattle.lent_session.specs.State.{session_at, state_of, reply_number, two_at};
ghost use Rattle.lent_session.specs.Fits.{Fits, awaited_number};
ghost use Rattle.lent_session.specs.Calls.{step_by, Leaves};
ghost use Rattle.lent_session.specs.delivery.Quick.{Fewest, Stays};
ghost use Rattle.lent_session.specs.delivery.Changes.{at, settled, appended, accepted};

use crate::state::{
    CODE_AT, ERROR_AT, HELD_AT, HOLD_AT, PORT_AT, REQUESTS_AT, STATUS_AT, awaited, bound_at,
    is_started, kind_number, lengths_at, reply_number, reply_of,
};
use buffers::write::copy;
use client_delivery::delivery::receive;
use client_delivery::piece::Taken;
use client_stages::due::Stage;
use client_stages::start::first_size;
use error_numbers::{number, status};
use lent_numbers::bytes::{eight_at, put_eight, put_two, two_at};
use lent_numbers::told::{RawOutcome, RawStep};
use protocol::{HOLD, Reply, SocksError};
use std::num::wrapping_add_u64;

// Accepted, and it waits.
pub fn waiting(used: usize, sent: usize) -> RawStep
    ensures { result ≡ record { used = used; sent = sent; answer = 0; outcome = outcome_of outcomes.Waiting } }
{
    RawStep {
        used,
        sent,
        answer: 0,
        outcome: RawOutcome {
            state: 0,
            number: 0,
            status: 0,
        },
    }
}

pub fn refused(s: &[u8], error: SocksError) -> RawStep
    requires { length s.now ≡ 1306 }
    ensures { result ≡ step_by (refusal error (session_at s.now) []) }
{
    RawStep {
        used: 0,
        sent: 0,
        answer: number(error),
        outcome: crate::telling::told(s),
    }
}

// Copies a part of the requests to the output's start.
fn send(s: &[u8], from: usize, n: usize, out: &mut [u8])
    requires { (length s.now ≡ 1306) × (from + n ≤ 1024) × (n ≤ length out.old) }
    ensures { out.new ≡ overwrite out.old 0 (part (drop 282 s.now) from n) }
{
    if n == 0 {
        return;
    }
    let start = REQUESTS_AT + from;
    let end = start + n;
    copy(out, 0, &s[start..end]);
}

// Of a ProxyRes by its first five bytes: no decision by fewer.
fn fewest_proxy(s: &[u8]) -> usize
    requires { length s.now ≡ 1306 }
    ensures { (held : ℕ) → 5 ≤ held → held ≤ 261 → Fewest Reply.ProxyRes held (take 261 (drop 21 s.now)) result }
{
    if s[21] != 0x05 {
        return 3;
    }
    if 0x08 < s[22] {
        return 3;
    }
    if s[23] != 0x00 {
        return 3;
    }
    if s[24] == 0x03 {
        if s[25] == 0 {
            return 3;
        }
        return 7 + usize::from(s[25]);
    }
    if s[24] == 0x01 {
        return 10;
    }
    if s[24] == 0x04 {
        return 22;
    }
    3
}

// No decision by fewer bytes, by the number of the reply and what is held.
fn fewest_held(s: &[u8], n: u8, held: usize) -> usize
    requires { length s.now ≡ 1306 }
    ensures { (e : Reply) → n ≡ reply_number e → held ≤ 261 → Fewest e held (take 261 (drop 21 s.now)) result }
{
    if n < 5 {
        return 2;
    }
    if n == 6 {
        return 8;
    }
    if held < 5 {
        return 3;
    }
    fewest_proxy(s)
}

// Whether a piece decides nothing, and is only to be held.
pub fn is_held(s: &[u8], n: u8, held: usize, len: usize) -> bool
    requires { length s.now ≡ 1306 }
    ensures { result ≡ true → (e : Reply) → n ≡ reply_number e → Stays e held (take 261 (drop 21 s.now)) len }
{
    if HOLD < len {
        return false;
    }
    if HOLD - len < held {
        return false;
    }
    held + len < fewest_held(s, n, held)
}

// Holds a piece behind what is held.
pub fn append(s: &mut [u8], held: usize, piece: &[u8]) -> RawStep
    requires { (length s.old ≡ 1306) × (held + length piece.now ≤ 261) }
    ensures value { result ≡ accepted (length piece.now) 0 (Stage.Awaiting Reply.Response) }
    ensures s_after { (x : Session) → Fits x → x.held ≡ held → s.old ≡ state_of x → s.new ≡ state_of (appended piece.now x) }
{
    let n = piece.len();
    copy(s, HOLD_AT + held, piece);
    put_eight(s, 0, wrapping_add_u64(eight_at(s, 0), 1));
    put_two(s, HELD_AT, held + n);
    waiting(n, 0)
}

// The session waits for another reply.
fn put_awaited(s: &mut [u8], reply: Reply)
    requires { length s.old ≡ 1306 }
    ensures { (x : Session) (e : Reply) → x.stage ≡ Stage.Awaiting e → s.old ≡ state_of x → s.new ≡ state_of (at (Stage.Awaiting reply) x.held x.bound x) }
{
    s[CODE_AT] = s[CODE_AT] / 8 * 8 + reply_number(reply);
}

fn put_open(s: &mut [u8], taken: Taken) -> RawStep
    requires { length s.old ≡ 1306 }
    ensures value { result ≡ accepted taken.used taken.sent Stage.Open }
    ensures s_after { (x : Session) (e : Reply) → x.stage ≡ Stage.Awaiting e → s.old ≡ state_of x → s.new ≡ state_of (at Stage.Open x.held taken.bound x) }
{
    let bound = taken.bound;
    s[CODE_AT] = s[CODE_AT] % 32 / 8 * 8 + 7 + 32 * kind_number(bound.kind);
    put_two(s, PORT_AT, bound.port as usize);
    RawStep {
        used: taken.used,
        sent: taken.sent,
        answer: 0,
        outcome: RawOutcome {
            state: 1,
            number: 0,
            status: 0,
        },
    }
}

fn put_failed(s: &mut [u8], error: SocksError, used: usize, sent: usize) -> RawStep
    requires { length s.old ≡ 1306 }
    ensures value { result ≡ accepted used sent (Stage.Failed error) }
    ensures s_after { (x : Session) (e : Reply) → x.stage ≡ Stage.Awaiting e → s.old ≡ state_of x → s.new ≡ state_of (at (Stage.Failed error) x.held x.bound x) }
{
    s[CODE_AT] = s[CODE_AT] / 8 * 8;
    s[ERROR_AT] = number(error);
    s[STATUS_AT] = status(error);
    RawStep {
        used,
        sent,
        answer: 0,
        outcome: RawOutcome {
            state: 2,
            number: number(error),
            status: status(error),
        },
    }
}

// What a piece came to, beside the hold.
fn settle(s: &mut [u8], taken: Taken) -> RawStep
    requires { length s.old ≡ 1306 }
    ensures value { result ≡ accepted taken.used taken.sent taken.stage }
    ensures s_after { (x : Session) (e : Reply) → Fits x → x.stage ≡ Stage.Awaiting e → ((taken.stage ≢ Stage.Open) → taken.bound ≡ x.bound) → s.old ≡ state_of x → s.new ≡ state_of (settled taken x) }
    ensures port_bound { taken.bound.port < 65536 }
{
    put_eight(s, 0, wrapping_add_u64(eight_at(s, 0), taken.attempts));
    put_two(s, HELD_AT, taken.held);
    match taken.stage {
        Stage::Awaiting(reply) => {
            put_awaited(s, reply);
            waiting(taken.used, taken.sent)
        }
        Stage::Open => put_open(s, taken),
        Stage::Failed(error) => put_failed(s, error, taken.used, taken.sent),
    }
}

// A piece for a session that waits for the reply of a number, whatever it comes to.
fn decide(s: &mut [u8], n: u8, held: usize, piece: &[u8], out: &mut [u8]) -> RawStep
    requires { (length s.old ≡ 1306) × (length out.old ≡ 1024) × (n ≡ awaited_number (session_at s.old).stage) × (n ≢ 0) × ((session_at s.old).started ≡ true) × (held ≡ two_at s.old 8) }
    ensures { Leaves (deliver (session_at s.old) piece.now out.old) s.old result s.new out.new }
{
    let lengths = lengths_at(s);
    let bound = bound_at(s);
    let Ok(taken) = receive(
        Stage::Awaiting(reply_of(n)),
        true,
        held,
        lengths,
        &mut s[21..282],
        piece,
        1024,
        bound,
    ) else {
        unreachable!()
    };
    send(s, taken.from, taken.sent, out);
    settle(s, taken)
}

// Takes a piece, and puts what it makes due at the output's start. One that decides nothing is only held.
pub fn deliver(s: &mut [u8], piece: &[u8], out: &mut [u8]) -> RawStep
    requires { (length s.old ≡ 1306) × (length out.old ≡ 1024) }
    ensures { Leaves (deliver (session_at s.old) piece.now out.old) s.old result s.new out.new }
{
    let n = awaited(s);
    if n == 0 {
        return refused(s, SocksError::Settled);
    }
    if is_started(s) {
        if piece.len() == 0 {
            return waiting(0, 0);
        }
        let held = two_at(s, HELD_AT);
        if is_held(s, n, held, piece.len()) {
            return append(s, held, piece);
        }
        return decide(s, n, held, piece, out);
    }
    refused(s, SocksError::OutOfOrder)
}

// Sends the first request, or all, from the output's start.
pub fn start(s: &mut [u8], out: &mut [u8]) -> RawStep
    requires { (length s.old ≡ 1306) × (length out.old ≡ 1024) }
    ensures { Leaves (start (session_at s.old) out.old) s.old result s.new out.new }
{
    let n = awaited(s);
    if n == 0 {
        return refused(s, SocksError::Settled);
    }
    if is_started(s) {
        return refused(s, SocksError::OutOfOrder);
    }
    let m = first_size(lengths_at(s), reply_of(n));
    send(s, 0, m, out);
    s[CODE_AT] = s[CODE_AT] + 8;
    waiting(0, m)
}

// The stream has ended: a session that waits has failed.
pub fn end(s: &mut [u8]) -> RawStep
    requires { length s.old ≡ 1306 }
    ensures { Leaves (end (session_at s.old)) s.old result s.new [] }
{
    let n = awaited(s);
    if n == 0 {
        return refused(s, SocksError::Settled);
    }
    if is_started(s) {
        put_two(s, HELD_AT, 0);
        return put_failed(s, SocksError::UnexpectedEof, 0, 0);
    }
    refused(s, SocksError::OutOfOrder)
}
