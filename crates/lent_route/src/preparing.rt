// F-5: a route prepared in lent bytes, hop by hop, and opened: no byte goes before all its proxies' openings are prepared. The options and the port are numbers.
ghost use Rattle.std.specs.Prelude.{◌≡◌, [], ◌+◌, ◌-◌, ◌*◌, ◌≤◌, ◌<◌, length};
ghost use Rattle.protocol.specs.Numbers as numbers;
ghost use Rattle.buffers.specs.write.Written.{Wrote};
ghost use Rattle.lent_session.specs.State.{reply_number};
ghost use Rattle.route_session.specs.plan.Plan.{first_in};
ghost use Rattle.route_session.specs.calls.Calls.{refusal, empty_route};
ghost use Rattle.lent_route.specs.State.{phase_at, count_at, slot_of, state_of, preparing_of};
ghost use Rattle.protocol.specs.declared.SocksError.TheVariants as SocksError;
ghost use Rattle.lent_route.specs.Calls.{step_by, asked5, asked4, Hops, Opens, OpensIn};
ghost use Rattle.lent_route.specs.preparing.Keeping.{turn_of, kept_left, ReadyResult};

use crate::state::{BYTES_AT, COUNT_AT, SLOTS_AT, hops_at, put_code, put_spoken};
use buffers::write::put_byte;
use client_opening::common::Begun;
use client_opening::host::read_host;
use client_stages::due::{Lengths, Stage};
use error_numbers::{number, status};
use lent_numbers::bytes::{put_two, two_at};
use lent_numbers::told::{RawOutcome, RawStep};
use lent_session::delivery::{refused, waiting};
use lent_session::preparing::{RawConfig, clear};
use lent_session::state::{CODE_AT, SESSION, awaited, is_started, reply_number};
use protocol::{HOLD, PROXIES, REQUESTS, SocksConfig, SocksError};
use raw_numbers::{bit, port_of, truth};
use route_delivery::{Row, Spot};

// An empty route, which hops are added to.
pub fn begin(s: &mut [u8])
    requires { length s.old ≡ 8538 }
    ensures { s.new ≡ preparing_of [] }
{
    clear(s);
    s[CODE_AT] = 1;
}

// The route is empty, and has failed with an error.
fn fail(s: &mut [u8], error: SocksError) -> u8
    requires { length s.old ≡ 8538 }
    ensures { (result ≡ numbers.number error) × (s.new ≡ state_of (empty_route error)) }
{
    clear(s);
    put_code(s, 8, number(error), status(error));
    number(error)
}

// 0 where a hop or an opening is in turn.
fn turn(s: &[u8]) -> u8
    requires { length s.now ≡ 8538 }
    ensures { result ≡ numbers.answer_number (turn_of (phase_at s.now)) }
{
    if awaited(&s[..SESSION]) == 0 {
        return number(SocksError::Settled);
    }
    if is_started(&s[..SESSION]) {
        return number(SocksError::OutOfOrder);
    }
    0
}

// The first reply of what was prepared, as its slot has it.
fn first_number(stage: Stage) -> u8
    ensures { result ≡ reply_number (first_in stage) - 1 }
{
    match stage {
        Stage::Awaiting(reply) => reply_number(reply) - 1,
        Stage::Open => 5,
        Stage::Failed(error) => 5,
    }
}

fn put_slot(s: &mut [u8], at: usize, stage: Stage, lengths: Lengths) -> usize
    requires { at + 8 ≤ length s.old }
    ensures { Wrote s.old at (slot_of (record { first = first_in stage; lengths = lengths })) result s.new }
{
    put_byte(s, at, first_number(stage));
    put_byte(s, at + 1, bit(lengths.optimistic));
    put_two(s, at + 2, lengths.first);
    put_two(s, at + 4, lengths.authentication);
    put_two(s, at + 6, lengths.proxy)
}

// Keeps what preparing a hop came to, beside its requests; refused, the route has failed.
fn keep(s: &mut [u8], count: usize, begun: Begun) -> u8
    requires { (length s.old ≡ 8538) × (count < 8) }
    ensures { (result ≡ numbers.answer_number begun.answer) × (s.new ≡ kept_left begun.answer s.old count (record { first = first_in begun.stage; lengths = begun.lengths })) }
{
    let answer = begun.answer;
    let stage = begun.stage;
    let lengths = begun.lengths;
    match answer {
        Ok(()) => {
            put_slot(s, SLOTS_AT + 8 * (7 - count), stage, lengths);
            put_two(s, COUNT_AT, count + 1);
            0
        }
        Err(error) => fail(s, error),
    }
}

// Whether a hop is taken, and behind how many others.
#[derive(Clone, Copy)]
struct Ready {
    answer: u8,
    count: usize,
}

// The slot that a hop's requests go to is cleared; a ninth fails the route.
fn make_ready(s: &mut [u8]) -> Ready
    requires { length s.old ≡ 8538 }
    ensures { ReadyResult s.old result s.new }
{
    let answer = turn(s);
    if answer != 0 {
        return Ready {
            answer: answer,
            count: 0,
        };
    }
    let count = two_at(s, COUNT_AT);
    if PROXIES <= count {
        return Ready {
            answer: fail(s, SocksError::RouteLength),
            count: 0,
        };
    }
    let from = BYTES_AT + REQUESTS * (7 - count);
    let to = from + REQUESTS;
    clear(&mut s[from..to]);
    Ready {
        answer: 0,
        count: count,
    }
}

// Adds a proxy over SOCKS5, which is asked for a host and port: the next proxy's, or behind the last the destination's. There is no local lookup. A port
// above 65535 is none. Refused, or a ninth, the route has failed with that number.
pub fn hop5(
    s: &mut [u8],
    config: RawConfig,
    host: &[u8],
    port: u32,
    user: &[u8],
    password: &[u8],
) -> u8
    requires { length s.old ≡ 8538 }
    ensures { Hops (asked5 config host.now port user.now password.now) s.old result s.new }
{
    let hop = make_ready(s);
    if hop.answer != 0 {
        return hop.answer;
    }
    let asks = SocksConfig {
        proxy_auth: truth(config.proxy_auth),
        local_dns: false,
        optimistic: truth(config.optimistic),
    };
    let from = BYTES_AT + REQUESTS * (7 - hop.count);
    let to = from + REQUESTS;
    let begun = client_opening_v5::opening::begin(
        &mut s[from..to],
        asks,
        host,
        read_host(host),
        port_of(port),
        user,
        password,
        None,
    );
    keep(s, hop.count, begun)
}

// Adds a proxy over SOCKS4, or SOCKS4a for a name.
pub fn hop4(s: &mut [u8], host: &[u8], port: u32) -> u8
    requires { length s.old ≡ 8538 }
    ensures { Hops (asked4 host.now port) s.old result s.new }
{
    let hop = make_ready(s);
    if hop.answer != 0 {
        return hop.answer;
    }
    let from = BYTES_AT + REQUESTS * (7 - hop.count);
    let to = from + REQUESTS;
    let begun = client_opening_v4::opening::begin(
        &mut s[from..to],
        false,
        host,
        read_host(host),
        port_of(port),
        None,
    );
    keep(s, hop.count, begun)
}

// No proxy: the route has failed. In forged bytes there may be more than eight.
fn open_none(s: &mut [u8]) -> RawStep
    requires { length s.old ≡ 8538 }
    ensures { (result ≡ step_by (refusal SocksError.RouteLength (empty_route SocksError.RouteLength) [])) × (s.new ≡ state_of (empty_route SocksError.RouteLength)) }
{
    let answer = fail(s, SocksError::RouteLength);
    RawStep {
        used: 0,
        sent: 0,
        answer: answer,
        outcome: RawOutcome {
            state: 2,
            number: answer,
            status: 0,
        },
    }
}

// The first of so many proxies is begun.
fn open_first(s: &mut [u8], count: usize, out: &mut [u8]) -> RawStep
    requires { (length s.old ≡ 8538) × ((length out.old ≡ 8192) × ((count ≡ count_at s.old) × ((1 ≤ count) × (count ≤ 8)))) }
    ensures { Opens s.old out.old result s.new out.new }
{
    let hops = hops_at(s, count - 1);
    let from = BYTES_AT + REQUESTS * (8 - count);
    let row = Row {
        hops: &hops,
        bytes: &s[from..],
    };
    let spot = row.begin(Spot::ahead_of(count), out);
    let hold = [0u8; HOLD];
    put_spoken(
        s,
        spot,
        Lengths {
            optimistic: false,
            first: count,
            authentication: spot.behind,
            proxy: 0,
        },
        &hold,
    );
    waiting(0, spot.sent)
}

// Opens the route: puts what goes to the first proxy at the output's start. With no proxy it has then failed.
pub fn open(s: &mut [u8], out: &mut [u8]) -> RawStep
    requires { (length s.old ≡ 8538) × (length out.old ≡ 8192) }
    ensures { OpensIn (phase_at s.old) s.old out.old result s.new out.new }
{
    if awaited(&s[..SESSION]) == 0 {
        return refused(&s[..SESSION], SocksError::Settled);
    }
    if is_started(&s[..SESSION]) {
        return refused(&s[..SESSION], SocksError::OutOfOrder);
    }
    let count = two_at(s, COUNT_AT);
    if count == 0 {
        return open_none(s);
    }
    if PROXIES < count {
        return open_none(s);
    }
    open_first(s, count, out)
}
