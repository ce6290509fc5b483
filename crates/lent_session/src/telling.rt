// What is told of a session in lent bytes: each time what the library tells of the session that they mean. And how it is wiped.
ghost use Rattle.std.specs.Prelude.{◌≡◌, ◌≤◌, length, ◌≢◌};
ghost use Rattle.protocol.specs.Bound.{size_of};
ghost use Rattle.client_session.specs.Session.{outcome, wants, bound, write_bound};
ghost use Rattle.lent_numbers.specs.told.Told.{outcome_of};
ghost use Rattle.lent_session.specs.State.{session_at};
ghost use Rattle.lent_session.specs.Calls.{bound_at, Tells, wiped};

use crate::preparing::clear;
use crate::state::{
    AUTHENTICATION_AT, ERROR_AT, FIRST_AT, HELD_AT, HOLD_AT, PROXY_AT, REQUESTS_AT, STATUS_AT,
    awaited, bound_at, is_started, reply_of, stage_at,
};
use address_format::endpoint::put_bound;
use client_stages::due::Stage;
use error_numbers::{number, status};
use lent_numbers::bytes::{eight_at, two_at};
use lent_numbers::told::RawOutcome;
use protocol::{Address, AddressKind, HOLD, REQUESTS, SocksError};
use raw_errors::error_of;

#[repr(C)]
#[derive(Clone, Copy)]
pub struct RawAddress {
    pub port: u16,
    pub kind: u8,
    pub len: u8,
    pub bytes: [u8; 255],
}

// The C interface has its answer as a number.
#[repr(C)]
#[derive(Clone, Copy)]
pub struct RawText {
    pub len: usize,
    pub answer: u8,
}

// How the session stands.
pub fn told(s: &[u8]) -> RawOutcome
    requires { length s.now ≡ 1306 }
    ensures { result ≡ outcome_of (outcome (session_at s.now)) }
{
    let (state, number, status) = match stage_at(s) {
        0 => {
            let error = error_of(s[ERROR_AT], s[STATUS_AT]);
            (2, number(error), status(error))
        }
        7 => (1, 0, 0),
        _ => (0, 0, 0),
    };
    RawOutcome {
        state,
        number,
        status,
    }
}

// The bound address; of a session that is not open IPv4 zeros and port 0.
fn address_at(s: &[u8]) -> Address
    requires { length s.now ≡ 1306 }
    ensures { result ≡ bound (session_at s.now) }
{
    if stage_at(s) != 7 {
        return client_delivery::bound_address::unbound();
    }
    let n = two_at(s, HELD_AT).min(HOLD);
    let end = HOLD_AT + n;
    client_delivery::bound_address::address(bound_at(s), &s[HOLD_AT..end])
}

// How many bytes an address of a kind has.
fn size_of(kind: AddressKind, len: u8) -> u8
    ensures { result ≡ size_of kind len }
{
    match kind {
        AddressKind::Ipv4 => 4,
        AddressKind::Ipv6 => 16,
        AddressKind::Domain => len,
    }
}

// The address and port that the proxy's last reply named.
pub fn bound(s: &[u8]) -> RawAddress
    requires { length s.now ≡ 1306 }
    ensures { result ≡ bound_at s.now }
{
    let address = address_at(s);
    let bytes = address.bytes;
    RawAddress {
        port: address.port,
        kind: raw_numbers::kind_number(address.kind),
        len: size_of(address.kind, address.len),
        bytes,
    }
}

// It as text, at the buffer's start; 261 bytes are always enough.
pub fn bound_text(s: &[u8], text: &mut [u8]) -> RawText
    requires { length s.now ≡ 1306 }
    ensures tells { Tells (write_bound (session_at s.now) text.old) result text.new }
    ensures enough { 261 ≤ length text.old → result.answer ≢ 18 }
{
    if stage_at(s) != 7 {
        return RawText {
            len: 0,
            answer: number(SocksError::NotOpen),
        };
    }
    match put_bound(address_at(s), text) {
        Ok(len) => RawText { len, answer: 0 },
        Err(error) => RawText {
            len: 0,
            answer: number(error),
        },
    }
}

// How many attempts were counted since preparing.
pub fn attempts(s: &[u8]) -> u64
    requires { length s.now ≡ 1306 }
    ensures { result ≡ (session_at s.now).attempts }
{
    eight_at(s, 0)
}

// Zeros for all that was written: the bytes before the requests, and the requests.
pub fn wipe(s: &mut [u8])
    requires { length s.old ≡ 1306 }
    ensures { s.new ≡ wiped s.old }
{
    let n = two_at(s, FIRST_AT) + two_at(s, AUTHENTICATION_AT) + two_at(s, PROXY_AT);
    let end = REQUESTS_AT + n.min(REQUESTS);
    clear(&mut s[..end]);
}

// How many bytes may be read without reading past the handshake; 0 unless it is started and waits.
pub fn wants(s: &[u8]) -> usize
    requires { length s.now ≡ 1306 }
    ensures { result ≡ wants (session_at s.now) }
{
    let n = awaited(s);
    if n == 0 {
        return 0;
    }
    client_delivery::wants::wants(
        Stage::Awaiting(reply_of(n)),
        is_started(s),
        two_at(s, HELD_AT),
        &s[21..282],
    )
}
