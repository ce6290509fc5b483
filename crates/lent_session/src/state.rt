// What lent bytes say of a session: its code, and the numbers beside it.
ghost use Rattle.std.specs.Prelude.{◌≡◌, length};
ghost use Rattle.protocol.specs.declared.Reply.{Reply};
ghost use Rattle.lent_session.specs.State.{session_at, kind_at, reply_number, stage_number, kind_number};
ghost use Rattle.lent_session.specs.Fits.{awaited_number};

use client_stages::due::Lengths;
use lent_numbers::bytes::two_at;
use protocol::{AddressKind, AuthMethod, Bound, Reply};

pub const SESSION: usize = 1306;

pub const HELD_AT: usize = 8;

pub const FIRST_AT: usize = 10;

pub const AUTHENTICATION_AT: usize = 12;

pub const PROXY_AT: usize = 14;

pub const PORT_AT: usize = 16;

pub const CODE_AT: usize = 18;

pub const ERROR_AT: usize = 19;

pub const STATUS_AT: usize = 20;

pub const HOLD_AT: usize = 21;

pub const REQUESTS_AT: usize = 282;

// The reply of a number, from 1 to 6.
pub fn reply_of(n: u8) -> Reply
    ensures { (e : Reply) → n ≡ reply_number e → result ≡ e }
{
    match n {
        1 => Reply::NegotiationRes(AuthMethod::NoAuth),
        2 => Reply::NegotiationRes(AuthMethod::UserPass),
        3 => Reply::NegotiationRes(AuthMethod::NoneAcceptable),
        4 => Reply::AuthenticationRes,
        5 => Reply::ProxyRes,
        _ => Reply::Response,
    }
}

pub fn reply_number(reply: Reply) -> u8
    ensures { result ≡ reply_number reply }
{
    match reply {
        Reply::NegotiationRes(AuthMethod::NoAuth) => 1,
        Reply::NegotiationRes(AuthMethod::UserPass) => 2,
        Reply::NegotiationRes(AuthMethod::NoneAcceptable) => 3,
        Reply::AuthenticationRes => 4,
        Reply::ProxyRes => 5,
        Reply::Response => 6,
    }
}

// Of a code.
pub fn kind_at(code: u8) -> AddressKind
    ensures { result ≡ kind_at code }
{
    match code / 32 {
        1 => AddressKind::Ipv6,
        2 => AddressKind::Domain,
        _ => AddressKind::Ipv4,
    }
}

pub fn kind_number(kind: AddressKind) -> u8
    ensures { result ≡ kind_number kind }
{
    match kind {
        AddressKind::Ipv4 => 0,
        AddressKind::Ipv6 => 1,
        AddressKind::Domain => 2,
    }
}

// The number of the stage, 0 if it has failed.
pub fn stage_at(s: &[u8]) -> u8
    requires { length s.now ≡ 1306 }
    ensures { result ≡ stage_number (session_at s.now).stage }
{
    if two_at(s, ERROR_AT) != 0 {
        return 0;
    }
    let code = s[CODE_AT];
    if 96 <= code {
        return 0;
    }
    code % 8
}

// The number of the reply that is awaited, 0 if none is.
pub fn awaited(s: &[u8]) -> u8
    requires { length s.now ≡ 1306 }
    ensures { result ≡ awaited_number (session_at s.now).stage }
{
    match stage_at(s) {
        7 => 0,
        n => n,
    }
}

pub fn is_started(s: &[u8]) -> bool
    requires { length s.now ≡ 1306 }
    ensures { result ≡ (session_at s.now).started }
{
    s[CODE_AT] / 8 % 2 == 1
}

pub fn lengths_at(s: &[u8]) -> Lengths
    requires { length s.now ≡ 1306 }
    ensures { result ≡ (session_at s.now).requests.lengths }
{
    Lengths {
        optimistic: s[CODE_AT] / 16 % 2 == 1,
        first: two_at(s, FIRST_AT),
        authentication: two_at(s, AUTHENTICATION_AT),
        proxy: two_at(s, PROXY_AT),
    }
}

pub fn bound_at(s: &[u8]) -> Bound
    requires { length s.now ≡ 1306 }
    ensures { result ≡ (session_at s.now).bound }
{
    Bound {
        kind: kind_at(s[CODE_AT]),
        port: two_at(s, PORT_AT) as u16,
    }
}
