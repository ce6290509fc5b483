// What is told of a proxy's end in lent bytes: each time what the library tells of the end that they mean. And how it is wiped.
ghost use Rattle.std.specs.Prelude.{◌≡◌, [], length};
ghost use Rattle.protocol.specs.declared.SocksError.TheVariants as SocksError;
ghost use Rattle.proxy_session.specs.Calls.{refusal};
ghost use Rattle.proxy_session.specs.Server.{destination, wants};
ghost use Rattle.lent_proxy.specs.State.{server_at};
ghost use Rattle.lent_proxy.specs.Calls.{size_of, standing_of, step_by, target_of};

use crate::delivery::text_at;
use crate::state::{
    CODE_AT, HELD_AT, HOLD_AT, KEPT_AT, PASSWORD_AT, PASSWORD_LEN_AT, USER_AT, USER_LEN_AT,
    authenticates_at, bound_at, stage_at, stage_of,
};
use error_numbers::{number, status};
use lent_numbers::bytes::{eight_at, two_at};
use lent_numbers::told::{RawOutcome, RawStep};
use protocol::{AddressKind, NAME_V4, SocksError};
use proxy_decisions::credentials::Credentials;
use proxy_decisions::destination::{Target, as_target};
use proxy_replies::stages::{has_destination, success};
use proxy_session::no_target;
use proxy_spec::Stage;
use raw_numbers::kind_number;

#[repr(C)]
#[derive(Clone, Copy)]
pub struct RawTarget {
    pub len: usize,
    pub port: u16,
    pub kind: u8,
    pub bytes: [u8; 1014],
}

// How an end stands. Asked, the status is the one that grants in the client's version.
pub fn standing_of(stage: Stage) -> RawOutcome
    ensures { result ≡ standing_of stage }
{
    let (state, number, status) = match stage {
        Stage::Awaiting(_) => (0, 0, 0),
        Stage::Asked(version) => (3, 0, success(version)),
        Stage::Open(_) => (1, 0, 0),
        Stage::Failed(error) => (2, number(error), status(error)),
    };
    RawOutcome {
        state,
        number,
        status,
    }
}

// How the end stands.
pub fn told(s: &[u8]) -> RawOutcome
    requires { length s.now ≡ 1539 }
    ensures { result ≡ standing_of (server_at s.now).stage }
{
    let kept = eight_at(s, KEPT_AT);
    standing_of(stage_of(stage_at(s[CODE_AT], kept), kept))
}

// Out of turn.
pub fn refused(s: &[u8]) -> RawStep
    requires { length s.now ≡ 1539 }
    ensures { result ≡ step_by (refusal SocksError.Settled (server_at s.now) []) }
{
    RawStep {
        used: 0,
        sent: 0,
        answer: number(SocksError::Settled),
        outcome: told(s),
    }
}

fn size_of(kind: AddressKind, len: usize) -> usize
    ensures { result ≡ size_of kind len }
{
    match kind {
        AddressKind::Ipv4 => 4,
        AddressKind::Ipv6 => 16,
        AddressKind::Domain => len,
    }
}

fn target_of(target: Target) -> RawTarget
    ensures { result ≡ target_of target }
{
    let bytes = target.bytes;
    RawTarget {
        len: size_of(target.kind, target.len),
        port: target.port,
        kind: kind_number(target.kind),
        bytes,
    }
}

// The destination that was handed out; of an end that neither awaits the caller's answer nor is open IPv4 zeros and port 0.
pub fn destination(s: &[u8]) -> RawTarget
    requires { length s.now ≡ 1539 }
    ensures { result ≡ target_of (destination (server_at s.now)) }
{
    let kept = eight_at(s, KEPT_AT);
    if has_destination(stage_of(stage_at(s[CODE_AT], kept), kept)) {
        let end = HOLD_AT + two_at(s, HELD_AT).min(NAME_V4);
        return target_of(as_target(bound_at(s), &s[HOLD_AT..end]));
    }
    target_of(no_target())
}

// How many bytes may be read without reading past the client's requests; 0 unless it waits.
pub fn wants(s: &[u8]) -> usize
    requires { length s.now ≡ 1539 }
    ensures { result ≡ wants (server_at s.now) }
{
    let kept = eight_at(s, KEPT_AT);
    let stage = stage_of(stage_at(s[CODE_AT], kept), kept);
    let user = text_at(s, USER_LEN_AT, USER_AT);
    let password = text_at(s, PASSWORD_LEN_AT, PASSWORD_AT);
    let end = HOLD_AT + two_at(s, HELD_AT).min(NAME_V4);
    let authenticates = authenticates_at(s[CODE_AT]);
    let credentials = Credentials {
        authenticates,
        user,
        password,
    };
    proxy_decisions::wants::wants(stage, &credentials, &s[HOLD_AT..end])
}
