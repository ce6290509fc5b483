// How many bytes may be read without reading past the handshake, by what is held of the reply in turn.
ghost use Rattle.std.specs.Prelude.{◌≡◌, cond, [], ◌+◌, ◌≤◌, length, take};
ghost use Rattle.protocol.specs.declared.Reply.TheVariants as Reply;
ghost use Rattle.client_delivery.specs.wants.Wants.{begins_with, may_connect, size_from, proxy_least, lacking, behind, wants_for, wants_at};
ghost use Rattle.client_delivery.specs.wants.Still.{ends_within, name_still, type_still, proxy_still, response_still, good_still, still_at};

use client_stages::due::Stage;
use protocol::{AuthMethod, HOLD, Reply, Utf8State};
use replies::verdicts::rest_size;
use utf8::text::scanned;

// Nothing is held, or first this byte.
fn begins_with(b: u8, held: &[u8]) -> bool
    ensures { result ≡ begins_with b held.now }
{
    held.is_empty() || held[0] == b
}

// A ProxyRes may still tell success.
fn may_connect(held: &[u8]) -> bool
    ensures { result ≡ may_connect held.now }
{
    begins_with(0x05, held) && (held.len() < 2 || held[1] == 0x00)
}

// How many bytes a ProxyRes has at the least, where its type has come and no byte behind it.
fn size_from(atyp: u8, may: bool) -> usize
    ensures { result ≡ size_from atyp may }
{
    match atyp {
        0x01 => 10,
        0x04 => 22,
        0x03 if may => 8,
        _ => 5,
    }
}

// How many bytes a ProxyRes has at the least once it is decided.
fn proxy_least(held: &[u8]) -> usize
    ensures { (result ≡ proxy_least held.now) × (result ≤ 262) }
{
    match held.len() {
        0..=3 => {
            if may_connect(held) {
                8
            } else if held.len() < 3 {
                3
            } else {
                5
            }
        }
        4 => size_from(held[3], may_connect(held)),
        _ => 5 + rest_size(held[3], held[4]),
    }
}

fn lacking(size: usize, held: usize) -> usize
    ensures { (result ≡ lacking size held) × (result ≤ size + 1) }
{
    if held < size { size - held } else { 1 }
}

// The shortest replies behind one that awaits others.
fn behind_method(method: AuthMethod) -> usize
    ensures { (result ≡ behind (Reply.NegotiationRes method)) × (result ≤ 10) }
{
    match method {
        AuthMethod::NoAuth => 8,
        AuthMethod::UserPass => 10,
        AuthMethod::NoneAcceptable => 0,
    }
}

// What may follow a reply of two bytes that begins with this one, as long as it can be good.
fn with_behind(b: u8, held: &[u8], behind: usize) -> usize
    requires { behind ≤ 10 }
    ensures { (result ≡ lacking 2 (length held.now) + cond (begins_with b held.now) behind 0) × (result ≤ 13) }
{
    let n = lacking(2, held.len());
    if begins_with(b, held) { n + behind } else { n }
}

fn wants_for(reply: Reply, held: &[u8]) -> usize
    ensures { (result ≡ wants_for reply held.now) × (result ≤ 263) }
{
    match reply {
        Reply::NegotiationRes(method) => with_behind(0x05, held, behind_method(method)),
        Reply::AuthenticationRes => with_behind(0x01, held, 8),
        Reply::ProxyRes => lacking(proxy_least(held), held.len()),
        Reply::Response => lacking(8, held.len()),
    }
}

// At a stage, with the first bytes of the hold held.
pub fn wants(stage: Stage, started: bool, held: usize, hold: &[u8]) -> usize
    requires { length hold.now ≡ 261 }
    ensures { (result ≡ wants_at stage started (take held hold.now)) × (result ≤ 263) }
{
    match stage {
        Stage::Awaiting(reply) if started => wants_for(reply, &hold[..held.min(HOLD)]),
        _ => 0,
    }
}

// A text read so far can end behind so many bytes more.
fn ends_within(state: Utf8State, n: usize) -> bool
    ensures { result ≡ ends_within state n }
{
    match state {
        Utf8State::Boundary => true,
        Utf8State::Tail1 => 1 <= n,
        Utf8State::Tail2 | Utf8State::AfterE0 | Utf8State::AfterEd => 2 <= n,
        Utf8State::Tail3 | Utf8State::AfterF0 | Utf8State::AfterF4 => 3 <= n,
        Utf8State::Invalid => false,
    }
}

// The name of a ProxyRes, as far as it came, can still be UTF-8.
fn name_still(held: &[u8]) -> bool
    requires { 5 ≤ length held.now }
    ensures { result ≡ name_still held.now }
{
    let end = 5 + usize::from(held[4]);
    let to = end.min(held.len());
    let state = scanned(Utf8State::Boundary, &held[5..to]);
    ends_within(state, end - to)
}

// A ProxyRes whose type has come can still be good, by the type and the name.
fn type_still(held: &[u8]) -> bool
    requires { 4 ≤ length held.now }
    ensures { result ≡ type_still held.now }
{
    match held[3] {
        0x01 | 0x04 => true,
        0x03 => held.len() == 4 || name_still(held),
        _ => false,
    }
}

fn proxy_still(held: &[u8]) -> bool
    ensures { result ≡ proxy_still held.now }
{
    may_connect(held) && (held.len() < 4 || type_still(held))
}

fn response_still(held: &[u8]) -> bool
    ensures { result ≡ response_still held.now }
{
    begins_with(0x00, held) && (held.len() < 2 || held[1] == 0x5A)
}

fn good_still(reply: Reply, held: &[u8]) -> bool
    ensures { result ≡ good_still reply held.now }
{
    match reply {
        Reply::NegotiationRes(AuthMethod::NoneAcceptable) => false,
        Reply::NegotiationRes(_) => begins_with(0x05, held),
        Reply::AuthenticationRes => begins_with(0x01, held),
        Reply::ProxyRes => proxy_still(held),
        Reply::Response => response_still(held),
    }
}

// Whether some stream still opens a session at a stage, with the first bytes of the hold held.
pub fn opens_still(stage: Stage, held: usize, hold: &[u8]) -> bool
    requires { length hold.now ≡ 261 }
    ensures { result ≡ still_at stage (take held hold.now) }
{
    match stage {
        Stage::Awaiting(reply) => good_still(reply, &hold[..held.min(HOLD)]),
        Stage::Open | Stage::Failed(_) => false,
    }
}

// The shortest replies to a session that awaits this one and holds nothing.
pub fn shortest(reply: Reply) -> usize
    ensures { (result ≡ wants_for reply []) × (result ≤ 12) }
{
    match reply {
        Reply::NegotiationRes(method) => 2 + behind_method(method),
        Reply::AuthenticationRes => 10,
        Reply::ProxyRes | Reply::Response => 8,
    }
}
