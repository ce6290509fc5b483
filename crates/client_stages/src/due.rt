// 01, "The call: the session": what a session keeps to send, and how much of it a reply makes due.
ghost use Rattle.std.specs.Prelude.{◌≡◌};
ghost use Rattle.client_stages.specs.due.Due.{unless_gone, authentication_due, proxy_due, due_after_method, due_after, due_judged, due_from, authentication_first};

use protocol::{AuthMethod, CONNECT, REQUESTS, Reply, SocksError};

// Which reply a session waits for, or how it ended.
#[derive(Clone, Copy)]
pub enum Stage {
    Awaiting(Reply),
    Open,
    Failed(SocksError),
}

// How many bytes the requests of an opening have: the first, which is a NegotiationReq over v5 and a Request over v4, an AuthenticationReq
// and a ProxyReq. optimistic: all go at the start.
#[derive(Clone, Copy)]
pub struct Lengths {
    pub optimistic: bool,
    pub first: usize,
    pub authentication: usize,
    pub proxy: usize,
}

// The requests of an opening as the bytes that go, one behind the other.
#[derive(Clone, Copy)]
pub struct Requests {
    pub lengths: Lengths,
    pub bytes: [u8; REQUESTS],
}

// The stage behind a reply, and how many bytes it makes due.
#[derive(Clone, Copy)]
pub struct Due {
    pub stage: Stage,
    pub len: usize,
}

// What went at the start is not due again.
fn unless_gone(optimistic: bool, len: usize) -> usize
    ensures { result ≡ unless_gone optimistic len }
{
    if optimistic { 0 } else { len }
}

fn authentication_due(lengths: Lengths) -> usize
    ensures { result ≡ authentication_due lengths }
{
    unless_gone(lengths.optimistic, lengths.authentication.min(513))
}

fn proxy_due(lengths: Lengths) -> usize
    ensures { result ≡ proxy_due lengths }
{
    unless_gone(lengths.optimistic, lengths.proxy.min(CONNECT))
}

fn due_after_method(lengths: Lengths, method: AuthMethod) -> Due
    ensures { result ≡ due_after_method lengths method }
{
    match method {
        AuthMethod::NoAuth => Due {
            stage: Stage::Awaiting(Reply::ProxyRes),
            len: proxy_due(lengths),
        },
        AuthMethod::UserPass => Due {
            stage: Stage::Awaiting(Reply::AuthenticationRes),
            len: authentication_due(lengths),
        },
        AuthMethod::NoneAcceptable => Due {
            stage: Stage::Failed(SocksError::MethodMismatch),
            len: 0,
        },
    }
}

// What a good reply makes due.
fn due_after(lengths: Lengths, reply: Reply) -> Due
    ensures { result ≡ due_after lengths reply }
{
    match reply {
        Reply::NegotiationRes(method) => due_after_method(lengths, method),
        Reply::AuthenticationRes => Due {
            stage: Stage::Awaiting(Reply::ProxyRes),
            len: proxy_due(lengths),
        },
        Reply::ProxyRes | Reply::Response => Due {
            stage: Stage::Open,
            len: 0,
        },
    }
}

// What a verdict makes due.
pub fn due_judged(lengths: Lengths, reply: Reply, verdict: Result<(), SocksError>) -> Due
    ensures { result ≡ due_judged lengths reply verdict }
{
    match verdict {
        Ok(()) => due_after(lengths, reply),
        Err(error) => Due {
            stage: Stage::Failed(error),
            len: 0,
        },
    }
}

// Whether what a reply makes due begins with the AuthenticationReq.
fn authentication_first(reply: Reply) -> bool
    ensures { result ≡ authentication_first reply }
{
    matches!(reply, Reply::NegotiationRes(AuthMethod::UserPass))
}

// Where among the bytes begins what becomes due from a reply on.
pub fn due_from(lengths: Lengths, reply: Reply) -> usize
    ensures { result ≡ due_from lengths reply }
{
    let at = lengths.first.min(3);
    if authentication_first(reply) {
        return at;
    }
    at + authentication_due(lengths)
}
