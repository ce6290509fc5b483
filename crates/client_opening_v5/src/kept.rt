// 01, "Opening v5" and "v5 requests", and F-7: what an accepted opening over SOCKS5 keeps: its requests, written one behind the other.
ghost use Rattle.std.specs.Prelude.{◌≡◌, true, ◌+◌, ◌≤◌, length, replicate};
ghost use Rattle.protocol.specs.declared.AddressKind.TheVariants as AddressKind;
ghost use Rattle.protocol.specs.Answers.{Accepted};
ghost use Rattle.protocol.specs.Requests.{proxy_req};
ghost use Rattle.protocol.specs.Opening.{v5, credentials_if, port_number};
ghost use Rattle.buffers.specs.write.Written.{Wrote};
ghost use Rattle.client_session.specs.Calls.{kept_by, prepared_by};
ghost use Rattle.client_opening.specs.common.Asked.{target5};
ghost use Rattle.client_opening.specs.common.Begun.{method_of, prepared_with};
ghost use Rattle.client_opening_v5.specs.kept.Accepted.{Short5, credentials_req};

use address_text::ipv4::AddressText;
use client_opening::common::Begun;
use client_stages::due::{Lengths, Stage};
use protocol::{AddressKind, AuthMethod, Reply, SocksConfig};
use requests::v5::{put_authentication_req, put_negotiation_req, put_proxy_req};

fn method_of(auth: bool) -> AuthMethod
    ensures { result ≡ method_of auth }
{
    if auth {
        AuthMethod::UserPass
    } else {
        AuthMethod::NoAuth
    }
}

// The AuthenticationReq, if credentials are given.
fn put_authentication(
    bytes: &mut [u8],
    at: usize,
    auth: bool,
    user: &[u8],
    password: &[u8],
) -> usize
    requires { (auth ≡ true → (length user.now ≤ 255) × (length password.now ≤ 255)) × (at + 513 ≤ length bytes.old) }
    ensures { Wrote bytes.old at (credentials_req auth user.now password.now) result bytes.new }
{
    if auth {
        return put_authentication_req(bytes, at, user, password);
    }
    at
}

// The ProxyReq for what is asked for: an address, or the host's text as a name.
fn put_proxy(bytes: &mut [u8], at: usize, asked: AddressText, text: &[u8], port: u16) -> usize
    requires { (asked.kind ≡ AddressKind.Domain → length text.now ≤ 255) × (at + 262 ≤ length bytes.old) }
    ensures { Wrote bytes.old at (proxy_req (target5 asked text.now) port) result bytes.new }
{
    let kind = asked.kind;
    match kind {
        AddressKind::Ipv4 => put_proxy_req(bytes, at, kind, &asked.bytes[..4], port),
        AddressKind::Ipv6 => put_proxy_req(bytes, at, kind, &asked.bytes, port),
        AddressKind::Domain => put_proxy_req(bytes, at, kind, text, port),
    }
}

// The requests of an accepted opening, one behind the other.
fn keep(
    bytes: &mut [u8],
    config: SocksConfig,
    text: &[u8],
    asked: AddressText,
    port: u16,
    user: &[u8],
    password: &[u8],
) -> Lengths
    requires { (bytes.old ≡ replicate 1024 0) × Short5 config.proxy_auth user.now password.now asked.kind text.now }
    ensures { record { lengths = result; bytes = bytes.new } ≡ kept_by (v5 (credentials_if config.proxy_auth user.now password.now) (target5 asked text.now) port config.optimistic) }
{
    let a = put_negotiation_req(bytes, 0, method_of(config.proxy_auth));
    let b = put_authentication(bytes, a, config.proxy_auth, user, password);
    let c = put_proxy(bytes, b, asked, text, port);
    Lengths {
        optimistic: config.optimistic,
        first: a,
        authentication: b - a,
        proxy: c - b,
    }
}

// An accepted opening.
pub fn accept(
    bytes: &mut [u8],
    config: SocksConfig,
    text: &[u8],
    asked: AddressText,
    port: Option<u16>,
    user: &[u8],
    password: &[u8],
) -> Begun
    requires { (bytes.old ≡ replicate 1024 0) × Short5 config.proxy_auth user.now password.now asked.kind text.now }
    ensures { prepared_with result bytes.new ≡ prepared_by Accepted (v5 (credentials_if config.proxy_auth user.now password.now) (target5 asked text.now) (port_number port) config.optimistic) }
{
    let lengths = keep(
        bytes,
        config,
        text,
        asked,
        client_opening::common::port_number(port),
        user,
        password,
    );
    Begun {
        answer: Ok(()),
        stage: Stage::Awaiting(Reply::NegotiationRes(method_of(config.proxy_auth))),
        lengths,
    }
}
