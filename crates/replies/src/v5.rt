// SOCKS5 (RFC 1928, RFC 1929): readers for NegotiationRes, AuthenticationRes and ProxyRes.
ghost use Rattle.std.specs.Prelude.{◌≡◌, not, ◌||◌, ◌++◌, ◌+◌, ◌-◌, ◌≤◌, length, take, drop, eqb};
ghost use Rattle.protocol.specs.Replies.{proxy_size, proxy_verdict, whole_at, type_at, decide};
ghost use Rattle.protocol.specs.Bytes.{byte};
ghost use Rattle.protocol.specs.Utf8.{is_utf8};
ghost use Rattle.protocol.specs.declared.Reply.TheVariants as Reply;

use crate::verdicts::{
    authentication_verdict, head_allowed, negotiation_verdict, rest_size, type_allowed,
};
use protocol::{AuthMethod, SocksError};
use reader::{bytes_at, three_at, two_at};

// NegotiationRes: the version and the method chosen, in answer to the method sent.
pub fn read_negotiation_res(
    held: &[u8],
    piece: &[u8],
    sent: AuthMethod,
) -> Option<(usize, Result<(), SocksError>)>
    ensures { result ≡ decide (Reply.NegotiationRes sent) (held.now ++ piece.now) }
{
    let p = two_at(held, piece, 0);
    if p.came {
        return Some((p.at, negotiation_verdict(sent, p.first, p.second)));
    }
    None
}

// AuthenticationRes: the version and a status.
pub fn read_authentication_res(held: &[u8], piece: &[u8]) -> Option<(usize, Result<(), SocksError>)>
    ensures { result ≡ decide Reply.AuthenticationRes (held.now ++ piece.now) }
{
    let p = two_at(held, piece, 0);
    if p.came {
        return Some((p.at, authentication_verdict(p.first, p.second)));
    }
    None
}

// Whether the bytes from a place to another are UTF-8.
fn is_utf8_at(held: &[u8], piece: &[u8], from: usize, to: usize) -> bool
    requires { (from ≤ to) × (to ≤ length (held.now ++ piece.now)) }
    ensures { result ≡ is_utf8 (take (to - from) (drop from (held.now ++ piece.now))) }
{
    let n = held.len();
    let a = from.min(n);
    let b = to.min(n);
    let c = from - a;
    let d = to - b;
    utf8::text::is_utf8_in_two(&held[a..b], &piece[c..d])
}

// Whether the name at a place is UTF-8, where there is one.
fn name_allowed(held: &[u8], piece: &[u8], at: usize, atyp: u8, len: u8) -> bool
    requires { (at ≡ 5) × (atyp ≡ 0x03 → at + len ≤ length (held.now ++ piece.now)) }
    ensures { result ≡ (not (eqb atyp 0x03) || is_utf8 (take len (drop at (held.now ++ piece.now)))) }
{
    if atyp != 0x03 {
        return true;
    }
    is_utf8_at(held, piece, at, at + usize::from(len))
}

// How a whole ProxyRes is judged, whose name would stand at a place.
fn proxy_verdict(
    held: &[u8],
    piece: &[u8],
    at: usize,
    rep: u8,
    atyp: u8,
    len: u8,
) -> Result<(), SocksError>
    requires { (at ≡ 5) × (atyp ≡ 0x03 → at + len ≤ length (held.now ++ piece.now)) }
    ensures { result ≡ proxy_verdict rep atyp (take len (drop at (held.now ++ piece.now))) }
{
    if name_allowed(held, piece, at, atyp, len) {
        if rep != 0x00 {
            return Err(SocksError::Command(rep));
        }
        return Ok(());
    }
    Err(SocksError::Parsing)
}

// A ProxyRes behind its first five bytes, whose type may stand.
fn whole_at(
    held: &[u8],
    piece: &[u8],
    at: usize,
    rep: u8,
    atyp: u8,
    len: u8,
) -> Option<(usize, Result<(), SocksError>)>
    requires { (at ≡ 5) × (rep ≡ byte (held.now ++ piece.now) 1) × (atyp ≡ byte (held.now ++ piece.now) 3) × (len ≡ byte (held.now ++ piece.now) 4) }
    ensures { result ≡ whole_at (proxy_size atyp len) (held.now ++ piece.now) }
{
    let p = bytes_at(held, piece, at, rest_size(atyp, len));
    if p.came {
        return Some((p.at, proxy_verdict(held, piece, at, rep, atyp, len)));
    }
    None
}

// A ProxyRes from its type on, whose head may stand.
fn type_at(held: &[u8], piece: &[u8], at: usize, rep: u8) -> Option<(usize, Result<(), SocksError>)>
    requires { (at ≡ 3) × (rep ≡ byte (held.now ++ piece.now) 1) }
    ensures { result ≡ type_at (held.now ++ piece.now) }
{
    let t = two_at(held, piece, at);
    if t.came {
        if type_allowed(t.first, t.second) {
            return whole_at(held, piece, t.at, rep, t.first, t.second);
        }
        return Some((t.at, Err(SocksError::Parsing)));
    }
    None
}

// ProxyRes: the version, a status, a reserved byte, the address field, the port. Decided at 3 bytes, at 5, or whole.
pub fn read_proxy_res(held: &[u8], piece: &[u8]) -> Option<(usize, Result<(), SocksError>)>
    ensures { result ≡ decide Reply.ProxyRes (held.now ++ piece.now) }
{
    let h = three_at(held, piece, 0);
    if h.came {
        if head_allowed(h.first, h.second, h.third) {
            return type_at(held, piece, h.at, h.second);
        }
        return Some((h.at, Err(SocksError::Parsing)));
    }
    None
}
