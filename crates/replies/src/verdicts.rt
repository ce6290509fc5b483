// SOCKS5 (RFC 1928, RFC 1929): how the bytes of a reply are judged.
ghost use Rattle.std.specs.Prelude.{◌≡◌, ◌+◌, ◌≤◌};
ghost use Rattle.protocol.specs.Replies.{negotiation_verdict, authentication_verdict, head_allowed, type_allowed, proxy_size};

use buffers::fields::method_byte;
use protocol::{AuthMethod, SocksError};

// How a NegotiationRes is judged, by its version and method, which is held against the one sent.
#[tactic(auto, unfolding(protocol::specs::Replies::negotiation_verdict))]
pub fn negotiation_verdict(sent: AuthMethod, ver: u8, method: u8) -> Result<(), SocksError>
    ensures { result ≡ negotiation_verdict sent ver method }
{
    match (ver, method) {
        (0x05, 0xFF) => Err(SocksError::Unsupported),
        (0x05, 0x00 | 0x02) if method == method_byte(sent) => Ok(()),
        (0x05, 0x00 | 0x02) => Err(SocksError::MethodMismatch),
        _ => Err(SocksError::Parsing),
    }
}

#[tactic(auto, unfolding(protocol::specs::Replies::authentication_verdict))]
pub fn authentication_verdict(ver: u8, status: u8) -> Result<(), SocksError>
    ensures { result ≡ authentication_verdict ver status }
{
    match (ver, status) {
        (0x01, 0x00) => Ok(()),
        (0x01, _) => Err(SocksError::Failed),
        _ => Err(SocksError::Parsing),
    }
}

// Whether the first three bytes of a ProxyRes may stand.
#[tactic(auto, unfolding(protocol::specs::Replies::head_allowed))]
pub fn head_allowed(ver: u8, rep: u8, rsv: u8) -> bool
    ensures { result ≡ head_allowed ver rep rsv }
{
    ver == 0x05 && rep <= 0x08 && rsv == 0x00
}

// Whether the address type may stand, with the byte after it.
#[tactic(auto, unfolding(protocol::specs::Replies::type_allowed))]
pub fn type_allowed(atyp: u8, len: u8) -> bool
    ensures { result ≡ type_allowed atyp len }
{
    match atyp {
        0x01 | 0x04 => true,
        0x03 => 0 < len,
        _ => false,
    }
}

// How many bytes of a ProxyRes stand behind its first five.
#[tactic(auto, unfolding(protocol::specs::Replies::proxy_size))]
pub fn rest_size(atyp: u8, len: u8) -> usize
    ensures { (5 + result ≡ proxy_size atyp len) × (result ≤ 257) }
{
    match atyp {
        0x01 => 5,
        0x04 => 17,
        _ => 2 + usize::from(len),
    }
}
