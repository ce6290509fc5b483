// 01, "The call: reading replies": replies read from the held bytes and the piece where they stand.
ghost use Rattle.std.specs.Prelude.{◌≡◌, ◌++◌, ◌+◌, ◌≤◌, length, drop};
ghost use Rattle.protocol.specs.Bytes.{byte};
ghost use Rattle.protocol.specs.Replies.{decide};
ghost use Rattle.replies.specs.unread.Fewest.{fewest};

use protocol::{Reply, SocksError};

// No reply is decided by fewer bytes.
pub fn fewest(reply: Reply) -> usize
    ensures { result ≡ fewest reply }
{
    match reply {
        Reply::NegotiationRes(_) | Reply::AuthenticationRes => 2,
        Reply::ProxyRes => 3,
        Reply::Response => 8,
    }
}

// A reply on the unread bytes. That the fifth of them is a byte is said for the callers' sake.
fn read_reply(reply: Reply, held: &[u8], piece: &[u8]) -> Option<(usize, Result<(), SocksError>)>
    ensures { (result ≡ decide reply (held.now ++ piece.now)) × (byte (held.now ++ piece.now) 4 ≤ 255) }
{
    match reply {
        Reply::NegotiationRes(sent) => crate::v5::read_negotiation_res(held, piece, sent),
        Reply::AuthenticationRes => crate::v5::read_authentication_res(held, piece),
        Reply::ProxyRes => crate::v5::read_proxy_res(held, piece),
        Reply::Response => crate::v4::read_response(held, piece),
    }
}

// The reply at a place of the held bytes and then the piece.
pub fn read_at(
    reply: Reply,
    held: &[u8],
    piece: &[u8],
    place: usize,
) -> Option<(usize, Result<(), SocksError>)>
    requires { place ≤ length held.now + length piece.now }
    ensures { (result ≡ decide reply (drop place (held.now ++ piece.now))) × (byte (drop place (held.now ++ piece.now)) 4 ≤ 255) }
{
    let a = place.min(held.len());
    let b = place - a;
    read_reply(reply, &held[a..], &piece[b..])
}
