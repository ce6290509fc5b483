// SOCKS4 and SOCKS4A (the memos): a reader for Response.
ghost use Rattle.std.specs.Prelude.{◌≡◌, ◌++◌};
ghost use Rattle.protocol.specs.Replies.{response_verdict, decide};
ghost use Rattle.protocol.specs.declared.Reply.TheVariants as Reply;

use protocol::SocksError;
use reader::{bytes_at, two_at};

#[tactic(auto, unfolding(protocol::specs::Replies::response_verdict))]
fn response_verdict(vn: u8, cd: u8) -> Result<(), SocksError>
    ensures { result ≡ response_verdict vn cd }
{
    match (vn, cd) {
        (0x00, 90) => Ok(()),
        (0x00, 91..=93) => Err(SocksError::Command(cd)),
        _ => Err(SocksError::Parsing),
    }
}

// Response: a zero, a status, and six bytes more, which only BIND uses.
pub fn read_response(held: &[u8], piece: &[u8]) -> Option<(usize, Result<(), SocksError>)>
    ensures { result ≡ decide Reply.Response (held.now ++ piece.now) }
{
    let p = two_at(held, piece, 0);
    let q = bytes_at(held, piece, p.at, 6);
    if q.came {
        return Some((q.at, response_verdict(p.first, p.second)));
    }
    None
}
