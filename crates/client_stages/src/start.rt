// F-7: what a start answers, and how much of the requests that a session keeps it sends.
ghost use Rattle.std.specs.Prelude.{◌≡◌};
ghost use Rattle.protocol.specs.Client.{first_room};
ghost use Rattle.client_stages.specs.start.Starting.{first_size5, first_size, start_at};

use crate::due::{Lengths, Stage};
use protocol::{CONNECT, CREDENTIALS, OUTPUT_V5, Reply, START_OUTPUT_V4, SocksError};

// The output that a start must lend, by the version that the awaited reply tells.
fn room_of(reply: Reply) -> usize
    ensures { result ≡ first_room reply }
{
    match reply {
        Reply::NegotiationRes(_) | Reply::AuthenticationRes | Reply::ProxyRes => OUTPUT_V5,
        Reply::Response => START_OUTPUT_V4,
    }
}

// Over v5 the first request goes, or all.
fn first_size5(lengths: Lengths) -> usize
    ensures { result ≡ first_size5 lengths }
{
    let first = lengths.first.min(3);
    if lengths.optimistic {
        return first + lengths.authentication.min(CREDENTIALS) + lengths.proxy.min(CONNECT);
    }
    first
}

pub fn first_size(lengths: Lengths, reply: Reply) -> usize
    ensures { result ≡ first_size lengths reply }
{
    match reply {
        Reply::NegotiationRes(_) | Reply::AuthenticationRes | Reply::ProxyRes => {
            first_size5(lengths)
        }
        Reply::Response => lengths.first.min(START_OUTPUT_V4),
    }
}

// A start at a stage, with so much output lent: how many bytes of the requests go. A session that waits for a reply is started once,
// with enough output.
pub fn start(
    stage: Stage,
    started: bool,
    lengths: Lengths,
    room: usize,
) -> Result<usize, SocksError>
    ensures { result ≡ start_at stage started lengths room }
{
    let Stage::Awaiting(reply) = stage else {
        return Err(SocksError::Settled);
    };
    if started {
        return Err(SocksError::OutOfOrder);
    }
    if room < room_of(reply) {
        return Err(SocksError::ShortOutput);
    }
    Ok(first_size(lengths, reply))
}
