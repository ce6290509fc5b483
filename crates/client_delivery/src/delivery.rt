// 01, "Delivery", and F-2: a delivery to a session that waits or has settled, without the session: what is answered, what the piece comes to, and what is sent of it.
ghost use Rattle.std.specs.Prelude.{◌≡◌, ◌+◌, ◌≤◌, length};
ghost use Rattle.protocol.specs.Client.{room};
ghost use Rattle.buffers.specs.write.Written.{overwrite};
ghost use Rattle.client_stages.specs.due.Parts.{part};
ghost use Rattle.client_delivery.specs.delivery.Received.{unchanged, ReceiveResult};

use crate::piece::Taken;
use buffers::write::copy;
use client_stages::due::{Lengths, Requests, Stage};
use protocol::{Bound, DELIVERY_OUTPUT_V4, HOLD, OUTPUT_V5, Reply, SocksError};

// The output that a delivery must lend, by the version that the awaited reply tells.
fn room_of(reply: Reply) -> usize
    ensures { result ≡ room reply }
{
    match reply {
        Reply::NegotiationRes(_) | Reply::AuthenticationRes | Reply::ProxyRes => OUTPUT_V5,
        Reply::Response => DELIVERY_OUTPUT_V4,
    }
}

// Nothing is taken, and nothing changes.
pub fn unchanged(stage: Stage, held: usize, bound: Bound) -> Taken
    ensures { result ≡ unchanged stage held bound }
{
    Taken {
        stage,
        held,
        used: 0,
        from: 0,
        sent: 0,
        bound,
        attempts: 0,
    }
}

// What a piece comes to, with so much output lent; on a refusal nothing is taken.
pub fn receive(
    stage: Stage,
    started: bool,
    held: usize,
    lengths: Lengths,
    hold: &mut [u8],
    piece: &[u8],
    room: usize,
    bound: Bound,
) -> Result<Taken, SocksError>
    requires { length hold.old ≡ 261 }
    ensures { ReceiveResult stage started held lengths hold.old piece.now room bound result hold.new }
{
    let Stage::Awaiting(reply) = stage else {
        return Err(SocksError::Settled);
    };
    if !started {
        return Err(SocksError::OutOfOrder);
    }
    if room < room_of(reply) {
        return Err(SocksError::ShortOutput);
    }
    if piece.is_empty() {
        return Ok(unchanged(stage, held, bound));
    }
    Ok(crate::piece::take(lengths, reply, hold, held.min(HOLD), piece, bound))
}

// Copies a part of the requests to the output's start.
pub fn send(requests: &Requests, from: usize, n: usize, out: &mut [u8])
    requires { (from + n ≤ 778) × (n ≤ length out.old) }
    ensures { out.new ≡ overwrite out.old 0 (part requests.now.bytes from n) }
{
    copy(out, 0, &requests.bytes[from..from + n]);
}
