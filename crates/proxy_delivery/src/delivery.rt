// F-3: a delivery to the proxy's end, without the value: whether the piece is taken, and what it comes to.
ghost use Rattle.std.specs.Prelude.{◌≡◌};
ghost use Rattle.proxy_spec.specs.declared.Stage.TheVariants as Stage;
ghost use Rattle.proxy_delivery.specs.delivery.Received.{untaken, ReceiveResult};

use crate::piece::{Taken, take};
use protocol::{Bound, NAME_V4, PROXY_OUTPUT, SocksError};
use proxy_decisions::credentials::Credentials;
use proxy_spec::{Field, Stage};

// Nothing was taken.
fn untaken(stage: Stage, held: usize, bound: Bound) -> Taken
    ensures { result ≡ untaken stage held bound }
{
    Taken {
        stage,
        held,
        used: 0,
        sent: 0,
        bound,
    }
}

// A piece for an end that waits. An empty one changes nothing.
fn receive_awaiting(
    field: Field,
    held: usize,
    credentials: &Credentials,
    hold: &mut [u8; NAME_V4],
    piece: &[u8],
    bound: Bound,
    out: &mut [u8],
) -> Result<Taken, SocksError>
    ensures { ReceiveResult (Stage.Awaiting field) held credentials.now hold.old piece.now bound out.old result hold.new out.new }
{
    if out.len() < PROXY_OUTPUT {
        return Err(SocksError::ShortOutput);
    }
    if piece.is_empty() {
        return Ok(untaken(Stage::Awaiting(field), held, bound));
    }
    let n = held.min(NAME_V4);
    Ok(take(field, credentials, hold, n, piece, bound, out))
}

// A piece for the proxy's end, with what it was set up with. Of a refused one nothing is taken.
pub fn receive(
    stage: Stage,
    held: usize,
    credentials: &Credentials,
    hold: &mut [u8; NAME_V4],
    piece: &[u8],
    bound: Bound,
    out: &mut [u8],
) -> Result<Taken, SocksError>
    ensures { ReceiveResult stage held credentials.now hold.old piece.now bound out.old result hold.new out.new }
{
    match stage {
        Stage::Awaiting(field) => receive_awaiting(
            field,
            held,
            credentials,
            hold,
            piece,
            bound,
            out,
        ),
        Stage::Asked(_) | Stage::Open(_) | Stage::Failed(_) => Err(SocksError::Settled),
    }
}
