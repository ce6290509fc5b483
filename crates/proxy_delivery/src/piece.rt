// F-3: a piece taken by the proxy's end: what its turns come to, and the undecided rest, or the destination, kept at the start of the hold.
ghost use Rattle.std.specs.Prelude.{◌≡◌, ◌++◌, ◌+◌, ◌-◌, ◌≤◌, length, take, drop};
ghost use Rattle.buffers.specs.write.Written.{overwrite};
ghost use Rattle.proxy_decisions.specs.decision.Due.{asks_at, session_at};
ghost use Rattle.proxy_decisions.specs.destination.Last.{Last};
ghost use Rattle.proxy_delivery.specs.turns.Turns.{Rests, Ready, last_in};
ghost use Rattle.proxy_delivery.specs.piece.Pieces.{Keeps, Asks, TakeResult};

use crate::turns::{Turn, work};
use buffers::hold::keep_rest;
use protocol::{Bound, NAME_V4};
use proxy_decisions::credentials::Credentials;
use proxy_decisions::destination::keep;
use proxy_requests::unread::Unread;
use proxy_spec::{Field, Stage};

// What a piece comes to beside the hold and the output: the stage, how many bytes are held, were used and were sent, and the destination but
// for its bytes.
#[derive(Clone, Copy)]
pub struct Taken {
    pub stage: Stage,
    pub held: usize,
    pub used: usize,
    pub sent: usize,
    pub bound: Bound,
}

// The end has failed and holds nothing.
fn failed(turn: Turn, n: usize, bound: Bound) -> Taken
    ensures { result ≡ record { stage = turn.stage; held = 0; used = turn.place - n; sent = turn.sent; bound = bound } }
{
    Taken {
        stage: turn.stage,
        held: 0,
        used: turn.place.saturating_sub(n),
        sent: turn.sent,
        bound,
    }
}

// The end waits, and holds what is unread of n held bytes and the piece.
fn waits(turn: Turn, hold: &mut [u8], n: usize, piece: &[u8], bound: Bound) -> Taken
    requires { (length hold.old ≡ 1014) × (n ≤ 1014) × (turn.place ≤ n + length piece.now) × (n + length piece.now ≤ turn.place + 1014) }
    ensures { (result ≡ record { stage = turn.stage; held = n + length piece.now - turn.place; used = length piece.now; sent = turn.sent; bound = bound }) × (hold.new ≡ overwrite hold.old 0 (drop turn.place (take n hold.old ++ piece.now))) }
{
    keep_rest(hold, n, piece, turn.place);
    Taken {
        stage: turn.stage,
        held: n + piece.len() - turn.place,
        used: piece.len(),
        sent: turn.sent,
        bound,
    }
}

// A destination is handed out, and kept at the hold's start.
fn asks(turn: Turn, hold: &mut [u8], n: usize, piece: &[u8]) -> Taken
    requires { (length hold.old ≡ 1014) × (n ≤ 1014) × (turn.begin ≤ turn.place) × (turn.place ≤ n + length piece.now) × Last turn.last (last_in turn (take n hold.old ++ piece.now)) }
    ensures { Asks (asks_at turn.last (last_in turn (take n hold.old ++ piece.now))) turn.stage (turn.place - n) turn.sent hold.old result hold.new }
{
    let kept = keep(turn.last, hold, n, piece, turn.begin, turn.place);
    Taken {
        stage: turn.stage,
        held: kept.len,
        used: turn.place.saturating_sub(n),
        sent: turn.sent,
        bound: kept.bound,
    }
}

// What the piece came to, where no turn follows. The hold is a slice, since F-7 lends a part of its bytes.
pub fn came_to(turn: Turn, hold: &mut [u8], n: usize, piece: &[u8], bound: Bound) -> Taken
    requires { (length hold.old ≡ 1014) × (n ≤ 1014) × (turn.begin ≤ turn.place) × (turn.place ≤ n + length piece.now) × Rests turn.stage (drop turn.place (take n hold.old ++ piece.now)) × Ready turn.stage turn.last (last_in turn (take n hold.old ++ piece.now)) }
    ensures { Keeps (session_at turn.stage (asks_at turn.last (last_in turn (take n hold.old ++ piece.now))) (drop turn.place (take n hold.old ++ piece.now))) turn.place (take n hold.old) piece.now hold.old bound result hold.new × (result.sent ≡ turn.sent) }
{
    match turn.stage {
        Stage::Awaiting(_) => waits(turn, hold, n, piece, bound),
        Stage::Asked(_) => asks(turn, hold, n, piece),
        Stage::Open(_) | Stage::Failed(_) => failed(turn, n, bound),
    }
}

// Takes a piece behind the first n bytes of the hold.
pub fn take(
    field: Field,
    credentials: &Credentials,
    hold: &mut [u8; NAME_V4],
    n: usize,
    piece: &[u8],
    bound: Bound,
    out: &mut [u8],
) -> Taken
    requires { (n ≤ 1014) × (262 ≤ length out.old) }
    ensures { TakeResult credentials.now field (take n hold.old) piece.now hold.old bound out.old result hold.new out.new }
{
    let unread = Unread::new(&hold[..n], piece);
    let turn = work(field, credentials, &unread, 0, out, 0);
    came_to(turn, hold, n, piece, bound)
}
