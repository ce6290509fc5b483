// 01, "Delivery", and F-2: a piece taken by a session that waits: what its turns come to, and the undecided rest, or the bound address, kept at the start of the hold.
ghost use Rattle.std.specs.Prelude.{◌≡◌, ◌++◌, ◌+◌, ◌≤◌, length, take, drop};
ghost use Rattle.client_stages.specs.due.Stages.{session_at};
ghost use Rattle.client_delivery.specs.turns.Turns.{Rests, named_at, Ready};
ghost use Rattle.client_delivery.specs.piece.Takes.{Keeps, TakeResult};

use crate::turns::{Turn, work};
use buffers::hold::keep_rest;
use buffers::write::copy;
use client_stages::due::{Lengths, Stage, due_from};
use protocol::{Bound, Reply};
use replies::unread::fewest;

// What a piece comes to beside the hold: the stage, how many bytes are held and were used, the part of the requests that became due, the
// bound address but for its bytes, and the attempts.
#[derive(Clone, Copy)]
pub struct Taken {
    pub stage: Stage,
    pub held: usize,
    pub used: usize,
    pub from: usize,
    pub sent: usize,
    pub bound: Bound,
    pub attempts: u64,
}

// What the piece came to, where no turn follows: a session that waits holds what is unread of n held bytes and the piece, one that is open
// what its last reply names, and one that has failed nothing.
fn came_to(
    turn: Turn,
    reply: Reply,
    hold: &mut [u8],
    n: usize,
    piece: &[u8],
    from: usize,
    bound: Bound,
) -> Taken
    requires { (length hold.old ≡ 261) × (n ≤ 261) × (turn.place ≤ n + length piece.now) × Rests turn.stage (drop turn.place (take n hold.old ++ piece.now)) × Ready turn.stage reply turn.begin (take n hold.old ++ piece.now) × (turn.decided ≤ 3) }
    ensures { Keeps (session_at turn.stage (named_at reply turn.begin (take n hold.old ++ piece.now)) (drop turn.place (take n hold.old ++ piece.now))) turn.place (take n hold.old) piece.now hold.old bound turn.decided result hold.new × (result.from ≡ from) × (result.sent ≡ turn.sent) }
{
    let taken = Taken {
        stage: turn.stage,
        held: 0,
        used: turn.place.saturating_sub(n),
        from,
        sent: turn.sent,
        bound,
        attempts: turn.decided,
    };
    match turn.stage {
        Stage::Awaiting(_) => {
            keep_rest(hold, n, piece, turn.place);
            Taken {
                held: n + piece.len() - turn.place,
                used: piece.len(),
                attempts: turn.decided + 1,
                ..taken
            }
        }
        Stage::Open => {
            let kept = crate::bound_address::keep(reply, hold, n, piece, turn.begin);
            Taken {
                held: kept.len,
                bound: kept.bound,
                ..taken
            }
        }
        Stage::Failed(_) => taken,
    }
}

// Takes a piece behind the first n bytes of the hold. Where they are too few to decide anything all are held.
pub fn take(
    lengths: Lengths,
    reply: Reply,
    hold: &mut [u8],
    n: usize,
    piece: &[u8],
    bound: Bound,
) -> Taken
    requires { (length hold.old ≡ 261) × (n ≤ 261) }
    ensures { TakeResult lengths reply (take n hold.old) piece.now hold.old bound result hold.new }
{
    if n + piece.len() < fewest(reply) {
        copy(hold, n, piece);
        return Taken {
            stage: Stage::Awaiting(reply),
            held: n + piece.len(),
            used: piece.len(),
            from: 0,
            sent: 0,
            bound,
            attempts: 1,
        };
    }
    let turn = work(lengths, reply, &hold[..n], piece);
    came_to(turn, reply, hold, n, piece, due_from(lengths, reply), bound)
}
