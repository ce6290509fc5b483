// 01, "Delivery", and F-2: the turns of a delivery: replies read from the held bytes and the piece, one after the other, with what they make due counted.
ghost use Rattle.std.specs.Prelude.{◌≡◌, ◌++◌, ◌+◌, ◌≤◌, length, drop, IfNone};
ghost use Rattle.protocol.specs.Replies.{decide};
ghost use Rattle.client_stages.specs.due.Due.{still_due};
ghost use Rattle.client_stages.specs.declared.due.Stage.TheVariants as Stage;
ghost use Rattle.client_delivery.specs.turns.Turns.{turned, Worked};

use client_stages::due::{Lengths, Stage, due_judged};
use protocol::Reply;
use replies::unread::read_at;

// Where a delivery stands: the stage, the places in the held bytes and the piece at which the last reply read begins and behind which
// all is unread, how many bytes became due, and how many replies were decided.
#[derive(Clone, Copy)]
pub struct Turn {
    pub stage: Stage,
    pub begin: usize,
    pub place: usize,
    pub sent: usize,
    pub decided: u64,
}

impl Turn {
    // Reads the reply that is awaited. None where it is undecided.
    fn read(self, lengths: Lengths, reply: Reply, held: &[u8], piece: &[u8]) -> Option<Turn>
        requires { (self.place ≤ length held.now + length piece.now) × (self.sent + still_due (Stage.Awaiting reply) ≤ 775) × (self.decided ≤ 3) }
        ensures read { result ≡ turned lengths reply self (decide reply (drop self.place (held.now ++ piece.now))) }
        ensures few { IfNone result (length (drop self.place (held.now ++ piece.now)) ≤ 261) }
    {
        let (n, verdict) = read_at(reply, held, piece, self.place)?;
        let due = due_judged(lengths, reply, verdict);
        Some(Turn {
            stage: due.stage,
            begin: self.place,
            place: self.place + n,
            sent: self.sent + due.len,
            decided: self.decided + 1,
        })
    }
}

// Works through held bytes and a piece until the session waits, opens or fails: at most three replies.
pub fn work(lengths: Lengths, reply: Reply, held: &[u8], piece: &[u8]) -> Turn
    ensures { Worked lengths reply (held.now ++ piece.now) result.stage result.begin result.place result.sent result.decided }
{
    let mut turn = Turn {
        stage: Stage::Awaiting(reply),
        begin: 0,
        place: 0,
        sent: 0,
        decided: 0,
    };
    for _ in 0..3u8 {
        let Stage::Awaiting(awaited) = turn.stage else {
            break;
        };
        let Some(next) = turn.read(lengths, awaited, held, piece) else {
            break;
        };
        turn = next;
    }
    turn
}
