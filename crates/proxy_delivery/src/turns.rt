// F-3: the turns of a delivery to the proxy's end: fields read from the unread bytes, one after the other, with what is said written to the output.
ghost use Rattle.std.specs.Prelude.{◌≡◌, ◌+◌, ◌-◌, ◌*◌, ◌≤◌, length, drop};
ghost use Rattle.proxy_spec.specs.Side.{reads};
ghost use Rattle.talk.specs.Decision.{decided, good};
ghost use Rattle.proxy_decisions.specs.decision.Due.{rank};
ghost use Rattle.proxy_delivery.specs.turns.Turns.{awaited_in, Steps, Worked};

use proxy_decisions::credentials::Credentials;
use proxy_decisions::decision::judge;
use proxy_replies::write::put;
use proxy_requests::read_field;
use proxy_requests::unread::Unread;
use proxy_spec::{Field, Stage};

// Where a delivery stands: the stage, the field that was read last, the places in the unread bytes at which that begins and
// behind which all is unread, and the place in the output behind what was said.
#[derive(Clone, Copy)]
pub struct Turn {
    pub stage: Stage,
    pub last: Field,
    pub begin: usize,
    pub place: usize,
    pub sent: usize,
}

// Which field is awaited, if one is.
fn awaited(stage: Stage) -> Option<Field>
    ensures { result ≡ awaited_in stage }
{
    match stage {
        Stage::Awaiting(field) => Some(field),
        Stage::Asked(_) | Stage::Open(_) | Stage::Failed(_) => None,
    }
}

// A field that is whole and good: what is said of it goes to the output.
fn step_good(
    field: Field,
    credentials: &Credentials,
    unread: &Unread,
    begin: usize,
    place: usize,
    out: &mut [u8],
    sent: usize,
) -> (Turn, Option<Field>)
    requires begin_le_place { (begin ≤ place) × ((place ≤ length unread.now) × (sent + 22 * rank field ≤ length out.old)) }
    requires piece_value { reads field (drop begin unread.now) ≡ decided (place - begin) good }
    ensures { Steps credentials.now field unread.now begin out.old sent result out.new }
{
    let due = judge(field, credentials, &unread.part(begin, place));
    let behind = put(out, sent, due.says);
    let turn = Turn {
        stage: due.stage,
        last: field,
        begin,
        place,
        sent: behind,
    };
    (turn, awaited(due.stage))
}

// A turn, and the field at which another follows.
fn take_turn(
    field: Field,
    credentials: &Credentials,
    unread: &Unread,
    place: usize,
    out: &mut [u8],
    sent: usize,
) -> (Turn, Option<Field>)
    requires { (place ≤ length unread.now) × (sent + 22 * rank field ≤ length out.old) }
    ensures { Steps credentials.now field unread.now place out.old sent result out.new }
{
    let waiting = Turn {
        stage: Stage::Awaiting(field),
        last: field,
        begin: place,
        place,
        sent,
    };
    match read_field(field, &unread.behind(place)) {
        None => (waiting, None),
        Some((n, Ok(()))) => step_good(field, credentials, unread, place, place + n, out, sent),
        Some((n, Err(error))) => {
            let failed = Turn {
                stage: Stage::Failed(error),
                place: place + n,
                ..waiting
            };
            (failed, None)
        },
    }
}

// Works through unread bytes from a place on, until the end waits, asks or fails.
pub fn work(
    field: Field,
    credentials: &Credentials,
    unread: &Unread,
    place: usize,
    out: &mut [u8],
    sent: usize,
) -> Turn
    requires { (place ≤ length unread.now) × (sent + 22 * rank field ≤ length out.old) }
    ensures { Worked credentials.now field unread.now place out.old sent result out.new }
{
    match take_turn(field, credentials, unread, place, out, sent) {
        (turn, None) => turn,
        (turn, Some(next)) => work(next, credentials, unread, turn.place, out, turn.sent),
    }
}
