// F-10: a capture's entries in order: what was received goes to the session, and what was sent is held against what is due.
ghost use Rattle.std.specs.Prelude.{◌≡◌, List, ◌≤◌, length, take, Some};
ghost use Rattle.protocol.specs.Bytes.{same};
ghost use Rattle.client_session.specs.Session.{outcome};
ghost use Rattle.captures_spec.specs.Captures.{Entry, sent, received};
ghost use Rattle.captures_spec.specs.Reading.{row_of};
ghost use Rattle.captures.specs.Walk.{is_open, walked, held};
ghost use Rattle.captures.specs.Coded.{Typed, Fits, Passes, Delivers};

use crate::entries::first;
use captures_spec::Direction;
use client_delivery::delivery;
use client_delivery::piece::Taken;
use client_session::{Session, Started};
use protocol::{OUTPUT_V5, Outcome, REQUESTS};

// All that a session sends fits, and behind it the output that a delivery asks.
const DUE: usize = REQUESTS + OUTPUT_V5;

// Behind some entries: the session, how many bytes are due, and how many of these were sent. Each entry is lent the course, since by value it
// would copy the session.
#[derive(Clone, Copy)]
struct Course {
    session: Session,
    due: usize,
    sent: usize,
}

fn is_open(session: Session) -> bool
    ensures { result ≡ is_open (outcome session) }
{
    matches!(session.outcome(), Outcome::Open)
}

// What `Session::deliver` does, to a session that is lent: by value each delivery would copy it.
fn deliver(session: &mut Session, piece: &[u8], out: &mut [u8]) -> Taken
    requires { Typed session.old }
    ensures delivers { Delivers session.old piece.now out.old result session.new out.new }
    ensures typed { Typed session.new }
{
    let taken = match delivery::receive(
        session.stage,
        session.started,
        session.held,
        session.requests.lengths,
        &mut session.hold,
        piece,
        out.len(),
        session.bound,
    ) {
        Ok(taken) => taken,
        Err(_) => delivery::unchanged(session.stage, session.held, session.bound),
    };
    delivery::send(&session.requests, taken.from, taken.sent, out);
    session.stage = taken.stage;
    session.held = taken.held;
    session.bound = taken.bound;
    session.attempts = session.attempts.wrapping_add(taken.attempts);
    taken
}

// Received bytes: the session takes them all, and what it sends is due from there on.
fn receive(course: &mut Course, piece: &[u8], due: &mut [u8; DUE]) -> bool
    requires { Fits course.old due.old }
    ensures { Passes received piece.now course.old due.old result course.new due.new }
{
    let from = course.due;
    if from > REQUESTS {
        return false;
    }
    let taken = deliver(&mut course.session, piece, &mut due[from..]);
    course.due = from + taken.sent;
    taken.used == piece.len()
}

// Whether bytes begin with a piece. A short one is compared here, since `starts_with` is a call, which costs more than a few bytes.
fn begin_with(bytes: &[u8], piece: &[u8]) -> bool
    ensures { result ≡ same piece.now (take (length piece.now) bytes.now) }
{
    if piece.len() >= 8 {
        return bytes.starts_with(piece);
    }
    let mut left = bytes;
    let mut rest = piece;
    while let [byte, more @ ..] = rest {
        let [next, later @ ..] = left else {
            return false;
        };
        if *byte != *next {
            return false;
        }
        left = later;
        rest = more;
    }
    true
}

// Sent bytes: those that are due next.
fn send(course: &mut Course, piece: &[u8], due: &[u8; DUE]) -> bool
    requires { Fits course.old due.now }
    ensures { Passes sent piece.now course.old due.now result course.new due.now }
{
    if !begin_with(&due[course.sent..course.due], piece) {
        return false;
    }
    course.sent += piece.len();
    true
}

// Whether an entry is lawful; the course goes behind it.
fn pass(course: &mut Course, direction: Direction, piece: &[u8], due: &mut [u8; DUE]) -> bool
    requires { Fits course.old due.old }
    ensures { Passes direction piece.now course.old due.old result course.new due.new }
{
    match direction {
        Direction::Sent => send(course, piece, due),
        Direction::Received => receive(course, piece, due),
    }
}

// All entries of a capture that has no other bytes.
fn walk(started: Started, capture: &[u8], due: &mut [u8; DUE]) -> bool
    requires { started.sent ≤ 1802 }
    ensures { (es : List Entry) → row_of capture.now ≡ Some es → result ≡ walked es started.session (take started.sent due.old) 0 }
{
    let mut course = Course {
        session: started.session,
        due: started.sent,
        sent: 0,
    };
    let mut rest = capture;
    while let Some(entry) = first(rest) {
        if !pass(&mut course, entry.direction, entry.bytes, due) {
            return false;
        }
        rest = entry.behind;
    }
    is_open(course.session) && course.sent == course.due
}

// A prepared session, started, over all entries.
pub fn holds(session: Session, capture: &[u8]) -> bool
    ensures { (es : List Entry) → row_of capture.now ≡ Some es → result ≡ held session es }
{
    let mut due = [0u8; DUE];
    let started = session.start(&mut due);
    walk(started, capture, &mut due)
}
