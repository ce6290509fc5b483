// F-3 and F-7: a client's piece for a proxy's end in lent bytes.
ghost use Rattle.std.specs.Prelude.{◌≡◌, true, ◌++◌, ◌+◌, ◌≤◌, ◌<◌, length, take, drop};
ghost use Rattle.protocol.specs.Bytes.{byte};
ghost use Rattle.talk.specs.Decision.{undecided};
ghost use Rattle.buffers.specs.write.Written.{overwrite, Wrote};
ghost use Rattle.proxy_spec.specs.Reads.{text_in, short};
ghost use Rattle.proxy_spec.specs.Side.{reads};
ghost use Rattle.proxy_spec.specs.declared.Stage.TheVariants as Stage;
ghost use Rattle.proxy_session.specs.Server.{setup_of};
ghost use Rattle.proxy_session.specs.Calls.{deliver};
ghost use Rattle.proxy_delivery.specs.turns.Turns.{Worked};
ghost use Rattle.lent_numbers.specs.bytes.Numbers.{digits};
ghost use Rattle.lent_proxy.specs.State.{field_of, kept_at, server_at};
ghost use Rattle.lent_proxy.specs.Fits.{changed, Rewrites};
ghost use Rattle.lent_proxy.specs.Calls.{Leaves};
ghost use Rattle.lent_proxy.specs.delivery.Lacking.{NoNull, Lacks, waiting_step, Settles};

use crate::state::{
    CODE_AT, HELD_AT, HOLD_AT, KEPT_AT, PASSWORD_AT, PASSWORD_LEN_AT, PORT_AT, USER_AT,
    USER_LEN_AT, authenticates_at, bound_at, field_of, low, put_stage, stage_at,
};
use crate::telling::{refused, standing_of};
use buffers::write::{copy, put_byte};
use lent_numbers::bytes::{eight_at, put_two, two_at};
use lent_numbers::told::{RawOutcome, RawStep};
use protocol::{NAME_V4, USER_ID};
use proxy_decisions::credentials::Credentials;
use proxy_delivery::piece::{Taken, came_to};
use proxy_delivery::turns::{Turn, work};
use proxy_requests::unread::Unread;
use proxy_requests::{read_address, read_head, read_methods, read_password, read_user};
use proxy_spec::Field;

// Accepted, and it waits.
fn waiting(used: usize) -> RawStep
    ensures { result ≡ waiting_step used }
{
    RawStep {
        used,
        sent: 0,
        answer: 0,
        outcome: RawOutcome {
            state: 0,
            number: 0,
            status: 0,
        },
    }
}

// Whether no byte is 00. All are looked at, several at a time.
fn has_no_null(bytes: &[u8]) -> bool
    ensures { result ≡ true → NoNull bytes.now }
{
    let mut least: u8 = 255;
    for &b in bytes {
        least = least.min(b);
    }
    0 < least
}

// Whether a piece ends no text. A single byte is the most frequent one.
fn is_within(piece: &[u8]) -> bool
    ensures { result ≡ true → NoNull piece.now }
{
    if piece.len() == 1 {
        return 0 < piece[0];
    }
    has_no_null(piece)
}

// Whether a text of at most so many bytes goes on.
fn goes_on(held: &[u8], piece: &[u8], most: usize) -> bool
    ensures { result ≡ true → text_in most (held.now ++ piece.now) ≡ short }
{
    if most < held.len() + piece.len() {
        return false;
    }
    if is_within(piece) {
        return has_no_null(held);
    }
    false
}

// Whether the bytes of a field decide nothing, by the field's number and what is kept.
fn lacks(n: u8, kept: u64, held: &[u8], piece: &[u8]) -> bool
    ensures { result ≡ true → reads (field_of n kept) (held.now ++ piece.now) ≡ undecided }
{
    let bytes = Unread::new(held, piece);
    match n {
        2 => read_methods(&bytes).is_none(),
        3 => read_user(&bytes).is_none(),
        4 => read_password(false, &bytes).is_none(),
        5 => read_password(true, &bytes).is_none(),
        6 => read_head(&bytes).is_none(),
        7 => read_address(low(kept / 256), &bytes).is_none(),
        8 => held.len() + piece.len() < 7,
        9 => goes_on(held, piece, USER_ID),
        10 => goes_on(held, piece, NAME_V4),
        _ => false,
    }
}

// Whether a piece decides nothing, and is only to be held.
fn is_held(s: &[u8], n: u8, kept: u64, held: usize, piece: &[u8]) -> bool
    requires { length s.now ≡ 1539 }
    ensures { result ≡ true → Lacks (field_of n kept) (take 1014 (drop 15 s.now)) held piece.now }
{
    if NAME_V4 < piece.len() || NAME_V4 - piece.len() < held {
        return false;
    }
    let end = HOLD_AT + held;
    lacks(n, kept, &s[HOLD_AT..end], piece)
}

// Copies a piece to a place.
fn put(s: &mut [u8], at: usize, piece: &[u8]) -> usize
    requires { at + length piece.now ≤ length s.old }
    ensures { Wrote s.old at piece.now result s.new }
{
    if piece.len() == 1 {
        return put_byte(s, at, piece[0]);
    }
    copy(s, at, piece)
}

// Holds a piece behind what is held.
fn append(s: &mut [u8], held: usize, piece: &[u8]) -> RawStep
    requires { (length s.old ≡ 1539) × (held + length piece.now ≤ 1014) }
    ensures { (result ≡ waiting_step (length piece.now)) × (s.new ≡ overwrite (overwrite s.old (15 + held) piece.now) 0 (digits 2 (held + length piece.now))) }
{
    let n = piece.len();
    put(s, HOLD_AT + held, piece);
    put_two(s, HELD_AT, held + n);
    waiting(n)
}

// A user or a password, by the places of its length and of its bytes.
pub fn text_at(s: &[u8], size: usize, at: usize) -> &[u8]
    requires { (size < length s.now) × (at + 255 ≤ length s.now) }
    ensures { result.now ≡ take (byte s.now size) (drop at s.now) }
{
    let end = at + usize::from(s[size]);
    &s[at..end]
}

// Works through the held bytes and a piece.
fn work_at(s: &[u8], field: Field, held: usize, piece: &[u8], out: &mut [u8]) -> Turn
    requires { (length s.now ≡ 1539) × (held ≤ 1014) × (length out.old ≡ 1024) }
    ensures { Worked (setup_of (server_at s.now)) field (take held (take 1014 (drop 15 s.now)) ++ piece.now) 0 out.old 0 result out.new }
{
    let user = text_at(s, USER_LEN_AT, USER_AT);
    let password = text_at(s, PASSWORD_LEN_AT, PASSWORD_AT);
    let end = HOLD_AT + held;
    let authenticates = authenticates_at(s[CODE_AT]);
    let credentials = Credentials {
        authenticates,
        user,
        password,
    };
    let unread = Unread::new(&s[HOLD_AT..end], piece);
    work(field, &credentials, &unread, 0, out, 0)
}

// What a piece came to, beside the hold.
fn settle(s: &mut [u8], taken: Taken) -> RawStep
    requires { length s.old ≡ 1539 }
    ensures { Settles taken s.old result s.new }
{
    let bound = taken.bound;
    put_two(s, HELD_AT, taken.held);
    put_two(s, PORT_AT, bound.port as usize);
    put_stage(s, taken.stage, bound.kind);
    RawStep {
        used: taken.used,
        sent: taken.sent,
        answer: 0,
        outcome: standing_of(taken.stage),
    }
}

// A piece for an end that waits for a field, whatever it comes to.
fn decide(s: &mut [u8], field: Field, held: usize, piece: &[u8], out: &mut [u8]) -> RawStep
    requires { (length s.old ≡ 1539) × (length out.old ≡ 1024) × ((server_at s.old).stage ≡ Stage.Awaiting field) × (held ≡ (server_at s.old).held) × (0 < length piece.now) }
    ensures { Leaves (deliver (server_at s.old) piece.now out.old) s.old result s.new out.new }
{
    let bound = bound_at(s);
    let n = held.min(NAME_V4);
    let turn = work_at(s, field, n, piece, out);
    let taken = came_to(turn, &mut s[HOLD_AT..USER_AT], n, piece, bound);
    settle(s, taken)
}

// Takes a client's piece, and puts what is said at the output's start. One that decides nothing is only held.
pub fn deliver(s: &mut [u8], piece: &[u8], out: &mut [u8]) -> RawStep
    requires { (length s.old ≡ 1539) × (length out.old ≡ 1024) }
    ensures { Leaves (deliver (server_at s.old) piece.now out.old) s.old result s.new out.new }
{
    let kept = eight_at(s, KEPT_AT);
    let n = stage_at(s[CODE_AT], kept);
    if n == 0 {
        return refused(s);
    }
    if 10 < n {
        return refused(s);
    }
    if piece.len() == 0 {
        return waiting(0);
    }
    let held = two_at(s, HELD_AT);
    if is_held(s, n, kept, held, piece) {
        return append(s, held, piece);
    }
    decide(s, field_of(n, kept), held, piece, out)
}
