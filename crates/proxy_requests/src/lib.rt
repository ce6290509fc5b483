// F-3: the fields of a client's requests, read from the held bytes and the piece where they stand.

#![tactic(auto, unfolding(proxy_spec::specs::Side::reads))]

ghost use Rattle.std.specs.Prelude.{◌≡◌, cond, ◌≤◌, length, drop, leb};
ghost use Rattle.protocol.specs.Client.{told};
ghost use Rattle.protocol.specs.declared.SocksError.TheVariants as SocksError;
ghost use Rattle.talk.specs.Decision.{undecided, decided, good, bad};
ghost use Rattle.proxy_spec.specs.Reads.{text_in};
ghost use Rattle.proxy_spec.specs.Side.{reads, read_address};
ghost use Rattle.proxy_spec.specs.declared.Field.TheVariants as Field;
ghost use Rattle.proxy_requests.specs.Runs.{run_of, read_within};

pub mod unread;

use crate::unread::Unread;
use protocol::{NAME_V4, SocksError, USER_ID};
use proxy_spec::Field;

// Undecided, or decided by so many bytes, and how.
pub type Decision = Option<(usize, Result<(), SocksError>)>;

fn good(n: usize) -> Decision
    ensures { told result ≡ decided n good }
{
    Some((n, Ok(())))
}

fn malformed(n: usize) -> Decision
    ensures { told result ≡ decided n (bad SocksError.Malformed) }
{
    Some((n, Err(SocksError::Malformed)))
}

// A field of n bytes, once so many have come.
fn sized(n: usize, bytes: &Unread) -> Decision
    ensures { told result ≡ cond (leb n (length bytes.now)) (decided n good) undecided }
{
    if n <= bytes.len() { good(n) } else { None }
}

fn read_first(bytes: &Unread) -> Decision
    ensures { told result ≡ reads Field.First bytes.now }
{
    match bytes.get(0)? {
        0x04 | 0x05 => good(1),
        _ => malformed(1),
    }
}

pub fn read_methods(bytes: &Unread) -> Decision
    ensures { told result ≡ reads Field.Methods bytes.now }
{
    match bytes.get(0)? {
        0 => malformed(1),
        count => sized(1 + usize::from(count), bytes),
    }
}

pub fn read_user(bytes: &Unread) -> Decision
    ensures { told result ≡ reads Field.User bytes.now }
{
    if bytes.get(0)? != 0x01 {
        return malformed(1);
    }
    sized(2 + usize::from(bytes.get(1)?), bytes)
}

// Whether the user was right is not looked at.
pub fn read_password(right: bool, bytes: &Unread) -> Decision
    ensures { told result ≡ reads (Field.Password right) bytes.now }
{
    sized(1 + usize::from(bytes.get(0)?), bytes)
}

// Any command is taken so far.
pub fn read_head(bytes: &Unread) -> Decision
    ensures { told result ≡ reads Field.Head bytes.now }
{
    if bytes.get(0)? != 0x05 {
        return malformed(1);
    }
    if bytes.get(2)? != 0x00 {
        return malformed(3);
    }
    sized(4, bytes)
}

// An address and its port, by the type.
pub fn read_address(kind: u8, bytes: &Unread) -> Decision
    ensures { told result ≡ read_address kind bytes.now }
{
    match kind {
        0x01 => sized(6, bytes),
        0x04 => sized(18, bytes),
        _ => match bytes.get(0)? {
            0 => malformed(1),
            len => sized(3 + usize::from(len), bytes),
        },
    }
}

// How many bytes stand ahead of the first 00, of at most so many.
fn run_of(bytes: &Unread, most: usize) -> usize
    ensures run { result ≡ run_of most bytes.now }
    ensures at_most { result ≤ most }
{
    let end = bytes.len().min(most);
    // A loop: with `find` over the range the proof was not found.
    for i in 0..end {
        if bytes.byte(i) == 0x00 {
            return i;
        }
    }
    end
}

// A text and its 00, of at least and at most so many bytes ahead of it.
fn read_text(bytes: &Unread, fewest: usize, most: usize) -> Decision
    requires { most ≤ 1014 }
    ensures { told result ≡ read_within fewest (text_in most bytes.now) }
{
    let n = run_of(bytes, most);
    if bytes.get(n)? == 0x00 && fewest <= n {
        good(n + 1)
    } else {
        malformed(n + 1)
    }
}

pub fn read_field(field: Field, bytes: &Unread) -> Decision
    ensures { told result ≡ reads field bytes.now }
{
    match field {
        Field::First => read_first(bytes),
        Field::Methods => read_methods(bytes),
        Field::User => read_user(bytes),
        Field::Password(right) => read_password(right, bytes),
        Field::Head => read_head(bytes),
        Field::Address(_, kind) => read_address(kind, bytes),
        Field::Request => sized(7, bytes),
        Field::UserId(_) => read_text(bytes, 0, USER_ID),
        Field::Name(_) => read_text(bytes, 1, NAME_V4),
    }
}
