// F-5: what is told of a route in lent bytes, each time what is told of the route that they mean. And how it is wiped.
ghost use Rattle.std.specs.Prelude.{◌≡◌, ◌≢◌, ◌≤◌, length};
ghost use Rattle.client_session.specs.Session.{write_bound};
ghost use Rattle.lent_numbers.specs.told.Told.{outcome_of};
ghost use Rattle.lent_session.specs.Calls.{address_of, Tells};
ghost use Rattle.route_session.specs.calls.Calls.{session_in, outcome, bound};
ghost use Rattle.lent_route.specs.State.{route_at};
ghost use Rattle.lent_route.specs.Calls.{wiped};

use crate::state::{BYTES_AT, COUNT_AT};
use lent_numbers::bytes::two_at;
use lent_numbers::told::RawOutcome;
use lent_session::preparing::clear;
use lent_session::state::SESSION;
use lent_session::telling::{RawAddress, RawText};
use protocol::REQUESTS;
use route_session::calls::last_of;

// How the route stands.
pub fn told(s: &[u8]) -> RawOutcome
    requires { length s.now ≡ 8538 }
    ensures { result ≡ outcome_of (outcome (route_at s.now)) }
{
    lent_session::telling::told(&s[..SESSION])
}

// The address and port that the last proxy's last reply named.
pub fn bound(s: &[u8]) -> RawAddress
    requires { length s.now ≡ 8538 }
    ensures { result ≡ address_of (bound (route_at s.now)) }
{
    lent_session::telling::bound(&s[..SESSION])
}

// It as text, at the buffer's start; 261 bytes are always enough.
pub fn bound_text(s: &[u8], text: &mut [u8]) -> RawText
    requires { length s.now ≡ 8538 }
    ensures tells { Tells (write_bound (session_in (route_at s.now)) text.old) result text.new }
    ensures enough { 261 ≤ length text.old → result.answer ≢ 18 }
{
    lent_session::telling::bound_text(&s[..SESSION], text)
}

// The attempts of all its proxies, each one's own.
pub fn attempts(s: &[u8]) -> u64
    requires { length s.now ≡ 8538 }
    ensures { result ≡ (route_at s.now).attempts }
{
    lent_session::telling::attempts(&s[..SESSION])
}

// Zeros for all that was written: the bytes before the requests, and the requests of its proxies.
pub fn wipe(s: &mut [u8])
    requires { length s.old ≡ 8538 }
    ensures { s.new ≡ wiped s.old }
{
    let last = last_of(two_at(s, COUNT_AT));
    let from = BYTES_AT + REQUESTS * (7 - last);
    clear(&mut s[from..]);
    clear(&mut s[..BYTES_AT]);
}
