// UTF-8 by RFC 3629, section 4: texts read byte by byte, by the states of `utf8_states`.
ghost use Rattle.std.specs.Prelude.{◌≡◌, true, ◌++◌};
ghost use Rattle.protocol.specs.Utf8.{scan, is_utf8};
ghost use Rattle.protocol.specs.declared.Utf8State.TheVariants as Utf8State;

use crate::classes::{class_of, is_boundary, next};
use protocol::Utf8State;

// The state behind bytes that are read from a state on.
pub fn scanned(from: Utf8State, s: &[u8]) -> Utf8State
    ensures { result ≡ scan from s.now }
{
    s.iter().fold(from, |state, &b| next(state, class_of(b)))
}

#[tactic(auto, unfolding(protocol::specs::Utf8::is_utf8))]
pub fn is_utf8(s: &[u8]) -> bool
    ensures { result ≡ is_utf8 s.now }
{
    is_boundary(scanned(Utf8State::Boundary, s))
}

// Whether bytes that stand in two slices are UTF-8. Where each is below 80 no look into the table is needed.
pub fn is_utf8_in_two(s: &[u8], t: &[u8]) -> bool
    ensures { result ≡ is_utf8 (s.now ++ t.now) }
{
    if s.is_ascii() && t.is_ascii() {
        return true;
    }
    is_boundary(scanned(scanned(Utf8State::Boundary, s), t))
}
