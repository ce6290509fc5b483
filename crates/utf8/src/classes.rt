// UTF-8 by RFC 3629, section 4: a table of the classes of bytes, and a state that each byte moves.
ghost use Rattle.std.specs.Prelude.{◌≡◌};
ghost use Rattle.protocol.specs.Utf8.{class_of, among, first, next, is_boundary};

use protocol::Utf8State;

// The class of each byte value; a comment says where a run of one class begins and ends.
const CLASS: [u8; 256] = [
    0, // 00 to 7F
    0, 0, 0, 0, 0, 0, 0, 0, 0, 0, 0, 0, 0, 0, 0, 0, 0, 0, 0, 0, 0, 0, 0, 0, 0, 0, 0, 0, 0, 0, 0, 0,
    0, 0, 0, 0, 0, 0, 0, 0, 0, 0, 0, 0, 0, 0, 0, 0, 0, 0, 0, 0, 0, 0, 0, 0, 0, 0, 0, 0, 0, 0, 0, 0,
    0, 0, 0, 0, 0, 0, 0, 0, 0, 0, 0, 0, 0, 0, 0, 0, 0, 0, 0, 0, 0, 0, 0, 0, 0, 0, 0, 0, 0, 0, 0, 0,
    0, 0, 0, 0, 0, 0, 0, 0, 0, 0, 0, 0, 0, 0, 0, 0, 0, 0, 0, 0, 0, 0, 0, 0, 0, 0, 0, 0, 0, 0, 0, 1, // 80 to 8F
    1, 1, 1, 1, 1, 1, 1, 1, 1, 1, 1, 1, 1, 1, 1, 2, // 90 to 9F
    2, 2, 2, 2, 2, 2, 2, 2, 2, 2, 2, 2, 2, 2, 2, 3, // A0 to BF
    3, 3, 3, 3, 3, 3, 3, 3, 3, 3, 3, 3, 3, 3, 3, 3, 3, 3, 3, 3, 3, 3, 3, 3, 3, 3, 3, 3, 3, 3, 3,
    11, // C0 to C1
    11, 4, // C2 to DF
    4, 4, 4, 4, 4, 4, 4, 4, 4, 4, 4, 4, 4, 4, 4, 4, 4, 4, 4, 4, 4, 4, 4, 4, 4, 4, 4, 4, 4, 5, // E0
    6, // E1 to EC
    6, 6, 6, 6, 6, 6, 6, 6, 6, 6, 6, 7, // ED
    6, // EE to EF
    6, 8, // F0
    9, // F1 to F3
    9, 9, 10, // F4
    11, // F5 to FF
    11, 11, 11, 11, 11, 11, 11, 11, 11, 11,
];

pub fn class_of(b: u8) -> u8
    ensures { result ≡ class_of b }
{
    CLASS[usize::from(b)]
}

// The state, where the class is from lo to hi.
#[tactic(auto, unfolding(protocol::specs::Utf8::among))]
fn among(lo: u8, hi: u8, class: u8, state: Utf8State) -> Utf8State
    ensures { result ≡ among lo hi class state }
{
    if (lo..=hi).contains(&class) {
        state
    } else {
        Utf8State::Invalid
    }
}

// The state behind the first byte of a character.
#[tactic(auto, unfolding(protocol::specs::Utf8::first))]
fn first(class: u8) -> Utf8State
    ensures { result ≡ first class }
{
    match class {
        0 => Utf8State::Boundary,
        4 => Utf8State::Tail1,
        5 => Utf8State::AfterE0,
        6 => Utf8State::Tail2,
        7 => Utf8State::AfterEd,
        8 => Utf8State::AfterF0,
        9 => Utf8State::Tail3,
        10 => Utf8State::AfterF4,
        _ => Utf8State::Invalid,
    }
}

#[tactic(auto, unfolding(protocol::specs::Utf8::next))]
pub fn next(state: Utf8State, class: u8) -> Utf8State
    ensures { result ≡ next state class }
{
    match state {
        Utf8State::Boundary => first(class),
        Utf8State::Tail1 => among(1, 3, class, Utf8State::Boundary),
        Utf8State::Tail2 => among(1, 3, class, Utf8State::Tail1),
        Utf8State::Tail3 => among(1, 3, class, Utf8State::Tail2),
        Utf8State::AfterE0 => among(3, 3, class, Utf8State::Tail1),
        Utf8State::AfterEd => among(1, 2, class, Utf8State::Tail1),
        Utf8State::AfterF0 => among(2, 3, class, Utf8State::Tail2),
        Utf8State::AfterF4 => among(1, 1, class, Utf8State::Tail2),
        Utf8State::Invalid => Utf8State::Invalid,
    }
}

#[tactic(auto, unfolding(protocol::specs::Utf8::is_boundary))]
pub fn is_boundary(state: Utf8State) -> bool
    ensures { result ≡ is_boundary state }
{
    matches!(state, Utf8State::Boundary)
}
