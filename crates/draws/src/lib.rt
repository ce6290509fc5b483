// F-13: the load: what is drawn for a handshake, and how its replies are cut into pieces.

#![tactic(auto)]

ghost use Rattle.std.specs.Prelude.{◌≡◌, ◌≤◌, ◌<◌};
ghost use Rattle.draws.specs.Draws.{draw_of, choice_of, piece_of};

// The next state and its top 16 bits.
#[derive(Clone, Copy)]
pub struct Drawn {
    pub state: u32,
    pub value: u32,
}

pub fn draw(state: u32) -> Drawn
    ensures { result ≡ draw_of state }
{
    let next = state.wrapping_mul(1664525).wrapping_add(1013904223);
    Drawn {
        state: next,
        value: next / 65536,
    }
}

#[derive(Clone, Copy)]
pub struct Choice {
    pub v5: bool,
    pub credentials: bool,
    pub name: usize,
    pub state: u32,
}

pub fn choose(state: u32) -> Choice
    ensures value { result ≡ choice_of state }
    ensures name_bound { result.name ≤ 200 }
{
    let version = draw(state);
    let credentials = draw(version.state);
    let name = draw(credentials.state);
    Choice {
        v5: version.value % 2 == 0,
        credentials: credentials.value % 2 == 1,
        name: 1 + name.value as usize % 200,
        state: name.state,
    }
}

#[derive(Clone, Copy)]
pub struct Piece {
    pub len: usize,
    pub state: u32,
}

// The next of the pieces of which so many bytes are left. Of none there is a piece of no byte, and nothing is drawn.
pub fn next_piece(state: u32, left: usize, single: bool) -> Piece
    ensures value { result ≡ piece_of state left single }
    ensures len_le_left { result.len ≤ left }
    ensures len_nonzero { 0 < left → 0 < result.len }
{
    if left == 0 || single {
        return Piece {
            len: left.min(1),
            state,
        };
    }
    let drawn = draw(state);
    let len = 1 + drawn.value as usize % 40;
    Piece {
        len: len.min(left),
        state: drawn.state,
    }
}
