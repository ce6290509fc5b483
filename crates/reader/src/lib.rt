// 01, "a small reader over the unread bytes that carries its place". The bytes stand in two slices, the held ones and then the piece, and are read where
// they stand. Its method leaves the work to a function on the slices and a place.

#![tactic(auto)]

ghost use Rattle.std.specs.Prelude.{◌≡◌, ◌++◌, ◌+◌, ◌≤◌, ◌<◌, drop};
ghost use Rattle.protocol.specs.Bytes.{byte, two_of};
ghost use Rattle.reader.specs.Reader.{byte_at, bytes_at, two_at, three_at};

#[derive(Clone, Copy)]
pub struct Reader<'a, 'b> {
    pub held: &'a [u8],
    pub piece: &'b [u8],
    pub at: usize,
}

// A byte, whether it came, and the place behind it. Where none came the byte is 0, and the place stays.
// Not an Option: a row of takes without a branch is faster (docs/DECISIONS.md, "Leaves").
#[derive(Clone, Copy)]
pub struct Took {
    pub byte: u8,
    pub came: bool,
    pub at: usize,
}

pub fn byte_at(held: &[u8], piece: &[u8], at: usize) -> Took
    ensures { result ≡ byte_at (held.now ++ piece.now) at }
{
    let n = held.len();
    if at < n {
        return Took {
            byte: held[at],
            came: true,
            at: at + 1,
        };
    }
    let j = at - n;
    if j < piece.len() {
        return Took {
            byte: piece[j],
            came: true,
            at: at + 1,
        };
    }
    Took {
        byte: 0,
        came: false,
        at,
    }
}

// A byte of the held bytes and then the piece; 0 behind them.
pub fn byte(held: &[u8], piece: &[u8], i: usize) -> u8
    ensures { result ≡ byte (held.now ++ piece.now) i }
{
    let took = byte_at(held, piece, i);
    took.byte
}

fn digit(b: u8) -> u16
    ensures { (result ≡ b) × (result < 256) }
{
    b as u16
}

// A field of two bytes, most significant first.
pub fn port_at(held: &[u8], piece: &[u8], at: usize) -> u16
    requires { at < 1000 }
    ensures { result ≡ two_of (drop at (held.now ++ piece.now)) }
{
    let first = byte(held, piece, at);
    let second = byte(held, piece, at + 1);
    digit(first) * 256 + digit(second)
}

// Whether so many bytes came, and the place behind them. Where they have not all come the place stays.
// Not an Option: a row of takes without a branch is faster (docs/DECISIONS.md, "Leaves").
#[derive(Clone, Copy)]
pub struct Passed {
    pub came: bool,
    pub at: usize,
}

pub fn bytes_at(held: &[u8], piece: &[u8], at: usize, n: usize) -> Passed
    requires { at + n ≤ 262 }
    ensures { result ≡ bytes_at (held.now ++ piece.now) at n }
{
    let end = at + n;
    if end <= held.len() + piece.len() {
        return Passed {
            came: true,
            at: end,
        };
    }
    Passed { came: false, at }
}

impl<'a, 'b> Reader<'a, 'b> {
    pub fn take_byte(self) -> Took
        ensures { result ≡ byte_at (self.entry.held.now ++ self.entry.piece.now) self.entry.at }
    {
        byte_at(self.held, self.piece, self.at)
    }
}

// Two bytes, whether all came that were to be taken, and the place behind what came.
// Not an Option: a row of takes without a branch is faster (docs/DECISIONS.md, "Leaves").
#[derive(Clone, Copy)]
pub struct Two {
    pub first: u8,
    pub second: u8,
    pub came: bool,
    pub at: usize,
}

// A take at the end goes nowhere, so the last one tells whether all came: a row of takes needs no branch.
pub fn two_at(held: &[u8], piece: &[u8], at: usize) -> Two
    ensures { result ≡ two_at (held.now ++ piece.now) at }
{
    let a = Reader { held, piece, at }.take_byte();
    let b = Reader {
        held,
        piece,
        at: a.at,
    }
    .take_byte();
    Two {
        first: a.byte,
        second: b.byte,
        came: b.came,
        at: b.at,
    }
}

// as `Two`: one take of N bytes into an Option was tried, and is slower
#[derive(Clone, Copy)]
pub struct Three {
    pub first: u8,
    pub second: u8,
    pub third: u8,
    pub came: bool,
    pub at: usize,
}

pub fn three_at(held: &[u8], piece: &[u8], at: usize) -> Three
    ensures { result ≡ three_at (held.now ++ piece.now) at }
{
    let p = two_at(held, piece, at);
    let c = byte_at(held, piece, p.at);
    Three {
        first: p.first,
        second: p.second,
        third: c.byte,
        came: c.came,
        at: c.at,
    }
}
