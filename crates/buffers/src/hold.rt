// 01, "a fixed hold", and F-2: the start of a hold of any length: the undecided rest of its bytes and a piece, or an address that was found in them, kept there.
ghost use Rattle.std.specs.Prelude.{◌≡◌, ◌++◌, ◌+◌, ◌-◌, ◌≤◌, length, take, drop};
ghost use Rattle.buffers.specs.write.Written.{overwrite};
ghost use Rattle.buffers.specs.hold.Held.{Kept};

use crate::write::copy;
use protocol::{AddressKind, Bound};

// Where an address stands and how many bytes it has; its kind and its port.
#[derive(Clone, Copy)]
pub struct Found {
    pub at: usize,
    pub len: usize,
    pub bound: Bound,
}

pub fn stands(kind: AddressKind, at: usize, len: usize, port: u16) -> Found
    ensures { result ≡ record { at = at; len = len; bound = record { kind = kind; port = port } } }
{
    Found {
        at,
        len,
        bound: Bound { kind, port },
    }
}

// Moves n bytes from a place to the start. Not `copy_within`, with which the archive would need `memmove`.
fn shift(hold: &mut [u8], from: usize, n: usize)
    requires { from + n ≤ length hold.old }
    ensures { hold.new ≡ overwrite hold.old 0 (take n (drop from hold.old)) }
{
    for i in 0..n {
        hold[i] = hold[from + i];
    }
}

// `hold`, `n` and `piece` stay three parameters: a struct of them would hold the `&mut`, and its clauses would be about a loan.

// What is unread of the first n bytes of the hold and then a piece, kept at the hold's start. Every byte behind that stays.
pub fn keep_rest(hold: &mut [u8], n: usize, piece: &[u8], place: usize)
    requires { (n ≤ length hold.old) × (place ≤ n + length piece.now) × (n + length piece.now ≤ place + length hold.old) }
    ensures { hold.new ≡ overwrite hold.old 0 (drop place (take n hold.old ++ piece.now)) }
{
    if n <= place {
        copy(hold, 0, &piece[place - n..]);
        return;
    }
    if 0 < place {
        shift(hold, place, n - place);
    }
    copy(hold, n - place, piece);
}

// The bytes from a place to another of the first n bytes of the hold and then a piece, kept at the hold's start.
fn keep_part(hold: &mut [u8], n: usize, piece: &[u8], from: usize, to: usize)
    requires { (n ≤ length hold.old) × (from ≤ to) × (to ≤ from + length hold.old) × (to ≤ n + length piece.now) }
    ensures { hold.new ≡ take (to - from) (drop from (take n hold.old ++ piece.now)) ++ drop (to - from) hold.old }
{
    let m = to.min(n);
    keep_rest(hold, m, &piece[..to - m], from);
}

// Beside the bytes that were kept: how many they are, their kind and the port.
#[derive(Clone, Copy)]
pub struct Held {
    pub len: usize,
    pub bound: Bound,
}

// Keeps an address that was found behind a place of the first n bytes of the hold and then a piece.
pub fn keep_found(found: Found, hold: &mut [u8], n: usize, piece: &[u8], at: usize) -> Held
    requires { (n ≤ length hold.old) × (found.len ≤ length hold.old) × (at + found.at + found.len ≤ n + length piece.now) }
    ensures { Kept (drop at (take n hold.old ++ piece.now)) found hold.old result hold.new }
{
    let from = at + found.at;
    keep_part(hold, n, piece, from, from + found.len);
    Held {
        len: found.len,
        bound: found.bound,
    }
}
