// 01, "a small reader over the unread bytes": the bytes of a field where they stand, in two slices: the held ones and then the piece.
ghost use Rattle.std.specs.Prelude.{◌≡◌, ◌++◌, ◌≤◌, ◌-◌, ◌<◌, ◌^◌, List, ℕ, nat_eq, length, take, drop, slice_get};
ghost use Rattle.std.specs.List.{list_any};
ghost use Rattle.protocol.specs.Bytes.{Bytes, byte, two_of, same};

use std::marker::Model;

#[derive(Drop)]
pub struct Unread<'h, 'p> {
    held: &'h [u8],
    piece: &'p [u8],
}

impl<'h, 'p> Model for Unread<'h, 'p> {
    ghost Value = { List ℕ };

    ghost view = { λ u. u.held.now ++ u.piece.now };

    ghost invariant = { λ u. Bytes (u.held.now ++ u.piece.now) };
}

impl<'h, 'p> Unread<'h, 'p> {
    pub fn new(held: &'h [u8], piece: &'p [u8]) -> Unread<'h, 'p>
        ensures { result ≡ held.now ++ piece.now }
    {
        Unread { held, piece }
    }

    pub fn len(&self) -> usize
        ensures { result ≡ length self.now }
    {
        self.held.len() + self.piece.len()
    }

    pub fn get(&self, i: usize) -> Option<u8>
        ensures { result ≡ slice_get self.now i }
    {
        if i < self.held.len() {
            Some(self.held[i])
        } else {
            self.piece.get(i - self.held.len()).copied()
        }
    }

    // 0 behind them.
    pub fn byte(&self, i: usize) -> u8
        ensures { result ≡ byte self.now i }
    {
        self.get(i).unwrap_or(0)
    }

    // A field of two bytes, most significant first.
    pub fn port(&self, at: usize) -> u16
        ensures { result ≡ two_of (drop at self.now) }
    {
        let field = self.behind(at);
        u16::from_be_bytes([field.byte(0), field.byte(1)])
    }

    // What stands behind so many bytes.
    pub fn behind(&self, count: usize) -> Unread<'h, 'p>
        ensures rest { result ≡ drop count self.now }
        ensures bytes { Bytes self.now }
        ensures fits { length self.now < 2 ^ 64 }
    {
        let first = count.min(self.held.len());
        let second = (count - first).min(self.piece.len());
        Unread::new(&self.held[first..], &self.piece[second..])
    }

    pub fn contains(&self, b: u8) -> bool
        ensures { result ≡ list_any (λ x. nat_eq x b) self.now }
    {
        self.held.contains(&b) || self.piece.contains(&b)
    }

    pub fn is(&self, text: &[u8]) -> bool
        ensures { result ≡ same self.now text.now }
    {
        match text.strip_prefix(self.held) {
            Some(rest) => rest == self.piece,
            None => false,
        }
    }

    pub fn part(&self, begin: usize, end: usize) -> Unread<'h, 'p>
        requires { (begin ≤ end) × (end ≤ length self.now) }
        ensures { result ≡ take (end - begin) (drop begin self.now) }
    {
        let n = self.held.len();
        Unread::new(
            &self.held[begin.min(n)..end.min(n)],
            &self.piece[begin - begin.min(n)..end - end.min(n)],
        )
    }
}
