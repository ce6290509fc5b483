// 01, "Delivery": bytes written into a buffer at a place. Its callers see to it that there is room.
ghost use Rattle.std.specs.Prelude.{◌≡◌, [], ◌∷◌, ◌+◌, ◌≤◌, ◌<◌, min, length, drop};
ghost use Rattle.buffers.specs.write.Written.{Wrote};

// `out` and `at` stay two parameters: a writer would hold the `&mut`, and its clauses would be about a loan.

// Copies src to a place.
pub fn copy(out: &mut [u8], at: usize, src: &[u8]) -> usize
    requires { at + length src.now ≤ length out.old }
    ensures { Wrote out.old at src.now result out.new }
{
    // byte by byte: the compiler does not see that the library's copy only reads, and a caller that lends a copy of an array has to make it
    let n = src.len();
    for i in 0..n {
        out[at + i] = src[i];
    }
    at + n
}

pub fn put_byte(out: &mut [u8], at: usize, b: u8) -> usize
    requires { at < length out.old }
    ensures { Wrote out.old at (b ∷ []) result out.new }
{
    out[at] = b;
    at + 1
}

pub fn wide(b: u8) -> usize
    ensures { result ≡ b }
{
    usize::from(b)
}

// The smaller of two counts.
pub fn least(a: usize, b: usize) -> usize
    ensures { result ≡ min a b }
{
    a.min(b)
}

// The part of a piece after so many bytes: what a delivery did not use.
pub fn rest(piece: &[u8], count: usize) -> &[u8]
    ensures { result.now ≡ drop count piece.now }
{
    &piece[count.min(piece.len())..]
}
