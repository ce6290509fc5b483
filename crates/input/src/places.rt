// Bytes, numbers and texts read at places of a slice. What is not there has the place NOWHERE and reads as zeros.

// Not an Option: reads are chained with no test in between, as in text_end, and what stands nowhere reads as zeros.
pub const NOWHERE: usize = usize::MAX;

pub fn byte_at(s: &[u8], at: usize) -> u8 {
    s.get(at).copied().unwrap_or(0)
}

// The place n bytes on.
pub fn past(s: &[u8], at: usize, n: usize) -> usize {
    if at > s.len() || n > s.len() - at {
        return NOWHERE;
    }
    at + n
}

// A number of two bytes, the first the more significant.
pub fn number_at(s: &[u8], at: usize) -> u16 {
    u16::from_be_bytes([byte_at(s, at), byte_at(s, past(s, at, 1))])
}

// The place behind a text, which is its length in two bytes, and so many bytes.
pub fn text_end(s: &[u8], at: usize) -> usize {
    past(s, past(s, at, 2), usize::from(number_at(s, at)))
}

// The part from a place up to an end, as far as there is one.
pub fn part(s: &[u8], from: usize, end: usize) -> &[u8] {
    if from > end || end > s.len() {
        return &s[..0];
    }
    &s[from..end]
}

pub fn text_at(s: &[u8], at: usize) -> &[u8] {
    part(s, past(s, at, 2), text_end(s, at))
}

// Puts a byte at a place, if there is one, and answers the next.
pub fn store(s: &mut [u8], at: usize, b: u8) -> usize {
    if at < s.len() {
        s[at] = b;
        return at + 1;
    }
    at
}
