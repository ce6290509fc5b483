// F-9: the lines of a text, with a byte 0A between them.
ghost use Rattle.std.specs.Prelude.{◌≡◌, [], ◌+◌, ◌≤◌, ◌<◌, length, drop, get_or};
ghost use Rattle.proxy_url_route.specs.Lines.{marks, first_end, split};

const MARK: u8 = 0x0A;

// How many marks a text has: one less than its lines.
pub fn mark_count(text: &[u8]) -> usize
    ensures { result ≡ marks text.now }
{
    let mut n: usize = 0;
    let mut i: usize = 0;
    while i < text.len() {
        if text[i] == MARK {
            n += 1;
        }
        i += 1;
    }
    n
}

// Where the line that begins at a place ends: at the next mark, or with the text.
fn line_end(text: &[u8], from: usize) -> usize
    requires { from ≤ length text.now }
    ensures { result ≡ from + first_end (drop from text.now) }
{
    let mut at = from;
    while at < text.len() {
        if text[at] == MARK {
            return at;
        }
        at += 1;
    }
    at
}

// A line, counted from 0: a part of the text.
pub fn line_at(text: &[u8], index: usize) -> &[u8]
    requires { index < length (split text.now) }
    ensures { result.now ≡ get_or (split text.now) index [] }
{
    let mut at: usize = 0;
    let mut i: usize = 0;
    while i < index {
        at = line_end(text, at) + 1;
        i += 1;
    }
    let end = line_end(text, at);
    &text[at..end]
}
