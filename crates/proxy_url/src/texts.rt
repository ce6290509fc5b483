// F-9: the bytes at a text's start.
ghost use Rattle.std.specs.Prelude.{◌≡◌};
ghost use Rattle.protocol.specs.Bytes.{byte};
ghost use Rattle.proxy_url_spec.specs.Reading.{common};

// A byte, 0 past the end.
pub fn byte_at(text: &[u8], at: usize) -> u8
    ensures { result ≡ byte text.now at }
{
    text.get(at).copied().unwrap_or(0)
}

// The length of the longest beginning that a word and a text have in common.
pub fn common(word: &[u8], text: &[u8]) -> usize
    ensures { result ≡ common word.now text.now }
{
    // By index: a chain of `zip` and `take_while` leaves its goal open.
    let end = word.len().min(text.len());
    for n in 0..end {
        if word[n] != text[n] {
            return n;
        }
    }
    end
}
