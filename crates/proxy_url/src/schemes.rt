// F-9: the scheme of a line, and `://`.
ghost use Rattle.std.specs.Prelude.{◌≡◌};
ghost use Rattle.proxy_url_spec.specs.Reading.{word, scheme_of};

use crate::texts::common;
use protocol::Version;

// A version and whether local lookup is meant.
type Scheme = (Version, bool);

// A word, and what it stands for and its length; or the place at which it dies.
#[tactic(auto, unfolding(proxy_url_spec::specs::Reading::word))]
fn read_word(name: &[u8], scheme: Scheme, text: &[u8]) -> Result<(Scheme, usize), usize>
    ensures { result ≡ word name.now scheme text.now }
{
    let n = common(name, text);
    if n == name.len() {
        Ok((scheme, n))
    } else {
        Err(n)
    }
}

// The scheme and the next place, or the place at which it dies.
#[tactic(auto, unfolding(proxy_url_spec::specs::Reading::scheme_of, proxy_url_spec::specs::Reading::or))]
pub fn read_scheme(text: &[u8]) -> Result<(Scheme, usize), usize>
    ensures { result ≡ scheme_of text.now }
{
    // A word is compared only where those before it have died.
    read_word(b"socks4://", (Version::V4, true), text).or_else(|a| {
        read_word(b"socks4a://", (Version::V4, false), text)
            .or_else(|b| {
                read_word(b"socks5://", (Version::V5, true), text)
                    .or_else(|c| {
                        let socks5h = read_word(b"socks5h://", (Version::V5, false), text);
                        socks5h.map_err(|n| c.max(n))
                    })
                    .map_err(|n| b.max(n))
            })
            .map_err(|n| a.max(n))
    })
}
