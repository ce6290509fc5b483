// F-9: a user or a password, unescaped, up to the mark behind it.
ghost use Rattle.std.specs.Prelude.{◌≡◌};
ghost use Rattle.proxy_url_spec.specs.Reading.{mapped, unreserved, escaped_of, credential_of};
ghost use Rattle.proxy_url.specs.Coded.{credential_coded};

use crate::texts::byte_at;
use address_text::digits::hex_value;
use protocol::CREDENTIAL;

// The first len bytes, and zeros behind them.
#[derive(Clone, Copy)]
pub struct Credential {
    pub len: usize,
    pub bytes: [u8; CREDENTIAL],
}

// A letter, a digit, `-`, `.`, `_` or `~`.
#[tactic(auto, unfolding(proxy_url_spec::specs::Reading::unreserved))]
fn is_unreserved(b: u8) -> bool
    ensures { result ≡ unreserved b }
{
    b.is_ascii_alphanumeric() || b == b'-' || b == b'.' || b == b'_' || b == b'~'
}

// A byte as it is, or as `%` and two hexadecimal digits, and the next place; or the place at which it dies.
fn read_escaped(text: &[u8]) -> Result<(u8, usize), usize>
    ensures { result ≡ escaped_of text.now }
{
    let first = byte_at(text, 0);
    // `%` is asked for first, since many tests would stand before it.
    if first != b'%' {
        return if is_unreserved(first) {
            Ok((first, 1))
        } else {
            Err(0)
        };
    }
    let high = hex_value(byte_at(text, 1));
    if 16 <= high {
        return Err(1);
    }
    let low = hex_value(byte_at(text, 2));
    if 16 <= low {
        return Err(2);
    }
    Ok(((high * 16 + low) as u8, 3))
}

// At most 255 bytes and the place behind the mark, which is `:` or `@`; or the place at which it dies.
pub fn read_credential(text: &[u8], mark: u8) -> Result<(Credential, usize), usize>
    requires { mark ≡ 0 → ⊥ }
    ensures { result ≡ mapped credential_coded (credential_of mark text.now) }
{
    let mut bytes = [0u8; CREDENTIAL];
    let mut at: usize = 0;
    for len in 0..CREDENTIAL {
        if byte_at(text, at) == mark {
            return Ok((Credential { len, bytes }, at + 1));
        }
        // No `map_err`: that the sum fits is known here, and not in a closure.
        let (value, next) = match read_escaped(&text[at..]) {
            Ok(read) => read,
            Err(n) => return Err(at + n),
        };
        bytes[len] = value;
        at += next;
    }
    if byte_at(text, at) != mark {
        return Err(at);
    }
    Ok((
        Credential {
            len: CREDENTIAL,
            bytes,
        },
        at + 1,
    ))
}
