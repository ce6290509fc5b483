// F-9: a host, an IPv6 text in brackets or 1 to 255 bytes, and the colon behind it.
ghost use Rattle.std.specs.Prelude.{◌≡◌, [], ◌∷◌, ◌+◌, ◌≤◌, length, take};
ghost use Rattle.std.specs.List.{prefix_len};
ghost use Rattle.proxy_url_spec.specs.Reading.{mapped, ipv6_by, ipv6_goes_on, ipv6_end, brackets_of, host_byte, name_of, host_of};
ghost use Rattle.proxy_url.specs.Coded.{host_coded};

use crate::texts::byte_at;
use address_text::ipv6::read_ipv6;
use buffers::write::copy;
use protocol::AddressKind;

// Where the host begins, and its length.
#[derive(Clone, Copy)]
pub struct HostPart {
    pub at: usize,
    pub len: usize,
}

// Whether an ending makes an IPv6 text of a beginning.
fn is_ipv6(text: &[u8], ending: &[u8]) -> bool
    requires { length text.now + length ending.now ≤ 50 }
    ensures { result ≡ ipv6_by text.now ending.now }
{
    let mut bytes = [0u8; 50];
    let n = copy(&mut bytes, 0, text);
    let end = copy(&mut bytes, n, ending);
    let address = read_ipv6(&bytes[..end]);
    matches!(address.kind, AddressKind::Ipv6)
}

// Whether a text begins an IPv6 text: one of eight endings makes one of it.
#[tactic(auto, unfolding(proxy_url_spec::specs::Reading::ipv6_goes_on))]
fn ipv6_goes_on(text: &[u8]) -> bool
    requires { length text.now ≤ 45 }
    ensures { result ≡ ipv6_goes_on text.now }
{
    is_ipv6(text, b"")
        || is_ipv6(text, b"0")
        || is_ipv6(text, b":")
        || is_ipv6(text, b"::")
        || is_ipv6(text, b".0")
        || is_ipv6(text, b"0.0")
        || is_ipv6(text, b".0.0")
        || is_ipv6(text, b"0.0.0")
}

// How far a text begins an IPv6 text, which has at most 45 bytes.
fn ipv6_end(text: &[u8]) -> usize
    ensures { result ≡ ipv6_end text.now }
{
    let end = text.len().min(45);
    for n in 0..end {
        if !ipv6_goes_on(&text[..n + 1]) {
            return n;
        }
    }
    end
}

// An IPv6 text, `]` and the colon, behind a `[`.
fn read_brackets(text: &[u8]) -> Result<(HostPart, usize), usize>
    ensures { result ≡ mapped host_coded (brackets_of (0x5B ∷ text.now)) }
{
    let n = ipv6_end(text);
    if byte_at(text, n) != b']' {
        return Err(n + 1);
    }
    if !is_ipv6(&text[..n], b"") {
        return Err(n + 1);
    }
    if byte_at(text, n + 1) != b':' {
        return Err(n + 2);
    }
    Ok((HostPart { at: 1, len: n }, n + 3))
}

// A byte from 21 to 7E that is none of / @ % : [ ]
#[tactic(auto, unfolding(proxy_url_spec::specs::Reading::host_byte))]
fn is_host_byte(b: u8) -> bool
    ensures { result ≡ host_byte b }
{
    b.is_ascii_graphic() && !matches!(b, b'/' | b'@' | b'%' | b':' | b'[' | b']')
}

// How many host bytes the text begins with, of at most 255.
fn name_end(text: &[u8]) -> usize
    ensures { result ≡ prefix_len host_byte (take 255 text.now) }
{
    text.iter()
        .take(255)
        .take_while(|b| is_host_byte(**b))
        .count()
}

// 1 to 255 host bytes, and the colon.
fn read_name(text: &[u8]) -> Result<(HostPart, usize), usize>
    ensures { result ≡ mapped host_coded (name_of text.now) }
{
    let n = name_end(text);
    if n == 0 {
        return Err(0);
    }
    if byte_at(text, n) != b':' {
        return Err(n);
    }
    Ok((HostPart { at: 0, len: n }, n + 1))
}

// A host and the place behind its colon, or the place at which it dies.
pub fn read_host(text: &[u8]) -> Result<(HostPart, usize), usize>
    ensures { result ≡ mapped host_coded (host_of text.now) }
{
    if byte_at(text, 0) == b'[' {
        read_brackets(&text[1..])
    } else {
        read_name(text)
    }
}
