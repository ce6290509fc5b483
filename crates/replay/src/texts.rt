// Cases of texts: address text (document 01, "Address text"), a host's brackets, UTF-8.
use input::places::part;
use protocol::AddressKind;
use report::{Writer, put_byte, put_field};

// A family's digit, and the first n bytes of an address.
fn put_family(writer: Writer, text: &mut [u8], digit: u8, bytes: [u8; 16], n: usize) -> Writer {
    let next = put_byte(put_byte(writer, text, digit), text, b' ');
    put_field(next, text, part(&bytes, 0, n))
}

pub fn put_address(s: &[u8], writer: Writer, text: &mut [u8]) -> Writer {
    let address = address_text::address::read_address(s);
    let kind = address.kind;
    let bytes = address.bytes;
    match kind {
        AddressKind::Ipv4 => put_family(writer, text, b'4', bytes, 4),
        AddressKind::Ipv6 => put_family(writer, text, b'6', bytes, 16),
        AddressKind::Domain => put_byte(writer, text, b'n'),
    }
}

pub fn put_host(s: &[u8], writer: Writer, text: &mut [u8]) -> Writer {
    put_field(writer, text, address_text::host::strip_ipv6_brackets(s))
}

pub fn put_utf8(s: &[u8], writer: Writer, text: &mut [u8]) -> Writer {
    if utf8::text::is_utf8(s) {
        return put_byte(writer, text, b'1');
    }
    put_byte(writer, text, b'0')
}
