// Cases of proxy lines (F-9): what a line says, or where it goes wrong.
use input::places::part;
use protocol::{CREDENTIAL, Version};
use proxy_url::ProxyLine;
use report::{Writer, put_byte, put_field, put_number};

// A number with a space before it.
fn put_decimal(start: Writer, text: &mut [u8], n: usize) -> Writer {
    let writer = put_byte(start, text, b' ');
    put_number(writer, text, n as u64)
}

// `1` or `0` with a space before it.
fn put_flag(writer: Writer, text: &mut [u8], flag: bool) -> Writer {
    if flag {
        return put_decimal(writer, text, 1);
    }
    put_decimal(writer, text, 0)
}

// A field of bytes with a space before it.
fn put_part(start: Writer, text: &mut [u8], bytes: &[u8]) -> Writer {
    let writer = put_byte(start, text, b' ');
    put_field(writer, text, bytes)
}

fn version_number(version: Version) -> usize {
    match version {
        Version::V4 => 4,
        Version::V5 => 5,
    }
}

// VERSION and LOOKUP.
fn put_scheme(start: Writer, text: &mut [u8], read: ProxyLine) -> Writer {
    let version = read.version;
    let writer = put_decimal(start, text, version_number(version));
    put_flag(writer, text, read.local_dns)
}

// The first n bytes of a user or a password, with a space before them.
fn put_credential(writer: Writer, text: &mut [u8], bytes: [u8; CREDENTIAL], n: usize) -> Writer {
    put_part(writer, text, part(&bytes, 0, n))
}

// CREDENTIALS, USER and PASSWORD.
fn put_credentials(start: Writer, text: &mut [u8], read: ProxyLine) -> Writer {
    let user = read.user;
    let password = read.password;
    let given = put_flag(start, text, read.proxy_auth);
    let writer = put_credential(given, text, user, read.user_len);
    put_credential(writer, text, password, read.password_len)
}

// HOST and PORT.
fn put_endpoint(start: Writer, text: &mut [u8], line: &[u8], read: ProxyLine) -> Writer {
    let writer = put_part(start, text, proxy_url::host(line, read));
    put_decimal(writer, text, read.port as usize)
}

// ANSWER 0, and what a line says.
fn put_read(start: Writer, text: &mut [u8], line: &[u8], read: ProxyLine) -> Writer {
    let answer = put_byte(start, text, b'0');
    let scheme = put_scheme(answer, text, read);
    let credentials = put_credentials(scheme, text, read);
    put_endpoint(credentials, text, line, read)
}

// ANSWER and PLACE of a line that was refused.
fn put_refused(start: Writer, text: &mut [u8], number: u8, place: usize) -> Writer {
    let writer = put_number(start, text, number as u64);
    put_decimal(writer, text, place)
}

pub fn run(line: &[u8], writer: Writer, text: &mut [u8]) -> Writer {
    let read = proxy_url::read(line);
    let answer = read.answer;
    match answer {
        Ok(()) => put_read(writer, text, line, read),
        Err(error) => { put_refused(writer, text, error_numbers::number(error), read.place) }
    }
}
