// F-9: a proxy line read: version, local lookup, credentials, host and port; or 24 with the place at which the line goes wrong.

#![tactic(auto)]

mod credentials;
mod endpoints;
mod hosts;
mod ports;
mod rests;
mod schemes;
mod texts;

ghost use Rattle.std.specs.Prelude.{◌≡◌, ◌+◌, false, take, drop};
ghost use Rattle.proxy_url.specs.Calls.{refused_at, read_of};

use crate::rests::read_rest;
use crate::schemes::read_scheme;
use protocol::{CREDENTIAL, SocksError, Version};

// What a line stands for: user and password are the first bytes of their arrays, and are given if proxy_auth; the host is a part of the
// line. Or 24 and its place, beside which all else is empty.
// One struct on a refusal too: claims speak of what is then empty (`proxy_url/Reads` `Empty`), and the C interface copies its fields.
#[derive(Clone, Copy)]
pub struct ProxyLine {
    pub answer: Result<(), SocksError>,
    pub place: usize,
    pub version: Version,
    pub local_dns: bool,
    pub proxy_auth: bool,
    pub user: [u8; CREDENTIAL],
    pub user_len: usize,
    pub password: [u8; CREDENTIAL],
    pub password_len: usize,
    pub host_at: usize,
    pub host_len: usize,
    pub port: u16,
}

fn refused(place: usize) -> ProxyLine
    ensures { result ≡ refused_at place }
{
    ProxyLine {
        answer: Err(SocksError::BadLine),
        place,
        version: Version::V4,
        local_dns: false,
        proxy_auth: false,
        user: [0u8; CREDENTIAL],
        user_len: 0,
        password: [0u8; CREDENTIAL],
        password_len: 0,
        host_at: 0,
        host_len: 0,
        port: 0,
    }
}

// A line of any bytes and length.
// Each way out makes its answer: a `Result` that held it would be copied whole.
pub fn read(line: &[u8]) -> ProxyLine
    ensures { result ≡ read_of line.now }
{
    let ((version, local_dns), at) = match read_scheme(line) {
        Ok(read) => read,
        Err(place) => return refused(place),
    };
    let rest = match read_rest(version, &line[at..]) {
        Ok(rest) => rest,
        Err(n) => return refused(at + n),
    };
    let host = rest.endpoint.host;
    let mut read = ProxyLine {
        answer: Ok(()),
        place: 0,
        version,
        local_dns,
        proxy_auth: false,
        user: [0u8; CREDENTIAL],
        user_len: 0,
        password: [0u8; CREDENTIAL],
        password_len: 0,
        host_at: at + host.at,
        host_len: host.len,
        port: rest.endpoint.port,
    };
    if let Some((user, password)) = &rest.credentials {
        read.proxy_auth = true;
        let name = user.bytes;
        let secret = password.bytes;
        read.user = name;
        read.user_len = user.len;
        read.password = secret;
        read.password_len = password.len;
    }
    read
}

// The host of a line that was read: a part of it.
pub fn host<'a>(line: &'a [u8], read: ProxyLine) -> &'a [u8]
    ensures { result.now ≡ take read.host_len (drop read.host_at line.now) }
{
    let from = read.host_at.min(line.len());
    let n = read.host_len.min(line.len() - from);
    let end = from + n;
    &line[from..end]
}
