// F-9 for a foreign interface: a proxy line read into numbers, and user and password into lent arrays.

#![tactic(auto)]

ghost use Rattle.std.specs.Prelude.{◌≡◌, length};
ghost use Rattle.proxy_url.specs.Calls.{read_of};
ghost use Rattle.lent_line.specs.Line.{version_number, raw_line, ReadsInto};

use error_numbers::answer_number;
use protocol::Version;
use proxy_url::ProxyLine;
use raw_numbers::bit;

// What a line stands for, but user and password: the host is a part of the line. Or 24 and its place.
// The C interface has its answer as a number.
#[repr(C)]
#[derive(Clone, Copy)]
pub struct RawLine {
    pub place: usize,
    pub host_at: usize,
    pub host_len: usize,
    pub user_len: usize,
    pub password_len: usize,
    pub port: u16,
    pub answer: u8,
    pub version: u8,
    pub local_dns: u8,
    pub proxy_auth: u8,
}

fn version_number(version: Version) -> u8
    ensures { result ≡ version_number version }
{
    match version {
        Version::V5 => 5,
        Version::V4 => 4,
    }
}

fn line_of(read: ProxyLine) -> RawLine
    ensures { result ≡ raw_line read }
{
    RawLine {
        place: read.place,
        host_at: read.host_at,
        host_len: read.host_len,
        user_len: read.user_len,
        password_len: read.password_len,
        port: read.port,
        answer: answer_number(read.answer),
        version: version_number(read.version),
        local_dns: bit(read.local_dns),
        proxy_auth: bit(read.proxy_auth),
    }
}

// User and password are written if the line is accepted, and else stay.
fn told(read: ProxyLine, user: &mut [u8], password: &mut [u8]) -> RawLine
    requires user_len { length user.old ≡ 255 }
    requires password_len { length password.old ≡ 255 }
    ensures { ReadsInto read user.old password.old result user.new password.new }
{
    if read.answer.is_ok() {
        user.copy_from_slice(&read.user);
        password.copy_from_slice(&read.password);
    }
    line_of(read)
}

// Reads a line of any bytes and length.
pub fn read(line: &[u8], user: &mut [u8], password: &mut [u8]) -> RawLine
    requires user_len { length user.old ≡ 255 }
    requires password_len { length password.old ≡ 255 }
    ensures { ReadsInto (read_of line.now) user.old password.old result user.new password.new }
{
    told(proxy_url::read(line), user, password)
}
