// F-9: the fields of a line, written at the place of its proxy, and the proxy whose parts they are.
ghost use Rattle.std.specs.Prelude.{◌≡◌, ◌+◌, ◌*◌, ◌≤◌, ◌<◌, length};
ghost use Rattle.proxy_url.specs.Calls.{read_of};
ghost use Rattle.proxy_url_route.specs.Calls.{fields_written, line_written, proxy_at};

use buffers::write::copy;
use protocol::CREDENTIAL;
use proxy_url::{ProxyLine, host, read};
use route_session::plan::{Part, Proxy};

// How many bytes a proxy's three fields take.
pub const FIELDS: usize = 3 * CREDENTIAL;

// The proxy of a line, whose host, user and password stand from a place on.
fn proxy_at(read: ProxyLine, at: usize) -> Proxy
    requires { at ≤ 5355 }
    ensures { result ≡ proxy_at at read }
{
    let version = read.version;
    Proxy {
        version,
        host: Part {
            from: at,
            len: read.host_len,
        },
        port: Some(read.port),
        proxy_auth: read.proxy_auth,
        optimistic: false,
        user: Part {
            from: at + CREDENTIAL,
            len: read.user_len,
        },
        password: Part {
            from: at + 2 * CREDENTIAL,
            len: read.password_len,
        },
    }
}

// A host, a user and a password, 255 bytes apart.
fn put_fields(buffer: &mut [u8], at: usize, host: &[u8], user: &[u8], password: &[u8])
    requires { (at + 765 ≤ length buffer.old) × ((length host.now ≤ 255) × ((length user.now ≤ 255) × (length password.now ≤ 255))) }
    ensures { buffer.new ≡ fields_written at host.now user.now password.now buffer.old }
{
    copy(buffer, at, host);
    copy(buffer, at + CREDENTIAL, user);
    copy(buffer, at + 2 * CREDENTIAL, password);
}

// The fields of a line at the place of its proxy, counted from 0.
pub fn put_line(line: &[u8], index: usize, buffer: &mut [u8]) -> Proxy
    requires { (index < 8) × (length buffer.old ≡ 6120) }
    ensures value { result ≡ proxy_at (index * 765) (read_of line.now) }
    ensures buffer_after { buffer.new ≡ line_written (index * 765) line.now buffer.old }
{
    let read = read(line);
    let user = read.user;
    let user_len = read.user_len;
    let password = read.password;
    let password_len = read.password_len;
    let at = index * FIELDS;
    put_fields(
        buffer,
        at,
        host(line, read),
        &user[..user_len],
        &password[..password_len],
    );
    proxy_at(read, at)
}
