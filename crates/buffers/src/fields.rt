// The fields of a request (RFC 1928, sections 3 and 4; RFC 1929, section 2), written into a buffer at a place. Its callers see to it that there is room.
ghost use Rattle.std.specs.Prelude.{◌≡◌, ◌&&◌, ◌||◌, ◌∷◌, ◌+◌, ◌≤◌, length, ltb};
ghost use Rattle.protocol.specs.Bytes.{two};
ghost use Rattle.protocol.specs.Requests.{method_byte};
ghost use Rattle.buffers.specs.write.Written.{Wrote};

use crate::write::{copy, put_byte};
use protocol::{AuthMethod, CREDENTIAL};

// A port, most significant byte first.
pub fn put_port(out: &mut [u8], at: usize, port: u16) -> usize
    requires { at + 2 ≤ length out.old }
    ensures { Wrote out.old at (two port) result out.new }
{
    copy(out, at, &port.to_be_bytes())
}

// A length byte and the bytes that it counts.
pub fn put_counted(out: &mut [u8], at: usize, src: &[u8]) -> usize
    requires { (length src.now ≤ 255) × (at + (length src.now + 1) ≤ length out.old) }
    ensures { Wrote out.old at (length src.now ∷ src.now) result out.new }
{
    let next = put_byte(out, at, src.len() as u8);
    copy(out, next, src)
}

pub fn method_byte(method: AuthMethod) -> u8
    ensures { result ≡ method_byte method }
{
    match method {
        AuthMethod::NoAuth => 0x00,
        AuthMethod::UserPass => 0x02,
        AuthMethod::NoneAcceptable => 0xFF,
    }
}

// Whether a user or a password that is given is too long for its length byte (RFC 1929, section 2).
pub fn credentials_too_long(auth: bool, user: &[u8], password: &[u8]) -> bool
    ensures { result ≡ (auth && (ltb 255 (length user.now) || ltb 255 (length password.now))) }
{
    auth && CREDENTIAL < user.len().max(password.len())
}
