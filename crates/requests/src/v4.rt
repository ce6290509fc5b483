// SOCKS4 and SOCKS4A (the memos): writers for Request, and which addresses it cannot ask for.
ghost use Rattle.std.specs.Prelude.{◌≡◌, ◌∷◌, ◌+◌, ◌≤◌, length, take};
ghost use Rattle.protocol.specs.Bytes.{two};
ghost use Rattle.protocol.specs.Requests.{address, name, request};
ghost use Rattle.protocol.specs.Opening.{announces};
ghost use Rattle.buffers.specs.write.Written.{Wrote};

use buffers::fields::put_port;
use buffers::write::{copy, put_byte};

// The version, CONNECT and the port.
fn put_head(out: &mut [u8], at: usize, port: u16) -> usize
    requires { at + 4 ≤ length out.old }
    ensures { Wrote out.old at (0x04 ∷ 0x01 ∷ two port) result out.new }
{
    let next = copy(out, at, b"\x04\x01");
    put_port(out, next, port)
}

// Request for an address: behind the head the address, and the end of an empty user id.
pub fn put_address(out: &mut [u8], at: usize, ip: &[u8], port: u16) -> usize
    requires { (length ip.now ≡ 4) × (at + 9 ≤ length out.old) }
    ensures { Wrote out.old at (request (address ip.now) port) result out.new }
{
    let a = put_head(out, at, port);
    let b = copy(out, a, ip);
    put_byte(out, b, 0)
}

// Request for a name: behind the head an address that announces it, the end of an empty user id, and the name with its own end.
pub fn put_name(out: &mut [u8], at: usize, host: &[u8], port: u16) -> usize
    requires { at + (length host.now + 10) ≤ length out.old }
    ensures { Wrote out.old at (request (name host.now) port) result out.new }
{
    let a = put_head(out, at, port);
    let b = copy(out, a, b"\x00\x00\x00\xFF\x00");
    let c = copy(out, b, host);
    put_byte(out, c, 0)
}

// Whether an IPv4 address, the first four bytes, announces a name: 0.0.0.x with x not zero.
pub fn announces_name(ip: [u8; 16]) -> bool
    ensures { result ≡ announces (take 4 ip) }
{
    matches!(ip, [0, 0, 0, 1..=255, ..])
}
