// SOCKS5 (RFC 1928, RFC 1929): writers for NegotiationReq, AuthenticationReq and ProxyReq.
ghost use Rattle.std.specs.Prelude.{◌∷◌, ◌+◌, ◌≤◌, length};
ghost use Rattle.protocol.specs.AddressReading.{domain};
ghost use Rattle.protocol.specs.Requests.{negotiation_req, authentication_req, address_field, proxy_req, kind_of};
ghost use Rattle.buffers.specs.write.Written.{Wrote};
ghost use Rattle.requests.specs.v5.Sizes.{address_size};

use buffers::fields::{method_byte, put_counted, put_port};
use buffers::write::{copy, put_byte};
use protocol::{AddressKind, AuthMethod};

// NegotiationReq: the version, one method, the method.
pub fn put_negotiation_req(out: &mut [u8], at: usize, method: AuthMethod) -> usize
    requires { at + 3 ≤ length out.old }
    ensures { Wrote out.old at (negotiation_req method) result out.new }
{
    let next = copy(out, at, b"\x05\x01");
    put_byte(out, next, method_byte(method))
}

// AuthenticationReq: the version, then user and password, each behind its length.
pub fn put_authentication_req(out: &mut [u8], at: usize, user: &[u8], password: &[u8]) -> usize
    requires { (length user.now ≤ 255) × (length password.now ≤ 255) × (at + (3 + (length user.now + length password.now)) ≤ length out.old) }
    ensures { Wrote out.old at (authentication_req user.now password.now) result out.new }
{
    let a = put_byte(out, at, 0x01);
    let b = put_counted(out, a, user);
    put_counted(out, b, password)
}

// An address type and its bytes.
fn put_typed(out: &mut [u8], at: usize, atyp: u8, src: &[u8]) -> usize
    requires { at + (length src.now + 1) ≤ length out.old }
    ensures { Wrote out.old at (atyp ∷ src.now) result out.new }
{
    let next = put_byte(out, at, atyp);
    copy(out, next, src)
}

fn put_named(out: &mut [u8], at: usize, name: &[u8]) -> usize
    requires { (length name.now ≤ 255) × (at + (length name.now + 2) ≤ length out.old) }
    ensures { Wrote out.old at (address_field (domain name.now)) result out.new }
{
    let next = put_byte(out, at, 0x03);
    put_counted(out, next, name)
}

// The address field: its type, and the bytes.
fn put_address(out: &mut [u8], at: usize, kind: AddressKind, bytes: &[u8]) -> usize
    requires { (length bytes.now ≤ 255) × (at + address_size kind (length bytes.now) ≤ length out.old) }
    ensures { Wrote out.old at (address_field (kind_of kind bytes.now)) result out.new }
{
    match kind {
        AddressKind::Ipv4 => put_typed(out, at, 0x01, bytes),
        AddressKind::Ipv6 => put_typed(out, at, 0x04, bytes),
        AddressKind::Domain => put_named(out, at, bytes),
    }
}

// ProxyReq: the version, CONNECT, a reserved byte, the address field, the port.
pub fn put_proxy_req(out: &mut [u8], at: usize, kind: AddressKind, bytes: &[u8], port: u16) -> usize
    requires { (length bytes.now ≤ 255) × (at + (address_size kind (length bytes.now) + 5) ≤ length out.old) }
    ensures { Wrote out.old at (proxy_req (kind_of kind bytes.now) port) result out.new }
{
    let a = copy(out, at, b"\x05\x01\x00");
    let b = put_address(out, a, kind, bytes);
    put_port(out, b, port)
}
