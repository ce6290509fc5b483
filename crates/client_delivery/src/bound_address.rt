// F-1: the address and port that a whole reply names, found in the held bytes and the piece where they stand, and kept at the start of the hold.
ghost use Rattle.std.specs.Prelude.{◌≡◌, ◌++◌, ◌+◌, ◌≤◌, length, take, drop};
ghost use Rattle.protocol.specs.Requests.{kind_of};
ghost use Rattle.protocol.specs.Bound.{endpoint, unbound, bound_by, proxy_bound, response_bound, address_of};
ghost use Rattle.protocol.specs.declared.Reply.TheVariants as Reply;
ghost use Rattle.buffers.specs.hold.Held.{Finds, Binds};
ghost use Rattle.client_delivery.specs.bound_address.Named.{last_of, Whole};

use buffers::hold::{Found, Held, keep_found, stands};
use protocol::{Address, AddressKind, Bound, NAME_V5, Reply};
use reader::{byte, port_at};

// In a ProxyRes: by its type, and the port behind the address.
fn in_proxy_res(held: &[u8], piece: &[u8]) -> Found
    requires { Whole Reply.ProxyRes (held.now ++ piece.now) }
    ensures { Finds 255 (proxy_bound (held.now ++ piece.now)) (held.now ++ piece.now) result }
{
    match byte(held, piece, 3) {
        0x01 => stands(AddressKind::Ipv4, 4, 4, port_at(held, piece, 8)),
        0x04 => stands(AddressKind::Ipv6, 4, 16, port_at(held, piece, 20)),
        _ => {
            let n = usize::from(byte(held, piece, 4));
            stands(AddressKind::Domain, 5, n, port_at(held, piece, 5 + n))
        }
    }
}

// In a Response: the port ahead of the address.
fn in_response(held: &[u8], piece: &[u8]) -> Found
    requires { Whole Reply.Response (held.now ++ piece.now) }
    ensures { Finds 255 (response_bound (held.now ++ piece.now)) (held.now ++ piece.now) result }
{
    stands(AddressKind::Ipv4, 4, 4, port_at(held, piece, 2))
}

// In the last reply to a session that waits for this one, which the bytes begin with.
fn find(reply: Reply, held: &[u8], piece: &[u8]) -> Found
    requires { Whole reply (held.now ++ piece.now) }
    ensures { Finds 255 (bound_by (last_of reply) (held.now ++ piece.now)) (held.now ++ piece.now) result }
{
    match reply {
        Reply::NegotiationRes(_) | Reply::AuthenticationRes | Reply::ProxyRes => {
            in_proxy_res(held, piece)
        }
        Reply::Response => in_response(held, piece),
    }
}

// Keeps what the last reply names to a session that waits for this one. It begins at a place of the first n bytes of the hold and then a
// piece.
pub fn keep(reply: Reply, hold: &mut [u8], n: usize, piece: &[u8], at: usize) -> Held
    requires { (length hold.old ≡ 261) × (n ≤ 261) × (at ≤ n + length piece.now) × Whole reply (drop at (take n hold.old ++ piece.now)) }
    ensures { Binds (bound_by (last_of reply) (drop at (take n hold.old ++ piece.now))) hold.old result hold.new }
{
    let a = at.min(n);
    let found = find(reply, &hold[a..n], &piece[at - a..]);
    keep_found(found, hold, n, piece, at)
}

// An address as a value, of held bytes; of more than 255 the first ones.
pub fn address(bound: Bound, held: &[u8]) -> Address
    ensures { result ≡ address_of (endpoint (kind_of bound.kind held.now) bound.port) }
{
    let n = held.len().min(NAME_V5);
    let mut bytes = [0; NAME_V5];
    bytes[..n].copy_from_slice(&held[..n]);
    Address {
        kind: bound.kind,
        len: n as u8,
        bytes,
        port: bound.port,
    }
}

// The value where no address is bound.
pub fn unbound() -> Address
    ensures { result ≡ address_of unbound }
{
    Address {
        kind: AddressKind::Ipv4,
        len: 4,
        bytes: [0; NAME_V5],
        port: 0,
    }
}
