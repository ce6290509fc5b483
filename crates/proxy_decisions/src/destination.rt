// F-3: what the last field of a client's requests asks for: found in its bytes, kept at the start of the hold, and handed out.
#![tactic(auto, unfolding(crate::specs::destination::Sizes::address_size))]

ghost use Rattle.std.specs.Prelude.{◌≡◌, ◌++◌, ◌+◌, ◌-◌, ◌≤◌, length, take, drop};
ghost use Rattle.protocol.specs.Requests.{kind_of};
ghost use Rattle.protocol.specs.AddressReading.{ipv4, domain};
ghost use Rattle.protocol.specs.Bound.{endpoint};
ghost use Rattle.proxy_spec.specs.Side.{target_of, ip_of};
ghost use Rattle.proxy_decisions.specs.decision.Due.{asks_at};
ghost use Rattle.buffers.specs.hold.Held.{Finds, Binds};
ghost use Rattle.proxy_decisions.specs.destination.Last.{Last, target_as};
ghost use Rattle.proxy_decisions.specs.destination.Sizes.{address_size, Tells};

use buffers::hold::{Found, Held, keep_found, stands};
use buffers::write::copy;
use protocol::{AddressKind, Bound, NAME_V4};
use proxy_requests::unread::Unread;
use proxy_spec::{Field, Ports};

// A destination: a kind, the first bytes of an array, and the port.
#[derive(Clone, Copy)]
pub struct Target {
    pub kind: AddressKind,
    pub len: usize,
    pub bytes: [u8; NAME_V4],
    pub port: u16,
}

// In a v5 request's address field, by its type: a name stands behind its length, the port behind the address.
fn find_address(kind: u8, bytes: &Unread) -> Found
    requires { address_size kind bytes.now ≤ length bytes.now }
    ensures { Finds 1014 (target_of kind bytes.now) bytes.now result }
{
    match kind {
        0x01 => stands(AddressKind::Ipv4, 0, 4, bytes.port(4)),
        0x04 => stands(AddressKind::Ipv6, 0, 16, bytes.port(16)),
        _ => {
            let n = usize::from(bytes.byte(0));
            stands(AddressKind::Domain, 1, n, bytes.port(1 + n))
        },
    }
}

// A name ahead of its 00.
fn find_name(port: u16, bytes: &Unread) -> Found
    requires { (1 ≤ length bytes.now) × (length bytes.now ≤ 1015) }
    ensures { Finds 1014 (endpoint (domain (take (length bytes.now - 1) bytes.now)) port) bytes.now result }
{
    stands(AddressKind::Domain, 0, bytes.len() - 1, port)
}

// In a last field other than a user id.
fn find(field: Field, bytes: &Unread) -> Found
    requires { Tells field bytes.now }
    ensures { Finds 1014 (asks_at field bytes.now) bytes.now result }
{
    match field {
        Field::Name(ports) => find_name(ports.port, bytes),
        Field::Address(_, kind) => find_address(kind, bytes),
        _ => stands(AddressKind::Ipv4, 0, 0, 0),
    }
}

// Keeps what such a field asks for. The hold is a slice, since F-7 lends a part of its bytes.
fn keep_told(
    field: Field,
    hold: &mut [u8],
    n: usize,
    piece: &[u8],
    begin: usize,
    end: usize,
) -> Held
    requires { (length hold.old ≡ 1014) × (n ≤ 1014) × (begin ≤ end) × (end ≤ n + length piece.now) × Tells field (take (end - begin) (drop begin (take n hold.old ++ piece.now))) }
    ensures { Binds (asks_at field (take (end - begin) (drop begin (take n hold.old ++ piece.now)))) hold.old result hold.new }
{
    let unread = Unread::new(&hold[..n], piece);
    let found = find(field, &unread.part(begin, end));
    keep_found(found, hold, n, piece, begin)
}

// The address of a v4 request, which stood in the field before.
fn keep_ip(ports: Ports, hold: &mut [u8]) -> Held
    requires { length hold.old ≡ 1014 }
    ensures { Binds (endpoint (ipv4 (ip_of ports)) ports.port) hold.old result hold.new }
{
    copy(
        hold,
        0,
        &[ports.first, ports.second, ports.third, ports.fourth],
    );
    Held {
        len: 4,
        bound: Bound {
            kind: AddressKind::Ipv4,
            port: ports.port,
        },
    }
}

// Keeps what a last field asks for, which stands from a place to another of the first n bytes of the hold and then a piece.
pub fn keep(field: Field, hold: &mut [u8], n: usize, piece: &[u8], begin: usize, end: usize) -> Held
    requires { (length hold.old ≡ 1014) × (n ≤ 1014) × (begin ≤ end) × (end ≤ n + length piece.now) × Last field (take (end - begin) (drop begin (take n hold.old ++ piece.now))) }
    ensures { Binds (asks_at field (take (end - begin) (drop begin (take n hold.old ++ piece.now)))) hold.old result hold.new }
{
    match field {
        Field::UserId(ports) => keep_ip(ports, hold),
        _ => keep_told(field, hold, n, piece, begin, end),
    }
}

// A destination as a value, of held bytes.
pub fn as_target(bound: Bound, held: &[u8]) -> Target
    ensures { result ≡ target_as (endpoint (kind_of bound.kind held.now) bound.port) }
{
    let len = held.len().min(NAME_V4);
    let mut bytes = [0; NAME_V4];
    copy(&mut bytes, 0, &held[..len]);
    Target {
        kind: bound.kind,
        len,
        bytes,
        port: bound.port,
    }
}
