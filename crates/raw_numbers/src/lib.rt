// Numbers for what C has no type for, and back. Every number has a meaning.

#![tactic(auto)]

ghost use Rattle.std.specs.Prelude.{◌≡◌};
ghost use Rattle.raw_numbers.specs.Numbers.{truth, bit, kind_of, kind_number, family_of, port_of};

use protocol::{AddressKind, Family};

pub fn truth(n: u8) -> bool
    ensures { result ≡ truth n }
{
    n != 0
}

pub fn bit(b: bool) -> u8
    ensures { result ≡ bit b }
{
    u8::from(b)
}

pub fn kind_of(n: u8) -> AddressKind
    ensures { result ≡ kind_of n }
{
    match n {
        3 => AddressKind::Domain,
        4 => AddressKind::Ipv6,
        _ => AddressKind::Ipv4,
    }
}

pub fn kind_number(kind: AddressKind) -> u8
    ensures { result ≡ kind_number kind }
{
    match kind {
        AddressKind::Ipv4 => 1,
        AddressKind::Ipv6 => 4,
        AddressKind::Domain => 3,
    }
}

pub fn family_of(n: u8) -> Family
    ensures { result ≡ family_of n }
{
    match n {
        4 => Family::Six,
        _ => Family::Four,
    }
}

pub fn port_of(n: u32) -> Option<u16>
    ensures { result ≡ port_of n }
{
    if n < 65536 { Some(n as u16) } else { None }
}
