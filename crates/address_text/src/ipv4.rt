// 01, "Address text": IPv4 text, read: four numbers, split by dots.

ghost use Rattle.std.specs.Prelude.{◌≡◌};
ghost use Rattle.std.proofs.Math.Option.{none};
ghost use Rattle.protocol.specs.AddressReading.{ipv4_of};
ghost use Rattle.address_text.specs.ipv4.Answers.{ipv4_text};

use crate::digits::{Radix, mark_at, read_digits};
use protocol::AddressKind;

// A text's kind, and its address bytes: four for Ipv4, sixteen for Ipv6, none for Domain. The others are 0.
#[derive(Clone, Copy)]
pub struct AddressText {
    pub kind: AddressKind,
    pub bytes: [u8; 16],
}

pub fn no_address() -> AddressText
    ensures { result ≡ ipv4_text none }
{
    AddressText {
        kind: AddressKind::Domain,
        bytes: [0u8; 16],
    }
}

// Four numbers, split by dots, up to the text's end.
pub fn read_ipv4(text: &[u8]) -> AddressText
    ensures { result ≡ ipv4_text (ipv4_of text.now) }
{
    let mut bytes = [0u8; 16];
    let mut at: usize = 0;
    for k in 0..3 {
        let rest = &text[at..];
        let number = read_digits(rest, Radix::Decimal);
        let n = number.count;
        if !mark_at(b'.', rest, n) {
            return no_address();
        }
        bytes[k] = number.value as u8;
        at = at + n + 1;
    }
    let rest = &text[at..];
    let number = read_digits(rest, Radix::Decimal);
    if number.count == 0 {
        return no_address();
    }
    if number.count != rest.len() {
        return no_address();
    }
    bytes[3] = number.value as u8;
    AddressText {
        kind: AddressKind::Ipv4,
        bytes,
    }
}
