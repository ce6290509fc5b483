// 01, "Address text": digits at the start of a text, decimal or hexadecimal, and what follows them.
ghost use Rattle.std.specs.Prelude.{◌≡◌, ◌+◌, ◌*◌, ◌≤◌};
ghost use Rattle.protocol.specs.AddressReading.{hex_value, mark_at, follows_at};
ghost use Rattle.address_text.specs.digits.Digits.{goes_by, radix_of, digits_of};

use protocol::{Digits, Follows};

// The value of a hexadecimal digit of either case; 16 for any other byte.
#[tactic(auto, unfolding(protocol::specs::AddressReading::hex_value))]
pub fn hex_value(byte: u8) -> usize
    ensures { result ≡ hex_value byte }
{
    match byte {
        b'0'..=b'9' => usize::from(byte - b'0'),
        b'A'..=b'F' => usize::from(byte - b'A') + 10,
        b'a'..=b'f' => usize::from(byte - b'a') + 10,
        _ => 16,
    }
}

// How digits are read: those of a number, or those of a group.
#[derive(Clone, Copy)]
pub enum Radix {
    Decimal,
    Hexadecimal,
}

// Whether a digit may follow: in a number no leading zero and at most 255, in a group at most four digits.
#[tactic(auto, unfolding(protocol::specs::AddressReading::decimal_goes, protocol::specs::AddressReading::hex_goes))]
fn goes(radix: Radix, value: usize, count: usize, digit: usize) -> bool
    requires { value ≤ 0xFFFF }
    ensures { result ≡ goes_by radix value count digit }
{
    match radix {
        Radix::Decimal => digit < 10 && (value != 0 || count == 0) && value * 10 + digit < 256,
        Radix::Hexadecimal => digit < 16 && count < 4,
    }
}

fn with_digit(radix: Radix, value: usize, digit: usize) -> usize
    requires { (value ≤ 0xFFFF) × (digit ≤ 15) }
    ensures { result ≡ value * radix_of radix + digit }
{
    match radix {
        Radix::Decimal => value * 10 + digit,
        Radix::Hexadecimal => value * 16 + digit,
    }
}

// The longest number, or group, that the text begins with; count 0: none.
pub fn read_digits(text: &[u8], radix: Radix) -> Digits
    ensures { result ≡ digits_of radix text.now }
{
    let mut value: usize = 0;
    for (count, &byte) in text.iter().enumerate() {
        let digit = hex_value(byte);
        if !goes(radix, value, count, digit) {
            return Digits { count, value };
        }
        value = with_digit(radix, value, digit);
    }
    Digits {
        count: text.len(),
        value,
    }
}

// Whether a mark stands behind some digits.
#[tactic(auto, unfolding(protocol::specs::AddressReading::mark_at))]
pub fn mark_at(mark: u8, text: &[u8], count: usize) -> bool
    ensures { result ≡ mark_at mark text.now count }
{
    0 < count && count < text.len() && text[count] == mark
}

// What follows the digits of a group.
pub fn follows_at(text: &[u8], count: usize) -> Follows
    ensures { result ≡ follows_at text.now count }
{
    if count == 0 {
        return Follows::Bad;
    }
    if count == text.len() {
        return Follows::End;
    }
    if mark_at(b'.', text, count) {
        return Follows::Dot;
    }
    if mark_at(b':', text, count) {
        if mark_at(b':', text, count + 1) {
            return Follows::Colons;
        }
        return Follows::Colon;
    }
    Follows::Bad
}
