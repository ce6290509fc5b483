// 01, "Address text": what a host stands for.

ghost use Rattle.std.specs.Prelude.{◌≡◌, ◌<◌, ◌↔◌, true, IsTrue, All};
ghost use Rattle.protocol.specs.AddressReading.{domain, destination_of};
ghost use Rattle.address_text.specs.ipv4.Answers.{address_text};

use crate::ipv4::{AddressText, no_address, read_ipv4};
use crate::ipv6::read_ipv6;
use protocol::AddressKind;

// Whether no byte is `.` or `:`, or any other up to 3A.
fn are_above(text: &[u8]) -> bool
    ensures { IsTrue result ↔ All (λ b. 0x3A < b) text.now }
{
    text.iter().all(|&b| 0x3A < b)
}

// Whether none of the first five bytes is `.` or `:`, or any other up to 3A. Of address text one is: no number has more than three
// digits, and no group more than four.
fn lacks_mark(text: &[u8]) -> bool
    ensures { result ≡ true → destination_of text.now ≡ domain text.now }
{
    text.len() >= 5 && are_above(&text[..5])
}

// What a host's text stands for.
pub fn read_address(text: &[u8]) -> AddressText
    ensures { result ≡ address_text (destination_of text.now) }
{
    if lacks_mark(text) {
        return no_address();
    }
    let four = read_ipv4(text);
    match four.kind {
        AddressKind::Ipv4 => four,
        AddressKind::Ipv6 => four,
        AddressKind::Domain => read_ipv6(text),
    }
}
