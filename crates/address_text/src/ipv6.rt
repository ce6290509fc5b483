// 01, "Address text": IPv6 text, read: eight groups, or fewer with `::`.

ghost use Rattle.std.specs.Prelude.{◌≡◌, ◌+◌, ◌-◌, ◌≤◌, ◌++◌, take, replicate};
ghost use Rattle.protocol.specs.AddressReading.{right_of, join_of, starts_gap, ipv6_of};
ghost use Rattle.address_text.specs.groups.Rows.{Shows};
ghost use Rattle.address_text.specs.ipv6.Answers.{ipv6_text};

use crate::groups::{GroupRow, Stop, copied, read_groups};
use crate::ipv4::{AddressText, no_address};
use protocol::AddressKind;

// What may stand behind `::`: nothing, or groups.
fn read_right(text: &[u8]) -> GroupRow
    ensures { Shows text.now (right_of text.now) result }
{
    if text.len() == 0 {
        return GroupRow {
            stop: Stop::Ends,
            len: 0,
            bytes: [0u8; 16],
            next: 0,
        };
    }
    read_groups(text)
}

// The first n bytes of left, zeros, and the first m bytes of right: sixteen.
fn joined(left: [u8; 16], n: usize, right: [u8; 16], m: usize) -> [u8; 16]
    requires { n + m ≤ 16 }
    ensures { result ≡ take n left ++ (replicate (16 - (n + m)) 0 ++ take m right) }
{
    let head = copied([0u8; 16], 0, left, n);
    copied(head, 16 - m, right, m)
}

// `::` behind n bytes, and the text behind it.
fn read_gap(left: [u8; 16], n: usize, text: &[u8]) -> AddressText
    requires { n ≤ 16 }
    ensures { result ≡ ipv6_text (join_of (take n left) (right_of text.now)) }
{
    let row = read_right(text);
    let stop = row.stop;
    let right = row.bytes;
    match stop {
        Stop::NoRow => no_address(),
        Stop::Gap => no_address(),
        Stop::Ends => {
            if n + row.len <= 14 {
                let bytes = joined(left, n, right, row.len);
                return AddressText {
                    kind: AddressKind::Ipv6,
                    bytes,
                };
            }
            no_address()
        }
    }
}

// Whether the text begins with `::`.
fn starts_gap(text: &[u8]) -> bool
    ensures { result ≡ starts_gap text.now }
{
    text.starts_with(b"::")
}

// Eight groups, or fewer with `::`, up to the text's end.
pub fn read_ipv6(text: &[u8]) -> AddressText
    ensures { result ≡ ipv6_text (ipv6_of text.now) }
{
    if starts_gap(text) {
        return read_gap([0u8; 16], 0, &text[2..]);
    }
    let row = read_groups(text);
    let stop = row.stop;
    let bytes = row.bytes;
    let len = row.len;
    let next = row.next;
    match stop {
        Stop::NoRow => no_address(),
        Stop::Gap => read_gap(bytes, len, &text[next..]),
        Stop::Ends => {
            if len == 16 {
                return AddressText {
                    kind: AddressKind::Ipv6,
                    bytes,
                };
            }
            no_address()
        }
    }
}
