// 01, "Address text": a row of groups of IPv6 text, read.

ghost use Rattle.std.specs.Prelude.{◌≡◌, ℕ, ◌+◌, ◌-◌, ◌/◌, ◌%◌, ◌<◌, ◌≤◌, List, take};
ghost use Rattle.std.proofs.Math.Seq.{paste};
ghost use Rattle.protocol.specs.AddressReading.{ipv4_of, row, no_row, ahead_row, quad_row};
ghost use Rattle.address_text.specs.groups.Rows.{Shows};

use crate::digits::{Radix, follows_at, read_digits};
use crate::ipv4::read_ipv4;
use protocol::{AddressKind, Follows};

// How a row of groups stops: it is none, at the text's end, or at `::`.
#[derive(Clone, Copy)]
pub enum Stop {
    NoRow,
    Ends,
    Gap,
}

// A row of groups: how it stops, its first len bytes, and the place behind `::`.
#[derive(Clone, Copy)]
pub struct GroupRow {
    pub stop: Stop,
    pub len: usize,
    pub bytes: [u8; 16],
    pub next: usize,
}

fn no_groups() -> GroupRow
    ensures { (s : List ℕ) → Shows s no_row result }
{
    GroupRow {
        stop: Stop::NoRow,
        len: 0,
        bytes: [0u8; 16],
        next: 0,
    }
}

// The first n bytes of src over those of out from a place.
pub fn copied(mut out: [u8; 16], at: usize, src: [u8; 16], n: usize) -> [u8; 16]
    requires { at + n ≤ 16 }
    ensures { result ≡ paste out at src n }
{
    out[at..at + n].copy_from_slice(&src[..n]);
    out
}

// IPv4 text behind k groups, in place of the last two.
fn read_ipv4_tail(bytes: [u8; 16], k: usize, text: &[u8]) -> GroupRow
    requires { k < 8 }
    ensures { (s : List ℕ) → Shows s (ahead_row (take (k + k) bytes) (quad_row (7 - k) (ipv4_of text.now))) result }
{
    if k == 7 {
        return no_groups();
    }
    let four = read_ipv4(text);
    let kind = four.kind;
    let src = four.bytes;
    match kind {
        AddressKind::Ipv4 => {
            let all = copied(bytes, k + k, src, 4);
            GroupRow {
                stop: Stop::Ends,
                len: k + k + 4,
                bytes: all,
                next: 0,
            }
        }
        AddressKind::Ipv6 => no_groups(),
        AddressKind::Domain => no_groups(),
    }
}

// The two bytes of a group.
fn high(value: usize) -> u8
    requires { value ≤ 0xFFFF }
    ensures { result ≡ value / 256 }
{
    (value / 256) as u8
}

fn low(value: usize) -> u8
    ensures { result ≡ value % 256 }
{
    (value % 256) as u8
}

// At most eight groups, up to the text's end or `::`.
pub fn read_groups(text: &[u8]) -> GroupRow
    ensures { Shows text.now (row 8 text.now) result }
{
    let mut bytes = [0u8; 16];
    let mut at: usize = 0;
    for k in 0..8 {
        let rest = &text[at..];
        let group = read_digits(rest, Radix::Hexadecimal);
        let n = group.count;
        bytes[k + k] = high(group.value);
        bytes[k + k + 1] = low(group.value);
        match follows_at(rest, n) {
            Follows::Bad => return no_groups(),
            Follows::Dot => return read_ipv4_tail(bytes, k, rest),
            Follows::End => {
                return GroupRow {
                    stop: Stop::Ends,
                    len: k + k + 2,
                    bytes,
                    next: 0,
                };
            }
            Follows::Colons => {
                return GroupRow {
                    stop: Stop::Gap,
                    len: k + k + 2,
                    bytes,
                    next: at + n + 2,
                };
            }
            Follows::Colon => {
                at = at + n + 1;
            }
        }
    }
    no_groups()
}
