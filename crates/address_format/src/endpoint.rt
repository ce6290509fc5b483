// F-1: an address and its port, written as text. Each `put_` function but the last puts its bytes from a place on, and answers the place behind them.
ghost use Rattle.std.specs.Prelude.{◌≡◌, ◌+◌, ◌≤◌, length, IsOk};
ghost use Rattle.address_format.specs.numerals.Added.{Adds};
ghost use Rattle.protocol.specs.Bound.{size_of};
ghost use Rattle.protocol.specs.Host.{bracketed};
ghost use Rattle.protocol.specs.Requests.{kind_of};
ghost use Rattle.address_format.specs.groups.Groups.{split_by, groups_of, groups_text};
ghost use Rattle.address_format.specs.endpoint.Text.{host_text, text_of, bound_text};
ghost use Rattle.address_format.specs.endpoint.Written.{write_text, TextResult};

use crate::groups::{groups_of, put_groups, put_row};
use crate::numerals::put_digits;
use buffers::write::copy;
use protocol::{Address, AddressKind, ENDPOINT_TEXT, SocksError};

fn put_ipv4(bytes: &[u8], out: &mut [u8], at: usize) -> usize
    requires { (length bytes.now ≡ 4) × (at + 24 ≤ length out.old) }
    ensures upper_bound { result ≤ at + 24 }
    ensures adds { Adds out.old at (split_by 10 0x2E bytes.now) result out.new }
{
    let values = [
        u16::from(bytes[0]),
        u16::from(bytes[1]),
        u16::from(bytes[2]),
        u16::from(bytes[3]),
    ];
    put_row(&values, 10, b'.', out, at)
}

fn put_ipv6(bytes: &[u8], out: &mut [u8], at: usize) -> usize
    requires { (length bytes.now ≡ 16) × (at + 52 ≤ length out.old) }
    ensures upper_bound { result ≤ at + 52 }
    ensures adds { Adds out.old at (bracketed (groups_text (groups_of bytes.now))) result out.new }
{
    let groups = groups_of(bytes);
    out[at] = b'[';
    let end = put_groups(&groups, out, at + 1);
    out[end] = b']';
    end + 1
}

// How many bytes an address of a kind has.
fn size_of(kind: AddressKind, len: u8) -> usize
    ensures { result ≡ size_of kind len }
{
    match kind {
        AddressKind::Ipv4 => 4,
        AddressKind::Ipv6 => 16,
        AddressKind::Domain => usize::from(len),
    }
}

fn put_host(kind: AddressKind, bytes: &[u8], out: &mut [u8], at: usize) -> usize
    requires { (length bytes.now ≡ size_of kind (length bytes.now)) × ((length bytes.now ≤ 255) × (at + 255 ≤ length out.old)) }
    ensures upper_bound { result ≤ at + 255 }
    ensures adds { Adds out.old at (host_text (kind_of kind bytes.now)) result out.new }
{
    match kind {
        AddressKind::Ipv4 => put_ipv4(bytes, out, at),
        AddressKind::Ipv6 => put_ipv6(bytes, out, at),
        AddressKind::Domain => copy(out, at, bytes),
    }
}

fn put_text(kind: AddressKind, bytes: &[u8], port: u16, out: &mut [u8], at: usize) -> usize
    requires { (length bytes.now ≡ size_of kind (length bytes.now)) × ((length bytes.now ≤ 255) × (at + 261 ≤ length out.old)) }
    ensures upper_bound { result ≤ at + 261 }
    ensures adds { Adds out.old at (text_of (kind_of kind bytes.now) port) result out.new }
{
    let end = put_host(kind, bytes, out, at);
    out[end] = b':';
    put_digits(u64::from(port), 10, out, end + 1)
}

// The text's length. It goes into a buffer that holds the longest one: what the caller lends is written only if the text fits.
pub fn put_bound(bound: Address, text: &mut [u8]) -> Result<usize, SocksError>
    ensures text_result { TextResult (write_text (bound_text bound) text.old) result text.new }
    ensures enough { 261 ≤ length text.old → IsOk result }
{
    let n = size_of(bound.kind, bound.len);
    let mut whole = [0u8; ENDPOINT_TEXT];
    let len = put_text(bound.kind, &bound.bytes[..n], bound.port, &mut whole, 0);
    if text.len() < len {
        return Err(SocksError::ShortText);
    }
    Ok(copy(text, 0, &whole[..len]))
}
