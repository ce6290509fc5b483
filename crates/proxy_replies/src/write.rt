// F-3: the replies of the proxy's end, written into a buffer at a place. Its callers see to it that there is room.
ghost use Rattle.std.specs.Prelude.{◌≡◌, [], ◌∷◌, ◌+◌, ◌≤◌, length};
ghost use Rattle.buffers.specs.write.Written.{Wrote};
ghost use Rattle.proxy_spec.specs.End.{said_by, endpoint_of, status_to, reply_to};
ghost use Rattle.proxy_replies.specs.write.Replies.{no_address, size_of, type_of, four_of, connect_reply, request_reply};

use buffers::fields::put_port;
use buffers::write::{copy, put_byte};
use protocol::{Family, Record, Version};
use proxy_spec::Says;

fn put_two(out: &mut [u8], at: usize, first: u8, second: u8) -> usize
    requires { at + 2 ≤ length out.old }
    ensures { Wrote out.old at (first ∷ second ∷ []) result out.new }
{
    let next = put_byte(out, at, first);
    put_byte(out, next, second)
}

// How many bytes an address has, and its type.
fn size_of(family: Family) -> usize
    ensures { result ≡ size_of family }
{
    match family {
        Family::Four => 4,
        Family::Six => 16,
    }
}

fn type_of(family: Family) -> u8
    ensures { result ≡ type_of family }
{
    match family {
        Family::Four => 0x01,
        Family::Six => 0x04,
    }
}

// VER, REP, RSV, ATYP, BND.ADDR and BND.PORT.
fn put_connect_reply(out: &mut [u8], at: usize, status: u8, bound: Record, port: u16) -> usize
    requires { at + 22 ≤ length out.old }
    ensures { Wrote out.old at (connect_reply status (endpoint_of bound port)) result out.new }
{
    let n = size_of(bound.family);
    let second = put_two(out, at, 0x05, status);
    let third = put_two(out, second, 0x00, type_of(bound.family));
    let last = copy(out, third, &bound.address[..n]);
    put_port(out, last, port)
}

// The address bytes of a v4 reply: those of an IPv4 address, or zeros.
fn four_of(bound: Record) -> [u8; 16]
    ensures { result ≡ four_of bound }
{
    match bound.family {
        Family::Four => bound.address,
        Family::Six => [0; 16],
    }
}

// VN, CD, DSTPORT and DSTIP.
fn put_request_reply(out: &mut [u8], at: usize, status: u8, bound: Record, port: u16) -> usize
    requires { at + 22 ≤ length out.old }
    ensures { Wrote out.old at (request_reply status (endpoint_of bound port)) result out.new }
{
    let address = four_of(bound);
    let second = put_two(out, at, 0x00, status);
    let third = put_port(out, second, port);
    copy(out, third, &address[..4])
}

// IPv4 zeros.
fn no_address() -> Record
    ensures { result ≡ no_address }
{
    Record {
        family: Family::Four,
        address: [0; 16],
    }
}

// What the end says of its own.
pub fn put(out: &mut [u8], at: usize, says: Says) -> usize
    requires { at + 22 ≤ length out.old }
    ensures { Wrote out.old at (said_by says) result out.new }
{
    match says {
        Says::Nothing => at,
        Says::Method(method) => put_two(out, at, 0x05, method),
        Says::Login(status) => put_two(out, at, 0x01, status),
        Says::Reply5(status) => put_connect_reply(out, at, status, no_address(), 0),
        Says::Reply4(status) => put_request_reply(out, at, status, no_address(), 0),
    }
}

// The status that is sent for the caller's: one that the version does not know goes as 1 or 91.
pub fn status_to(version: Version, status: u8) -> u8
    ensures { result ≡ status_to version status }
{
    match (version, status) {
        (Version::V4, 90..=93) | (Version::V5, 0..=8) => status,
        (Version::V4, _) => 91,
        (Version::V5, _) => 1,
    }
}

// The caller's answer.
pub fn put_answer(out: &mut [u8], version: Version, status: u8, bound: Record, port: u16) -> usize
    requires { 22 ≤ length out.old }
    ensures { Wrote out.old 0 (reply_to version status (endpoint_of bound port)) result out.new }
{
    let sent = status_to(version, status);
    match version {
        Version::V4 => put_request_reply(out, 0, sent, bound, port),
        Version::V5 => put_connect_reply(out, 0, sent, bound, port),
    }
}
