// 01, "Opening v4" and "v4 request", and F-7: what an accepted opening over SOCKS4 or SOCKS4A keeps: its request.
ghost use Rattle.std.specs.Prelude.{◌≡◌, ◌≤◌, length, replicate};
ghost use Rattle.protocol.specs.Answers.{Accepted};
ghost use Rattle.protocol.specs.Requests.{request};
ghost use Rattle.protocol.specs.Opening.{v4, port_number};
ghost use Rattle.buffers.specs.write.Written.{Wrote};
ghost use Rattle.client_session.specs.Calls.{prepared_by};
ghost use Rattle.client_opening.specs.common.Asked.{target4};
ghost use Rattle.client_opening.specs.common.Begun.{prepared_with};
ghost use Rattle.client_opening_v4.specs.kept.Accepted.{Short4};

use address_text::ipv4::AddressText;
use client_opening::common::Begun;
use client_stages::due::{Lengths, Stage};
use protocol::{AddressKind, Reply};
use requests::v4::{put_address, put_name};

// The Request for what is asked for: an address, or the host's text as a name.
fn put_request(bytes: &mut [u8], asked: AddressText, text: &[u8], port: u16) -> usize
    requires { (1024 ≤ length bytes.old) × Short4 asked.kind text.now }
    ensures { Wrote bytes.old 0 (request (target4 asked text.now) port) result bytes.new }
{
    match asked.kind {
        AddressKind::Ipv4 => put_address(bytes, 0, &asked.bytes[..4], port),
        AddressKind::Ipv6 => 0,
        AddressKind::Domain => put_name(bytes, 0, text, port),
    }
}

// An accepted opening keeps its request.
pub fn accept(bytes: &mut [u8], text: &[u8], asked: AddressText, port: Option<u16>) -> Begun
    requires { (bytes.old ≡ replicate 1024 0) × Short4 asked.kind text.now }
    ensures { prepared_with result bytes.new ≡ prepared_by Accepted (v4 (target4 asked text.now) (port_number port)) }
{
    let n = put_request(
        bytes,
        asked,
        text,
        client_opening::common::port_number(port),
    );
    Begun {
        answer: Ok(()),
        stage: Stage::Awaiting(Reply::Response),
        lengths: Lengths {
            optimistic: false,
            first: n,
            authentication: 0,
            proxy: 0,
        },
    }
}
