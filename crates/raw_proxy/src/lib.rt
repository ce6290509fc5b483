// The calls that move a proxy's end of numbers and arrays, each the library's on the end that they mean.

#![tactic(auto)]

ghost use Rattle.std.specs.Prelude.{◌≡◌};
ghost use Rattle.proxy_spec.specs.End.{endpoint_of};
ghost use Rattle.proxy_session.specs.Calls.{set_up, deliver, answer, end};
ghost use Rattle.raw_numbers.specs.Numbers.{truth};
ghost use Rattle.raw_server.specs.Raw.{server_of};
ghost use Rattle.raw_proxy.specs.Calls.{record_of, set_up_served, served_by, Serves};

use protocol::Record;
use raw_numbers::{family_of, truth};
use raw_server::{RawServed, RawServer, served, server_of};

#[repr(C)]
#[derive(Clone, Copy)]
pub struct RawRecord {
    pub kind: u8,
    pub address: [u8; 16],
}

fn record_of(raw: RawRecord) -> Record
    ensures { result ≡ record_of raw }
{
    let address = raw.address;
    Record {
        family: family_of(raw.kind),
        address,
    }
}

// Sets up an end, with credentials unless `authenticates` is 0.
pub fn set_up(authenticates: u8, user: &[u8], password: &[u8]) -> RawServed
    ensures { result ≡ set_up_served (set_up (truth authenticates) user.now password.now) }
{
    let made = proxy_session::set_up(truth(authenticates), user, password);
    served(made.answer, made.server, 0, 0)
}

// Takes a client's piece, and puts what is said at the output's start.
pub fn deliver(server: RawServer, piece: &[u8], out: &mut [u8]) -> RawServed
    ensures { Serves (deliver (server_of server) piece.now out.old) result out.new }
{
    let made = server_of(server).deliver(piece, out);
    served(made.answer, made.server, made.used, made.sent)
}

// The caller's answer to a destination: a status, and the address and port that are bound.
pub fn answer(
    server: RawServer,
    status: u8,
    bound: RawRecord,
    port: u16,
    out: &mut [u8],
) -> RawServed
    ensures { Serves (answer (server_of server) status (endpoint_of (record_of bound) port) out.old) result out.new }
{
    let made = server_of(server).answer(status, record_of(bound), port, out);
    served(made.answer, made.server, 0, made.sent)
}

// The client's stream has ended.
pub fn end(server: RawServer) -> RawServed
    ensures { result ≡ served_by (end (server_of server)) }
{
    let made = server_of(server).end();
    served(made.answer, made.server, 0, 0)
}
