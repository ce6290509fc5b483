// How a proxy's end of numbers and arrays stands, and the destination that it hands out.

#![tactic(auto)]

ghost use Rattle.std.specs.Prelude.{◌≡◌};
ghost use Rattle.proxy_session.specs.Server.{destination};
ghost use Rattle.raw_server.specs.Raw.{server_of, standing_of};
ghost use Rattle.raw_asked.specs.Asked.{target_of};

use raw_numbers::kind_number;
use raw_server::{RawServer, server_of, standing_of};
use raw_session::RawOutcome;

#[repr(C)]
#[derive(Clone, Copy)]
pub struct RawTarget {
    pub len: usize,
    pub port: u16,
    pub kind: u8,
    pub bytes: [u8; 1014],
}

// How an end stands.
pub fn outcome(server: RawServer) -> RawOutcome
    ensures { result ≡ standing_of (server_of server).stage }
{
    standing_of(server_of(server).stage)
}

// The destination that was handed out; of an end that neither awaits the caller's answer nor is open IPv4 zeros and port 0.
pub fn destination(server: RawServer) -> RawTarget
    ensures { result ≡ target_of (destination (server_of server)) }
{
    let target = server_of(server).destination();
    let bytes = target.bytes;
    RawTarget {
        len: target.len,
        port: target.port,
        kind: kind_number(target.kind),
        bytes,
    }
}
