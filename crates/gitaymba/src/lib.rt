// What C and Rust link: each exported function is a call of the library over numbers and arrays, by value. The output that a call lends has
// 1,024 bytes, which is as much as any asks, and the buffer of a text 261, which is as long as a text gets.

#![tactic(auto)]

ghost use Rattle.std.specs.Prelude.{◌≡◌, length};
ghost use Rattle.proxy_spec.specs.End.{endpoint_of};
ghost use Rattle.client_session.specs.Session.{write_bound};
ghost use Rattle.client_session.specs.Calls.{prepare5, prepare4, start, deliver, end};
ghost use Rattle.proxy_session.specs.Server.{destination};
ghost use Rattle.proxy_session.specs.Calls as served;
ghost use Rattle.raw_numbers.specs.Numbers.{truth};
ghost use Rattle.raw_session.specs.Raw.{session_of};
ghost use Rattle.raw_server.specs.Raw.{server_of, standing_of};
ghost use Rattle.raw_openings.specs.Given.{given5, given4, prepared_step};
ghost use Rattle.raw_calls.specs.Calls.{step_by, Says};
ghost use Rattle.raw_told.specs.Told.{raw_outcome, raw_bound, raw_attempts, Tells};
ghost use Rattle.raw_proxy.specs.Calls.{record_of, set_up_served, served_by, Serves};
ghost use Rattle.raw_asked.specs.Asked.{target_of};
ghost use Rattle.talk.specs.Tunnel.{rest};

use raw_asked::RawTarget;
use raw_openings::RawConfig;
use raw_proxy::RawRecord;
use raw_server::{RawServed, RawServer};
use raw_session::{RawOutcome, RawSession, RawStep};
use raw_told::{RawAddress, RawText};

// Prepares a session over SOCKS5. A port above 65535 is none. `records` is an array of records, of 17 bytes each.
#[unsafe(no_mangle)]
pub extern "C" fn gitaymba_prepare5(
    config: RawConfig,
    host: &[u8],
    port: u32,
    user: &[u8],
    password: &[u8],
    records: &[u8],
) -> RawStep
    ensures { result ≡ prepared_step (prepare5 (given5 config host.now port user.now password.now records.now)) }
{
    raw_openings::prepare5(config, host, port, user, password, records)
}

// Prepares a session over SOCKS4, or SOCKS4a for a name.
#[unsafe(no_mangle)]
pub extern "C" fn gitaymba_prepare4(
    local_dns: u8,
    host: &[u8],
    port: u32,
    records: &[u8],
) -> RawStep
    ensures { result ≡ prepared_step (prepare4 (given4 local_dns host.now port records.now)) }
{
    raw_openings::prepare4(local_dns, host, port, records)
}

// Sends the first request, or all, from the output's start.
#[unsafe(no_mangle)]
pub extern "C" fn gitaymba_start(session: RawSession, out: &mut [u8; 1024]) -> RawStep
    ensures { Says (start (session_of session) out.old) result out.new }
{
    raw_calls::start(session, out)
}

// Takes a piece, and puts what it makes due at the output's start.
#[unsafe(no_mangle)]
pub extern "C" fn gitaymba_deliver(
    session: RawSession,
    piece: &[u8],
    out: &mut [u8; 1024],
) -> RawStep
    ensures { Says (deliver (session_of session) piece.now out.old) result out.new }
{
    raw_calls::deliver(session, piece, out)
}

// The proxy's stream has ended.
#[unsafe(no_mangle)]
pub extern "C" fn gitaymba_end(session: RawSession) -> RawStep
    ensures { result ≡ step_by (end (session_of session)) }
{
    raw_calls::end(session)
}

// How a session stands.
#[unsafe(no_mangle)]
pub extern "C" fn gitaymba_outcome(session: RawSession) -> RawOutcome
    ensures { result ≡ raw_outcome session }
{
    raw_told::outcome(session)
}

// The address and port that the proxy bound; of a session that is not open IPv4 zeros and port 0.
#[unsafe(no_mangle)]
pub extern "C" fn gitaymba_bound(session: RawSession) -> RawAddress
    ensures { result ≡ raw_bound session }
{
    raw_told::bound(session)
}

// The bound address as text, at the buffer's start. Refused if the session is not open.
#[unsafe(no_mangle)]
pub extern "C" fn gitaymba_bound_text(session: RawSession, text: &mut [u8; 261]) -> RawText
    ensures tells { Tells (write_bound (session_of session) text.old) result text.new }
    ensures never_short { result.answer ≡ 18 → ⊥ }
{
    raw_told::bound_text(session, text)
}

// For each accepted delivery of a nonempty piece the replies decided in it, and one more if it ended waiting.
#[unsafe(no_mangle)]
pub extern "C" fn gitaymba_attempts(session: RawSession) -> u64
    ensures { result ≡ raw_attempts session }
{
    raw_told::attempts(session)
}

// How many bytes of a piece follow its first ones: the rest is that many bytes at the piece's end.
#[unsafe(no_mangle)]
pub extern "C" fn gitaymba_rest(piece: &[u8], count: usize) -> usize
    ensures { result ≡ length (rest piece.now count) }
{
    raw_told::rest(piece, count)
}

// Sets up a proxy's end, with credentials unless `authenticates` is 0.
#[unsafe(no_mangle)]
pub extern "C" fn gitaymba_proxy_set_up(
    authenticates: u8,
    user: &[u8],
    password: &[u8],
) -> RawServed
    ensures { result ≡ set_up_served (served.set_up (truth authenticates) user.now password.now) }
{
    raw_proxy::set_up(authenticates, user, password)
}

// Takes a client's piece, and puts what is said at the output's start.
#[unsafe(no_mangle)]
pub extern "C" fn gitaymba_proxy_deliver(
    server: RawServer,
    piece: &[u8],
    out: &mut [u8; 1024],
) -> RawServed
    ensures { Serves (served.deliver (server_of server) piece.now out.old) result out.new }
{
    raw_proxy::deliver(server, piece, out)
}

// The caller's answer to a destination: a status, and the address and port that are bound.
#[unsafe(no_mangle)]
pub extern "C" fn gitaymba_proxy_answer(
    server: RawServer,
    status: u8,
    bound: RawRecord,
    port: u16,
    out: &mut [u8; 1024],
) -> RawServed
    ensures { Serves (served.answer (server_of server) status (endpoint_of (record_of bound) port) out.old) result out.new }
{
    raw_proxy::answer(server, status, bound, port, out)
}

// The client's stream has ended.
#[unsafe(no_mangle)]
pub extern "C" fn gitaymba_proxy_end(server: RawServer) -> RawServed
    ensures { result ≡ served_by (served.end (server_of server)) }
{
    raw_proxy::end(server)
}

// How a proxy's end stands.
#[unsafe(no_mangle)]
pub extern "C" fn gitaymba_proxy_outcome(server: RawServer) -> RawOutcome
    ensures { result ≡ standing_of (server_of server).stage }
{
    raw_asked::outcome(server)
}

// The destination that was handed out; of an end that neither awaits the caller's answer nor is open IPv4 zeros and port 0.
#[unsafe(no_mangle)]
pub extern "C" fn gitaymba_proxy_destination(server: RawServer) -> RawTarget
    ensures { result ≡ target_of (destination (server_of server)) }
{
    raw_asked::destination(server)
}

// The number of this interface. It changes with any layout, number or signature of it.
#[unsafe(no_mangle)]
pub extern "C" fn gitaymba_abi() -> u32
    ensures { result ≡ 1 }
{
    1
}
