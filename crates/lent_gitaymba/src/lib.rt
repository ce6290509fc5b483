// What C and Rust link: each exported function is a call of the library over bytes that the caller lends and numbers. The output that a call lends has
// 1,024 bytes, which is as much as any asks, and the buffer of a text 261, which is as long as a text gets.

#![tactic(auto)]

ghost use Rattle.std.specs.Prelude.{◌≡◌, [], length, replicate};
ghost use Rattle.talk.specs.Tunnel.{rest};
ghost use Rattle.proxy_spec.specs.End.{endpoint_of};
ghost use Rattle.client_session.specs.Session.{outcome, wants, write_bound};
ghost use Rattle.client_session.specs.Calls.{prepare5, prepare4, start, deliver, end};
ghost use Rattle.proxy_session.specs.Server as values;
ghost use Rattle.proxy_session.specs.Calls as served;
ghost use Rattle.proxy_url.specs.Calls.{read_of};
ghost use Rattle.raw_numbers.specs.Numbers.{truth};
ghost use Rattle.lent_numbers.specs.told.Told.{outcome_of};
ghost use Rattle.lent_session.specs.Given.{given5, given4};
ghost use Rattle.lent_session.specs.State.{session_at};
ghost use Rattle.lent_session.specs.Calls.{Leaves, Prepares, bound_at, Tells, wiped};
ghost use Rattle.lent_proxy.specs.State.{server_at};
ghost use Rattle.lent_proxy.specs.Calls as ends;
ghost use Rattle.lent_proxy.specs.Calls.{SetsUp, standing_of, target_of, record_of};
ghost use Rattle.lent_line.specs.Line.{ReadsInto};
ghost use Rattle.lent_stream.specs.Stream.{asked5, asked4, Streams};
ghost use Rattle.lent_texts.specs.Texts.{error_text, status_text, Copies};

use lent_line::RawLine;
use lent_numbers::told::{RawOutcome, RawStep};
use lent_proxy::answering::RawRecord;
use lent_proxy::telling::RawTarget;
use lent_session::preparing::RawConfig;
use lent_session::telling::{RawAddress, RawText};
use lent_stream::RawStream;

// Prepares a session over SOCKS5. A port above 65535 is none. `records` is an array of records, of 17 bytes each.
#[unsafe(no_mangle)]
pub extern "C" fn gitaymba_prepare5(
    session: &mut [u8; 1306],
    config: RawConfig,
    host: &[u8],
    port: u32,
    user: &[u8],
    password: &[u8],
    records: &[u8],
) -> u8
    ensures { Prepares (prepare5 (given5 config host.now port user.now password.now records.now)) result session.new }
{
    lent_session::preparing::prepare5(session, config, host, port, user, password, records)
}

// Prepares a session over SOCKS4, or SOCKS4a for a name.
#[unsafe(no_mangle)]
pub extern "C" fn gitaymba_prepare4(
    session: &mut [u8; 1306],
    local_dns: u8,
    host: &[u8],
    port: u32,
    records: &[u8],
) -> u8
    ensures { Prepares (prepare4 (given4 local_dns host.now port records.now)) result session.new }
{
    lent_session::preparing::prepare4(session, local_dns, host, port, records)
}

// Sends the first request, or all, from the output's start.
#[unsafe(no_mangle)]
pub extern "C" fn gitaymba_start(session: &mut [u8; 1306], out: &mut [u8; 1024]) -> RawStep
    ensures { Leaves (start (session_at session.old) out.old) session.old result session.new out.new }
{
    lent_session::delivery::start(session, out)
}

// Takes a piece, and puts what it makes due at the output's start.
#[unsafe(no_mangle)]
pub extern "C" fn gitaymba_deliver(
    session: &mut [u8; 1306],
    piece: &[u8],
    out: &mut [u8; 1024],
) -> RawStep
    ensures { Leaves (deliver (session_at session.old) piece.now out.old) session.old result session.new out.new }
{
    lent_session::delivery::deliver(session, piece, out)
}

// The proxy's stream has ended.
#[unsafe(no_mangle)]
pub extern "C" fn gitaymba_end(session: &mut [u8; 1306]) -> RawStep
    ensures { Leaves (end (session_at session.old)) session.old result session.new [] }
{
    lent_session::delivery::end(session)
}

// How a session stands.
#[unsafe(no_mangle)]
pub extern "C" fn gitaymba_outcome(session: &[u8; 1306]) -> RawOutcome
    ensures { result ≡ outcome_of (outcome (session_at session.now)) }
{
    lent_session::telling::told(session)
}

// How many bytes may be read without reading past the handshake; 0 unless it is started and waits.
#[unsafe(no_mangle)]
pub extern "C" fn gitaymba_wants(session: &[u8; 1306]) -> usize
    ensures { result ≡ wants (session_at session.now) }
{
    lent_session::telling::wants(session)
}

// The address and port that the proxy bound; of a session that is not open IPv4 zeros and port 0.
#[unsafe(no_mangle)]
pub extern "C" fn gitaymba_bound(session: &[u8; 1306]) -> RawAddress
    ensures { result ≡ bound_at session.now }
{
    lent_session::telling::bound(session)
}

// The bound address as text, at the buffer's start. Refused if the session is not open.
#[unsafe(no_mangle)]
pub extern "C" fn gitaymba_bound_text(session: &[u8; 1306], text: &mut [u8; 261]) -> RawText
    ensures tells { Tells (write_bound (session_at session.now) text.old) result text.new }
    ensures never_short { result.answer ≡ 18 → ⊥ }
{
    lent_session::telling::bound_text(session, text)
}

// For each accepted delivery of a nonempty piece the replies decided in it, and one more if it ended waiting.
#[unsafe(no_mangle)]
pub extern "C" fn gitaymba_attempts(session: &[u8; 1306]) -> u64
    ensures { result ≡ (session_at session.now).attempts }
{
    lent_session::telling::attempts(session)
}

// Zeros over the numbers, the hold and the requests that were written.
#[unsafe(no_mangle)]
pub extern "C" fn gitaymba_wipe(session: &mut [u8; 1306])
    ensures { session.new ≡ wiped session.old }
{
    lent_session::telling::wipe(session);
}

// How many bytes of a piece follow its first ones: the rest is that many bytes at the piece's end.
#[unsafe(no_mangle)]
pub extern "C" fn gitaymba_rest(piece: &[u8], count: usize) -> usize
    ensures { result ≡ length (rest piece.now count) }
{
    buffers::write::rest(piece, count).len()
}

// Sets up a proxy's end, with credentials unless `authenticates` is 0.
#[unsafe(no_mangle)]
pub extern "C" fn gitaymba_proxy_set_up(
    server: &mut [u8; 1539],
    authenticates: u8,
    user: &[u8],
    password: &[u8],
) -> u8
    ensures { SetsUp (served.set_up (truth authenticates) user.now password.now) result server.new }
{
    lent_proxy::setting_up::set_up(server, authenticates, user, password)
}

// Takes a client's piece, and puts what is said at the output's start.
#[unsafe(no_mangle)]
pub extern "C" fn gitaymba_proxy_deliver(
    server: &mut [u8; 1539],
    piece: &[u8],
    out: &mut [u8; 1024],
) -> RawStep
    ensures { ends.Leaves (served.deliver (server_at server.old) piece.now out.old) server.old result server.new out.new }
{
    lent_proxy::delivery::deliver(server, piece, out)
}

// The caller's answer to a destination: a status, and the address and port that are bound.
#[unsafe(no_mangle)]
pub extern "C" fn gitaymba_proxy_answer(
    server: &mut [u8; 1539],
    status: u8,
    bound: RawRecord,
    port: u16,
    out: &mut [u8; 1024],
) -> RawStep
    ensures { ends.Leaves (served.answer (server_at server.old) status (endpoint_of (record_of bound) port) out.old) server.old result server.new out.new }
{
    lent_proxy::answering::answer(server, status, bound, port, out)
}

// The client's stream has ended.
#[unsafe(no_mangle)]
pub extern "C" fn gitaymba_proxy_end(server: &mut [u8; 1539]) -> RawStep
    ensures { ends.Leaves (served.end (server_at server.old)) server.old result server.new [] }
{
    lent_proxy::answering::end(server)
}

// How a proxy's end stands.
#[unsafe(no_mangle)]
pub extern "C" fn gitaymba_proxy_outcome(server: &[u8; 1539]) -> RawOutcome
    ensures { result ≡ standing_of (server_at server.now).stage }
{
    lent_proxy::telling::told(server)
}

// How many bytes may be read without reading past the client's requests; 0 unless it waits.
#[unsafe(no_mangle)]
pub extern "C" fn gitaymba_proxy_wants(server: &[u8; 1539]) -> usize
    ensures { result ≡ values.wants (server_at server.now) }
{
    lent_proxy::telling::wants(server)
}

// The destination that was handed out; of an end that neither awaits the caller's answer nor is open IPv4 zeros and port 0.
#[unsafe(no_mangle)]
pub extern "C" fn gitaymba_proxy_destination(server: &[u8; 1539]) -> RawTarget
    ensures { result ≡ target_of (values.destination (server_at server.now)) }
{
    lent_proxy::telling::destination(server)
}

// Zeros over all of a proxy's end.
#[unsafe(no_mangle)]
pub extern "C" fn gitaymba_proxy_wipe(server: &mut [u8; 1539])
    ensures { server.new ≡ replicate 1539 0 }
{
    lent_proxy::setting_up::wipe(server);
}

// Reads a proxy line; user and password are put into lent arrays.
#[unsafe(no_mangle)]
pub extern "C" fn gitaymba_line_read(
    line: &[u8],
    user: &mut [u8; 255],
    password: &mut [u8; 255],
) -> RawLine
    ensures { ReadsInto (read_of line.now) user.old password.old result user.new password.new }
{
    lent_line::read(line, user, password)
}

// The stream of replies, at the buffer's start, by which a session over SOCKS5 ends with a number, 0 for open, and a status.
#[unsafe(no_mangle)]
pub extern "C" fn gitaymba_stream5(
    config: RawConfig,
    host: &[u8],
    port: u32,
    user: &[u8],
    password: &[u8],
    records: &[u8],
    number: u8,
    status: u8,
    buffer: &mut [u8],
) -> RawStream
    ensures { Streams (asked5 config host.now port user.now password.now records.now number status buffer.old) result buffer.new }
{
    lent_stream::stream5(
        config, host, port, user, password, records, number, status, buffer,
    )
}

// The same over SOCKS4, or SOCKS4a for a name.
#[unsafe(no_mangle)]
pub extern "C" fn gitaymba_stream4(
    local_dns: u8,
    host: &[u8],
    port: u32,
    records: &[u8],
    number: u8,
    status: u8,
    buffer: &mut [u8],
) -> RawStream
    ensures { Streams (asked4 local_dns host.now port records.now number status buffer.old) result buffer.new }
{
    lent_stream::stream4(local_dns, host, port, records, number, status, buffer)
}

// The text of an error's number, at the buffer's start; its length.
#[unsafe(no_mangle)]
pub extern "C" fn gitaymba_error_text_copy(number: u8, text: &mut [u8; 64]) -> usize
    ensures { Copies (error_text number) text.old result text.new }
{
    lent_texts::error_text(number, text)
}

// The text of a proxy's status, at the buffer's start; its length. Any version but 5 is 4.
#[unsafe(no_mangle)]
pub extern "C" fn gitaymba_status_text_copy(version: u8, status: u8, text: &mut [u8; 64]) -> usize
    ensures { Copies (status_text version status) text.old result text.new }
{
    lent_texts::status_text(version, status, text)
}

// The number of this interface. It changes with any layout, number or signature of it.
#[unsafe(no_mangle)]
pub extern "C" fn gitaymba_abi() -> u32
    ensures { result ≡ 2 }
{
    2
}
