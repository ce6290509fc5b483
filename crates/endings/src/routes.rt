// The stream for what is wanted of a route, at a proxy counted from 1: the open streams of those before it, then its own.
ghost use Rattle.std.specs.Prelude.{◌≡◌, ◌+◌, ◌*◌, ◌≤◌, ◌<◌, length, take, option_map, IfSome};
ghost use Rattle.protocol.specs.Answers.{Accepted};
ghost use Rattle.buffers.specs.write.Written.{Wrote};
ghost use Rattle.route_session.specs.plan.Plan.{route_of};
ghost use Rattle.endings_spec.specs.Streams.{open_stream};
ghost use Rattle.endings.specs.Calls.{produced, check_route, stream_route, StreamResult};
ghost use Rattle.endings.specs.Coded.{bytes_of, kind_for, opens, end_for, row_at};

use crate::Produced;
use crate::place::put;
use crate::word::Word;
use crate::words::{kind_by, open_stream, stream_of};
use buffers::write::copy;
use endings_spec::OutcomeStatus;
use protocol::SocksError;
use route_session::opening::open;
use route_session::plan::Proxy;

// The checks of a route but its output: it is opened with all that one of eight proxies could ask.
fn check(
    proxies: [Proxy; 8],
    count: usize,
    text: &[u8],
    host: &[u8],
    port: Option<u16>,
) -> Result<(), SocksError>
    ensures { result ≡ check_route (route_of text.now proxies count host.now port) }
{
    let mut out = [0u8; 8192];
    open(proxies, count, text, host, port, &mut out).answer
}

// The streams by which proxies open, one behind the other.
fn put_opens(proxies: &[Proxy], out: &mut [u8; 96]) -> usize
    requires { length proxies.now < 8 }
    ensures upper_bound { result ≤ 12 * length proxies.now }
    ensures wrote { Wrote out.old 0 (opens proxies.now) result out.new }
{
    let mut at = 0;
    for proxy in proxies {
        let word = open_stream(kind_by(proxy.version, proxy.proxy_auth));
        at = copy(out, at, word.as_slice());
    }
    at
}

// The stream at a proxy with so many behind it: only the last can be the one that is open.
fn word_at(proxy: Proxy, behind: usize, wanted: OutcomeStatus) -> Option<Word>
    ensures { option_map bytes_of result ≡ end_for behind (kind_for proxy) wanted }
{
    if behind > 0 && wanted.number == 0 {
        return None;
    }
    stream_of(kind_by(proxy.version, proxy.proxy_auth), wanted)
}

// The length of the stream at a proxy, put at an array's start, if there is one.
fn fill(proxies: &[Proxy], proxy: usize, wanted: OutcomeStatus, out: &mut [u8; 96]) -> Option<usize>
    requires { length proxies.now ≤ 8 }
    ensures stream { option_map (λ n. take n out.new) result ≡ row_at proxies.now proxy wanted }
    ensures within { IfSome result (λ n. n ≤ 96) }
{
    let before = proxy.checked_sub(1)?;
    let last = proxies.get(before)?;
    let word = word_at(*last, proxies.len() - proxy, wanted)?;
    let at = put_opens(&proxies[..before], out);
    Some(copy(out, at, word.as_slice()))
}

// The checks have passed.
fn put_row(proxies: &[Proxy], proxy: usize, wanted: OutcomeStatus, buffer: &mut [u8]) -> Produced
    requires { length proxies.now ≤ 8 }
    ensures { StreamResult (produced Accepted (row_at proxies.now proxy wanted) buffer.old) result buffer.new }
{
    let mut bytes = [0u8; 96];
    let Some(n) = fill(proxies, proxy, wanted, &mut bytes) else {
        return Ok(None);
    };
    put(&bytes[..n], buffer)
}

// The stream at a proxy of a route. None if the route lacks it, or if it is to be open and is not the last.
pub fn stream(
    proxies: [Proxy; 8],
    count: usize,
    text: &[u8],
    host: &[u8],
    port: Option<u16>,
    proxy: usize,
    wanted: OutcomeStatus,
    buffer: &mut [u8],
) -> Produced
    ensures { StreamResult (stream_route (route_of text.now proxies count host.now port) proxy wanted buffer.old) result buffer.new }
{
    check(proxies, count, text, host, port)?;
    put_row(&proxies[..count], proxy, wanted, buffer)
}
