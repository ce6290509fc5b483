// F-5: the openings of a route prepared, the first proxy's first: what each keeps, in arrays, the last one's at their start.
ghost use Rattle.std.specs.Prelude.{◌*◌, ◌≤◌, ◌≡◌, length, set};
ghost use Rattle.buffers.specs.write.Written.{overwrite};
ghost use Rattle.route_spec.specs.Route.{asked_by, asked_of};
ghost use Rattle.route_session.specs.plan.Plan.{part_of, proxy_of, proxies_of, asked_in_row, prepared_for, first_in, kept_hop, PlanResult};

use buffers::write::copy;
use client_session::{Prepared, Session};
use client_stages::due::Stage;
use protocol::{PROXIES, REQUESTS, ROUTE_REQUESTS, Reply, SocksConfig, SocksError, Version};
use route_delivery::Hop;

// A part of a lent text: from a place on so many bytes, as far as the text goes.
#[derive(Clone, Copy)]
pub struct Part {
    pub from: usize,
    pub len: usize,
}

// A proxy, whose host and credentials are parts of a lent text. proxy_auth: it is given user and password. optimistic: all requests go
// at once. Over v4 these are ignored.
#[derive(Clone, Copy)]
pub struct Proxy {
    pub version: Version,
    pub host: Part,
    pub port: Option<u16>,
    pub proxy_auth: bool,
    pub optimistic: bool,
    pub user: Part,
    pub password: Part,
}

fn part_of(text: &[u8], part: Part) -> &[u8]
    ensures { result.now ≡ part_of text.now part }
{
    let from = part.from.min(text.len());
    let n = part.len.min(text.len() - from);
    &text[from..from + n]
}

// What is asked of a proxy: its version's preparing, with no record of a lookup.
fn prepare_for(proxy: Proxy, text: &[u8], host: &[u8], port: Option<u16>) -> Prepared
    ensures { result ≡ prepared_for (asked_by proxy.version (proxy_of text.now proxy) host.now port) }
{
    match proxy.version {
        Version::V4 => client_opening_v4::opening::prepare_chosen(false, host, port, None),
        Version::V5 => client_opening_v5::opening::prepare_chosen(
            SocksConfig {
                proxy_auth: proxy.proxy_auth,
                local_dns: false,
                optimistic: proxy.optimistic,
            },
            host,
            port,
            part_of(text, proxy.user),
            part_of(text, proxy.password),
            None,
        ),
    }
}

// A proxy is asked for the next one, the last for the destination.
fn prepare(proxy: Proxy, later: &[Proxy], text: &[u8], host: &[u8], port: Option<u16>) -> Prepared
    ensures { result ≡ prepared_for (asked_in_row (proxy_of text.now proxy) (proxies_of text.now later.now) host.now port) }
{
    match later {
        [next, ..] => prepare_for(proxy, text, part_of(text, next.host), next.port),
        [] => prepare_for(proxy, text, host, port),
    }
}

fn first_in(stage: Stage) -> Reply
    ensures { result ≡ first_in stage }
{
    match stage {
        Stage::Awaiting(reply) => reply,
        _ => Reply::Response,
    }
}

// Keeps what a prepared session has, at an index.
fn keep(session: Session, index: usize, hops: &mut [Hop; PROXIES], bytes: &mut [u8; ROUTE_REQUESTS])
    requires { index ≤ 7 }
    ensures hop { hops.new ≡ set hops.old index (kept_hop session) }
    ensures requests { (bytes.new ≡ overwrite bytes.old (1024 * index) session.requests.bytes) × (length session.requests.bytes ≡ 1024) }
{
    hops[index] = Hop {
        first: first_in(session.stage),
        lengths: session.requests.lengths,
    };
    copy(bytes, REQUESTS * index, &session.requests.bytes);
}

// Prepares the openings of proxies in a row, up to the first that is refused, and keeps them.
pub fn plan(
    proxies: &[Proxy],
    text: &[u8],
    host: &[u8],
    port: Option<u16>,
    hops: &mut [Hop; PROXIES],
    bytes: &mut [u8; ROUTE_REQUESTS],
) -> Result<(), SocksError>
    requires { length proxies.now ≤ 8 }
    ensures { PlanResult (asked_of (proxies_of text.now proxies.now) host.now port) hops.old bytes.old result hops.new bytes.new }
{
    let Some((proxy, later)) = proxies.split_first() else {
        return Ok(());
    };
    let prepared = prepare(*proxy, later, text, host, port);
    prepared.answer?;
    keep(prepared.session, later.len(), hops, bytes);
    plan(later, text, host, port, hops, bytes)
}
