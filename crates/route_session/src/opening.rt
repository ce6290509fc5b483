// F-5: opening a route: all openings prepared, and the first proxy begun.
ghost use Rattle.std.specs.Prelude.{◌≡◌};
ghost use Rattle.protocol.specs.Answers.{Refused};
ghost use Rattle.route_session.specs.plan.Plan.{route_of};
ghost use Rattle.route_session.specs.calls.Calls.{empty_route, size_answer, opening, OpenResult};

use crate::calls::{Opened, Route};
use crate::plan::{Proxy, plan};
use client_stages::due::Stage;
use protocol::{AddressKind, Bound, HOLD, PROXIES, ROUTE_OUTPUT, ROUTE_REQUESTS, SocksError};
use route_delivery::{NO_HOP, Row, Spot};

const UNBOUND: Bound = Bound {
    kind: AddressKind::Ipv4,
    port: 0,
};

// A route that was refused is empty, and has failed with that error.
fn refuse(error: SocksError) -> Opened
    ensures { result ≡ record { answer = Refused error; sent = 0; route = empty_route error } }
{
    Opened {
        answer: Err(error),
        sent: 0,
        route: Route {
            stage: Stage::Failed(error),
            held: 0,
            hold: [0; HOLD],
            bound: UNBOUND,
            attempts: 0,
            count: 0,
            behind: 0,
            hops: [NO_HOP; PROXIES],
            bytes: [0; ROUTE_REQUESTS],
        },
    }
}

// What the number of proxies and the output lent answer.
fn check_size(count: usize, room: usize) -> Result<(), SocksError>
    ensures { result ≡ size_answer count room }
{
    if count == 0 || PROXIES < count {
        return Err(SocksError::RouteLength);
    }
    if room < ROUTE_OUTPUT * count {
        return Err(SocksError::ShortOutput);
    }
    Ok(())
}

// Opens a route of so many proxies to a destination. Their hosts and credentials are parts of the text. The caller connects to the first,
// whose own host and port are not looked at. All openings are checked before any byte goes, without local lookup. Refused if there is no
// proxy or there are more than eight, or the output has less than 1,024 bytes for each, or an opening is.
pub fn open(
    proxies: [Proxy; PROXIES],
    count: usize,
    text: &[u8],
    host: &[u8],
    port: Option<u16>,
    out: &mut [u8],
) -> Opened
    ensures { OpenResult (opening (route_of text.now proxies count host.now port) out.old) result out.new }
{
    if let Err(error) = check_size(count, out.len()) {
        return refuse(error);
    }
    let mut hops = [NO_HOP; PROXIES];
    let mut bytes = [0; ROUTE_REQUESTS];
    if let Err(error) = plan(&proxies[..count], text, host, port, &mut hops, &mut bytes) {
        return refuse(error);
    }
    let row = Row {
        hops: &hops,
        bytes: &bytes,
    };
    let first = row.begin(Spot::ahead_of(count), out);
    Opened {
        answer: Ok(()),
        sent: first.sent,
        route: Route {
            stage: first.stage,
            held: 0,
            hold: [0; HOLD],
            bound: first.bound,
            attempts: 0,
            count,
            behind: first.behind,
            hops,
            bytes,
        },
    }
}
