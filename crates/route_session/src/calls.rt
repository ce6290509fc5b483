// F-5: a route through one to eight proxies in a row: a value that is opened, fed with pieces, and ended.
ghost use Rattle.std.specs.Prelude.{◌≡◌, List, ℕ, ◌-◌, ◌≤◌, ◌<◌, take};
ghost use Rattle.protocol.specs.declared.Bound.{Bound};
ghost use Rattle.client_stages.specs.due.Stages.{view_at};
ghost use Rattle.talk.specs.Talk.{is_over};
ghost use Rattle.route_session.specs.calls.Taking.{route_at, delivered_at};
ghost use Rattle.route_session.specs.calls.Calls.{last_in, deliver, DeliverResult, end, ended_by, outcome, shortest_behind, wants, bound};

use client_delivery::bound_address::{address, unbound};
use client_delivery::wants::{opens_still, shortest};
use client_stages::due::Stage;
use client_stages::outcome::is_open;
use protocol::{Address, Bound, HOLD, Outcome, PROXIES, ROUTE_OUTPUT, ROUTE_REQUESTS, SocksError};
use route_delivery::{Hop, Relayed, Spot, relay};

// How the proxy that is spoken to stands, as a session does; how many proxies there are, and how many are behind that one; and what each
// keeps, the last one's first, with 1,024 bytes each. `count`, `hops` and `bytes` never change.
#[derive(Clone, Copy)]
pub struct Route {
    pub stage: Stage,
    pub held: usize,
    pub hold: [u8; HOLD],
    pub bound: Bound,
    pub attempts: u64,
    pub count: usize,
    pub behind: usize,
    pub hops: [Hop; PROXIES],
    pub bytes: [u8; ROUTE_REQUESTS],
}

// Answer and route by value, also on a refusal: each step hands the value back (01, "Where to use each form").
#[derive(Clone, Copy)]
pub struct Opened {
    pub answer: Result<(), SocksError>,
    pub sent: usize,
    pub route: Route,
}

// as `Opened`
#[derive(Clone, Copy)]
pub struct Delivered {
    pub answer: Result<(), SocksError>,
    pub used: usize,
    pub sent: usize,
    pub route: Route,
}

// as `Opened`
#[derive(Clone, Copy)]
pub struct Ended {
    pub answer: Result<(), SocksError>,
    pub route: Route,
}

// How many proxies are behind the first.
pub fn last_of(count: usize) -> usize
    ensures { result ≡ last_in count }
{
    count.saturating_sub(1).min(7)
}

fn is_over(stage: Stage) -> bool
    ensures { (b : Bound) (h : List ℕ) → result ≡ is_over (view_at stage b h) }
{
    !matches!(stage, Stage::Awaiting(_))
}

// The shortest replies of so many proxies, from the last on.
fn shortest_behind(hops: &[Hop; PROXIES], behind: usize) -> usize
    requires { behind ≤ 7 }
    ensures { (result ≡ shortest_behind hops.now behind) × (result ≤ 84) }
{
    let mut sum = 0;
    for hop in &hops[..behind] {
        sum += shortest(hop.first);
    }
    sum
}

// A piece for a route of so many proxies that stands at a spot: what is answered, and where it leaves the proxy that is then spoken to.
fn take(
    hops: &[Hop; PROXIES],
    count: usize,
    spot: Spot,
    bytes: &[u8; ROUTE_REQUESTS],
    hold: &mut [u8; HOLD],
    piece: &[u8],
    out: &mut [u8],
) -> Result<Relayed, SocksError>
    ensures { DeliverResult (deliver (route_at hops.now count spot bytes.now hold.old) piece.now out.old) piece.now (delivered_at hops.now count spot bytes.now result hold.new) out.new }
{
    if is_over(spot.stage) {
        return Err(SocksError::Settled);
    }
    let last = last_of(count);
    if out.len() < ROUTE_OUTPUT * (last + 1) {
        return Err(SocksError::ShortOutput);
    }
    let start = Spot {
        behind: spot.behind.min(last),
        sent: 0,
        ..spot
    };
    Ok(relay(hops, start, bytes, hold, piece, out))
}

impl Route {
    // Takes a piece, and puts what it makes due at the output's start: to the proxy that is spoken to, and once that is open to the next,
    // which takes what it left. Refused if the route is settled, or the output has less than 1,024 bytes for each of its proxies.
    pub fn deliver(self, piece: &[u8], out: &mut [u8]) -> Delivered
        ensures { DeliverResult (deliver self piece.now out.old) piece.now result out.new }
    {
        // copies are lent, and one exit hands the route's own bytes back: otherwise the compiler copies the arrays more than once
        let hops = self.hops;
        let bytes = self.bytes;
        let mut hold = self.hold;
        let spot = Spot {
            behind: self.behind,
            stage: self.stage,
            held: self.held,
            bound: self.bound,
            attempts: self.attempts,
            sent: 0,
        };
        let (answer, relayed) = match take(&hops, self.count, spot, &bytes, &mut hold, piece, out) {
            Ok(relayed) => (Ok(()), relayed),
            Err(error) => (Err(error), Relayed { spot, used: 0 }),
        };
        let kept = self.bytes;
        Delivered {
            answer,
            used: relayed.used,
            sent: relayed.spot.sent,
            route: Route {
                stage: relayed.spot.stage,
                held: relayed.spot.held,
                hold,
                bound: relayed.spot.bound,
                attempts: relayed.spot.attempts,
                count: self.count,
                behind: relayed.spot.behind,
                hops,
                bytes: kept,
            },
        }
    }

    // The stream has ended: a route that waits has failed. Refused if it is settled.
    pub fn end(self) -> Ended
        ensures { result ≡ ended_by (end self) }
    {
        // one exit: with two the compiler copies the route twice
        let (answer, stage, held) = match client_stages::outcome::end(self.stage, true) {
            Ok(stage) => (Ok(()), stage, 0),
            Err(error) => (Err(error), self.stage, self.held),
        };
        Ended {
            answer,
            route: Route {
                stage,
                held,
                ..self
            },
        }
    }

    // Whether the route waits, is open, or has failed and with what.
    pub fn outcome(self) -> Outcome
        ensures { result ≡ outcome self }
    {
        client_stages::outcome::outcome(self.stage)
    }

    // How many bytes may be read without reading past the handshake: up to so many, never wait for so many. 0 unless the route waits.
    pub fn wants(self) -> usize
        ensures { result ≡ wants self }
    {
        let own = client_delivery::wants::wants(self.stage, true, self.held, &self.hold);
        let behind = self.behind.min(last_of(self.count));
        if behind == 0 || !opens_still(self.stage, self.held, &self.hold) {
            return own;
        }
        own + shortest_behind(&self.hops, behind)
    }

    // The address and port that the last proxy's last reply named; of a route that is not open IPv4 zeros and port 0.
    pub fn bound(self) -> Address
        ensures { result ≡ bound self }
    {
        if !is_open(self.stage) {
            return unbound();
        }
        let n = self.held.min(HOLD);
        address(self.bound, &self.hold[..n])
    }

    // The attempts of all its proxies, each one's own.
    pub fn attempts(self) -> u64
        ensures { result ≡ self.attempts }
    {
        self.attempts
    }
}
