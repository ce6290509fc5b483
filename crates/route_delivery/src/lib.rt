// F-5: a delivery to the proxies of a route: what one leaves of a piece once it is open is handed to the next.

#![tactic(auto)]

ghost use Rattle.std.specs.Prelude.{◌≡◌, ◌+◌, ◌*◌, ◌^◌, ◌<◌, ◌≤◌, ◌↔◌, IsTrue, length};
ghost use Rattle.buffers.specs.write.Written.{Wrote};
ghost use Rattle.client_stages.specs.declared.due.Stage.TheVariants as Stage;
ghost use Rattle.client_stages.specs.due.Parts.{part};
ghost use Rattle.route_delivery.specs.Relay.{hop_at, bytes_at, goes_at, handed, alone, relayed, session_at, fresh_spot, begun_spot, most_due, Relayable, RelayResult};

use buffers::write::copy;
use client_delivery::delivery::receive;
use client_stages::due::{Lengths, Stage};
use client_stages::start::first_size;
use protocol::{
    AddressKind, AuthMethod, Bound, HOLD, PROXIES, REQUESTS, ROUTE_OUTPUT, ROUTE_REQUESTS, Reply,
};

// What a route keeps of a proxy beside the bytes of its requests: the reply that is awaited first, and their lengths.
#[derive(Clone, Copy)]
pub struct Hop {
    pub first: Reply,
    pub lengths: Lengths,
}

// Of a proxy that a route lacks.
pub const NO_HOP: Hop = Hop {
    first: Reply::NegotiationRes(AuthMethod::NoAuth),
    lengths: Lengths {
        optimistic: false,
        first: 0,
        authentication: 0,
        proxy: 0,
    },
};

// Where a route stands: how many proxies are behind the one that is spoken to, how that one stands, and the place in the output
// behind what was sent.
#[derive(Clone, Copy)]
pub struct Spot {
    pub behind: usize,
    pub stage: Stage,
    pub held: usize,
    pub bound: Bound,
    pub attempts: u64,
    pub sent: usize,
}

impl Spot {
    // Ahead of so many proxies.
    pub fn ahead_of(count: usize) -> Self
        ensures { result ≡ fresh_spot count }
    {
        Spot {
            behind: count,
            stage: Stage::Open,
            held: 0,
            bound: Bound {
                kind: AddressKind::Ipv4,
                port: 0,
            },
            attempts: 0,
            sent: 0,
        }
    }

    // The proxy that is spoken to is open, and another is behind it.
    fn goes_on(self) -> bool
        ensures { IsTrue result ↔ ((self.stage ≡ Stage.Open) × (0 < self.behind)) }
    {
        matches!(self.stage, Stage::Open) && 0 < self.behind
    }
}

// Where a piece leaves a route, and how much of it was used.
#[derive(Clone, Copy)]
pub struct Relayed {
    pub spot: Spot,
    pub used: usize,
}

// The proxies of a route as they are kept, the last one's first: the requests of each stand from 1,024 times its index on, as far as they are lent.
#[derive(Clone, Copy)]
pub struct Row<'a> {
    pub hops: &'a [Hop; PROXIES],
    pub bytes: &'a [u8],
}

impl Row<'_> {
    // Copies a part of a proxy's requests.
    fn send(self, index: usize, from: usize, n: usize, out: &mut [u8], at: usize) -> usize
        requires { (1024 * (index + 1) ≤ length self.bytes.now) × ((from + n ≤ 1024) × (at + n ≤ length out.old)) }
        ensures { Wrote out.old at (part (bytes_at self.entry.bytes.now index) from n) result out.new }
    {
        let start = REQUESTS * index + from;
        copy(out, at, &self.bytes[start..start + n])
    }

    // The next proxy is begun: what goes first is sent, and it holds nothing.
    pub fn begin(self, spot: Spot, out: &mut [u8]) -> Spot
        requires { (0 < spot.behind) × ((spot.behind ≤ 8) × ((1024 * spot.behind ≤ length self.bytes.now) × (spot.sent + 1024 ≤ length out.old))) }
        ensures value { result ≡ begun_spot self.entry.hops.now spot result.sent }
        ensures wrote { Wrote out.old spot.sent (goes_at self.entry.hops.now self.entry.bytes.now result.behind) result.sent out.new }
    {
        let behind = spot.behind - 1;
        let hop = self.hops[behind];
        let n = first_size(hop.lengths, hop.first);
        let sent = self.send(behind, 0, n, out, spot.sent);
        Spot {
            behind,
            stage: Stage::Awaiting(hop.first),
            held: 0,
            sent,
            ..spot
        }
    }

    // A piece for the proxy that is spoken to alone: its own delivery, lent 1,024 bytes.
    fn hand(self, spot: Spot, hold: &mut [u8; HOLD], piece: &[u8], out: &mut [u8]) -> Relayed
        requires { Relayable self.hops.now spot self.bytes.now (length out.old) }
        ensures relay_result { RelayResult (alone spot.behind (handed (session_at self.entry.hops.now self.entry.bytes.now spot hold.old) piece.now)) spot piece.now out.old result hold.new out.new }
        ensures sent_bound { (result.spot.sent ≤ spot.sent + most_due (hop_at self.entry.hops.now spot.behind).lengths spot.stage) × (result.spot.attempts < 2 ^ 64) }
    {
        let hop = self.hops[spot.behind];
        let Ok(taken) = receive(
            spot.stage,
            true,
            spot.held,
            hop.lengths,
            hold,
            piece,
            ROUTE_OUTPUT,
            spot.bound,
        ) else {
            return Relayed { spot, used: 0 };
        };
        let sent = self.send(spot.behind, taken.from, taken.sent, out, spot.sent);
        Relayed {
            spot: Spot {
                behind: spot.behind,
                stage: taken.stage,
                held: taken.held,
                bound: taken.bound,
                attempts: spot.attempts.wrapping_add(taken.attempts),
                sent,
            },
            used: taken.used,
        }
    }

    // A piece for the proxy that is spoken to, and once that is open what it left for those behind it.
    pub fn relay(self, spot: Spot, hold: &mut [u8; HOLD], piece: &[u8], out: &mut [u8]) -> Relayed
        requires { Relayable self.hops.now spot self.bytes.now (length out.old) }
        ensures { RelayResult (relayed self.entry.hops.now self.entry.bytes.now spot.behind (session_at self.entry.hops.now self.entry.bytes.now spot hold.old) piece.now) spot piece.now out.old result hold.new out.new }
    {
        relay_parts(self.hops, spot, self.bytes, hold, piece, out)
    }
}

// `Row::relay`, with the row in its parts: a row passed whole stands in memory, and a caller that lends a copy would have to make it.
fn relay_parts(
    hops: &[Hop; PROXIES],
    spot: Spot,
    bytes: &[u8],
    hold: &mut [u8; HOLD],
    piece: &[u8],
    out: &mut [u8],
) -> Relayed
    requires { Relayable hops.now spot bytes.now (length out.old) }
    ensures { RelayResult (relayed hops.now bytes.now spot.behind (session_at hops.now bytes.now spot hold.old) piece.now) spot piece.now out.old result hold.new out.new }
{
    let row = Row { hops, bytes };
    let here = row.hand(spot, hold, piece, out);
    if !here.spot.goes_on() {
        return here;
    }
    let begun = row.begin(here.spot, out);
    let last = relay_parts(hops, begun, bytes, hold, &piece[here.used..], out);
    Relayed {
        spot: last.spot,
        used: here.used + last.used,
    }
}

// A delivery to a route that keeps the requests of all eight.
pub fn relay(
    hops: &[Hop; PROXIES],
    spot: Spot,
    bytes: &[u8; ROUTE_REQUESTS],
    hold: &mut [u8; HOLD],
    piece: &[u8],
    out: &mut [u8],
) -> Relayed
    requires { Relayable hops.now spot bytes.now (length out.old) }
    ensures { RelayResult (relayed hops.now bytes.now spot.behind (session_at hops.now bytes.now spot hold.old) piece.now) spot piece.now out.old result hold.new out.new }
{
    relay_parts(hops, spot, bytes, hold, piece, out)
}
