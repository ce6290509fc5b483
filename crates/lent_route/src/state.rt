// F-5: what lent bytes say of a route beside the session of the proxy that is spoken to: what each of its proxies keeps. And how that session is written.
ghost use Rattle.std.specs.Prelude.{◌≡◌, ◌+◌, ◌^◌, ◌≤◌, ◌<◌, true, [], ◌∷◌, ◌++◌, length, drop};
ghost use Rattle.buffers.specs.write.Written.{Wrote};
ghost use Rattle.lent_numbers.specs.bytes.Numbers.{digits};
ghost use Rattle.lent_session.specs.State.{stage_number, error_number, status_number, code_of, state_of};
ghost use Rattle.lent_route.specs.State.{reply_at, hop_in, slot_hop, hops_in, spoken_at};

use buffers::write::{copy, put_byte};
use client_stages::due::{Lengths, Stage};
use error_numbers::{number, status};
use lent_numbers::bytes::{put_eight, put_two, two_at};
use lent_session::state::{kind_number, reply_number, reply_of};
use protocol::{AddressKind, PROXIES, Reply};
use raw_numbers::{bit, truth};
use route_delivery::{Hop, NO_HOP, Spot};

pub const ROUTE: usize = 8538;

pub const COUNT_AT: usize = 10;

pub const BEHIND_AT: usize = 12;

pub const SLOTS_AT: usize = 282;

pub const BYTES_AT: usize = 346;

// The first reply of a proxy, by the number in its slot.
fn reply_at(n: u8) -> Reply
    ensures { result ≡ reply_at n }
{
    if 5 <= n {
        return Reply::Response;
    }
    reply_of(n + 1)
}

// What a proxy keeps, from a place on.
fn slot_at(s: &[u8], at: usize) -> Hop
    requires { at + 8 ≤ length s.now }
    ensures { result ≡ hop_in s.now at }
{
    Hop {
        first: reply_at(s[at]),
        lengths: Lengths {
            optimistic: truth(s[at + 1]),
            first: two_at(s, at + 2),
            authentication: two_at(s, at + 4),
            proxy: two_at(s, at + 6),
        },
    }
}

// What the proxy keeps that has so many behind it.
fn hop_at(s: &[u8], last: usize, index: usize) -> Hop
    requires { (length s.now ≡ 8538) × ((last ≤ 7) × (index ≤ 7)) }
    ensures { result ≡ slot_hop s.now last index }
{
    if last < index {
        return NO_HOP;
    }
    slot_at(s, SLOTS_AT + 8 * (7 - last + index))
}

// What all proxies keep, the last one's first.
pub fn hops_at(s: &[u8], last: usize) -> [Hop; PROXIES]
    requires { (length s.now ≡ 8538) × (last ≤ 7) }
    ensures { result ≡ hops_in s.now last }
{
    [
        hop_at(s, last, 0),
        hop_at(s, last, 1),
        hop_at(s, last, 2),
        hop_at(s, last, 3),
        hop_at(s, last, 4),
        hop_at(s, last, 5),
        hop_at(s, last, 6),
        hop_at(s, last, 7),
    ]
}

// The numbers of a session, ahead of its code.
fn put_numbers(s: &mut [u8], attempts: u64, held: usize, lengths: Lengths, port: u16) -> usize
    requires { length s.old ≡ 8538 }
    ensures { Wrote s.old 0 (digits 8 attempts ++ (digits 2 held ++ (digits 2 lengths.first ++ (digits 2 lengths.authentication ++ (digits 2 lengths.proxy ++ digits 2 port))))) result s.new }
{
    put_eight(s, 0, attempts);
    put_two(s, 8, held);
    put_two(s, 10, lengths.first);
    put_two(s, 12, lengths.authentication);
    put_two(s, 14, lengths.proxy);
    put_two(s, 16, usize::from(port))
}

fn stage_number(stage: Stage) -> u8
    ensures { result ≡ stage_number stage }
{
    match stage {
        Stage::Awaiting(reply) => reply_number(reply),
        Stage::Open => 7,
        Stage::Failed(_) => 0,
    }
}

fn error_number(stage: Stage) -> u8
    ensures { result ≡ error_number stage }
{
    match stage {
        Stage::Failed(error) => number(error),
        _ => 0,
    }
}

fn status_number(stage: Stage) -> u8
    ensures { result ≡ status_number stage }
{
    match stage {
        Stage::Failed(error) => status(error),
        _ => 0,
    }
}

// The code of a session that is started.
fn code_of(stage: Stage, optimistic: bool, kind: AddressKind) -> u8
    ensures { result ≡ code_of stage true optimistic kind }
{
    stage_number(stage) + (8 + (16 * bit(optimistic) + 32 * kind_number(kind)))
}

pub fn put_code(s: &mut [u8], code: u8, error: u8, status: u8) -> usize
    requires { length s.old ≡ 8538 }
    ensures { Wrote s.old 18 (code ∷ error ∷ status ∷ []) result s.new }
{
    put_byte(s, 18, code);
    put_byte(s, 19, error);
    put_byte(s, 20, status)
}

// Writes the session of the proxy that is spoken to, which is started, ahead of what the proxies keep.
pub fn put_spoken(s: &mut [u8], spot: Spot, lengths: Lengths, hold: &[u8])
    requires { (length s.old ≡ 8538) × (length hold.now ≡ 261) }
    ensures { (s.new ≡ state_of (spoken_at spot lengths hold.now (drop 282 s.old))) × ((spot.attempts < 2 ^ 64) × (spot.bound.port < 65536)) }
{
    put_numbers(s, spot.attempts, spot.held, lengths, spot.bound.port);
    put_code(
        s,
        code_of(spot.stage, lengths.optimistic, spot.bound.kind),
        error_number(spot.stage),
        status_number(spot.stage),
    );
    copy(s, 21, hold);
}
