// What stands in a case, read where it stands (docs/CASES.md). A case ends NOWHERE if it is of a kind, version, family or call that is not known.
#![tactic(auto)]

use input::places::{NOWHERE, byte_at, number_at, past, text_end};
use protocol::{Family, Record, SocksConfig, Version};
use route_session::plan::{Part, Proxy};

// The most output or buffer that can be lent.
pub const LENT: usize = 9216;

fn is_version(b: u8) -> bool {
    b == 4 || b == 5
}

fn is_family(b: u8) -> bool {
    b == 4 || b == 6
}

pub fn has(flags: u8, bit: u8) -> bool {
    flags & bit != 0
}

fn port_of(flags: u8, number: u16) -> Option<u16> {
    if has(flags, 8) {
        return Some(number);
    }
    None
}

// An opening, with the places of its texts, of the number of its records, and of what follows it.
#[derive(Clone, Copy)]
pub struct Opening {
    pub version: u8,
    pub config: SocksConfig,
    pub port: Option<u16>,
    pub host: usize,
    pub user: usize,
    pub password: usize,
    pub records: usize,
}

fn config_of(flags: u8) -> SocksConfig {
    SocksConfig {
        proxy_auth: has(flags, 1),
        local_dns: has(flags, 2),
        optimistic: has(flags, 4),
    }
}

pub fn opening_at(s: &[u8], at: usize) -> Opening {
    let flags = byte_at(s, past(s, at, 1));
    let host = past(s, at, 4);
    let user = text_end(s, host);
    let password = text_end(s, user);
    Opening {
        version: byte_at(s, at),
        config: config_of(flags),
        port: port_of(flags, number_at(s, past(s, at, 2))),
        host,
        user,
        password,
        records: text_end(s, password),
    }
}

fn record_end(s: &[u8], at: usize) -> usize {
    if is_family(byte_at(s, at)) {
        return past(s, at, 17);
    }
    NOWHERE
}

// The place behind records, whose number stands first: at most eight.
fn records_end(s: &[u8], at: usize) -> usize {
    let count = byte_at(s, at);
    if count > 8 {
        return NOWHERE;
    }
    let mut end = past(s, at, 1);
    for i in 0..count {
        end = record_end(s, end);
    }
    end
}

pub fn opening_end(s: &[u8], at: usize) -> usize {
    if is_version(byte_at(s, at)) {
        return records_end(s, opening_at(s, at).records);
    }
    NOWHERE
}

fn family_of(b: u8) -> Family {
    if b == 6 {
        return Family::Six;
    }
    Family::Four
}

fn address_at(s: &[u8], at: usize) -> [u8; 16] {
    let mut address = [0u8; 16];
    for i in 0..16 {
        address[i] = byte_at(s, past(s, at, i));
    }
    address
}

fn record_at(s: &[u8], at: usize) -> Record {
    Record {
        family: family_of(byte_at(s, at)),
        address: address_at(s, past(s, at, 1)),
    }
}

// The record taken of those behind their number: the first, or the first of family four.
pub fn chosen_at(s: &[u8], at: usize, four: bool) -> Option<Record> {
    let mut chosen = None;
    let mut next = past(s, at, 1);
    for _ in 0..byte_at(s, at) {
        chosen = lookup::step(four, chosen, record_at(s, next));
        next = past(s, next, 17);
    }
    chosen
}

// A route, with the places of its host and of the number of its proxies.
#[derive(Clone, Copy)]
pub struct Target {
    pub port: Option<u16>,
    pub host: usize,
    pub proxies: usize,
}

pub fn target_at(s: &[u8], at: usize) -> Target {
    let host = past(s, at, 3);
    Target {
        port: port_of(byte_at(s, at), number_at(s, past(s, at, 1))),
        host,
        proxies: text_end(s, host),
    }
}

fn proxy_end(s: &[u8], at: usize) -> usize {
    if is_version(byte_at(s, at)) {
        return text_end(s, text_end(s, text_end(s, past(s, at, 4))));
    }
    NOWHERE
}

// The place behind proxies, whose number stands first.
pub fn proxies_end(s: &[u8], at: usize) -> usize {
    let count = byte_at(s, at);
    let mut end = past(s, at, 1);
    for i in 0..count {
        end = proxy_end(s, end);
    }
    end
}

fn version_of(b: u8) -> Version {
    if b == 4 {
        return Version::V4;
    }
    Version::V5
}

fn part_at(s: &[u8], at: usize) -> Part {
    Part {
        from: past(s, at, 2),
        len: number_at(s, at) as usize,
    }
}

fn proxy_at(s: &[u8], at: usize) -> Proxy {
    let flags = byte_at(s, past(s, at, 1));
    let host = past(s, at, 4);
    let user = text_end(s, host);
    Proxy {
        version: version_of(byte_at(s, at)),
        host: part_at(s, host),
        port: port_of(flags, number_at(s, past(s, at, 2))),
        proxy_auth: has(flags, 1),
        optimistic: has(flags, 4),
        user: part_at(s, user),
        password: part_at(s, text_end(s, user)),
    }
}

// Eight proxies behind their number: what stands behind so many of them is none.
pub fn proxies_at(s: &[u8], at: usize) -> [Proxy; 8] {
    let mut next = past(s, at, 1);
    let mut list = [proxy_at(s, next); 8];
    for i in 0..8 {
        list[i] = proxy_at(s, next);
        next = proxy_end(s, next);
    }
    list
}

// Whether a kind of case has a call.
fn has_call(kind: u8, call: u8) -> bool {
    if call == b'd' || call == b'e' {
        return true;
    }
    if call == b't' {
        return kind == b'S' || kind == b'R';
    }
    if call == b's' || call == b'b' {
        return kind == b'S';
    }
    call == b'a' && kind == b'P'
}

// The place behind a call's arguments.
fn arguments_end(s: &[u8], at: usize) -> usize {
    let call = byte_at(s, at);
    if call == b'd' {
        return text_end(s, past(s, at, 3));
    }
    if call == b's' || call == b'b' {
        return past(s, at, 3);
    }
    if call == b'e' || call == b't' {
        return past(s, at, 1);
    }
    if is_family(byte_at(s, past(s, at, 4))) {
        return past(s, at, 23);
    }
    NOWHERE
}

pub fn call_end(s: &[u8], at: usize, kind: u8) -> usize {
    if has_call(kind, byte_at(s, at)) {
        return arguments_end(s, at);
    }
    NOWHERE
}

// The place behind the calls of a kind of case, whose number stands first.
fn calls_end(s: &[u8], at: usize, kind: u8) -> usize {
    let count = number_at(s, at);
    let mut end = past(s, at, 2);
    for i in 0..count {
        end = call_end(s, end, kind);
    }
    end
}

// What the caller's answer says.
#[derive(Clone, Copy)]
pub struct Said {
    pub status: u8,
    pub bound: Record,
    pub port: u16,
}

// The caller's answer that a call is.
pub fn said_at(s: &[u8], at: usize) -> Said {
    Said {
        status: byte_at(s, past(s, at, 3)),
        bound: record_at(s, past(s, at, 4)),
        port: number_at(s, past(s, at, 21)),
    }
}

// How much of an output or a buffer the number at a place lends.
pub fn lent_at(s: &[u8], at: usize) -> usize {
    let n = number_at(s, at) as usize;
    if n > LENT {
        return LENT;
    }
    n
}

// The place of what is wanted in a case of a stream: behind its opening, or its route and the proxy.
pub fn wanted_at(s: &[u8]) -> usize {
    let of = byte_at(s, 1);
    if of == b'S' {
        return opening_end(s, 2);
    }
    if of == b'R' {
        return past(s, proxies_end(s, target_at(s, 2).proxies), 1);
    }
    NOWHERE
}

// The place behind captures, whose number stands first: one or two.
fn captures_end(s: &[u8], at: usize) -> usize {
    let count = byte_at(s, at);
    let end = text_end(s, past(s, at, 1));
    if count == 1 {
        return end;
    }
    if count == 2 {
        return text_end(s, end);
    }
    NOWHERE
}

// The place of a case's calls; of one that has none, its end.
pub fn calls_at(s: &[u8]) -> usize {
    let kind = byte_at(s, 0);
    if kind == b'E' {
        return past(s, wanted_at(s), 4);
    }
    if kind == b'C' {
        return captures_end(s, opening_end(s, 1));
    }
    if kind == b'S' {
        return opening_end(s, 1);
    }
    if kind == b'R' {
        return past(s, proxies_end(s, target_at(s, 1).proxies), 2);
    }
    if kind == b'P' {
        return text_end(s, text_end(s, past(s, 1, 1)));
    }
    if kind == b'A' || kind == b'H' || kind == b'U' || kind == b'L' {
        return text_end(s, 1);
    }
    NOWHERE
}

// Whether a case is read exactly to its end.
pub fn is_whole(s: &[u8]) -> bool {
    let kind = byte_at(s, 0);
    let calls = calls_at(s);
    if kind == b'S' || kind == b'R' || kind == b'P' {
        return calls_end(s, calls, kind) == s.len();
    }
    calls == s.len()
}
