// F-13: runs the handshakes of a stated load, and says how many opened and what they sent: `load COUNT SEED [bytes]`, with `bytes` in pieces of one byte.
// `load COUNT SEED list` writes a line for each instead: version, credentials, the name's length, replies and pieces.
#![tactic(auto)]

ghost use Rattle.std.specs.Prelude.{◌≡◌, ◌↔◌, ℕ, ◌≤◌, Some, length, take, replicate, sum};
ghost use Rattle.client_session.specs.Session.{outcome};
ghost use Rattle.client_session.specs.Calls.{StartResult, start};
ghost use Rattle.endings_spec.specs.Streams.{stream_of};
ghost use Rattle.load_spec.specs.Load.{opens};
ghost use Rattle.load.specs.Tally.{counts_of, with_sent, added, settled};
ghost use Rattle.load.specs.Runs.{prepared_by, Fed, RanOne, RanLoad, kind_by};
ghost use Rattle.load.specs.Arguments.{bytes_word, list_word};

use address_format::numerals::{put_hex, read};
use protocol::{Outcome, SocksConfig};
use socks::{Prepared, Session, Started};
use std::env::Env;
use std::io::{Print, Stdout};

// What all handshakes so far came to, and the state that the next draw starts from.
#[derive(Clone, Copy)]
struct Tally {
    state: u32,
    opened: u64,
    sent: u64,
    sum: u64,
}

fn total(sent: &[u8]) -> u64
    requires { length sent.now ≤ 1024 }
    ensures { result ≡ sum sent.now }
{
    sent.iter().map(|b| u64::from(*b)).sum()
}

fn add(tally: Tally, sent: &[u8], state: u32) -> Tally
    requires { length sent.now ≤ 1024 }
    ensures { result ≡ added tally sent.now state }
{
    Tally {
        state,
        sent: tally.sent.wrapping_add(sent.len() as u64),
        sum: tally.sum.wrapping_add(total(sent)),
        ..tally
    }
}

fn settle(tally: Tally, session: Session) -> Tally
    ensures { result ≡ settled tally (outcome session) }
{
    match session.outcome() {
        Outcome::Open => Tally {
            opened: tally.opened.wrapping_add(1),
            ..tally
        },
        Outcome::Waiting | Outcome::Failed(_) => tally,
    }
}

// Delivers replies to a started session, piece by piece.
fn feed(from: Tally, started: Started, replies: &[u8], single: bool, out: &mut [u8]) -> Tally
    requires { (started.sent ≤ length out.old) × (length out.old ≤ 1024) }
    ensures { Fed single from.state started.session replies.now out.old (with_sent (counts_of from) (take started.sent out.old)) result out.new }
{
    let mut session = started.session;
    let mut tally = add(from, &out[..started.sent], from.state);
    let mut rest = replies;
    while !rest.is_empty() {
        let piece = draws::next_piece(tally.state, rest.len(), single);
        let (now, later) = rest.split_at(piece.len);
        let delivered = session.deliver(now, out);
        session = delivered.session;
        tally = add(tally, &out[..delivered.sent], piece.state);
        rest = later;
    }
    settle(tally, session)
}

// A session prepared for a name, with a user and a password of one byte if there are credentials.
fn prepare(v5: bool, credentials: bool, name: &[u8]) -> Prepared
    ensures { (n : ℕ) → name.now ≡ replicate n 0x61 → result ≡ prepared_by v5 credentials n }
{
    if !v5 {
        return socks::v4::prepare_chosen(false, name, Some(443), None);
    }
    let config = SocksConfig {
        proxy_auth: credentials,
        local_dns: false,
        optimistic: false,
    };
    socks::v5::prepare_chosen(config, name, Some(443), b"a", b"a", None)
}

fn begin(v5: bool, credentials: bool, name: &[u8], out: &mut [u8]) -> Started
    ensures sent_in_bounds { result.sent ≤ length out.new }
    ensures by_index { (n : ℕ) → name.now ≡ replicate n 0x61 → StartResult (start (prepared_by v5 credentials n).session out.old) result out.new }
{
    prepare(v5, credentials, name).session.start(out)
}

// The replies that open a session.
#[tactic(auto, unfolding(endings_spec::specs::Streams::stream_of))]
fn replies_for(v5: bool, credentials: bool) -> &'static [u8]
    ensures opens { stream_of (kind_by v5 credentials) opens ≡ Some result.now }
    ensures few { length result.now ≤ 30 }
{
    match (v5, credentials) {
        (true, true) => &[5, 2, 1, 0, 5, 0, 0, 3, 1, 0, 0, 0],
        (true, false) => &[5, 0, 5, 0, 0, 3, 1, 0, 0, 0],
        (false, _) => &[0, 0x5A, 0, 0, 0, 0, 0, 0],
    }
}

// The next handshake. Its name is the start of the longest.
fn run_one(tally: Tally, longest: &[u8; 200], single: bool, out: &mut [u8]) -> Tally
    requires { (longest.now ≡ replicate 200 0x61) × (length out.old ≤ 1024) }
    ensures { RanOne single tally out.old result out.new }
{
    let choice = draws::choose(tally.state);
    let started = begin(choice.v5, choice.credentials, &longest[..choice.name], out);
    let drawn = Tally {
        state: choice.state,
        ..tally
    };
    let replies = replies_for(choice.v5, choice.credentials);
    feed(drawn, started, replies, single, out)
}

fn run(count: u64, seed: u32, single: bool) -> Tally
    ensures { RanLoad single count seed result }
{
    let longest = [0x61u8; 200];
    let mut out = [0u8; 1024];
    let mut tally = Tally {
        state: seed,
        opened: 0,
        sent: 0,
        sum: 0,
    };
    for _ in 0..count {
        tally = run_one(tally, &longest, single, &mut out);
    }
    tally
}

// Puts an argument into the text, and says how long it is: 0 if it is missing or does not fit.
fn argument_text(rt: &impl Env, i: usize, text: &mut [u8]) -> usize
    ensures { result ≤ length text.new }
{
    rt.arg(i, text).unwrap_or(0)
}

fn argument(rt: &impl Env, i: usize) -> Option<u64> {
    let mut text = [0u8; 32];
    let n = argument_text(rt, i, &mut text);
    read::number_of(&text[..n])
}

// What the third argument asks for.
#[derive(Clone, Copy)]
enum Mode {
    Drawn,
    Bytes,
    List,
}

fn mode_of(text: &[u8]) -> Mode
    ensures bytes { result ≡ Mode.Bytes ↔ text.now ≡ bytes_word }
    ensures list { result ≡ Mode.List ↔ text.now ≡ list_word }
{
    if text == b"bytes".as_slice() {
        return Mode::Bytes;
    }
    if text == b"list".as_slice() {
        return Mode::List;
    }
    Mode::Drawn
}

fn third_argument(rt: &impl Env) -> Mode {
    let mut text = [0u8; 5];
    let n = argument_text(rt, 3, &mut text);
    mode_of(&text[..n])
}

// Writes all bytes. What can't be written is lost.
fn write_all(stdout: Stdout, bytes: &[u8]) {
    let _ = stdout.write_all(bytes);
}

fn print(stdout: Stdout, name: &[u8], value: u64) {
    write_all(stdout, name);
    let _ = stdout.print(value);
}

fn print_hex(stdout: Stdout, s: &[u8])
    requires { length s.now ≤ 30 }
{
    let mut text = [0u8; 60];
    let n = put_hex(s, &mut text, 0);
    write_all(stdout, &text[..n]);
}

// Version, credentials as used, and the name's length.
fn print_choice(stdout: Stdout, v5: bool, credentials: bool, name: usize) {
    if !v5 {
        print(stdout, b"4 0 ", name as u64);
        return;
    }
    print(stdout, b"5 ", credentials as u64);
    print(stdout, b" ", name as u64);
}

// The lengths of the pieces of so many bytes, split by commas; and the state behind them.
fn print_pieces(stdout: Stdout, from: u32, bytes: usize) -> u32 {
    let first = draws::next_piece(from, bytes, false);
    print(stdout, b" ", first.len as u64);
    let mut state = first.state;
    let mut left = bytes - first.len;
    while left > 0 {
        let piece = draws::next_piece(state, left, false);
        print(stdout, b",", piece.len as u64);
        state = piece.state;
        left -= piece.len;
    }
    state
}

// A line for the next handshake.
fn list_one(stdout: Stdout, state: u32) -> u32 {
    let choice = draws::choose(state);
    print_choice(stdout, choice.v5, choice.credentials, choice.name);
    let replies = replies_for(choice.v5, choice.credentials);
    write_all(stdout, b" ");
    print_hex(stdout, replies);
    let next = print_pieces(stdout, choice.state, replies.len());
    write_all(stdout, b"\n");
    next
}

fn list(stdout: Stdout, count: u64, seed: u32) {
    let mut state = seed;
    for _ in 0..count {
        state = list_one(stdout, state);
    }
}

fn print_run(stdout: Stdout, count: u64, seed: u32, single: bool) {
    let tally = run(count, seed, single);
    print(stdout, b"handshakes ", count);
    print(stdout, b" open ", tally.opened);
    print(stdout, b" sent ", tally.sent);
    print(stdout, b" sum ", tally.sum);
    write_all(stdout, b"\n");
}

fn main(rt: HostRuntime) {
    let stdout = rt.stdout();
    let (Some(count), Some(number)) = (argument(&rt, 1), argument(&rt, 2)) else {
        write_all(stdout, b"usage: load COUNT SEED [bytes|list]\n");
        return;
    };
    let seed = (number % 4294967296) as u32;
    match third_argument(&rt) {
        Mode::Drawn => print_run(stdout, count, seed, false),
        Mode::Bytes => print_run(stdout, count, seed, true),
        Mode::List => list(stdout, count, seed),
    }
}
