// 01, "Alongside": delivers standard input to a plain v5 session for 192.0.2.7, port 443, and says what it sent, how it ended and what was left.
#![tactic(auto)]

ghost use Rattle.std.specs.Prelude.{◌≡◌, ◌+◌, ◌%◌, ◌^◌, ◌≤◌, length};
ghost use Rattle.tunnel.specs.Lines.{outcome_numbers};

use protocol::{Outcome, SocksConfig};
use socks::{Delivered, Prepared, Session, Started, errors, v5};
use std::io::{Print, Stdin, Stdout};

const PIECE: usize = 513;

// What a session may send in one call fits, and in hexadecimal fits the text.
const OUTPUT: usize = 1024;

const TEXT: usize = 2048;

// Writes all bytes. What can't be written is lost.
fn write_all(stdout: Stdout, bytes: &[u8]) {
    let _ = stdout.write_all(bytes);
}

fn print_hex(stdout: Stdout, s: &[u8])
    requires { length s.now ≤ 1024 }
{
    let mut text = [0u8; TEXT];
    let n = address_format::numerals::put_hex(s, &mut text, 0);
    write_all(stdout, &text[..n]);
}

fn print_sent(stdout: Stdout, out: &[u8], n: usize)
    requires { (n ≤ length out.now) × (length out.now ≤ 1024) }
{
    print_hex(stdout, &out[..n]);
}

// An outcome's number, 0 if it is open, and its status.
#[derive(Clone, Copy)]
struct Numbers {
    number: u8,
    status: u8,
}

fn numbers_of(outcome: Outcome) -> Numbers
    ensures { (result.number ≡ (outcome_numbers outcome).0) × (result.status ≡ (outcome_numbers outcome).1) }
{
    match outcome {
        Outcome::Waiting => Numbers {
            number: 255,
            status: 0,
        },
        Outcome::Open => Numbers {
            number: 0,
            status: 0,
        },
        Outcome::Failed(error) => Numbers {
            number: errors::number(error),
            status: errors::status(error),
        },
    }
}

fn prepare() -> Prepared {
    let config = SocksConfig {
        proxy_auth: false,
        local_dns: false,
        optimistic: false,
    };
    v5::prepare_chosen(config, b"192.0.2.7", Some(443), b"", b"", None)
}

// The session, prepared and started.
fn begin(out: &mut [u8]) -> Started
    ensures { result.sent ≤ length out.new }
{
    let prepared = prepare();
    let session = prepared.session;
    session.start(out)
}

// A delivery.
fn pass(session: Session, piece: &[u8], out: &mut [u8]) -> Delivered
    ensures { (result.used ≤ length piece.now) × (result.sent ≤ length out.new) }
{
    session.deliver(piece, out)
}

fn waits(session: Session) -> bool {
    match session.outcome() {
        Outcome::Waiting => true,
        Outcome::Open => false,
        Outcome::Failed(error) => false,
    }
}

// The session, how many bytes it used, and how many were left.
#[derive(Clone, Copy)]
struct Course {
    session: Session,
    used: u64,
    rest: u64,
}

fn start(stdout: Stdout, out: &mut [u8]) -> Course
    requires { length out.old ≤ 1024 }
{
    let started = begin(out);
    write_all(stdout, b"sent ");
    print_sent(stdout, out, started.sent);
    let session = started.session;
    Course {
        session,
        used: 0,
        rest: 0,
    }
}

// A piece goes to the session if that waits, and is only counted otherwise. Each byte is counted once.
fn take_piece(stdout: Stdout, course: Course, piece: &[u8], out: &mut [u8]) -> Course
    requires { length out.old ≤ 1024 }
    ensures { (result.used + result.rest) % 2 ^ 64 ≡ (course.used + course.rest + length piece.now) % 2 ^ 64 }
{
    let before = course.session;
    let n = piece.len();
    if !waits(before) {
        return Course {
            session: before,
            used: course.used,
            rest: std::num::wrapping_add_u64(course.rest, n as u64),
        };
    }
    let delivered = pass(before, piece, out);
    print_sent(stdout, out, delivered.sent);
    let used = delivered.used;
    let session = delivered.session;
    Course {
        session,
        used: std::num::wrapping_add_u64(course.used, used as u64),
        rest: std::num::wrapping_add_u64(course.rest, (n - used) as u64),
    }
}

fn run(stdin: Stdin, stdout: Stdout, piece: &mut [u8], out: &mut [u8]) -> Course
    requires { length out.old ≤ 1024 }
{
    let mut course = start(stdout, out);
    for _ in 0..u64::MAX {
        let n = input::read_piece(stdin, piece);
        if n == 0 {
            break;
        }
        course = take_piece(stdout, course, &piece[..n], out);
    }
    course
}

// A session that waits is ended.
fn finish(session: Session) -> Outcome {
    if !waits(session) {
        return session.outcome();
    }
    let ended = session.end();
    let last = ended.session;
    last.outcome()
}

fn print(stdout: Stdout, name: &[u8], value: u64) {
    write_all(stdout, name);
    let _ = stdout.print(value);
}

fn print_end(stdout: Stdout, course: Course) {
    let numbers = numbers_of(finish(course.session));
    print(stdout, b"\nend ", numbers.number as u64);
    print(stdout, b" ", numbers.status as u64);
    print(stdout, b" used ", course.used);
    print(stdout, b"\nrest ", course.rest);
    write_all(stdout, b"\n");
}

fn main(rt: HostRuntime) {
    let stdout = rt.stdout();
    let mut piece = [0u8; PIECE];
    let mut out = [0u8; OUTPUT];
    print_end(stdout, run(rt.stdin(), stdout, &mut piece, &mut out));
}
