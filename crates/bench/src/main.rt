// F-3: the proxy's end for a real client, on standard input and output: `bench FILE [USER PASSWORD]`. It serves one handshake and answers success;
// the start of FILE goes out with its last reply, in one write. What was asked for and how it ended is said on standard error.
#![tactic(auto)]

ghost use Rattle.std.specs.Prelude.{◌≡◌, ◌-◌, ◌≤◌, length, take};
ghost use Rattle.io.specs.Counts.{IsPrefixLen};
ghost use Rattle.bench.specs.Opens.{success_at, Opens};

use input::places::part;
use protocol::{AddressKind, Family, Record};
use proxy::{Answered, Outcome, Server, SetUp, Stage};
use proxy_decisions::destination::Target;
use proxy_replies::stages::success;
use report::{State, Stream, Writer, put_byte, put_bytes, put_field, put_number, put_state};
use std::env::{Env, FillError};
use std::fs::File;
use std::io::{Print, Stderr, Stdin, Stdout};

const PIECE: usize = 513;

// Writes all bytes, and says whether that was done.
fn write_all(stdout: Stdout, bytes: &[u8]) -> bool {
    stdout.write_all(bytes).is_ok()
}

// An end, and how many bytes at the output's start are still to be written.
#[derive(Clone, Copy)]
struct Turn {
    server: Server,
    sent: usize,
}

// How the end stands.
fn state_of(server: Server) -> State {
    match server.outcome() {
        Outcome::Waiting => State::Waiting,
        Outcome::Asked => State::Asked,
        Outcome::Open => State::Open,
        Outcome::Failed(error) => State::Failed(error),
    }
}

fn waits(server: Server) -> bool {
    match server.outcome() {
        Outcome::Waiting => true,
        Outcome::Asked => false,
        Outcome::Open => false,
        Outcome::Failed(error) => false,
    }
}

fn is_asked(server: Server) -> bool {
    match server.outcome() {
        Outcome::Waiting => false,
        Outcome::Asked => true,
        Outcome::Open => false,
        Outcome::Failed(error) => false,
    }
}

// The input is at its end.
fn end(server: Server) -> Turn
    ensures { result.sent ≡ 0 }
{
    let ended = server.end();
    let last = ended.server;
    Turn {
        server: last,
        sent: 0,
    }
}

// A piece of the input.
fn pass(server: Server, piece: &[u8], out: &mut [u8]) -> Turn
    ensures { result.sent ≤ length out.new }
{
    let delivered = server.deliver(piece, out);
    let next = delivered.server;
    Turn {
        server: next,
        sent: delivered.sent,
    }
}

// Reads once.
fn receive(stdin: Stdin, server: Server, piece: &mut [u8], out: &mut [u8]) -> Turn
    ensures { result.sent ≤ length out.new }
{
    let n = input::read_piece(stdin, piece);
    if n == 0 {
        return end(server);
    }
    pass(server, &piece[..n], out)
}

// All that the client says. What is said to it is written ahead of the next read, and at last left to the caller.
fn run(stdin: Stdin, stdout: Stdout, server: Server, piece: &mut [u8], out: &mut [u8]) -> Turn
    ensures { result.sent ≤ length out.new }
{
    let mut turn = Turn { server, sent: 0 };
    for _ in 0..u64::MAX {
        if !waits(turn.server) {
            break;
        }
        let n = turn.sent;
        write_all(stdout, &out[..n]);
        turn = receive(stdin, turn.server, piece, out);
    }
    turn
}

// The status of success in the version that asks.
fn success_at(stage: Stage) -> u8
    ensures { result ≡ success_at stage }
{
    match stage {
        Stage::Awaiting(field) => 0,
        Stage::Asked(version) => success(version),
        Stage::Open(version) => 0,
        Stage::Failed(error) => 0,
    }
}

// The bound address: 127.0.0.1.
fn home() -> Record {
    let mut address = [0u8; 16];
    address[0] = 127;
    address[3] = 1;
    Record {
        family: Family::Four,
        address: address,
    }
}

fn answer(server: Server, out: &mut [u8]) -> Answered
    ensures { (result.sent ≤ length out.new) × Opens server (length out.old) result.server }
{
    let stage = server.stage;
    server.answer(success_at(stage), home(), 0, out)
}

// Reads a file's next bytes behind a place, and answers the place behind them.
fn fill(file: &mut File, out: &mut [u8], at: usize) -> usize
    requires { at ≤ length out.old }
    ensures prefix_len { IsPrefixLen result out.new }
    ensures out_unchanged { take at out.new ≡ take at out.old }
{
    at + input::read_full(file, &mut out[at..])
}

// The reply goes behind what is still to be written, the file's start behind the reply, and all of it in one write.
fn open(stdout: Stdout, turn: Turn, file: &mut File, out: &mut [u8]) -> Server
    requires { turn.sent ≤ length out.old }
    ensures { Opens turn.server (length out.old - turn.sent) result }
{
    let at = turn.sent;
    let answered = answer(turn.server, &mut out[at..]);
    let end = fill(file, out, at + answered.sent);
    write_all(stdout, &out[..end]);
    answered.server
}

// Passes on what a read gives, and answers whether to go on.
fn copy_some(stdout: Stdout, file: &mut File, out: &mut [u8]) -> bool {
    let n = fill(file, out, 0);
    if n == 0 {
        return false;
    }
    write_all(stdout, &out[..n])
}

// What is left of the file.
fn copy_rest(stdout: Stdout, file: &mut File, out: &mut [u8]) {
    for _ in 0..u64::MAX {
        if !copy_some(stdout, file, out) {
            break;
        }
    }
}

// Hears the client to its end: to leave with bytes of it unread would reset the connection, and cut the stream.
fn hear(stdin: Stdin, piece: &mut [u8]) {
    for _ in 0..u64::MAX {
        if input::read_piece(stdin, piece) == 0 {
            break;
        }
    }
}

fn put_kind(writer: Writer, text: &mut [u8], kind: AddressKind) -> Writer {
    match kind {
        AddressKind::Ipv4 => put_bytes(writer, text, b"destination 4 "),
        AddressKind::Ipv6 => put_bytes(writer, text, b"destination 6 "),
        AddressKind::Domain => put_bytes(writer, text, b"destination n "),
    }
}

// The first n bytes of what was asked for, the port, and the line's end.
fn put_asked(start: Writer, text: &mut [u8], bytes: [u8; 1014], n: usize, port: u16) -> Writer {
    let writer = put_field(start, text, part(&bytes, 0, n));
    let next = put_byte(writer, text, b' ');
    let end = put_number(next, text, port as u64);
    put_byte(end, text, b'\n')
}

// A line on standard error.
fn say_destination(stderr: Stderr, target: Target) {
    let kind = target.kind;
    let bytes = target.bytes;
    let mut text = io::buffer();
    let writer = put_kind(report::new(Stream::Errors(stderr)), &mut text, kind);
    let end = put_asked(writer, &mut text, bytes, target.len, target.port);
    report::finish(end, &text);
}

// The outcome's number and its status, as a line.
fn say_outcome(stderr: Stderr, server: Server) {
    let mut text = io::buffer();
    let writer = put_bytes(report::new(Stream::Errors(stderr)), &mut text, b"outcome ");
    let next = put_state(writer, &mut text, state_of(server));
    let end = put_byte(next, &mut text, b'\n');
    report::finish(end, &text);
}

fn serve(rt: HostRuntime, server: Server, file: &mut File, piece: &mut [u8], out: &mut [u8]) {
    let stdin = rt.stdin();
    let stdout = rt.stdout();
    let stderr = rt.stderr();
    let turn = run(stdin, stdout, server, piece, out);
    let asked = turn.server;
    if !is_asked(asked) {
        let n = turn.sent;
        write_all(stdout, &out[..n]);
        say_outcome(stderr, asked);
        return;
    }
    say_destination(stderr, asked.destination());
    say_outcome(stderr, open(stdout, turn, file, out));
    copy_rest(stdout, file, out);
    hear(stdin, piece);
}

// The start of an argument, which fills the text if it is longer.
fn argument(rt: &impl Env, i: usize, text: &mut [u8]) -> usize
    ensures { IsPrefixLen result text.new }
{
    match rt.arg(i, text) {
        Ok(n) => n,
        Err(FillError::TooLong) => text.len(),
        Err(FillError::NotPresent) => 0,
    }
}

// How many arguments there are, the program's name among them, up to 5.
fn argument_count(rt: &impl Env) -> usize {
    for i in 0..5 {
        let mut text = [0u8; 1];
        if let Err(FillError::NotPresent) = rt.arg(i, &mut text) {
            return i;
        }
    }
    5
}

// With credentials if they are among the arguments. They fit, or are too long for the end too.
fn set_up(rt: &impl Env, authenticates: bool) -> SetUp {
    let mut user = [0u8; 256];
    let mut password = [0u8; 256];
    let n = argument(rt, 2, &mut user);
    let m = argument(rt, 3, &mut password);
    proxy::set_up(authenticates, &user[..n], &password[..m])
}

// The file whose name is the first argument. If it can't be opened, that is said on standard error.
fn open_file(rt: HostRuntime) -> Option<File> {
    let mut path = io::buffer();
    let n = argument(&rt, 1, &mut path);
    let Ok(name) = std::str::from_utf8(&path[..n]) else {
        let _ = rt.eprintln("the file's name is not UTF-8");
        return None;
    };
    match File::open(&rt, name) {
        Ok(file) => Some(file),
        Err(error) => {
            let _ = eprintln!(rt; "{name}: {error}");
            None
        }
    }
}

fn main(rt: HostRuntime) {
    let count = argument_count(&rt);
    if !(count == 2 || count == 4) {
        let _ = rt.eprintln("usage: bench FILE [USER PASSWORD]");
        return;
    }
    let Some(mut file) = open_file(rt) else {
        return;
    };
    let set = set_up(&rt, count == 4);
    let server = set.server;
    let mut piece = [0u8; PIECE];
    let mut out = io::large_buffer();
    serve(rt, server, &mut file, &mut piece, &mut out);
}
