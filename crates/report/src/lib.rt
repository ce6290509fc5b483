// Text that goes to a stream through a lent buffer: numbers in decimal, bytes in lower-case hexadecimal, `-` for none.
#![tactic(auto)]

use address_format::numerals::hex_digit;
use protocol::SocksError;
use std::io::{Print, Stderr, Stdout};

// Where text goes.
#[derive(Clone, Copy)]
pub enum Stream {
    Output(Stdout),
    Errors(Stderr),
}

// The stream, and how much of the buffer is still to be written to it.
#[derive(Clone, Copy)]
pub struct Writer {
    pub file: Stream,
    pub at: usize,
}

pub fn new(file: Stream) -> Writer {
    Writer { file, at: 0 }
}

// Writes all bytes. What can't be written is lost.
fn write_all(file: Stream, bytes: &[u8]) {
    let _ = match file {
        Stream::Output(stdout) => stdout.write_all(bytes),
        Stream::Errors(stderr) => stderr.write_all(bytes),
    };
}

// Writes what is still to be written.
pub fn finish(writer: Writer, text: &[u8]) {
    write_all(writer.file, input::places::part(text, 0, writer.at));
}

// A place for a byte: a full buffer is written first.
fn room(writer: Writer, text: &[u8]) -> usize {
    if writer.at < text.len() {
        return writer.at;
    }
    write_all(writer.file, text);
    0
}

pub fn put_byte(writer: Writer, text: &mut [u8], b: u8) -> Writer {
    let at = room(writer, text);
    Writer {
        at: input::places::store(text, at, b),
        ..writer
    }
}

pub fn put_bytes(start: Writer, text: &mut [u8], s: &[u8]) -> Writer {
    let mut writer = start;
    for &b in s {
        writer = put_byte(writer, text, b);
    }
    writer
}

fn put_hex_byte(writer: Writer, text: &mut [u8], b: u8) -> Writer {
    let next = put_byte(writer, text, hex_digit(b / 16));
    put_byte(next, text, hex_digit(b % 16))
}

pub fn put_hex(start: Writer, text: &mut [u8], s: &[u8]) -> Writer {
    let mut writer = start;
    for &b in s {
        writer = put_hex_byte(writer, text, b);
    }
    writer
}

// Bytes in hexadecimal, or `-` if there are none.
pub fn put_field(writer: Writer, text: &mut [u8], s: &[u8]) -> Writer {
    if s.is_empty() {
        return put_byte(writer, text, b'-');
    }
    put_hex(writer, text, s)
}

pub fn put_number(writer: Writer, text: &mut [u8], n: u64) -> Writer {
    let mut digits = [0u8; 20];
    let count = io::decimal(n, &mut digits);
    put_bytes(writer, text, &digits[..count])
}

// How a session stands, a route, or the proxy's end, which is asked while it awaits its caller's answer.
#[derive(Clone, Copy)]
pub enum State {
    Waiting,
    Asked,
    Open,
    Failed(SocksError),
}

// `waiting`, `asked`, or 0 for open, or the number of a failure.
fn put_outcome(writer: Writer, text: &mut [u8], state: State) -> Writer {
    match state {
        State::Waiting => put_bytes(writer, text, b"waiting"),
        State::Asked => put_bytes(writer, text, b"asked"),
        State::Open => put_byte(writer, text, b'0'),
        State::Failed(error) => put_number(writer, text, u64::from(error_numbers::number(error))),
    }
}

fn status_of(state: State) -> u8 {
    match state {
        State::Waiting | State::Asked | State::Open => 0,
        State::Failed(error) => error_numbers::status(error),
    }
}

// An outcome, and the status with a space before it.
pub fn put_state(writer: Writer, text: &mut [u8], state: State) -> Writer {
    let told = put_outcome(writer, text, state);
    let next = put_byte(told, text, b' ');
    put_number(next, text, u64::from(status_of(state)))
}
