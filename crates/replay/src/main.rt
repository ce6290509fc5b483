// Runs the cases on standard input and writes a line for each (docs/CASES.md).
#![tactic(auto)]

mod lines;
mod proxies;
mod recordings;
mod routes;
mod sessions;
mod streams;
mod tally;
mod texts;

use input::Input;
use input::places::{byte_at, part, past, text_at, text_end};
use report::{Stream, Writer, put_byte, put_bytes};
use std::io::{Stdin, Stdout};
use tally::KEPT;

// More than the largest frame.
const INPUT: usize = 73728;

const TEXT: usize = 16384;

// A case that is whole.
fn run_case(s: &[u8], writer: Writer, kept: &mut [u8], text: &mut [u8]) -> Writer {
    let kind = byte_at(s, 0);
    if kind == b'S' {
        return sessions::run(s, writer, kept, text);
    }
    if kind == b'R' {
        return routes::run(s, writer, kept, text);
    }
    if kind == b'P' {
        return proxies::run(s, writer, kept, text);
    }
    if kind == b'E' {
        return streams::run(s, writer, kept, text);
    }
    if kind == b'C' {
        return recordings::run(s, writer, text);
    }
    if kind == b'L' {
        return lines::run(text_at(s, 1), writer, text);
    }
    if kind == b'A' {
        return texts::put_address(text_at(s, 1), writer, text);
    }
    if kind == b'H' {
        return texts::put_host(text_at(s, 1), writer, text);
    }
    texts::put_utf8(text_at(s, 1), writer, text)
}

fn put_line(s: &[u8], writer: Writer, kept: &mut [u8], text: &mut [u8]) -> Writer {
    if cases::is_whole(s) {
        return put_byte(run_case(s, writer, kept, text), text, b'\n');
    }
    put_bytes(writer, text, b"bad\n")
}

// Between two frames. more: whether to read on.
#[derive(Clone, Copy)]
struct Stand {
    input: Input,
    writer: Writer,
    more: bool,
}

// The next frame, if there is one.
fn turn(stdin: Stdin, stand: Stand, buffer: &mut [u8], kept: &mut [u8], text: &mut [u8]) -> Stand {
    let writer = stand.writer;
    let input = input::want_text(stdin, stand.input, buffer);
    let unread = part(buffer, input.at, input.end);
    if unread.len() == 0 {
        return Stand {
            input,
            writer,
            more: false,
        };
    }
    let end = text_end(unread, 0);
    if end > unread.len() {
        return Stand {
            input,
            writer: put_bytes(writer, text, b"bad\n"),
            more: false,
        };
    }
    let told = put_line(text_at(unread, 0), writer, kept, text);
    Stand {
        input: Input {
            at: past(buffer, input.at, end),
            end: input.end,
            ended: input.ended,
        },
        writer: told,
        more: true,
    }
}

fn run(stdin: Stdin, stdout: Stdout, buffer: &mut [u8], kept: &mut [u8], text: &mut [u8]) {
    let mut stand = Stand {
        input: input::new(),
        writer: report::new(Stream::Output(stdout)),
        more: true,
    };
    for turns in 0..u64::MAX {
        if !stand.more {
            break;
        }
        stand = turn(stdin, stand, buffer, kept, text);
    }
    report::finish(stand.writer, text);
}

fn main(rt: HostRuntime) {
    let mut buffer = [0u8; INPUT];
    let mut kept = [0u8; KEPT];
    let mut text = [0u8; TEXT];
    run(rt.stdin(), rt.stdout(), &mut buffer, &mut kept, &mut text);
}
