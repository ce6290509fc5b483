// Standard input: a piece as a read gives it, or bytes kept in a lent buffer until they are read.
#![tactic(auto)]

ghost use Rattle.std.specs.Prelude.{◌≤◌, length};
ghost use Rattle.io.specs.Counts.{IsPrefixLen};

use places::{number_at, part};
use std::io::{Read, Stdin};

pub mod places;

// What is unread stands in the buffer from a place up to an end. ended: nothing comes behind it.
#[derive(Clone, Copy)]
pub struct Input {
    pub at: usize,
    pub end: usize,
    pub ended: bool,
}

pub fn new() -> Input {
    Input {
        at: 0,
        end: 0,
        ended: false,
    }
}

// Reads once, and says how many bytes came: none at the end, or if the read fails.
pub fn read_some<R: Read>(from: &mut R, piece: &mut [u8]) -> usize
    ensures { IsPrefixLen result piece.new }
{
    match from.read(piece) {
        Ok(n) => n,
        Err(_) => 0,
    }
}

// Reads until the buffer is full, the end comes or a read fails, and says how many bytes came.
pub fn read_full<R: Read>(from: &mut R, buffer: &mut [u8]) -> usize
    ensures { IsPrefixLen result buffer.new }
{
    let mut done = 0;
    while done < buffer.len() {
        let n = read_some(from, &mut buffer[done..]);
        if n == 0 {
            break;
        }
        done += n;
    }
    done
}

// Reads a piece, and says how many bytes it has: none at the input's end.
pub fn read_piece(mut stdin: Stdin, piece: &mut [u8]) -> usize
    ensures { result ≤ length piece.old }
{
    read_some(&mut stdin, piece)
}

// Moves the bytes from a place up to an end to the buffer's start, and says how many they are.
fn keep(buffer: &mut [u8], from: usize, end: usize) -> usize {
    if from > end || end > buffer.len() {
        return 0;
    }
    buffer.copy_within(from..end, 0);
    end - from
}

// Reads behind what is held, until the buffer is full or the input ends, and says how many bytes there are then.
fn fill(mut stdin: Stdin, buffer: &mut [u8], held: usize) -> usize {
    if held > buffer.len() {
        return 0;
    }
    held + read_full(&mut stdin, &mut buffer[held..])
}

// At least n unread bytes, or all that the input has.
fn want(stdin: Stdin, input: Input, buffer: &mut [u8], n: usize) -> Input {
    if input.ended || (input.at <= input.end && n <= input.end - input.at) {
        return input;
    }
    let held = keep(buffer, input.at, input.end);
    let stop = fill(stdin, buffer, held);
    Input {
        at: 0,
        end: stop,
        ended: stop < buffer.len(),
    }
}

// A whole unread text, its length first, or all that the input has.
pub fn want_text(stdin: Stdin, input: Input, buffer: &mut [u8]) -> Input {
    let seen = want(stdin, input, buffer, 2);
    let size = number_at(part(buffer, seen.at, seen.end), 0);
    want(stdin, seen, buffer, 2 + usize::from(size))
}
