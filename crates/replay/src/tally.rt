// What is told of a case's calls, whatever they are calls of: CALLS goes out as they come, SENT and RESTS are kept to the line's end.
use cases::lent_at;
use input::places::{byte_at, part, past, store, text_at};
use protocol::SocksError;
use report::{State, Writer, put_byte, put_field, put_number, put_state};

// What is kept: the output lent to a call, the bytes sent by all calls, and the rests.
pub const KEPT: usize = 83968;

const SENT: usize = 9216;

const RESTS: usize = 18432;

// room: the output that a delivery lends of which the rest is told. called: whether CALLS has an entry. sent, rests: the places behind
// what is kept of either.
#[derive(Clone, Copy)]
pub struct Tally {
    pub writer: Writer,
    pub room: usize,
    pub called: bool,
    pub sent: usize,
    pub rests: usize,
}

// What came of a call: the number of its answer, or the one it is asked for; how much of its piece it used; and how many bytes it put
// into the output.
#[derive(Clone, Copy)]
pub struct Call {
    pub number: u64,
    pub used: usize,
    pub sent: usize,
}

pub fn call_of(answer: Result<(), SocksError>, used: usize, sent: usize) -> Call {
    Call {
        number: error_numbers::answer_number(answer) as u64,
        used,
        sent,
    }
}

// What is lent as output.
pub fn output(kept: &mut [u8], lent: usize) -> &mut [u8] {
    let start = 0;
    if lent > kept.len() {
        return &mut kept[start..start];
    }
    &mut kept[start..lent]
}

// The output's first bytes go behind what was sent before.
fn keep_sent(kept: &mut [u8], n: usize, to: usize) -> usize {
    let mut end = to;
    for i in 0..n {
        end = store(kept, end, byte_at(kept, i));
    }
    end
}

// What a delivery leaves of its piece goes behind the rests before.
fn keep_rest(kept: &mut [u8], rest: &[u8], to: usize) -> usize {
    let mut end = to;
    for i in 0..rest.len() {
        end = store(kept, end, rest[i]);
    }
    end
}

fn put_count(writer: Writer, text: &mut [u8], n: usize) -> Writer {
    let next = put_byte(writer, text, b'/');
    put_number(next, text, n as u64)
}

// The number at the start of an entry, with a comma before it unless that is the first.
fn put_entry(tally: Tally, text: &mut [u8], n: u64) -> Writer {
    let writer = tally.writer;
    if tally.called {
        let next = put_byte(writer, text, b',');
        return put_number(next, text, n);
    }
    put_number(writer, text, n)
}

// A call that has a number alone.
fn take_number(tally: Tally, call: Call, text: &mut [u8]) -> Tally {
    Tally {
        writer: put_entry(tally, text, call.number),
        room: tally.room,
        called: true,
        sent: tally.sent,
        rests: tally.rests,
    }
}

fn put_text(start: Writer, text: &mut [u8], bytes: &[u8]) -> Writer {
    let writer = put_byte(start, text, b'/');
    put_field(writer, text, bytes)
}

// A call that has a text.
fn take_text(tally: Tally, call: Call, kept: &[u8], text: &mut [u8]) -> Tally {
    let writer = put_entry(tally, text, call.number);
    Tally {
        writer: put_text(writer, text, part(kept, 0, call.sent)),
        room: tally.room,
        called: true,
        sent: tally.sent,
        rests: tally.rests,
    }
}

// A call that sends.
fn take_sent(tally: Tally, call: Call, kept: &mut [u8], text: &mut [u8]) -> Tally {
    let writer = put_entry(tally, text, call.number);
    Tally {
        writer: put_count(writer, text, call.sent),
        room: tally.room,
        called: true,
        sent: keep_sent(kept, call.sent, tally.sent),
        rests: tally.rests,
    }
}

fn put_delivery(tally: Tally, call: Call, text: &mut [u8]) -> Writer {
    let writer = put_entry(tally, text, call.number);
    let next = put_count(writer, text, call.used);
    put_count(next, text, call.sent)
}

// The rest of the delivery at a place, if it lends what is asked.
fn take_rest(tally: Tally, used: usize, s: &[u8], at: usize, kept: &mut [u8]) -> usize {
    if lent_at(s, past(s, at, 1)) < tally.room {
        return tally.rests;
    }
    let piece = text_at(s, past(s, at, 3));
    keep_rest(kept, buffers::write::rest(piece, used), tally.rests)
}

fn take_delivery(
    tally: Tally,
    call: Call,
    s: &[u8],
    at: usize,
    kept: &mut [u8],
    text: &mut [u8],
) -> Tally {
    Tally {
        writer: put_delivery(tally, call, text),
        room: tally.room,
        called: true,
        sent: keep_sent(kept, call.sent, tally.sent),
        rests: take_rest(tally, call.used, s, at, kept),
    }
}

// The call at a place, and what came of it.
pub fn take(
    tally: Tally,
    call: Call,
    s: &[u8],
    at: usize,
    kept: &mut [u8],
    text: &mut [u8],
) -> Tally {
    let byte = byte_at(s, at);
    if byte == b'd' {
        return take_delivery(tally, call, s, at, kept, text);
    }
    if byte == b's' || byte == b'a' {
        return take_sent(tally, call, kept, text);
    }
    if byte == b'b' {
        return take_text(tally, call, kept, text);
    }
    take_number(tally, call, text)
}

// CHECK is told: a space.
fn begin(writer: Writer, room: usize, sent: usize, text: &mut [u8]) -> Tally {
    Tally {
        writer: put_byte(writer, text, b' '),
        room,
        called: false,
        sent,
        rests: RESTS,
    }
}

// CHECK of a preparing or a set-up.
pub fn check(start: Writer, call: Call, room: usize, text: &mut [u8]) -> Tally {
    let writer = put_number(start, text, call.number);
    begin(writer, room, SENT, text)
}

// CHECK of an opening.
pub fn check_sent(
    start: Writer,
    call: Call,
    room: usize,
    kept: &mut [u8],
    text: &mut [u8],
) -> Tally {
    let number = put_number(start, text, call.number);
    let writer = put_count(number, text, call.sent);
    begin(writer, room, keep_sent(kept, call.sent, SENT), text)
}

// CALLS is at its end: `-` if it has no entry.
fn end_calls(tally: Tally, text: &mut [u8]) -> Writer {
    let writer = tally.writer;
    if tally.called {
        return writer;
    }
    put_byte(writer, text, b'-')
}

// A field of kept bytes with a space before it.
fn put_kept(start: Writer, text: &mut [u8], kept: &[u8], from: usize, end: usize) -> Writer {
    let writer = put_byte(start, text, b' ');
    put_field(writer, text, part(kept, from, end))
}

// SENT, RESTS, OUTCOME and STATUS behind CALLS.
pub fn finish(tally: Tally, state: State, kept: &[u8], text: &mut [u8]) -> Writer {
    let calls = end_calls(tally, text);
    let sent = put_kept(calls, text, kept, SENT, tally.sent);
    let rests = put_kept(sent, text, kept, RESTS, tally.rests);
    let next = put_byte(rests, text, b' ');
    put_state(next, text, state)
}
