// Cases of captures (F-10): one held against its opening, and a second one held against the first.
use captures::{v4, v5};
use cases::Opening;
use input::places::{byte_at, past, text_at, text_end};
use protocol::SocksError;
use report::{Writer, put_byte, put_bytes, put_number};

fn check(s: &[u8], opening: Opening, capture: &[u8]) -> Result<(), SocksError> {
    let config = opening.config;
    let port = opening.port;
    let host = text_at(s, opening.host);
    let four = opening.version == 4;
    let chosen = cases::chosen_at(s, opening.records, four);
    if four {
        return v4::check_chosen(config.local_dns, host, port, chosen, capture);
    }
    let user = text_at(s, opening.user);
    let password = text_at(s, opening.password);
    v5::check_chosen(config, host, port, user, password, chosen, capture)
}

fn compare(s: &[u8], opening: Opening, first: &[u8], second: &[u8]) -> Result<bool, SocksError> {
    let config = opening.config;
    let port = opening.port;
    let host = text_at(s, opening.host);
    let four = opening.version == 4;
    let chosen = cases::chosen_at(s, opening.records, four);
    if four {
        return v4::compare_chosen(config.local_dns, host, port, chosen, first, second);
    }
    let user = text_at(s, opening.user);
    let password = text_at(s, opening.password);
    v5::compare_chosen(config, host, port, user, password, chosen, first, second)
}

// ANSWER, and `-` for ALIKE.
fn put_answer(start: Writer, text: &mut [u8], answer: Result<(), SocksError>) -> Writer {
    let writer = put_number(start, text, error_numbers::answer_number(answer) as u64);
    put_bytes(writer, text, b" -")
}

// ANSWER 0, and ALIKE.
fn put_alike(start: Writer, text: &mut [u8], alike: bool) -> Writer {
    let writer = put_bytes(start, text, b"0 ");
    if alike {
        return put_byte(writer, text, b'1');
    }
    put_byte(writer, text, b'0')
}

fn put_compared(writer: Writer, text: &mut [u8], compared: Result<bool, SocksError>) -> Writer {
    match compared {
        Ok(alike) => put_alike(writer, text, alike),
        Err(error) => put_answer(writer, text, Err(error)),
    }
}

// The captures stand behind the opening and their number.
pub fn run(s: &[u8], writer: Writer, text: &mut [u8]) -> Writer {
    let opening = cases::opening_at(s, 1);
    let number = cases::opening_end(s, 1);
    let at = past(s, number, 1);
    let first = text_at(s, at);
    if byte_at(s, number) == 1 {
        return put_answer(writer, text, check(s, opening, first));
    }
    let second = text_at(s, text_end(s, at));
    put_compared(writer, text, compare(s, opening, first, second))
}
