// Cases of streams for a wanted ending (F-12), of a session or of a route.
use crate::tally;
use endings::{Produced, routes, v4, v5};
use endings_spec::OutcomeStatus;
use input::places::{byte_at, part, past, text_at};
use report::{Writer, put_bytes, put_field, put_number};

fn wanted_of(s: &[u8], at: usize) -> OutcomeStatus {
    OutcomeStatus {
        number: byte_at(s, at),
        status: byte_at(s, past(s, at, 1)),
    }
}

fn of_session(s: &[u8], wanted: OutcomeStatus, buffer: &mut [u8]) -> Produced {
    let opening = cases::opening_at(s, 2);
    let config = opening.config;
    let port = opening.port;
    let host = text_at(s, opening.host);
    let four = opening.version == 4;
    let chosen = cases::chosen_at(s, opening.records, four);
    if four {
        return v4::stream_chosen(config.local_dns, host, port, chosen, wanted, buffer);
    }
    let user = text_at(s, opening.user);
    let password = text_at(s, opening.password);
    v5::stream_chosen(config, host, port, user, password, chosen, wanted, buffer)
}

// The proxy stands behind the route's proxies.
fn of_route(s: &[u8], wanted: OutcomeStatus, buffer: &mut [u8]) -> Produced {
    let target = cases::target_at(s, 2);
    let proxies = cases::proxies_at(s, target.proxies);
    let count = byte_at(s, target.proxies) as usize;
    let proxy = byte_at(s, cases::proxies_end(s, target.proxies)) as usize;
    let port = target.port;
    routes::stream(
        proxies,
        count,
        s,
        text_at(s, target.host),
        port,
        proxy,
        wanted,
        buffer,
    )
}

fn produce(s: &[u8], at: usize, buffer: &mut [u8]) -> Produced {
    let wanted = wanted_of(s, at);
    if byte_at(s, 1) == b'S' {
        return of_session(s, wanted, buffer);
    }
    of_route(s, wanted, buffer)
}

// ANSWER and STREAM.
fn put_produced(writer: Writer, text: &mut [u8], produced: Produced, kept: &[u8]) -> Writer {
    match produced {
        Err(error) => put_bytes(
            put_number(writer, text, error_numbers::number(error) as u64),
            text,
            b" -",
        ),
        Ok(None) => put_bytes(writer, text, b"none -"),
        Ok(Some(n)) => put_field(put_bytes(writer, text, b"0 "), text, part(kept, 0, n)),
    }
}

pub fn run(s: &[u8], writer: Writer, kept: &mut [u8], text: &mut [u8]) -> Writer {
    let at = cases::wanted_at(s);
    let lent = cases::lent_at(s, past(s, at, 2));
    let produced = produce(s, at, tally::output(kept, lent));
    put_produced(writer, text, produced, kept)
}
