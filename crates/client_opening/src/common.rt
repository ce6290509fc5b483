// 01, "Opening v5" and "Opening v4", and F-7: what preparing has in common over both versions: what is asked for, and what is kept.
ghost use Rattle.std.specs.Prelude.{◌≡◌};
ghost use Rattle.protocol.specs.Opening.{port_number};
ghost use Rattle.client_session.specs.Calls.{nothing_kept};
ghost use Rattle.client_opening.specs.common.Asked.{record_text, asked_text};
ghost use Rattle.client_opening.specs.common.Begun.{prepared_with};
ghost use Rattle.protocol.specs.Answers.{Refused};
ghost use Rattle.client_stages.specs.declared.due.Stage.TheVariants as Stage;

use address_text::ipv4::AddressText;
use client_session::{Prepared, Session};
use client_stages::due::{Lengths, Requests, Stage};
use protocol::{AddressKind, Bound, Family, HOLD, REQUESTS, Record, SocksError};

fn recorded(found: Record) -> AddressText
    ensures { result ≡ record_text found }
{
    AddressText {
        kind: match found.family {
            Family::Four => AddressKind::Ipv4,
            Family::Six => AddressKind::Ipv6,
        },
        bytes: found.address,
    }
}

// What is asked for: as it was read, or for a name the record that was found.
pub fn asked(read: AddressText, found: Option<Record>) -> AddressText
    ensures { result ≡ asked_text read found }
{
    match (read.kind, found) {
        (AddressKind::Domain, Some(record)) => recorded(record),
        _ => read,
    }
}

pub fn port_number(port: Option<u16>) -> u16
    ensures { result ≡ port_number port }
{
    port.unwrap_or(0)
}

// What preparing comes to, beside the bytes of the requests that are kept.
#[derive(Clone, Copy)]
pub struct Begun {
    pub answer: Result<(), SocksError>,
    pub stage: Stage,
    pub lengths: Lengths,
}

// Refused, nothing is kept.
pub fn refuse(error: SocksError) -> Begun
    ensures { result ≡ record { answer = Refused error; stage = Stage.Failed error; lengths = nothing_kept.lengths } }
{
    Begun {
        answer: Err(error),
        stage: Stage::Failed(error),
        lengths: Lengths {
            optimistic: false,
            first: 0,
            authentication: 0,
            proxy: 0,
        },
    }
}

// What preparing returns: its session is built here alone.
pub fn prepared(begun: Begun, bytes: [u8; REQUESTS]) -> Prepared
    ensures { result ≡ prepared_with begun bytes }
{
    Prepared {
        answer: begun.answer,
        session: Session {
            stage: begun.stage,
            started: false,
            held: 0,
            hold: [0u8; HOLD],
            bound: Bound {
                kind: AddressKind::Ipv4,
                port: 0,
            },
            attempts: 0,
            requests: Requests {
                lengths: begun.lengths,
                bytes,
            },
        },
    }
}
