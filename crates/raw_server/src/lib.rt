// The proxy's end as numbers and arrays, by value, for programs in C and Rust.

#![tactic(auto)]

ghost use Rattle.std.specs.Prelude.{◌≡◌};
ghost use Rattle.raw_server.specs.Raw.{ports_of, awaited_of, stage_of, numbered, with_ports, awaited_numbers, stage_numbers, server_of, raw_of, standing_of, served_of};

use error_numbers::{answer_number, number, status};
use protocol::{Bound, SocksError, Version};
use proxy_replies::stages::success;
use proxy_session::{Credential, Server};
use proxy_spec::{Field, Ports, Stage};
use raw_errors::error_of;
use raw_numbers::{bit, kind_number, kind_of, truth};
use raw_session::RawOutcome;

// A stage, and what it keeps: of a failure its error, of an address its command and type, of a v4 request its fields.
#[repr(C)]
#[derive(Clone, Copy)]
pub struct RawStage {
    pub dstport: u16,
    pub number: u8,
    pub error: u8,
    pub status: u8,
    pub command: u8,
    pub atyp: u8,
    pub first: u8,
    pub second: u8,
    pub third: u8,
    pub fourth: u8,
}

// Every value of every field has a meaning (specs/Raw.antt); all zeros is an end that refuses everything.
#[repr(C)]
#[derive(Clone, Copy)]
pub struct RawServer {
    pub held: usize,
    pub stage: RawStage,
    pub port: u16,
    pub kind: u8,
    pub authenticates: u8,
    pub userlen: u8,
    pub passlen: u8,
    pub hold: [u8; 1014],
    pub user: [u8; 255],
    pub password: [u8; 255],
}

// What a call answers, which is 0 or the refusal's number, what it used of the piece and put at the output's start, the end that it
// leaves, and how that stands.
// The C interface has its answer as a number.
#[repr(C)]
#[derive(Clone, Copy)]
pub struct RawServed {
    pub server: RawServer,
    pub used: usize,
    pub sent: usize,
    pub answer: u8,
    pub outcome: RawOutcome,
}

fn ports_of(raw: RawStage) -> Ports
    ensures { result ≡ ports_of raw }
{
    Ports {
        command: raw.command,
        port: raw.dstport,
        first: raw.first,
        second: raw.second,
        third: raw.third,
        fourth: raw.fourth,
    }
}

// The field that is awaited at a stage from 1 to 10.
fn awaited_of(raw: RawStage) -> Field
    ensures { result ≡ awaited_of raw }
{
    match raw.number {
        1 => Field::First,
        2 => Field::Methods,
        3 => Field::User,
        4 => Field::Password(false),
        5 => Field::Password(true),
        6 => Field::Head,
        7 => Field::Address(raw.command, raw.atyp),
        8 => Field::Request,
        9 => Field::UserId(ports_of(raw)),
        _ => Field::Name(ports_of(raw)),
    }
}

// The stage of a number: failed for one that no other stage has.
fn stage_of(raw: RawStage) -> Stage
    ensures { result ≡ stage_of raw }
{
    match raw.number {
        1..=10 => Stage::Awaiting(awaited_of(raw)),
        11 => Stage::Asked(Version::V4),
        12 => Stage::Asked(Version::V5),
        13 => Stage::Open(Version::V4),
        14 => Stage::Open(Version::V5),
        _ => Stage::Failed(error_of(raw.error, raw.status)),
    }
}

// A stage that keeps nothing beside its number.
fn numbered(number: u8) -> RawStage
    ensures { result ≡ numbered number }
{
    RawStage {
        dstport: 0,
        number,
        error: 0,
        status: 0,
        command: 0,
        atyp: 0,
        first: 0,
        second: 0,
        third: 0,
        fourth: 0,
    }
}

fn with_ports(n: u8, ports: Ports) -> RawStage
    ensures { result ≡ with_ports n ports }
{
    RawStage {
        dstport: ports.port,
        command: ports.command,
        first: ports.first,
        second: ports.second,
        third: ports.third,
        fourth: ports.fourth,
        ..numbered(n)
    }
}

fn awaited_numbers(field: Field) -> RawStage
    ensures { result ≡ awaited_numbers field }
{
    match field {
        Field::First => numbered(1),
        Field::Methods => numbered(2),
        Field::User => numbered(3),
        Field::Password(false) => numbered(4),
        Field::Password(true) => numbered(5),
        Field::Head => numbered(6),
        Field::Address(command, atyp) => RawStage {
            command,
            atyp,
            ..numbered(7)
        },
        Field::Request => numbered(8),
        Field::UserId(ports) => with_ports(9, ports),
        Field::Name(ports) => with_ports(10, ports),
    }
}

fn stage_numbers(stage: Stage) -> RawStage
    ensures { result ≡ stage_numbers stage }
{
    match stage {
        Stage::Awaiting(field) => awaited_numbers(field),
        Stage::Asked(Version::V4) => numbered(11),
        Stage::Asked(Version::V5) => numbered(12),
        Stage::Open(Version::V4) => numbered(13),
        Stage::Open(Version::V5) => numbered(14),
        Stage::Failed(error) => RawStage {
            error: number(error),
            status: status(error),
            ..numbered(0)
        },
    }
}

// The end that numbers mean.
pub fn server_of(raw: RawServer) -> Server
    ensures { result ≡ server_of raw }
{
    let hold = raw.hold;
    let user = raw.user;
    let password = raw.password;
    Server {
        stage: stage_of(raw.stage),
        held: raw.held,
        hold,
        bound: Bound {
            kind: kind_of(raw.kind),
            port: raw.port,
        },
        authenticates: truth(raw.authenticates),
        user: Credential {
            len: raw.userlen,
            bytes: user,
        },
        password: Credential {
            len: raw.passlen,
            bytes: password,
        },
    }
}

// The numbers of an end.
pub fn raw_of(server: Server) -> RawServer
    ensures { result ≡ raw_of server }
{
    let hold = server.hold;
    let user = server.user.bytes;
    let password = server.password.bytes;
    RawServer {
        held: server.held,
        stage: stage_numbers(server.stage),
        port: server.bound.port,
        kind: kind_number(server.bound.kind),
        authenticates: bit(server.authenticates),
        userlen: server.user.len,
        passlen: server.password.len,
        hold,
        user,
        password,
    }
}

// How an end stands. Asked, the status is the one that grants in the client's version.
pub fn standing_of(stage: Stage) -> RawOutcome
    ensures { result ≡ standing_of stage }
{
    let (state, number, status) = match stage {
        Stage::Awaiting(_) => (0, 0, 0),
        Stage::Asked(version) => (3, 0, success(version)),
        Stage::Open(_) => (1, 0, 0),
        Stage::Failed(error) => (2, number(error), status(error)),
    };
    RawOutcome {
        state,
        number,
        status,
    }
}

pub fn served(answer: Result<(), SocksError>, server: Server, used: usize, sent: usize) -> RawServed
    ensures { result ≡ served_of answer server used sent }
{
    RawServed {
        server: raw_of(server),
        used,
        sent,
        answer: answer_number(answer),
        outcome: standing_of(server.stage),
    }
}
