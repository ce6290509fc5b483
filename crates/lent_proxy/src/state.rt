// What lent bytes say of a proxy's end: its stage, what that keeps, and the numbers beside it. And how they come to say another.
ghost use Rattle.std.specs.Prelude.{◌≡◌, ◌%◌, length};
ghost use Rattle.lent_proxy.specs.State.{limit, stage_at, ports_of, field_of, stage_of, kind_at, authenticates_at, server_at, field_number, stage_number, kind_number, code_of, ports_number, field_keeps, stage_keeps};
ghost use Rattle.lent_proxy.specs.Fits.{PortsFit, FieldFits, StageFits, staged, Rewrites};

use error_numbers::{number, status};
use lent_numbers::bytes::{eight_at, put_eight, two_at};
use protocol::{AddressKind, Bound, SocksError, Version};
use proxy_spec::{Field, Ports, Stage};
use raw_errors::error_of;
use raw_numbers::bit;

pub const HELD_AT: usize = 0;

pub const PORT_AT: usize = 2;

pub const CODE_AT: usize = 4;

pub const USER_LEN_AT: usize = 5;

pub const PASSWORD_LEN_AT: usize = 6;

pub const KEPT_AT: usize = 7;

pub const HOLD_AT: usize = 15;

pub const USER_AT: usize = 1029;

pub const PASSWORD_AT: usize = 1284;

// What the stage of a number keeps is below this.
fn limit(n: u8) -> u64
    ensures { result ≡ limit n }
{
    match n {
        0 | 15 => 0,
        7 => 65536,
        9 | 10 => 72057594037927936,
        _ => 1,
    }
}

// The number of the stage, 0 if it has failed.
pub fn stage_at(code: u8, kept: u64) -> u8
    ensures { result ≡ stage_at code kept }
{
    if 96 <= code {
        return 0;
    }
    if kept < limit(code % 16) {
        return code % 16;
    }
    0
}

pub fn low(m: u64) -> u8
    ensures { result ≡ m % 256 }
{
    (m % 256) as u8
}

fn ports_of(m: u64) -> Ports
    ensures { result ≡ ports_of m }
{
    Ports {
        command: low(m),
        port: (m / 256 % 65536) as u16,
        first: low(m / 256 / 65536),
        second: low(m / 256 / 65536 / 256),
        third: low(m / 256 / 65536 / 256 / 256),
        fourth: low(m / 256 / 65536 / 256 / 256 / 256),
    }
}

// The field that is awaited at a stage from 1 to 10.
pub fn field_of(n: u8, m: u64) -> Field
    ensures { result ≡ field_of n m }
{
    match n {
        1 => Field::First,
        2 => Field::Methods,
        3 => Field::User,
        4 => Field::Password(false),
        5 => Field::Password(true),
        6 => Field::Head,
        7 => Field::Address(low(m), low(m / 256)),
        8 => Field::Request,
        9 => Field::UserId(ports_of(m)),
        _ => Field::Name(ports_of(m)),
    }
}

// The stage of a number: failed for one that no other stage has.
pub fn stage_of(n: u8, m: u64) -> Stage
    ensures { result ≡ stage_of n m }
{
    match n {
        1..=10 => Stage::Awaiting(field_of(n, m)),
        11 => Stage::Asked(Version::V4),
        12 => Stage::Asked(Version::V5),
        13 => Stage::Open(Version::V4),
        14 => Stage::Open(Version::V5),
        _ => Stage::Failed(error_of(low(m), low(m / 256))),
    }
}

pub fn kind_at(code: u8) -> AddressKind
    ensures { result ≡ kind_at code }
{
    match code / 32 {
        1 => AddressKind::Ipv6,
        2 => AddressKind::Domain,
        _ => AddressKind::Ipv4,
    }
}

pub fn authenticates_at(code: u8) -> bool
    ensures { result ≡ authenticates_at code }
{
    code / 16 % 2 == 1
}

pub fn bound_at(s: &[u8]) -> Bound
    requires { length s.now ≡ 1539 }
    ensures { result ≡ (server_at s.now).bound }
{
    Bound {
        kind: kind_at(s[CODE_AT]),
        port: two_at(s, PORT_AT) as u16,
    }
}

fn field_number(field: Field) -> u8
    ensures { result ≡ field_number field }
{
    match field {
        Field::First => 1,
        Field::Methods => 2,
        Field::User => 3,
        Field::Password(false) => 4,
        Field::Password(true) => 5,
        Field::Head => 6,
        Field::Address(_, _) => 7,
        Field::Request => 8,
        Field::UserId(_) => 9,
        Field::Name(_) => 10,
    }
}

fn stage_number(stage: Stage) -> u8
    ensures { result ≡ stage_number stage }
{
    match stage {
        Stage::Awaiting(field) => field_number(field),
        Stage::Asked(Version::V4) => 11,
        Stage::Asked(Version::V5) => 12,
        Stage::Open(Version::V4) => 13,
        Stage::Open(Version::V5) => 14,
        Stage::Failed(_) => 0,
    }
}

fn kind_number(kind: AddressKind) -> u8
    ensures { result ≡ kind_number kind }
{
    match kind {
        AddressKind::Ipv4 => 0,
        AddressKind::Ipv6 => 1,
        AddressKind::Domain => 2,
    }
}

fn code_of(stage: Stage, authenticates: bool, kind: AddressKind) -> u8
    ensures { result ≡ code_of stage authenticates kind }
{
    stage_number(stage) + (16 * bit(authenticates) + 32 * kind_number(kind))
}

fn ports_number(p: Ports) -> usize
    ensures { (result ≡ ports_number p) × PortsFit p }
{
    let ip = usize::from(p.first)
        + 256
            * (usize::from(p.second) + 256 * (usize::from(p.third) + 256 * usize::from(p.fourth)));
    usize::from(p.command) + 256 * (usize::from(p.port) + 65536 * ip)
}

fn field_keeps(field: Field) -> usize
    ensures { (result ≡ field_keeps field) × FieldFits field }
{
    match field {
        Field::Address(command, kind) => usize::from(command) + 256 * usize::from(kind),
        Field::UserId(ports) | Field::Name(ports) => ports_number(ports),
        _ => 0,
    }
}

fn stage_keeps(stage: Stage) -> usize
    ensures { (result ≡ stage_keeps stage) × StageFits stage }
{
    match stage {
        Stage::Awaiting(field) => field_keeps(field),
        Stage::Asked(_) | Stage::Open(_) => 0,
        Stage::Failed(error) => usize::from(number(error)) + 256 * usize::from(status(error)),
    }
}

// The end is at another stage.
pub fn put_stage(s: &mut [u8], stage: Stage, kind: AddressKind)
    requires { length s.old ≡ 1539 }
    ensures { Rewrites (λ x. staged x stage kind) s.old s.new × StageFits stage }
{
    s[CODE_AT] = code_of(stage, authenticates_at(s[CODE_AT]), kind);
    put_eight(s, KEPT_AT, stage_keeps(stage) as u64);
}
