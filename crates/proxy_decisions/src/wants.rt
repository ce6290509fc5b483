// How many bytes the proxy's end wants: by the stage, the bytes held of a field, and what the end was set up with.
#![tactic(auto, unfolding(proxy_spec::specs::Shortest::wants_at, proxy_spec::specs::Shortest::agrees))]

ghost use Rattle.std.specs.Prelude.{◌≡◌, cond, not, ◌&&◌, ◌≤◌, length, eqb};
ghost use Rattle.protocol.specs.Bytes as bytes;
ghost use Rattle.protocol.specs.Bound.{unbound};
ghost use Rattle.proxy_spec.specs.Shortest as shortest;
ghost use Rattle.proxy_decisions.specs.decision.Due.{session_at};
ghost use Rattle.proxy_decisions.specs.wants.Counted.{Counted};

use crate::credentials::Credentials;
use crate::tests::announces_name;
use protocol::USER_ID;
use proxy_spec::{Field, Ports, Stage};

// A held byte; 0 behind them.
fn held_byte(held: &[u8], i: usize) -> usize
    ensures { (result ≡ bytes.byte held.now i) × (result ≤ 255) }
{
    usize::from(held.get(i).copied().unwrap_or(0))
}

// What the held bytes lack to n: one at the least.
fn lacking(n: usize, held: &[u8]) -> usize
    ensures { result ≡ shortest.lacking n held.now }
{
    n.saturating_sub(held.len()).max(1)
}

fn from_password(password: &[u8]) -> usize
    requires { length password.now ≤ 255 }
    ensures { (result ≡ shortest.from_password password.now) × (result ≤ 264) }
{
    1 + password.len() + 8
}

fn from_user(credentials: &Credentials) -> usize
    requires { Counted credentials.now }
    ensures { (result ≡ shortest.from_user credentials.now.user credentials.now.password) × (result ≤ 521) }
{
    2 + credentials.user.len() + from_password(credentials.password)
}

// `Counted` stays a clause: `judge`, `work` and `receive` take texts of any length.
// Behind a greeting.
fn from_login(credentials: &Credentials) -> usize
    requires { Counted credentials.now }
    ensures { (result ≡ shortest.from_login credentials.now) × (result ≤ 521) }
{
    if credentials.authenticates {
        from_user(credentials)
    } else {
        8
    }
}

// Whether the held bytes may still become a text, whose length stands at a place.
fn agrees(at: usize, held: &[u8], text: &[u8]) -> bool
    requires { at ≤ 1 }
    ensures { result ≡ shortest.agrees at held.now text.now }
{
    match held.get(at) {
        Some(&len) => usize::from(len) == text.len() && text.starts_with(&held[at + 1..]),
        None => true,
    }
}

// With credentials set only v5 leads to a question.
fn wants_first(credentials: &Credentials) -> usize
    requires { Counted credentials.now }
    ensures { result ≡ shortest.wants_first credentials.now }
{
    if credentials.authenticates {
        3 + from_user(credentials)
    } else {
        9
    }
}

fn wants_methods(credentials: &Credentials, held: &[u8]) -> usize
    requires { Counted credentials.now }
    ensures { result ≡ shortest.wants_methods credentials.now held.now }
{
    let count = if held.is_empty() {
        2
    } else {
        1 + held_byte(held, 0)
    };
    lacking(count + from_login(credentials), held)
}

// A user other than the one that is set fails behind a password.
fn wants_user(credentials: &Credentials, held: &[u8]) -> usize
    requires { Counted credentials.now }
    ensures { result ≡ shortest.wants_user credentials.now.user credentials.now.password held.now }
{
    if agrees(1, held, credentials.user) {
        lacking(from_user(credentials), held)
    } else {
        lacking(3 + held_byte(held, 1), held)
    }
}

// By whether the user was right and the password may be.
fn wants_password(right: bool, password: &[u8], held: &[u8]) -> usize
    requires { length password.now ≤ 255 }
    ensures { result ≡ shortest.wants_password password.now right held.now }
{
    if right && agrees(0, held, password) {
        lacking(from_password(password), held)
    } else {
        lacking(1 + held_byte(held, 0), held)
    }
}

// A command other than 1 fails at the next byte.
fn wants_head(held: &[u8]) -> usize
    ensures { result ≡ shortest.wants_head held.now }
{
    if 2 <= held.len() && held_byte(held, 1) != 1 {
        1
    } else {
        lacking(8, held)
    }
}

fn address_size(command: u8, kind: u8, held: &[u8]) -> usize
    ensures { result ≡ shortest.address_size command kind held.now }
{
    match kind {
        0x01 => 6,
        0x04 => 18,
        _ if !held.is_empty() => 3 + held_byte(held, 0),
        _ if command == 1 => 4,
        _ => 1,
    }
}

// Whether a whole v4 request is asked for.
fn takes_v4(authenticates: bool, command: u8) -> bool
    ensures { result ≡ not authenticates && eqb command 1 }
{
    !authenticates && command == 1
}

fn wants_user_id(authenticates: bool, ports: Ports, held: &[u8]) -> usize
    ensures { result ≡ shortest.wants_user_id authenticates ports held.now }
{
    if !announces_name(ports) {
        1
    } else if takes_v4(authenticates, ports.command) {
        3
    } else if USER_ID <= held.len() {
        1
    } else {
        2
    }
}

fn wants_name(authenticates: bool, ports: Ports, held: &[u8]) -> usize
    ensures { result ≡ shortest.wants_name authenticates ports held.now }
{
    if takes_v4(authenticates, ports.command) && held.len() < 1 {
        2
    } else {
        1
    }
}

fn wants_at(field: Field, credentials: &Credentials, held: &[u8]) -> usize
    requires { Counted credentials.now }
    ensures { result ≡ shortest.wants_at credentials.now field held.now }
{
    match field {
        Field::First => wants_first(credentials),
        Field::Methods => wants_methods(credentials, held),
        Field::User => wants_user(credentials, held),
        Field::Password(right) => wants_password(right, credentials.password, held),
        Field::Head => wants_head(held),
        Field::Address(command, kind) => lacking(address_size(command, kind, held), held),
        Field::Request => lacking(8, held),
        Field::UserId(ports) => wants_user_id(credentials.authenticates, ports, held),
        Field::Name(ports) => wants_name(credentials.authenticates, ports, held),
    }
}

// Nothing unless it waits.
pub fn wants(stage: Stage, credentials: &Credentials, held: &[u8]) -> usize
    requires { Counted credentials.now }
    ensures { result ≡ shortest.wants_by credentials.now (session_at stage unbound held.now) }
{
    match stage {
        Stage::Awaiting(field) => wants_at(field, credentials, held),
        Stage::Asked(_) | Stage::Open(_) | Stage::Failed(_) => 0,
    }
}
