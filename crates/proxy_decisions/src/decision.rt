// F-3: what follows a whole field of a client's requests: what the end says, and which field it then awaits, or how it stands.
#![tactic(auto, unfolding(crate::specs::decision::Due::due_at))]

ghost use Rattle.std.specs.Prelude.{◌≡◌};
ghost use Rattle.proxy_decisions.specs.decision.Due.{goes_to, fails_with, asks_in, behind_greeting, due_first, due_methods, due_password, due_head, due_address, due_request, due_user_id, due_at};

use crate::credentials::Credentials;
use crate::tests::{announces_name, is_known, offers, ports_of, same};
use protocol::{SocksError, Version};
use proxy_requests::unread::Unread;
use proxy_spec::{Field, Ports, Says, Stage};

// What is said, and the stage behind it. In what follows `bytes` are those of a whole field, and no others.
#[derive(Clone, Copy)]
pub struct Due {
    pub stage: Stage,
    pub says: Says,
}

// Nothing is said, and another field awaited.
fn goes_to(field: Field) -> Due
    ensures { result ≡ goes_to field }
{
    Due {
        stage: Stage::Awaiting(field),
        says: Says::Nothing,
    }
}

fn fails(error: SocksError, says: Says) -> Due
    ensures { result ≡ fails_with error says }
{
    Due {
        stage: Stage::Failed(error),
        says,
    }
}

// A destination is handed out.
fn asks(version: Version) -> Due
    ensures { result ≡ asks_in version }
{
    Due {
        stage: Stage::Asked(version),
        says: Says::Nothing,
    }
}

fn judge_first(bytes: &Unread) -> Due
    ensures { result ≡ due_first bytes.now }
{
    goes_to(if bytes.byte(0) == 0x05 {
        Field::Methods
    } else {
        Field::Request
    })
}

// What is awaited behind the greeting.
fn behind_greeting(authenticates: bool) -> Field
    ensures { result ≡ behind_greeting authenticates }
{
    if authenticates {
        Field::User
    } else {
        Field::Head
    }
}

fn judge_methods(authenticates: bool, bytes: &Unread) -> Due
    ensures { result ≡ due_methods authenticates bytes.now }
{
    let method = if authenticates { 0x02 } else { 0x00 };
    if offers(method, bytes) {
        return Due {
            stage: Stage::Awaiting(behind_greeting(authenticates)),
            says: Says::Method(method),
        };
    }
    fails(SocksError::Unsupported, Says::Method(0xFF))
}

fn judge_password(right: bool, password: &[u8], bytes: &Unread) -> Due
    ensures { result ≡ due_password right password.now bytes.now }
{
    if right && same(bytes, 1, password) {
        return Due {
            stage: Stage::Awaiting(Field::Head),
            says: Says::Login(0x00),
        };
    }
    fails(SocksError::WrongCredentials, Says::Login(0x01))
}

fn judge_head(bytes: &Unread) -> Due
    ensures { result ≡ due_head bytes.now }
{
    let kind = bytes.byte(3);
    if is_known(kind) {
        return goes_to(Field::Address(bytes.byte(1), kind));
    }
    fails(SocksError::Command(8), Says::Reply5(8))
}

fn judge_address(command: u8) -> Due
    ensures { result ≡ due_address command }
{
    if command == 1 {
        return asks(Version::V5);
    }
    fails(SocksError::Command(7), Says::Reply5(7))
}

// A whole v4 request: credentials are judged ahead of the command.
fn judge_request(authenticates: bool, command: u8) -> Due
    ensures { result ≡ due_request authenticates command }
{
    if authenticates {
        return fails(SocksError::WrongCredentials, Says::Reply4(91));
    }
    if command == 1 {
        return asks(Version::V4);
    }
    fails(SocksError::Command(91), Says::Reply4(91))
}

fn judge_user_id(authenticates: bool, ports: Ports) -> Due
    ensures { result ≡ due_user_id authenticates ports }
{
    if announces_name(ports) {
        return goes_to(Field::Name(ports));
    }
    judge_request(authenticates, ports.command)
}

pub fn judge(field: Field, credentials: &Credentials, bytes: &Unread) -> Due
    ensures { result ≡ due_at credentials.now field bytes.now }
{
    match field {
        Field::First => judge_first(bytes),
        Field::Methods => judge_methods(credentials.authenticates, bytes),
        Field::User => goes_to(Field::Password(same(bytes, 2, credentials.user))),
        Field::Password(right) => judge_password(right, credentials.password, bytes),
        Field::Head => judge_head(bytes),
        Field::Address(command, _) => judge_address(command),
        Field::Request => goes_to(Field::UserId(ports_of(bytes))),
        Field::UserId(ports) => judge_user_id(credentials.authenticates, ports),
        Field::Name(ports) => judge_request(credentials.authenticates, ports.command),
    }
}
