// F-3: the proxy's end of a SOCKS handshake: a value that is set up, fed with a client's pieces, answered for by its caller, and ended.

#![tactic(auto)]

ghost use Rattle.std.specs.Prelude.{◌≡◌, ◌≤◌, length};
ghost use Rattle.protocol.specs.Bound.{unbound};
ghost use Rattle.proxy_decisions.specs.wants.Counted.{Counted};
ghost use Rattle.proxy_decisions.specs.destination.Last.{target_as};
ghost use Rattle.proxy_spec.specs.End.{endpoint_of};
ghost use Rattle.proxy_session.specs.Server.{credential_of, text_of, setup_of, held_bytes, fresh, outcome, destination, wants};
ghost use Rattle.proxy_session.specs.Calls.{set_up, deliver, DeliverResult, answer, AnswerResult, end, ended_by};

use buffers::fields::credentials_too_long;
use buffers::write::copy;
use protocol::{AddressKind, Bound, CREDENTIAL, NAME_V4, Record, SocksError};
use proxy_decisions::credentials::Credentials;
use proxy_decisions::destination::{Target, as_target};
use proxy_delivery::delivery::receive;
use proxy_delivery::piece::Taken;
use proxy_replies::stages::{Outcome, has_destination};
use proxy_spec::{Field, Stage};

// A user or a password. The array has its count beside it: there is no heap, and the C form has both.
#[derive(Clone, Copy)]
pub struct Credential {
    pub len: u8,
    pub bytes: [u8; CREDENTIAL],
}

// What matters when. Awaiting: the first `held` bytes of `hold`, which are the undecided rest of a field. Asked and open: the first `held` bytes
// of `hold`, which are the destination, and `bound`, its kind and port. Failed: the stage alone. What it was set up with never changes.
#[derive(Clone, Copy)]
pub struct Server {
    pub stage: Stage,
    pub held: usize,
    pub hold: [u8; NAME_V4],
    pub bound: Bound,
    pub authenticates: bool,
    pub user: Credential,
    pub password: Credential,
}

// 01: each step takes the value and hands it back, with its answer beside it.
#[derive(Clone, Copy)]
pub struct SetUp {
    pub answer: Result<(), SocksError>,
    pub server: Server,
}

// as `SetUp`
#[derive(Clone, Copy)]
pub struct Delivered {
    pub answer: Result<(), SocksError>,
    pub used: usize,
    pub sent: usize,
    pub server: Server,
}

// as `SetUp`
#[derive(Clone, Copy)]
pub struct Answered {
    pub answer: Result<(), SocksError>,
    pub sent: usize,
    pub server: Server,
}

// as `SetUp`
#[derive(Clone, Copy)]
pub struct Ended {
    pub answer: Result<(), SocksError>,
    pub server: Server,
}

impl Credential {
    // A text of at most 255 bytes at the start of an array of zeros.
    fn new(text: &[u8]) -> Credential
        requires { length text.now ≤ 255 }
        ensures { result ≡ credential_of text.now }
    {
        let mut bytes = [0; CREDENTIAL];
        copy(&mut bytes, 0, text);
        Credential {
            len: text.len() as u8,
            bytes,
        }
    }

    fn text(&self) -> &[u8]
        ensures text { result.now ≡ text_of self.now }
        ensures counted { length result.now ≤ 255 }
    {
        &self.bytes[..usize::from(self.len)]
    }
}

// An end that holds nothing.
fn fresh(stage: Stage, authenticates: bool, user: Credential, password: Credential) -> Server
    ensures { result ≡ fresh stage authenticates user password }
{
    Server {
        stage,
        held: 0,
        hold: [0; NAME_V4],
        bound: Bound {
            kind: AddressKind::Ipv4,
            port: 0,
        },
        authenticates,
        user,
        password,
    }
}

// With credentials, or without, where user and password are not looked at. Refused if one has more than 255 bytes.
pub fn set_up(authenticates: bool, user: &[u8], password: &[u8]) -> SetUp
    ensures { result ≡ set_up authenticates user.now password.now }
{
    let none = Credential::new(&[]);
    if credentials_too_long(authenticates, user, password) {
        let error = SocksError::CredentialTooLong;
        return SetUp {
            answer: Err(error),
            server: fresh(Stage::Failed(error), false, none, none),
        };
    }
    let stage = Stage::Awaiting(Field::First);
    if !authenticates {
        return SetUp {
            answer: Ok(()),
            server: fresh(stage, false, none, none),
        };
    }
    let user = Credential::new(user);
    let password = Credential::new(password);
    SetUp {
        answer: Ok(()),
        server: fresh(stage, true, user, password),
    }
}

// The value where no destination was handed out.
pub fn no_target() -> Target
    ensures { result ≡ target_as unbound }
{
    Target {
        kind: AddressKind::Ipv4,
        len: 4,
        bytes: [0; NAME_V4],
        port: 0,
    }
}

impl Server {
    fn credentials(&self) -> Credentials<'_>
        ensures setup { result ≡ setup_of self.now }
        ensures counted { Counted result }
    {
        Credentials {
            authenticates: self.authenticates,
            user: self.user.text(),
            password: self.password.text(),
        }
    }

    fn held_bytes(&self) -> &[u8]
        ensures { result.now ≡ held_bytes self.now }
    {
        &self.hold[..self.held.min(NAME_V4)]
    }

    // Takes a client's piece, and puts what is said at the output's start. Refused unless bytes are awaited, or if the output has less than 262
    // bytes.
    pub fn deliver(self, piece: &[u8], out: &mut [u8]) -> Delivered
        ensures { DeliverResult (deliver self piece.now out.old) piece.now result out.new }
    {
        // locals lent, and one exit: with `self` lent, or two exits, the compiler copies the whole value more than once
        let mut hold = self.hold;
        let user = self.user;
        let password = self.password;
        let credentials = Credentials {
            authenticates: self.authenticates,
            user: user.text(),
            password: password.text(),
        };
        let (answer, taken) = match receive(
            self.stage,
            self.held,
            &credentials,
            &mut hold,
            piece,
            self.bound,
            out,
        ) {
            Ok(taken) => (Ok(()), taken),
            Err(error) => (
                Err(error),
                Taken {
                    stage: self.stage,
                    held: self.held,
                    used: 0,
                    sent: 0,
                    bound: self.bound,
                },
            ),
        };
        Delivered {
            answer,
            used: taken.used,
            sent: taken.sent,
            server: Server {
                stage: taken.stage,
                held: taken.held,
                hold,
                bound: taken.bound,
                authenticates: self.authenticates,
                user,
                password,
            },
        }
    }

    // The caller's answer to a destination: a status, and the address and port that are bound. Refused unless it is awaited, or if the output has
    // less than 262 bytes.
    pub fn answer(self, status: u8, bound: Record, port: u16, out: &mut [u8]) -> Answered
        ensures { AnswerResult (answer self status (endpoint_of bound port) out.old) result out.new }
    {
        let said = proxy_replies::stages::answer(self.stage, status, bound, port, out);
        Answered {
            answer: said.answer,
            sent: said.sent,
            server: Server {
                stage: said.stage,
                ..self
            },
        }
    }

    // The client's stream has ended: an end that waits has failed. Refused otherwise.
    pub fn end(self) -> Ended
        ensures { result ≡ ended_by (end self) }
    {
        // one exit, as in `deliver`
        let hold = self.hold;
        let (answer, stage, held) = match proxy_replies::stages::end(self.stage) {
            Ok(stage) => (Ok(()), stage, 0),
            Err(error) => (Err(error), self.stage, self.held),
        };
        Ended {
            answer,
            server: Server {
                stage,
                held,
                hold,
                bound: self.bound,
                authenticates: self.authenticates,
                user: self.user,
                password: self.password,
            },
        }
    }

    // Whether the end waits, awaits the caller's answer, is open, or has failed and with what.
    pub fn outcome(self) -> Outcome
        ensures { result ≡ outcome self }
    {
        proxy_replies::stages::outcome_at(self.stage)
    }

    // The destination that was handed out; of an end that neither awaits the caller's answer nor is open IPv4 zeros and port 0.
    pub fn destination(self) -> Target
        ensures { result ≡ destination self }
    {
        if has_destination(self.stage) {
            as_target(self.bound, self.held_bytes())
        } else {
            no_target()
        }
    }

    // How many bytes may be read without reading past the client's requests: as many as the shortest stream that leads to the question has or, where none
    // does, to a failure. Nothing unless it waits.
    pub fn wants(self) -> usize
        ensures { result ≡ wants self }
    {
        proxy_decisions::wants::wants(self.stage, &self.credentials(), self.held_bytes())
    }
}
