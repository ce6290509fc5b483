// 01, "The call: the session": the client's side of a SOCKS handshake: a session that is prepared, started, fed with pieces, and ended.

#![tactic(auto)]

ghost use Rattle.std.specs.Prelude.{◌≡◌, ◌≤◌, length, IsOk};
ghost use Rattle.protocol.specs.declared.Outcome.TheVariants as Outcome;
ghost use Rattle.client_session.specs.Session.{outcome, wants, bound, write_bound};
ghost use Rattle.address_format.specs.endpoint.Written.{TextResult};
ghost use Rattle.client_session.specs.Calls.{StartResult, start, DeliverResult, deliver, ended_by, end};

use address_format::endpoint::put_bound;
use buffers::write::copy;
use client_delivery::delivery::{receive, send, unchanged};
use client_stages::due::{Requests, Stage};
use client_stages::outcome::is_open;
use protocol::{Address, Bound, HOLD, Outcome, SocksError};

// What matters when. Prepared, which is awaiting and not started: `requests`, of which a start sends the first. Awaiting and started: the
// first `held` bytes of `hold`, which are the undecided rest of a reply, and those of `requests` that are still due. Open: the first `held`
// bytes of `hold`, which are the bound address, and `bound`, its kind and port. Failed: the stage alone. The requests never change.
// `attempts` counts from preparing on, at every stage.
#[derive(Clone, Copy)]
pub struct Session {
    pub stage: Stage,
    pub started: bool,
    pub held: usize,
    pub hold: [u8; HOLD],
    pub bound: Bound,
    pub attempts: u64,
    pub requests: Requests,
}

// Answer and session by value, also on a refusal: each step hands the session back (01, "Where to use each form").
#[derive(Clone, Copy)]
pub struct Prepared {
    pub answer: Result<(), SocksError>,
    pub session: Session,
}

// as `Prepared`
#[derive(Clone, Copy)]
pub struct Started {
    pub answer: Result<(), SocksError>,
    pub sent: usize,
    pub session: Session,
}

// as `Prepared`
#[derive(Clone, Copy)]
pub struct Delivered {
    pub answer: Result<(), SocksError>,
    pub used: usize,
    pub sent: usize,
    pub session: Session,
}

// as `Prepared`
#[derive(Clone, Copy)]
pub struct Ended {
    pub answer: Result<(), SocksError>,
    pub session: Session,
}

impl Session {
    // Sends the first request, or all, from the output's start. Refused if the session is settled, or has been started, or the output has
    // less than 778 bytes over v5, or 1,024 over v4.
    pub fn start(self, out: &mut [u8]) -> Started
        ensures { StartResult (start self out.old) result out.new }
    {
        // one exit, as in `deliver`
        let requests = self.requests;
        let hold = self.hold;
        let (answer, sent, started) = match client_stages::start::start(
            self.stage,
            self.started,
            requests.lengths,
            out.len(),
        ) {
            Ok(sent) => (Ok(()), sent, true),
            Err(error) => (Err(error), 0, self.started),
        };
        copy(out, 0, &requests.bytes[..sent]);
        Started {
            answer,
            sent,
            session: Session {
                stage: self.stage,
                started,
                held: self.held,
                hold,
                bound: self.bound,
                attempts: self.attempts,
                requests,
            },
        }
    }

    // Takes a piece, and puts what it makes due at the output's start. Refused if the session is settled, or not started, or the output has less
    // than 778 bytes over v5, or 262 over v4.
    pub fn deliver(self, piece: &[u8], out: &mut [u8]) -> Delivered
        ensures { DeliverResult (deliver self piece.now out.old) piece.now result out.new }
    {
        // one exit, and the requests lent from a copy that is made only where something is sent: otherwise the compiler copies the session
        // more than once
        let mut hold = self.hold;
        let (answer, taken) = match receive(
            self.stage,
            self.started,
            self.held,
            self.requests.lengths,
            &mut hold,
            piece,
            out.len(),
            self.bound,
        ) {
            Ok(taken) => (Ok(()), taken),
            Err(error) => (Err(error), unchanged(self.stage, self.held, self.bound)),
        };
        if 0 < taken.sent {
            let requests = self.requests;
            send(&requests, taken.from, taken.sent, out);
        }
        let requests = self.requests;
        Delivered {
            answer,
            used: taken.used,
            sent: taken.sent,
            session: Session {
                stage: taken.stage,
                started: self.started,
                held: taken.held,
                hold,
                bound: taken.bound,
                attempts: self.attempts.wrapping_add(taken.attempts),
                requests,
            },
        }
    }

    // The stream has ended: a session that waits has failed. Refused if it is settled, or not started.
    pub fn end(self) -> Ended
        ensures { result ≡ ended_by (end self) }
    {
        // one exit, as in `deliver`
        let requests = self.requests;
        let hold = self.hold;
        let (answer, stage, held) = match client_stages::outcome::end(self.stage, self.started) {
            Ok(stage) => (Ok(()), stage, 0),
            Err(error) => (Err(error), self.stage, self.held),
        };
        Ended {
            answer,
            session: Session {
                stage,
                started: self.started,
                held,
                hold,
                bound: self.bound,
                attempts: self.attempts,
                requests,
            },
        }
    }

    // Whether the session waits, is open, or has failed and with what.
    pub fn outcome(self) -> Outcome
        ensures { result ≡ outcome self }
    {
        client_stages::outcome::outcome(self.stage)
    }

    // How many bytes may be read without reading past the handshake: up to so many, never wait for so many. 0 unless the session is started
    // and waits.
    pub fn wants(self) -> usize
        ensures { result ≡ wants self }
    {
        client_delivery::wants::wants(self.stage, self.started, self.held, &self.hold)
    }

    // The address and port that the proxy's last reply named; of a session that is not open IPv4 zeros and port 0.
    pub fn bound(self) -> Address
        ensures { result ≡ bound self }
    {
        if !is_open(self.stage) {
            return client_delivery::bound_address::unbound();
        }
        let n = self.held.min(HOLD);
        client_delivery::bound_address::address(self.bound, &self.hold[..n])
    }

    // The bound address as text, at the buffer's start. Refused if the session is not open, or the buffer is shorter than the text, which has
    // at most 261 bytes.
    pub fn bound_text(self, text: &mut [u8]) -> Result<usize, SocksError>
        ensures text_result { TextResult (write_bound self text.old) result text.new }
        ensures enough { outcome self ≡ Outcome.Open → 261 ≤ length text.old → IsOk result }
    {
        if !is_open(self.stage) {
            return Err(SocksError::NotOpen);
        }
        put_bound(self.bound(), text)
    }

    // For each accepted delivery of a nonempty piece the replies decided in it, and one more if it ended waiting.
    pub fn attempts(self) -> u64
        ensures { result ≡ self.attempts }
    {
        self.attempts
    }
}
