// The calls that move a session of numbers and arrays, each the library's on the session that they mean.

#![tactic(auto)]

ghost use Rattle.std.specs.Prelude.{◌≡◌};
ghost use Rattle.client_session.specs.Calls.{start, deliver, end};
ghost use Rattle.raw_session.specs.Raw.{session_of};
ghost use Rattle.raw_calls.specs.Calls.{step_by, Says};

use raw_session::{RawSession, RawStep, session_of, step};

pub fn start(session: RawSession, out: &mut [u8]) -> RawStep
    ensures { Says (start (session_of session) out.old) result out.new }
{
    let made = session_of(session).start(out);
    step(made.answer, made.session, 0, made.sent)
}

pub fn deliver(session: RawSession, piece: &[u8], out: &mut [u8]) -> RawStep
    ensures { Says (deliver (session_of session) piece.now out.old) result out.new }
{
    let made = session_of(session).deliver(piece, out);
    step(made.answer, made.session, made.used, made.sent)
}

pub fn end(session: RawSession) -> RawStep
    ensures { result ≡ step_by (end (session_of session)) }
{
    let made = session_of(session).end();
    step(made.answer, made.session, 0, 0)
}
