// F-10: what captures are answered behind preparing.
ghost use Rattle.std.specs.Prelude.{◌≡◌};
ghost use Rattle.captures.specs.Calls.{checked, compared};

use crate::alike::alike;
use crate::entries::check_whole;
use crate::walk::holds;
use client_session::Prepared;
use protocol::SocksError;

pub fn check(prepared: Prepared, capture: &[u8]) -> Result<(), SocksError>
    ensures { result ≡ checked prepared capture.now }
{
    prepared.answer?;
    check_whole(capture)?;
    if !holds(prepared.session, capture) {
        return Err(SocksError::CaptureNotAccepted);
    }
    Ok(())
}

pub fn compare(prepared: Prepared, first: &[u8], second: &[u8]) -> Result<bool, SocksError>
    ensures { result ≡ compared prepared first.now second.now }
{
    prepared.answer?;
    check_whole(first)?;
    check_whole(second)?;
    if !holds(prepared.session, first) {
        return Err(SocksError::CaptureNotAccepted);
    }
    Ok(alike(first, second))
}
