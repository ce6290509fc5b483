// F-3 and F-7: setting up a proxy's end in lent bytes, which are cleared before, and wiping one.
ghost use Rattle.std.specs.Prelude.{◌≡◌, ◌≤◌, length, replicate};
ghost use Rattle.proxy_session.specs.Calls.{set_up};
ghost use Rattle.raw_numbers.specs.Numbers.{truth};
ghost use Rattle.lent_proxy.specs.State.{state_of};
ghost use Rattle.lent_proxy.specs.Calls.{SetsUp};
ghost use Rattle.lent_proxy.specs.setting_up.Kept.{waits, Keeps};

use crate::state::{CODE_AT, PASSWORD_AT, PASSWORD_LEN_AT, USER_AT, USER_LEN_AT, put_stage};
use buffers::fields::credentials_too_long;
use buffers::write::copy;
use error_numbers::number;
use protocol::{AddressKind, SocksError};
use proxy_spec::Stage;
use raw_numbers::truth;

fn clear(s: &mut [u8])
    ensures { s.new ≡ replicate (length s.old) 0 }
{
    s.fill(0);
}

// An end that holds nothing, and knows no credentials.
fn begin(s: &mut [u8])
    requires { length s.old ≡ 1539 }
    ensures { s.new ≡ state_of waits }
{
    clear(s);
    s[CODE_AT] = 1;
}

// It authenticates.
fn keep(s: &mut [u8], user: &[u8], password: &[u8])
    requires { (length s.old ≡ 1539) × (s.old ≡ state_of waits) × (length user.now ≤ 255) × (length password.now ≤ 255) }
    ensures { Keeps user.now password.now s.new }
{
    s[CODE_AT] = 17;
    s[USER_LEN_AT] = (user.len() % 256) as u8;
    s[PASSWORD_LEN_AT] = (password.len() % 256) as u8;
    copy(s, USER_AT, user);
    copy(s, PASSWORD_AT, password);
}

// Sets up an end, with credentials unless `authenticates` is 0. Whatever stood there goes, also where it is refused.
pub fn set_up(s: &mut [u8], authenticates: u8, user: &[u8], password: &[u8]) -> u8
    requires { length s.old ≡ 1539 }
    ensures { SetsUp (set_up (truth authenticates) user.now password.now) result s.new }
{
    begin(s);
    let with = truth(authenticates);
    if credentials_too_long(with, user, password) {
        let error = SocksError::CredentialTooLong;
        put_stage(s, Stage::Failed(error), AddressKind::Ipv4);
        return number(error);
    }
    if with {
        keep(s, user, password);
        return 0;
    }
    0
}

// Nothing is left of it.
pub fn wipe(s: &mut [u8])
    requires { length s.old ≡ 1539 }
    ensures { s.new ≡ replicate 1539 0 }
{
    clear(s);
}
