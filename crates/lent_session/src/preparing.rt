// 01, "Opening v5" and "Opening v4", and F-7: preparing a session in lent bytes, which are cleared before. The options, the port and the records are numbers and bytes.
ghost use Rattle.std.specs.Prelude.{◌≡◌, ℕ, List, ◌++◌, length, replicate};
ghost use Rattle.protocol.specs.Numbers.{answer_number};
ghost use Rattle.client_opening.specs.common.Begun.{prepared_with};
ghost use Rattle.client_stages.specs.declared.due.Requests.{Requests};
ghost use Rattle.client_session.specs.Calls.{fresh, prepare5, prepare4};
ghost use Rattle.lent_session.specs.State.{state_of};
ghost use Rattle.lent_session.specs.Calls.{Prepares};
ghost use Rattle.lent_session.specs.preparing.Blank.{unstaged};
ghost use Rattle.lent_session.specs.Given.{config_of, given5, given4};

use crate::state::{
    AUTHENTICATION_AT, CODE_AT, ERROR_AT, FIRST_AT, PROXY_AT, STATUS_AT, reply_number,
};
use client_opening::common::Begun;
use client_opening::host::read_host;
use client_stages::due::Stage;
use error_numbers::{answer_number, number, status};
use lent_numbers::bytes::put_two;
use protocol::SocksConfig;
use raw_numbers::{bit, port_of, truth};
use raw_records::found;

// The options of a session over v5: 0 is no, any other number yes.
#[repr(C)]
#[derive(Clone, Copy)]
pub struct RawConfig {
    pub proxy_auth: u8,
    pub local_dns: u8,
    pub optimistic: u8,
}

pub fn config_of(raw: RawConfig) -> SocksConfig
    ensures { result ≡ config_of raw }
{
    SocksConfig {
        proxy_auth: truth(raw.proxy_auth),
        local_dns: truth(raw.local_dns),
        optimistic: truth(raw.optimistic),
    }
}

pub fn clear(s: &mut [u8])
    ensures { s.new ≡ replicate (length s.old) 0 }
{
    s.fill(0);
}

// The stage that preparing came to.
fn put_stage(s: &mut [u8], stage: Stage, optimistic: bool)
    requires { length s.old ≡ 1306 }
    ensures { (q : Requests) → q.lengths.optimistic ≡ optimistic → s.old ≡ unstaged (fresh stage q) → s.new ≡ state_of (fresh stage q) }
{
    match stage {
        Stage::Awaiting(reply) => {
            s[CODE_AT] = reply_number(reply) + 16 * bit(optimistic);
        }
        Stage::Open => {
            s[CODE_AT] = 7 + 16 * bit(optimistic);
        }
        Stage::Failed(error) => {
            s[CODE_AT] = 16 * bit(optimistic);
            s[ERROR_AT] = number(error);
            s[STATUS_AT] = status(error);
        }
    }
}

// What preparing came to, beside the requests, in bytes that were cleared.
fn keep(s: &mut [u8], begun: Begun) -> u8
    requires { length s.old ≡ 1306 }
    ensures value { result ≡ answer_number begun.answer }
    ensures s_after { (bytes : List ℕ) → s.old ≡ replicate 282 0 ++ bytes → s.new ≡ state_of (prepared_with begun bytes).session }
{
    let lengths = begun.lengths;
    put_two(s, FIRST_AT, lengths.first);
    put_two(s, AUTHENTICATION_AT, lengths.authentication);
    put_two(s, PROXY_AT, lengths.proxy);
    put_stage(s, begun.stage, lengths.optimistic);
    answer_number(begun.answer)
}

// Prepares a session over SOCKS5. A port above 65535 is none. `records` is an array of records, of 17 bytes each.
pub fn prepare5(
    s: &mut [u8],
    config: RawConfig,
    host: &[u8],
    port: u32,
    user: &[u8],
    password: &[u8],
    records: &[u8],
) -> u8
    requires { length s.old ≡ 1306 }
    ensures { Prepares (prepare5 (given5 config host.now port user.now password.now records.now)) result s.new }
{
    let read = read_host(host);
    clear(s);
    let begun = client_opening_v5::opening::begin(
        &mut s[282..],
        config_of(config),
        host,
        read,
        port_of(port),
        user,
        password,
        found(records, false),
    );
    keep(s, begun)
}

// Prepares a session over SOCKS4, or SOCKS4a for a name.
pub fn prepare4(s: &mut [u8], local_dns: u8, host: &[u8], port: u32, records: &[u8]) -> u8
    requires { length s.old ≡ 1306 }
    ensures { Prepares (prepare4 (given4 local_dns host.now port records.now)) result s.new }
{
    let read = read_host(host);
    clear(s);
    let begun = client_opening_v4::opening::begin(
        &mut s[282..],
        truth(local_dns),
        host,
        read,
        port_of(port),
        found(records, true),
    );
    keep(s, begun)
}
