// Preparing for programs in C and Rust: the options, the port and the records as numbers and bytes.

#![tactic(auto)]

ghost use Rattle.std.specs.Prelude.{◌≡◌};
ghost use Rattle.client_session.specs.Calls.{prepare5, prepare4};
ghost use Rattle.raw_openings.specs.Given.{config_of, given5, given4, prepared_step};

use client_session::Prepared;
use protocol::SocksConfig;
use raw_numbers::{port_of, truth};
use raw_records::found;
use raw_session::{RawStep, step};

// The options of a session over v5: 0 is no, any other number yes.
#[repr(C)]
#[derive(Clone, Copy)]
pub struct RawConfig {
    pub proxy_auth: u8,
    pub local_dns: u8,
    pub optimistic: u8,
}

fn config_of(raw: RawConfig) -> SocksConfig
    ensures { result ≡ config_of raw }
{
    SocksConfig {
        proxy_auth: truth(raw.proxy_auth),
        local_dns: truth(raw.local_dns),
        optimistic: truth(raw.optimistic),
    }
}

fn prepared_step(prepared: Prepared) -> RawStep
    ensures { result ≡ prepared_step prepared }
{
    step(prepared.answer, prepared.session, 0, 0)
}

// Prepares a session over SOCKS5. A port above 65535 is none. `records` is an array of records, of 17 bytes each.
pub fn prepare5(
    config: RawConfig,
    host: &[u8],
    port: u32,
    user: &[u8],
    password: &[u8],
    records: &[u8],
) -> RawStep
    ensures { result ≡ prepared_step (prepare5 (given5 config host.now port user.now password.now records.now)) }
{
    prepared_step(client_opening_v5::opening::prepare_chosen(
        config_of(config),
        host,
        port_of(port),
        user,
        password,
        found(records, false),
    ))
}

// Prepares a session over SOCKS4, or SOCKS4a for a name.
pub fn prepare4(local_dns: u8, host: &[u8], port: u32, records: &[u8]) -> RawStep
    ensures { result ≡ prepared_step (prepare4 (given4 local_dns host.now port records.now)) }
{
    prepared_step(client_opening_v4::opening::prepare_chosen(
        truth(local_dns),
        host,
        port_of(port),
        found(records, true),
    ))
}
