// 01, "Opening v5" and "v5 requests", and F-7: preparing a session over SOCKS5.
ghost use Rattle.std.specs.Prelude.{◌≡◌, cond, None, replicate};
ghost use Rattle.protocol.specs.Host.{strip};
ghost use Rattle.protocol.specs.AddressReading.{destination_of};
ghost use Rattle.protocol.specs.Opening.{v5, credentials_if, port_number};
ghost use Rattle.address_text.specs.ipv4.Answers.{address_text};
ghost use Rattle.lookup.specs.Chosen.{records_of};
ghost use Rattle.client_opening.specs.checks.Checks.{check_by5};
ghost use Rattle.client_session.specs.Calls.{prepared_by, prepare5};
ghost use Rattle.client_opening.specs.common.Asked.{asked_text, target5};
ghost use Rattle.client_opening.specs.common.Begun.{prepared_with};

use crate::kept::accept;
use address_text::ipv4::AddressText;
use client_opening::checks::check5;
use client_opening::common::{Begun, asked, prepared, refuse};
use client_opening::host::{looks_up, read_host};
use client_session::Prepared;
use lookup::choose;
use protocol::{NAME_V5, REQUESTS, Record, SocksConfig};

// The checks, and what an accepted opening keeps.
pub fn begin(
    bytes: &mut [u8],
    config: SocksConfig,
    host: &[u8],
    read: AddressText,
    port: Option<u16>,
    user: &[u8],
    password: &[u8],
    chosen: Option<Record>,
) -> Begun
    requires { bytes.old ≡ replicate 1024 0 }
    ensures { prepared_with result bytes.new ≡ prepared_by (check_by5 config (strip host.now) read.kind port user.now password.now (records_of chosen)) (v5 (credentials_if config.proxy_auth user.now password.now) (target5 (asked_text read (cond config.local_dns chosen None)) (strip host.now)) (port_number port) config.optimistic) }
{
    let text = address_text::host::strip_ipv6_brackets(host);
    match check5(config, text, read.kind, port, user, password, chosen) {
        Ok(()) => {
            let found = if config.local_dns { chosen } else { None };
            accept(
                bytes,
                config,
                text,
                asked(read, found),
                port,
                user,
                password,
            )
        }
        Err(error) => refuse(error),
    }
}

// Preparing with what was read of the host, and the record chosen.
fn prepare_read(
    config: SocksConfig,
    host: &[u8],
    read: AddressText,
    port: Option<u16>,
    user: &[u8],
    password: &[u8],
    chosen: Option<Record>,
) -> Prepared
    ensures { read ≡ address_text (destination_of (strip host.now)) → result ≡ prepare5 (record { config = config; host = host.now; port = port; user = user.now; password = password.now; records = records_of chosen }) }
{
    let mut bytes = [0u8; REQUESTS];
    let begun = begin(&mut bytes, config, host, read, port, user, password, chosen);
    prepared(begun, bytes)
}

// `prepare` for a caller that has chosen the record, or has none.
pub fn prepare_chosen(
    config: SocksConfig,
    host: &[u8],
    port: Option<u16>,
    user: &[u8],
    password: &[u8],
    chosen: Option<Record>,
) -> Prepared
    ensures { result ≡ prepare5 (record { config = config; host = host.now; port = port; user = user.now; password = password.now; records = records_of chosen }) }
{
    prepare_read(config, host, read_host(host), port, user, password, chosen)
}

// Prepares a session over SOCKS5: all is checked and kept, and nothing is sent before its start.
// Of the lookup's answers the first record is taken, and none is read unless a name is to be looked up.
pub fn prepare(
    config: SocksConfig,
    host: &[u8],
    port: Option<u16>,
    user: &[u8],
    password: &[u8],
    records: &[Record],
) -> Prepared
    ensures { result ≡ prepare5 (record { config = config; host = host.now; port = port; user = user.now; password = password.now; records = records.now }) }
{
    let read = read_host(host);
    let most = if looks_up(config.local_dns, host, read, NAME_V5) {
        1
    } else {
        0
    };
    let chosen = choose(records, most, false);
    prepare_read(config, host, read, port, user, password, chosen)
}
