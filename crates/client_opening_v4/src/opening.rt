// 01, "Opening v4" and "v4 request", and F-7: preparing a session over SOCKS4 and SOCKS4A.
ghost use Rattle.std.specs.Prelude.{◌≡◌, cond, true, [], None, replicate};
ghost use Rattle.protocol.specs.Host.{strip};
ghost use Rattle.protocol.specs.AddressReading.{destination_of};
ghost use Rattle.protocol.specs.Opening.{v4, is_announcing, port_number};
ghost use Rattle.address_text.specs.ipv4.Answers.{address_text};
ghost use Rattle.lookup.specs.Chosen.{chosen_of, records_of};
ghost use Rattle.client_opening.specs.checks.Checks.{check_by4};
ghost use Rattle.client_session.specs.Calls.{prepared_by, prepare4};
ghost use Rattle.client_opening.specs.common.Asked.{asked_text, target4};
ghost use Rattle.client_opening.specs.common.Begun.{prepared_with};

use crate::kept::accept;
use address_text::ipv4::AddressText;
use client_opening::checks::check4;
use client_opening::common::{Begun, asked, prepared, refuse};
use client_opening::host::{looks_up, read_host};
use client_session::Prepared;
use lookup::choose;
use protocol::{AddressKind, Family, NAME_V4, REQUESTS, Record};
use requests::v4::announces_name;

// Over v4 a record of family four serves.
fn only_four(chosen: Option<Record>) -> Option<Record>
    ensures { result ≡ chosen_of true (records_of chosen) }
{
    chosen.filter(|record| matches!(record.family, Family::Four))
}

// Whether an address is asked for that announces a name.
fn is_announcing(asked: AddressText) -> bool
    ensures { result ≡ is_announcing (target4 asked []) }
{
    match asked.kind {
        AddressKind::Ipv4 => announces_name(asked.bytes),
        AddressKind::Ipv6 | AddressKind::Domain => false,
    }
}

// The checks, and what an accepted opening keeps.
pub fn begin(
    bytes: &mut [u8],
    local_dns: bool,
    host: &[u8],
    read: AddressText,
    port: Option<u16>,
    chosen: Option<Record>,
) -> Begun
    requires { bytes.old ≡ replicate 1024 0 }
    ensures { prepared_with result bytes.new ≡ prepared_by (check_by4 local_dns (strip host.now) read.kind port (records_of chosen) (is_announcing (target4 (asked_text read (cond local_dns (chosen_of true (records_of chosen)) None)) (strip host.now)))) (v4 (target4 (asked_text read (cond local_dns (chosen_of true (records_of chosen)) None)) (strip host.now)) (port_number port)) }
{
    let text = address_text::host::strip_ipv6_brackets(host);
    let four = only_four(chosen);
    let asked = asked(read, if local_dns { four } else { None });
    match check4(
        local_dns,
        text,
        read.kind,
        port,
        chosen,
        is_announcing(asked),
    ) {
        Ok(()) => accept(bytes, text, asked, port),
        Err(error) => refuse(error),
    }
}

// Preparing with what was read of the host, and the record chosen.
fn prepare_read(
    local_dns: bool,
    host: &[u8],
    read: AddressText,
    port: Option<u16>,
    chosen: Option<Record>,
) -> Prepared
    ensures { read ≡ address_text (destination_of (strip host.now)) → result ≡ prepare4 (record { local_dns = local_dns; host = host.now; port = port; records = records_of chosen }) }
{
    let mut bytes = [0u8; REQUESTS];
    let begun = begin(&mut bytes, local_dns, host, read, port, chosen);
    prepared(begun, bytes)
}

// `prepare` for a caller that has chosen the record, or has none.
pub fn prepare_chosen(
    local_dns: bool,
    host: &[u8],
    port: Option<u16>,
    chosen: Option<Record>,
) -> Prepared
    ensures { result ≡ prepare4 (record { local_dns = local_dns; host = host.now; port = port; records = records_of chosen }) }
{
    prepare_read(local_dns, host, read_host(host), port, chosen)
}

// Prepares a session over SOCKS4: all is checked and kept, and nothing is sent before its start.
// Of the lookup's answers the first of family four is taken, and none is read unless a name is to be looked up.
pub fn prepare(local_dns: bool, host: &[u8], port: Option<u16>, records: &[Record]) -> Prepared
    ensures { result ≡ prepare4 (record { local_dns = local_dns; host = host.now; port = port; records = records.now }) }
{
    let read = read_host(host);
    let most = if looks_up(local_dns, host, read, NAME_V4) {
        usize::MAX
    } else {
        0
    };
    let chosen = choose(records, most, true);
    prepare_read(local_dns, host, read, port, chosen)
}
