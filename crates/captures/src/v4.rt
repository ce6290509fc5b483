// F-10: captures of a handshake over SOCKS4 and SOCKS4A.
ghost use Rattle.std.specs.Prelude.{◌≡◌};
ghost use Rattle.lookup.specs.Chosen.{records_of};
ghost use Rattle.captures.specs.Calls.{check4, compare4};

use crate::judge;
use protocol::{Record, SocksError};

// `check` for a caller that has chosen the record, or has none.
pub fn check_chosen(
    local_dns: bool,
    host: &[u8],
    port: Option<u16>,
    chosen: Option<Record>,
    capture: &[u8],
) -> Result<(), SocksError>
    ensures { result ≡ check4 (record { local_dns = local_dns; host = host.now; port = port; records = records_of chosen }) capture.now }
{
    let prepared = client_opening_v4::opening::prepare_chosen(local_dns, host, port, chosen);
    judge::check(prepared, capture)
}

// Whether a capture is a lawful handshake of the session that `prepare` with the same arguments gives.
pub fn check(
    local_dns: bool,
    host: &[u8],
    port: Option<u16>,
    records: &[Record],
    capture: &[u8],
) -> Result<(), SocksError>
    ensures { result ≡ check4 (record { local_dns = local_dns; host = host.now; port = port; records = records.now }) capture.now }
{
    let prepared = client_opening_v4::opening::prepare(local_dns, host, port, records);
    judge::check(prepared, capture)
}

// `compare` for a caller that has chosen the record, or has none.
pub fn compare_chosen(
    local_dns: bool,
    host: &[u8],
    port: Option<u16>,
    chosen: Option<Record>,
    first: &[u8],
    second: &[u8],
) -> Result<bool, SocksError>
    ensures { result ≡ compare4 (record { local_dns = local_dns; host = host.now; port = port; records = records_of chosen }) first.now second.now }
{
    let prepared = client_opening_v4::opening::prepare_chosen(local_dns, host, port, chosen);
    judge::compare(prepared, first, second)
}

// The same of the first capture, and whether the second is alike: both directions of the two join to the same bytes.
pub fn compare(
    local_dns: bool,
    host: &[u8],
    port: Option<u16>,
    records: &[Record],
    first: &[u8],
    second: &[u8],
) -> Result<bool, SocksError>
    ensures { result ≡ compare4 (record { local_dns = local_dns; host = host.now; port = port; records = records.now }) first.now second.now }
{
    let prepared = client_opening_v4::opening::prepare(local_dns, host, port, records);
    judge::compare(prepared, first, second)
}
