// F-10: captures of a handshake over SOCKS5.
ghost use Rattle.std.specs.Prelude.{◌≡◌};
ghost use Rattle.lookup.specs.Chosen.{records_of};
ghost use Rattle.captures.specs.Calls.{check5, compare5};

use crate::judge;
use protocol::{Record, SocksConfig, SocksError};

// `check` for a caller that has chosen the record, or has none.
pub fn check_chosen(
    config: SocksConfig,
    host: &[u8],
    port: Option<u16>,
    user: &[u8],
    password: &[u8],
    chosen: Option<Record>,
    capture: &[u8],
) -> Result<(), SocksError>
    ensures { result ≡ check5 (record { config = config; host = host.now; port = port; user = user.now; password = password.now; records = records_of chosen }) capture.now }
{
    let prepared = client_opening_v5::opening::prepare_chosen(
        config, host, port, user, password, chosen,
    );
    judge::check(prepared, capture)
}

// Whether a capture is a lawful handshake of the session that `prepare` with the same arguments gives.
pub fn check(
    config: SocksConfig,
    host: &[u8],
    port: Option<u16>,
    user: &[u8],
    password: &[u8],
    records: &[Record],
    capture: &[u8],
) -> Result<(), SocksError>
    ensures { result ≡ check5 (record { config = config; host = host.now; port = port; user = user.now; password = password.now; records = records.now }) capture.now }
{
    let prepared = client_opening_v5::opening::prepare(config, host, port, user, password, records);
    judge::check(prepared, capture)
}

// `compare` for a caller that has chosen the record, or has none.
pub fn compare_chosen(
    config: SocksConfig,
    host: &[u8],
    port: Option<u16>,
    user: &[u8],
    password: &[u8],
    chosen: Option<Record>,
    first: &[u8],
    second: &[u8],
) -> Result<bool, SocksError>
    ensures { result ≡ compare5 (record { config = config; host = host.now; port = port; user = user.now; password = password.now; records = records_of chosen }) first.now second.now }
{
    let prepared = client_opening_v5::opening::prepare_chosen(
        config, host, port, user, password, chosen,
    );
    judge::compare(prepared, first, second)
}

// The same of the first capture, and whether the second is alike: both directions of the two join to the same bytes.
pub fn compare(
    config: SocksConfig,
    host: &[u8],
    port: Option<u16>,
    user: &[u8],
    password: &[u8],
    records: &[Record],
    first: &[u8],
    second: &[u8],
) -> Result<bool, SocksError>
    ensures { result ≡ compare5 (record { config = config; host = host.now; port = port; user = user.now; password = password.now; records = records.now }) first.now second.now }
{
    let prepared = client_opening_v5::opening::prepare(config, host, port, user, password, records);
    judge::compare(prepared, first, second)
}
