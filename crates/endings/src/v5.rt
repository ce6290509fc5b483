// The stream for what is wanted of a session over SOCKS5.
ghost use Rattle.lookup.specs.Chosen.{records_of};
ghost use Rattle.endings.specs.Calls.{stream5, StreamResult};

use crate::Produced;
use crate::place::answer_with;
use crate::words::kind_by;
use endings_spec::OutcomeStatus;
use protocol::{Record, SocksConfig, Version};

// `stream` for a caller that has chosen the record, or has none.
pub fn stream_chosen(
    config: SocksConfig,
    host: &[u8],
    port: Option<u16>,
    user: &[u8],
    password: &[u8],
    chosen: Option<Record>,
    wanted: OutcomeStatus,
    buffer: &mut [u8],
) -> Produced
    ensures { StreamResult (stream5 (record { config = config; host = host.now; port = port; user = user.now; password = password.now; records = records_of chosen }) wanted buffer.old) result buffer.new }
{
    let prepared = client_opening_v5::opening::prepare_chosen(
        config, host, port, user, password, chosen,
    );
    answer_with(
        prepared.answer,
        kind_by(Version::V5, config.proxy_auth),
        wanted,
        buffer,
    )
}

// The stream at the buffer's start for what is wanted of a session over SOCKS5, with a lookup's answers as `prepare` takes them.
pub fn stream(
    config: SocksConfig,
    host: &[u8],
    port: Option<u16>,
    user: &[u8],
    password: &[u8],
    records: &[Record],
    wanted: OutcomeStatus,
    buffer: &mut [u8],
) -> Produced
    ensures { StreamResult (stream5 (record { config = config; host = host.now; port = port; user = user.now; password = password.now; records = records.now }) wanted buffer.old) result buffer.new }
{
    let prepared = client_opening_v5::opening::prepare(config, host, port, user, password, records);
    answer_with(
        prepared.answer,
        kind_by(Version::V5, config.proxy_auth),
        wanted,
        buffer,
    )
}
