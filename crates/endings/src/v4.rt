// The stream for what is wanted of a session over SOCKS4 or SOCKS4A.
ghost use Rattle.lookup.specs.Chosen.{records_of};
ghost use Rattle.endings.specs.Calls.{stream4, StreamResult};

use crate::Produced;
use crate::place::answer_with;
use endings_spec::{Kind, OutcomeStatus};
use protocol::Record;

// `stream` for a caller that has chosen the record, or has none.
pub fn stream_chosen(
    local_dns: bool,
    host: &[u8],
    port: Option<u16>,
    chosen: Option<Record>,
    wanted: OutcomeStatus,
    buffer: &mut [u8],
) -> Produced
    ensures { StreamResult (stream4 (record { local_dns = local_dns; host = host.now; port = port; records = records_of chosen }) wanted buffer.old) result buffer.new }
{
    let prepared = client_opening_v4::opening::prepare_chosen(local_dns, host, port, chosen);
    answer_with(prepared.answer, Kind::OverV4, wanted, buffer)
}

// The stream at the buffer's start for what is wanted of a session over SOCKS4, with a lookup's answers as `prepare` takes them.
pub fn stream(
    local_dns: bool,
    host: &[u8],
    port: Option<u16>,
    records: &[Record],
    wanted: OutcomeStatus,
    buffer: &mut [u8],
) -> Produced
    ensures { StreamResult (stream4 (record { local_dns = local_dns; host = host.now; port = port; records = records.now }) wanted buffer.old) result buffer.new }
{
    let prepared = client_opening_v4::opening::prepare(local_dns, host, port, records);
    answer_with(prepared.answer, Kind::OverV4, wanted, buffer)
}
