// F-12 for a foreign interface: the stream for an ending, of an opening in numbers and bytes.

#![tactic(auto)]

ghost use Rattle.std.specs.Prelude.{◌≡◌};
ghost use Rattle.lent_stream.specs.Stream.{asked5, asked4, raw_stream, Streams};

use endings::Produced;
use endings_spec::OutcomeStatus;
use error_numbers::number;
use lent_session::preparing::{RawConfig, config_of};
use raw_numbers::{port_of, truth};
use raw_records::found;

// A stream's length, or the refusal's number, or that no stream leads there.
// The C interface has its answer as a number.
#[repr(C)]
#[derive(Clone, Copy)]
pub struct RawStream {
    pub len: usize,
    pub answer: u8,
    pub none: u8,
}

fn told(produced: Produced) -> RawStream
    ensures { result ≡ raw_stream produced }
{
    match produced {
        Err(error) => RawStream {
            len: 0,
            answer: number(error),
            none: 0,
        },
        Ok(None) => RawStream {
            len: 0,
            answer: 0,
            none: 1,
        },
        Ok(Some(len)) => RawStream {
            len,
            answer: 0,
            none: 0,
        },
    }
}

// The stream at the buffer's start for a number, 0 for open, and a status, of a session over SOCKS5 as preparing takes it.
pub fn stream5(
    config: RawConfig,
    host: &[u8],
    port: u32,
    user: &[u8],
    password: &[u8],
    records: &[u8],
    number: u8,
    status: u8,
    buffer: &mut [u8],
) -> RawStream
    ensures { Streams (asked5 config host.now port user.now password.now records.now number status buffer.old) result buffer.new }
{
    let wanted = OutcomeStatus { number, status };
    told(endings::v5::stream_chosen(
        config_of(config),
        host,
        port_of(port),
        user,
        password,
        found(records, false),
        wanted,
        buffer,
    ))
}

// The same over SOCKS4, or SOCKS4a for a name.
pub fn stream4(
    local_dns: u8,
    host: &[u8],
    port: u32,
    records: &[u8],
    number: u8,
    status: u8,
    buffer: &mut [u8],
) -> RawStream
    ensures { Streams (asked4 local_dns host.now port records.now number status buffer.old) result buffer.new }
{
    let wanted = OutcomeStatus { number, status };
    told(endings::v4::stream_chosen(
        truth(local_dns),
        host,
        port_of(port),
        found(records, true),
        wanted,
        buffer,
    ))
}
