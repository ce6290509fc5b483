// A stream put into a lent buffer, behind the checks' answer. Nothing is written unless it fits whole.
ghost use Rattle.std.specs.Prelude.{Some};
ghost use Rattle.protocol.specs.Answers.{Accepted};
ghost use Rattle.endings_spec.specs.Streams.{stream_of};
ghost use Rattle.endings.specs.Calls.{produced, StreamResult};

use crate::Produced;
use crate::words::stream_of;
use endings_spec::{Kind, OutcomeStatus};
use protocol::SocksError;

pub fn put(bytes: &[u8], buffer: &mut [u8]) -> Produced
    ensures { StreamResult (produced Accepted (Some bytes.now) buffer.old) result buffer.new }
{
    let n = bytes.len();
    if buffer.len() < n {
        return Err(SocksError::ShortStream);
    }
    buffer[..n].copy_from_slice(bytes);
    Ok(Some(n))
}

// What an opening of this kind is answered by its checks' answer.
pub fn answer_with(
    answer: Result<(), SocksError>,
    kind: Kind,
    wanted: OutcomeStatus,
    buffer: &mut [u8],
) -> Produced
    ensures { StreamResult (produced answer (stream_of kind wanted) buffer.old) result buffer.new }
{
    answer?;
    let Some(word) = stream_of(kind, wanted) else {
        return Ok(None);
    };
    put(word.as_slice(), buffer)
}
