// F-10: the entries of a capture, read from its start.
ghost use Rattle.std.specs.Prelude.{◌≡◌, ◌≢◌, ◌+◌, ◌<◌, None, [], length, IfSome, IfNone};
ghost use Rattle.captures_spec.specs.Captures.{entry};
ghost use Rattle.captures_spec.specs.Reading.{ahead, row_of};
ghost use Rattle.captures.specs.Calls.{whole};

use captures_spec::Direction;
use protocol::SocksError;

// An entry, and what is behind it.
#[derive(Clone, Copy)]
pub struct Entry<'a> {
    pub direction: Direction,
    pub bytes: &'a [u8],
    pub behind: &'a [u8],
}

// The first entry, unless it runs past the end.
pub fn first(capture: &[u8]) -> Option<Entry<'_>>
    ensures entry { IfSome result (λ e. row_of capture.now ≡ ahead (entry e.direction e.bytes.now) (row_of e.behind.now)) }
    ensures shorter { IfSome result (λ e. length e.bytes.now + length e.behind.now < length capture.now) }
    ensures none { IfNone result (capture.now ≢ [] → row_of capture.now ≡ None) }
{
    let [high, low, rest @ ..] = capture else {
        return None;
    };
    let n = usize::from(*high % 128) * 256 + usize::from(*low);
    if rest.len() < n {
        return None;
    }
    let direction = if *high < 128 {
        Direction::Sent
    } else {
        Direction::Received
    };
    let (bytes, behind) = rest.split_at(n);
    Some(Entry {
        direction,
        bytes,
        behind,
    })
}

// Refuses a capture of which an entry runs past the end.
pub fn check_whole(capture: &[u8]) -> Result<(), SocksError>
    ensures { result ≡ whole (row_of capture.now) }
{
    let mut rest = capture;
    while let Some(entry) = first(rest) {
        rest = entry.behind;
    }
    if rest.is_empty() {
        Ok(())
    } else {
        Err(SocksError::CaptureCut)
    }
}
