// F-10: two captures are alike if both directions join to the same bytes, whatever their entries.
ghost use Rattle.std.specs.Prelude.{◌≡◌, ◌<◌, List, [], ◌∷◌, ℕ, Some, IfSome, IfNone};
ghost use Rattle.protocol.specs.Bytes.{same};
ghost use Rattle.captures_spec.specs.Captures.{Entry, joined};
ghost use Rattle.captures_spec.specs.Reading.{row_of, alike};
ghost use Rattle.captures.specs.Coded.{Remain, part, size};

use crate::entries::first;
use captures_spec::Direction;

// What is left of an entry's bytes, and the entries behind it.
#[derive(Clone, Copy)]
struct Left<'a> {
    bytes: &'a [u8],
    behind: &'a [u8],
}

// The bytes of an entry, if it is of the direction.
fn part<'a>(direction: Direction, of: Direction, bytes: &'a [u8]) -> &'a [u8]
    ensures { result.now ≡ part direction of bytes.now }
{
    match (direction, of) {
        (Direction::Sent, Direction::Sent) | (Direction::Received, Direction::Received) => bytes,
        _ => &[],
    }
}

// The next byte of a direction, and what is left behind it.
fn next<'a>(direction: Direction, bytes: &'a [u8], behind: &'a [u8]) -> Option<(u8, Left<'a>)>
    ensures none { IfNone result ((bs : List ℕ) → Remain direction bytes.now behind.now bs → bs ≡ []) }
    ensures byte { IfSome result (λ n. (bs : List ℕ) → Remain direction bytes.now behind.now bs → (more : List ℕ) × (bs ≡ n.0 ∷ more) × Remain direction n.1.bytes.now n.1.behind.now more) }
    ensures shorter { IfSome result (λ n. size n.1.bytes.now n.1.behind.now < size bytes.now behind.now) }
{
    let mut left = bytes;
    let mut later = behind;
    loop {
        if let [byte, bytes @ ..] = left {
            let behind = later;
            return Some((*byte, Left { bytes, behind }));
        }
        let entry = first(later)?;
        left = part(direction, entry.direction, entry.bytes);
        later = entry.behind;
    }
}

// Whether a direction joins to the same bytes.
fn same_way(direction: Direction, first: &[u8], second: &[u8]) -> bool
    ensures { (es fs : List Entry) → row_of first.now ≡ Some es → row_of second.now ≡ Some fs → result ≡ same (joined direction es) (joined direction fs) }
{
    let mut a = Left {
        bytes: &[],
        behind: first,
    };
    let mut b = Left {
        bytes: &[],
        behind: second,
    };
    while let Some((byte, more)) = next(direction, a.bytes, a.behind) {
        let Some((other, others)) = next(direction, b.bytes, b.behind) else {
            return false;
        };
        if byte != other {
            return false;
        }
        a = more;
        b = others;
    }
    match next(direction, b.bytes, b.behind) {
        None => true,
        Some(_) => false,
    }
}

// Of two captures that have no other bytes.
pub fn alike(first: &[u8], second: &[u8]) -> bool
    ensures { (es fs : List Entry) → row_of first.now ≡ Some es → row_of second.now ≡ Some fs → result ≡ alike es fs }
{
    same_way(Direction::Sent, first, second) && same_way(Direction::Received, first, second)
}
