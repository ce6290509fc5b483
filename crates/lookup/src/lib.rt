// 01, "Lookup": a lookup's answers: a lent list of records, and the one of them that an opening takes.

#![tactic(auto)]

ghost use Rattle.std.specs.Prelude.{◌≡◌, take};
ghost use Rattle.lookup.specs.Chosen.{serves, step_of, chosen_of};

use protocol::{Family, Record};

// Whether a record of this family serves, where only four may be wanted.
pub fn serves(four: bool, family: Family) -> bool
    ensures { result ≡ serves four family }
{
    match family {
        Family::Four => true,
        Family::Six => !four,
    }
}

// One record at a time: a record stays once it is found, and the next one is found if it serves.
pub fn step(four: bool, chosen: Option<Record>, next: Record) -> Option<Record>
    ensures { result ≡ step_of four chosen next }
{
    match chosen {
        None if serves(four, next.family) => Some(next),
        _ => chosen,
    }
}

// The first record that serves, among so many at the list's start: behind it none is read.
pub fn choose(records: &[Record], most: usize, four: bool) -> Option<Record>
    ensures { result ≡ chosen_of four (take most records.now) }
{
    let end = most.min(records.len());
    records[..end]
        .iter()
        .find(|record| serves(four, record.family))
        .copied()
}
