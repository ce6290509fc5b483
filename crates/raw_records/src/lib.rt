// A lookup's answers as bytes: records of 17 bytes, one behind the other, each its kind's number and 16 bytes of address.

#![tactic(auto)]

ghost use Rattle.std.specs.Prelude.{◌≡◌};
ghost use Rattle.lookup.specs.Chosen.{chosen_of};
ghost use Rattle.raw_records.specs.Records.{records_in, serves_number, Placed};

use buffers::write::copy;
use protocol::Record;
use raw_numbers::family_of;

// Whether a record of this number serves, where only four may be wanted.
fn serves(four: bool, n: u8) -> bool
    ensures { result ≡ serves_number four n }
{
    if n == 4 {
        return !four;
    }
    n == 1
}

// The place of the first record that serves; where none does, the place behind the last one.
fn place(records: &[u8], four: bool) -> usize
    ensures { Placed four records.now result }
{
    let mut at = 0;
    while 17 <= records.len() - at {
        if serves(four, records[at]) {
            return at;
        }
        at += 17;
    }
    at
}

// The record taken, if there is one.
pub fn found(records: &[u8], four: bool) -> Option<Record>
    ensures { result ≡ chosen_of four (records_in records.now) }
{
    let at = place(records, four);
    if records.len() - at < 17 {
        return None;
    }
    let mut address = [0u8; 16];
    copy(&mut address, 0, &records[at + 1..at + 17]);
    Some(Record {
        family: family_of(records[at]),
        address,
    })
}
