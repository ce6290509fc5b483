// F-10: captures, as rows of entries, and which of them an opening accepts. Definitions and laws, in specs/ and proofs/, and the plain data that code shares with them.

#![tactic(auto)]

// From the client, or to it.
#[derive(Clone, Copy, PartialEq, Eq)]
pub enum Direction {
    Sent,
    Received,
}
