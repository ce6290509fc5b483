// F-12: to which outcome and status a stream of replies leads. Definitions and laws, in specs/ and proofs/, and the plain data that code shares with them.

#![tactic(auto)]

// An outcome's number, 0 for open, and its status.
#[derive(Clone, Copy)]
pub struct OutcomeStatus {
    pub number: u8,
    pub status: u8,
}

// What the stream of an opening depends on: over SOCKS5 whether credentials are given.
#[derive(Clone, Copy)]
pub enum Kind {
    WithoutCredentials,
    WithCredentials,
    OverV4,
}
