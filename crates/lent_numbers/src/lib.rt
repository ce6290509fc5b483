// What programs in C and Rust lend and are told: numbers that stand in lent bytes, and how a session stands.

#![tactic(auto)]

pub mod bytes;
pub mod told;
