// F-10: whether a capture is a lawful handshake of an opening, and whether a second one tells the same.

#![tactic(auto)]

mod alike;
mod entries;
mod judge;
pub mod v4;
pub mod v5;
mod walk;
