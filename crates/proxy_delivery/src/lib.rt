// F-3: a piece, on plain values: fields read in turn, what is kept, what is answered.

#![tactic(auto)]

pub mod delivery;
pub mod piece;
pub mod turns;
