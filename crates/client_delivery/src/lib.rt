// 01, "Delivery", and F-2: a piece, on plain values: replies read in turn, what is kept, what is answered.

#![tactic(auto)]

pub mod bound_address;
pub mod delivery;
pub mod piece;
pub mod turns;
pub mod wants;
