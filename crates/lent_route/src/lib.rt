// F-5: a route in bytes that its caller lends: prepared hop by hop, opened, fed with pieces and ended where it stands.

#![tactic(auto)]

pub mod delivery;
pub mod preparing;
pub mod state;
pub mod telling;
