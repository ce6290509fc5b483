// A session in bytes that its caller lends: prepared, started, fed with pieces and ended where it stands.

#![tactic(auto)]

pub mod delivery;
pub mod preparing;
pub mod state;
pub mod telling;
