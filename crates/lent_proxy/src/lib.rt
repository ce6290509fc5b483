// The proxy's end in bytes that its caller lends: set up, fed with a client's pieces, answered for and ended where it stands.

#![tactic(auto)]

pub mod answering;
pub mod delivery;
pub mod setting_up;
pub mod state;
pub mod telling;
