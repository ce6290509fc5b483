// 01, "The call: the session": the stages of a handshake: what a start sends, what a reply makes due, what an end of stream makes of them.

#![tactic(auto)]

pub mod due;
pub mod outcome;
pub mod start;
