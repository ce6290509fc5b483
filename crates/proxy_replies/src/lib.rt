// F-3: what the end says: its own replies, the caller's answer, the end of stream.

#![tactic(auto)]

pub mod stages;
pub mod write;
