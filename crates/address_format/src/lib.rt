// Numbers, and addresses with a port, written as text (F-1; RFC 5952, section 4).

#![tactic(auto)]

pub mod endpoint;
pub mod groups;
pub mod numerals;
