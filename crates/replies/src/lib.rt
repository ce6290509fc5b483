// 01, "The call: reading replies": the v5 and v4 replies, read from held bytes and a piece, and judged.

#![tactic(auto)]

pub mod unread;
pub mod v4;
pub mod v5;
pub mod verdicts;
