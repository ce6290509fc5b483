// 01, "Opening v5" and "Opening v4", and F-7: what both versions check and ask for; the session that preparing returns.

#![tactic(auto)]

pub mod checks;
pub mod common;
pub mod host;
