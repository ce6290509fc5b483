// 01, "Opening v5" and "v5 requests", and F-7: `v5::prepare`.

#![tactic(auto)]

pub mod kept;
pub mod opening;
