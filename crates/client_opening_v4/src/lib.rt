// 01, "Opening v4" and "v4 request", and F-7: `v4::prepare`.

#![tactic(auto)]

pub mod kept;
pub mod opening;
