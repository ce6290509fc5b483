// 01, "v5 requests" and "v4 request": the v5 and v4 requests, written.

#![tactic(auto)]

pub mod v4;
pub mod v5;
