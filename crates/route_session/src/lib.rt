// F-5: the route value: open, deliver, end, outcome, bound, attempts.

#![tactic(auto)]

pub mod calls;
pub mod opening;
pub mod plan;
