// F-3: what a whole field says, what follows it, and the destination that it names; and how many bytes are wanted.

#![tactic(auto)]

pub mod credentials;
pub mod decision;
pub mod destination;
pub mod tests;
pub mod wants;
