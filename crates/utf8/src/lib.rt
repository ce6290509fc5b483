// UTF-8 (RFC 3629, section 4) by a class table, over one slice or two.

#![tactic(auto)]

pub mod classes;
pub mod text;
