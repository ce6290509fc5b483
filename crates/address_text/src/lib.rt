// 01, "Host" and "Address text": host text read: brackets, allowed bytes, IPv4 and IPv6 addresses, else a name.

#![tactic(auto)]

pub mod address;
pub mod digits;
pub mod groups;
pub mod host;
pub mod ipv4;
pub mod ipv6;
