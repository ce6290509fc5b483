// 01, "Opening v4", and F-7: preparing a session over SOCKS4 and SOCKS4A.
pub use client_opening_v4::opening::{prepare, prepare_chosen};
