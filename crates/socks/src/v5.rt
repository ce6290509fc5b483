// 01, "Opening v5", and F-7: preparing a session over SOCKS5.
pub use client_opening_v5::opening::{prepare, prepare_chosen};
