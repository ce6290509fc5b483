// 01, "The call: the session": the client's side of a SOCKS handshake: a session that is prepared, started, fed with pieces, and ended.

#![tactic(auto)]

pub mod errors;
pub mod v4;
pub mod v5;

pub use buffers::write::rest;
pub use client_session::{Delivered, Ended, Prepared, Session, Started};
pub use client_stages::due::{Lengths, Requests, Stage};
