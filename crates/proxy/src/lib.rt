// F-3: the proxy's end of a SOCKS handshake: a value that is set up, fed with a client's pieces, answered for by its caller, and ended.

#![tactic(auto)]

pub use buffers::write::rest;
pub use proxy_decisions::destination::Target;
pub use proxy_replies::stages::{Outcome, success};
pub use proxy_session::{Answered, Credential, Delivered, Ended, Server, SetUp, set_up};
pub use proxy_spec::{Field, Ports, Stage};
