// F-5: a route through one to eight proxies in a row: a value that is opened, fed with pieces, and ended.

#![tactic(auto)]

pub use protocol::Version;
pub use route_session::calls::{Delivered, Ended, Opened, Route};
pub use route_session::opening::open;
pub use route_session::plan::{Part, Proxy};
