// F-12: the shortest reply stream that gives a wanted outcome and status when end of stream follows, for a session of either version and for a route.

#![tactic(auto)]

mod place;
pub mod routes;
pub mod v4;
pub mod v5;
mod word;
mod words;

use protocol::SocksError;

// What is answered: a refusal, that no stream leads there, or the length of the stream that stands at the buffer's start.
pub type Produced = Result<Option<usize>, SocksError>;
