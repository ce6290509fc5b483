// Document 01's number and status of a refusal or failure.
pub use error_numbers::{number, status};
