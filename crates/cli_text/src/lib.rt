//! What the program reports: the line of a fault on standard error, and the exit statuses.
#![tactic(auto)]

pub mod report;
pub mod status;

pub use status::Status;
