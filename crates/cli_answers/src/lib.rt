//! What a filter answers to packets, and why: what the commands that ask filters share.
#![tactic(auto)]

pub mod ahead;
pub mod asked;
pub mod captures;
pub mod counts;
pub mod disk;
pub mod dump;
pub mod filter;
pub mod form;
pub mod hints;
pub mod json;
pub mod line;
pub mod lines;
pub mod opened;
pub mod printing;
pub mod report;
pub mod run_end;
pub mod seek;

pub use filter::AskedFilter;
pub use form::PacketForm;
