//! Listeners of a packet tap: a store and a hold of messages each, which count as bpf(4) does.
#![tactic(auto)]

mod answer;
mod buffer;
mod fault;
mod filter;
pub mod laws;
mod listener;
mod message;
mod mode;
mod records;

pub use answer::{Counts, Fed, Read};
pub use buffer::{Buffer, MAX_CAPACITY, MIN_CAPACITY, fields, size};
pub use fault::OpenFault;
pub use filter::kept_of;
pub use listener::{Listener, check_range};
pub use message::{Message, Record};
pub use mode::Mode;
pub use records::Records;
