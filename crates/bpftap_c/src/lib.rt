//! bpftap as a library for C: the functions that `include/bpftap.h` declares.
//!
//! Each export states again what the function below it promises, by that function's own
//! definitions. In C a slice is a pointer and then a length, and nothing is passed for a `Global`,
//! which has no bytes.
#![tactic(auto)]

mod batches;
mod buffers;
mod captures;
mod comparisons;
mod cuts;
mod filters;
mod hints;
mod insns;
pub mod laws;
mod listeners;
mod listings;
mod looks;
mod memory;
mod messages;
mod outcome;
mod played;
mod programs;
mod reasons;
mod spans;
mod steps;
mod texts;
mod traces;

pub use batches::{BpftapPacket, BpftapSpan};
pub use buffers::BpftapBuffer;
pub use captures::{BpftapReader, BpftapRecord};
pub use comparisons::BpftapComparison;
pub use insns::BpftapInsn;
pub use listeners::BpftapListener;
pub use looks::BpftapLook;
pub use messages::BpftapMessage;
pub use outcome::{BpftapResult, Failure};
pub use reasons::BpftapReason;
pub use steps::{BpftapCapture, BpftapReplay};
pub use traces::{BpftapExecuted, BpftapTraced};
