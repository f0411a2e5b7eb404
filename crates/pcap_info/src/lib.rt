//! What is in a capture, counted: the engine of `bpftap info`.
#![tactic(auto)]

pub mod contents;
pub mod survey;
