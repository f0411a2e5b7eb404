//! `bpftap parts` and `bpftap join`, and what `bpftap cut --bytes` reads and prints.
#![tactic(auto)]

mod fields;
mod guess;
pub mod input;
pub mod join;
pub mod joining;
pub mod line;
pub mod lines;
pub mod parts;
pub mod placed;
mod report;
mod seen;
