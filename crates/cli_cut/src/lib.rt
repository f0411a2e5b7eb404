//! `bpftap cut` and `bpftap check`.
#![tactic(auto)]

pub mod captures;
pub mod checking;
pub mod command;
mod hints;
pub mod object;
pub mod one;
pub mod outcome;
pub mod part;
mod paths;
mod plan;
pub mod print;
pub mod report;
