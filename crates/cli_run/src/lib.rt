//! `bpftap run`: captures that are replayed in threads to the listeners of interfaces.
#![tactic(auto)]

pub mod command;
mod hints;
pub mod laws;
pub mod layout;
mod object;
pub mod paths;
pub mod plan;
pub mod report;
mod reported;
pub mod run;
pub mod tally;
