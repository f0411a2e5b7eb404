//! `bpftap info`: what captures have, and whether they are whole.
#![tactic(auto)]

pub mod command;
pub mod line;
pub mod object;
pub mod report;
