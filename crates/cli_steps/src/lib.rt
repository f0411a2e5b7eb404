//! `bpftap steps`: listeners that are played a script over captures.
#![tactic(auto)]

pub mod command;
pub mod files;
mod hints;
pub mod outcome;
mod picture;
mod reading;
pub mod report;
mod reported;
pub mod steps;
