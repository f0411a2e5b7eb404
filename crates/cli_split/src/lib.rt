//! `bpftap split`: captures that are split by several filters in one pass.
#![tactic(auto)]

pub mod closing;
pub mod command;
pub mod files;
pub mod hints;
pub mod line;
pub mod opening;
pub mod outcome;
pub mod part;
mod paths;
pub mod plan;
pub mod report;
pub mod split;
