//! `bpftap explain` with `-c`, `-l`, or a bound: how many packets of captures a filter accepts.
#![tactic(auto)]

pub mod captures;
pub mod command;
pub mod count;
pub mod filter;
mod line;
pub mod list;
pub mod report;

pub use filter::CountedFilter;
