//! Hints that help to fix the faults of filter expressions.
#![tactic(auto)]

pub mod expressions;
pub mod quotes;
