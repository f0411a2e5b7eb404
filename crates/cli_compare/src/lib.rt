//! `bpftap compare`: the packets that two filters treat differently, of captures or of all there can be.
#![tactic(auto)]

pub mod asked;
pub mod captures;
pub mod command;
mod decide;
pub mod each;
pub mod files;
mod line;
pub mod notice;
mod object;
pub mod outcome;
pub mod pair;
pub mod report;
pub mod sameness;
pub mod witness;

pub use pair::FilterPair;
