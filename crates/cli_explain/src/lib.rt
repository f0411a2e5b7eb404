//! `bpftap explain`: why a filter accepts or rejects each packet of a capture.
#![tactic(auto)]

pub mod captures;
pub mod command;
pub mod each;
pub mod files;
mod form;
pub mod full;
mod hints;
pub mod line;
mod object;
pub mod one;
pub mod outcome;
pub mod printer;
pub mod range;
pub mod report;
mod whole;

pub use printer::FullPrinter;
