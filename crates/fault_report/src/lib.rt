//! Faults as values that are reported: as a line of text, or as an object of JSON.
#![tactic(auto)]

pub mod captures;
pub mod printed;
pub mod report;
pub mod reporting;
pub mod sink;
pub mod word;

pub use report::{Report, Subject};
pub use sink::{FaultSink, TextSink};
pub use word::Word;
