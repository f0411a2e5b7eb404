//! Code of the filter machine without the instructions that nothing reaches.
#![tactic(auto)]

mod unreached;

pub use unreached::{MAX_CODE, trim_unreached};
