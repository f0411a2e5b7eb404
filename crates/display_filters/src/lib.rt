//! What is written here for a display filter of Wireshark: for a field that is compared, and for a flag.
#![tactic(auto)]

mod comparisons;
mod fields;
mod ranges;
mod written;

pub use fields::{is_field, of_field};
pub use written::DisplayAdvice;
