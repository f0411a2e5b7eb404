//! Binary decision diagrams whose leaves are answers of a filter.
//!
//! [`Diagrams`] keeps nodes, each of which says an answer at every assignment of bits, and joins
//! them by operations. What the bits are, and what the answers are about, is no concern of this
//! crate.
#![tactic(auto)]

mod answer;
mod cache;
mod compare;
mod diagrams;
mod order;
mod table;

pub use answer::{Answer, Operation};
pub use compare::{ByOrder, Field};
pub use diagrams::{Budget, Diagrams};
pub use order::BitOrder;
pub use table::{Node, Stop};
