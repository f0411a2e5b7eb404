//! Filters as decision diagrams.
//!
//! [`Builder`] makes a node of an expression or of a program. The node answers what the filter
//! does, of every packet there can be, or of those whose IPv4 header has a given length. Two
//! filters are compared by their nodes.
#![tactic(auto)]

mod actions;
mod builder;
mod fields;
pub mod laws;
mod live;
mod primitives;
mod programs;
mod refusal;
mod relations;
mod spots;
mod state;
mod steps;
mod trees;

pub use actions::{Action, LoadSource, Operand, Register, Test, action_of};
pub use builder::Builder;
pub use refusal::Refusal;
