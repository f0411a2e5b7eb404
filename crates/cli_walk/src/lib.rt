//! Several captures, visited one after the other up to the first fault.
#![tactic(auto)]

pub mod walk;

pub use walk::{Stop, Visited, Visitor, Walk, visit_captures};
