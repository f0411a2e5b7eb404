//! The graph of a filter program in plain words, as a text for Graphviz: a box for each question
//! that the program asks of a packet, and one for each end.
#![tactic(auto)]

mod drawing;
mod held;
mod known;
mod questions;
mod ways;

pub use drawing::write_graph;
