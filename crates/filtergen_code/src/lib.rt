//! From trees of filter expressions to programs of the filter machine.
//!
//! [`compile`] makes the program that stands for a tree: on every packet it answers the snapshot
//! length if the tree accepts it, and else 0. It takes no memory. A text is compiled by
//! `filtergen`, which passes `compile` on.
#![tactic(auto)]

mod code;
mod compiler;
mod constants;
mod entries;
mod insns;
mod known_packet;
mod primitives;
mod relations;
mod value_in_list;
mod value_lists;
mod values;

pub use compiler::compile;
