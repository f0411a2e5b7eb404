//! Filter expressions as trees.
//!
//! An [`Expr`] is an expression of pcap-filter(7) as it was read: its primitives, and its relations
//! between two [`Value`]s. How a text is read is no concern of this crate.
#![tactic(auto)]

pub mod headers;
mod tree;

pub use tree::{
    Comparison, Direction, EthernetAddress, Expr, Layer, Network, Operator, Plain, Primitive, Size,
    Transport, Value,
};
