//! Numbers of a packet as words of decision diagrams.
//!
//! [`Symbols`] makes a [`Symbol`] of each value of a filter expression: whether the packet has the
//! value, and the number that it is, bit by bit. It calculates, loads bytes at computed places, and
//! compares. Two filters are compared by the nodes that it makes.
#![tactic(auto)]

mod bits;
mod calculation;
mod load;
mod symbol;
mod value;

pub use symbol::{Refusal, Symbol, Symbols};
