//! What the compiler has to know of an expression before it writes a program.
//!
//! [`need`] and [`weight`] say how much an expression may take. [`PacketFacts`] is what passed
//! tests have shown of a packet, and [`ValueLists`] finds the links of a chain that differ only in
//! their numbers. None of these takes memory.
#![tactic(auto)]

mod lists;
mod packet_facts;
mod refusal;
mod value_lists;
mod weights;

pub use lists::{Bytes, Chain, Form, ListKind, Member, Sides, ValueRange};
pub use packet_facts::PacketFacts;
pub use refusal::Refusal;
pub use value_lists::{Group, OtherMembers, ValueLists};
pub use weights::{MAX_NEED, MAX_WEIGHT, need, weight};
