//! Two filters decided for every packet.
//!
//! [`decide`] says whether two expressions accept the same packets, of every packet there can be,
//! or that it is not decided. [`decide_filters`] says the same of any two filters: each is an
//! expression or a program.
#![tactic(auto)]

mod alike;
mod cut;
mod depth;
mod filters;
mod find;
mod heavy;
mod ordering;
mod plain;
mod sameness;
mod shape;
mod standings;
mod witness;

pub use filter_diagrams::laws;
pub use filters::Filter;
pub use sameness::{Cause, Sameness, decide, decide_filters};
pub use witness::Witness;
