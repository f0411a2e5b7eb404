//! What filter expressions mean.
//!
//! [`evaluate`] answers an expression of a packet, and [`value_of`] gives the number that a value
//! is of it, by nothing but the tables of docs/LANGUAGE.md: no program is made, and no memory
//! taken. [`looks_of`] lists the bytes that a primitive or a relation looks at, and [`abort_cause`]
//! says why one aborts. [`calculate`] and the numbers of headers are for what compiles expressions.
#![tactic(auto)]

mod arithmetic;
mod cause;
mod evaluator;
mod frame;
mod headers;
pub mod laws;
mod primitives;
mod values;
mod verdict;

pub use arithmetic::calculate;
pub use cause::AbortCause;
pub use evaluator::{abort_cause, evaluate, looks_of, value_of};
pub use frame::{Frame, Look};
pub use headers::{BROADCAST, protocol_number};
pub use verdict::Verdict;
