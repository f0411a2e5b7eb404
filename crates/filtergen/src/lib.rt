//! The compiler from filter expressions to programs of the filter machine.
//!
//! [`compile`] makes an expression's program: on every packet it returns the snapshot length if the
//! expression accepts the packet, and else 0. [`evaluate`] answers an expression without compiling
//! it. [`need`] and [`weight`] measure an expression: up to [`MAX_NEED`] and [`MAX_WEIGHT`] it
//! compiles. None of these takes memory. [`compile_text`] reads the text too, and takes memory for
//! its tree.
#![tactic(auto)]

mod expression;

pub use expression::{ExpressionFault, compile_text};
pub use filter_meaning::{Verdict, evaluate, value_of};
pub use filtergen_code::compile;
pub use filtergen_facts::{MAX_NEED, MAX_WEIGHT, Refusal, need, weight};
pub use savefile::MAX_SNAP;
