//! Words of decision diagrams: numbers of 32 bits, each bit a node that says Yes or No, and the
//! machine's operations on them.
//!
//! [`Words`] makes words in the diagrams of `filter_bdd`. What the bits are that a node asks for is
//! no concern of this crate.
#![tactic(auto)]

mod bits;
mod bitwise;
mod bytes;
mod known;
mod order;
mod product;
mod quotient;
mod shift;
mod sum;
mod word;

pub use word::{Word, Words};
