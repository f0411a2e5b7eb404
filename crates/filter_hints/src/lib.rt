//! What is wrong with a filter expression that is refused, as sentences, and what to write instead.
#![tactic(auto)]

mod addresses;
mod advice;
mod choice;
mod colons;
mod comparisons;
mod dots;
mod excerpt;
mod flags;
mod instead;
mod left_sides;
mod other_words;
mod services;
mod terms;
mod values;

pub use advice::{Advice, ByLibpcap};
pub use choice::{advise, advise_refusal};
pub use colons::Endpoint;
pub use excerpt::{Caret, Excerpt};
