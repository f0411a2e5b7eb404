//! Places in an expression that is refused, and what can be put there: only what the text reads on with.
#![tactic(auto)]

mod nearest;
mod ports;
mod spots;
mod suggestions;

pub use nearest::{in_small_letters, is_word};
pub use ports::{port_of, ports_of};
pub use spots::{
    HOST, PROTO, Run, Spot, after_blanks, first_word, last_word, without_blanks, without_last_word,
};
pub use suggestions::{Gap, is_expression, is_no_blank, reads_on};
