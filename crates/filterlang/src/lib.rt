//! The filter language of pcap-filter(7), in this project's profile: a text's tokens with their
//! places, and the tree of its one reading.
#![tactic(auto)]

mod cursor;
mod fault;
pub mod laws;
mod lexer;
mod lookahead;
mod parser;
mod phrases;
mod token;
mod tree;
mod values;

pub use fault::Fault;
pub use filter_tree::{
    Comparison, Direction, EthernetAddress, Expr, Layer, Network, Operator, Plain, Primitive, Size,
    Transport, Value,
};
pub use lexer::{Cause, MAX_TEXT, lex};
pub use parser::parse;
pub use token::{Joint, Kind, Parts, Protocol, Side, Span, Token, TypeWord};
