//! Lines of text: how they are put together, sent to a writer, and read.
//!
//! A [`Line`] has room for one line and takes no memory. [`fields`] reads the numbers and words of
//! a line of a file, [`LineFault`] says which line is not taken, [`put_string`] appends a JSON
//! string, and [`sending::send`] hands a text to a writer.
#![tactic(auto)]

pub mod fault;
pub mod fields;
pub mod form;
pub mod line;
pub mod sending;
pub mod string;
pub mod time;

pub use fault::LineFault;
pub use form::{LineForm, NamingForm};
pub use line::Line;
pub use string::{JsonEscaped, JsonString, put_string};
