//! A replay of steps, drawn: for each listener what its store and its hold have, step by step, as
//! plain SVG.
#![tactic(auto)]

mod columns;
mod frame;
mod lane;
mod page;

pub use page::write_picture;
