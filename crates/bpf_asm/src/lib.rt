//! Programs of the BSD packet filter by the names of their instructions, read as programs: assembly
//! with labels, as Linux's bpf_asm and bpfc(8) take it, and the image that `tcpdump -d` prints.
//!
//! [`read_assembly`] reads both: an image is assembly with a place in front of each instruction,
//! and with places for labels. [`read_program`] reads decimal listings too, and says by the text
//! which of these it is.
#![tactic(auto)]

mod array;
mod assembling;
mod fault;
mod instructions;
mod labels;
pub mod laws;
mod lexer;
mod line;
mod notation;
mod operands;
mod reading;
mod token;

pub use array::write_array;
pub use fault::{AssemblyFault, Cause};
pub use notation::{ProgramTextFault, is_assembly, read_program};
pub use reading::{MAX_TEXT, read_assembly};
