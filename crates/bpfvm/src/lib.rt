//! The BSD packet filter's machine of 1993: its programs, their validator and their listings.
//!
//! A [`Program`] is a list of instructions that [`Program::new`] found valid, or that
//! [`read_listing`] read; contracts see it as that list. [`run`] returns how many bytes of a packet
//! it keeps, [`trace`] what it executes, and [`count_instructions`] how much that is. The machine is that of McCanne and Jacobson, "The BSD
//! Packet Filter" (1993), and of bpf(4), with libpcap's modulo and exclusive or. Only [`trace`],
//! [`write_listing`] and [`write_image`] take memory.
#![tactic(auto)]

pub mod code;
mod counting;
mod decoded;
mod ending;
mod fault;
mod image;
mod insn;
pub mod laws;
pub mod listing;
mod machine;
mod program;
mod running;
mod tracing;

pub use counting::count_instructions;
pub use ending::{End, How, run_to_end};
pub use fault::{Invalid, ListingFault, NoMemory};
pub use image::{Brief, PlacedInsn, write_image};
pub use insn::Insn;
pub use listing::{read_listing, write_listing};
pub use machine::{byte_at, half_at, word_at};
pub use program::{MAX_INSNS, Program};
pub use running::run;
pub use tracing::{Executed, Stored, Traced, trace};
