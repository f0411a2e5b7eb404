//! The BSD packet tap, replayed: captures, listeners and steps.
//!
//! [`replay`] opens listeners, each with a filter, a snapshot length, a capacity and a mode, plays
//! a list of steps over the packets of captures, and reports for each listener the batches that
//! were read, what its buffers hold, and its counts. [`trace`] does this and also returns what each
//! listener answered to each of its steps.
//!
//! A step takes the next packet to every listener, or flushes, reads or closes one of them. Packets
//! come from classic savefiles, as pcap-savefile(5) describes them; filters are expressions of
//! pcap-filter(7), in the profile of docs/LANGUAGE.md, or programs of the filter machine; listeners
//! behave as docs/DEFINITIONS.md says, after bpf(4).
#![tactic(auto)]

mod fault;
mod open;
mod run;

pub use fault::Fault;
pub use run::{replay, trace};
pub use tap_steps::{
    Answer, Answered, Filter, MAX_CAPTURES, MAX_LISTENERS, PlacedPacket, Report, Spec, Step, Trace,
};
