//! Savefiles of captured packets, read and written as pcap-savefile(5) describes them.
//!
//! A savefile is a header of 24 bytes and then records, each a header of 16 bytes and the bytes
//! that were captured. Both byte orders and both units of time are read and written. Inside this
//! crate a time is seconds and nanoseconds.
//!
//! Some of what is read is this project's own profile and not in pcap-savefile(5). Only version 2.4
//! and link type 1, Ethernet, are read, and a link type with further bits set is refused. A
//! fraction that makes a second or more ends the packets. So does a captured length above 262,144
//! bytes, whatever the snapshot length. The reserved fields and the snapshot length are never a
//! reason to refuse. A record may have more bytes than the snapshot length or than the packet's
//! original length. What is written has zeros in the reserved fields.
//!
//! [`Reader`] reads a savefile packet by packet from a [`Source`], and lends each packet without a
//! copy. [`read_all`] reads a whole one from memory. [`Writer`] writes one packet by packet into a
//! [`Sink`]. [`header_of`] and [`record_of`] read one piece from memory, and [`file_header`] and
//! [`record_header`] make one. [`laws`] has what follows from the definitions.
#![tactic(auto)]

mod ahead;
mod device;
mod fault;
mod header;
pub mod laws;
mod packet;
mod reader;
mod reading;
mod record;
mod writing;

pub use device::{Broken, Counted, GatheringSink, Sink, Source};
pub use fault::Fault;
pub use header::{HEADER_LEN, Header, Order, Unit, header_of};
pub use packet::{Data, Packet, PacketRef};
pub use reader::Reader;
pub use reading::read_all;
pub use record::{MAX_SNAP, RECORD_HEADER_LEN, effective_snaplen, record_of};
pub use writing::{Writer, file_header, record_header};
