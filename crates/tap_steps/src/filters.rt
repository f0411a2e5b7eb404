//! What a listener is asked for.

use bpfvm::Program;
use listener::Mode;

/// A filter: an expression of pcap-filter(7), or a program of the filter machine.
#[derive(Drop)]
pub enum Filter {
    Text(String),
    Program(Program),
}

/// A listener to open.
#[derive(Drop)]
pub struct Spec {
    pub filter: Filter,
    /// The most bytes that are kept of a packet, 1 to 262,144.
    pub snap: u32,
    /// The bytes of records that each of the two buffers has room for: at least those of one record
    /// with a snapshot length of data (32, and the data up to a multiple of 8), at most 1,048,576.
    pub capacity: usize,
    /// When the store becomes the hold.
    pub mode: Mode,
}

/// The most listeners of a replay.
pub const MAX_LISTENERS: usize = 64;

// Clauses and definitions name the constant: it is this number.
const _: () = prove!(MAX_LISTENERS == 64);
