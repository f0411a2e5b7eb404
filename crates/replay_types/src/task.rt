//! What is replayed, and to whom.

use bpfvm::Program;
use listener::Mode;
use savefile::{Order, Unit};

/// One listener of an interface, and the savefile that its packets are written to.
#[derive(Drop)]
pub struct Task<W> {
    /// The filter: a packet is accepted if its answer is not 0.
    pub program: Program,
    /// At most this many bytes of a packet are kept, 1 to 262,144; the written header has this
    /// number too.
    pub snap: u32,
    /// How many bytes of records each of the listener's buffers has room for.
    pub capacity: usize,
    /// When the store becomes the hold.
    pub mode: Mode,
    /// After arrival n, from 0, the listener is flushed if this is not 0 and divides n + 1.
    pub flush_every: u32,
    /// How many buffers go round between the two threads of the listener, 1 to 64.
    pub spares: usize,
    /// The byte order of the savefile.
    pub order: Order,
    /// The unit of time of the savefile.
    pub unit: Unit,
    /// What the savefile is written to.
    pub sink: W,
}

/// The captures that arrive at one interface, one after the other, and its listeners.
#[derive(Drop)]
pub struct Interface<R, W> {
    /// What the savefiles are read from.
    pub captures: Vec<R>,
    /// Its listeners.
    pub tasks: Vec<Task<W>>,
}
