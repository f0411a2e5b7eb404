//! What a listener answers.

use crate::buffer::Buffer;

/// What became of a packet that arrived.
#[derive(Clone, Copy, Debug, PartialEq, Eq)]
pub enum Fed {
    /// The filter rejected it.
    Passed,
    /// It went into the store.
    Stored,
    /// It went into the store, and the store became the hold: only in the mode
    /// [`Mode::Immediate`](crate::Mode::Immediate).
    Held,
    /// The store had no room for it and became the hold; it went into the new store.
    Rotated,
    /// Neither buffer could take it.
    Dropped,
    /// The listener was closed before it came.
    Closed,
}

/// What a read gives.
#[derive(Drop)]
pub enum Read {
    /// The whole hold.
    Full(Buffer),
    /// The hold was empty, or the listener closed: the given buffer.
    Nothing(Buffer),
}

/// How many packets arrived, how many of them the filter accepted, and how many of these found no
/// room.
#[derive(Clone, Copy, Debug, PartialEq, Eq)]
pub struct Counts {
    pub received: u64,
    pub matched: u64,
    pub dropped: u64,
}
