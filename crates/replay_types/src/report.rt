//! What a replay reports.

use handover::Past;
use savefile::Fault;

/// How the writing of a task ended.
#[derive(Clone, Copy, Debug, PartialEq, Eq)]
pub enum TaskEnd {
    /// All that the listener kept was written, and no write of the sink failed. Of its flushes
    /// nothing is said.
    Clean,
    /// The sink failed, or the savefile would have 2^64 bytes or more, after this many bytes.
    Write(u64),
    /// A ring between the threads did not hand over its end, or handed back a buffer of another
    /// capacity.
    Unfinished,
}

/// What became of a task.
#[derive(Debug, Drop)]
pub struct ListenerReport<W> {
    pub sink: W,
    /// How many bytes the sink took.
    pub sent: u64,
    /// How many packets arrived before the pair was found closed: all, if nothing closed it.
    pub received: u64,
    /// How many of these its filter accepted.
    pub matched: u64,
    /// How many of these found no room.
    pub dropped: u64,
    /// How many packets were written whole.
    pub written: u64,
    pub end: TaskEnd,
    /// The calls of the feeder and the drain, of a pair that was settled.
    pub past: Past,
}

/// How the captures of an interface ended.
#[derive(Clone, Copy, Debug, PartialEq, Eq)]
pub enum InterfaceEnd {
    /// All captures were read to their end.
    Clean,
    /// This capture has this fault, after all packets of the captures before it and its own before
    /// the fault; with [`Fault::Device`] after a prefix of its own, and with [`Fault::NoMemory`]
    /// after none of its own.
    Capture(u32, Fault),
    /// 2^64 - 2 packets arrived, the most that are counted.
    CountFull,
}

/// What became of an interface.
#[derive(Debug, Drop)]
pub struct InterfaceReport<S, W> {
    pub end: InterfaceEnd,
    /// The captures that were handed in, in order.
    pub sources: Vec<S>,
    /// What became of its tasks, in order.
    pub listeners: Vec<ListenerReport<W>>,
}
