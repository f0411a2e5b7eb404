//! What a replay calls at each of its steps.

/// Is called at each step of a replay, by the thread that makes the step: it may watch a replay,
/// and hold a thread back.
///
/// Interfaces and the listeners of an interface are numbered from 0, as in what was handed to the
/// replay.
pub trait Gate {
    /// Before arrival `n`, from 0, of an interface is given to its listeners.
    fn before_arrive(&self, interface: u32, n: u64);

    /// After arrival `n` of an interface was given to all its listeners, and those due were
    /// flushed.
    fn after_arrive(&self, interface: u32, n: u64);

    /// Before a listener is read.
    fn before_read(&self, interface: u32, listener: u32);

    /// After a listener was read, with the number of packets that were read: 0 if there was
    /// nothing to read.
    fn after_read(&self, interface: u32, listener: u32, packets: u32);
}

/// A gate that does nothing.
#[derive(Clone, Copy, Debug, Drop)]
pub struct Open;

impl Gate for Open {
    fn before_arrive(&self, _interface: u32, _n: u64) {}

    fn after_arrive(&self, _interface: u32, _n: u64) {}

    fn before_read(&self, _interface: u32, _listener: u32) {}

    fn after_read(&self, _interface: u32, _listener: u32, _packets: u32) {}
}
