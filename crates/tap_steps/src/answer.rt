//! What listeners answer, step by step.

use listener::Fed;

/// What a listener answered to a step.
#[derive(Clone, Copy, Debug, PartialEq, Eq)]
pub enum Answer {
    /// What became of a packet that arrived.
    Arrived(Fed),
    /// Whether the flush made the store the hold.
    Flushed(bool),
    /// Whether the read took the hold.
    Read(bool),
    Closed,
}

/// A listener's answer to a step, with the listener's state before it.
#[derive(Clone, Copy, Debug, PartialEq, Eq)]
pub struct Answered {
    /// Whether the listener was closed before the step.
    pub closed: bool,
    /// The bytes of the records in the store before the step.
    pub load: usize,
    /// The number of messages in the hold before the step.
    pub in_hold: usize,
    /// The bytes of the record that an arrival takes, or would take if there were room; 0 if the
    /// filter rejects it, and of other steps.
    pub size: usize,
    pub answer: Answer,
}
