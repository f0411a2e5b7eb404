//! What a replay reports.

use crate::answer::Answered;
use crate::playlist::PlacedPacket;
use filter_tree::Expr;
use listener::Message;

/// What a replay reports of one listener.
#[derive(Debug, Drop)]
pub struct Report {
    /// The batches that were read, in order.
    pub batches: Vec<Vec<Message>>,
    /// What the hold has, and then what the store has.
    pub held: Vec<Message>,
    /// How many packets arrived before the listener was closed.
    pub received: u64,
    /// How many of these the filter accepted.
    pub matched: u64,
    /// How many of these found no room.
    pub dropped: u64,
}

/// What a replay returns if its steps are followed too.
#[derive(Debug, Drop)]
pub struct Trace {
    /// A report for each listener.
    pub reports: Vec<Report>,
    /// For each listener its answers to its own steps, in order. These are each arrival that took a
    /// packet, and the flushes, reads and closes that name the listener.
    pub answers: Vec<Vec<Answered>>,
    /// For each listener the expression that its filter reads as. A program has none.
    pub expressions: Vec<Option<Expr>>,
    /// The packets of the captures, in order: the first arrival takes the first, and so on.
    pub playlist: Vec<PlacedPacket>,
    /// The first capture that ended with a record fault, and that fault.
    pub record_fault: Option<(u32, savefile::Fault)>,
}
