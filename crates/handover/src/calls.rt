//! The calls of the two ends with their answers, and the steps on the words. Only contracts have
//! values of these types.

use listener::{Fed, Message};
use std::collections::LinkedList;

/// A call of the feeder, with its answer.
pub enum Feed {
    /// What the filter keeps of a packet that arrived, nothing if it rejects it, and what became
    /// of it.
    Arrive(Option<Message>, Fed),
    /// A flush of an open pair, and whether the store became the hold.
    Flush(bool),
    /// A flush that found the pair closed, and so answered false.
    FlushClosed,
}

/// A read of the drain, with its answer.
pub enum Take {
    /// The batch that was read.
    Full(LinkedList<Message>),
    /// The hold was empty.
    Nothing,
    /// The hold was empty, and the feeder had ended.
    Ended,
}

/// A word that both ends see.
pub enum Word {
    /// 1 exactly while the hold is full.
    Turn,
    /// 1 once the drain has closed.
    Closed,
    /// 1 once the feeder has ended.
    Ended,
}

/// One atomic step on a word, with the number that it found or left, or what it handed over.
pub enum WordStep {
    /// A load, and what it answered.
    Load(Word, u64),
    /// A store.
    Store(Word, u64),
    /// A store of 1 to `turn`, with the messages that it hands over: the hold from then on.
    Give(LinkedList<Message>),
}

/// A step, and which end made it.
pub enum EndStep {
    /// The feeder.
    OfFeeder(WordStep),
    /// The drain.
    OfDrain(WordStep),
}
