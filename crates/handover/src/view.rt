//! What a seat of the table knows. Only contracts have values of these types.

use crate::calls::{EndStep, Feed, Take, WordStep};
use listener::{Message, Mode};
use std::collections::LinkedList;

/// What a seat is for. The first seat is whole until it is cut in two.
pub enum Role {
    Whole,
    Feeds,
    Drains,
    Joined,
    Spent,
}

/// The terms of a pair: how many bytes of records a buffer has room for, and when the store becomes
/// the hold.
#[derive(Clone, Copy, Debug)]
pub struct Profile {
    pub capacity: usize,
    pub mode: Mode,
}

/// What the feeder or the drain knows, or the one seat that has the lists of both.
pub struct View {
    pub role: Role,
    pub profile: Profile,
    /// The feeder's calls and steps; whether it has loaded 0 from `turn` and not yet stored 1
    /// there, and whether it has ended.
    pub feeds: LinkedList<Feed>,
    pub feed_steps: LinkedList<WordStep>,
    pub rotating: bool,
    pub ended: bool,
    /// The drain's calls and steps; what it has taken out of the slot, whether it saw that the
    /// feeder had ended, and whether it has closed.
    pub takes: LinkedList<Take>,
    pub take_steps: LinkedList<WordStep>,
    pub taking: Option<LinkedList<Message>>,
    pub sees_end: bool,
    pub closed: bool,
}

/// What a seat knows: of its own calls, and which steps of both ends it has seen, in their one
/// order, up to its own last one.
pub struct Sight {
    pub view: View,
    /// What the feeder has seen.
    pub feeder_saw: LinkedList<EndStep>,
    /// What the drain has seen.
    pub drain_saw: LinkedList<EndStep>,
}
