//! Symbols, and what makes them.

ghost use Rattle.std.specs.Prelude.{◌≡◌};

use filter_bdd::{Budget, Stop};
use filter_words::{Word, Words};
use std::alloc::Global;

/// A number of a packet.
#[derive(Clone, Copy, Debug, PartialEq, Eq)]
pub struct Symbol {
    /// A node that says Yes of the packets that have the number. It aborts on the others: they lack
    /// a byte, or the number is a quotient by 0.
    pub guard: u32,
    /// The number of the packets that have it.
    pub word: Word,
}

/// Why no symbol was made.
#[derive(Clone, Copy, Debug, PartialEq, Eq)]
pub enum Refusal {
    /// Memory was refused.
    Memory,
    /// The budget is spent, or a byte is wanted that is too far from the first one.
    Budget,
    /// The length of the IPv4 header is asked for, and not given.
    Header,
}

impl From<Stop> for Refusal {
    fn from(stop: Stop) -> Refusal {
        match stop {
            Stop::Memory => Refusal::Memory,
            Stop::Budget => Refusal::Budget,
        }
    }
}

/// Makes symbols of packets, of those whose IPv4 header has `header` words if that is some.
///
/// Every call may return an error. Nodes and words that were made before stay as they are.
#[derive(Drop)]
pub struct Symbols {
    pub words: Words,
    pub header: Option<u32>,
}

impl Symbols {
    /// No symbol yet.
    pub fn new(alloc: Global, header: Option<u32>, budget: Budget) -> Symbols
        ensures { result.header ≡ header }
    {
        Symbols {
            words: Words::new(alloc, budget),
            header,
        }
    }
}
