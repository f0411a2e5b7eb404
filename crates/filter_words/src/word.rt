//! Words, and what makes them.

ghost use Rattle.std.specs.Prelude.{◌≡◌, []};

use filter_bdd::{Budget, Diagrams};
use std::alloc::Global;

/// A number of 32 bits: the places of their nodes, the lowest bit first.
#[derive(Clone, Copy, Debug, PartialEq, Eq)]
pub struct Word {
    pub bits: [u32; 32],
}

/// Makes words, and what is asked of them, in decision diagrams.
///
/// Every call may return a `Stop`: memory was refused, or the budget is spent. Nodes and words that
/// were made before stay as they are.
#[derive(Drop)]
pub struct Words {
    pub diagrams: Diagrams,
}

impl Words {
    /// No node yet.
    pub fn new(alloc: Global, budget: Budget) -> Words
        ensures { result.diagrams ≡ [] }
    {
        Words {
            diagrams: Diagrams::new(alloc, budget),
        }
    }
}
