//! Why a filter has no diagram.

use crate::builder::Builder;
use filter_bdd::Stop;

/// Why a filter has no diagram, or two are not compared.
#[derive(Clone, Copy, Debug, PartialEq, Eq)]
pub enum Refusal {
    /// Memory was refused.
    Memory,
    /// The budget's nodes are spent.
    Nodes,
    /// The budget's steps are spent.
    Steps,
    /// Something else is too much: a byte is too far from the first one, or too many bits are asked
    /// for in a row.
    Budget,
    /// A program is walked at too many places, each with other numbers, or at one without an
    /// instruction. Or its places and the nodes are too many together.
    Places,
    /// The length of the IPv4 header is asked for, and not given.
    Header,
}

impl From<Stop> for Refusal {
    fn from(stop: Stop) -> Refusal {
        match stop {
            Stop::Memory => Refusal::Memory,
            Stop::Budget => Refusal::Budget,
        }
    }
}

impl From<filter_symbols::Refusal> for Refusal {
    fn from(refusal: filter_symbols::Refusal) -> Refusal {
        match refusal {
            filter_symbols::Refusal::Memory => Refusal::Memory,
            filter_symbols::Refusal::Budget => Refusal::Budget,
            filter_symbols::Refusal::Header => Refusal::Header,
        }
    }
}

impl Refusal {
    /// The same, or which part of the budget is spent, by what the builder has left.
    pub fn of(self, builder: &Builder) -> Refusal {
        if self != Refusal::Budget {
            return self;
        }
        let diagrams = &builder.symbols.words.diagrams;
        let left = diagrams.budget();
        if left.steps == 0 {
            return Refusal::Steps;
        }
        if diagrams.len() >= left.nodes {
            return Refusal::Nodes;
        }
        if diagrams.is_full() {
            return Refusal::Places;
        }
        self
    }
}
