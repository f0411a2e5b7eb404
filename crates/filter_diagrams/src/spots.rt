//! Places of a program that were walked.

ghost use Rattle.std.specs.Prelude.{◌≡◌, List, IfOk, IfSome, IsTrue, []};
ghost use Rattle.bpfvm.specs.declared.insn.Insn.{Insn};
ghost use Rattle.filter_symbols.specs.declared.symbol.Symbols.{Symbols};
ghost use Rattle.filter_diagrams.specs.States.{AreWords, IsPart};
ghost use Rattle.filter_diagrams.specs.Walks.{IsNodeOf, AreNodes};

use crate::live::{Live, live_of};
use crate::refusal::Refusal;
use crate::state::State;
use bpfvm::Insn;
use filter_bdd::Stop;
use indexmap::IndexMap;
use std::alloc::Global;
use std::marker::Model;

/// The most places that are kept, each with a state, if no header length is given. A state has
/// 2,376 bytes.
const MOST_SPOTS: usize = 1 << 15;

/// The same if one is given: there are sixteen, one after the other.
const MOST_OF_EACH: usize = 1 << 13;

/// As how many nodes of a diagram a place counts that is kept: it takes as much memory.
const NODES: usize = 60;

/// A place of a program, and a state there.
#[derive(Clone, Copy, Debug, PartialEq, Eq)]
pub(crate) struct Spot {
    pub place: usize,
    pub state: State,
}

impl Spot {
    /// Whether it is the same place, with the same words.
    #[tactic(auto, using(crate::proofs::States::spots_same))]
    fn is(&self, other: &Spot) -> bool
        ensures { IsTrue result → self.now ≡ other.now }
    {
        self.place == other.place && self.state == other.state
    }

    /// Another place, with the same state.
    pub fn at(&self, place: usize) -> Spot
        ensures place { result.place ≡ place }
        ensures state { result.state ≡ self.now.state }
    {
        Spot {
            place,
            state: self.state,
        }
    }
}

/// The nodes of the spots that were walked.
#[derive(Drop)]
pub(crate) struct Spots {
    nodes: Vec<(Spot, u32)>,
    /// Where in `nodes` a spot is, by its digest.
    places: IndexMap<u64, usize>,
    /// What the program reads again, by its places.
    live: Vec<Live>,
    /// How many may be kept.
    most: usize,
}

impl Model for Spots {
    ghost use Rattle.std.specs.Prelude.{List, ℕ};
    ghost use Rattle.filter_diagrams.specs.declared.spots.Spot.{Spot};

    ghost Value = { List (Spot × ℕ) };

    ghost view = { λ s. s.nodes.items };
}

impl Spots {
    /// No spot of a program was walked. Fewer may be kept if it is walked for each header length.
    pub fn new(alloc: Global, insns: &[Insn], each: bool) -> Result<Spots, Stop>
        ensures { IfOk result (λ s. s ≡ []) }
    {
        Ok(Spots {
            nodes: Vec::new(alloc),
            places: IndexMap::new(alloc),
            live: live_of(alloc, insns)?,
            most: if each { MOST_OF_EACH } else { MOST_SPOTS },
        })
    }

    /// As how many nodes of a diagram the spots count.
    pub fn weight(&self) -> usize {
        self.nodes.len().saturating_mul(NODES)
    }

    /// The same spot without what is not read again. So places where runs meet are walked once.
    pub fn live(&self, spot: &Spot) -> Spot
        ensures place { result.place ≡ spot.now.place }
        ensures state { IsPart spot.now.state result.state }
    {
        let live = self.live.get(spot.place).copied().unwrap_or(Live::NOTHING);
        Spot {
            place: spot.place,
            state: spot.state.live(live),
        }
    }

    /// The node of a spot that has nothing but what is read again, if it was walked.
    fn node(&self, spot: &Spot) -> Option<u32>
        ensures { IfSome result (λ i. (b : Symbols) → (insns : List Insn) → AreNodes b insns self.now
            → IsNodeOf b insns spot.now i) }
    {
        let digest = spot.state.digest(spot.place);
        let place = self.places.get(&digest).copied()?;
        if place >= self.nodes.len() {
            return None;
        }
        let (walked, node) = self.nodes[place];
        if walked.is(spot) { Some(node) } else { None }
    }

    /// The node of a spot, if it was walked.
    pub fn known(&self, spot: &Spot) -> Option<u32>
        ensures { IfSome result (λ i. (b : Symbols) → (insns : List Insn) → AreNodes b insns self.now
            → AreWords b.words.diagrams spot.now.state → IsNodeOf b insns spot.now i) }
    {
        self.node(&self.live(spot))
    }

    /// Keeps the node of a spot, and returns it.
    pub fn keep(&mut self, spot: Spot, node: u32) -> Result<u32, Refusal>
        ensures node { IfOk result (λ i. i ≡ node) }
        ensures kept { IfOk result (λ i. (b : Symbols) → (insns : List Insn) → AreNodes b insns self.old
            → IsNodeOf b insns spot node → AreNodes b insns self.new) }
    {
        let place = self.nodes.len();
        if place >= self.most {
            return Err(Refusal::Places);
        }
        let digest = spot.state.digest(spot.place);
        let Ok(()) = self.nodes.push((spot, node)) else {
            return Err(Refusal::Memory);
        };
        let Ok(_) = self.places.insert(digest, place) else {
            return Err(Refusal::Memory);
        };
        Ok(node)
    }
}
