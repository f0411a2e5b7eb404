//! Programs as nodes of decision diagrams.

ghost use Rattle.std.specs.Prelude.{◌≡◌, ◌<◌, length, IfOk, IfSome};
ghost use Rattle.filter_symbols.specs.Symbols.{SaysOf, Extends};
ghost use Rattle.filter_diagrams.specs.Programs.{program_test};
ghost use Rattle.filter_diagrams.specs.States.{AreWords, IsInitial};
ghost use Rattle.filter_diagrams.specs.Walks.{AreNodes, AreSpots, IsVisited};

use crate::actions::action_of;
use crate::builder::Builder;
use crate::refusal::Refusal;
use crate::spots::{Spot, Spots};
use crate::state::State;
use crate::steps::Step;
use bpfvm::{Insn, Program};
use filter_bdd::Stop;
use std::alloc::Global;

/// As how many calls on diagrams a visit of a spot counts: it takes as long.
const VISIT: u64 = 256;

/// What became of a spot.
#[derive(Clone, Copy)]
enum Visited {
    /// Its node.
    Node(u32),
    /// A spot after it, which is to be visited first.
    First(Spot),
}

impl Builder {
    /// The state as a run begins.
    fn initial(&mut self) -> Result<State, Stop>
        ensures initial { IfOk result (IsInitial self.new.symbols.words.diagrams) }
        ensures extends { Extends self.old.symbols self.new.symbols }
    {
        Ok(State::of(self.symbols.words.constant(0)?))
    }

    /// The node of a spot, by those of the spots after it; or else a spot after it whose node is
    /// not known.
    #[tactic(auto, using(crate::proofs::Builders::extends_more, crate::proofs::Builders::extends_same, crate::proofs::Builders::inside_extended))]
    #[inline(never)]
    fn node_of(&mut self, spots: &Spots, insns: &[Insn], spot: &Spot) -> Result<Visited, Refusal>
        requires header { IfSome self.old.symbols.header (λ n. n < 16) }
        requires words { AreWords self.old.symbols.words.diagrams spot.now.state }
        requires spots { AreNodes self.old.symbols insns.now spots.now }
        ensures node { IfOk result (IsVisited self.new.symbols insns.now spot.now) }
        ensures extends { Extends self.old.symbols self.new.symbols }
    {
        if spot.place >= insns.len() {
            return Err(Refusal::Places);
        }
        let insn = &insns[spot.place];
        let Some(action) = action_of(insn.code) else {
            return Err(Refusal::Places);
        };
        let next = spot.place + 1;
        let step = self.step(&spot.state, insn, action)?;
        match step {
            Step::On {
                guard,
                passed,
                state,
            } => {
                let after = Spot {
                    place: next + passed as usize,
                    state,
                };
                let Some(rest) = spots.known(&after) else {
                    return Ok(Visited::First(after));
                };
                Ok(Visited::Node(self.both(guard, rest)?))
            }
            Step::Branch(test) => {
                let holds = spot.at(next + usize::from(insn.jt));
                let fails = spot.at(next + usize::from(insn.jf));
                let Some(yes) = spots.known(&holds) else {
                    return Ok(Visited::First(holds));
                };
                let Some(no) = spots.known(&fails) else {
                    return Ok(Visited::First(fails));
                };
                Ok(Visited::Node(self.choice(test, yes, no)?))
            }
            Step::End(node) => Ok(Visited::Node(node)),
        }
    }

    /// Counts a visit of a spot, and the memory of the spots that are kept.
    fn count_visit(&mut self, spots: &Spots) -> Result<(), Stop>
        ensures { Extends self.old.symbols self.new.symbols }
    {
        self.symbols.words.diagrams.set_aside(spots.weight());
        self.symbols.words.diagrams.count(VISIT)
    }

    /// No spot is kept any more.
    fn release(&mut self)
        ensures { Extends self.old.symbols self.new.symbols }
    {
        self.symbols.words.diagrams.set_aside(0);
    }

    /// The node of a spot, which is kept, or else a spot after it whose node is not known.
    #[tactic(auto, using(crate::proofs::Builders::extends_more, crate::proofs::Builders::extends_same, crate::proofs::Builders::inside_extended))]
    #[inline(never)]
    fn visit(&mut self, spots: &mut Spots, insns: &[Insn], spot: &Spot) -> Result<Visited, Refusal>
        requires header { IfSome self.old.symbols.header (λ n. n < 16) }
        requires words { AreWords self.old.symbols.words.diagrams spot.now.state }
        requires spots { AreNodes self.old.symbols insns.now spots.old }
        ensures node { IfOk result (IsVisited self.new.symbols insns.now spot.now) }
        ensures spots { IfOk result (λ v. AreNodes self.new.symbols insns.now spots.new) }
        ensures extends { Extends self.old.symbols self.new.symbols }
    {
        if let Some(node) = spots.known(spot) {
            return Ok(Visited::Node(node));
        }
        self.count_visit(spots)?;
        let here = spots.live(spot);
        match self.node_of(spots, insns, &here)? {
            Visited::Node(node) => Ok(Visited::Node(spots.keep(here, node)?)),
            Visited::First(after) => Ok(Visited::First(after)),
        }
    }

    /// The node of the first spot.
    fn whole(&self, spots: &Spots, insns: &[Insn], start: &Spot) -> Result<u32, Refusal>
        requires spots { AreNodes self.now.symbols insns.now spots.now }
        requires place { start.now.place ≡ 0 }
        requires initial { IsInitial self.now.symbols.words.diagrams start.now.state }
        ensures { IfOk result (SaysOf self.now.symbols (program_test insns.now)) }
    {
        match spots.known(start) {
            Some(node) => Ok(node),
            None => Err(Refusal::Places),
        }
    }

    /// Visits a spot, and returns the one that is to be visited next, if one is. A spot waits while
    /// those after it are visited.
    #[tactic(auto, using(crate::proofs::Builders::extends_more, crate::proofs::Builders::extends_same, crate::proofs::Builders::inside_extended))]
    #[inline(never)]
    fn next_spot(
        &mut self,
        spots: &mut Spots,
        waiting: &mut Vec<Spot>,
        insns: &[Insn],
        spot: Spot,
    ) -> Result<Option<Spot>, Refusal>
        requires header { IfSome self.old.symbols.header (λ n. n < 16) }
        requires words { AreWords self.old.symbols.words.diagrams spot.state }
        requires spots { AreNodes self.old.symbols insns.now spots.old }
        requires waiting { AreSpots self.old.symbols.words.diagrams waiting.old.items }
        ensures next { IfOk result (λ n. IfSome n (λ s. AreWords self.new.symbols.words.diagrams s.state)) }
        ensures spots { IfOk result (λ n. AreNodes self.new.symbols insns.now spots.new) }
        ensures waiting { IfOk result (λ n. AreSpots self.new.symbols.words.diagrams waiting.new.items) }
        ensures extends { Extends self.old.symbols self.new.symbols }
    {
        match self.visit(spots, insns, &spot)? {
            Visited::First(first) => {
                let Ok(()) = waiting.push(spot) else {
                    return Err(Refusal::Memory);
                };
                Ok(Some(first))
            }
            Visited::Node(_) => Ok(waiting.pop()),
        }
    }

    /// A node that says what instructions do. They are walked from the first one on, each place
    /// after those that its run goes on at.
    #[tactic(auto, using(crate::proofs::Builders::extends_more, crate::proofs::Builders::extends_same, crate::proofs::Builders::inside_extended))]
    #[inline(never)]
    fn walk(&mut self, alloc: Global, insns: &[Insn]) -> Result<u32, Refusal>
        requires { IfSome self.old.symbols.header (λ n. n < 16) }
        ensures means { IfOk result (SaysOf self.new.symbols (program_test insns.now)) }
        ensures extends { Extends self.old.symbols self.new.symbols }
    {
        let mut spots = Spots::new(alloc, insns, self.symbols.header.is_some())?;
        let mut waiting = Vec::new(alloc);
        let state = self.initial()?;
        let start = Spot { place: 0, state };
        let mut spot = start;
        for _ in 0..u64::MAX {
            let next = self.next_spot(&mut spots, &mut waiting, insns, spot)?;
            let Some(after) = next else {
                return self.whole(&spots, insns, &start);
            };
            spot = after;
        }
        Err(Refusal::Places)
    }

    /// A node that says what a program says.
    #[tactic(auto, using(crate::proofs::Builders::extends_more, crate::proofs::Builders::extends_same, crate::proofs::Builders::inside_extended))]
    pub fn program(&mut self, alloc: Global, program: &Program) -> Result<u32, Refusal>
        requires { IfSome self.old.symbols.header (λ n. n < 16) }
        ensures means { IfOk result (SaysOf self.new.symbols (program_test program.now)) }
        ensures extends { Extends self.old.symbols self.new.symbols }
    {
        let insns = program.insns();
        let node = self.walk(alloc, insns)?;
        self.release();
        Ok(node)
    }
}
