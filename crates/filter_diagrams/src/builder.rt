//! Tests as nodes of decision diagrams, and how they are joined.

ghost use Rattle.std.specs.Prelude.{◌≡◌, ℕ, ◌<◌, Bool, length, IfOk, IfSome, if◌then◌else◌};
ghost use Rattle.filter_bdd.specs.Diagrams.{Gives};
ghost use Rattle.filter_meaning.specs.Meaning.{Packet, Test, and_test, or_test, not_test, by_direction, decided};
ghost use Rattle.filter_symbols.specs.Packets.{IsPacket, HasHeader, verdict_at};
ghost use Rattle.filter_symbols.specs.Symbols.{SaysOf, Extends};

use filter_bdd::{Answer, BitOrder, Budget, Operation, Stop};
use filter_symbols::Symbols;
use filter_tree::Direction;
use std::alloc::Global;

/// Makes nodes that say what tests say of packets: of all of them, or of those whose IPv4 header
/// has a given number of words.
#[derive(Drop)]
pub struct Builder {
    pub symbols: Symbols,
}

impl Builder {
    /// No node yet. Nodes will ask for bits in this order.
    pub fn new(alloc: Global, header: Option<u32>, budget: Budget, order: BitOrder) -> Builder
        ensures { result.symbols.header ≡ header }
    {
        let mut symbols = Symbols::new(alloc, header, budget);
        symbols.words.diagrams.set_order(order);
        Builder { symbols }
    }

    /// Takes all nodes away, for packets of this header length, and sets the order in which the
    /// next ones ask for bits. What was spent of the budget's steps stays spent.
    pub fn restart(&mut self, header: Option<u32>, order: BitOrder)
        ensures { self.new.symbols.header ≡ header }
    {
        self.symbols.header = header;
        self.symbols.words.diagrams.restart(order);
    }

    /// A node that gives an answer.
    #[tactic(auto, using(crate::proofs::Builders::extends_by))]
    #[inline(never)]
    pub(crate) fn leaf(&mut self, says: Answer) -> Result<u32, Stop>
        ensures gives { IfOk result (Gives self.new.symbols.words.diagrams (λ v. says)) }
        ensures extends { Extends self.old.symbols self.new.symbols }
    {
        self.symbols.words.diagrams.leaf(says)
    }

    /// `and` of two tests.
    #[tactic(auto, using(crate::proofs::Builders::extends_by))]
    #[inline(never)]
    pub(crate) fn both(&mut self, first: u32, second: u32) -> Result<u32, Stop>
        requires first { first < length self.old.symbols.words.diagrams }
        requires second { second < length self.old.symbols.words.diagrams }
        ensures means { IfOk result (λ i. (t u : Test) → SaysOf self.old.symbols t first → SaysOf self.old.symbols u second → SaysOf self.new.symbols (and_test t u) i) }
        ensures inside { IfOk result (λ i. i < length self.new.symbols.words.diagrams) }
        ensures extends { Extends self.old.symbols self.new.symbols }
    {
        self.symbols
            .words
            .diagrams
            .apply(Operation::And, first, second)
    }

    /// `or` of two tests.
    #[tactic(auto, using(crate::proofs::Builders::extends_by))]
    #[inline(never)]
    pub(crate) fn either(&mut self, first: u32, second: u32) -> Result<u32, Stop>
        requires first { first < length self.old.symbols.words.diagrams }
        requires second { second < length self.old.symbols.words.diagrams }
        ensures means { IfOk result (λ i. (t u : Test) → SaysOf self.old.symbols t first → SaysOf self.old.symbols u second → SaysOf self.new.symbols (or_test t u) i) }
        ensures inside { IfOk result (λ i. i < length self.new.symbols.words.diagrams) }
        ensures extends { Extends self.old.symbols self.new.symbols }
    {
        self.symbols
            .words
            .diagrams
            .apply(Operation::Or, first, second)
    }

    /// `not` of a test.
    #[tactic(auto, using(crate::proofs::Builders::extends_by, crate::proofs::Builders::extends_more, crate::proofs::Builders::inside_extended))]
    #[inline(never)]
    pub(crate) fn opposite(&mut self, place: u32) -> Result<u32, Stop>
        requires { place < length self.old.symbols.words.diagrams }
        ensures means { IfOk result (λ i. (t : Test) → SaysOf self.old.symbols t place → SaysOf self.new.symbols (not_test t) i) }
        ensures inside { IfOk result (λ i. i < length self.new.symbols.words.diagrams) }
        ensures extends { Extends self.old.symbols self.new.symbols }
    {
        let yes = self.leaf(Answer::Final(0, true))?;
        self.symbols
            .words
            .diagrams
            .apply(Operation::Xor, yes, place)
    }

    /// One of two nodes, by a node that says whether something holds.
    #[tactic(auto, using(crate::proofs::Builders::extends_by))]
    pub(crate) fn choice(&mut self, holds: u32, yes: u32, no: u32) -> Result<u32, Stop>
        requires holds { holds < length self.old.symbols.words.diagrams }
        requires yes { yes < length self.old.symbols.words.diagrams }
        requires no { no < length self.old.symbols.words.diagrams }
        ensures says { IfOk result (λ i. (p : Packet) → (b : Bool) → verdict_at self.old.symbols.words.diagrams holds p ≡ decided b
            → verdict_at self.new.symbols.words.diagrams i p ≡ (if b then verdict_at self.old.symbols.words.diagrams yes p else verdict_at self.old.symbols.words.diagrams no p)) }
        ensures inside { IfOk result (λ i. i < length self.new.symbols.words.diagrams) }
        ensures extends { Extends self.old.symbols self.new.symbols }
    {
        self.symbols.words.diagrams.ite(holds, yes, no)
    }

    /// The source's test, the destination's, or both, joined.
    pub(crate) fn directed(
        &mut self,
        direction: Direction,
        source: u32,
        destination: u32,
    ) -> Result<u32, Stop>
        requires source { source < length self.old.symbols.words.diagrams }
        requires destination { destination < length self.old.symbols.words.diagrams }
        ensures means { IfOk result (λ i. (t u : Test) → SaysOf self.old.symbols t source → SaysOf self.old.symbols u destination → SaysOf self.new.symbols (by_direction direction t u) i) }
        ensures inside { IfOk result (λ i. i < length self.new.symbols.words.diagrams) }
        ensures extends { Extends self.old.symbols self.new.symbols }
    {
        match direction {
            Direction::Src => Ok(source),
            Direction::Dst => Ok(destination),
            Direction::SrcOrDst => self.either(source, destination),
            Direction::SrcAndDst => self.both(source, destination),
        }
    }
}
