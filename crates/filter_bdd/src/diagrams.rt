//! Binary decision diagrams, and what joins them.

ghost use Rattle.std.specs.Prelude.{◌≡◌, ℕ, ◌<◌, Bool, cond, length, slice_index_or, IsTrue, IfOk, IfSome, []};
ghost use Rattle.filter_bdd.specs.Answers.{outcome, joined, ite_answer};
ghost use Rattle.filter_bdd.specs.Diagrams.{answer, node_answer, Gives, Grew, IsBefore};
ghost use Rattle.filter_bdd.specs.Calls.{call_answer, IsInside, IsResult, IsStep, IsApplied};

use crate::answer::{Answer, Operation};
use crate::cache::{Call, ComputedCache};
use crate::order::BitOrder;
use crate::table::{Node, Stop, UniqueTable};
use std::alloc::Global;
use std::marker::Model;

/// How many bits deep a call goes at first before it puts the rest off. So it needs a bounded
/// stack.
const DEPTH: u32 = 96;

/// How many more bits deep a later try goes, at most. So a result that the cache forgot is made
/// again of those below it.
const MORE: u64 = 64;

/// How often a call puts off another one that goes on below it. Diagrams that ask for more bits in
/// a row are over the budget.
const LEVELS: u32 = 256;

/// The most entries that the computed cache has.
const MOST_ENTRIES: usize = 1 << 20;

/// As how many calls a step counts. A call whose result is kept or known at once takes about 1/20
/// of the time of a step.
const STEP: u64 = 20;

/// How many calls may be made for each step of a budget, with what its steps count. So a fifth of
/// them is left if all steps are taken.
const CALLS: u64 = 25;

/// What may be spent: the nodes of a table, and steps. A step is a call whose result was not kept.
#[derive(Clone, Copy, Debug, PartialEq, Eq)]
pub struct Budget {
    pub nodes: usize,
    pub steps: u64,
}

/// Binary decision diagrams: their nodes, each of which is there once, and a computed cache of the
/// operations on them.
#[derive(Drop)]
pub struct Diagrams {
    table: UniqueTable,
    cache: ComputedCache,
    order: BitOrder,
    budget: Budget,
    /// How many calls may still be made.
    calls: u64,
    /// As how many nodes the tables count that a caller keeps.
    aside: usize,
}

impl Model for Diagrams {
    ghost use Rattle.std.specs.Prelude.{List};
    ghost use Rattle.filter_bdd.specs.declared.table.Node.{Node};
    ghost use Rattle.filter_bdd.specs.Calls.{AreResults};

    ghost Value = { List Node };

    ghost view = { λ d. d.table };

    ghost invariant = { λ d. AreResults d.table d.cache };
}

/// What is done with the nodes of a call.
#[derive(Clone, Copy)]
enum Step {
    /// All are answers.
    Answers(Answer, Answer, Answer),
    /// One of them asks for this bit.
    Bit(u32),
}

/// What became of a call.
#[derive(Clone, Copy)]
enum Applied {
    /// The place of its node.
    Node(u32),
    /// A call deep below it, whose result is wanted first.
    First(Call),
}

/// The bit that a node asks for, or one that none does.
fn bit_of(node: Node) -> u32 {
    match node {
        Node::Leaf(_) => u32::MAX,
        Node::Branch(bit, _, _) => bit,
    }
}

/// What is done with three nodes: the bit is the one that is asked for first.
fn step_of(order: &BitOrder, first: Node, second: Node, third: Node) -> Step
    ensures { IsStep first second third result }
{
    match (first, second, third) {
        (Node::Leaf(first), Node::Leaf(second), Node::Leaf(third)) => {
            Step::Answers(first, second, third)
        }
        _ => {
            let other = order.earlier(bit_of(second), bit_of(third));
            Step::Bit(order.earlier(bit_of(first), other))
        }
    }
}

impl Diagrams {
    /// No node yet.
    pub fn new(alloc: Global, budget: Budget) -> Diagrams
        ensures { result ≡ [] }
    {
        Diagrams {
            table: UniqueTable::new(alloc),
            cache: ComputedCache::empty(alloc),
            order: BitOrder::natural(alloc),
            budget,
            calls: budget.steps.saturating_mul(CALLS),
            aside: 0,
        }
    }

    /// Takes all nodes away, and sets the order in which the bits of the next ones are asked for.
    /// The memory of the nodes is kept. What was spent of the budget's steps stays spent.
    pub fn restart(&mut self, order: BitOrder)
        ensures { self.new ≡ [] }
    {
        self.table.clear();
        self.cache.clear();
        self.order = order;
        self.aside = 0;
    }

    /// Sets the order in which bits are asked for. It is to be set before nodes are made: two nodes
    /// that ask in other orders may say the same and not be one.
    pub fn set_order(&mut self, order: BitOrder)
        ensures { self.new ≡ self.old }
    {
        self.order = order;
    }

    /// How many nodes there are.
    pub fn len(&self) -> usize
        ensures { result ≡ length self.now }
    {
        self.table.len()
    }

    /// What is left of the budget.
    pub fn budget(&self) -> Budget {
        self.budget
    }

    /// Whether no more node may be made.
    pub fn is_full(&self) -> bool {
        self.table.len().saturating_add(self.aside) >= self.budget.nodes
    }

    /// Says as how many nodes the tables count that a caller keeps.
    pub fn set_aside(&mut self, nodes: usize)
        ensures { self.new ≡ self.old }
    {
        self.aside = nodes;
    }

    /// Counts what takes as long as this many calls whose results are kept. The steps are spent if
    /// that is too much.
    pub fn count(&mut self, calls: u64) -> Result<(), Stop>
        ensures { self.new ≡ self.old }
    {
        let Some(left) = self.calls.checked_sub(calls) else {
            self.budget.steps = 0;
            return Err(Stop::Budget);
        };
        self.calls = left;
        Ok(())
    }

    /// The node at a place.
    pub fn node(&self, place: u32) -> Node
        requires { place < length self.now }
        ensures node { result ≡ slice_index_or self.now place (Node.Leaf Answer.Never) }
        ensures before { IsBefore place result }
        ensures says { (v : ℕ → Bool) → answer self.now v place ≡ node_answer self.now result v }
    {
        self.table.node(place)
    }

    /// Takes a step from the budget.
    fn spend(&mut self) -> Result<(), Stop>
        ensures { self.new ≡ self.old }
    {
        self.count(STEP)?;
        let Some(left) = self.budget.steps.checked_sub(1) else {
            return Err(Stop::Budget);
        };
        self.budget.steps = left;
        Ok(())
    }

    /// The place of a node, which is added if it is not there.
    fn place(&mut self, node: Node) -> Result<u32, Stop>
        requires { IsBefore (length self.old) node }
        ensures gives { IfOk result (Gives self.new (node_answer self.old node)) }
        ensures grew { Grew self.old self.new }
    {
        if self.is_full() {
            return Err(Stop::Budget);
        }
        self.table.place(node)
    }

    /// A node that gives an answer.
    pub fn leaf(&mut self, says: Answer) -> Result<u32, Stop>
        ensures gives { IfOk result (Gives self.new (λ v. says)) }
        ensures grew { Grew self.old self.new }
    {
        self.place(Node::Leaf(says))
    }

    /// A node that goes on at one of two others, by a bit that is asked for before theirs.
    #[tactic(auto, using(crate::proofs::Tables::grown_more, crate::proofs::Tables::grown_same, crate::proofs::Tables::grown_inside))]
    pub fn branch(&mut self, bit: u32, zero: u32, one: u32) -> Result<u32, Stop>
        requires zero { zero < length self.old }
        requires one { one < length self.old }
        ensures gives { IfOk result (Gives self.new (λ v. cond (v bit) (answer self.old v one) (answer self.old v zero))) }
        ensures grew { Grew self.old self.new }
    {
        if zero == one {
            return Ok(zero);
        }
        self.place(Node::Branch(bit, zero, one))
    }

    /// Whether a bit is asked for before all that a node asks for.
    fn is_before(&self, bit: u32, place: u32) -> bool
        requires { place < length self.now }
    {
        match self.node(place) {
            Node::Leaf(_) => true,
            Node::Branch(asked, _, _) => self.order.is_before(bit, asked),
        }
    }

    /// Where a node goes on if a bit is known: at one of its children, or where it does not ask for
    /// the bit at itself.
    fn half(&self, place: u32, bit: u32, one: bool) -> u32
        requires { place < length self.now }
        ensures inside { result < length self.now }
        ensures says { (v : ℕ → Bool) → v bit ≡ one → answer self.now v result ≡ answer self.now v place }
    {
        match self.node(place) {
            Node::Branch(asked, zero, other) if asked == bit => { if one { other } else { zero } }
            _ => place,
        }
    }

    /// The same call, if a bit is known.
    fn half_of(&self, call: Call, bit: u32, one: bool) -> Call
        requires { IsInside self.now call }
        ensures inside { IsInside self.now result }
        ensures says { (v : ℕ → Bool) → v bit ≡ one → call_answer self.now result v ≡ call_answer self.now call v }
    {
        Call {
            operation: call.operation,
            first: self.half(call.first, bit, one),
            second: self.half(call.second, bit, one),
            third: self.half(call.third, bit, one),
        }
    }

    /// Whether the first node of a call is the whole, by what the others answer.
    fn keeps_first(&self, call: Call) -> bool
        requires { IsInside self.now call }
        ensures { IsTrue result → (v : ℕ → Bool) → call_answer self.now call v ≡ answer self.now v call.first }
    {
        match (self.node(call.second), self.node(call.third)) {
            (Node::Leaf(second), Node::Leaf(third)) => call.operation.keeps_first(second, third),
            _ => false,
        }
    }

    /// Where the node of a call is, if that takes no step.
    fn known(&self, call: Call) -> Option<u32>
        requires { IsInside self.now call }
        ensures { IfSome result (IsResult self.now call) }
    {
        if call.operation.keeps_same() && call.first == call.second {
            return Some(call.first);
        }
        if self.keeps_first(call) {
            return Some(call.first);
        }
        if let Node::Leaf(says) = self.node(call.first) {
            if call.operation.ends_at(says) {
                return Some(call.first);
            }
            if call.operation.passes(says) {
                return Some(call.second);
            }
            if call.operation.skips(says) {
                return Some(call.third);
            }
        }
        self.cache.get(call)
    }

    /// Keeps the node of a call, and returns its place. The cache has about as many entries as
    /// there are nodes, up to its most.
    fn keep(&mut self, call: Call, place: u32) -> Result<u32, Stop>
        requires inside { IsInside self.old call }
        requires result { IsResult self.old call place }
        ensures gives { IfOk result (IsResult self.old call) }
        ensures same { self.new ≡ self.old }
    {
        let size = self.cache.len();
        if size < MOST_ENTRIES && size <= self.table.len() {
            let wider = self.cache.wider()?;
            self.cache = wider;
        }
        self.cache.put(call, place);
        Ok(place)
    }

    /// The node of a call on answers.
    #[tactic(auto, using(crate::proofs::Tables::grown_more, crate::proofs::Tables::grown_same, crate::proofs::Tables::grown_inside))]
    fn apply_answers(
        &mut self,
        call: Call,
        first: Answer,
        second: Answer,
        third: Answer,
    ) -> Result<u32, Stop>
        requires inside { IsInside self.old call }
        requires is { (v : ℕ → Bool) → outcome call.operation first second third ≡ call_answer self.old call v }
        ensures gives { IfOk result (Gives self.new (call_answer self.old call)) }
        ensures grew { Grew self.old self.new }
    {
        let place = self.leaf(call.operation.of(first, second, third))?;
        self.keep(call, place)
    }

    /// The node of a call, by those of its halves.
    #[tactic(auto, using(crate::proofs::Tables::grown_more, crate::proofs::Tables::grown_same, crate::proofs::Tables::grown_inside))]
    fn apply_halves(&mut self, call: Call, bit: u32, zero: u32, one: u32) -> Result<u32, Stop>
        requires inside { IsInside self.old call }
        requires zero { zero < length self.old }
        requires one { one < length self.old }
        requires whole { (v : ℕ → Bool) → cond (v bit) (answer self.old v one) (answer self.old v zero) ≡ call_answer self.old call v }
        ensures gives { IfOk result (Gives self.new (call_answer self.old call)) }
        ensures grew { Grew self.old self.new }
    {
        let place = self.branch(bit, zero, one)?;
        self.keep(call, place)
    }

    /// The node of a call that goes at most `depth` bits deep, or else a call below it that is
    /// wanted first.
    #[tactic(auto, using(crate::proofs::Tables::grown_more, crate::proofs::Tables::grown_same, crate::proofs::Tables::grown_inside))]
    fn apply_within(&mut self, call: Call, depth: u32) -> Result<Applied, Stop>
        requires { IsInside self.old call }
        ensures applied { IfOk result (IsApplied self.old self.new call) }
        ensures grew { Grew self.old self.new }
    {
        if let Some(place) = self.known(call) {
            return Ok(Applied::Node(place));
        }
        self.spend()?;
        let step = step_of(
            &self.order,
            self.node(call.first),
            self.node(call.second),
            self.node(call.third),
        );
        let bit = match step {
            Step::Answers(first, second, third) => {
                return Ok(Applied::Node(self.apply_answers(call, first, second, third)?));
            }
            Step::Bit(bit) => bit,
        };
        let Some(rest) = depth.checked_sub(1) else {
            return Ok(Applied::First(call));
        };
        let low = self.half_of(call, bit, false);
        let high = self.half_of(call, bit, true);
        let zero = match self.apply_within(low, rest)? {
            Applied::Node(place) => place,
            Applied::First(inner) => return Ok(Applied::First(inner)),
        };
        let one = match self.apply_within(high, rest)? {
            Applied::Node(place) => place,
            Applied::First(inner) => return Ok(Applied::First(inner)),
        };
        Ok(Applied::Node(self.apply_halves(call, bit, zero, one)?))
    }

    /// The node of a call. It puts off calls that go on far below, and tries again with what they
    /// gave.
    #[tactic(auto, using(crate::proofs::Tables::grown_more, crate::proofs::Tables::grown_same, crate::proofs::Tables::grown_inside))]
    fn apply_call(&mut self, call: Call, levels: u32) -> Result<u32, Stop>
        requires { IsInside self.old call }
        ensures gives { IfOk result (Gives self.new (call_answer self.old call)) }
        ensures grew { Grew self.old self.new }
    {
        let Some(rest) = levels.checked_sub(1) else {
            return Err(Stop::Budget);
        };
        self.count(1)?;
        for attempt in 0..u64::MAX {
            let more = (attempt % MORE) as u32;
            let inner = match self.apply_within(call, DEPTH + more)? {
                Applied::Node(place) => return Ok(place),
                Applied::First(inner) => inner,
            };
            self.apply_call(inner, rest)?;
        }
        Err(Stop::Budget)
    }

    /// A node that answers what an operation makes of the answers of two nodes.
    pub fn apply(&mut self, operation: Operation, first: u32, second: u32) -> Result<u32, Stop>
        requires first { first < length self.old }
        requires second { second < length self.old }
        ensures gives { IfOk result (Gives self.new (λ v. joined operation (answer self.old v first) (answer self.old v second))) }
        ensures grew { Grew self.old self.new }
    {
        let call = Call {
            operation,
            first,
            second,
            third: second,
        };
        self.apply_call(call, LEVELS)
    }

    /// A node that goes on at `yes` or at `no`, by what the node `test` answers.
    pub fn ite(&mut self, test: u32, yes: u32, no: u32) -> Result<u32, Stop>
        requires test { test < length self.old }
        requires yes { yes < length self.old }
        requires no { no < length self.old }
        ensures gives { IfOk result (Gives self.new (λ v. ite_answer (answer self.old v test) (answer self.old v yes) (answer self.old v no))) }
        ensures grew { Grew self.old self.new }
    {
        let call = Call {
            operation: Operation::Ite,
            first: test,
            second: yes,
            third: no,
        };
        self.apply_call(call, LEVELS)
    }

    /// A node that goes on at one of two others, by a bit, whichever bits they ask for.
    #[tactic(auto, using(crate::proofs::Tables::grown_more, crate::proofs::Tables::grown_same, crate::proofs::Tables::grown_inside))]
    pub fn by_bit(&mut self, bit: u32, zero: u32, one: u32) -> Result<u32, Stop>
        requires zero { zero < length self.old }
        requires one { one < length self.old }
        ensures gives { IfOk result (Gives self.new (λ v. cond (v bit) (answer self.old v one) (answer self.old v zero))) }
        ensures grew { Grew self.old self.new }
    {
        if self.is_before(bit, zero) && self.is_before(bit, one) {
            return self.branch(bit, zero, one);
        }
        let no = self.leaf(Answer::Final(0, false))?;
        let yes = self.leaf(Answer::Final(0, true))?;
        let holds = self.branch(bit, no, yes)?;
        self.ite(holds, one, zero)
    }

    /// Whether a node gives one answer to everything.
    pub fn is(&self, place: u32, says: Answer) -> bool
        requires { place < length self.now }
        ensures { IsTrue result → (v : ℕ → Bool) → answer self.now v place ≡ says }
    {
        self.node(place) == Node::Leaf(says)
    }
}
