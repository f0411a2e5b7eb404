//! Tables of nodes, each of which is there once.

ghost use Rattle.std.specs.Prelude.{◌≡◌, ◌<◌, ℕ, Bool, Some, length, slice_get, slice_index_or, IfOk, IfSome, []};
ghost use Rattle.filter_bdd.specs.Diagrams.{answer, node_answer, Gives, Grew, IsBefore, IsTable};

use crate::answer::Answer;
use std::alloc::Global;
use std::marker::Model;

/// A node of a diagram: an answer, or a bit and the places of the nodes that go on if it is 0
/// and if it is 1.
#[derive(Clone, Copy, Debug, PartialEq, Eq)]
pub enum Node {
    Leaf(Answer),
    Branch(u32, u32, u32),
}

/// Why a node was not made.
#[derive(Clone, Copy, Debug, PartialEq, Eq)]
pub enum Stop {
    /// Memory was refused.
    Memory,
    /// The budget is spent.
    Budget,
}

/// How many lists of nodes a table begins with.
const LISTS: usize = 1024;

/// One number of three, which are seldom the same of others.
pub(crate) fn mixed(first: u32, second: u32, third: u32) -> usize {
    let high = u64::from(first).wrapping_mul(0x9e37_79b9_7f4a_7c15);
    let middle = u64::from(second).wrapping_mul(0xc2b2_ae3d_27d4_eb4f);
    let low = u64::from(third).wrapping_mul(0x1656_67b1_9e37_79f9);
    let sum = (high ^ middle ^ low).wrapping_mul(0xbf58_476d_1ce4_e5b9);
    ((sum >> 32) ^ (sum >> 7)) as usize
}

impl Node {
    /// A number that is the same of equal nodes, and seldom of others.
    fn hash(self) -> usize {
        match self {
            Node::Leaf(Answer::Final(need, says)) => mixed(need, u32::from(says), 1),
            Node::Leaf(Answer::Never) => mixed(0, 2, 1),
            Node::Branch(bit, zero, one) => mixed(bit, zero, one),
        }
    }
}

/// Nodes by their places, each once. A node names only nodes before it.
///
/// The nodes are in lists, by their hashes. A list is the place of its last node, and each node has
/// that of the one before it in its list. Such a place is one more than it is, and 0 if there is
/// none.
#[derive(Drop)]
pub(crate) struct UniqueTable {
    nodes: Vec<Node>,
    before: Vec<u32>,
    lists: Vec<u32>,
}

impl Model for UniqueTable {
    ghost use Rattle.std.specs.Prelude.{List};
    ghost use Rattle.filter_bdd.specs.declared.table.Node.{Node};
    ghost use Rattle.filter_bdd.specs.Diagrams.{IsTable};

    ghost Value = { List Node };

    ghost view = { λ t. t.nodes.items };

    ghost invariant = { λ t. IsTable t.nodes.items };
}

impl UniqueTable {
    /// A table with no node.
    pub fn new(alloc: Global) -> UniqueTable
        ensures { result ≡ [] }
    {
        UniqueTable {
            nodes: Vec::new(alloc),
            before: Vec::new(alloc),
            lists: Vec::new(alloc),
        }
    }

    /// Takes all nodes away. Their memory is kept for new ones.
    pub fn clear(&mut self)
        ensures { self.new ≡ [] }
    {
        self.nodes.clear();
        self.before.clear();
        self.lists.clear();
    }

    /// How many nodes there are.
    pub fn len(&self) -> usize
        ensures { result ≡ length self.now }
    {
        self.nodes.len()
    }

    /// The node at a place.
    pub fn node(&self, place: u32) -> Node
        requires { place < length self.now }
        ensures node { result ≡ slice_index_or self.now place (Node.Leaf Answer.Never) }
        ensures before { IsBefore place result }
        ensures says { (v : ℕ → Bool) → answer self.now v place ≡ node_answer self.now result v }
    {
        self.nodes[place as usize]
    }

    /// The list that nodes of a hash are in.
    fn list(&self, hash: usize) -> usize {
        hash & self.lists.len().saturating_sub(1)
    }

    /// The place of a node, if it is there.
    fn find(&self, node: Node, hash: usize) -> Option<u32>
        ensures found { IfSome result (λ i. slice_get self.now i ≡ Some node) }
        ensures table { IsTable self.now }
    {
        let mut last = *self.lists.get(self.list(hash))?;
        for _ in 0..self.nodes.len() {
            let place = last.checked_sub(1)?;
            if *self.nodes.get(place as usize)? == node {
                return Some(place);
            }
            last = *self.before.get(place as usize)?;
        }
        None
    }

    /// Puts the node at a place, which is below the number of nodes, into its list.
    fn enlist(&mut self, place: usize, number: u32, hash: usize)
        ensures { self.new ≡ self.old }
    {
        let list = self.list(hash);
        if let Some(last) = self.lists.get_mut(list) {
            if let Some(before) = self.before.get_mut(place) {
                *before = *last;
                *last = number;
            }
        }
    }

    /// Makes as many lists again, and puts each node into its list.
    fn widen(&mut self) -> Result<(), Stop>
        ensures { self.new ≡ self.old }
    {
        let alloc = *self.nodes.allocator();
        let count = self.lists.len().saturating_mul(2).max(LISTS);
        let Ok(lists) = vec![in alloc; 0u32; count] else {
            return Err(Stop::Memory);
        };
        self.lists = lists;
        for place in 0..self.nodes.len() {
            let Ok(number) = u32::try_from(place + 1) else {
                return Err(Stop::Budget);
            };
            let hash = self.nodes[place].hash();
            self.enlist(place, number, hash);
        }
        Ok(())
    }

    /// Makes more lists if there are as many nodes.
    fn reserve(&mut self) -> Result<(), Stop>
        ensures { self.new ≡ self.old }
    {
        if self.nodes.len() < self.lists.len() {
            return Ok(());
        }
        self.widen()
    }

    /// Adds a node.
    fn add(&mut self, node: Node, hash: usize) -> Result<u32, Stop>
        requires { IsBefore (length self.old) node }
        ensures gives { IfOk result (Gives self.new (node_answer self.old node)) }
        ensures grew { Grew self.old self.new }
    {
        self.reserve()?;
        let count = self.nodes.len();
        let Ok(place) = u32::try_from(count) else {
            return Err(Stop::Budget);
        };
        let Some(number) = place.checked_add(1) else {
            return Err(Stop::Budget);
        };
        if self.before.push(0).is_err() {
            return Err(Stop::Memory);
        }
        if self.nodes.push(node).is_err() {
            return Err(Stop::Memory);
        }
        self.enlist(count, number, hash);
        Ok(place)
    }

    /// The place of a node, which is added if it is not there.
    pub fn place(&mut self, node: Node) -> Result<u32, Stop>
        requires { IsBefore (length self.old) node }
        ensures gives { IfOk result (Gives self.new (node_answer self.old node)) }
        ensures grew { Grew self.old self.new }
    {
        let hash = node.hash();
        match self.find(node, hash) {
            Some(place) => Ok(place),
            None => self.add(node, hash),
        }
    }
}
