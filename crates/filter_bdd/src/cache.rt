//! A computed cache: what was joined, as far as it is kept.

ghost use Rattle.std.specs.Prelude.{◌≡◌, ℕ, List, [], IfSome, IfOk};
ghost use Rattle.filter_bdd.specs.declared.table.Node.{Node};
ghost use Rattle.filter_bdd.specs.Calls.{IsInside, IsResult, AreResults};

use crate::answer::Operation;
use crate::table::{Stop, mixed};
use std::alloc::Global;
use std::marker::Model;

/// How many entries a cache begins with.
const ENTRIES: usize = 1024;

/// An operation on nodes, by their places. An operation on two has the second one as its third.
#[derive(Clone, Copy, Debug, PartialEq, Eq)]
pub(crate) struct Call {
    pub operation: Operation,
    pub first: u32,
    pub second: u32,
    pub third: u32,
}

impl Call {
    /// A number that is the same of equal calls, and seldom of others.
    fn hash(self) -> usize {
        let kind = match self.operation {
            Operation::And => 0u32,
            Operation::Or => 1,
            Operation::Xor => 2,
            Operation::Ite => 3,
            Operation::Agree => 4,
            Operation::Apart => 5,
            Operation::Cut => 6,
        };
        mixed(self.first, self.second, self.third ^ (kind << 29))
    }
}

/// A call, and the place of the node that it gave.
#[derive(Clone, Copy, Debug, PartialEq, Eq)]
pub(crate) struct Computed {
    pub call: Call,
    pub place: u32,
}

/// Calls and what they gave. Each place keeps the last call of its hash, and forgets the others.
#[derive(Drop)]
pub(crate) struct ComputedCache {
    entries: Vec<Option<Computed>>,
}

impl Model for ComputedCache {
    ghost use Rattle.std.specs.Prelude.{List, Option};
    ghost use Rattle.filter_bdd.specs.declared.cache.Computed.{Computed};

    ghost Value = { List (Option Computed) };

    ghost view = { λ c. c.entries.items };
}

impl ComputedCache {
    /// A cache that keeps nothing.
    pub fn empty(alloc: Global) -> ComputedCache
        ensures { result ≡ [] }
    {
        ComputedCache {
            entries: Vec::new(alloc),
        }
    }

    /// Forgets all calls, and has no entries.
    pub fn clear(&mut self)
        ensures { self.new ≡ [] }
    {
        self.entries.clear();
    }

    /// An empty cache of twice as many entries.
    pub fn wider(&self) -> Result<ComputedCache, Stop>
        ensures { IfOk result (λ c. (nodes : List Node) → AreResults nodes c) }
    {
        let size = self.entries.len().saturating_mul(2).max(ENTRIES);
        match vec![in *self.entries.allocator(); None::<Computed>; size] {
            Ok(entries) => Ok(ComputedCache { entries }),
            Err(_) => Err(Stop::Memory),
        }
    }

    /// How many entries it has.
    pub fn len(&self) -> usize {
        self.entries.len()
    }

    /// Where a call is kept.
    fn slot(&self, call: Call) -> usize {
        call.hash() & self.entries.len().saturating_sub(1)
    }

    /// What a call gave, if that is kept.
    pub fn get(&self, call: Call) -> Option<u32>
        ensures { IfSome result (λ i. (nodes : List Node) → AreResults nodes self.now → IsResult nodes call i) }
    {
        let computed = (*self.entries.get(self.slot(call))?)?;
        if computed.call == call {
            Some(computed.place)
        } else {
            None
        }
    }

    /// Keeps what a call gave.
    pub fn put(&mut self, call: Call, place: u32)
        ensures { (nodes : List Node) → AreResults nodes self.old → IsInside nodes call → IsResult nodes call place → AreResults nodes self.new }
    {
        let slot = self.slot(call);
        if let Some(entry) = self.entries.get_mut(slot) {
            *entry = Some(Computed { call, place });
        }
    }
}
