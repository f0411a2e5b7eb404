//! The order in which bits are asked for.

ghost use Rattle.std.specs.Prelude.{◌^◌, ◌≤◌, length, IfOk};

use crate::table::Stop;
use std::alloc::Global;
use std::marker::Model;

/// How many bits can have a rank. Those of later names are asked for by their names.
const RANKED: u32 = 1 << 21;

/// The order in which nodes ask for bits. What a node answers does not depend on it, but how many
/// nodes there are does: bits that are compared with one another are best asked for in turn.
#[derive(Drop)]
pub struct BitOrder {
    /// By the name of a bit one more than its rank, or 0 if the bit has none.
    ranks: Vec<u32>,
    /// How many bits are asked for before those that have no rank.
    listed: u32,
}

impl Model for BitOrder {
    ghost use Rattle.std.specs.Prelude.{List, ℕ, ◌^◌, ◌≤◌, length};

    ghost Value = { List ℕ };

    ghost view = { λ o. o.ranks.items };

    ghost invariant = { λ o. length o.ranks.items ≤ 2 ^ 21 };
}

impl BitOrder {
    /// By the names of the bits.
    pub fn natural(alloc: Global) -> BitOrder {
        BitOrder {
            ranks: Vec::new(alloc),
            listed: 0,
        }
    }

    /// First these bits, as they stand in the list, and then the others by their names. A bit that
    /// stands there twice has its first place. A bit that cannot have a rank is one of the others.
    pub fn of(alloc: Global, first: &[u32]) -> Result<BitOrder, Stop> {
        let Ok(listed) = u32::try_from(first.len()) else {
            return Err(Stop::Budget);
        };
        let mut order = BitOrder {
            ranks: unranked(alloc, first)?,
            listed,
        };
        for (rank, name) in (0..listed).zip(first.iter()).rev() {
            order.set_rank(*name, rank);
        }
        Ok(order)
    }

    /// Says when a bit is asked for, if it can have a rank.
    fn set_rank(&mut self, name: u32, rank: u32) {
        if let Some(entry) = self.ranks.get_mut(name as usize) {
            *entry = rank.saturating_add(1);
        }
    }

    /// When a bit is asked for: a bit of a lower rank is first.
    fn rank(&self, name: u32) -> u32 {
        let entry = self.ranks.get(name as usize).copied().unwrap_or(0);
        match entry.checked_sub(1) {
            Some(rank) => rank,
            None => name.saturating_add(self.listed),
        }
    }

    /// Whether a bit is asked for before another one.
    pub(crate) fn is_before(&self, name: u32, other: u32) -> bool {
        self.rank(name) < self.rank(other)
    }

    /// Of two bits the one that is asked for first.
    pub(crate) fn earlier(&self, name: u32, other: u32) -> u32 {
        if self.is_before(other, name) {
            other
        } else {
            name
        }
    }
}

/// No rank for any bit up to the last one of a list that can have one.
fn unranked(alloc: Global, names: &[u32]) -> Result<Vec<u32>, Stop>
    ensures { IfOk result (λ ranks. length ranks.items ≤ 2 ^ 21) }
{
    let Some(last) = names.iter().copied().max() else {
        return Ok(Vec::new(alloc));
    };
    let count = if last < RANKED { last + 1 } else { RANKED };
    match vec![in alloc; 0u32; count as usize] {
        Ok(ranks) => Ok(ranks),
        Err(_) => Err(Stop::Memory),
    }
}
