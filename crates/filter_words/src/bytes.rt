//! Words of bits and of bytes, as loads read them.

ghost use Rattle.std.specs.Prelude.{◌≡◌, ℕ, ◌+◌, ◌*◌, ◌%◌, ◌^◌, ◌<◌, ◌≤◌, Bool, List, length, slice_index, IfOk};
ghost use Rattle.filter_bdd.specs.declared.table.Node.{Node};
ghost use Rattle.filter_bdd.specs.Diagrams.{Grew};
ghost use Rattle.filter_words.specs.Words.{number, bit, value, IsBit, IsWord, HasValue};
ghost use Rattle.filter_words.specs.Steps.{padded};

use crate::word::{Word, Words};
use filter_bdd::Stop;

/// The node at a place, or `no` if there is none.
fn node_at(nodes: &[u32], no: u32, place: usize) -> u32
    ensures { result ≡ padded (slice_index nodes.now) no (length nodes.now) place }
{
    if place < nodes.len() {
        nodes[place]
    } else {
        no
    }
}

impl Word {
    /// A word that is followed by one more byte, in network order: 256 times it, and the byte.
    pub fn join(self, byte: Word) -> Word
        ensures { (nodes : List Node) → IsWord nodes self → IsWord nodes byte → ((v : ℕ → Bool) → value nodes v byte < 256)
            → HasValue nodes (λ v. (256 * value nodes v self + value nodes v byte) % 2 ^ 32) result }
    {
        let mut bits = byte.bits;
        for i in 8..32 {
            bits[i] = self.bits[i - 8];
        }
        Word { bits }
    }
}

impl Words {
    /// The number that nodes are, the lowest bit first. At most 32 of them.
    #[tactic(auto, using(crate::proofs::Nodes::grew_more, crate::proofs::Nodes::grew_same, crate::proofs::Nodes::is_bit_grown, crate::proofs::Nodes::word_grown))]
    pub fn from_bits(&mut self, nodes: &[u32]) -> Result<Word, Stop>
        requires few { length nodes.now ≤ 32 }
        requires bits { (k : ℕ) → k < length nodes.now → IsBit self.old.diagrams (slice_index nodes.now k) }
        ensures value { IfOk result (HasValue self.new.diagrams (λ v. number (λ k. bit self.old.diagrams v (slice_index nodes.now k)) (length nodes.now))) }
        ensures grew { Grew self.old.diagrams self.new.diagrams }
    {
        let no = self.fixed(false)?;
        let mut bits = [0; 32];
        for i in 0..32 {
            bits[i] = node_at(nodes, no, i);
        }
        Ok(Word { bits })
    }
}
