//! Products of words, modulo 2^32.

ghost use Rattle.std.specs.Prelude.{◌≡◌, ℕ, ◌+◌, ◌%◌, ◌^◌, ◌<◌, Bool, if◌then◌else◌, IfOk};
ghost use Rattle.bpfvm.specs.Codes.{Multiply};
ghost use Rattle.filter_bdd.specs.Diagrams.{Grew};
ghost use Rattle.filter_words.specs.Words.{bit, value, IsBit, IsWord, HasValue, Calculates};
ghost use Rattle.filter_words.specs.Steps.{shifted};
ghost use Rattle.filter_words.specs.declared.shift.Shift.TheVariants.{Left};

use crate::shift::Shift;
use crate::word::{Word, Words};
use filter_bdd::{Answer, Stop};

impl Words {
    /// A sum with one more part of a product: a word moved to the left by `count` places, if a bit
    /// says Yes.
    #[tactic(auto, using(crate::proofs::Nodes::grew_more, crate::proofs::Nodes::grew_same, crate::proofs::Nodes::is_bit_grown, crate::proofs::Nodes::word_grown))]
    fn add_part(&mut self, sum: Word, word: Word, count: usize, test: u32) -> Result<Word, Stop>
        requires sum { IsWord self.old.diagrams sum }
        requires word { IsWord self.old.diagrams word }
        requires count { count < 32 }
        requires test { IsBit self.old.diagrams test }
        ensures value { IfOk result (HasValue self.new.diagrams (λ v. (value self.old.diagrams v sum + (if bit self.old.diagrams v test then shifted Left (value self.old.diagrams v word) count else 0)) % 2 ^ 32)) }
        ensures grew { Grew self.old.diagrams self.new.diagrams }
    {
        if self.diagrams.is(test, Answer::Final(0, false)) {
            return Ok(sum);
        }
        let moved = self.shift_by(Shift::Left, word, count)?;
        let zero = self.constant(0)?;
        let part = self.select(test, moved, zero)?;
        self.add(sum, part)
    }

    /// The product, with a sum for each bit of the second word that may be 1.
    #[tactic(auto, using(crate::proofs::Nodes::grew_more, crate::proofs::Nodes::grew_same, crate::proofs::Nodes::is_bit_grown, crate::proofs::Nodes::word_grown))]
    fn multiply_each(&mut self, first: Word, second: Word) -> Result<Word, Stop>
        requires first { IsWord self.old.diagrams first }
        requires second { IsWord self.old.diagrams second }
        ensures calculates { IfOk result (Calculates self.old.diagrams self.new.diagrams Multiply first second) }
        ensures grew { Grew self.old.diagrams self.new.diagrams }
    {
        let mut product = self.constant(0)?;
        for i in 0..32 {
            let next = self.add_part(product, first, i, second.bits[i])?;
            product = next;
        }
        Ok(product)
    }

    /// The product.
    #[tactic(auto, using(crate::proofs::Nodes::grew_more, crate::proofs::Nodes::grew_same, crate::proofs::Nodes::is_bit_grown, crate::proofs::Nodes::word_grown))]
    pub fn multiply(&mut self, first: Word, second: Word) -> Result<Word, Stop>
        requires first { IsWord self.old.diagrams first }
        requires second { IsWord self.old.diagrams second }
        ensures calculates { IfOk result (Calculates self.old.diagrams self.new.diagrams Multiply first second) }
        ensures grew { Grew self.old.diagrams self.new.diagrams }
    {
        if self.free_bits(first) < self.free_bits(second) {
            self.multiply_each(second, first)
        } else {
            self.multiply_each(first, second)
        }
    }
}
