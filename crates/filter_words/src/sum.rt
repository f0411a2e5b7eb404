//! Sums and differences of words, modulo 2^32.

ghost use Rattle.std.specs.Prelude.{◌≡◌, ℕ, ◌+◌, ◌%◌, ◌^◌, Bool, IfOk, IfSome};
ghost use Rattle.bpfvm.specs.Codes.{Add, Subtract};
ghost use Rattle.bpfvm.specs.Machine.{calculated};
ghost use Rattle.filter_bdd.specs.Diagrams.{Grew};
ghost use Rattle.filter_bdd.specs.Fields.{digit};
ghost use Rattle.filter_words.specs.Words.{bit, value, IsBit, IsWord, HasValue, Calculates};
ghost use Rattle.filter_words.specs.Steps.{IsFullSum};

use crate::word::{Word, Words};
use filter_bdd::{Operation, Stop};

/// What a full adder gives: the sum of three bits, and what is carried.
#[derive(Clone, Copy)]
struct FullSum {
    sum: u32,
    carry: u32,
}

impl Words {
    /// A full adder.
    #[tactic(auto, using(crate::proofs::Nodes::grew_more, crate::proofs::Nodes::grew_same, crate::proofs::Nodes::is_bit_grown, crate::proofs::Nodes::word_grown))]
    fn full_add(&mut self, first: u32, second: u32, carry: u32) -> Result<FullSum, Stop>
        requires first { IsBit self.old.diagrams first }
        requires second { IsBit self.old.diagrams second }
        requires carry { IsBit self.old.diagrams carry }
        ensures sum { IfOk result (IsFullSum self.new.diagrams (λ v. bit self.old.diagrams v first) (λ v. bit self.old.diagrams v second) (λ v. bit self.old.diagrams v carry)) }
        ensures grew { Grew self.old.diagrams self.new.diagrams }
    {
        let unequal = self.join(Operation::Xor, first, second)?;
        let sum = self.join(Operation::Xor, carry, unequal)?;
        let next = self.choice(unequal, carry, first)?;
        Ok(FullSum { sum, carry: next })
    }

    /// The sum of two words, and 1 more if a carry goes into the lowest bit.
    #[tactic(auto, using(crate::proofs::Nodes::grew_more, crate::proofs::Nodes::grew_same, crate::proofs::Nodes::is_bit_grown, crate::proofs::Nodes::word_grown))]
    fn sum(&mut self, first: Word, second: Word, carry: bool) -> Result<Word, Stop>
        requires first { IsWord self.old.diagrams first }
        requires second { IsWord self.old.diagrams second }
        ensures value { IfOk result (HasValue self.new.diagrams (λ v. (value self.old.diagrams v first + value self.old.diagrams v second + digit carry) % 2 ^ 32)) }
        ensures grew { Grew self.old.diagrams self.new.diagrams }
    {
        let mut carried = self.fixed(carry)?;
        let mut bits = [0; 32];
        for i in 0..32 {
            let full = self.full_add(first.bits[i], second.bits[i], carried)?;
            bits[i] = full.sum;
            carried = full.carry;
        }
        Ok(Word { bits })
    }

    /// The sum.
    #[tactic(auto, using(crate::proofs::Nodes::grew_more, crate::proofs::Nodes::grew_same, crate::proofs::Nodes::is_bit_grown, crate::proofs::Nodes::word_grown))]
    pub fn add(&mut self, first: Word, second: Word) -> Result<Word, Stop>
        requires first { IsWord self.old.diagrams first }
        requires second { IsWord self.old.diagrams second }
        ensures calculates { IfOk result (Calculates self.old.diagrams self.new.diagrams Add first second) }
        ensures grew { Grew self.old.diagrams self.new.diagrams }
    {
        self.sum(first, second, false)
    }

    /// The difference: the sum with each bit's opposite, and 1 more.
    #[tactic(auto, using(crate::proofs::Nodes::grew_more, crate::proofs::Nodes::grew_same, crate::proofs::Nodes::is_bit_grown, crate::proofs::Nodes::word_grown))]
    pub fn subtract(&mut self, first: Word, second: Word) -> Result<Word, Stop>
        requires first { IsWord self.old.diagrams first }
        requires second { IsWord self.old.diagrams second }
        ensures calculates { IfOk result (Calculates self.old.diagrams self.new.diagrams Subtract first second) }
        ensures grew { Grew self.old.diagrams self.new.diagrams }
    {
        let opposite = self.not(second)?;
        self.sum(first, opposite, true)
    }

    /// 0 less a word.
    #[tactic(auto, using(crate::proofs::Nodes::grew_more, crate::proofs::Nodes::grew_same, crate::proofs::Nodes::is_bit_grown, crate::proofs::Nodes::word_grown))]
    pub fn negate(&mut self, word: Word) -> Result<Word, Stop>
        requires { IsWord self.old.diagrams word }
        ensures value { IfOk result (λ w. (v : ℕ → Bool) → IfSome (calculated Subtract 0 (value self.old.diagrams v word)) (λ n. value self.new.diagrams v w ≡ n)) }
        ensures word { IfOk result (IsWord self.new.diagrams) }
        ensures grew { Grew self.old.diagrams self.new.diagrams }
    {
        let zero = self.constant(0)?;
        self.subtract(zero, word)
    }
}
