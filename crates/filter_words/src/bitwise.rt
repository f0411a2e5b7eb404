//! Words bit by bit.

ghost use Rattle.std.specs.Prelude.{◌≡◌, ℕ, ◌-◌, ◌^◌, ◌<◌, Bool, if◌then◌else◌, IfOk};
ghost use Rattle.bpfvm.specs.Codes.{And, Or, ExclusiveOr};
ghost use Rattle.filter_bdd.specs.Diagrams.{Grew};
ghost use Rattle.filter_bdd.specs.Fields.{is_set};
ghost use Rattle.filter_words.specs.Words.{bit, word_bit, value, IsBit, IsWord, HasValue, Calculates};
ghost use Rattle.filter_words.specs.Steps.{joined_bit, HasBits};

use crate::word::{Word, Words};
use filter_bdd::{Operation, Stop};

/// A bit of a number, the lowest being bit 0.
fn is_set(number: u32, bit: usize) -> bool
    requires { bit < 32 }
    ensures { result ≡ is_set number bit }
{
    (number >> bit) % 2 == 1
}

/// One of two nodes.
fn node_of(test: bool, yes: u32, no: u32) -> u32
    ensures { result ≡ (if test then yes else no) }
{
    if test { yes } else { no }
}

impl Words {
    /// A number, whatever the bits are.
    #[tactic(auto, using(crate::proofs::Nodes::grew_more, crate::proofs::Nodes::grew_same, crate::proofs::Nodes::is_bit_grown, crate::proofs::Nodes::word_grown))]
    pub fn constant(&mut self, number: u32) -> Result<Word, Stop>
        ensures value { IfOk result (HasValue self.new.diagrams (λ v. number)) }
        ensures grew { Grew self.old.diagrams self.new.diagrams }
    {
        let no = self.fixed(false)?;
        let yes = self.fixed(true)?;
        let mut bits = [no; 32];
        for i in 0..32 {
            bits[i] = node_of(is_set(number, i), yes, no);
        }
        Ok(Word { bits })
    }

    /// Joins two words bit by bit.
    #[tactic(auto, using(crate::proofs::Nodes::grew_more, crate::proofs::Nodes::grew_same, crate::proofs::Nodes::is_bit_grown, crate::proofs::Nodes::word_grown))]
    fn zip(&mut self, operation: Operation, first: Word, second: Word) -> Result<Word, Stop>
        requires first { IsWord self.old.diagrams first }
        requires second { IsWord self.old.diagrams second }
        ensures bits { IfOk result (HasBits self.new.diagrams (λ v k. joined_bit operation (word_bit self.old.diagrams v first k) (word_bit self.old.diagrams v second k))) }
        ensures grew { Grew self.old.diagrams self.new.diagrams }
    {
        let mut bits = [0; 32];
        for i in 0..32 {
            let node = self.join(operation, first.bits[i], second.bits[i])?;
            bits[i] = node;
        }
        Ok(Word { bits })
    }

    /// The bits that both have.
    #[tactic(auto, using(crate::proofs::Nodes::grew_more, crate::proofs::Nodes::grew_same, crate::proofs::Nodes::is_bit_grown, crate::proofs::Nodes::word_grown))]
    pub fn and(&mut self, first: Word, second: Word) -> Result<Word, Stop>
        requires first { IsWord self.old.diagrams first }
        requires second { IsWord self.old.diagrams second }
        ensures calculates { IfOk result (Calculates self.old.diagrams self.new.diagrams And first second) }
        ensures grew { Grew self.old.diagrams self.new.diagrams }
    {
        self.zip(Operation::And, first, second)
    }

    /// The bits that one has, or both.
    #[tactic(auto, using(crate::proofs::Nodes::grew_more, crate::proofs::Nodes::grew_same, crate::proofs::Nodes::is_bit_grown, crate::proofs::Nodes::word_grown))]
    pub fn or(&mut self, first: Word, second: Word) -> Result<Word, Stop>
        requires first { IsWord self.old.diagrams first }
        requires second { IsWord self.old.diagrams second }
        ensures calculates { IfOk result (Calculates self.old.diagrams self.new.diagrams Or first second) }
        ensures grew { Grew self.old.diagrams self.new.diagrams }
    {
        self.zip(Operation::Or, first, second)
    }

    /// The bits that one has and the other hasn't.
    #[tactic(auto, using(crate::proofs::Nodes::grew_more, crate::proofs::Nodes::grew_same, crate::proofs::Nodes::is_bit_grown, crate::proofs::Nodes::word_grown))]
    pub fn xor(&mut self, first: Word, second: Word) -> Result<Word, Stop>
        requires first { IsWord self.old.diagrams first }
        requires second { IsWord self.old.diagrams second }
        ensures calculates { IfOk result (Calculates self.old.diagrams self.new.diagrams ExclusiveOr first second) }
        ensures grew { Grew self.old.diagrams self.new.diagrams }
    {
        self.zip(Operation::Xor, first, second)
    }

    /// Each bit's opposite.
    #[tactic(auto, using(crate::proofs::Nodes::grew_more, crate::proofs::Nodes::grew_same, crate::proofs::Nodes::is_bit_grown, crate::proofs::Nodes::word_grown))]
    pub fn not(&mut self, word: Word) -> Result<Word, Stop>
        requires { IsWord self.old.diagrams word }
        ensures value { IfOk result (HasValue self.new.diagrams (λ v. 2 ^ 32 - 1 - value self.old.diagrams v word)) }
        ensures grew { Grew self.old.diagrams self.new.diagrams }
    {
        let mut bits = [0; 32];
        for i in 0..32 {
            let node = self.opposite(word.bits[i])?;
            bits[i] = node;
        }
        Ok(Word { bits })
    }

    /// One of two words, by a bit.
    #[tactic(auto, using(crate::proofs::Nodes::grew_more, crate::proofs::Nodes::grew_same, crate::proofs::Nodes::is_bit_grown, crate::proofs::Nodes::word_grown))]
    pub fn select(&mut self, test: u32, yes: Word, no: Word) -> Result<Word, Stop>
        requires test { IsBit self.old.diagrams test }
        requires yes { IsWord self.old.diagrams yes }
        requires no { IsWord self.old.diagrams no }
        ensures value { IfOk result (HasValue self.new.diagrams (λ v. if bit self.old.diagrams v test then value self.old.diagrams v yes else value self.old.diagrams v no)) }
        ensures grew { Grew self.old.diagrams self.new.diagrams }
    {
        let mut bits = [0; 32];
        for i in 0..32 {
            let node = self.choice(test, yes.bits[i], no.bits[i])?;
            bits[i] = node;
        }
        Ok(Word { bits })
    }
}
