//! Words compared, as numbers without a sign.

ghost use Rattle.std.specs.Prelude.{◌≡◌, ℕ, Bool, IfOk};
ghost use Rattle.bpfvm.specs.Codes.{Equal, Greater, GreaterOrEqual, AnyBit};
ghost use Rattle.bpfvm.specs.Machine.{holds};
ghost use Rattle.filter_bdd.specs.Diagrams.{Grew};
ghost use Rattle.filter_words.specs.Words.{value, Says, IsWord};
ghost use Rattle.filter_words.specs.Steps.{ordered};

use crate::word::{Word, Words};
use filter_bdd::{Operation, Stop};

impl Words {
    /// Whether a word is above another one, or what is said of equal ones.
    #[tactic(auto, using(crate::proofs::Nodes::grew_more, crate::proofs::Nodes::grew_same, crate::proofs::Nodes::is_bit_grown, crate::proofs::Nodes::word_grown))]
    fn order(&mut self, first: Word, second: Word, equal: bool) -> Result<u32, Stop>
        requires first { IsWord self.old.diagrams first }
        requires second { IsWord self.old.diagrams second }
        ensures says { IfOk result (Says self.new.diagrams (λ v. ordered equal (value self.old.diagrams v first) (value self.old.diagrams v second))) }
        ensures grew { Grew self.old.diagrams self.new.diagrams }
    {
        let mut above = self.fixed(equal)?;
        for i in 0..32 {
            let unequal = self.join(Operation::Xor, first.bits[i], second.bits[i])?;
            let next = self.choice(unequal, first.bits[i], above)?;
            above = next;
        }
        Ok(above)
    }

    /// A node that says whether two words are the same number.
    #[tactic(auto, using(crate::proofs::Nodes::grew_more, crate::proofs::Nodes::grew_same, crate::proofs::Nodes::is_bit_grown, crate::proofs::Nodes::word_grown))]
    pub fn is_equal(&mut self, first: Word, second: Word) -> Result<u32, Stop>
        requires first { IsWord self.old.diagrams first }
        requires second { IsWord self.old.diagrams second }
        ensures says { IfOk result (Says self.new.diagrams (λ v. holds Equal (value self.old.diagrams v first) (value self.old.diagrams v second))) }
        ensures grew { Grew self.old.diagrams self.new.diagrams }
    {
        let no = self.fixed(false)?;
        let mut equal = self.fixed(true)?;
        for i in 0..32 {
            let unequal = self.join(Operation::Xor, first.bits[i], second.bits[i])?;
            let next = self.choice(unequal, no, equal)?;
            equal = next;
        }
        Ok(equal)
    }

    /// A node that says whether the first is greater.
    #[tactic(auto, using(crate::proofs::Nodes::grew_more, crate::proofs::Nodes::grew_same, crate::proofs::Nodes::is_bit_grown, crate::proofs::Nodes::word_grown))]
    pub fn is_greater(&mut self, first: Word, second: Word) -> Result<u32, Stop>
        requires first { IsWord self.old.diagrams first }
        requires second { IsWord self.old.diagrams second }
        ensures says { IfOk result (Says self.new.diagrams (λ v. holds Greater (value self.old.diagrams v first) (value self.old.diagrams v second))) }
        ensures grew { Grew self.old.diagrams self.new.diagrams }
    {
        self.order(first, second, false)
    }

    /// A node that says whether the first is greater, or both are the same.
    #[tactic(auto, using(crate::proofs::Nodes::grew_more, crate::proofs::Nodes::grew_same, crate::proofs::Nodes::is_bit_grown, crate::proofs::Nodes::word_grown))]
    pub fn is_at_least(&mut self, first: Word, second: Word) -> Result<u32, Stop>
        requires first { IsWord self.old.diagrams first }
        requires second { IsWord self.old.diagrams second }
        ensures says { IfOk result (Says self.new.diagrams (λ v. holds GreaterOrEqual (value self.old.diagrams v first) (value self.old.diagrams v second))) }
        ensures grew { Grew self.old.diagrams self.new.diagrams }
    {
        self.order(first, second, true)
    }

    /// A node that says whether both have some bit.
    #[tactic(auto, using(crate::proofs::Nodes::grew_more, crate::proofs::Nodes::grew_same, crate::proofs::Nodes::is_bit_grown, crate::proofs::Nodes::word_grown))]
    pub fn has_common_bit(&mut self, first: Word, second: Word) -> Result<u32, Stop>
        requires first { IsWord self.old.diagrams first }
        requires second { IsWord self.old.diagrams second }
        ensures says { IfOk result (Says self.new.diagrams (λ v. holds AnyBit (value self.old.diagrams v first) (value self.old.diagrams v second))) }
        ensures grew { Grew self.old.diagrams self.new.diagrams }
    {
        let both = self.and(first, second)?;
        let zero = self.constant(0)?;
        let none = self.is_equal(both, zero)?;
        self.opposite(none)
    }
}
