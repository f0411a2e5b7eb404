//! Quotients and remainders of words.

ghost use Rattle.std.specs.Prelude.{◌≡◌, ℕ, ◌+◌, ◌*◌, ◌%◌, ◌^◌, ◌<◌, Bool, List, IfOk};
ghost use Rattle.bpfvm.specs.Codes.{Divide, Modulo};
ghost use Rattle.filter_bdd.specs.declared.table.Node.{Node};
ghost use Rattle.filter_bdd.specs.Diagrams.{Grew};
ghost use Rattle.filter_bdd.specs.Fields.{digit};
ghost use Rattle.filter_words.specs.Words.{bit, value, IsBit, IsWord, HasValue, Calculates};
ghost use Rattle.filter_words.specs.Division.{HasDivided, HasDividedBit};

use crate::word::{Word, Words};
use filter_bdd::{Operation, Stop};

/// What a division gives: the quotient, and the rest.
#[derive(Clone, Copy)]
struct Division {
    quotient: Word,
    rest: Word,
}

impl Word {
    /// A word moved to the left by one place, with a node as its lowest bit.
    fn push(self, node: u32) -> Word
        ensures { (nodes : List Node) → IsWord nodes self → IsBit nodes node → HasValue nodes (λ v. (2 * value nodes v self + digit (bit nodes v node)) % 2 ^ 32) result }
    {
        let mut bits = [node; 32];
        for i in 1..32 {
            bits[i] = self.bits[i - 1];
        }
        Word { bits }
    }
}

impl Words {
    /// A division that goes on with one more bit of the dividend: the divisor is taken away if it
    /// fits.
    #[tactic(auto, using(crate::proofs::Nodes::grew_more, crate::proofs::Nodes::grew_same, crate::proofs::Nodes::is_bit_grown, crate::proofs::Nodes::word_grown))]
    fn divide_bit(&mut self, division: Division, next: u32, divisor: Word) -> Result<Division, Stop>
        requires quotient { IsWord self.old.diagrams division.quotient }
        requires rest { IsWord self.old.diagrams division.rest }
        requires next { IsBit self.old.diagrams next }
        requires divisor { IsWord self.old.diagrams divisor }
        ensures divided { IfOk result (HasDividedBit self.old.diagrams self.new.diagrams division next divisor) }
        ensures grew { Grew self.old.diagrams self.new.diagrams }
    {
        let doubled = division.rest.push(next);
        let fits = self.is_at_least(doubled, divisor)?;
        let goes = self.join(Operation::Or, division.rest.bits[31], fits)?;
        let less = self.subtract(doubled, divisor)?;
        let rest = self.select(goes, less, doubled)?;
        let quotient = division.quotient.push(goes);
        Ok(Division { quotient, rest })
    }

    /// The quotient and the rest, if the divisor is not 0.
    #[tactic(auto, using(crate::proofs::Nodes::grew_more, crate::proofs::Nodes::grew_same, crate::proofs::Nodes::is_bit_grown, crate::proofs::Nodes::word_grown))]
    fn divide_all(&mut self, dividend: Word, divisor: Word) -> Result<Division, Stop>
        requires dividend { IsWord self.old.diagrams dividend }
        requires divisor { IsWord self.old.diagrams divisor }
        ensures divided { IfOk result (HasDivided self.old.diagrams self.new.diagrams (λ v. value self.old.diagrams v dividend) divisor) }
        ensures grew { Grew self.old.diagrams self.new.diagrams }
    {
        let zero = self.constant(0)?;
        let mut division = Division {
            quotient: zero,
            rest: zero,
        };
        for i in 0..32 {
            let next = self.divide_bit(division, dividend.bits[31 - i], divisor)?;
            division = next;
        }
        Ok(division)
    }

    /// The quotient. If the divisor is 0, it is any number.
    #[tactic(auto, using(crate::proofs::Nodes::grew_more, crate::proofs::Nodes::grew_same, crate::proofs::Nodes::is_bit_grown, crate::proofs::Nodes::word_grown))]
    pub fn divide(&mut self, first: Word, second: Word) -> Result<Word, Stop>
        requires first { IsWord self.old.diagrams first }
        requires second { IsWord self.old.diagrams second }
        ensures calculates { IfOk result (Calculates self.old.diagrams self.new.diagrams Divide first second) }
        ensures grew { Grew self.old.diagrams self.new.diagrams }
    {
        let division = self.divide_all(first, second)?;
        Ok(division.quotient)
    }

    /// The remainder. If the divisor is 0, it is any number.
    #[tactic(auto, using(crate::proofs::Nodes::grew_more, crate::proofs::Nodes::grew_same, crate::proofs::Nodes::is_bit_grown, crate::proofs::Nodes::word_grown))]
    pub fn remainder(&mut self, first: Word, second: Word) -> Result<Word, Stop>
        requires first { IsWord self.old.diagrams first }
        requires second { IsWord self.old.diagrams second }
        ensures calculates { IfOk result (Calculates self.old.diagrams self.new.diagrams Modulo first second) }
        ensures grew { Grew self.old.diagrams self.new.diagrams }
    {
        let division = self.divide_all(first, second)?;
        Ok(division.rest)
    }
}
