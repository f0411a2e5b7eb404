//! Nodes that say Yes or No of every packet.

ghost use Rattle.std.specs.Prelude.{◌≡◌, ℕ, Bool, not, IfOk};
ghost use Rattle.filter_bdd.specs.Diagrams.{Grew};
ghost use Rattle.filter_words.specs.Words.{bit, Says, IsBit};
ghost use Rattle.filter_words.specs.Steps.{joined_bit, chosen};

use crate::word::Words;
use filter_bdd::{Answer, Operation, Stop};

impl Words {
    /// A node that says the same of everything.
    #[tactic(auto, using(crate::proofs::Nodes::grew_more, crate::proofs::Nodes::grew_same, crate::proofs::Nodes::is_bit_grown, crate::proofs::Nodes::word_grown))]
    pub fn fixed(&mut self, yes: bool) -> Result<u32, Stop>
        ensures says { IfOk result (Says self.new.diagrams (λ v. yes)) }
        ensures grew { Grew self.old.diagrams self.new.diagrams }
    {
        self.diagrams.leaf(Answer::Final(0, yes))
    }

    /// A node that says whether a bit is 1, by the bit's name.
    #[tactic(auto, using(crate::proofs::Nodes::grew_more, crate::proofs::Nodes::grew_same, crate::proofs::Nodes::is_bit_grown, crate::proofs::Nodes::word_grown))]
    pub fn variable(&mut self, name: u32) -> Result<u32, Stop>
        ensures says { IfOk result (Says self.new.diagrams (λ v. v name)) }
        ensures grew { Grew self.old.diagrams self.new.diagrams }
    {
        let no = self.fixed(false)?;
        let yes = self.fixed(true)?;
        self.diagrams.branch(name, no, yes)
    }

    /// A node that says what an operation makes of two bits.
    #[tactic(auto, using(crate::proofs::Nodes::grew_more, crate::proofs::Nodes::grew_same, crate::proofs::Nodes::is_bit_grown, crate::proofs::Nodes::word_grown))]
    pub(crate) fn join(
        &mut self,
        operation: Operation,
        first: u32,
        second: u32,
    ) -> Result<u32, Stop>
        requires first { IsBit self.old.diagrams first }
        requires second { IsBit self.old.diagrams second }
        ensures says { IfOk result (Says self.new.diagrams (λ v. joined_bit operation (bit self.old.diagrams v first) (bit self.old.diagrams v second))) }
        ensures grew { Grew self.old.diagrams self.new.diagrams }
    {
        self.diagrams.apply(operation, first, second)
    }

    /// A node that says the opposite of a bit.
    #[tactic(auto, using(crate::proofs::Nodes::grew_more, crate::proofs::Nodes::grew_same, crate::proofs::Nodes::is_bit_grown, crate::proofs::Nodes::word_grown))]
    pub fn opposite(&mut self, node: u32) -> Result<u32, Stop>
        requires { IsBit self.old.diagrams node }
        ensures says { IfOk result (Says self.new.diagrams (λ v. not (bit self.old.diagrams v node))) }
        ensures grew { Grew self.old.diagrams self.new.diagrams }
    {
        let yes = self.fixed(true)?;
        self.join(Operation::Xor, yes, node)
    }

    /// A node that says what one of two bits does, by another bit.
    #[tactic(auto, using(crate::proofs::Nodes::grew_more, crate::proofs::Nodes::grew_same, crate::proofs::Nodes::is_bit_grown, crate::proofs::Nodes::word_grown))]
    pub fn choice(&mut self, test: u32, yes: u32, no: u32) -> Result<u32, Stop>
        requires test { IsBit self.old.diagrams test }
        requires yes { IsBit self.old.diagrams yes }
        requires no { IsBit self.old.diagrams no }
        ensures says { IfOk result (Says self.new.diagrams (λ v. chosen (bit self.old.diagrams v test) (bit self.old.diagrams v yes) (bit self.old.diagrams v no))) }
        ensures grew { Grew self.old.diagrams self.new.diagrams }
    {
        if yes == no {
            return Ok(yes);
        }
        self.diagrams.ite(test, yes, no)
    }
}
