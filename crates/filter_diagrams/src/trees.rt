//! Expressions as nodes of decision diagrams.

ghost use Rattle.std.specs.Prelude.{◌≡◌, ◌<◌, IfOk, IfSome};
ghost use Rattle.filter_tree.specs.Trees.{tree_of};
ghost use Rattle.filter_meaning.specs.Meaning.{meaning, primitive_test};
ghost use Rattle.filter_symbols.specs.Symbols.{SaysOf, Extends};

use crate::builder::Builder;
use crate::refusal::Refusal;
use filter_bdd::Answer;
use filter_tree::Expr;

impl Builder {
    /// A node that says what an expression answers.
    #[tactic(auto, using(crate::proofs::Builders::extends_more, crate::proofs::Builders::extends_same, crate::proofs::Builders::inside_extended))]
    pub fn tree(&mut self, expr: &Expr) -> Result<u32, Refusal>
        requires { IfSome self.old.symbols.header (λ n. n < 16) }
        ensures means { IfOk result (SaysOf self.new.symbols (meaning (tree_of expr.now))) }
        ensures extends { Extends self.old.symbols self.new.symbols }
    {
        match expr {
            Expr::Everything => Ok(self.leaf(Answer::Final(0, true))?),
            Expr::Test(asked) => self.primitive(*asked),
            Expr::Relation(comparison, left, right) => self.relation(*comparison, left, right),
            Expr::Not(operand) => {
                let whole = self.tree(operand)?;
                Ok(self.opposite(whole)?)
            },
            Expr::And(left, right) => {
                let first = self.tree(left)?;
                let second = self.tree(right)?;
                let all = self.both(first, second)?;
                Ok(all)
            }
            Expr::Or(left, right) => {
                let one = self.tree(left)?;
                let other = self.tree(right)?;
                let any = self.either(one, other)?;
                Ok(any)
            }
        }
    }
}
