//! The identifiers of a group, under one phrase.

ghost use Rattle.filterlang.specs.Phrases.{kinds};
ghost use Rattle.filter_tree.specs.Trees.{tree_of};
ghost use Rattle.filterlang.specs.Readers.{Gives};
ghost use Rattle.filterlang.specs.Reading.{group_at, group_term_at};

use crate::cursor::Cursor;
use crate::fault::Fault;
use crate::lookahead::{Beginning, look_ahead};
use crate::phrases::joint_at;
use crate::phrases::qualifiers::Qualifiers;
use crate::tree::{joined_by, negate};
use filter_tree::Expr;
use std::alloc::Global;

impl<'a> Cursor<'a> {
    /// Identifiers under one phrase, joined by `and` and `or`.
    #[cycle(group)]
    pub fn group(
        &mut self,
        alloc: Global,
        levels: usize,
        qualifiers: Qualifiers,
    ) -> Result<Expr, Fault>
        ensures { Gives (λ e. (tree_of e, qualifiers, kinds self.new.rest.now)) result
            (group_at levels qualifiers (kinds self.old.rest.now)) }
    {
        let mut expr = self.group_term(alloc, levels, qualifiers)?;
        while let Some((joint, rest)) = joint_at(self.rest) {
            self.rest = rest;
            let left = Box::new(alloc, expr)?;
            let next = self.group_term(alloc, levels, qualifiers)?;
            expr = joined_by(alloc, joint, left, next)?;
        }
        Ok(expr)
    }

    /// A negated term, a group in parentheses or an identifier, under the phrase of the group.
    #[tactic(auto, using(crate::proofs::Turns::group_not, crate::proofs::Turns::group_parenthesis, crate::proofs::Turns::group_identifier))]
    #[cycle(group)]
    fn group_term(
        &mut self,
        alloc: Global,
        levels: usize,
        qualifiers: Qualifiers,
    ) -> Result<Expr, Fault>
        ensures { Gives (λ e. (tree_of e, qualifiers, kinds self.new.rest.now)) result
            (group_term_at levels qualifiers (kinds self.old.rest.now)) }
    {
        match look_ahead(self.rest) {
            Beginning::Not => {
                let levels = self.deeper(levels)?;
                let expr = self.group_term(alloc, levels, qualifiers)?;
                negate(alloc, expr)
            }
            Beginning::Parenthesis => {
                let levels = self.deeper(levels)?;
                let expr = self.group(alloc, levels, qualifiers)?;
                self.close_after(expr)
            }
            Beginning::Primitive => Ok(Expr::Test(self.identified(qualifiers)?)),
        }
    }
}
