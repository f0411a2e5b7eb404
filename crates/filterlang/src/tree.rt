//! The nodes of trees that join others.

ghost use Rattle.std.specs.Prelude.{Some, box_value};
ghost use Rattle.filter_tree.specs.Trees.{tree_of, negation};
ghost use Rattle.filterlang.specs.Readers.{Gives};
ghost use Rattle.filterlang.specs.Reading.{joined_by};

use crate::fault::Fault;
use crate::token::Joint;
use filter_tree::Expr;
use std::alloc::Global;

/// The expression that negates another.
pub(crate) fn negate(alloc: Global, expr: Expr) -> Result<Expr, Fault>
    ensures { Gives (λ e. tree_of e) result (Some (negation (tree_of expr))) }
{
    Ok(Expr::Not(Box::new(alloc, expr)?))
}

/// Two expressions and the word between them. The left one is in its box while the right one is
/// read: if that fails, one call frees a box, where a tree would have to be taken apart here.
pub(crate) fn joined_by(
    alloc: Global,
    joint: Joint,
    left: Box<Expr>,
    right: Expr,
) -> Result<Expr, Fault>
    ensures { Gives (λ e. tree_of e) result (Some (joined_by joint (tree_of (box_value left)) (tree_of right))) }
{
    let right = Box::new(alloc, right)?;
    match joint {
        Joint::And => Ok(Expr::And(left, right)),
        Joint::Or => Ok(Expr::Or(left, right)),
    }
}
