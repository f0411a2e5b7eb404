//! Where parentheses are written, and how deep they and the other signs nest.

ghost use Rattle.std.specs.Prelude.{◌≡◌, ◌&&◌};
ghost use Rattle.filter_tree.specs.Trees.{amount_of, tree_of};
ghost use Rattle.filterlang.specs.Operators.{precedence_of};
ghost use Rattle.filter_print.specs.Parentheses.{is_binary, left_enclosed, right_enclosed, side_enclosed, is_joined, first_enclosed, negated_enclosed, behind, fits_behind, value_fits, fits};

use filterlang::{Expr, Joint, Operator, Value};

/// Which parentheses are written.
#[derive(Clone, Copy)]
pub(crate) enum Parentheses {
    /// All that show what binds to what.
    All,
    /// Only those that the grammar needs.
    Needed,
}

/// How loosely an operator binds: of two the one with the lesser number takes its sides first.
fn precedence_of(operator: Operator) -> usize
    ensures { result ≡ precedence_of operator }
{
    match operator {
        Operator::Times | Operator::Divide | Operator::Modulo => 1,
        Operator::Plus | Operator::Minus => 2,
        Operator::ShiftLeft | Operator::ShiftRight => 3,
        Operator::BitAnd => 4,
        Operator::BitXor => 5,
        Operator::BitOr => 6,
    }
}

/// Whether a value has an operator between two others.
pub(crate) fn is_binary(value: &Value) -> bool
    ensures { result ≡ is_binary (amount_of value.now) }
{
    matches!(value, Value::Binary(..))
}

/// Whether the left side of an operator is in parentheses.
pub(crate) fn left_enclosed(parentheses: Parentheses, operator: Operator, left: &Value) -> bool
    ensures { result ≡ left_enclosed parentheses operator (amount_of left.now) }
{
    let Value::Binary(inner, _, _) = left else {
        return false;
    };
    match parentheses {
        Parentheses::All => precedence_of(*inner) != precedence_of(operator),
        Parentheses::Needed => precedence_of(*inner) > precedence_of(operator),
    }
}

/// Whether the right side of an operator is in parentheses.
pub(crate) fn right_enclosed(parentheses: Parentheses, operator: Operator, right: &Value) -> bool
    ensures { result ≡ right_enclosed parentheses operator (amount_of right.now) }
{
    let Value::Binary(inner, _, _) = right else {
        return false;
    };
    match parentheses {
        Parentheses::All => true,
        Parentheses::Needed => precedence_of(*inner) >= precedence_of(operator),
    }
}

/// Whether a side of a comparison is in parentheses.
pub(crate) fn side_enclosed(parentheses: Parentheses, side: &Value) -> bool
    ensures { result ≡ side_enclosed parentheses (amount_of side.now) }
{
    match parentheses {
        Parentheses::All => is_binary(side),
        Parentheses::Needed => false,
    }
}

/// Whether an expression is two with `and` or `or` between them.
pub(crate) fn is_joined(expr: &Expr) -> bool
    ensures { result ≡ is_joined (tree_of expr.now) }
{
    matches!(expr, Expr::And(..) | Expr::Or(..))
}

/// Whether the expression to the left of `and` or `or` is in parentheses.
pub(crate) fn first_enclosed(parentheses: Parentheses, joint: Joint, first: &Expr) -> bool
    ensures { result ≡ first_enclosed parentheses joint (tree_of first.now) }
{
    match (parentheses, joint, first) {
        (Parentheses::All, Joint::And, Expr::Or(..)) => true,
        (Parentheses::All, Joint::Or, Expr::And(..)) => true,
        _ => false,
    }
}

/// Whether the expression after `not` is in parentheses.
pub(crate) fn negated_enclosed(parentheses: Parentheses, expr: &Expr) -> bool
    ensures { result ≡ negated_enclosed parentheses (tree_of expr.now) }
{
    match (parentheses, expr) {
        (Parentheses::All, Expr::Relation(..)) => true,
        _ => is_joined(expr),
    }
}

/// How many more signs may be open inside, be it in parentheses or not; nothing if parentheses may
/// not open.
#[tactic(auto, using(crate::proofs::Levels::behind_none, crate::proofs::Levels::behind_less))]
fn behind(enclosed: bool, levels: usize) -> Option<usize>
    ensures { result ≡ behind enclosed levels }
{
    if !enclosed {
        Some(levels)
    } else if levels == 0 {
        None
    } else {
        Some(levels - 1)
    }
}

/// Whether the signs of a value nest at most this deep.
#[tactic(auto, unfolding(crate::specs::Parentheses::value_fits), using(crate::proofs::Levels::never))]
fn value_fits(parentheses: Parentheses, value: &Value, levels: usize) -> bool
    ensures { result ≡ value_fits parentheses (amount_of value.now) levels }
{
    match value {
        Value::Number(_) | Value::Length => true,
        Value::Negation(inner) => {
            let Some(levels) = behind(true, levels) else {
                return false;
            };
            let Some(levels) = behind(is_binary(inner), levels) else {
                return false;
            };
            value_fits(parentheses, inner, levels)
        }
        Value::Binary(operator, left, right) => {
            let Some(first) = behind(left_enclosed(parentheses, *operator, left), levels) else {
                return false;
            };
            let Some(second) = behind(right_enclosed(parentheses, *operator, right), levels) else {
                return false;
            };
            value_fits(parentheses, left, first) && value_fits(parentheses, right, second)
        }
        Value::Accessor(_, index, _) => {
            let Some(levels) = behind(true, levels) else {
                return false;
            };
            value_fits(parentheses, index, levels)
        }
    }
}

/// Whether the signs of two sides nest at most this deep.
fn sides_fit(parentheses: Parentheses, left: &Value, right: &Value, levels: usize) -> bool
    ensures { result ≡ fits_behind (value_fits parentheses (amount_of left.now)) (behind (side_enclosed parentheses (amount_of left.now)) levels)
        && fits_behind (value_fits parentheses (amount_of right.now)) (behind (side_enclosed parentheses (amount_of right.now)) levels) }
{
    let Some(first) = behind(side_enclosed(parentheses, left), levels) else {
        return false;
    };
    let Some(second) = behind(side_enclosed(parentheses, right), levels) else {
        return false;
    };
    value_fits(parentheses, left, first) && value_fits(parentheses, right, second)
}

/// Whether the signs of an expression nest at most this deep.
#[tactic(auto, unfolding(crate::specs::Parentheses::fits), using(crate::proofs::Levels::never))]
pub(crate) fn fits(parentheses: Parentheses, expr: &Expr, levels: usize) -> bool
    ensures { result ≡ fits parentheses (tree_of expr.now) levels }
{
    match expr {
        Expr::Everything | Expr::Test(_) => true,
        Expr::Relation(_, left, right) => sides_fit(parentheses, left, right, levels),
        Expr::Not(inner) => {
            let Some(levels) = behind(true, levels) else {
                return false;
            };
            let Some(levels) = behind(negated_enclosed(parentheses, inner), levels) else {
                return false;
            };
            fits(parentheses, inner, levels)
        }
        Expr::And(left, right) => {
            let Some(first) = behind(first_enclosed(parentheses, Joint::And, left), levels) else {
                return false;
            };
            let Some(second) = behind(is_joined(right), levels) else {
                return false;
            };
            fits(parentheses, left, first) && fits(parentheses, right, second)
        }
        Expr::Or(left, right) => {
            let Some(first) = behind(first_enclosed(parentheses, Joint::Or, left), levels) else {
                return false;
            };
            let Some(second) = behind(is_joined(right), levels) else {
                return false;
            };
            fits(parentheses, left, first) && fits(parentheses, right, second)
        }
    }
}
