//! How much room an expression may take, and how much scratch memory.

ghost use Rattle.std.specs.Prelude.{◌≡◌, ◌+◌, min, max};
ghost use Rattle.filter_tree.specs.Trees.{amount_of, tree_of};
ghost use Rattle.filtergen_facts.specs.Weights.{value_weight, weight, value_need, need};

use filter_tree::{Expr, Value};

/// An expression up to this weight compiles, if its need is not too high.
pub const MAX_WEIGHT: u64 = 500;

/// The most cells of the scratch memory that an expression may need.
pub const MAX_NEED: u64 = 16;

// The contract of `compile` has the numbers.
const _: () = prove!(MAX_WEIGHT == 500);

const _: () = prove!(MAX_NEED == 16);

/// The weight of a primitive.
const PRIMITIVE: u64 = 40;

/// The weight of an accessor, without its index.
const ACCESSOR: u64 = 20;

/// The weight of an operator, a comparison too, without its operands.
const OPERATOR: u64 = 10;

fn value_weight(value: &Value) -> u64
    ensures { result ≡ min (value_weight (amount_of value.now)) u64.MAX }
{
    match value {
        Value::Number(_) | Value::Length => 0,
        Value::Negation(operand) => OPERATOR.saturating_add(value_weight(operand)),
        Value::Binary(_, left, right) => {
            OPERATOR.saturating_add(value_weight(left).saturating_add(value_weight(right)))
        }
        Value::Accessor(_, index, _) => ACCESSOR.saturating_add(value_weight(index)),
    }
}

/// The weight of an expression: 40 for each primitive, 20 for each accessor, 10 for each operator,
/// comparisons among them; numbers, `len`, `and`, `or` and `not` weigh nothing.
///
/// It bounds how many instructions the expression takes, but for the jump to its entry and the two
/// returns, so what weighs at most [`MAX_WEIGHT`] is never too long. A heavier one may compile too.
/// A sum above the largest `u64` is returned as that.
pub fn weight(expr: &Expr) -> u64
    ensures { result ≡ min (weight (tree_of expr.now)) u64.MAX }
{
    match expr {
        Expr::Everything => 0,
        Expr::Test(_) => PRIMITIVE,
        Expr::Relation(_, left, right) => {
            OPERATOR.saturating_add(value_weight(left).saturating_add(value_weight(right)))
        }
        Expr::Not(operand) => weight(operand),
        Expr::And(left, right) => weight(left).saturating_add(weight(right)),
        Expr::Or(left, right) => weight(left).saturating_add(weight(right)),
    }
}

fn value_need(value: &Value) -> u64
    ensures { result ≡ min (value_need (amount_of value.now)) u64.MAX }
{
    match value {
        Value::Number(_) | Value::Length => 0,
        Value::Negation(operand) => value_need(operand),
        Value::Binary(_, left, right) => value_need(left).max(value_need(right).saturating_add(1)),
        Value::Accessor(_, index, _) => value_need(index),
    }
}

/// How many cells of the scratch memory an expression needs: the most that one of its relations
/// does.
///
/// A number and `len` need none; a unary minus and an accessor need what their operand does; an
/// operator, a comparison too, needs what its left operand does, or one more than its right
/// operand, whichever is more. What needs at most [`MAX_NEED`] is never too deep. A number above
/// the largest `u64` is returned as that.
pub fn need(expr: &Expr) -> u64
    ensures { result ≡ min (need (tree_of expr.now)) u64.MAX }
{
    match expr {
        Expr::Everything | Expr::Test(_) => 0,
        Expr::Relation(_, left, right) => {
            value_need(left).max(value_need(right).saturating_add(1))
        }
        Expr::Not(operand) => need(operand),
        Expr::And(left, right) => need(left).max(need(right)),
        Expr::Or(left, right) => need(left).max(need(right)),
    }
}
