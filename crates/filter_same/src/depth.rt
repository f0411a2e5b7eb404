//! How deep expressions are. What goes down in one, as its diagram is made, needs stack for each
//! level.

use filter_tree::{Expr, Value};

/// How many levels an expression may have.
#[derive(Clone, Copy, Debug)]
pub(crate) struct Limits {
    /// Of the expression, down to the end of a value.
    levels: u32,
    /// Of a value.
    value_levels: u32,
    /// As how many levels one of a value counts.
    weight: u32,
}

/// Of an expression whose diagram is made. A level of a value takes more stack.
pub(crate) const CALCULATED: Limits = Limits {
    levels: 1_000,
    value_levels: 64,
    weight: 8,
};

/// Of an expression that is only looked at for being the same tree as another one: more than a text
/// of 8,192 bytes gives.
pub(crate) const LOOKED_AT: Limits = Limits {
    levels: 4_200,
    value_levels: 4_200,
    weight: 1,
};

/// Whether a value has at most `levels` levels.
fn is_shallow_value(value: &Value, levels: u32) -> bool {
    let Some(rest) = levels.checked_sub(1) else {
        return false;
    };
    match value {
        Value::Number(_) | Value::Length => true,
        Value::Negation(operand) => is_shallow_value(operand, rest),
        Value::Binary(_, left, right) => {
            is_shallow_value(left, rest) && is_shallow_value(right, rest)
        }
        Value::Accessor(_, index, _) => is_shallow_value(index, rest),
    }
}

/// Whether an expression has at most `levels` levels. A level of a value counts `limits.weight`
/// times, and a value has at most `limits.value_levels`.
fn has_levels(expr: &Expr, levels: u32, limits: Limits) -> bool {
    let Some(rest) = levels.checked_sub(1) else {
        return false;
    };
    match expr {
        Expr::Everything | Expr::Test(_) => true,
        Expr::Relation(_, left, right) => {
            let most = (rest / limits.weight.max(1)).min(limits.value_levels);
            is_shallow_value(left, most) && is_shallow_value(right, most)
        }
        Expr::Not(operand) => has_levels(operand, rest, limits),
        Expr::And(left, right) | Expr::Or(left, right) => {
            has_levels(left, rest, limits) && has_levels(right, rest, limits)
        }
    }
}

/// Whether an expression is within limits.
pub(crate) fn is_shallow(expr: &Expr, limits: Limits) -> bool {
    has_levels(expr, limits.levels, limits)
}
