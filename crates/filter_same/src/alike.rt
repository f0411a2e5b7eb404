//! Whether two expressions are the same.

ghost use Rattle.std.specs.Prelude.{◌≡◌, IsTrue};
ghost use Rattle.filter_tree.specs.Trees.{amount_of, tree_of};

use filter_tree::{Expr, Value};

/// Whether two values are the same.
fn is_same_value(first: &Value, second: &Value) -> bool
    ensures { IsTrue result → amount_of first.now ≡ amount_of second.now }
{
    match (first, second) {
        (Value::Number(number), Value::Number(other)) => *number == *other,
        (Value::Length, Value::Length) => true,
        (Value::Negation(operand), Value::Negation(other)) => is_same_value(operand, other),
        (Value::Binary(sign, a, b), Value::Binary(other, c, d)) => {
            *sign == *other && is_same_value(a, c) && is_same_value(b, d)
        }
        (Value::Accessor(layer, index, size), Value::Accessor(other, place, bytes)) => {
            *layer == *other && *size == *bytes && is_same_value(index, place)
        }
        _ => false,
    }
}

/// Whether two expressions are the same.
pub(crate) fn is_same_expr(first: &Expr, second: &Expr) -> bool
    ensures { IsTrue result → tree_of first.now ≡ tree_of second.now }
{
    match (first, second) {
        (Expr::Everything, Expr::Everything) => true,
        (Expr::Test(test), Expr::Test(other)) => *test == *other,
        (Expr::Relation(sign, a, b), Expr::Relation(other, c, d)) => {
            *sign == *other && is_same_value(a, c) && is_same_value(b, d)
        }
        (Expr::Not(operand), Expr::Not(other)) => is_same_expr(operand, other),
        (Expr::And(a, b), Expr::And(c, d)) => is_same_expr(a, c) && is_same_expr(b, d),
        (Expr::Or(a, b), Expr::Or(c, d)) => is_same_expr(a, c) && is_same_expr(b, d),
        _ => false,
    }
}
