//! Values that are the same number for every packet.

ghost use Rattle.std.specs.Prelude.{◌≡◌};
ghost use Rattle.filter_tree.specs.Trees.{amount_of};
ghost use Rattle.filtergen_code.specs.Parts.{constant_of};

use filter_meaning::calculate;
use filter_tree::Value;

/// The number that a value is for every packet, if it has no accessor and no `len`, and never
/// divides by 0. The right operand is looked at first, so that a chain that ends in anything else
/// is left at once.
pub(crate) fn constant(amount: &Value) -> Option<u32>
    ensures { result ≡ constant_of (amount_of amount.now) }
{
    match amount {
        Value::Number(n) => Some(*n),
        Value::Length | Value::Accessor(_, _, _) => None,
        Value::Negation(operand) => {
            let n = constant(operand)?;
            Some(0u32.wrapping_sub(n))
        }
        Value::Binary(operator, left, right) => {
            let b = constant(right)?;
            let a = constant(left)?;
            calculate(*operator, a, b)
        }
    }
}
