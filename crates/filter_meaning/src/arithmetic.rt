//! What the operators make of numbers.

ghost use Rattle.std.specs.Prelude.{◌≡◌, ◌*◌, ◌/◌, ◌%◌, ◌^◌, nat_lt, if◌then◌else◌};
ghost use Rattle.bpfvm.specs.Machine.{calculated};
ghost use Rattle.filter_meaning.specs.Meaning.{arithmetic_of};

use filter_tree::Operator;

/// The number shifted to the left; 0 if that is by 32 bits or more.
fn shifted_left(a: u32, by: u32) -> u32
    ensures { result ≡ (if nat_lt by 32 then (a * 2 ^ by) % 2 ^ 32 else 0) }
{
    if by < 32 { a << by } else { 0 }
}

/// The number shifted to the right; 0 if that is by 32 bits or more.
fn shifted_right(a: u32, by: u32) -> u32
    ensures { result ≡ (if nat_lt by 32 then a / 2 ^ by else 0) }
{
    if by < 32 { a >> by } else { 0 }
}

/// What an operator makes of two numbers, modulo 2 ^ 32: nothing if the divisor of `/` or `%` is
/// 0; a shift by 32 or more is 0.
pub fn calculate(operator: Operator, a: u32, b: u32) -> Option<u32>
    ensures { result ≡ calculated (arithmetic_of operator) a b }
{
    match operator {
        Operator::Plus => Some(a.wrapping_add(b)),
        Operator::Minus => Some(a.wrapping_sub(b)),
        Operator::Times => Some(a.wrapping_mul(b)),
        Operator::Divide => a.checked_div(b),
        Operator::Modulo => a.checked_rem(b),
        Operator::BitAnd => Some(a & b),
        Operator::BitXor => Some(a ^ b),
        Operator::BitOr => Some(a | b),
        Operator::ShiftLeft => Some(shifted_left(a, b)),
        Operator::ShiftRight => Some(shifted_right(a, b)),
    }
}
