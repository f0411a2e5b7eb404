//! The operators of arithmetic, and the layers and sizes of accessors.

ghost use Rattle.std.specs.Prelude.{◌≡◌, option_map, box_value};
ghost use Rattle.filterlang.specs.Phrases.{kinds};
ghost use Rattle.filter_tree.specs.Trees.{amount_of};
ghost use Rattle.filterlang.specs.Operators.{precedence_of, divides, is_zero, layer_of, size_of};
ghost use Rattle.filterlang.specs.Readers.{Gives};
ghost use Rattle.filterlang.specs.ValueReading.{operator_at, operated};

use crate::fault::Fault;
use crate::phrases::next;
use crate::token::{Kind, Protocol, Token};
use filter_tree::{Layer, Operator, Size, Value};
use std::alloc::Global;

/// The precedence of the operators that bind most loosely.
pub(crate) const LOOSEST: usize = 6;

/// How loosely an operator binds, in C's order: of two the one with the lesser number takes its
/// sides first.
fn precedence_of(operator: Operator) -> usize
    ensures { result ≡ precedence_of operator }
{
    match operator {
        Operator::Times | Operator::Divide | Operator::Modulo => 1,
        Operator::Plus | Operator::Minus => 2,
        Operator::ShiftLeft | Operator::ShiftRight => 3,
        Operator::BitAnd => 4,
        Operator::BitXor => 5,
        Operator::BitOr => LOOSEST,
    }
}

/// Whether the right side of an operator is a divisor.
fn divides(operator: Operator) -> bool
    ensures { result ≡ divides operator }
{
    matches!(operator, Operator::Divide | Operator::Modulo)
}

/// Whether a value is a number, written out or named, that is 0.
fn is_zero(value: &Value) -> bool
    ensures { result ≡ is_zero (amount_of value.now) }
{
    match value {
        Value::Number(number) => *number == 0,
        _ => false,
    }
}

/// The operator of this precedence at the front, if there is one, and what follows.
pub(crate) fn operator_at(precedence: usize, tokens: &[Token]) -> Option<(Operator, &[Token])>
    ensures { option_map (λ found. (found.0, kinds found.1.now)) result ≡ operator_at precedence (kinds tokens.now) }
{
    match next(tokens) {
        Some((Kind::Operator(operator), rest)) if precedence_of(operator) == precedence => {
            Some((operator, rest))
        }
        _ => None,
    }
}

/// Two values and the operator between them. `DivideByZero` at this place, that of the right one,
/// if that is a divisor and 0.
pub(crate) fn combine(
    alloc: Global,
    operator: Operator,
    left: Box<Value>,
    right: Value,
    place: usize,
) -> Result<Value, Fault>
    ensures { Gives (λ v. amount_of v) result (operated operator (amount_of (box_value left)) (amount_of right)) }
{
    if divides(operator) && is_zero(&right) {
        return Err(Fault::DivideByZero(place));
    }
    let right = Box::new(alloc, right)?;
    Ok(Value::Binary(operator, left, right))
}

/// The layer of an accessor's word; `sctp` has none.
pub(crate) fn layer_of(protocol: Protocol) -> Option<Layer>
    ensures { result ≡ layer_of protocol }
{
    match protocol {
        Protocol::Ether => Some(Layer::Ether),
        Protocol::Ip => Some(Layer::Ip),
        Protocol::Arp => Some(Layer::Arp),
        Protocol::Rarp => Some(Layer::Rarp),
        Protocol::Tcp => Some(Layer::Tcp),
        Protocol::Udp => Some(Layer::Udp),
        Protocol::Icmp => Some(Layer::Icmp),
        Protocol::Sctp => None,
    }
}

/// The size of this many bytes: 1, 2 or 4.
pub(crate) fn size_of(bytes: u32) -> Option<Size>
    ensures { result ≡ size_of bytes }
{
    match bytes {
        1 => Some(Size::One),
        2 => Some(Size::Two),
        4 => Some(Size::Four),
        _ => None,
    }
}
