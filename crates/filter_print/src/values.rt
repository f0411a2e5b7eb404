//! Values of arithmetic as texts.

ghost use Rattle.std.specs.Prelude.{◌≡◌};
ghost use Rattle.std.specs.Fmt.{WritesOnOk};
ghost use Rattle.filter_tree.specs.Trees.{amount_of};
ghost use Rattle.filter_print.specs.Canonical.{operator_text, comparison_text, layer_text, size_text, value_text};
ghost use Rattle.filter_print.specs.Parentheses.{opened, closed, between};

use crate::parentheses::{Parentheses, is_binary, left_enclosed, right_enclosed};
use filterlang::{Comparison, Layer, Operator, Size, Value};
use std::fmt;
use std::fmt::{Formatter, Write};

/// An operator with a space on both sides.
fn operator_text(operator: Operator) -> &'static str
    ensures { result.now ≡ operator_text operator }
{
    match operator {
        Operator::Plus => " + ",
        Operator::Minus => " - ",
        Operator::Times => " * ",
        Operator::Divide => " / ",
        Operator::Modulo => " % ",
        Operator::BitAnd => " & ",
        Operator::BitXor => " ^ ",
        Operator::BitOr => " | ",
        Operator::ShiftLeft => " << ",
        Operator::ShiftRight => " >> ",
    }
}

/// A comparison with a space on both sides.
pub(crate) fn comparison_text(comparison: Comparison) -> &'static str
    ensures { result.now ≡ comparison_text comparison }
{
    match comparison {
        Comparison::Equal => " = ",
        Comparison::NotEqual => " != ",
        Comparison::Less => " < ",
        Comparison::Greater => " > ",
        Comparison::LessOrEqual => " <= ",
        Comparison::GreaterOrEqual => " >= ",
    }
}

/// A layer, followed by its bracket.
fn layer_text(layer: Layer) -> &'static str
    ensures { result.now ≡ layer_text layer }
{
    match layer {
        Layer::Ether => "ether[",
        Layer::Ip => "ip[",
        Layer::Arp => "arp[",
        Layer::Rarp => "rarp[",
        Layer::Tcp => "tcp[",
        Layer::Udp => "udp[",
        Layer::Icmp => "icmp[",
    }
}

/// The size of an accessor, followed by its bracket; one byte is not written out.
fn size_text(size: Size) -> &'static str
    ensures { result.now ≡ size_text size }
{
    match size {
        Size::One => "]",
        Size::Two => ":2]",
        Size::Four => ":4]",
    }
}

/// Opens a parenthesis, if one is needed.
pub(crate) fn write_open<W: Write>(f: &mut Formatter<W>, enclosed: bool) -> fmt::Result
    ensures { WritesOnOk W.write_str_gives f.old result (opened enclosed) f.new }
{
    f.write_str(if enclosed { "(" } else { "" })
}

/// Closes a parenthesis, if one was opened.
pub(crate) fn write_close<W: Write>(f: &mut Formatter<W>, enclosed: bool) -> fmt::Result
    ensures { WritesOnOk W.write_str_gives f.old result (closed enclosed) f.new }
{
    f.write_str(if enclosed { ")" } else { "" })
}

/// Writes the operator between two sides, each of them in parentheses or not.
#[tactic(auto, unfolding(crate::specs::Parentheses::between))]
pub(crate) fn write_between<W: Write>(
    f: &mut Formatter<W>,
    left_enclosed: bool,
    sign: &str,
    right_enclosed: bool,
) -> fmt::Result
    ensures { WritesOnOk W.write_str_gives f.old result (between left_enclosed sign.now right_enclosed) f.new }
{
    write_close(f, left_enclosed)?;
    f.write_str(sign)?;
    write_open(f, right_enclosed)
}

/// Writes a value.
#[tactic(auto, unfolding(crate::specs::Canonical::value_text))]
pub(crate) fn write_value<W: Write>(
    f: &mut Formatter<W>,
    value: &Value,
    parentheses: Parentheses,
) -> fmt::Result
    ensures { WritesOnOk W.write_str_gives f.old result (value_text parentheses (amount_of value.now)) f.new }
{
    match value {
        Value::Number(number) => write!(f, "{number}"),
        Value::Length => f.write_str("len"),
        Value::Negation(inner) => {
            let enclosed = is_binary(inner);
            f.write_str("-")?;
            write_open(f, enclosed)?;
            write_value(f, inner, parentheses)?;
            write_close(f, enclosed)
        }
        Value::Binary(operator, left, right) => {
            let left_is_enclosed = left_enclosed(parentheses, *operator, left);
            let right_is_enclosed = right_enclosed(parentheses, *operator, right);
            write_open(f, left_is_enclosed)?;
            write_value(f, left, parentheses)?;
            write_between(
                f,
                left_is_enclosed,
                operator_text(*operator),
                right_is_enclosed,
            )?;
            write_value(f, right, parentheses)?;
            write_close(f, right_is_enclosed)
        }
        Value::Accessor(layer, index, size) => {
            f.write_str(layer_text(*layer))?;
            write_value(f, index, parentheses)?;
            f.write_str(size_text(*size))
        }
    }
}
