//! Values and relations: what each looks at, in order, and what it is or answers.

ghost use Rattle.std.specs.Prelude.{◌≡◌, ◌<◌, ◌^◌};
ghost use Rattle.filter_tree.specs.Trees.{amount_of};
ghost use Rattle.filter_meaning.specs.Meaning.{arithmetic_of, bytes_of, compared};
ghost use Rattle.filter_meaning.specs.Looks.{packet, bytes_found, behind_header_found, access_found, calculated_found, value_found, layer_asked, layers_asked, relation_asked};
ghost use Rattle.filter_meaning.specs.Notes.{Noted};

use crate::arithmetic::calculate;
use crate::cause::AbortCause;
use crate::frame::{Frame, Notes};
use crate::primitives::{Answer, is_first_fragment_of, is_type};
use filter_tree::headers::{
    ETHER_HDR_LEN, ETHERTYPE_ARP, ETHERTYPE_IP, ETHERTYPE_REVARP, IPPROTO_ICMP, IPPROTO_TCP,
    IPPROTO_UDP,
};
use filter_tree::{Comparison, Layer, Operator, Size, Value};

/// The number in one, two or four bytes at an offset.
#[inline(always)]
fn bytes_at(
    offset: usize,
    size: Size,
    frame: &Frame<'_>,
    notes: &mut Notes,
) -> Result<u32, AbortCause>
    requires { offset < 2 ^ 34 }
    ensures number { result ≡ (bytes_found offset (bytes_of size) (packet frame.now)).number }
    ensures noted { Noted notes.old notes.new (bytes_found offset (bytes_of size) (packet frame.now)).looks }
{
    match size {
        Size::One => frame.byte(offset, notes),
        Size::Two => frame.half(offset, notes),
        Size::Four => frame.word(offset, notes),
    }
}

/// The number in bytes at an index that counts from the end of the IPv4 header.
fn behind_header(
    index: u32,
    size: Size,
    frame: &Frame<'_>,
    notes: &mut Notes,
) -> Result<u32, AbortCause>
    ensures number { result ≡ (behind_header_found (bytes_of size) index (packet frame.now)).number }
    ensures noted { Noted notes.old notes.new (behind_header_found (bytes_of size) index (packet frame.now)).looks }
{
    let first = frame.byte(ETHER_HDR_LEN, notes)?;
    let behind = index.wrapping_add(4 * (first & 15));
    bytes_at(ETHER_HDR_LEN + behind as usize, size, frame, notes)
}

/// The bytes that an accessor reads.
fn access(
    layer: Layer,
    index: u32,
    size: Size,
    frame: &Frame<'_>,
    notes: &mut Notes,
) -> Result<u32, AbortCause>
    ensures number { result ≡ (access_found layer (bytes_of size) index (packet frame.now)).number }
    ensures noted { Noted notes.old notes.new (access_found layer (bytes_of size) index (packet frame.now)).looks }
{
    match layer {
        Layer::Ether => bytes_at(index as usize, size, frame, notes),
        Layer::Ip => bytes_at(ETHER_HDR_LEN + index as usize, size, frame, notes),
        Layer::Arp => bytes_at(ETHER_HDR_LEN + index as usize, size, frame, notes),
        Layer::Rarp => bytes_at(ETHER_HDR_LEN + index as usize, size, frame, notes),
        Layer::Tcp => behind_header(index, size, frame, notes),
        Layer::Udp => behind_header(index, size, frame, notes),
        Layer::Icmp => behind_header(index, size, frame, notes),
    }
}

/// What an operator makes of two numbers.
fn calculated(operator: Operator, a: u32, b: u32) -> Result<u32, AbortCause>
    ensures { result ≡ calculated_found (arithmetic_of operator) a b }
{
    calculate(operator, a, b).ok_or(AbortCause::ZeroDivisor)
}

/// A value, of whatever form.
#[inline(never)]
#[cycle(value)]
fn compound_value(amount: &Value, frame: &Frame<'_>, notes: &mut Notes) -> Result<u32, AbortCause>
    ensures number { result ≡ (value_found (amount_of amount.now) (packet frame.now)).number }
    ensures noted { Noted notes.old notes.new (value_found (amount_of amount.now) (packet frame.now)).looks }
{
    match amount {
        Value::Number(n) => Ok(*n),
        Value::Length => Ok(frame.length(notes)),
        Value::Negation(operand) => Ok(0u32.wrapping_sub(value(operand, frame, notes)?)),
        Value::Binary(operator, left, right) => {
            let a = value(left, frame, notes)?;
            let b = value(right, frame, notes)?;
            calculated(*operator, a, b)
        }
        Value::Accessor(layer, index, size) => {
            let index = value(index, frame, notes)?;
            access(*layer, index, *size, frame, notes)
        }
    }
}

/// A value. It is inlined, so that a number, which most values are, takes no call.
#[inline(always)]
#[cycle(value)]
pub(crate) fn value(amount: &Value, frame: &Frame<'_>, notes: &mut Notes) -> Result<u32, AbortCause>
    ensures number { result ≡ (value_found (amount_of amount.now) (packet frame.now)).number }
    ensures noted { Noted notes.old notes.new (value_found (amount_of amount.now) (packet frame.now)).looks }
{
    match amount {
        Value::Number(n) => Ok(*n),
        _ => compound_value(amount, frame, notes),
    }
}

/// The layer that an accessor reads.
fn is_in_layer(layer: Layer, frame: &Frame<'_>, notes: &mut Notes) -> Answer
    ensures answer { result ≡ (layer_asked layer (packet frame.now)).answer }
    ensures noted { Noted notes.old notes.new (layer_asked layer (packet frame.now)).looks }
{
    match layer {
        Layer::Ether => Ok(true),
        Layer::Ip => is_type(ETHERTYPE_IP, frame, notes),
        Layer::Arp => is_type(ETHERTYPE_ARP, frame, notes),
        Layer::Rarp => is_type(ETHERTYPE_REVARP, frame, notes),
        Layer::Tcp => is_first_fragment_of(IPPROTO_TCP, frame, notes),
        Layer::Udp => is_first_fragment_of(IPPROTO_UDP, frame, notes),
        Layer::Icmp => is_first_fragment_of(IPPROTO_ICMP, frame, notes),
    }
}

/// The layers of a value's accessors, of whatever form it is.
#[inline(never)]
#[cycle(layers)]
fn is_compound_in_layers(amount: &Value, frame: &Frame<'_>, notes: &mut Notes) -> Answer
    ensures answer { result ≡ (layers_asked (amount_of amount.now) (packet frame.now)).answer }
    ensures noted { Noted notes.old notes.new (layers_asked (amount_of amount.now) (packet frame.now)).looks }
{
    match amount {
        Value::Number(_) => Ok(true),
        Value::Length => Ok(true),
        Value::Negation(operand) => is_in_layers(operand, frame, notes),
        Value::Binary(_, left, right) => {
            if !is_in_layers(left, frame, notes)? {
                return Ok(false);
            }
            is_in_layers(right, frame, notes)
        }
        Value::Accessor(layer, index, _) => {
            if !is_in_layer(*layer, frame, notes)? {
                return Ok(false);
            }
            is_in_layers(index, frame, notes)
        }
    }
}

/// The layers of a value's accessors. It is inlined as [`value`] is.
#[inline(always)]
#[cycle(layers)]
fn is_in_layers(amount: &Value, frame: &Frame<'_>, notes: &mut Notes) -> Answer
    ensures answer { result ≡ (layers_asked (amount_of amount.now) (packet frame.now)).answer }
    ensures noted { Noted notes.old notes.new (layers_asked (amount_of amount.now) (packet frame.now)).looks }
{
    match amount {
        Value::Number(_) => Ok(true),
        _ => is_compound_in_layers(amount, frame, notes),
    }
}

/// Whether a comparison holds of two numbers.
fn holds_between(comparison: Comparison, a: u32, b: u32) -> bool
    ensures { result ≡ compared comparison a b }
{
    match comparison {
        Comparison::Equal => a == b,
        Comparison::NotEqual => a != b,
        Comparison::Less => a < b,
        Comparison::Greater => a > b,
        Comparison::LessOrEqual => a <= b,
        Comparison::GreaterOrEqual => a >= b,
    }
}

/// A relation: its values are looked at only if the layers of all accessors are there.
pub(crate) fn relation(
    comparison: Comparison,
    left: &Value,
    right: &Value,
    frame: &Frame<'_>,
    notes: &mut Notes,
) -> Answer
    ensures answer { result ≡ (relation_asked comparison (amount_of left.now) (amount_of right.now) (packet frame.now)).answer }
    ensures noted { Noted notes.old notes.new (relation_asked comparison (amount_of left.now) (amount_of right.now) (packet frame.now)).looks }
{
    if !is_in_layers(left, frame, notes)? {
        return Ok(false);
    }
    if !is_in_layers(right, frame, notes)? {
        return Ok(false);
    }
    let a = value(left, frame, notes)?;
    let b = value(right, frame, notes)?;
    Ok(holds_between(comparison, a, b))
}
