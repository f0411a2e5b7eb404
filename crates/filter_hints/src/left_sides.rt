//! What helps at a comparison that lacks its left side, as `len > 60 and <100` and
//! `60 < len < 100`.

use crate::advice::{Advice, Found};
use crate::terms::{
    is_bound, is_constant, is_negated, is_of_comparison, last_value, without_joint,
};
use filter_spots::{Spot, after_blanks, first_word, without_blanks};
use std::alloc::Global;
use std::fmt;
use std::fmt::{Display, Formatter};
use visible_text::Shown;

/// What is said of a comparison that lacks a side, if another term is before both.
const TWO_SIDES: &str =
    "a comparison has two sides: write two of them in parentheses, as `(60 < len and len < 100)`";

/// What is said of several values that are not to be.
const NONE_OF_SEVERAL: &str =
    "for none of several join comparisons by `and`, as in `(len != 60 and len != 100)`";

/// A longer value is not written out.
const MAX_VALUE: usize = 40;

/// A comparison that lacks a side: it prints as a sentence.
#[derive(Clone, Copy)]
pub enum SideAdvice<'a> {
    /// The left side that it lacks, its sign, and the comparison from there on.
    Left(&'a [u8], &'a [u8], &'a [u8]),
    /// A value between two comparisons, and the second of these.
    Chain(&'a [u8], &'a [u8]),
}

impl Display for SideAdvice<'_> {
    fn fmt<W: fmt::Write>(&self, f: &mut Formatter<W>) -> fmt::Result {
        match self {
            SideAdvice::Left(value, sign, comparison) => write!(
                f,
                "write the value again before `{}`: `{} {}`",
                Shown(*sign),
                Shown(*value),
                Shown(*comparison)
            ),
            SideAdvice::Chain(value, comparison) => write!(
                f,
                "a comparison has two sides: write `and {} {}`",
                Shown(*value),
                Shown(*comparison)
            ),
        }
    }
}

/// The sign at the front of a text that compares; nothing if none is there.
fn sign_at(text: &[u8]) -> &[u8] {
    let end = text
        .iter()
        .position(|byte| !is_of_comparison(byte))
        .unwrap_or(text.len());
    &text[..end]
}

/// A value that can be written again: it differs from packet to packet, and is not long.
fn written_again(value: &[u8]) -> Option<&[u8]> {
    if value.is_empty() || value.len() > MAX_VALUE || is_constant(value) {
        None
    } else {
        Some(value)
    }
}

/// The left side of the last comparison in a text.
fn last_left_side(text: &[u8]) -> Option<&[u8]> {
    let sign = text.iter().rposition(is_of_comparison)?;
    let before = text.get(..sign)?;
    let end = before.iter().rposition(|byte| !is_of_comparison(byte))?;
    written_again(last_value(before.get(..end + 1)?))
}

/// The right side of the last comparison in a text, which ends with it.
fn last_right_side(text: &[u8]) -> Option<&[u8]> {
    let sign = text.iter().rposition(is_of_comparison)?;
    written_again(after_blanks(without_blanks(text.get(sign + 1..)?)))
}

/// A comparison at the front of a text, up to the number or the word after its sign.
fn comparison_at<'a>(text: &'a [u8], sign: &[u8]) -> &'a [u8] {
    let after = text.get(sign.len()..).unwrap_or(&[]);
    let operand = after_blanks(after);
    let blanks = after.len().saturating_sub(operand.len());
    let len = sign
        .len()
        .saturating_add(blanks)
        .saturating_add(first_word(operand).len());
    text.get(..len).unwrap_or(text)
}

/// What helps at the sign of a comparison right after what joins two terms: the left side of the
/// comparison before it, written again.
fn of_left_side<'a>(alloc: Global, spot: Spot<'a>, sign: &'a [u8]) -> Found<'a> {
    let before = without_joint(spot.before()).unwrap_or(&[]);
    let Some(value) = last_left_side(before) else {
        return Ok(None);
    };
    if is_bound(before) {
        return Ok(Some(Advice::Said(TWO_SIDES)));
    }
    let written = format!(in alloc; "{} ", Shown(value))?;
    match spot.before_word() {
        Some(gap) if gap.takes(alloc, written.as_str())? => {
            let comparison = comparison_at(spot.rest(), sign);
            Ok(Some(Advice::Side(SideAdvice::Left(value, sign, comparison))))
        }
        _ => Ok(None),
    }
}

/// What helps at the second sign of a value between two, as `60 < len < 100`: `and`, and the value
/// written again.
fn of_chain<'a>(alloc: Global, spot: Spot<'a>, sign: &'a [u8]) -> Found<'a> {
    let Some(value) = last_right_side(spot.before()) else {
        return Ok(None);
    };
    if is_bound(spot.before()) {
        return Ok(Some(Advice::Said(TWO_SIDES)));
    }
    let written = format!(in alloc; " and {} ", Shown(value))?;
    match spot.before_word() {
        Some(gap) if gap.takes(alloc, written.as_str())? => {
            let comparison = comparison_at(spot.rest(), sign);
            Ok(Some(Advice::Side(SideAdvice::Chain(value, comparison))))
        }
        _ => Ok(None),
    }
}

/// What helps at the sign of a comparison that lacks its left side.
pub(crate) fn of_sign<'a>(alloc: Global, spot: Spot<'a>) -> Found<'a> {
    let sign = sign_at(spot.rest());
    if sign.is_empty() {
        return Ok(None);
    }
    match of_left_side(alloc, spot, sign)? {
        Some(advice) => Ok(Some(advice)),
        None => of_chain(alloc, spot, sign),
    }
}

/// What helps at a number that is joined to a comparison, as `len = 100 or 200`: the left side of
/// that and its sign, written again.
pub(crate) fn of_operand<'a>(alloc: Global, spot: Spot<'a>) -> Found<'a> {
    let before = without_joint(spot.before()).unwrap_or(&[]);
    let Some(sign) = before.iter().rposition(is_of_comparison) else {
        return Ok(None);
    };
    let operand = after_blanks(without_blanks(before.get(sign + 1..).unwrap_or(&[])));
    let left = written_again(last_value(before.get(..sign + 1).unwrap_or(&[])));
    let (Some(left), true) = (left, first_word(operand).len() == operand.len()) else {
        return Ok(None);
    };
    if is_negated(before) {
        return Ok(Some(Advice::Said(TWO_SIDES)));
    }
    if left.ends_with(b"!=") {
        return Ok(Some(Advice::Said(NONE_OF_SEVERAL)));
    }
    let written = format!(in alloc; "{} ", Shown(left))?;
    match spot.before_word() {
        Some(gap) if gap.takes(alloc, written.as_str())? => {
            Ok(Some(Advice::Side(SideAdvice::Left(left, spot.word(), spot.word()))))
        }
        _ => Ok(None),
    }
}
