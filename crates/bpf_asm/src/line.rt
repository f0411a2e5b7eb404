//! The lines of a text.

ghost use Rattle.std.specs.Prelude.{◌≡◌, option_map};
ghost use Rattle.bpf_asm.specs.Lines.{place_at, colon_at, label_at, place_and_rest, label_and_rest, instruction_at, line_at};

use crate::fault::Cause;
use crate::instructions::{Instruction, instruction_of};
use crate::operands::{close_at, next};
use crate::token::{Label, Token};

/// What a line says.
#[derive(Clone, Copy, Debug, PartialEq, Eq)]
pub(crate) struct Line {
    /// The place of its instruction, if that is written in front of it.
    pub place: Option<u32>,
    pub label: Option<Label>,
    pub instruction: Option<Instruction>,
}

/// The place at the front, `(005)`, and what follows it.
fn place_at(tokens: &[Token]) -> Option<(u32, &[Token])>
    ensures { option_map (λ found. (found.0, found.1.now)) result ≡ place_at tokens.now }
{
    match next(tokens) {
        Some((Token::Place(place), rest)) => {
            let rest = close_at(rest)?;
            Some((place, rest))
        }
        _ => None,
    }
}

/// What follows the `:` at the front.
fn colon_at(tokens: &[Token]) -> Option<&[Token]>
    ensures { option_map (λ rest. rest.now) result ≡ colon_at tokens.now }
{
    match next(tokens) {
        Some((Token::Colon, rest)) => Some(rest),
        _ => None,
    }
}

/// The label at the front with its `:`, and what follows it.
fn label_at(tokens: &[Token]) -> Option<(Label, &[Token])>
    ensures { option_map (λ found. (found.0, found.1.now)) result ≡ label_at tokens.now }
{
    match next(tokens) {
        Some((Token::Label(label), rest)) => {
            let rest = colon_at(rest)?;
            Some((label, rest))
        }
        _ => None,
    }
}

/// The place at the front, if there is one, and what follows.
fn place_and_rest(tokens: &[Token]) -> (Option<u32>, &[Token])
    ensures { (result.0, result.1.now) ≡ place_and_rest tokens.now }
{
    match place_at(tokens) {
        Some((place, rest)) => (Some(place), rest),
        None => (None, tokens),
    }
}

/// The label at the front, if there is one, and what follows.
fn label_and_rest(tokens: &[Token]) -> (Option<Label>, &[Token])
    ensures { (result.0, result.1.now) ≡ label_and_rest tokens.now }
{
    match label_at(tokens) {
        Some((label, rest)) => (Some(label), rest),
        None => (None, tokens),
    }
}

/// The instruction of a line, if it has one, from what follows its label.
fn instruction_at(tokens: &[Token]) -> Result<Option<Instruction>, Cause>
    ensures { result ≡ instruction_at tokens.now }
{
    match next(tokens) {
        None => Ok(None),
        Some((Token::Name(name), rest)) => match instruction_of(name, rest) {
            Some(instruction) => Ok(Some(instruction)),
            None => Err(Cause::BadOperand),
        },
        _ => Err(Cause::UnknownName),
    }
}

/// What the tokens of a line say.
pub(crate) fn line_at(tokens: &[Token]) -> Result<Line, Cause>
    ensures { result ≡ line_at tokens.now }
{
    let (place, rest) = place_and_rest(tokens);
    let (label, rest) = label_and_rest(rest);
    let instruction = instruction_at(rest)?;
    Ok(Line {
        place,
        label,
        instruction,
    })
}
