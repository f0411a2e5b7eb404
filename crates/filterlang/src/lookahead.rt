//! What the tokens at a place decide before any of them is read.

ghost use Rattle.std.specs.Prelude.{◌≡◌};
ghost use Rattle.filterlang.specs.Phrases.{kinds};
ghost use Rattle.filterlang.specs.Grammar.{operator_follows, bracket_follows, after_matching, begins_relation};
ghost use Rattle.filterlang.specs.Reading.{beginning};
ghost use Rattle.filterlang.specs.ValueReading.{opening};

use crate::phrases::next;
use crate::token::{Kind, Token};
use filter_tree::Operator;

/// What the first token of a term says of it, if it is no relation.
#[derive(Clone, Copy)]
pub(crate) enum Beginning {
    Not,
    Parenthesis,
    Primitive,
}

/// What the first token says of the term at the front.
pub(crate) fn look_ahead(tokens: &[Token]) -> Beginning
    ensures { result ≡ beginning (kinds tokens.now) }
{
    match next(tokens) {
        Some((Kind::Not, _)) => Beginning::Not,
        Some((Kind::Open, _)) => Beginning::Parenthesis,
        _ => Beginning::Primitive,
    }
}

/// What the first token of a value says of it, if it has operators only within parentheses and
/// brackets.
#[derive(Clone, Copy)]
pub(crate) enum Opening {
    Minus,
    Parenthesis,
    Accessor,
    /// A value of one token, or none.
    Leaf,
}

/// What the first token says of the value at the front.
pub(crate) fn look_into(tokens: &[Token]) -> Opening
    ensures { result ≡ opening (kinds tokens.now) }
{
    match next(tokens) {
        Some((Kind::Operator(Operator::Minus), _)) => Opening::Minus,
        Some((Kind::Open, _)) => Opening::Parenthesis,
        Some((Kind::Protocol(_), _)) => Opening::Accessor,
        _ => Opening::Leaf,
    }
}

/// Whether an operator of arithmetic or a comparison is the next token.
fn operator_follows(tokens: &[Token]) -> bool
    ensures { result ≡ operator_follows (kinds tokens.now) }
{
    matches!(
        next(tokens),
        Some((Kind::Operator(_) | Kind::Comparison(_), _))
    )
}

/// The tokens after the `)` that matches a `(` before these; none if no `)` does.
fn after_matching(tokens: &[Token]) -> &[Token]
    ensures { kinds result.now ≡ after_matching 0 (kinds tokens.now) }
{
    let mut rest = tokens;
    let mut depth: usize = 0;
    while let [token, behind @ ..] = rest {
        rest = behind;
        match token.kind {
            Kind::Open => depth += 1,
            Kind::Close => {
                let Some(outer) = depth.checked_sub(1) else {
                    return rest;
                };
                depth = outer;
            }
            _ => {}
        }
    }
    rest
}

/// Whether the term at the front is a relation, as its first tokens show.
pub(crate) fn begins_relation(tokens: &[Token]) -> bool
    ensures { result ≡ begins_relation (kinds tokens.now) }
{
    let Some((kind, rest)) = next(tokens) else {
        return false;
    };
    match kind {
        Kind::Open => operator_follows(after_matching(rest)),
        Kind::Number(_) => operator_follows(rest),
        Kind::Operator(Operator::Minus) | Kind::Len | Kind::Named(_) => true,
        Kind::Protocol(_) => bracket_follows(rest),
        _ => false,
    }
}

/// Whether a `[` is the next token.
pub(crate) fn bracket_follows(tokens: &[Token]) -> bool
    ensures { result ≡ bracket_follows (kinds tokens.now) }
{
    matches!(next(tokens), Some((Kind::OpenBracket, _)))
}
