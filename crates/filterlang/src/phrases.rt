//! What the tokens begin with: phrases, identifiers, single words and signs.

ghost use Rattle.std.specs.Prelude.{◌≡◌, option_map};
ghost use Rattle.std.specs.Result.{result_ok};
ghost use Rattle.filterlang.specs.Phrases.{kinds, protocol_at, direction_at, one_side, type_at, joined, phrase_at, dotted_at, identifier_at};
ghost use Rattle.filterlang.specs.Primitives.{begins_identifier};
ghost use Rattle.filterlang.specs.Grammar.{is_written};
ghost use Rattle.filterlang.specs.Readers.{next_of, bare_number_at, close_at};
ghost use Rattle.filterlang.specs.Reading.{side_at, joined_at, address_at, joint_at, minus_at, range_at};

mod group;
pub(crate) mod primitives;
pub(crate) mod qualifiers;

use crate::phrases::qualifiers::{Identifier, Phrase};
use crate::token::{Joint, Kind, Parts, Protocol, Side, Token, TypeWord};
use filter_tree::{Direction, Operator};

/// What the next token is, and what follows it.
pub(crate) fn next(tokens: &[Token]) -> Option<(Kind, &[Token])>
    ensures { option_map (λ found. (found.0, kinds found.1.now)) result ≡ next_of (kinds tokens.now) }
{
    let [token, rest @ ..] = tokens else {
        return None;
    };
    Some((token.kind, rest))
}

/// The protocol word at the front, if there is one, and what follows.
fn protocol_at(tokens: &[Token]) -> (Option<Protocol>, &[Token])
    ensures { (result.0, kinds result.1.now) ≡ protocol_at (kinds tokens.now) }
{
    match next(tokens) {
        Some((Kind::Protocol(protocol), rest)) => (Some(protocol), rest),
        _ => (None, tokens),
    }
}

/// The type word at the front, if there is one, and what follows.
fn type_at(tokens: &[Token]) -> (Option<TypeWord>, &[Token])
    ensures { (result.0, kinds result.1.now) ≡ type_at (kinds tokens.now) }
{
    match next(tokens) {
        Some((Kind::Type(word), rest)) => (Some(word), rest),
        _ => (None, tokens),
    }
}

/// The direction of two words and what joins them, if they are one.
fn join_sides(first: Side, joint: Joint, second: Side) -> Option<Direction>
    ensures { result ≡ joined first joint second }
{
    match (first, joint, second) {
        (Side::Src, Joint::Or, Side::Dst) | (Side::Dst, Joint::Or, Side::Src) => Some(
            Direction::SrcOrDst,
        ),
        (Side::Src, Joint::And, Side::Dst) | (Side::Dst, Joint::And, Side::Src) => Some(
            Direction::SrcAndDst,
        ),
        _ => None,
    }
}

/// The word for a direction at the front, if there is one, and what follows.
fn side_at(tokens: &[Token]) -> Option<(Side, &[Token])>
    ensures { option_map (λ found. (found.0, kinds found.1.now)) result ≡ side_at (kinds tokens.now) }
{
    match next(tokens) {
        Some((Kind::Side(side), rest)) => Some((side, rest)),
        _ => None,
    }
}

/// What joins a direction's first word to another: `and` or `or`, and then the other word.
fn joined_at(first: Side, tokens: &[Token]) -> Option<(Direction, &[Token])>
    ensures { option_map (λ found. (found.0, kinds found.1.now)) result ≡ joined_at first (kinds tokens.now) }
{
    let (joint, rest) = joint_at(tokens)?;
    let (second, rest) = side_at(rest)?;
    let direction = join_sides(first, joint, second)?;
    Some((direction, rest))
}

/// The direction of one word.
fn one_side(side: Side) -> Direction
    ensures { result ≡ one_side side }
{
    match side {
        Side::Src => Direction::Src,
        Side::Dst => Direction::Dst,
    }
}

/// The direction at the front, as long as possible, if there is one, and what follows.
fn direction_at(tokens: &[Token]) -> (Option<Direction>, &[Token])
    ensures { (result.0, kinds result.1.now) ≡ direction_at (kinds tokens.now) }
{
    let Some((first, rest)) = side_at(tokens) else {
        return (None, tokens);
    };
    match joined_at(first, rest) {
        Some((direction, rest)) => (Some(direction), rest),
        None => (Some(one_side(first)), rest),
    }
}

/// The phrase at the front, as long as possible, and what follows.
pub(crate) fn phrase_at(tokens: &[Token]) -> (Phrase, &[Token])
    ensures { (result.0, kinds result.1.now) ≡ phrase_at (kinds tokens.now) }
{
    let (protocol, rest) = protocol_at(tokens);
    let (direction, rest) = direction_at(rest);
    let (type_word, rest) = type_at(rest);
    let phrase = Phrase {
        protocol,
        direction,
        type_word,
    };
    (phrase, rest)
}

/// Whether a phrase has any word.
pub(crate) fn is_written(phrase: Phrase) -> bool
    ensures { result ≡ is_written phrase }
{
    phrase.protocol.is_some() || phrase.direction.is_some() || phrase.type_word.is_some()
}

/// The number at the front and what follows, or the place of the token that is none.
pub(crate) fn bare_number_at(tokens: &[Token]) -> Result<(u32, &[Token]), &[Token]>
    ensures { bare_number_at (kinds tokens.now) ≡ option_map (λ found. (found.0, kinds found.1.now)) (result_ok result) }
{
    match next(tokens) {
        Some((Kind::Number(number), rest)) => Ok((number, rest)),
        _ => Err(tokens),
    }
}

/// The dotted address at the front with its parts and what follows, or the place of the token that
/// is none.
fn address_at(tokens: &[Token]) -> Result<(u32, Parts, &[Token]), &[Token]>
    ensures { address_at (kinds tokens.now)
        ≡ option_map (λ found. (found.0, found.1, kinds found.2.now)) (result_ok result) }
{
    match next(tokens) {
        Some((Kind::Dotted { address, parts }, rest)) => Ok((address, parts, rest)),
        _ => Err(tokens),
    }
}

/// What follows a dotted address within its identifier, and the tokens after that; or the place
/// where it breaks off.
fn dotted_at(
    address: u32,
    parts: Parts,
    tokens: &[Token],
) -> Result<(Identifier, &[Token]), &[Token]>
    ensures { dotted_at address parts (kinds tokens.now)
        ≡ option_map (λ found. (found.0, kinds found.1.now)) (result_ok result) }
{
    match next(tokens) {
        Some((Kind::Operator(Operator::Divide), rest)) => {
            let (bits, rest) = bare_number_at(rest)?;
            Ok((Identifier::Prefix { address, bits }, rest))
        }
        Some((Kind::Mask, rest)) => {
            let (mask, parts, rest) = address_at(rest)?;
            Ok((
                Identifier::Masked {
                    address,
                    mask,
                    parts,
                },
                rest,
            ))
        }
        _ => Ok((Identifier::Dotted { address, parts }, tokens)),
    }
}

/// Whether an identifier begins with this.
pub(crate) fn begins_identifier(kind: Kind) -> bool
    ensures { result ≡ begins_identifier kind }
{
    matches!(
        kind,
        Kind::Number(_) | Kind::Dotted { .. } | Kind::Ethernet(_) | Kind::Name(_)
    )
}

/// The identifier at the front and what follows, or the place where it breaks off.
pub(crate) fn identifier_at(tokens: &[Token]) -> Result<(Identifier, &[Token]), &[Token]>
    ensures { identifier_at (kinds tokens.now)
        ≡ option_map (λ found. (found.0, kinds found.1.now)) (result_ok result) }
{
    match next(tokens) {
        Some((Kind::Number(number), rest)) => Ok((Identifier::Number(number), rest)),
        Some((Kind::Ethernet(address), rest)) => Ok((Identifier::Ethernet(address), rest)),
        Some((Kind::Name(name), rest)) => Ok((Identifier::Name(name), rest)),
        Some((Kind::Dotted { address, parts }, rest)) => dotted_at(address, parts, rest),
        _ => Err(tokens),
    }
}

/// The `and` or `or` at the front, if there is one, and what follows.
pub(crate) fn joint_at(tokens: &[Token]) -> Option<(Joint, &[Token])>
    ensures { option_map (λ found. (found.0, kinds found.1.now)) result ≡ joint_at (kinds tokens.now) }
{
    match next(tokens) {
        Some((Kind::Joint(joint), rest)) => Some((joint, rest)),
        _ => None,
    }
}

/// What follows the `-` at the front, or the place of the token that is none.
pub(crate) fn minus_at(tokens: &[Token]) -> Result<((), &[Token]), &[Token]>
    ensures { minus_at (kinds tokens.now) ≡ option_map (λ found. (found.0, kinds found.1.now)) (result_ok result) }
{
    match next(tokens) {
        Some((Kind::Operator(Operator::Minus), rest)) => Ok(((), rest)),
        _ => Err(tokens),
    }
}

/// What follows the `)` at the front, or the place of the token that is none.
pub(crate) fn close_at(tokens: &[Token]) -> Result<((), &[Token]), &[Token]>
    ensures { close_at (kinds tokens.now) ≡ option_map (λ found. (found.0, kinds found.1.now)) (result_ok result) }
{
    match next(tokens) {
        Some((Kind::Close, rest)) => Ok(((), rest)),
        _ => Err(tokens),
    }
}

/// The tokens after `portrange`, if they begin with it and the phrase before has no type.
pub(crate) fn range_at(phrase: Phrase, tokens: &[Token]) -> Option<&[Token]>
    ensures { option_map (λ rest. kinds rest.now) result ≡ range_at phrase (kinds tokens.now) }
{
    match next(tokens) {
        Some((Kind::PortRange, rest)) if phrase.type_word.is_none() => Some(rest),
        _ => None,
    }
}
