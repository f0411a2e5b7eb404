//! The operands of instructions, from the front of a line's tokens.

ghost use Rattle.std.specs.Prelude.{◌≡◌, option_map};
ghost use Rattle.bpf_asm.specs.Operands.{next_of, number_at, open_at, close_at, open_bracket_at, close_bracket_at, plus_at, times_at, and_at, bracketed_at, indirect_at, packet_at, literal_at, cell_at, low_bits_at, header_length_at, operand_at};

use crate::token::Token;

/// An operand, in the form that it is written in.
#[derive(Clone, Copy, Debug, PartialEq, Eq)]
pub(crate) enum Operand {
    Nothing,
    /// `x`
    Index,
    /// `a`
    Accumulator,
    /// `#12`
    Literal(u32),
    /// `#len`
    Length,
    /// `[12]`
    Packet(u32),
    /// `[x + 12]`
    PacketAtIndex(u32),
    /// `4*([14]&0xf)`
    HeaderLength(u32),
    /// `M[3]`
    Cell(u32),
}

/// The next token, and what follows it.
pub(crate) fn next(tokens: &[Token]) -> Option<(Token, &[Token])>
    ensures { option_map (λ found. (found.0, found.1.now)) result ≡ next_of tokens.now }
{
    let [token, rest @ ..] = tokens else {
        return None;
    };
    Some((*token, rest))
}

/// The number at the front, and what follows it.
fn number_at(tokens: &[Token]) -> Option<(u32, &[Token])>
    ensures { option_map (λ found. (found.0, found.1.now)) result ≡ number_at tokens.now }
{
    match next(tokens) {
        Some((Token::Number(number), rest)) => Some((number, rest)),
        _ => None,
    }
}

/// What follows the `(` at the front.
fn open_at(tokens: &[Token]) -> Option<&[Token]>
    ensures { option_map (λ rest. rest.now) result ≡ open_at tokens.now }
{
    match next(tokens) {
        Some((Token::Open, rest)) => Some(rest),
        _ => None,
    }
}

/// What follows the `)` at the front.
pub(crate) fn close_at(tokens: &[Token]) -> Option<&[Token]>
    ensures { option_map (λ rest. rest.now) result ≡ close_at tokens.now }
{
    match next(tokens) {
        Some((Token::Close, rest)) => Some(rest),
        _ => None,
    }
}

/// What follows the `[` at the front.
fn open_bracket_at(tokens: &[Token]) -> Option<&[Token]>
    ensures { option_map (λ rest. rest.now) result ≡ open_bracket_at tokens.now }
{
    match next(tokens) {
        Some((Token::OpenBracket, rest)) => Some(rest),
        _ => None,
    }
}

/// What follows the `]` at the front.
fn close_bracket_at(tokens: &[Token]) -> Option<&[Token]>
    ensures { option_map (λ rest. rest.now) result ≡ close_bracket_at tokens.now }
{
    match next(tokens) {
        Some((Token::CloseBracket, rest)) => Some(rest),
        _ => None,
    }
}

/// What follows the `+` at the front.
fn plus_at(tokens: &[Token]) -> Option<&[Token]>
    ensures { option_map (λ rest. rest.now) result ≡ plus_at tokens.now }
{
    match next(tokens) {
        Some((Token::Plus, rest)) => Some(rest),
        _ => None,
    }
}

/// What follows the `*` at the front.
fn times_at(tokens: &[Token]) -> Option<&[Token]>
    ensures { option_map (λ rest. rest.now) result ≡ times_at tokens.now }
{
    match next(tokens) {
        Some((Token::Times, rest)) => Some(rest),
        _ => None,
    }
}

/// What follows the `&` at the front.
fn and_at(tokens: &[Token]) -> Option<&[Token]>
    ensures { option_map (λ rest. rest.now) result ≡ and_at tokens.now }
{
    match next(tokens) {
        Some((Token::And, rest)) => Some(rest),
        _ => None,
    }
}

/// The number in brackets at the front, and what follows them.
fn bracketed_at(tokens: &[Token]) -> Option<(u32, &[Token])>
    ensures { option_map (λ found. (found.0, found.1.now)) result ≡ bracketed_at tokens.now }
{
    let rest = open_bracket_at(tokens)?;
    let (number, rest) = number_at(rest)?;
    let rest = close_bracket_at(rest)?;
    Some((number, rest))
}

/// The bytes of a packet after their `[x`, and what follows.
fn indirect_at(tokens: &[Token]) -> Option<(Operand, &[Token])>
    ensures { option_map (λ found. (found.0, found.1.now)) result ≡ indirect_at tokens.now }
{
    let rest = plus_at(tokens)?;
    let (offset, rest) = number_at(rest)?;
    let rest = close_bracket_at(rest)?;
    Some((Operand::PacketAtIndex(offset), rest))
}

/// The bytes of a packet after their `[`, and what follows.
fn packet_at(tokens: &[Token]) -> Option<(Operand, &[Token])>
    ensures { option_map (λ found. (found.0, found.1.now)) result ≡ packet_at tokens.now }
{
    match next(tokens) {
        Some((Token::Index, rest)) => indirect_at(rest),
        Some((Token::Number(offset), rest)) => {
            let rest = close_bracket_at(rest)?;
            Some((Operand::Packet(offset), rest))
        }
        _ => None,
    }
}

/// The cell of the scratch memory after its `M`, and what follows.
fn cell_at(tokens: &[Token]) -> Option<(Operand, &[Token])>
    ensures { option_map (λ found. (found.0, found.1.now)) result ≡ cell_at tokens.now }
{
    let (cell, rest) = bracketed_at(tokens)?;
    Some((Operand::Cell(cell), rest))
}

/// The literal after its `#`, and what follows.
fn literal_at(tokens: &[Token]) -> Option<(Operand, &[Token])>
    ensures { option_map (λ found. (found.0, found.1.now)) result ≡ literal_at tokens.now }
{
    match next(tokens) {
        Some((Token::Number(number), rest)) => Some((Operand::Literal(number), rest)),
        Some((Token::Length, rest)) => Some((Operand::Length, rest)),
        _ => None,
    }
}

/// What follows `&0xf)` at the front.
fn low_bits_at(tokens: &[Token]) -> Option<&[Token]>
    ensures { option_map (λ rest. rest.now) result ≡ low_bits_at tokens.now }
{
    let rest = and_at(tokens)?;
    let (mask, rest) = number_at(rest)?;
    if mask != 15 {
        return None;
    }
    close_at(rest)
}

/// The length of an IPv4 header after its `4`, and what follows: `*([14]&0xf)`.
fn header_length_at(tokens: &[Token]) -> Option<(Operand, &[Token])>
    ensures { option_map (λ found. (found.0, found.1.now)) result ≡ header_length_at tokens.now }
{
    let rest = times_at(tokens)?;
    let rest = open_at(rest)?;
    let (offset, rest) = bracketed_at(rest)?;
    let rest = low_bits_at(rest)?;
    Some((Operand::HeaderLength(offset), rest))
}

/// The operand at the front of the tokens, and what follows it. None is an operand too.
pub(crate) fn operand_at(tokens: &[Token]) -> Option<(Operand, &[Token])>
    ensures { option_map (λ found. (found.0, found.1.now)) result ≡ operand_at tokens.now }
{
    match next(tokens) {
        None => Some((Operand::Nothing, tokens)),
        Some((Token::Index, rest)) => Some((Operand::Index, rest)),
        Some((Token::Accumulator, rest)) => Some((Operand::Accumulator, rest)),
        Some((Token::Length, rest)) => Some((Operand::Length, rest)),
        Some((Token::Hash, rest)) => literal_at(rest),
        Some((Token::OpenBracket, rest)) => packet_at(rest),
        Some((Token::Memory, rest)) => cell_at(rest),
        Some((Token::Number(4), rest)) => header_length_at(rest),
        _ => None,
    }
}
