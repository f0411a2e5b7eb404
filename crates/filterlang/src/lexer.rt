//! The tokens of a text.

ghost use Rattle.std.specs.Prelude.{◌≡◌, ◌≤◌, ◌<◌, ◌+◌, ◌-◌, ◌^◌, ◌↔◌, ◌⊎◌, option_map, ℕ, List, length, IfOk, IfErr, IsOkUnless, IsErrOf};
ghost use Rattle.filterlang.specs.declared.token.Token.{Token};
ghost use Rattle.filterlang.specs.declared.fault.Fault.TheVariants as Fault;
ghost use Rattle.filterlang.specs.declared.lexer.Cause.{Cause};
ghost use Rattle.filterlang.specs.declared.lexer.TheConstants.{MAX_TEXT};
ghost use Rattle.filterlang.specs.Words.{names, whole_word};
ghost use Rattle.filterlang.specs.Tokens.{is_blank, token_at, front, fault_at, Lexes, Stuck, AreInOrder, IsFaultOf};
ghost use Rattle.filterlang.specs.Finding.{IsWithin};

mod numbers;
mod words;

use crate::fault::Fault;
use crate::lexer::numbers::{ethernet_at, number_or_dotted_at};
use crate::lexer::words::{name_at, sign_at, word_at};
use crate::token::{Kind, Span, Token};
use std::alloc::Global;

/// The most bytes that a text may have.
pub const MAX_TEXT: usize = 8192;

// Clauses and definitions name the constant: it is this number.
const _: () = prove!(MAX_TEXT == 8192);

/// Why no token begins at a place of a text.
#[derive(Clone, Copy, Debug, PartialEq, Eq)]
pub enum Cause {
    BadByte,
    BadWord,
    BadNumber,
}

/// What a text begins with: nothing more, a blank, a token and its length in bytes, or no token.
#[derive(Clone, Copy)]
pub(crate) enum Front {
    End,
    Blank,
    Token(Kind, usize),
    Stuck(Cause),
}

/// The fault with this cause at this byte.
fn fault_at(cause: Cause, place: usize) -> Fault
    ensures { result ≡ fault_at cause place }
{
    match cause {
        Cause::BadByte => Fault::BadByte(place),
        Cause::BadWord => Fault::BadWord(place),
        Cause::BadNumber => Fault::BadNumber(place),
    }
}

/// Whether a byte separates tokens.
fn is_blank(byte: u8) -> bool
    ensures { result ≡ is_blank byte }
{
    byte == b' ' || byte == b'\t' || byte == b'\r' || byte == b'\n'
}

/// The name after a backslash, and how many bytes the two have.
fn behind_backslash(text: &[u8]) -> Option<(Kind, usize)>
    requires { length text.now < 2 ^ 64 - 1 }
    ensures { result ≡ option_map (λ name. (name.0, name.1 + 1)) (whole_word names text.now) }
{
    let (kind, length) = name_at(text)?;
    Some((kind, length + 1))
}

/// The token at the front of a text that begins with no blank, and how many bytes it has.
#[tactic(auto, unfolding(crate::specs::Tokens::token_at))]
fn token_at(text: &[u8]) -> Result<(Kind, usize), Cause>
    ensures { result ≡ token_at text.now }
{
    if let Some(token) = ethernet_at(text) {
        return Ok(token);
    }
    let [byte, rest @ ..] = text else {
        return Err(Cause::BadByte);
    };
    if byte.is_ascii_digit() {
        number_or_dotted_at(text).ok_or(Cause::BadNumber)
    } else if byte.is_ascii_alphabetic() {
        word_at(text).ok_or(Cause::BadWord)
    } else if *byte == b'\\' {
        behind_backslash(rest).ok_or(Cause::BadWord)
    } else {
        sign_at(text).ok_or(Cause::BadByte)
    }
}

/// What a text begins with.
#[tactic(auto, unfolding(crate::specs::Tokens::front))]
fn at_front(text: &[u8]) -> Front
    ensures value { result ≡ front text.now }
    ensures within { IsWithin result (length text.now) }
{
    let Some(byte) = text.first() else {
        return Front::End;
    };
    if is_blank(*byte) {
        return Front::Blank;
    }
    match token_at(text) {
        Ok((kind, length)) => Front::Token(kind, length),
        Err(cause) => Front::Stuck(cause),
    }
}

/// The tokens of a text that is not too long.
fn tokens_of(alloc: Global, text: &[u8]) -> Result<Vec<Token>, Fault>
    requires { length text.now ≤ MAX_TEXT }
    ensures tokens { IfOk result (λ found. Lexes text.now 0 found.items) }
    ensures fault { IfErr result (IsFaultOf text.now) }
{
    let mut tokens = Vec::new(alloc);
    let mut place = 0;
    'places: loop {
        match at_front(&text[place..]) {
            Front::End => return Ok(tokens),
            Front::Blank => place += 1,
            Front::Token(kind, length) => {
                let end = place + length;
                let span = Span { start: place, end };
                tokens.push(Token { kind, span })?;
                place = end;
            }
            Front::Stuck(cause) => return Err(fault_at(cause, place)),
        }
    }
}

/// The tokens of a filter expression, as pcap-filter(7) spells words, numbers and addresses, in the
/// profile of this project: what each token is, with its span in bytes. The spans are in order.
///
/// `TextTooLong` comes if and only if the text has more than 8,192 bytes. In any other text the
/// first place where no token begins, if there is one, is named with its cause: `BadByte`,
/// `BadWord` or `BadNumber`. `NoMemory` can come instead. Else the result is the text's one list of
/// tokens.
pub fn lex(alloc: Global, text: &str) -> Result<Vec<Token>, Fault>
    // The tokens are the text's, and no others are.
    ensures tokens { IfOk result (λ found. Lexes text.now 0 found.items) }
    ensures only { IfOk result (λ found. (others : List Token) → Lexes text.now 0 others → others ≡ found.items) }
    ensures in_order { IfOk result (λ found. AreInOrder 0 (length text.now) found.items) }

    // A fault says what is wrong with the text, and what is wrong is said, unless memory was
    // refused.
    ensures fault { IfErr result (IsFaultOf text.now) }
    ensures too_long { IsErrOf result Fault.TextTooLong ↔ (8192 < length text.now) }
    ensures lexed { (tokens : List Token) → length text.now ≤ MAX_TEXT → Lexes text.now 0 tokens →
        IsOkUnless result Fault.NoMemory }
    ensures named { (cause : Cause) (place : ℕ) → length text.now ≤ MAX_TEXT → Stuck text.now 0 cause place →
        IsErrOf result (fault_at cause place) ⊎ IsErrOf result Fault.NoMemory }
{
    if text.len() > MAX_TEXT {
        return Err(Fault::TextTooLong);
    }
    tokens_of(alloc, text.as_bytes())
}
