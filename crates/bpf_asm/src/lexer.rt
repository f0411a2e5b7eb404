//! The tokens of a line.

ghost use Rattle.std.specs.Prelude.{◌≡◌, ◌<◌, ◌≤◌, ◌^◌, IfSome, length};
ghost use Rattle.std.specs.Char.{is_ascii_digit};
ghost use Rattle.std.specs.List.{prefix_len};
ghost use Rattle.bpf_asm.specs.Tokens.{is_blank, is_word_byte, word_of, past_close, comment_at, run_at, place_at, sign_at, front, lexed};
ghost use Rattle.bpf_asm.specs.Assembly.{at_line};
ghost use Rattle.bpf_asm.specs.Answers.{Agrees, IsWithin};

mod numbers;
mod words;

use crate::fault::{AssemblyFault, Cause};
use crate::lexer::numbers::{decimal_of, number_of};
use crate::lexer::words::{keyword_of, label_of, sign_of};
use crate::token::Token;
use std::alloc::Global;

/// The front of a text: its end, this many blanks, a token of this many bytes, or what is none.
#[derive(Clone, Copy)]
pub(crate) enum Front {
    End,
    Blank(usize),
    Token(Token, usize),
    Stuck(Cause),
}

/// Whether a byte separates tokens.
fn is_blank(byte: u8) -> bool
    ensures { result ≡ is_blank byte }
{
    byte == b' ' || byte == b'\t' || byte == b'\r'
}

/// Whether words and numbers are made of this byte.
fn is_word_byte(byte: u8) -> bool
    ensures { result ≡ is_word_byte byte }
{
    byte.is_ascii_alphanumeric() || byte == b'_' || byte == b'%' || byte == b'-'
}

/// The word, number or label that these bytes are.
fn word_of(run: &[u8]) -> Result<Token, Cause>
    ensures { result ≡ word_of run.now }
{
    if let Some(token) = keyword_of(run) {
        Ok(token)
    } else if run
        .first()
        .is_some_and(|byte| byte.is_ascii_digit() || *byte == b'-')
    {
        number_of(run).map(Token::Number).ok_or(Cause::BadNumber)
    } else {
        label_of(run).map(Token::Label).ok_or(Cause::LongLabel)
    }
}

/// How many bytes at the front of the text are those of a word.
fn run_length(text: &[u8]) -> usize
    ensures value { result ≡ prefix_len is_word_byte text.now }
    ensures within { result ≤ length text.now }
{
    text.iter().take_while(|byte| is_word_byte(**byte)).count()
}

/// How many bytes at the front of the text lead past the first `*/`.
fn past_close(text: &[u8]) -> Option<usize>
    ensures value { result ≡ past_close text.now }
    ensures within { IfSome result (λ n. n ≤ length text.now) }
{
    for place in 0..text.len() {
        if text[place..].starts_with(b"*/") {
            return Some(place + 2);
        }
    }
    None
}

/// The comment whose `/*` is at the front of a text.
fn comment_at(text: &[u8]) -> Front
    requires { 2 ≤ length text.now }
    ensures value { result ≡ comment_at text.now }
    ensures within { IsWithin result (length text.now) }
{
    match past_close(&text[2..]) {
        Some(length) => Front::Blank(length + 2),
        None => Front::Stuck(Cause::BadByte),
    }
}

/// The word, number or label at the front of a text, which begins with a byte of one.
fn run_at(text: &[u8]) -> Front
    requires { 0 < prefix_len is_word_byte text.now }
    ensures value { result ≡ run_at text.now }
    ensures within { IsWithin result (length text.now) }
{
    let length = run_length(text);
    match word_of(&text[..length]) {
        Ok(token) => Front::Token(token, length),
        Err(cause) => Front::Stuck(cause),
    }
}

/// How many bytes at the front of the text are digits.
fn digit_count(text: &[u8]) -> usize
    ensures value { result ≡ prefix_len is_ascii_digit text.now }
    ensures within { result ≤ length text.now }
{
    text.iter().take_while(|byte| byte.is_ascii_digit()).count()
}

/// The place of an instruction, whose `(` is at the front of a text.
fn place_at(text: &[u8]) -> Front
    requires { 1 ≤ length text.now }
    ensures value { result ≡ place_at text.now }
    ensures within { IsWithin result (length text.now) }
{
    let digits = &text[1..];
    let count = digit_count(digits);
    match decimal_of(&digits[..count]) {
        Some(place) => Front::Token(Token::Place(place), count + 1),
        None => Front::Stuck(Cause::BadNumber),
    }
}

/// The sign that this byte is.
fn sign_at(byte: u8) -> Front
    ensures value { result ≡ sign_at byte }
    ensures within { IsWithin result 1 }
{
    match sign_of(byte) {
        Some(token) => Front::Token(token, 1),
        None => Front::Stuck(Cause::BadByte),
    }
}

/// What is at the front of a text.
#[tactic(auto, unfolding(crate::specs::Tokens::front))]
fn at_front(text: &[u8]) -> Front
    ensures value { result ≡ front text.now }
    ensures within { IsWithin result (length text.now) }
{
    let [byte, rest @ ..] = text else {
        return Front::End;
    };
    if *byte == b';' {
        Front::End
    } else if is_blank(*byte) {
        Front::Blank(1)
    } else if text.starts_with(b"/*") {
        comment_at(text)
    } else if is_word_byte(*byte) {
        run_at(text)
    } else if *byte == b'(' && rest.first().is_some_and(u8::is_ascii_digit) {
        place_at(text)
    } else {
        sign_at(*byte)
    }
}

/// The tokens of a line, which has this number.
pub(crate) fn tokens_of(
    alloc: Global,
    line: &[u8],
    number: usize,
) -> Result<Vec<Token>, AssemblyFault>
    ensures { Agrees (λ tokens. tokens.items) result (at_line number (lexed 0 line.now)) }
{
    let mut tokens = Vec::new(alloc);
    let mut place = 0;
    'places: loop {
        match at_front(&line[place..]) {
            Front::End => return Ok(tokens),
            Front::Blank(length) => place += length,
            Front::Token(token, length) => {
                tokens.push(token)?;
                place += length;
            }
            Front::Stuck(cause) => return Err(AssemblyFault::Line(number, cause)),
        }
    }
}
