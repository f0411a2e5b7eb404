//! The words and signs of the language.

ghost use Rattle.std.specs.Prelude.{◌≡◌};
ghost use Rattle.bpf_asm.specs.Words.{keyword_of, label_of, sign_of};
ghost use Rattle.bpf_asm.specs.Answers.{first_of};

use crate::token::Name::{Calculate, JumpIf, JumpUnless};
use crate::token::{Label, MAX_LABEL, Name, Size, Token};
use bpfvm::code;

/// The words that are no labels: the names of instructions, and those of operands.
pub(crate) const KEYWORDS: [(&[u8], Token); 42] = [
    (b"ld", Token::Name(Name::Load(Size::Word))),
    (b"ldh", Token::Name(Name::Load(Size::Half))),
    (b"ldb", Token::Name(Name::Load(Size::Byte))),
    (b"ldi", Token::Name(Name::LoadImmediate)),
    (b"ldx", Token::Name(Name::LoadIndex)),
    (b"ldxi", Token::Name(Name::LoadIndexImmediate)),
    (b"ldxb", Token::Name(Name::LoadHeaderLength)),
    (b"st", Token::Name(Name::Store)),
    (b"stx", Token::Name(Name::StoreIndex)),
    (b"add", Token::Name(Calculate(code::ADD_K, code::ADD_X))),
    (b"sub", Token::Name(Calculate(code::SUB_K, code::SUB_X))),
    (b"mul", Token::Name(Calculate(code::MUL_K, code::MUL_X))),
    (b"div", Token::Name(Calculate(code::DIV_K, code::DIV_X))),
    (b"mod", Token::Name(Calculate(code::MOD_K, code::MOD_X))),
    (b"and", Token::Name(Calculate(code::AND_K, code::AND_X))),
    (b"or", Token::Name(Calculate(code::OR_K, code::OR_X))),
    (b"xor", Token::Name(Calculate(code::XOR_K, code::XOR_X))),
    (b"lsh", Token::Name(Calculate(code::LSH_K, code::LSH_X))),
    (b"rsh", Token::Name(Calculate(code::RSH_K, code::RSH_X))),
    (b"neg", Token::Name(Name::Negate)),
    (b"tax", Token::Name(Name::ToIndex)),
    (b"txa", Token::Name(Name::ToAccumulator)),
    (b"ret", Token::Name(Name::Return)),
    (b"ja", Token::Name(Name::Jump)),
    (b"jmp", Token::Name(Name::Jump)),
    (b"jeq", Token::Name(JumpIf(code::JEQ_K, code::JEQ_X))),
    (b"jgt", Token::Name(JumpIf(code::JGT_K, code::JGT_X))),
    (b"jge", Token::Name(JumpIf(code::JGE_K, code::JGE_X))),
    (b"jset", Token::Name(JumpIf(code::JSET_K, code::JSET_X))),
    (b"jne", Token::Name(JumpUnless(code::JEQ_K, code::JEQ_X))),
    (b"jneq", Token::Name(JumpUnless(code::JEQ_K, code::JEQ_X))),
    (b"jle", Token::Name(JumpUnless(code::JGT_K, code::JGT_X))),
    (b"jlt", Token::Name(JumpUnless(code::JGE_K, code::JGE_X))),
    (b"x", Token::Index),
    (b"%x", Token::Index),
    (b"a", Token::Accumulator),
    (b"%a", Token::Accumulator),
    (b"M", Token::Memory),
    (b"len", Token::Length),
    (b"pktlen", Token::Length),
    (b"jt", Token::WhereTrue),
    (b"jf", Token::WhereFalse),
];

/// The token of the first entry of a table that is spelled so.
fn find_word(table: &[(&[u8], Token)], word: &[u8]) -> Option<Token>
    ensures { result ≡ first_of word.now table.now }
{
    let (_, token) = table.iter().find(|entry| entry.0 == word)?;
    Some(*token)
}

/// The keyword that is spelled so.
pub(crate) fn keyword_of(word: &[u8]) -> Option<Token>
    ensures { result ≡ keyword_of word.now }
{
    find_word(KEYWORDS.as_slice(), word)
}

/// The label that is spelled so, if it is not too long.
pub(crate) fn label_of(word: &[u8]) -> Option<Label>
    ensures { result ≡ label_of word.now }
{
    if word.len() > MAX_LABEL {
        return None;
    }
    let mut bytes = [0; MAX_LABEL];
    bytes[..word.len()].copy_from_slice(word);
    Some(Label { bytes })
}

/// The sign that this byte is.
pub(crate) fn sign_of(byte: u8) -> Option<Token>
    ensures { result ≡ sign_of byte }
{
    match byte {
        b'#' => Some(Token::Hash),
        b'&' => Some(Token::And),
        b'(' => Some(Token::Open),
        b')' => Some(Token::Close),
        b'*' => Some(Token::Times),
        b'+' => Some(Token::Plus),
        b',' => Some(Token::Comma),
        b':' => Some(Token::Colon),
        b'[' => Some(Token::OpenBracket),
        b']' => Some(Token::CloseBracket),
        _ => None,
    }
}
