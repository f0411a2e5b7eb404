//! The words round a place in an expression.

use crate::suggestions::{Gap, is_no_blank};

/// The word that the address of a host follows.
pub const HOST: &[u8] = b"host";

/// Words that an address or a name of one follows.
static BEFORE_ADDRESSES: [&[u8]; 4] = [HOST, b"net", b"src", b"dst"];

/// Words that only a name or a number follows.
static BEFORE_NAMES: [&[u8]; 4] = [HOST, b"net", b"port", b"portrange"];

/// The word that the number or the name of a protocol follows.
pub const PROTO: &[u8] = b"proto";

/// What the text before a test ends with if one more test may be joined to it by `and`.
static BEFORE_TESTS: [&[u8]; 3] = [b"(", b"&&", b" and"];

/// The letters, digits and signs of names and addresses around a place: where they begin, and the
/// bytes.
#[derive(Clone, Copy)]
pub struct Run<'a> {
    pub start: usize,
    pub bytes: &'a [u8],
}

/// A place in an expression, or its end.
#[derive(Clone, Copy)]
pub struct Spot<'a> {
    text: &'a str,
    place: usize,
}

impl<'a> Spot<'a> {
    /// The place in a text; its end for a place past that.
    pub fn new(text: &'a str, place: usize) -> Spot<'a> {
        Spot {
            text,
            place: place.min(text.len()),
        }
    }

    /// Another place of the same text.
    pub fn at(&self, place: usize) -> Spot<'a> {
        Spot::new(self.text, place)
    }

    /// The letters, digits and signs of names and addresses around the place; none if none is
    /// there.
    pub fn run(&self) -> Run<'a> {
        let rest = self.rest();
        let len = rest.iter().position(is_outside_runs).unwrap_or(rest.len());
        let start = match self.before().iter().rposition(is_outside_runs) {
            _ if len == 0 => self.place,
            Some(outside) => outside + 1,
            None => 0,
        };
        let end = self.place.saturating_add(len);
        let bytes = self.text.as_bytes().get(start..end).unwrap_or(&[]);
        Run { start, bytes }
    }

    /// The bytes from one place to another.
    pub fn between(&self, start: usize, end: usize) -> &'a [u8] {
        self.text.as_bytes().get(start..end).unwrap_or(&[])
    }

    /// The text before the place.
    pub fn before(&self) -> &'a [u8] {
        let text = self.text.as_bytes();
        &text[..self.place.min(text.len())]
    }

    /// The text from the place on.
    pub fn rest(&self) -> &'a [u8] {
        let text = self.text.as_bytes();
        &text[self.place.min(text.len())..]
    }

    /// The word before the place, whatever blanks are between.
    pub fn last(&self) -> &'a [u8] {
        last_word(self.before())
    }

    /// The word before that one.
    pub fn second_last(&self) -> &'a [u8] {
        last_word(without_last_word(self.before()))
    }

    /// Whether a backslash is at the place.
    pub fn has_backslash(&self) -> bool {
        self.rest().starts_with(b"\\")
    }

    /// The word at the place, without a backslash before it.
    pub fn word(&self) -> &'a [u8] {
        let rest = self.rest();
        first_word(rest.strip_prefix(b"\\").unwrap_or(rest))
    }

    /// The word at the place, or the character there if no word begins.
    pub fn token(&self) -> &'a [u8] {
        let rest = self.rest();
        let word = first_word(rest);
        match rest.first() {
            Some(first) if word.is_empty() => rest.get(..width_of(*first)).unwrap_or(rest),
            _ => word,
        }
    }

    /// The text after the word at the place.
    pub fn after_word(&self) -> &'a [u8] {
        let rest = self.rest();
        rest.get(self.len_of_name()..).unwrap_or(&[])
    }

    /// Where the word at the place ends.
    pub fn end(&self) -> usize {
        self.place.saturating_add(self.len_of_name())
    }

    /// Whether the word at the place is the whole text but for blanks.
    pub fn is_whole_text(&self) -> bool {
        without_blanks(self.before()).is_empty() && after_blanks(self.after_word()).is_empty()
    }

    /// The bytes of a backslash at the place: one, or none.
    fn backslash_len(&self) -> usize {
        if self.has_backslash() { 1 } else { 0 }
    }

    /// The bytes of the word at the place and of a backslash before it.
    fn len_of_name(&self) -> usize {
        self.word().len().saturating_add(self.backslash_len())
    }

    /// Whether an address, or the name of a host or a net, goes here.
    pub fn takes_address(&self) -> bool {
        BEFORE_ADDRESSES.contains(&self.last())
    }

    /// Whether nothing but a name or a number goes here.
    pub fn takes_only_name(&self) -> bool {
        BEFORE_NAMES.contains(&self.last()) || self.last() == PROTO
    }

    /// Whether two tests that `and` joins mean the same at the place as they do in parentheses:
    /// nothing is before it, or what such tests follow.
    pub fn joins_tests(&self) -> bool {
        let before = without_blanks(self.before());
        before.is_empty() || BEFORE_TESTS.iter().any(|end| before.ends_with(*end))
    }

    /// Where the word before the place begins.
    pub fn start_of_last(&self) -> usize {
        let before = without_blanks(self.before());
        before.len().saturating_sub(self.last().len())
    }

    /// The text with a gap for these bytes.
    pub fn without(&self, start: usize, len: usize) -> Option<Gap<'a>> {
        Gap::new(self.text, start, len)
    }

    /// The text with a gap for the word at the place, and for a backslash before it.
    pub fn without_name(&self) -> Option<Gap<'a>> {
        Gap::new(self.text, self.place, self.len_of_name())
    }

    /// The text with a gap for the word at the place: a backslash stays.
    pub fn without_word(&self) -> Option<Gap<'a>> {
        let start = self.place.saturating_add(self.backslash_len());
        Gap::new(self.text, start, self.word().len())
    }

    /// The text with a gap before the word at the place.
    pub fn before_word(&self) -> Option<Gap<'a>> {
        Gap::new(self.text, self.place, 0)
    }
}

/// Whether a byte belongs to no word and no name, as a reader takes it.
fn is_outside_words(byte: &u8) -> bool {
    !byte.is_ascii_alphanumeric() && *byte != b'.' && *byte != b'-' && *byte != b'_'
}

/// Whether a byte belongs to no word, name or address.
fn is_outside_runs(byte: &u8) -> bool {
    is_outside_words(byte) && *byte != b':'
}

/// The word or the name at the front of a text.
pub fn first_word(text: &[u8]) -> &[u8] {
    let end = text.iter().position(is_outside_words).unwrap_or(text.len());
    &text[..end]
}

/// The word or the name at the end of a text, the blanks after it left out.
pub fn last_word(text: &[u8]) -> &[u8] {
    let text = without_blanks(text);
    let start = match text.iter().rposition(is_outside_words) {
        Some(before) => before + 1,
        None => 0,
    };
    &text[start..]
}

/// A text without the word or the name at its end, nor the blanks after that.
pub fn without_last_word(text: &[u8]) -> &[u8] {
    let text = without_blanks(text);
    text.strip_suffix(last_word(text)).unwrap_or(text)
}

/// A text without the blanks at its end.
pub fn without_blanks(text: &[u8]) -> &[u8] {
    match text.iter().rposition(is_no_blank) {
        Some(last) => &text[..last + 1],
        None => &[],
    }
}

/// A text without the blanks at its front.
pub fn after_blanks(text: &[u8]) -> &[u8] {
    let start = text.iter().position(is_no_blank).unwrap_or(text.len());
    &text[start..]
}

/// How many bytes of UTF-8 the character has that begins with this one; 1 if none does.
fn width_of(first: u8) -> usize {
    match first {
        0xc2..=0xdf => 2,
        0xe0..=0xef => 3,
        0xf0..=0xf7 => 4,
        _ => 1,
    }
}
