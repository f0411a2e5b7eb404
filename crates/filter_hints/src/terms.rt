//! The terms of an expression, as a text has them between `and`, `or` and parentheses.

use filter_spots::{after_blanks, first_word, last_word, without_blanks};

/// A word that turns the answer of a term.
const NOT: &[u8] = b"not";

/// Words that join two terms.
static JOINING_WORDS: [&[u8]; 2] = [b"and", b"or"];

/// Signs that join two terms.
static JOINING_SIGNS: [&[u8]; 2] = [b"&&", b"||"];

/// What comes right before a term.
static BEFORE_TERMS: [&[u8]; 5] = [b" and ", b" or ", b"&&", b"||", b"("];

/// Whether a byte is one of a sign that compares.
pub(crate) fn is_of_comparison(byte: &u8) -> bool {
    matches!(*byte, b'<' | b'>' | b'=' | b'!')
}

/// A text without what joins it to a next term; nothing if nothing does.
pub(crate) fn without_joint(text: &[u8]) -> Option<&[u8]> {
    let text = without_blanks(text);
    let word = last_word(text);
    if JOINING_WORDS.contains(&word) {
        return text.strip_suffix(word);
    }
    for sign in JOINING_SIGNS.iter() {
        if let Some(before) = text.strip_suffix(*sign) {
            return Some(before);
        }
    }
    None
}

/// A text without what joins it to a term before it; nothing if nothing does.
pub(crate) fn after_joint(text: &[u8]) -> Option<&[u8]> {
    let text = after_blanks(text);
    let word = first_word(text);
    if JOINING_WORDS.contains(&word) {
        return text.strip_prefix(word);
    }
    for sign in JOINING_SIGNS.iter() {
        if let Some(after) = text.strip_prefix(*sign) {
            return Some(after);
        }
    }
    None
}

/// How many bytes at the front of a text come before a term there; nothing if no term begins after
/// them.
fn joint_len(text: &[u8]) -> Option<usize> {
    let joint = BEFORE_TERMS.iter().find(|joint| text.starts_with(**joint))?;
    Some(joint.len())
}

/// Whether a text closes only parentheses that it opens.
fn is_within_parentheses(text: &[u8]) -> bool {
    let mut depth: usize = 0;
    for byte in text {
        if *byte == b'(' {
            depth = depth.saturating_add(1);
        } else if *byte == b')' {
            let Some(less) = depth.checked_sub(1) else {
                return false;
            };
            depth = less;
        }
    }
    true
}

/// The last term in a text, up to its end.
fn last_term(text: &[u8]) -> &[u8] {
    let mut term = text;
    for at in 0..text.len() {
        let rest = &text[at..];
        if let Some(len) = joint_len(rest) {
            let after = rest.get(len..).unwrap_or(&[]);
            if is_within_parentheses(after) {
                term = after;
            }
        }
    }
    term
}

/// A term without a `not` or a `!` at its front.
fn after_not(term: &[u8]) -> Option<&[u8]> {
    if first_word(term) == NOT {
        term.strip_prefix(NOT)
    } else {
        term.strip_prefix(b"!")
    }
}

/// The value at the end of a text, if its last term is one: without blanks around it, and without
/// what negates it.
pub(crate) fn last_value(text: &[u8]) -> &[u8] {
    let mut value = after_blanks(without_blanks(last_term(text)));
    for _ in 0..value.len() {
        match after_not(value) {
            Some(negated) => value = after_blanks(negated),
            None => return value,
        }
    }
    value
}

/// Whether a value is the same for each packet: it has no byte of one, and not its length.
pub(crate) fn is_constant(value: &[u8]) -> bool {
    !value.contains(&b'[') && !value.windows(3).any(|word| word == b"len".as_slice())
}

/// Whether a text is one term, or nothing, and no `not` comes before it.
pub(crate) fn is_alone(text: &[u8]) -> bool {
    last_term(text) == text && !is_negated(text)
}

/// Whether a `not` or a `!` comes before the last term of a text.
pub(crate) fn is_negated(text: &[u8]) -> bool {
    after_not(after_blanks(last_term(text))).is_some()
}

/// Whether a text has an `or`.
pub(crate) fn has_or(text: &[u8]) -> bool {
    text.windows(4).any(|part| part == b" or ".as_slice())
        || text.windows(2).any(|part| part == b"||".as_slice())
}

/// Whether what `and` joins to the end of a text would bind otherwise than its last term does, which
/// a `not` or an `or` comes before.
pub(crate) fn is_bound(text: &[u8]) -> bool {
    let term = last_term(text);
    let before = text.strip_suffix(term).unwrap_or(text);
    before.ends_with(b" or ") || before.ends_with(b"||") || is_negated(text)
}
