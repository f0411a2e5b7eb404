//! What helps at a comparison where a value follows by itself, as `port > 1024` or `host != 10.0.0.1`.

use crate::addresses::is_dotted;
use crate::advice::{Advice, Found};
use crate::choice::{PORT, PORTRANGE};
use crate::instead::{Instead, advise_instead};
use crate::terms::{after_joint, is_of_comparison};
use filter_spots::{
    HOST, PROTO, Spot, after_blanks, first_word, port_of, ports_of, without_blanks,
};
use std::alloc::Global;

/// Words that a value follows.
static BEFORE_VALUES: [&[u8]; 7] = [PORT, PORTRANGE, HOST, b"net", PROTO, b"src", b"dst"];

/// Words of a test before its value.
static OF_TESTS: [&[u8]; 14] = [
    b"ether", b"ip", b"arp", b"rarp", b"tcp", b"udp", b"icmp", b"sctp", HOST, b"net", PORT, PROTO,
    b"src", b"dst",
];

/// Protocols that a packet may lack.
static LAYERS: [&[u8]; 7] = [b"ip", b"arp", b"rarp", b"tcp", b"udp", b"icmp", b"sctp"];

/// Words that compare, and the sign for each.
static WORDS: [(&[u8], &[u8]); 8] = [
    (b"eq", b"="),
    (b"ne", b"!="),
    (b"neq", b"!="),
    (b"not", b"!="),
    (b"gt", b">"),
    (b"lt", b"<"),
    (b"ge", b">="),
    (b"le", b"<="),
];

/// What is said of several values that a test is not to have.
pub(crate) const NEITHER: &str =
    "for none of several write `not` before them all, as in `ip and not port (80 or 443)`";

/// What is said of a sign that asks for another value, where no words can stand for it.
const NOT_BEFORE: &str =
    "for another value write `not` before the test, and no sign: `not port 80`";

/// A sign or a word that compares, the value after it, and how many bytes both have.
#[derive(Clone, Copy)]
struct Compared<'a> {
    sign: &'a [u8],
    value: &'a [u8],
    len: usize,
}

/// The sign that a word stands for; none if it does not compare.
fn sign_of(word: &[u8]) -> &'static [u8] {
    match WORDS.iter().find(|one| one.0 == word) {
        Some(one) => one.1,
        None => b"",
    }
}

/// Whether a byte ends a value.
fn ends_value(byte: &u8) -> bool {
    matches!(
        *byte,
        b' ' | b'\t' | b'\r' | b'\n' | b'(' | b')' | b'&' | b'|'
    )
}

/// The comparison at the front of a text.
fn compared_at(text: &[u8]) -> Option<Compared<'_>> {
    let word = first_word(text);
    let end = if word.is_empty() {
        text.iter().position(|byte| !is_of_comparison(byte))?
    } else {
        word.len()
    };
    let sign = if word.is_empty() {
        text.get(..end)?
    } else {
        sign_of(word)
    };
    let rest = after_blanks(text.get(end..)?);
    let len = rest.iter().position(ends_value).unwrap_or(rest.len());
    Some(Compared {
        sign,
        value: rest.get(..len)?,
        len: text.len().saturating_sub(rest.len()).saturating_add(len),
    })
}

/// Where the test begins whose last word is before a place.
fn start_of_test(spot: Spot<'_>) -> usize {
    let mut start = spot.start_of_last();
    for _ in 0..3 {
        let first = spot.at(start);
        if OF_TESTS.contains(&first.last()) {
            start = first.start_of_last();
        }
    }
    start
}

/// What helps at what compares after a word that a value follows by itself: the value without a
/// sign, after a `not`, or the ports that are meant.
pub(crate) fn of_compared<'a>(alloc: Global, spot: Spot<'a>) -> Found<'a> {
    let Some(compared) = compared_at(spot.rest()) else {
        return Ok(None);
    };
    let is_other = compared.sign == b"!=".as_slice() || compared.sign == b"!".as_slice();
    if !BEFORE_VALUES.contains(&spot.last()) {
        return of_protocol(alloc, spot, compared);
    }
    if is_other {
        let found = of_other_value(alloc, spot, compared)?;
        return Ok(Some(found.unwrap_or(Advice::Said(NOT_BEFORE))));
    }
    if compared.value.is_empty() {
        return Ok(None);
    }
    let place = spot.before().len();
    let end = place.saturating_add(compared.len);
    let last = spot.start_of_last();
    match compared.sign {
        b"=" | b"==" => {
            let instead = Instead::Valued("", spot.last(), compared.value);
            advise_instead(alloc, spot, last, end, instead)
        }
        _ => of_ports(alloc, spot, compared),
    }
}

/// Whether a text begins with one more value, that `and` or `or` joins to one before it.
pub(crate) fn joins_value(text: &[u8]) -> bool {
    let Some(after) = after_joint(text) else {
        return false;
    };
    let rest = after_blanks(after);
    let value = first_word(rest);
    let next = after_blanks(rest.get(value.len()..).unwrap_or(&[]));
    let ends_term = match next.first() {
        Some(byte) => byte.is_ascii_alphabetic() || ends_value(byte),
        None => true,
    };
    ends_term && value.first().is_some_and(|first| first.is_ascii_digit())
}

/// What helps at a sign that asks for another value: a `not` before the test, or between a protocol
/// and its test.
fn of_other_value<'a>(alloc: Global, spot: Spot<'a>, compared: Compared<'a>) -> Found<'a> {
    let place = spot.before().len();
    let end = place.saturating_add(compared.len);
    if compared.value.is_empty() || joins_value(spot.at(end).rest()) {
        return Ok(Some(Advice::Said(NEITHER)));
    }
    let start = start_of_test(spot);
    let test = without_blanks(spot.between(start, place));
    let layer = first_word(test);
    let instead = if LAYERS.contains(&layer) {
        let test = after_blanks(test.strip_prefix(layer).unwrap_or(test));
        Instead::Not(layer, test, compared.value, spot.at(start).joins_tests())
    } else {
        Instead::Valued("not ", test, compared.value)
    };
    advise_instead(alloc, spot, start, end, instead)
}

/// What helps at a `=` after a protocol: the word that an address or a port follows.
fn of_protocol<'a>(alloc: Global, spot: Spot<'a>, compared: Compared<'a>) -> Found<'a> {
    let test: &'static [u8] = match spot.last() {
        b"ip" if is_dotted(compared.value) => b"ip host",
        b"tcp" if port_of(compared.value).is_some() => b"tcp port",
        b"udp" if port_of(compared.value).is_some() => b"udp port",
        _ => return Ok(None),
    };
    if compared.sign != b"=".as_slice() && compared.sign != b"==".as_slice() {
        return Ok(None);
    }
    let end = spot.before().len().saturating_add(compared.len);
    let instead = Instead::Valued("", test, compared.value);
    advise_instead(alloc, spot, spot.start_of_last(), end, instead)
}

/// The ports that a comparison means, the first and the last.
fn ports_at(compared: Compared<'_>) -> Option<(u16, u16)> {
    ports_of(compared.sign, port_of(compared.value)?)
}

/// A text without an `and` at its front.
fn after_and(text: &[u8]) -> Option<&[u8]> {
    let text = after_blanks(text);
    match text.strip_prefix(b"&&") {
        Some(rest) => Some(rest),
        None if first_word(text) == b"and".as_slice() => text.get(3..),
        None => None,
    }
}

/// The comparison that an `and` joins at the front of a text to one of the same test: with the words
/// of this again, with `port` alone, or without; and where the text goes on.
fn joined_at<'a>(text: &'a [u8], test: &[u8]) -> Option<(Compared<'a>, usize)> {
    let rest = after_blanks(after_and(text)?);
    let bare = rest
        .strip_prefix(test)
        .or_else(|| rest.strip_prefix(PORT))
        .unwrap_or(rest);
    let rest = after_blanks(bare);
    let compared = compared_at(rest)?;
    let left = rest.len().saturating_sub(compared.len);
    Some((compared, text.len().saturating_sub(left)))
}

/// Whether a `not` or a `!` is right before a place.
fn is_after_not(spot: Spot<'_>) -> bool {
    spot.last() == b"not".as_slice() || without_blanks(spot.before()).ends_with(b"!")
}

/// The ports of a comparison and of one of the same test that `and` joins to it, and where the
/// text goes on after that. A `not` before the first is not one before both.
fn ports_of_both(spot: Spot<'_>, ports: (u16, u16), end: usize) -> Option<(u16, u16, usize)> {
    let start = start_of_test(spot);
    if is_after_not(spot.at(start)) {
        return None;
    }
    let test = spot.between(start, spot.before().len());
    let (second, len) = joined_at(spot.at(end).rest(), without_blanks(test))?;
    let other = ports_at(second)?;
    let (first, last) = (ports.0.max(other.0), ports.1.min(other.1));
    if first > last {
        None
    } else {
        Some((first, last, end.saturating_add(len)))
    }
}

/// What helps at the sign of a comparison after `port`: the ports that it means, alone or with the
/// one that `and` joins to it.
fn of_ports<'a>(alloc: Global, spot: Spot<'a>, compared: Compared<'a>) -> Found<'a> {
    let ports = match ports_at(compared) {
        Some(ports) if spot.last() == PORT => ports,
        _ => return Ok(None),
    };
    let end = spot.before().len().saturating_add(compared.len);
    let (first, last, end) = match ports_of_both(spot, ports, end) {
        Some(both) => both,
        None => (ports.0, ports.1, end),
    };
    advise_instead(
        alloc,
        spot,
        spot.start_of_last(),
        end,
        Instead::Ports(first, last),
    )
}
