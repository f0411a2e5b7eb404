//! What helps at the name of a flag of TCP or of a type of ICMP, and at a field after its layer.

use crate::advice::{Advice, Found};
use crate::instead::{Instead, advise_instead};
use crate::other_words::of_written;
use crate::terms::{after_joint, is_of_comparison, without_joint};
use filter_spots::{Run, Spot, after_blanks, first_word, without_blanks};
use std::alloc::Global;

/// What is said of flags that are written otherwise.
const FLAGS_FORM: &str =
    "flags of TCP are bits, as in `tcp[tcpflags] & (tcp-syn|tcp-ack) != 0`: one of the two is set";

/// What is said of flags that `and` or `or` joins.
pub(crate) const JOINED_FLAGS: &str =
    "write flags as one number: `tcp[tcpflags] & (tcp-syn|tcp-ack) != 0` if one of them is set, with `= tcp-syn|tcp-ack` for `!= 0` if both are";

/// What is said of a value after `and` or `or`, before which a field is compared with another.
pub(crate) const COMPARED_AGAIN: &str =
    "compare again after `and` and `or`, as in `tcp[tcpflags] = tcp-syn or tcp[tcpflags] = tcp-ack`";

/// The layer of the flags.
const TCP: &[u8] = b"tcp";

/// Words for a flag of TCP, what asks for it, and its name as a value.
struct Flag {
    words: &'static [&'static [u8]],
    asked: &'static str,
    value: &'static str,
}

static FLAGS: [Flag; 6] = [
    Flag {
        words: &[b"syn"],
        asked: "tcp[tcpflags] & tcp-syn != 0",
        value: "tcp-syn",
    },
    Flag {
        words: &[b"ack"],
        asked: "tcp[tcpflags] & tcp-ack != 0",
        value: "tcp-ack",
    },
    Flag {
        words: &[b"fin"],
        asked: "tcp[tcpflags] & tcp-fin != 0",
        value: "tcp-fin",
    },
    Flag {
        words: &[b"rst", b"reset"],
        asked: "tcp[tcpflags] & tcp-rst != 0",
        value: "tcp-rst",
    },
    Flag {
        words: &[b"psh", b"push"],
        asked: "tcp[tcpflags] & tcp-push != 0",
        value: "tcp-push",
    },
    Flag {
        words: &[b"urg"],
        asked: "tcp[tcpflags] & tcp-urg != 0",
        value: "tcp-urg",
    },
];

/// Words for a kind of packet of a layer, what asks for it, and whether they mean it without the
/// layer before them.
struct Kind {
    layer: &'static [u8],
    words: &'static [&'static [u8]],
    asked: &'static str,
    is_alone: bool,
}

static KINDS: [Kind; 7] = [
    Kind {
        layer: b"icmp",
        words: &[b"echo", b"echo-request", b"ping"],
        asked: "icmp[icmptype] = icmp-echo",
        is_alone: true,
    },
    Kind {
        layer: b"icmp",
        words: &[b"echoreply", b"echo-reply", b"pong"],
        asked: "icmp[icmptype] = icmp-echoreply",
        is_alone: true,
    },
    Kind {
        layer: b"icmp",
        words: &[b"unreach", b"unreachable"],
        asked: "icmp[icmptype] = icmp-unreach",
        is_alone: true,
    },
    Kind {
        layer: b"icmp",
        words: &[b"request"],
        asked: "icmp[icmptype] = icmp-echo",
        is_alone: false,
    },
    Kind {
        layer: b"icmp",
        words: &[b"reply"],
        asked: "icmp[icmptype] = icmp-echoreply",
        is_alone: false,
    },
    Kind {
        layer: b"arp",
        words: &[b"request"],
        asked: "arp[6:2] = 1",
        is_alone: false,
    },
    Kind {
        layer: b"arp",
        words: &[b"reply"],
        asked: "arp[6:2] = 2",
        is_alone: false,
    },
];

/// A field after its layer, and what is written for both: if a comparison follows, and if a number
/// does.
struct LayerField {
    layer: &'static [u8],
    word: &'static [u8],
    written: &'static str,
    compared: &'static str,
}

static LAYER_FIELDS: [LayerField; 8] = [
    LayerField {
        layer: b"ether",
        word: b"type",
        written: "ether[12:2]",
        compared: "ether proto",
    },
    LayerField {
        layer: b"icmp",
        word: b"type",
        written: "icmp[icmptype]",
        compared: "icmp[icmptype] =",
    },
    LayerField {
        layer: b"icmp",
        word: b"code",
        written: "icmp[icmpcode]",
        compared: "icmp[icmpcode] =",
    },
    LayerField {
        layer: b"ip",
        word: b"ttl",
        written: "ip[8]",
        compared: "ip[8] =",
    },
    LayerField {
        layer: b"ip",
        word: b"tos",
        written: "ip[1]",
        compared: "ip[1] =",
    },
    LayerField {
        layer: b"ip",
        word: b"id",
        written: "ip[4:2]",
        compared: "ip[4:2] =",
    },
    LayerField {
        layer: TCP,
        word: b"flags",
        written: "tcp[tcpflags]",
        compared: "tcp[tcpflags] =",
    },
    LayerField {
        layer: b"arp",
        word: b"opcode",
        written: "arp[6:2]",
        compared: "arp[6:2] =",
    },
];

/// What the language has for a word in the brackets of a layer, or for the field of a display
/// filter there.
struct Index {
    before: &'static [u8],
    word: &'static [u8],
    field: &'static [u8],
    written: &'static str,
}

static INDEXES: [Index; 6] = [
    Index {
        before: b"ip[",
        word: b"ttl",
        field: b"ip.ttl",
        written: "8",
    },
    Index {
        before: b"ip[",
        word: b"id",
        field: b"ip.id",
        written: "4:2",
    },
    Index {
        before: b"udp[",
        word: b"length",
        field: b"udp.length",
        written: "4:2",
    },
    Index {
        before: b"tcp[",
        word: b"flags",
        field: b"tcp.flags",
        written: "tcpflags",
    },
    Index {
        before: b"icmp[",
        word: b"type",
        field: b"icmp.type",
        written: "icmptype",
    },
    Index {
        before: b"icmp[",
        word: b"code",
        field: b"icmp.code",
        written: "icmpcode",
    },
];

/// The flag that a word names, in small letters or in capitals.
fn flag_named(word: &[u8]) -> Option<&'static Flag> {
    FLAGS.iter().find(|flag| flag
        .words
        .iter()
        .any(|name| name.eq_ignore_ascii_case(word)))
}

/// What a word names after a layer, or alone.
fn kind_named(word: &[u8], layer: &[u8]) -> Option<&'static Kind> {
    KINDS.iter().find(|kind| kind.words.contains(&word) && (kind.is_alone || kind.layer == layer))
}

/// What is said of an echo and a word after it.
const ECHOES: &str =
    "a ping is `icmp[icmptype] = icmp-echo`, and its answer `icmp[icmptype] = icmp-echoreply`";

/// Whether `echo` or `ping` is at a place, and `reply` or `request` after it.
fn is_echo_answer(spot: Spot<'_>) -> bool {
    let next = first_word(after_blanks(spot.after_word()));
    matches!(spot.word(), b"echo" | b"ping") && matches!(next, b"reply" | b"request")
}

/// What helps at the name of a flag of TCP, or of a kind of packet.
pub(crate) fn of_flag<'a>(alloc: Global, spot: Spot<'a>) -> Found<'a> {
    if spot.has_backslash() {
        return Ok(None);
    }
    if is_echo_answer(spot) {
        return Ok(Some(Advice::Said(ECHOES)));
    }
    if let Some(kind) = kind_named(spot.word(), spot.last()) {
        return of_named(alloc, spot, kind.layer, kind.asked);
    }
    let Some(flag) = flag_named(spot.word()) else {
        return Ok(None);
    };
    if let Some(advice) = of_both_flags(alloc, spot, spot.end(), flag.value)? {
        return Ok(Some(advice));
    }
    if is_after_named_values(spot.before()) {
        return Ok(Some(Advice::Said(COMPARED_AGAIN)));
    }
    if is_operand(spot) {
        return of_written(alloc, spot, flag.value);
    }
    if is_computed_with(spot) {
        return of_computed_flag(alloc, spot, flag);
    }
    match of_named(alloc, spot, TCP, flag.asked)? {
        Some(advice) => Ok(Some(advice)),
        None => Ok(of_part(spot)),
    }
}

/// Whether a text has flags of TCP that are asked for, and ends where values of these go: not in
/// their index, nor after a `&` without a parenthesis, which binds more tightly than `|`.
fn takes_values(before: &[u8]) -> bool {
    let after_bits = match before.iter().rposition(|byte| *byte == b'&') {
        Some(sign) => &before[sign..],
        None => &[],
    };
    let is_open = after_bits.is_empty()
        || after_bits.iter().any(|byte| matches!(*byte, b'(' | b'='));
    before.contains(&b'[') && !before.ends_with(b"[") && is_open
}

/// What helps at a flag that is computed with: its name as a value, if the flags are asked for
/// before it.
fn of_computed_flag<'a>(alloc: Global, spot: Spot<'a>, flag: &'static Flag) -> Found<'a> {
    if takes_values(spot.before()) {
        if let Some(advice) = of_written(alloc, spot, flag.value)? {
            return Ok(Some(advice));
        }
    }
    Ok(Some(Advice::Said(FLAGS_FORM)))
}

/// Whether a byte is one of a sign that compares values or computes with them, or ends an index.
fn is_operator(byte: &u8) -> bool {
    is_of_comparison(byte) || matches!(*byte, b'&' | b'|' | b'^' | b'+' | b'-' | b'*' | b']')
}

/// Whether the text before a place ends with a sign that joins tests.
fn is_after_joint(before: &[u8]) -> bool {
    before.ends_with(b"&&") || before.ends_with(b"||")
}

/// Whether the word at a place is all that a sign before it compares, or takes bits of.
fn is_operand(spot: Spot<'_>) -> bool {
    let before = without_blanks(spot.before());
    let is_bits = before.ends_with(b"&") && !is_after_joint(before);
    let is_several = after_blanks(spot.after_word()).starts_with(b"|");
    before.ends_with(b"=") || (is_bits && !is_several)
}

/// Whether a sign after the word at a place, or a `|` before it, computes with it or compares it.
fn is_computed_with(spot: Spot<'_>) -> bool {
    let next = after_blanks(spot.after_word());
    let is_joint = next.starts_with(b"&&") || next.starts_with(b"||");
    let is_before = next.iter().take(1).any(is_operator) && !is_joint;
    let before = without_blanks(spot.before());
    is_before || (before.ends_with(b"|") && !is_after_joint(before))
}

/// What is said of a flag that is part of a longer word, or of an index.
fn of_part<'a>(spot: Spot<'a>) -> Option<Advice<'a>> {
    match spot.before().last() {
        Some(b'-' | b'[') => Some(Advice::Said(FLAGS_FORM)),
        _ => None,
    }
}

/// What helps at a name that is asked for so: that, for the name or for its layer and the name.
fn of_named<'a>(alloc: Global, spot: Spot<'a>, layer: &[u8], asked: &'static str) -> Found<'a> {
    if spot.last() == layer {
        return of_layer_and_word(alloc, spot, asked);
    }
    of_written(alloc, spot, asked)
}

/// What is written for the word at a place and the one before it.
fn of_layer_and_word<'a>(alloc: Global, spot: Spot<'a>, written: &'static str) -> Found<'a> {
    advise_instead(
        alloc,
        spot,
        spot.start_of_last(),
        spot.end(),
        Instead::Text(written),
    )
}

/// Whether a text ends with `and` or `or` after a comparison with named values.
pub(crate) fn is_after_named_values(text: &[u8]) -> bool {
    let Some(before) = without_joint(text) else {
        return false;
    };
    let before = without_blanks(before);
    match before.iter().rposition(is_of_comparison) {
        Some(sign) => {
            let value = after_blanks(before.get(sign + 1..).unwrap_or(&[]));
            value.starts_with(b"tcp-") || value.starts_with(b"icmp-")
        }
        None => false,
    }
}

/// The flags that a comparison with `=` at the end of a text has as its right side.
fn flags_at_end(text: &[u8]) -> Option<&[u8]> {
    let sign = text.iter().rposition(is_of_comparison)?;
    let left = text.get(..sign + 1)?;
    let flags = after_blanks(text.get(sign + 1..)?);
    let is_equal = left.ends_with(b" =") || left.ends_with(b"]=") || left.ends_with(b"==");
    let is_flags = flags
        .split(|byte| *byte == b'|')
        .all(|flag| after_blanks(flag).starts_with(b"tcp-"));
    if is_equal && is_flags {
        Some(flags)
    } else {
        None
    }
}

/// What helps at a flag after an `and`, from a place to an end, before which the flags are compared
/// with others: all of them as one number.
pub(crate) fn of_both_flags<'a>(
    alloc: Global,
    spot: Spot<'a>,
    end: usize,
    flag: &'static str,
) -> Found<'a> {
    let before = without_blanks(spot.before());
    let Some(before) = before
        .strip_suffix(b" and")
        .or_else(|| before.strip_suffix(b"&&"))
    else {
        return Ok(None);
    };
    let before = without_blanks(before);
    let Some(flags) = flags_at_end(before) else {
        return Ok(None);
    };
    let start = before.len().saturating_sub(flags.len());
    let flags = spot.between(start, before.len());
    advise_instead(alloc, spot, start, end, Instead::Flags(flags, flag))
}

/// What is written in brackets, without its size if one follows there.
fn without_size(written: &'static str, after: &[u8]) -> &'static str {
    match written.split_once(":") {
        Some((place, _)) if after.starts_with(b":") => place,
        _ => written,
    }
}

/// What helps at the field of a display filter in the brackets of its layer.
pub(crate) fn of_index<'a>(alloc: Global, spot: Spot<'a>, field: Run<'a>) -> Found<'a> {
    let start = spot.at(field.start);
    let index = INDEXES.iter().find(|index| index.field == field.bytes
        && start.before().ends_with(index.before));
    let Some(index) = index else {
        return Ok(None);
    };
    let end = field.start.saturating_add(field.bytes.len());
    let written = without_size(index.written, spot.at(end).rest());
    advise_instead(alloc, spot, field.start, end, Instead::Text(written))
}

/// Whether the text after a place joins a flag to what is before it, as `and tcp-ack` does.
pub(crate) fn is_flag_joined(rest: &[u8]) -> bool {
    match after_joint(rest) {
        Some(after) => after_blanks(after).starts_with(b"tcp-"),
        None => false,
    }
}

/// Whether a text goes on with the name of a flag, whatever blanks and signs are before it.
fn is_flag_next(text: &[u8]) -> bool {
    match text.iter().position(|byte| byte.is_ascii_alphabetic()) {
        Some(start) => flag_named(first_word(&text[start..])).is_some(),
        None => false,
    }
}

/// What helps at `flags` after `tcp` and before the name of one, as in `tcp flags syn`, or before
/// several.
fn of_named_flag<'a>(alloc: Global, spot: Spot<'a>) -> Found<'a> {
    let rest = after_blanks(spot.after_word());
    let name = first_word(rest);
    let Some(flag) = flag_named(name) else {
        return Ok(None);
    };
    if spot.last() != TCP {
        return Ok(None);
    }
    let left = rest.len().saturating_sub(name.len());
    if is_flag_next(rest.get(name.len()..).unwrap_or(&[])) {
        return Ok(Some(Advice::Said(JOINED_FLAGS)));
    }
    let text = spot.at(0).rest();
    advise_instead(
        alloc,
        spot,
        spot.start_of_last(),
        text.len().saturating_sub(left),
        Instead::Text(flag.asked),
    )
}

/// What helps at a field after its layer, or in the brackets of it.
pub(crate) fn of_layer_field<'a>(alloc: Global, spot: Spot<'a>) -> Found<'a> {
    let (word, layer) = (spot.word(), spot.last());
    let index = INDEXES.iter().find(|index| index.word == word
        && spot.before().ends_with(index.before));
    if let Some(index) = index {
        let written = without_size(index.written, spot.after_word());
        return of_written(alloc, spot, written);
    }
    let field = LAYER_FIELDS
        .iter()
        .find(|field| field.word == word && field.layer == layer);
    let Some(field) = field else {
        return Ok(None);
    };
    match after_blanks(spot.after_word()).first() {
        Some(next) if next.is_ascii_digit() => of_layer_and_word(alloc, spot, field.compared),
        Some(next) if is_of_comparison(next) || *next == b'&' => {
            of_layer_and_word(alloc, spot, field.written)
        }
        _ => of_named_flag(alloc, spot),
    }
}
