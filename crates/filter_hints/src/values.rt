//! What helps at a value that nothing compares, as `ip[6] & 0x20` or `tcp-syn`.

use crate::addresses::is_port_range;
use crate::advice::{Advice, Found};
use crate::flags::{
    COMPARED_AGAIN, JOINED_FLAGS, is_after_named_values, is_flag_joined, of_both_flags,
};
use crate::instead::{Instead, advise_instead};
use crate::terms::{after_joint, is_constant, is_of_comparison, last_value};
use filter_spots::{Spot, after_blanks, first_word, without_blanks};
use std::alloc::Global;

/// A longer value is not written out.
const MAX_VALUE: usize = 60;

/// A named value, and what asks for it, or for the field that it is the place of.
struct NamedValue {
    name: &'static str,
    asked: &'static str,
}

static NAMED_VALUES: [NamedValue; 14] = [
    NamedValue {
        name: "tcp-fin",
        asked: "tcp[tcpflags] & tcp-fin != 0",
    },
    NamedValue {
        name: "tcp-syn",
        asked: "tcp[tcpflags] & tcp-syn != 0",
    },
    NamedValue {
        name: "tcp-rst",
        asked: "tcp[tcpflags] & tcp-rst != 0",
    },
    NamedValue {
        name: "tcp-push",
        asked: "tcp[tcpflags] & tcp-push != 0",
    },
    NamedValue {
        name: "tcp-ack",
        asked: "tcp[tcpflags] & tcp-ack != 0",
    },
    NamedValue {
        name: "tcp-urg",
        asked: "tcp[tcpflags] & tcp-urg != 0",
    },
    NamedValue {
        name: "icmp-echoreply",
        asked: "icmp[icmptype] = icmp-echoreply",
    },
    NamedValue {
        name: "icmp-unreach",
        asked: "icmp[icmptype] = icmp-unreach",
    },
    NamedValue {
        name: "icmp-redirect",
        asked: "icmp[icmptype] = icmp-redirect",
    },
    NamedValue {
        name: "icmp-echo",
        asked: "icmp[icmptype] = icmp-echo",
    },
    NamedValue {
        name: "icmp-timxceed",
        asked: "icmp[icmptype] = icmp-timxceed",
    },
    NamedValue {
        name: "tcpflags",
        asked: "tcp[tcpflags] != 0",
    },
    NamedValue {
        name: "icmptype",
        asked: "icmp[icmptype] != 0",
    },
    NamedValue {
        name: "icmpcode",
        asked: "icmp[icmpcode] != 0",
    },
];

/// What helps at a value that is the same for each packet: of a named one, the field that has it; of
/// two ports with `-`, the word before them.
fn of_constant<'a>(alloc: Global, spot: Spot<'a>, value: &'a [u8]) -> Found<'a> {
    if is_port_range(value) {
        return Ok(Some(Advice::Round("write `portrange` before `", value, "`")));
    }
    let end = without_blanks(spot.before()).len();
    let start = end.saturating_sub(value.len());
    let named = NAMED_VALUES
        .iter()
        .find(|named| named.name.as_bytes() == value);
    let found = match named {
        Some(named) => of_named_value(alloc, spot.at(start), end, named)?,
        None => None,
    };
    Ok(Some(found.unwrap_or(Advice::Said(
        "a number alone is the same for each packet: compare a field with it, as in `ip[8] < 5`",
    ))))
}

/// What helps at a named value, from a place to an end: what asks for it, or the flags before it as
/// one number with it.
fn of_named_value<'a>(
    alloc: Global,
    start: Spot<'a>,
    end: usize,
    named: &'static NamedValue,
) -> Found<'a> {
    if named.name.starts_with("tcp-") {
        if let Some(advice) = of_both_flags(alloc, start, end, named.name)? {
            return Ok(Some(advice));
        }
    }
    if is_after_named_values(start.before()) {
        return Ok(Some(Advice::Said(COMPARED_AGAIN)));
    }
    advise_instead(
        alloc,
        start,
        start.before().len(),
        end,
        Instead::Text(named.asked),
    )
}

/// What helps at a value that asks for bits by a `&`, and names several by a `|` without
/// parentheses.
fn of_several_bits<'a>(alloc: Global, spot: Spot<'a>, value: &'a [u8]) -> Found<'a> {
    let Some(sign) = value.iter().position(|byte| *byte == b'&') else {
        return Ok(None);
    };
    let number = without_blanks(value.get(..sign).unwrap_or(&[]));
    let bits = after_blanks(value.get(sign + 1..).unwrap_or(&[]));
    let is_several = bits.contains(&b'|') && is_constant(bits);
    if !is_several || bits.contains(&b'(') || number.contains(&b'|') || value.len() > MAX_VALUE {
        return Ok(None);
    }
    let end = without_blanks(spot.before()).len();
    let start = end.saturating_sub(value.len());
    advise_instead(alloc, spot, start, end, Instead::Bits(number, bits))
}

/// Whether a value is bits of the flags of TCP.
fn has_flags(value: &[u8]) -> bool {
    value.starts_with(b"tcp[") && value.contains(&b'&')
}

/// What is said of a value that nothing compares. If it is all of the text, in one word, the shell
/// may have taken the rest.
fn uncompared(spot: Spot<'_>) -> &'static str {
    if spot.rest().is_empty() && !spot.before().contains(&b' ') {
        "a value has to be compared: write `!= 0` after it, or what it is to be; without quotes the shell takes `<`, `>` and `&` for itself"
    } else {
        "a value has to be compared: write `!= 0` after it, or what it is to be"
    }
}

/// What is said of bits after a sign that joins two tests.
const BITS: &str =
    "`&` takes bits of a value, as in `tcp[13] & 2 != 0`: `&&` and `and` join two tests";

/// Whether a constant and a comparison are joined to the value before a place, as in
/// `tcp[13] && 2 != 0`.
fn is_bits_joined(spot: Spot<'_>) -> bool {
    let value = last_value(spot.before());
    let Some(after) = after_joint(spot.rest()) else {
        return false;
    };
    let bits = after_blanks(after);
    let constant = first_word(bits);
    let next = after_blanks(bits.get(constant.len()..).unwrap_or(&[]));
    let is_number = constant.first().is_some_and(|first| first.is_ascii_digit());
    let is_one = is_number || constant.starts_with(b"tcp-");
    let is_compared = next.first().is_some_and(is_of_comparison);
    value.ends_with(b"]") && !value.contains(&b'&') && is_one && is_compared
}

/// What helps at the end of a value that nothing compares, if the text is an expression with this
/// comparison there.
pub(crate) fn of_comparison<'a>(alloc: Global, spot: Spot<'a>, comparison: &str) -> Found<'a> {
    if has_flags(last_value(spot.before())) && is_flag_joined(spot.rest()) {
        return Ok(Some(Advice::Said(JOINED_FLAGS)));
    }
    if is_bits_joined(spot) {
        return Ok(Some(Advice::Said(BITS)));
    }
    match spot.before_word() {
        Some(gap) if gap.is_whole_with(alloc, comparison)? => {}
        _ => return Ok(None),
    }
    let value = last_value(spot.before());
    if is_constant(value) {
        return of_constant(alloc, spot, value);
    }
    match of_several_bits(alloc, spot, value)? {
        Some(advice) => Ok(Some(advice)),
        None => Ok(Some(Advice::Said(uncompared(spot)))),
    }
}
