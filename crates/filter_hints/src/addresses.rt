//! What helps at addresses and lists of them that are written as elsewhere.

use crate::advice::{Advice, Found};
use crate::instead::{Instead, advise_instead};
use filter_spots::{
    HOST, Run, Spot, after_blanks, first_word, last_word, port_of, without_blanks,
    without_last_word,
};
use std::alloc::Global;
use std::fmt;
use std::fmt::{Display, Formatter};
use visible_text::Shown;

/// How many groups of 16 bits an IPv6 address has.
const IPV6_GROUPS: usize = 8;

/// The word before an Ethernet address, or before the words of a side.
const ETHER: &[u8] = b"ether";

/// Words that an Ethernet address follows after `ether`.
static BEFORE_ETHERNET: [&[u8]; 3] = [b"host", b"src", b"dst"];

/// Words of a side, which an address or a net follows.
static SIDES: [&[u8]; 2] = [b"src", b"dst"];

/// Words that ports follow.
static WITH_PORTS: [&[u8]; 2] = [b"port", b"portrange"];

/// What is said of a port that there is not.
const PORTS: &str = "ports are 0 to 65535";

/// A list of more bytes is not written out.
const MAX_LIST: usize = 60;

/// An Ethernet address with colons, whatever signs separate its digits.
#[derive(Clone, Copy)]
pub(crate) struct WithColons<'a>(pub &'a [u8]);

impl Display for WithColons<'_> {
    fn fmt<W: fmt::Write>(&self, f: &mut Formatter<W>) -> fmt::Result {
        if has_six_parts(self.0) {
            write_parts(self.0, f)
        } else {
            write_pairs(self.0, f)
        }
    }
}

/// The six parts of an address, with colons.
fn write_parts<W: fmt::Write>(address: &[u8], f: &mut Formatter<W>) -> fmt::Result {
    for (at, part) in address.split(is_sign).enumerate() {
        if at > 0 {
            f.write_char(':')?;
        }
        write!(f, "{}", Shown(part))?;
    }
    Ok(())
}

/// The digits of an address, with a colon between two pairs.
fn write_pairs<W: fmt::Write>(address: &[u8], f: &mut Formatter<W>) -> fmt::Result {
    for (at, byte) in address.iter().filter(|byte| !is_sign(*byte)).enumerate() {
        if at > 0 && at % 2 == 0 {
            f.write_char(':')?;
        }
        f.write_char(char::from(*byte))?;
    }
    Ok(())
}

/// An Ethernet address that is written otherwise: it prints as a sentence.
#[derive(Clone, Copy)]
pub enum EthernetAdvice<'a> {
    /// An address without colons.
    Colons(&'a [u8]),
    /// A word that takes an address only after `ether`, and the address.
    Ether(&'a [u8], &'a [u8]),
}

impl Display for EthernetAdvice<'_> {
    fn fmt<W: fmt::Write>(&self, f: &mut Formatter<W>) -> fmt::Result {
        match self {
            EthernetAdvice::Colons(address) => write!(
                f,
                "an Ethernet address has colons: write `{}` for `{}`",
                WithColons(*address),
                Shown(*address)
            ),
            EthernetAdvice::Ether(word, address) => write!(
                f,
                "an Ethernet address needs `ether`: write `ether {} {}`",
                Shown(*word),
                WithColons(*address)
            ),
        }
    }
}

/// A list with commas or bars, as a group: with `or`, in parentheses.
#[derive(Clone, Copy)]
pub(crate) struct AsGroup<'a>(pub &'a [u8]);

impl Display for AsGroup<'_> {
    fn fmt<W: fmt::Write>(&self, f: &mut Formatter<W>) -> fmt::Result {
        f.write_char('(')?;
        for (at, item) in self.0.split(is_separator).enumerate() {
            if at > 0 {
                f.write_str(" or ")?;
            }
            write!(f, "{}", Shown(after_blanks(item)))?;
        }
        f.write_char(')')
    }
}

/// Whether a byte separates the digits of an Ethernet address.
fn is_sign(byte: &u8) -> bool {
    matches!(*byte, b':' | b'-' | b'.')
}

/// Whether a byte separates the items of a list.
fn is_separator(byte: &u8) -> bool {
    *byte == b',' || *byte == b'|'
}

/// Whether a text has only hexadecimal digits, from `least` to `most` of them.
fn has_digits(text: &[u8], least: usize, most: usize) -> bool {
    least <= text.len() && text.len() <= most && text.iter().all(|byte| byte.is_ascii_hexdigit())
}

/// Whether a text has `count` parts between signs of this kind, each of `least` to `most`
/// hexadecimal digits.
fn has_parts(text: &[u8], sign: u8, count: usize, least: usize, most: usize) -> bool {
    let mut found: usize = 0;
    for part in text.split(|byte| *byte == sign) {
        if !has_digits(part, least, most) {
            return false;
        }
        found = found.saturating_add(1);
    }
    found == count
}

/// Whether a text is an Ethernet address of six parts.
fn has_six_parts(text: &[u8]) -> bool {
    has_parts(text, b':', 6, 1, 2)
        || has_parts(text, b'-', 6, 1, 2)
        || has_parts(text, b'.', 6, 1, 2)
}

/// Whether a text is an Ethernet address as people and other tools write one.
fn is_ethernet(text: &[u8]) -> bool {
    has_six_parts(text) || has_parts(text, b'.', 3, 4, 4) || has_digits(text, 12, 12)
}

/// Whether a text is a number: digits, and at least one.
pub(crate) fn is_number(text: &[u8]) -> bool {
    !text.is_empty() && text.iter().all(|byte| byte.is_ascii_digit())
}

/// Whether a text is an IPv4 address.
pub(crate) fn is_dotted(text: &[u8]) -> bool {
    let mut parts: usize = 0;
    for part in text.split(|byte| *byte == b'.') {
        if part.len() > 3 || !is_number(part) {
            return false;
        }
        parts = parts.saturating_add(1);
    }
    parts == 4
}

/// How many groups of an IPv6 address a part of it is, between colons: nothing is none, an IPv4
/// address is two.
fn groups_of(part: &[u8]) -> Option<usize> {
    if part.is_empty() {
        Some(0)
    } else if has_digits(part, 1, 4) {
        Some(1)
    } else if is_dotted(part) {
        Some(2)
    } else {
        None
    }
}

/// How many groups of an IPv6 address a text has; only the last may be an IPv4 address.
fn count_groups(text: &[u8]) -> Option<usize> {
    let mut count: usize = 0;
    let mut has_ended = false;
    for part in text.split(|byte| *byte == b':') {
        if has_ended {
            return None;
        }
        let groups = groups_of(part)?;
        has_ended = groups == 2;
        count = count.saturating_add(groups);
    }
    Some(count)
}

/// Whether a text begins or ends with one colon only.
fn has_loose_colon(text: &[u8]) -> bool {
    (text.starts_with(b":") && !text.starts_with(b"::"))
        || (text.ends_with(b":") && !text.ends_with(b"::"))
}

/// Whether a text is an IPv6 address: eight groups, or fewer and one `::`.
fn is_ipv6(text: &[u8]) -> bool {
    let Some(groups) = count_groups(text) else {
        return false;
    };
    if has_loose_colon(text) {
        return false;
    }
    match text
        .windows(2)
        .filter(|pair| *pair == b"::".as_slice())
        .count()
    {
        0 => groups == IPV6_GROUPS,
        1 => groups < IPV6_GROUPS,
        _ => false,
    }
}

/// What helps at a place in an IPv6 address. After a `[` colons are those of an accessor.
pub(crate) fn of_ipv6<'a>(spot: Spot<'a>) -> Option<Advice<'a>> {
    let run = spot.run();
    if !is_ipv6(run.bytes) || without_blanks(spot.at(run.start).before()).ends_with(b"[") {
        return None;
    }
    Some(Advice::Elsewhere(
        "only Ethernet with IPv4 is supported, not the IPv6 address `",
        run.bytes,
        "`",
    ))
}

/// What helps at an Ethernet address with other signs than colons.
fn of_signs<'a>(alloc: Global, spot: Spot<'a>, run: Run<'a>) -> Found<'a> {
    let Some(gap) = spot.without(run.start, run.bytes.len()) else {
        return Ok(None);
    };
    let colons = format!(in alloc; "{}", WithColons(run.bytes))?;
    if gap.takes(alloc, colons.as_str())? {
        Ok(Some(Advice::Ethernet(EthernetAdvice::Colons(run.bytes))))
    } else {
        Ok(None)
    }
}

/// What helps at an Ethernet address after a word that takes one only after `ether`.
fn of_missing_ether<'a>(alloc: Global, spot: Spot<'a>, run: Run<'a>) -> Found<'a> {
    let first = spot.at(run.start);
    let (word, start) = (first.last(), first.start_of_last());
    let len = run
        .start
        .saturating_sub(start)
        .saturating_add(run.bytes.len());
    let Some(gap) = spot.without(start, len) else {
        return Ok(None);
    };
    if !BEFORE_ETHERNET.contains(&word) {
        return Ok(None);
    }
    let written = format!(in alloc; "ether {} {}", Shown(word), WithColons(run.bytes))?;
    if gap.takes(alloc, written.as_str())? {
        Ok(Some(Advice::Ethernet(EthernetAdvice::Ether(word, run.bytes))))
    } else {
        Ok(None)
    }
}

/// Whether a place is where an Ethernet address goes: after `ether` and a word of a side, or more.
fn takes_ethernet(first: Spot<'_>) -> bool {
    let before = without_last_word(first.before());
    BEFORE_ETHERNET.contains(&first.last())
        && (last_word(before) == ETHER || last_word(without_last_word(before)) == ETHER)
}

/// What helps at a part of an Ethernet address, or at an IPv4 address, after `ether`.
fn of_other_parts<'a>(spot: Spot<'a>, run: Run<'a>) -> Option<Advice<'a>> {
    if !takes_ethernet(spot.at(run.start)) {
        None
    } else if is_dotted(run.bytes) {
        Some(Advice::Said(
            "`ether` takes an Ethernet address: leave `ether` out before an IPv4 address",
        ))
    } else if run.bytes.contains(&b':') {
        Some(Advice::Round(
            "an Ethernet address has six parts, as `00:00:5e:00:53:01`, each of two hexadecimal digits: `",
            run.bytes,
            "` is none",
        ))
    } else {
        None
    }
}

/// What helps at a place in an Ethernet address.
pub(crate) fn of_ethernet<'a>(alloc: Global, spot: Spot<'a>) -> Found<'a> {
    let run = spot.run();
    if !is_ethernet(run.bytes) {
        return Ok(of_other_parts(spot, run));
    }
    match of_signs(alloc, spot, run)? {
        Some(advice) => Ok(Some(advice)),
        None => of_missing_ether(alloc, spot, run),
    }
}

/// How many bytes a list goes on: items, what separates them, and the blanks after that.
fn list_len(rest: &[u8]) -> usize {
    let mut is_after_separator = false;
    for (at, byte) in rest.iter().enumerate() {
        let is_blank = *byte == b' ' || *byte == b'\t';
        if is_separator(byte) {
            is_after_separator = true;
        } else if is_in_item(byte) {
            is_after_separator = false;
        } else if !is_blank || !is_after_separator {
            return at;
        }
    }
    rest.len()
}

/// Whether a byte belongs to a number or an address.
fn is_in_item(byte: &u8) -> bool {
    byte.is_ascii_hexdigit() || is_sign(byte) || *byte == b'/'
}

/// Whether each item of a list begins with a digit.
fn has_numbers(list: &[u8]) -> bool {
    list.split(is_separator).all(|item| match after_blanks(item).first() {
        Some(first) => first.is_ascii_digit(),
        None => false,
    })
}

/// What helps at a comma or a bar of a list, as `80,443`.
pub(crate) fn of_list<'a>(alloc: Global, spot: Spot<'a>) -> Found<'a> {
    let start = match spot.before().iter().rposition(|byte| !is_in_item(byte)) {
        Some(outside) => outside + 1,
        None => 0,
    };
    let end = spot.before().len().saturating_add(list_len(spot.rest()));
    let list = spot.between(start, end);
    if list.len() > MAX_LIST || !has_numbers(list) {
        return Ok(None);
    }
    advise_instead(alloc, spot, start, end, Instead::Group(list))
}

/// Whether a text is two numbers with `-` between them.
fn is_range(text: &[u8]) -> bool {
    text.split(|byte| *byte == b'-').count() == 2 && text.split(|byte| *byte == b'-').all(is_number)
}

/// Whether a text is two ports with `-` between them.
pub(crate) fn is_port_range(text: &[u8]) -> bool {
    is_range(text)
        && text
            .split(|byte| *byte == b'-')
            .all(|end| port_of(end).is_some())
}

/// What helps at a range after `port`.
pub(crate) fn of_range<'a>(alloc: Global, spot: Spot<'a>) -> Found<'a> {
    let run = spot.run();
    let first = spot.at(run.start);
    if first.last() != b"port".as_slice() || !is_range(run.bytes) {
        return Ok(None);
    }
    if !is_port_range(run.bytes) {
        return Ok(Some(Advice::Said(PORTS)));
    }
    match spot.without(first.start_of_last(), first.last().len()) {
        Some(gap) if gap.takes(alloc, "portrange")? => {
            Ok(Some(Advice::Round("write `portrange` for `port` before `", run.bytes, "`")))
        }
        _ => Ok(None),
    }
}

fn is_one_to_nine(byte: &u8) -> bool {
    byte.is_ascii_digit() && *byte != b'0'
}

/// What is said of a net with bits outside its mask, or with a mask that begins with zeros.
pub(crate) fn said_of_net(spot: Spot<'_>) -> Option<&'static str> {
    let after = after_blanks(spot.after_word());
    let mask = first_word(after_blanks(after.strip_prefix(b"mask")?));
    if mask.starts_with(b"0.") && mask.iter().any(is_one_to_nine) {
        Some("a mask has its ones in front: `mask 255.255.255.0`, not `mask 0.0.0.255`")
    } else {
        None
    }
}

/// What helps at a mask right after the address of a net.
pub(crate) fn of_mask<'a>(alloc: Global, spot: Spot<'a>) -> Found<'a> {
    if spot.second_last() != b"net".as_slice() || !is_dotted(spot.token()) {
        return Ok(None);
    }
    match spot.before_word() {
        Some(gap) if gap.takes(alloc, "mask ")? => {
            Ok(Some(Advice::Round("write `mask` before `", spot.token(), "`")))
        }
        _ => Ok(None),
    }
}

/// Whether a text is a `/` and a word, as after a port elsewhere: `80/tcp`.
fn names_protocol(text: &[u8]) -> bool {
    match text.strip_prefix(b"/").unwrap_or(&[]).first() {
        Some(letter) => letter.is_ascii_alphabetic(),
        None => false,
    }
}

/// What helps at a `/` after the first part of a net, or at a mask after one.
pub(crate) fn of_net<'a>(alloc: Global, spot: Spot<'a>) -> Found<'a> {
    let before = without_blanks(spot.before());
    if names_protocol(spot.rest()) && WITH_PORTS.contains(&spot.second_last()) {
        return Ok(Some(Advice::Said("the protocol comes before `port`, as in `tcp port 80`")));
    }
    let gap = if spot.rest().starts_with(b"/") {
        (spot.before_word(), ".0.0.0")
    } else if before.ends_with(b"/") {
        let slash = before.len().saturating_sub(1);
        (spot.without(slash, 1), " mask ")
    } else {
        return Ok(None);
    };
    let (Some(gap), put) = gap else {
        return Ok(None);
    };
    if !gap.takes(alloc, put)? {
        Ok(None)
    } else if put == " mask " {
        Ok(Some(Advice::Round("write `mask` for the `/` before `", spot.token(), "`")))
    } else {
        Ok(Some(Advice::Round("write `", spot.last(), ".0.0.0` before the `/`")))
    }
}

/// What helps at an address with a mask right after `src` or `dst`, as `src 10.0.0.0/8`.
fn of_masked_side<'a>(alloc: Global, first: Spot<'a>, net: &'a [u8]) -> Found<'a> {
    match first.before_word() {
        Some(gap) if SIDES.contains(&first.last()) && gap.takes(alloc, "net ")? => {
            Ok(Some(Advice::Round("write `net` before `", net, "`")))
        }
        _ => Ok(None),
    }
}

/// What helps at an address with a mask after `host`, as `host 10.0.0.0/8`, or without `net`.
pub(crate) fn of_masked_host<'a>(alloc: Global, spot: Spot<'a>) -> Found<'a> {
    let run = spot.run();
    let slash = run.start.saturating_add(run.bytes.len());
    let first = spot.at(run.start);
    if !spot.at(slash).rest().starts_with(b"/") {
        return Ok(None);
    }
    let len = first_word(spot.at(slash.saturating_add(1)).rest()).len();
    let net = spot.between(run.start, slash.saturating_add(len).saturating_add(1));
    if first.last() != HOST {
        return of_masked_side(alloc, first, net);
    }
    match spot.without(first.start_of_last(), HOST.len()) {
        Some(gap) if gap.takes(alloc, "net")? => {
            Ok(Some(Advice::Round("write `net` for `host` before `", net, "`")))
        }
        _ => Ok(None),
    }
}
