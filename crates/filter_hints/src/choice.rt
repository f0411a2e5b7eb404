//! Which advice helps at a fault.

ghost use Rattle.std.specs.Prelude.{◌≡◌, ◌↔◌, ◌⊎◌, IfOk, IfSome, IsNone, IsSome, Some};
ghost use Rattle.filter_hints.specs.Advising.{IsSaying, deep_relation, long_text};
ghost use Rattle.filter_hints.specs.declared.advice.Advice.TheVariants.{LongProgram};
ghost use Rattle.filtergen_facts.specs.declared.refusal.Refusal.TheVariants as Refusal;
ghost use Rattle.filterlang.specs.declared.fault.Fault.TheVariants as Fault;

use crate::addresses::{
    is_dotted, is_number, is_port_range, of_ethernet, of_ipv6, of_list, of_mask, of_masked_host,
    of_net, of_range, said_of_net,
};
use crate::advice::{Advice, Found};
use crate::colons::{of_endpoint, of_other_range};
use crate::comparisons::of_compared;
use crate::dots::of_dots;
use crate::flags::{of_flag, of_layer_field};
use crate::instead::{Instead, advise_instead};
use crate::left_sides::{of_operand, of_sign};
use crate::other_words::{
    of_every_packet, of_ip_broadcast, of_left_out, of_other_word, of_sctp, of_text, of_unit,
    of_value,
};
use crate::services::{of_service, port_named};
use crate::terms::{has_or, is_alone, is_of_comparison, without_joint};
use crate::values::of_comparison;
use filter_spots::{
    PROTO, Spot, after_blanks, first_word, in_small_letters, port_of, without_blanks,
    without_last_word,
};
use filtergen_facts::Refusal;
use filterlang::Fault;
use std::alloc::{AllocError, Global};

/// The word that the number of a port follows.
pub(crate) const PORT: &[u8] = b"port";

/// The word before `proto` if it takes an Ethernet type.
const ETHER: &[u8] = b"ether";

/// What to write after `ether proto`.
const ETHERNET_TYPE: &str =
    "write a number from 1501 to 65535 after `ether proto`, or `\\ip`, `\\arp` or `\\rarp`";

/// The word that two ports follow.
pub(crate) const PORTRANGE: &[u8] = b"portrange";

/// What is said of one number after `portrange`.
const TWO_PORTS: &str = "a portrange is two numbers with `-` between: `portrange 20-30`";

/// Protocols over Ethernet whose packets have a length of their own.
static OVER_ETHERNET: [&[u8]; 4] = [b"ip", b"tcp", b"udp", b"icmp"];

/// Protocols over IPv4, of which a packet has one.
static TRANSPORTS: [&[u8]; 4] = [b"tcp", b"udp", b"icmp", b"sctp"];

/// Words after `port` that are no services.
static OTHER_PORTS: [&[u8]; 6] = [b"in", b"between", b"range", b"is", b"any", b"from"];

/// What is said of ports of a protocol that has none.
const PORTS: &str =
    "only `tcp`, `udp` and `sctp` have ports: write one of them before `port`, or none";

/// Words before `port` and `portrange`.
static BEFORE_PORTS: [&[u8]; 2] = [b"src", b"dst"];

/// Words that are names of their own, however near a word of the language is.
static OTHER_NAMES: [&[u8]; 11] = [
    b"sip", b"dip", b"tcp6", b"udp6", b"rip", b"rdp", b"cdp", b"rtcp", b"icp", b"xor", b"nor",
];

/// What is said of a number right after `len`.
const LENGTH: &str = "compare `len` with the number, as in `len > 60`";

/// What is said of an expression with a relation that is too deep.
const DEEP_RELATION: &str =
    "write long sums from the left, `a + b + c`, not `a + (b + c)`: a relation has 16 words of memory";

/// What helps at a word that differs from one of the language by its capital letters, or by one
/// edit.
fn of_spelling<'a>(alloc: Global, spot: Spot<'a>) -> Found<'a> {
    let Some(gap) = spot.without_word() else {
        return Ok(None);
    };
    let backslash = spot.has_backslash();
    if let Some(small) = in_small_letters(spot.word()) {
        if gap.takes(alloc, small)? {
            return Ok(Some(Advice::small_letters(backslash, small)));
        }
    }
    if OTHER_NAMES.contains(&spot.word()) {
        return Ok(None);
    }
    match gap.near_word(alloc, spot.word())? {
        Some(near) => Ok(Some(Advice::did_you_mean(backslash, near))),
        None => Ok(None),
    }
}

/// What helps at what may be a name.
fn of_name<'a>(spot: Spot<'a>) -> Advice<'a> {
    let (before, name) = (spot.last(), spot.word());
    if spot.has_backslash() {
        Advice::Said("write a backslash only before `tcp`, `udp`, `icmp`, `ip`, `arp` or `rarp`")
    } else if before == PORTRANGE {
        Advice::Elsewhere(
            "service names are not supported: write two numbers, as in `portrange 20-30`, for `",
            name,
            "`",
        )
    } else if before == PORT {
        of_service_name(name)
    } else if (before == PROTO && spot.second_last() == ETHER)
        || (before == ETHER && name == b"type".as_slice())
    {
        Advice::Said(ETHERNET_TYPE)
    } else if before == PROTO {
        Advice::Elsewhere(
            "protocol names are not supported here: write a number, as in `proto 17`, for `",
            name,
            "`",
        )
    } else if spot.takes_address() {
        of_address_name(name)
    } else {
        Advice::Round(
            "`",
            name,
            "` is no word of the language, and names are not supported",
        )
    }
}

/// What helps at a word where an address goes.
fn of_address_name<'a>(name: &'a [u8]) -> Advice<'a> {
    match name {
        b"addr" | b"address" | b"is" | b"from" => Advice::Round(
            "leave out `",
            name,
            "`: an address follows `host`, `src` and `dst` by itself",
        ),
        b"any" => Advice::Said("an address that may be any is left out, with the words before it"),
        b"in" => Advice::Said("several addresses are `host (192.0.2.1 or 192.0.2.2)`"),
        b"mac" => Advice::Said(
            "an Ethernet address follows `ether host`, `ether src` and `ether dst`",
        ),
        _ => Advice::host(name),
    }
}

/// What helps at a word after `port`.
fn of_service_name<'a>(name: &'a [u8]) -> Advice<'a> {
    if OTHER_PORTS.contains(&name) {
        return Advice::Said(
            "several ports are `port (80 or 443)`, and a range is `portrange 80-90`",
        );
    }
    match port_named(name) {
        Some(number) if is_number(number.as_bytes()) => {
            Advice::Instead(Instead::Text(number), name)
        }
        _ => Advice::Elsewhere(
            "service names are not supported: write a number, as in `port 80`, for `",
            name,
            "`",
        ),
    }
}

/// What helps at a word for which something else is written here, or nothing.
fn of_known_word<'a>(alloc: Global, spot: Spot<'a>) -> Found<'a> {
    if let Some(advice) = of_compared(alloc, spot)? {
        return Ok(Some(advice));
    }
    if let Some(advice) = of_value(alloc, spot)? {
        return Ok(Some(advice));
    }
    if let Some(advice) = of_other_word(alloc, spot)? {
        return Ok(Some(advice));
    }
    if spot.takes_only_name() && !spot.has_backslash() {
        return Ok(None);
    }
    of_bare_name(alloc, spot)
}

/// What helps at a word that no number or address is to be.
fn of_bare_name<'a>(alloc: Global, spot: Spot<'a>) -> Found<'a> {
    if let Some(advice) = of_flag(alloc, spot)? {
        return Ok(Some(advice));
    }
    if let Some(advice) = of_layer_field(alloc, spot)? {
        return Ok(Some(advice));
    }
    if let Some(advice) = of_unit(alloc, spot)? {
        return Ok(Some(advice));
    }
    match of_word_alone(spot) {
        Some(advice) => Ok(Some(advice)),
        None => of_service(alloc, spot),
    }
}

/// What helps at a word for which the same is always said.
fn of_word_alone<'a>(spot: Spot<'a>) -> Option<Advice<'a>> {
    of_every_packet(spot)
        .or_else(|| of_left_out(spot))
        .or_else(|| of_text(spot))
}

/// What helps at a word that the language lacks.
fn of_word<'a>(alloc: Global, spot: Spot<'a>) -> Result<Advice<'a>, AllocError> {
    if let Some(advice) = of_known_word(alloc, spot)? {
        return Ok(advice);
    }
    if let Some(advice) = of_spelling(alloc, spot)? {
        return Ok(advice);
    }
    Ok(of_name(spot))
}

/// Whether a text begins with a quote: a shell's, or a printed one, U+2018 to U+201F.
fn begins_with_quote(text: &[u8]) -> bool {
    match text.strip_prefix(b"\xe2\x80") {
        Some(rest) => matches!(rest.first(), Some(0x98..=0x9f)),
        None => matches!(text.first(), Some(b'"' | b'\'' | b'`')),
    }
}

/// Whether bytes of a packet and a sign that compares them are right before a place, and the text
/// there begins with a letter, whatever quote is before it.
fn is_compared_text(spot: Spot<'_>) -> bool {
    let before = without_blanks(spot.before());
    let end = match before.iter().rposition(|byte| !is_of_comparison(byte)) {
        Some(last) => last + 1,
        None => 0,
    };
    let left = without_blanks(before.get(..end).unwrap_or(&[]));
    let first = spot.rest().iter().find(|byte| byte.is_ascii_alphanumeric());
    let has_letter = first.is_some_and(|byte| byte.is_ascii_alphabetic());
    end < before.len() && left.ends_with(b"]") && has_letter
}

/// What helps at a byte for which nothing else helps: a comma, or one that there is not.
fn of_other_byte<'a>(spot: Spot<'a>) -> Advice<'a> {
    if spot.rest().starts_with(b",") {
        Advice::Said(
            "a list has `or` and parentheses: `port (80 or 443)`, `(tcp or udp) and port 53`",
        )
    } else {
        Advice::Round("no word, number or sign begins with `", spot.token(), "`")
    }
}

/// What helps at a byte that begins no token.
fn of_byte<'a>(alloc: Global, spot: Spot<'a>) -> Result<Advice<'a>, AllocError> {
    if begins_with_quote(spot.rest()) && is_compared_text(spot) {
        Ok(Advice::Said("text is a number here, of up to four bytes: 0x47455420 is `GET `"))
    } else if begins_with_quote(spot.rest()) {
        Ok(Advice::Said("quotes are for the shell, not part of an expression"))
    } else if spot.rest().is_empty() {
        Ok(Advice::Said("no word, number or sign begins here"))
    } else if spot.rest().starts_with(b"#") {
        Ok(Advice::Said("an expression has no comments: sed 's/#.*//' FILE leaves them out"))
    } else {
        let list = if spot.rest().starts_with(b",") {
            of_list(alloc, spot)?
        } else {
            None
        };
        Ok(list.unwrap_or(of_other_byte(spot)))
    }
}

/// What is written for a single sign between two tests, and what is said of that.
fn joint_for(sign: &[u8]) -> Option<(&'static str, &'static str)> {
    match sign {
        b"|" => Some((" or ", "between two tests write `or` or `||` for `")),
        b"&" => Some((" and ", "between two tests write `and` or `&&` for `")),
        _ => None,
    }
}

/// What is said after a sign or a word that joins two tests: parentheses go round these, if there
/// are more.
fn said_after_joint(spot: Spot<'_>, rest: &[u8]) -> &'static str {
    if is_alone(spot.before()) && !has_or(rest) {
        "`"
    } else {
        "`, and parentheses round what it joins"
    }
}

/// What helps at a `|` or a `&` between two tests, or at a `|` between two values.
fn of_single_sign<'a>(alloc: Global, spot: Spot<'a>) -> Found<'a> {
    let sign = spot.token();
    let Some((joint, said)) = joint_for(sign) else {
        return Ok(None);
    };
    if let Some(list) = of_list(alloc, spot)? {
        return Ok(Some(list));
    }
    let right = after_blanks(spot.rest().get(1..).unwrap_or(&[]));
    let rest = right.get(first_word(right).len()..).unwrap_or(&[]);
    let after = if sign == b"&".as_slice() || after_blanks(rest).is_empty() {
        said_after_joint(spot, rest)
    } else {
        "`, and parentheses round what it joins"
    };
    match spot.without(spot.before().len(), 1) {
        Some(gap) if gap.takes(alloc, joint)? => Ok(Some(Advice::Round(said, sign, after))),
        _ => Ok(None),
    }
}

/// The text after the protocol at a place, and after `src` or `dst`.
fn after_side<'a>(spot: Spot<'a>) -> &'a [u8] {
    let rest = after_blanks(spot.after_word());
    let side = first_word(rest);
    if BEFORE_PORTS.contains(&side) {
        after_blanks(rest.strip_prefix(side).unwrap_or(rest))
    } else {
        rest
    }
}

/// Whether a word is a port, or what is between two in parentheses.
fn is_port_or_joint(word: &[u8]) -> bool {
    word.is_empty() || word == b"or".as_slice() || port_of(word).is_some()
}

/// Whether a text begins with ports in parentheses.
fn begins_with_ports(text: &[u8]) -> bool {
    let Some(inside) = text.strip_prefix(b"(") else {
        return false;
    };
    let inside = after_blanks(inside);
    let len = inside
        .iter()
        .position(|byte| *byte == b')')
        .unwrap_or(inside.len());
    let ports = inside.get(..len).unwrap_or(&[]);
    port_of(first_word(ports)).is_some() && ports.split(|byte| *byte == b' ').all(is_port_or_joint)
}

/// What helps at the number of a port without `port` after a protocol, as `tcp 80`: a range too,
/// and several in parentheses.
fn of_bare_port<'a>(alloc: Global, spot: Spot<'a>) -> Found<'a> {
    let rest = after_side(spot);
    let number = first_word(rest);
    let (put, said, token) = if is_port_range(number) {
        ("portrange ", "write `portrange` before `", number)
    } else if port_of(number).is_some() {
        ("port ", "write `port` before `", number)
    } else if begins_with_ports(rest) {
        ("port ", "write `port` before `", b"(".as_slice())
    } else {
        return Ok(None);
    };
    let start = spot.at(0).rest().len().saturating_sub(rest.len());
    match spot.at(start).before_word() {
        Some(gap) if gap.takes(alloc, put)? => Ok(Some(Advice::Round(said, token, "`"))),
        _ => Ok(None),
    }
}

/// What helps at words that do not go together.
fn of_qualifier<'a>(alloc: Global, spot: Spot<'a>, fault: Fault) -> Result<Advice<'a>, AllocError> {
    let word = first_word(after_side(spot));
    if word == PORT || word == PORTRANGE {
        return Ok(Advice::Said(PORTS));
    }
    match of_bare_port(alloc, spot)? {
        Some(advice) => Ok(advice),
        None if after_blanks(spot.after_word()).starts_with(b"(") => {
            Ok(Advice::Round("write `and` before the `(` after `", spot.word(), "`"))
        }
        None => Ok(of_sctp(spot).unwrap_or(Advice::Said(sentence(fault)))),
    }
}

/// What helps at a number right after `src` or `dst`: it may be a port, or the first part of a net.
fn of_number_of_side<'a>(number: &'a [u8]) -> Advice<'a> {
    match port_of(number) {
        Some(part) if part < 256 => Advice::Round(
            "write `port` before `",
            number,
            "`, or `net` if it is the first part of addresses",
        ),
        _ => Advice::Round("write `port` before `", number, "`"),
    }
}

/// What helps at a number or an address that is joined to a test of another type, as in
/// `host 10.0.0.1 and 80`.
fn of_inherited<'a>(alloc: Global, spot: Spot<'a>) -> Found<'a> {
    let word = spot.word();
    let (put, said) = if port_of(word).is_some() {
        ("port ", "write `port` before `")
    } else if is_dotted(word) {
        ("host ", "write `host` before `")
    } else {
        return Ok(None);
    };
    match spot.before_word() {
        Some(gap) if without_joint(spot.before()).is_some() && gap.takes(alloc, put)? => {
            Ok(Some(Advice::Round(said, word, "`")))
        }
        _ => Ok(None),
    }
}

/// What helps at a number right after `src` or `dst`, or at a net after `host` or without `net`.
fn of_identifier<'a>(
    alloc: Global,
    spot: Spot<'a>,
    fault: Fault,
) -> Result<Advice<'a>, AllocError> {
    if let Some(advice) = of_masked_host(alloc, spot)? {
        return Ok(advice);
    }
    if let Some(advice) = of_inherited(alloc, spot)? {
        return Ok(advice);
    }
    match spot.before_word() {
        Some(gap)
            if port_of(spot.word()).is_some()
                && BEFORE_PORTS.contains(&spot.last())
                && gap.takes(alloc, "port ")? => { Ok(of_number_of_side(spot.word())) }
        _ => Ok(Advice::Said(sentence(fault))),
    }
}

/// What helps at a number or an address that is none.
fn of_number<'a>(word: &[u8]) -> Advice<'a> {
    if word.windows(2).any(|pair| pair == b"..".as_slice()) {
        Advice::Said(
            "a range is `portrange 80-90`, or two comparisons: `(60 <= len and len <= 100)`",
        )
    } else if word.starts_with(b"0x") {
        Advice::Said(
            "a number is at most 4294967295, eight digits after 0x; an Ethernet address follows `ether host`",
        )
    } else if word.contains(&b'.') {
        Advice::Said("an address has two to four parts of at most three digits, each up to 255")
    } else if word.starts_with(b"0") {
        Advice::Said(
            "a number that begins with 0 is octal, of the digits 0 to 7; with 0x it is hexadecimal",
        )
    } else {
        Advice::Said("a number is at most 4294967295, and no name begins with a digit")
    }
}

/// Whether each `(` of a text is closed in it.
fn all_are_closed(text: &[u8]) -> bool {
    let opened = text.iter().filter(|byte| **byte == b'(').count();
    let closed = text.iter().filter(|byte| **byte == b')').count();
    opened <= closed
}

/// What to write after a word that takes a number or an address; nothing for other words.
fn operand_at(spot: Spot<'_>) -> Option<&'static str> {
    let last = spot.last();
    if last == PORTRANGE {
        Some("write two numbers after `portrange`, as in `portrange 20-30`")
    } else if last == PORT {
        Some("write a number after `port`, as in `port 80`")
    } else if last == b"host".as_slice() {
        Some("write an address after `host`, as in `host 192.0.2.1`")
    } else if last == b"net".as_slice() {
        Some("write an address after `net`, as in `net 192.0.2.0/24`")
    } else if last == PROTO && spot.second_last() == ETHER {
        Some(ETHERNET_TYPE)
    } else if spot.second_last() == PORTRANGE && !last.contains(&b'-') {
        Some(TWO_PORTS)
    } else if last == PROTO {
        Some(
            "write a number after `proto`, as in `proto 17`, or a name with a backslash, as in `proto \\udp`",
        )
    } else if spot.rest().starts_with(b")") && all_are_closed(spot.before()) {
        Some("no `(` is open at this `)`")
    } else if spot.takes_address() {
        Some("write an address after `src` and `dst`, or `host`, `net` or `port` before it")
    } else if last == b"len".as_slice() && is_number(spot.word()) {
        Some(LENGTH)
    } else {
        None
    }
}

/// What helps at a word after `proto`.
fn of_proto<'a>(alloc: Global, spot: Spot<'a>) -> Found<'a> {
    match spot.before_word() {
        Some(gap) if gap.takes(alloc, "\\")? => Ok(Some(Advice::Round(
            "after `proto` a name has a backslash: write `\\",
            spot.word(),
            "`",
        ))),
        _ => of_other_word(alloc, spot),
    }
}

/// What is said where `and` would join what is not meant: `len` after a protocol, and a second
/// protocol.
fn said_of_joint(spot: Spot<'_>) -> Option<&'static str> {
    if spot.word() == b"len".as_slice() && OVER_ETHERNET.contains(&spot.last()) {
        Some(
            "`len` is the length of the frame, and `ip[2:2]` that of the IPv4 packet: neither goes after a protocol",
        )
    } else if TRANSPORTS.contains(&spot.word()) && TRANSPORTS.contains(&spot.last()) {
        Some(
            "a packet has one of these protocols: join them by `or` in parentheses, as in `(tcp or udp) and port 53`",
        )
    } else {
        None
    }
}

/// What helps at a term that nothing joins to the one before it.
fn of_joint<'a>(alloc: Global, spot: Spot<'a>) -> Found<'a> {
    if let Some(said) = said_of_joint(spot) {
        return Ok(Some(Advice::Said(said)));
    }
    if spot.token() == b"-".as_slice() {
        return Ok(None);
    }
    match spot.before_word() {
        Some(gap) if gap.takes(alloc, "and ")? => Ok(Some(Advice::Round(
            "write `and` or `or` before `",
            spot.token(),
            said_after_joint(spot, spot.after_word()),
        ))),
        _ => Ok(None),
    }
}

/// What helps at a side or a protocol after the word that it goes before, as in `port src 80`.
fn of_exchanged<'a>(alloc: Global, spot: Spot<'a>) -> Found<'a> {
    let (last, word) = (spot.last(), spot.word());
    let is_side = BEFORE_PORTS.contains(&word);
    let is_exchanged = match last {
        b"port" | b"portrange" => is_side || TRANSPORTS.contains(&word),
        b"host" | b"net" => is_side,
        _ => false,
    };
    let next = after_blanks(spot.after_word());
    if !is_exchanged || !next.first().is_some_and(|first| first.is_ascii_hexdigit()) {
        return Ok(None);
    }
    let instead = Instead::Valued("", word, last);
    advise_instead(alloc, spot, spot.start_of_last(), spot.end(), instead)
}

/// What helps at a token after which, or before which, something is written otherwise here.
fn of_other_form<'a>(alloc: Global, spot: Spot<'a>) -> Found<'a> {
    if let Some(advice) = of_exchanged(alloc, spot)? {
        return Ok(Some(advice));
    }
    if let Some(advice) = of_comparison(alloc, spot, "!= 0 ")? {
        return Ok(Some(advice));
    }
    if let Some(advice) = of_ip_broadcast(spot) {
        return Ok(Some(advice));
    }
    if let Some(advice) = of_range(alloc, spot)? {
        return Ok(Some(advice));
    }
    if let Some(advice) = of_net(alloc, spot)? {
        return Ok(Some(advice));
    }
    if let Some(advice) = of_mask(alloc, spot)? {
        return Ok(Some(advice));
    }
    if let Some(advice) = of_missing_part(alloc, spot)? {
        return Ok(Some(advice));
    }
    of_joint(alloc, spot)
}

/// What helps at a colon that no token follows here, or at a comparison without its left side.
fn of_missing_part<'a>(alloc: Global, spot: Spot<'a>) -> Found<'a> {
    if let Some(advice) = of_endpoint(alloc, spot)? {
        return Ok(Some(advice));
    }
    if let Some(advice) = of_other_range(alloc, spot)? {
        return Ok(Some(advice));
    }
    if let Some(advice) = of_single_sign(alloc, spot)? {
        return Ok(Some(advice));
    }
    of_sign(alloc, spot)
}

/// What helps at a token with which no expression can go on.
fn of_token<'a>(alloc: Global, spot: Spot<'a>) -> Result<Advice<'a>, AllocError> {
    if let Some(advice) = of_compared(alloc, spot)? {
        return Ok(advice);
    }
    let advice = if spot.last() == PROTO {
        of_proto(alloc, spot)?
    } else {
        of_other_form(alloc, spot)?
    };
    Ok(match (advice, operand_at(spot)) {
        (Some(advice), _) => advice,
        (None, Some(said)) => Advice::Said(said),
        (None, None) => Advice::Round("unexpected `", spot.token(), "`"),
    })
}

/// What helps if no expression can go on with the text at a place, or end there.
fn of_syntax<'a>(alloc: Global, spot: Spot<'a>) -> Result<Advice<'a>, AllocError> {
    if !spot.rest().is_empty() {
        return of_token(alloc, spot);
    }
    if let Some(advice) = of_comparison(alloc, spot, " != 0")? {
        return Ok(advice);
    }
    Ok(Advice::Said(said_at_end(spot)))
}

/// What is said of an expression that ends too early.
fn said_at_end(spot: Spot<'_>) -> &'static str {
    operand_at(spot).unwrap_or(
        "the expression ends too early: `and`, `or` and `not` need a term, and each `(` a `)`",
    )
}

/// What helps at an identifier that has no qualifier.
fn of_no_qualifier<'a>(before: &[u8]) -> Advice<'a> {
    if without_blanks(without_last_word(before)).ends_with(b")") {
        Advice::Said("after `(a or b)` write the qualifier again, as in `(tcp or udp) or port 53`")
    } else {
        Advice::Said("no qualifier to inherit: write `port 80` or `host 192.0.2.1` in full")
    }
}

/// What helps at an address or a name with dots around the place of a fault, whatever the fault is.
fn of_place<'a>(alloc: Global, spot: Spot<'a>) -> Found<'a> {
    if let Some(advice) = of_ipv6(spot) {
        return Ok(Some(advice));
    }
    if let Some(advice) = of_ethernet(alloc, spot)? {
        return Ok(Some(advice));
    }
    of_dots(alloc, spot)
}

/// What helps to fix a text that is refused with this fault, as `parse` returns it. A word is
/// suggested only if the text with it put in is an expression, or reads on past it. There is an
/// advice for each fault but `NoMemory`. The error is that memory was refused, without which a
/// suggestion cannot be tried.
pub fn advise<'a>(
    alloc: Global,
    text: &'a str,
    fault: Fault,
) -> Result<Option<Advice<'a>>, AllocError>
    ensures none { IfOk result (λ found. IsNone found ↔ (fault ≡ Fault.NoMemory)) }
    ensures long { fault ≡ Fault.TextTooLong → IfOk result (λ found. IfSome found (IsSaying long_text)) }
{
    let Some(place) = fault.place() else {
        return Ok(without_place(fault));
    };
    let spot = Spot::new(text, place);
    match of_place(alloc, spot)? {
        Some(advice) => Ok(Some(advice)),
        None => Ok(Some(of_fault(alloc, spot, fault)?)),
    }
}

/// What helps at a fault that has no place.
fn without_place(fault: Fault) -> Option<Advice<'static>>
    ensures none { IsNone result ↔ (fault ≡ Fault.NoMemory) }
    ensures long { fault ≡ Fault.TextTooLong → IfSome result (IsSaying long_text) }
{
    match fault {
        Fault::NoMemory => None,
        _ => Some(Advice::Said(sentence(fault))),
    }
}

/// What helps at the place of a fault.
fn of_fault<'a>(alloc: Global, spot: Spot<'a>, fault: Fault) -> Result<Advice<'a>, AllocError> {
    match fault {
        Fault::BadByte(_) => of_byte(alloc, spot),
        Fault::BadWord(_) => of_word(alloc, spot),
        Fault::BadNumber(_) => {
            let range = of_other_range(alloc, spot)?;
            Ok(range.unwrap_or(of_number(first_word(spot.rest()))))
        }
        Fault::Syntax(_) => of_syntax(alloc, spot),
        Fault::NoQualifier(_) => {
            let operand = of_operand(alloc, spot)?;
            Ok(operand.unwrap_or(of_no_qualifier(spot.before())))
        }
        Fault::BadQualifier(_) => of_qualifier(alloc, spot, fault),
        Fault::BadIdentifier(_) => of_identifier(alloc, spot, fault),
        Fault::NetBits(_) => Ok(Advice::Said(said_of_net(spot).unwrap_or(sentence(fault)))),
        _ => Ok(Advice::Said(sentence(fault))),
    }
}

/// The sentence of a fault for which it is always the same: these, and a text that is too long.
fn sentence(fault: Fault) -> &'static str
    ensures { fault ≡ Fault.TextTooLong → result.now ≡ long_text }
{
    match fault {
        Fault::BadQualifier(_) =>
            "these words do not go together: `(tcp and host 192.0.2.1)`, not `tcp host 192.0.2.1`",
        Fault::BadIdentifier(_) =>
            "`host` takes a whole address, `net` the first parts of one, `port` and `proto` a number",
        Fault::NetBits(_) =>
            "a net's address has no bits outside its mask: write 0 for those, or `host` before one address",
        Fault::OutOfRange(_) =>
            "ports are 0 to 65535, protocols 0 to 255, `ether proto` 1501 to 65535, masks 0 to 32, sizes 1, 2 or 4",
        Fault::DivideByZero(_) => "division by zero",
        Fault::TooNested(_) =>
            "at most 64 of `(`, `[`, `not` and `-` may be open at once: remove parentheses",
        _ =>
            "an expression has at most 8192 bytes: cut it into parts, with a `bpftap cut` for each",
    }
}

/// What helps to fix an expression that has no program: nothing at a bad snapshot length or refused
/// memory.
pub fn advise_refusal(refusal: Refusal) -> Option<Advice<'static>>
    ensures some { IsSome result ↔ ((refusal ≡ Refusal.TooLong) ⊎ (refusal ≡ Refusal.TooDeep)) }
    ensures long { refusal ≡ Refusal.TooLong → result ≡ Some LongProgram }
    ensures deep { refusal ≡ Refusal.TooDeep → IfSome result (IsSaying deep_relation) }
{
    match refusal {
        Refusal::TooLong => Some(Advice::LongProgram),
        Refusal::TooDeep => Some(Advice::Said(DEEP_RELATION)),
        Refusal::BadSnap | Refusal::NoMemory => None,
    }
}
