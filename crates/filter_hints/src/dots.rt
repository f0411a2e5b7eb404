//! What helps at a name with dots.

use crate::addresses::is_dotted;
use crate::advice::{Advice, Found};
use crate::comparisons::{NEITHER, joins_value};
use crate::flags::of_index;
use display_filters::{is_field, of_field};
use filter_spots::{Run, Spot, after_blanks, first_word, port_of};
use std::alloc::Global;

/// What is said of a display filter for whose words nothing else is written here.
const DISPLAY_FILTER: &str =
    "this looks like a display filter of Wireshark, for which no words are known here: `bpftap help expressions` has the language, and tshark -r IN -Y FILTER -F nsecpcap -w OUT may take it";

/// What is said after the name of a capture.
const CAPTURE: &str =
    "` is the name of a capture, and no filter: bpftap info IN and explain -e EXPR IN take one, compare two filters before it; cmp compares two captures, and tshark -t e -x prints their packets to be compared";

/// What is said of a net of a display filter that has bits outside its mask.
const NET: &str =
    "a net's address has no bits outside its mask here: write 0 for those, as in `ip net 192.0.2.0/24`";

/// Fields whose value may be a net.
static ADDRESSES: [&[u8]; 4] = [b"ip.addr", b"ip.src", b"ip.dst", b"ip.host"];

/// Signs and words that ask for a value, or for all but one.
static SIGNS: [&[u8]; 5] = [b"==", b"!=", b"=", b"eq", b"ne"];

/// How the names of captures end.
static CAPTURES: [&[u8]; 3] = [b".pcap", b".pcapng", b".cap"];

/// How the names of files end that have a listing or an expression.
static FILTER_FILES: [&[u8]; 3] = [b".bpf", b".txt", b".filter"];

/// Whether a text is a name with dots in it, which a field is and a host's name may be.
fn has_dots(name: &[u8]) -> bool {
    let begins = match name.first() {
        Some(first) => first.is_ascii_alphabetic(),
        None => false,
    };
    begins && name.contains(&b'.') && !name.ends_with(b".") && !name.contains(&b':')
}

/// Whether a name is that of a capture.
fn is_capture(name: &[u8]) -> bool {
    CAPTURES.iter().any(|end| name.ends_with(*end))
}

/// Whether a name is that of a file that has a listing or an expression.
fn is_filter_file(name: &[u8]) -> bool {
    FILTER_FILES.iter().any(|end| name.ends_with(*end))
}

/// Whether a net is at the front of a text: an address, and how many bits its mask has.
fn begins_with_net(text: &[u8]) -> bool {
    let address = first_word(text);
    match text.get(address.len()..).unwrap_or(&[]).strip_prefix(b"/") {
        Some(mask) => is_dotted(address)
            && port_of(first_word(mask)).is_some_and(|bits| bits <= 32),
        None => false,
    }
}

/// Whether a text begins with a sign or a word that asks for a net, or for all but one.
fn is_net_compared(text: &[u8]) -> bool {
    let text = after_blanks(text);
    SIGNS.iter().any(|sign| match text.strip_prefix(*sign) {
        Some(value) => begins_with_net(after_blanks(value)),
        None => false,
    })
}

/// Whether a text begins with a sign that asks for another value, and goes on with one more.
fn asks_for_neither(text: &[u8]) -> bool {
    let text = after_blanks(text);
    let Some(value) = text
        .strip_prefix(b"!=")
        .or_else(|| text.strip_prefix(b"ne "))
    else {
        return false;
    };
    let value = after_blanks(value);
    joins_value(value.get(first_word(value).len()..).unwrap_or(&[]))
}

/// What helps at a field of a display filter: what is written for it, or that there are no words.
fn of_display_filter<'a>(alloc: Global, spot: Spot<'a>, field: Run<'a>) -> Found<'a> {
    if let Some(advice) = of_index(alloc, spot, field)? {
        return Ok(Some(advice));
    }
    let end = field.start.saturating_add(field.bytes.len());
    if asks_for_neither(spot.at(end).rest()) {
        return Ok(Some(Advice::Said(NEITHER)));
    }
    let is_address = ADDRESSES.contains(&field.bytes);
    match of_field(alloc, spot, field)? {
        Some(advice) => Ok(Some(Advice::Display(advice))),
        None if is_address && is_net_compared(spot.at(end).rest()) => Ok(Some(Advice::Said(NET))),
        None => Ok(Some(Advice::Said(DISPLAY_FILTER))),
    }
}

/// What helps at the path of a capture, if that is all of the text.
fn of_path<'a>(spot: Spot<'a>) -> Option<Advice<'a>> {
    let text = spot.at(0).rest();
    if text.contains(&b'/') && !text.contains(&b' ') && is_capture(text) {
        Some(Advice::Round("`", text, CAPTURE))
    } else {
        None
    }
}

/// The name around a place: in brackets without the size after it.
fn name_at<'a>(spot: Spot<'a>) -> Run<'a> {
    let run = spot.run();
    let is_index = spot.at(run.start).before().ends_with(b"[");
    match run.bytes.iter().position(|byte| *byte == b':') {
        Some(colon) if is_index => Run {
            start: run.start,
            bytes: &run.bytes[..colon],
        },
        _ => run,
    }
}

/// What helps at a name with dots: a field, or the name of a capture, of a file with a filter, or
/// of a host.
pub(crate) fn of_dots<'a>(alloc: Global, spot: Spot<'a>) -> Found<'a> {
    if let Some(advice) = of_path(spot) {
        return Ok(Some(advice));
    }
    let run = name_at(spot);
    let end = run.start.saturating_add(run.bytes.len());
    let after = spot.at(end).rest();
    let first = spot.at(run.start);
    if !has_dots(run.bytes) || (first.takes_only_name() && !first.takes_address()) {
        return Ok(None);
    }
    if is_capture(run.bytes) {
        return Ok(Some(Advice::Round("`", run.bytes, CAPTURE)));
    }
    if is_filter_file(run.bytes) {
        return Ok(Some(Advice::Round(
            "`",
            run.bytes,
            "` is the name of a file: a listing goes after -f, and an expression is read from a file by \"$(cat FILE)\"",
        )));
    }
    if first.takes_address() || !is_field(run.bytes, after) {
        return Ok(Some(Advice::host(run.bytes)));
    }
    of_display_filter(alloc, spot, run)
}
