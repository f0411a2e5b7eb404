//! Captures that are split, and devices that break.

mod caller;
mod telling;

use crate::same::{same, same_in};
use cli_filter::filter;
use cli_split::part::{Part, PartEnd};
use cli_split::split::{SplitEnd, Stop, split};
use savefile::{Counted, Fault, Order, Unit};
use std::alloc::Global;
use std::process::Abort;
use test_fixtures::captures::{HEADER, TCP, UDP, concat};
use test_fixtures::devices::{BreakingWriter, PiecesReader};

/// A part with an expression, and a sink that has room for this many bytes.
fn part(
    rt: &(impl Abort + AllocGlobal),
    expr: &str,
    snap: u32,
    room: usize,
) -> Part<Counted<BreakingWriter>> {
    let alloc = rt.alloc();
    Part {
        program: filter(alloc, None, Some(expr), snap).expect(rt, "the expression has a program"),
        snap,
        sink: Counted::new(BreakingWriter {
            taken: Vec::new(alloc),
            room,
        }),
    }
}

/// More room than a text here takes.
const ROOM: usize = 4096;

type Split<'a> = SplitEnd<Counted<PiecesReader<'a>>, Counted<BreakingWriter>>;

/// A source that gives seven bytes at a time.
fn source(text: &[u8], breaks: bool) -> Counted<PiecesReader<'_>> {
    Counted::new(PiecesReader {
        left: text,
        piece: 7,
        breaks,
    })
}

/// Such sources, of which the last one breaks at its end if that is asked.
fn sources<'a>(
    rt: &(impl Abort + AllocGlobal),
    texts: &[&'a [u8]],
    breaks: bool,
) -> Vec<Counted<PiecesReader<'a>>> {
    let mut captures = Vec::new(rt.alloc());
    let last = texts.len();
    for (n, text) in texts.iter().enumerate() {
        let capture = source(*text, breaks && n + 1 == last);
        captures.push(capture).expect(rt, "memory");
    }
    captures
}

/// Splits captures, of which the last one breaks at its end if that is asked, to these parts.
fn split_to<'a>(
    rt: &(impl Abort + AllocGlobal),
    texts: &[&'a [u8]],
    breaks: bool,
    parts: TestParts,
) -> Split<'a> {
    let captures = sources(rt, texts, breaks);
    split(rt.alloc(), captures, parts, Order::Little, Unit::Micro).expect(rt, "memory")
}

/// The n-th item, which is there.
pub(crate) fn item<'a, T>(rt: &'a impl Abort, items: &'a [T], n: usize) -> &'a T {
    items.get(n).expect(rt, "there is such an item")
}

/// The first `n` bytes.
fn front<'a>(rt: &'a impl Abort, bytes: &'a [u8], n: usize) -> &'a [u8] {
    bytes.get(..n).expect(rt, "there are enough bytes")
}

/// The result of the n-th part.
fn part_at<'a>(
    rt: &'a impl Abort,
    end: &'a Split<'_>,
    n: usize,
) -> &'a PartEnd<Counted<BreakingWriter>> {
    item(rt, end.parts.as_slice(), n)
}

/// Checks that no byte of the n-th capture was read.
fn check_unread(rt: &impl Abort, end: &Split<'_>, n: usize, text: &[u8]) {
    same(rt, item(rt, end.sources.as_slice(), n).inner.left, text);
}

/// The bytes of some texts of hexadecimal digits, one after the other.
pub(crate) fn text_of(rt: &(impl Abort + AllocGlobal), texts: &[&str]) -> Vec<u8> {
    concat(rt.alloc(), texts).expect(rt, "memory")
}

fn took(
    rt: &impl Abort,
    what: &str,
    part: &PartEnd<Counted<BreakingWriter>>,
    wanted: &[u8],
    written: Result<(), Fault>,
) {
    same_in(rt, what, part.sink.inner.taken.as_slice(), wanted);
    let wanted = (wanted.len() as u64, written);
    same_in(rt, what, (part.sent, part.written), wanted);
}

/// Checks the result of a part: what its sink took, and whether all was written.
fn check(
    rt: &(impl Abort + AllocGlobal),
    what: &str,
    part: &PartEnd<Counted<BreakingWriter>>,
    wanted: &[&str],
    written: Result<(), Fault>,
) {
    let text = text_of(rt, wanted);
    took(rt, what, part, text.as_slice(), written);
}

/// Checks how the reading ended.
fn check_end(rt: &impl Abort, end: &Split<'_>, wanted: Result<(), Stop>) {
    same(rt, end.end, wanted);
}

fn check_tally(
    rt: &impl Abort,
    what: &str,
    part: &PartEnd<Counted<BreakingWriter>>,
    of: (u64, u64),
) {
    same_in(rt, what, (part.tally.written, part.tally.read), of);
}

type TestParts = Vec<Part<Counted<BreakingWriter>>>;

fn push_part(
    rt: &(impl Abort + AllocGlobal),
    parts: &mut TestParts,
    expr: &str,
    snap: u32,
    room: usize,
) {
    parts.push(part(rt, expr, snap, room)).expect(rt, "memory");
}

/// Three parts: TCP, UDP of which 20 bytes are kept, and all.
fn three_parts(rt: &(impl Abort + AllocGlobal), room: usize) -> TestParts {
    let mut parts = Vec::new(rt.alloc());
    push_part(rt, &mut parts, "tcp", 0, room);
    push_part(rt, &mut parts, "udp", 20, ROOM);
    push_part(rt, &mut parts, "", 0, ROOM);
    parts
}

/// The header of a capture of which 20 bytes are kept.
const HEADER_20: &str = "d4c3b2a1 02000400 00000000 00000000 14000000 01000000";

/// The first 20 bytes of the UDP frame.
const KEPT_UDP: &str =
    "02000000 00000000 14000000 26000000 ffffffffffff 000102030405 0800 450000180000";

/// The first part took these bytes and broke, and the others took all.
fn has_broken(rt: &(impl Abort + AllocGlobal), end: &Split<'_>, taken: &[&str]) {
    check_end(rt, end, Ok(()));
    check(rt, "tcp", part_at(rt, end, 0), taken, Err(Fault::Device));
    let udp = &[HEADER_20, KEPT_UDP];
    check(rt, "udp", part_at(rt, end, 1), udp, Ok(()));
    let all = &[HEADER, TCP, TCP, UDP];
    check(rt, "all", part_at(rt, end, 2), all, Ok(()));
    check_tally(rt, "all", part_at(rt, end, 2), (3, 3));
}

/// Splits two captures to three parts. The first has room for this many bytes: it takes these, and
/// the others take all.
fn check_broken(rt: &(impl Abort + AllocGlobal), room: usize, taken: &[&str]) {
    let first = text_of(rt, &[HEADER, TCP]);
    let second = text_of(rt, &[HEADER, TCP, UDP]);
    let texts = [first.as_slice(), second.as_slice()];
    let end = split_to(rt, &texts, false, three_parts(rt, room));
    has_broken(rt, &end, taken);
}

#[test]
fn a_failing_sink_ends_only_its_part(rt: HostRuntime) {
    // Inside the header, inside the first record and inside the second one.
    check_broken(&rt, 3, &["d4c3b2"]);
    check_broken(&rt, 26, &[HEADER, "0100"]);
    check_broken(&rt, 24 + 54 + 1, &[HEADER, TCP, "01"]);
}

/// This many TCP packets were read when the second of three captures ended the reading, and the
/// third was not read.
fn has_stopped(rt: &impl Abort, end: &Split<'_>, stop: Stop, tcp: u64, third: &[u8]) {
    check_end(rt, end, Err(stop));
    check_tally(rt, "tcp", part_at(rt, end, 0), (tcp, tcp));
    check_tally(rt, "udp", part_at(rt, end, 1), (0, tcp));
    same(rt, end.sources.len(), 3);
    check_unread(rt, end, 2, third);
}

/// Splits three captures, of which the second is this text: it ends the reading, after this many
/// TCP packets, and the third is not read.
fn check_second(rt: &(impl Abort + AllocGlobal), text: &[u8], stop: Stop, tcp: u64) {
    let good = text_of(rt, &[HEADER, TCP]);
    let texts = [good.as_slice(), text, good.as_slice()];
    let end = split_to(rt, &texts, false, three_parts(rt, ROOM));
    has_stopped(rt, &end, stop, tcp, good.as_slice());
}

#[test]
fn an_unreadable_second_capture_ends_the_reading(rt: HostRuntime) {
    let bad = "0a0d0d0a 00000000 00000000 00000000 00000000 00000000";
    let bad = text_of(&rt, &[bad]);
    let stop = Stop::AtHeader(1, Fault::NotSavefile);
    check_second(&rt, bad.as_slice(), stop, 1);
    check_second(&rt, b"", Stop::AtHeader(1, Fault::ShortHeader), 1);
    let torn = text_of(&rt, &[HEADER, TCP, "0100"]);
    let stop = Stop::AtRecord(1, Fault::TornRecord(1));
    check_second(&rt, torn.as_slice(), stop, 2);
}

/// Splits a capture, and a source that breaks after a text.
fn split_broken<'a>(
    rt: &(impl Abort + AllocGlobal),
    first: &'a [u8],
    second: &'a [u8],
) -> Split<'a> {
    split_to(rt, &[first, second], true, three_parts(rt, ROOM))
}

/// It broke in its second record, after a TCP packet.
fn broke_in_a_record(rt: &(impl Abort + AllocGlobal), end: Split<'_>) {
    check_end(rt, &end, Err(Stop::AtRecord(1, Fault::Device)));
    check(rt, "tcp", part_at(rt, &end, 0), &[HEADER, TCP], Ok(()));
    let all = &[HEADER, UDP, TCP];
    check(rt, "all", part_at(rt, &end, 2), all, Ok(()));
}

fn broke_in_a_header(rt: &(impl Abort + AllocGlobal), end: Split<'_>) {
    check_end(rt, &end, Err(Stop::AtHeader(1, Fault::Device)));
    check(rt, "all", part_at(rt, &end, 2), &[HEADER, UDP], Ok(()));
}

#[test]
fn a_source_that_breaks_ends_the_reading_after_its_packets(rt: HostRuntime) {
    let first = text_of(&rt, &[HEADER, UDP]);
    let first = first.as_slice();
    let torn = text_of(&rt, &[HEADER, TCP, "0100"]);
    broke_in_a_record(&rt, split_broken(&rt, first, torn.as_slice()));
    broke_in_a_header(&rt, split_broken(&rt, first, front(&rt, first, 23)));
}

/// No part took a byte.
fn took_nothing(rt: &(impl Abort + AllocGlobal), what: &str, end: &Split<'_>) {
    for part in end.parts.as_slice() {
        check(rt, what, part, &[], Ok(()));
    }
}

/// A first capture whose header is torn ends all, and the second is not read.
fn is_refused(rt: &(impl Abort + AllocGlobal), good: &[u8]) {
    let texts = [front(rt, good, 23), good];
    let end = split_to(rt, &texts, false, three_parts(rt, ROOM));
    check_end(rt, &end, Err(Stop::AtHeader(0, Fault::ShortHeader)));
    took_nothing(rt, "refused", &end);
    for part in end.parts.as_slice() {
        check_tally(rt, "refused", part, (0, 0));
    }
    check_unread(rt, &end, 1, good);
}

#[test]
fn nothing_is_written_where_no_header_was_read(rt: HostRuntime) {
    is_refused(&rt, text_of(&rt, &[HEADER, TCP]).as_slice());
}

#[test]
fn nothing_is_written_of_no_capture(rt: HostRuntime) {
    let end = split_to(&rt, &[], false, three_parts(&rt, ROOM));
    check_end(&rt, &end, Ok(()));
    took_nothing(&rt, "no capture", &end);
}
