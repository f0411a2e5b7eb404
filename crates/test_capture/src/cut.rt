//! Captures that are cut over devices that give or take little at a time, and break.

use crate::same::{same, same_in};
use crate::split::text_of;
use bpfvm::Program;
use cli_cut::report::tell;
use cli_filter::filter;
use pcap_cut::cut::{CutEnd, End, Tally, cut};
use savefile::{Counted, Fault, Header, Order, Unit};
use std::alloc::Global;
use std::process::Abort;
use test_fixtures::captures::{ARP_RECORD, HEADER, IP_RECORD};
use test_fixtures::devices::{BreakingWriter, PiecesReader};
use test_fixtures::frames::capture;

/// The header of what is written, in which packets are kept whole.
pub(crate) const WHOLE: Header = Header {
    order: Order::Little,
    unit: Unit::Micro,
    snap: 0,
};

const ALL: &[u8] = b"1\n6 0 0 262144\n";

const ETHERTYPE: &[u8] = b"4\n40 0 0 12\n21 0 1 2048\n6 0 0 262144\n6 0 0 0\n";

fn program_of(rt: &(impl Abort + AllocGlobal), listing: &[u8]) -> Program {
    filter(rt.alloc(), Some(listing), None, 0).expect(rt, "the listing is a program's")
}

/// What a cut of a text gives: what was written, its number of bytes as reported, the line on
/// standard error, the status.
#[derive(Drop)]
struct Seen {
    written: Vec<u8>,
    sent: u64,
    err: Vec<u8>,
    status: u8,
}

fn seen_of<R: Drop>(alloc: Global, end: CutEnd<R, Counted<Vec<u8>>>) -> Seen {
    let mut err = Vec::new(alloc);
    let status = tell(&end, "in.pcap", "out.pcap", &mut err);
    Seen {
        written: end.sink.into_inner(),
        sent: end.sent,
        err,
        status,
    }
}

/// Checks what was written, its reported length, and the fault's line and status.
fn check(rt: &impl Abort, what: &str, seen: &Seen, written: &[u8], err: &str, status: u8) {
    same_in(rt, what, seen.written.as_slice(), written);
    same_in(rt, what, seen.err.as_slice(), err.as_bytes());
    let wanted = (written.len() as u64, status);
    same_in(rt, what, (seen.sent, seen.status), wanted);
}

/// Checks the line and the status of an end that no capture shows.
fn is_told_of(rt: &(impl Abort + AllocGlobal), end: End, line: &str, status: u8) {
    let end = CutEnd {
        source: (),
        sink: (),
        sent: 0,
        tally: Tally::NONE,
        end,
    };
    is_told(rt, &end, line, status);
}

#[test]
fn faults_that_no_capture_shows_are_reported(rt: HostRuntime) {
    let device = End::Output(Fault::Device);
    is_told_of(&rt, End::Input(Fault::NoMemory), "bpftap: NoMemory\n", 1);
    is_told_of(&rt, End::Output(Fault::CountFull), "bpftap: CountFull\n", 1);
    is_told_of(&rt, device, "bpftap: Device out.pcap\n", 3);
}

/// A cut of a source that gives this many bytes a call, and breaks when it has none left.
fn cut_pieces<'a>(
    rt: &(impl Abort + AllocGlobal),
    left: &'a [u8],
    piece: usize,
    breaks: bool,
) -> CutEnd<Counted<PiecesReader<'a>>, Counted<Vec<u8>>> {
    let alloc = rt.alloc();
    let from = Counted::new(PiecesReader {
        left,
        piece,
        breaks,
    });
    let to = Counted::new(Vec::new(alloc));
    let program = program_of(rt, ALL);
    cut(alloc, from, &program, WHOLE, to)
}

/// How many bytes a source gives a call, and in all before it breaks, and how many are written.
static BREAKS: [(usize, usize, usize); 10] = [
    (1, 0, 0),
    (7, 10, 0),
    (1000, 23, 0),
    (1000, 24, 24),
    (7, 41, 24),
    (1, 53, 24),
    (1000, 54, 54),
    (1000, 57, 54),
    (7, 57, 54),
    (1000, 84, 84),
];

/// The first `n` bytes.
fn front<'a>(rt: &impl Abort, text: &'a [u8], n: usize) -> &'a [u8] {
    text.get(..n).expect(rt, "there are enough bytes")
}

/// The packets before the break are written, and nothing if the header was not read.
fn breaks_behind(rt: &(impl Abort + AllocGlobal), text: &[u8], row: (usize, usize, usize)) {
    let (piece, given, written) = row;
    let end = cut_pieces(rt, front(rt, text, given), piece, true);
    let ended = (end.end, end.source.failures);
    same(rt, ended, (End::Input(Fault::Device), 1));
    let seen = seen_of(rt.alloc(), end);
    let written = front(rt, text, written);
    let line = "bpftap: Device in.pcap\n";
    check(rt, "a broken source", &seen, written, line, 3);
}

#[test]
fn a_broken_source_is_reported_after_its_packets(rt: HostRuntime) {
    let text = text_of(&rt, &[HEADER, ARP_RECORD, IP_RECORD]);
    same(&rt, text.len(), 84);
    for row in BREAKS.iter() {
        breaks_behind(&rt, text.as_slice(), *row);
    }
}

/// A text that comes in pieces of this many bytes is written whole.
fn is_copied(rt: &(impl Abort + AllocGlobal), text: &[u8], piece: usize) {
    let end = cut_pieces(rt, text, piece, false);
    same(rt, end.end, End::Clean);
    let seen = seen_of(rt.alloc(), end);
    check(rt, "real frames", &seen, text, "", 0);
}

#[test]
fn real_frames_are_copied_in_pieces_of_any_size(rt: HostRuntime) {
    let text = capture(rt.alloc()).expect(&rt, "memory");
    for piece in [1, 2, 17, 61, 62, 63, text.len()] {
        is_copied(&rt, text.as_slice(), piece);
    }
}

/// Checks the end of a cut into a sink that broke, or had room for all.
fn ends_so(
    rt: &(impl Abort + AllocGlobal),
    end: &CutEnd<Counted<&[u8]>, Counted<BreakingWriter>>,
    breaks: bool,
) {
    let (failures, wanted, line, status) = if breaks {
        (
            1,
            End::Output(Fault::Device),
            "bpftap: Device out.pcap\n",
            3,
        )
    } else {
        (0, End::Clean, "", 0)
    };
    same(rt, (end.sink.failures, end.end), (failures, wanted));
    is_told(rt, end, line, status);
}

/// A sink with this much room has a prefix of what is wanted, and breaks once, unless it has room
/// for all.
fn has_beginning_at(rt: &(impl Abort + AllocGlobal), text: &[u8], wanted: &[u8], room: usize) {
    let program = program_of(rt, ETHERTYPE);
    let end = cut_into(rt.alloc(), text, &program, room);
    has_beginning(rt, &end, wanted, room);
    ends_so(rt, &end, room < wanted.len());
}

#[test]
fn a_broken_sink_has_a_beginning(rt: HostRuntime) {
    let text = text_of(&rt, &[HEADER, ARP_RECORD, IP_RECORD]);
    let wanted = text_of(&rt, &[HEADER, IP_RECORD]);
    for room in 0..wanted.len() + 1 {
        has_beginning_at(&rt, text.as_slice(), wanted.as_slice(), room);
    }
}

/// A cut of a text into a sink of this much room.
fn cut_into<'a>(
    alloc: Global,
    text: &'a [u8],
    program: &Program,
    room: usize,
) -> CutEnd<Counted<&'a [u8]>, Counted<BreakingWriter>> {
    let taken = Vec::new(alloc);
    let to = Counted::new(BreakingWriter { taken, room });
    let from = Counted::new(text);
    cut(alloc, from, program, WHOLE, to)
}

/// Checks that the sink took this many bytes, the first ones of those wanted, and that they were
/// counted.
fn has_beginning<R>(
    rt: &impl Abort,
    end: &CutEnd<R, Counted<BreakingWriter>>,
    wanted: &[u8],
    room: usize,
) {
    let taken = end.sink.inner.taken.as_slice();
    same(rt, (end.sent, taken.len()), (room as u64, room));
    assert!(rt; wanted.starts_with(taken), "at {room}");
}

/// Checks the line that is reported for an end, and the status.
fn is_told<R, W>(rt: &(impl Abort + AllocGlobal), end: &CutEnd<R, W>, line: &str, wanted: u8) {
    let mut err: Vec<u8> = Vec::new(rt.alloc());
    let status = tell(end, "in.pcap", "out.pcap", &mut err);
    same(rt, (err.as_slice(), status), (line.as_bytes(), wanted));
}
