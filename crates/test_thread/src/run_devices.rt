//! `bpftap run` over devices that break, and over calls that are counted.

use crate::same::same;
use cli_run::run::run;
use savefile::Counted;
use std::fmt::Write as _;
use std::io;
use std::io::{Read, Write};
use std::process::Abort;
use std::sync::Wait;
use std::sync::atomic::AtomicU64;
use std::sync::atomic::Ordering::SeqCst;
use std::thread::Threads;
use test_fixtures::captures::{HEADER, TCP, UDP, concat};
use test_fixtures::devices::{BreakingWriter, PiecesReader, UnflushedWriter};

/// The n-th item, which is there.
fn item<'a, T>(rt: &'a impl Abort, items: &'a [T], n: usize) -> &'a T {
    items.get(n).expect(rt, "there is such an item")
}

/// The first `n` bytes.
fn front<'a>(rt: &'a impl Abort, bytes: &'a [u8], n: usize) -> &'a [u8] {
    bytes.get(..n).expect(rt, "there are enough bytes")
}

/// A device that counts its calls.
#[derive(Drop)]
struct Touched<'a> {
    calls: &'a AtomicU64,
}

impl Read for Touched<'_> {
    fn read(&mut self, _to: &mut [u8]) -> io::Result<usize> {
        self.calls.fetch_add(1, SeqCst);
        Ok(0)
    }
}

impl Write for Touched<'_> {
    fn write(&mut self, from: &[u8]) -> io::Result<usize> {
        self.calls.fetch_add(1, SeqCst);
        Ok(from.len())
    }

    fn flush(&mut self) -> io::Result<()> {
        Ok(())
    }
}

/// A capture of one source for each interface, all of which count their calls together.
fn counting_devices<'a>(
    rt: &(impl Abort + AllocGlobal),
    calls: &'a AtomicU64,
    interfaces: usize,
) -> Vec<Vec<Counted<Touched<'a>>>> {
    let mut captures = Vec::new(rt.alloc());
    for _ in 0..interfaces {
        let mut sources = Vec::new(rt.alloc());
        let source = Counted::new(Touched { calls });
        sources.push(source).expect(rt, "memory");
        captures.push(sources).expect(rt, "memory");
    }
    captures
}

/// The fault that a call over counting devices returns, and how often they were called and how many
/// sinks were made.
fn call_touched<R: Abort + AllocGlobal + Threads + Wait + Sync>(
    rt: &R,
    listeners: &[u8],
    interfaces: usize,
) -> (String, u64, u64) {
    let alloc = rt.alloc();
    let (calls, made) = (AtomicU64::new(0), AtomicU64::new(0));
    let captures = counting_devices(rt, &calls, interfaces);
    let mut out: Vec<u8> = Vec::new(alloc);
    let mut err: Vec<u8> = Vec::new(alloc);
    let make = |_: &str| {
        made.fetch_add(1, SeqCst);
        Counted::new(Touched { calls: &calls })
    };
    let (status, sinks) = run(rt, listeners, captures, make, &mut out, &mut err);
    same(rt, (status, out.len(), sinks.len()), (1, 0, 0));
    let told = String::from_utf8(err).expect(rt, "standard error is text");
    (told, calls.load(SeqCst), made.load(SeqCst))
}

/// LISTENERS, how many interfaces there are, the fault, and how many sinks were made.
type Refused = (&'static [u8], usize, &'static str, u64);

static REFUSED: [Refused; 5] = [
    (b"0 0 64 96 1 a\n1 0 64 96 1", 2, "bpftap: Listeners 2\n", 0),
    (
        b"0 0 64 96 1 a\n0 0 64 96 1 b x",
        1,
        "bpftap: Expression 1 BadWord 0\n",
        0,
    ),
    (b"0 0 64 96 0 a\n", 1, "bpftap: Open 0 0 BadCapacity\n", 1),
    (
        b"0 0 64 96 1 a\n1 0 64 95 1 b",
        2,
        "bpftap: Open 1 0 BadCapacity\n",
        2,
    ),
    (b"0 0 64 96 1 a\n", 17, "bpftap: TooMany\n", 1),
];

/// A run is refused so, and no device is touched.
fn is_refused(rt: &(impl Abort + AllocGlobal + Threads + Wait + Sync), row: Refused) {
    let (listeners, interfaces, fault, sinks) = row;
    let (told, calls, made) = call_touched(rt, listeners, interfaces);
    same(rt, (told.as_str(), calls, made), (fault, 0, sinks));
}

#[test]
fn no_device_is_touched_where_a_run_is_refused(rt: HostRuntime) {
    for row in REFUSED.iter() {
        is_refused(&rt, *row);
    }
}

/// One interface of these sources, each of which gives five bytes a call and breaks at its end
/// where it says so.
fn in_pieces<'a>(
    rt: &(impl Abort + AllocGlobal),
    sources: &[(&'a [u8], bool)],
) -> Vec<Vec<Counted<PiecesReader<'a>>>> {
    let mut captures = Vec::new(rt.alloc());
    for (left, breaks) in sources {
        let source = PiecesReader {
            left: *left,
            piece: 5,
            breaks: *breaks,
        };
        captures.push(Counted::new(source)).expect(rt, "memory");
    }
    let mut interfaces = Vec::new(rt.alloc());
    interfaces.push(captures).expect(rt, "memory");
    interfaces
}

/// This many listeners that lose nothing.
fn ample_lines(rt: &(impl Abort + AllocGlobal), listeners: usize) -> String {
    let mut lines = String::new(rt.alloc());
    for l in 0..listeners {
        write!(lines, "0 0 0 1048576 2 {l}\n").expect(rt, "memory");
    }
    lines
}

/// What was reported, the status, and what each sink took.
#[derive(Drop)]
struct BrokenRun {
    told: String,
    status: u8,
    written: Vec<Vec<u8>>,
}

/// What each sink took.
fn taken_by(rt: &(impl Abort + AllocGlobal), sinks: Vec<Counted<BreakingWriter>>) -> Vec<Vec<u8>> {
    let mut written = Vec::new(rt.alloc());
    for sink in sinks {
        written.push(sink.into_inner().taken).expect(rt, "memory");
    }
    written
}

/// Replays interfaces by these lines to sinks of this much room each.
fn broken_by<R: Abort + AllocGlobal + Threads + Wait + Sync>(
    rt: &R,
    interfaces: Vec<Vec<Counted<PiecesReader<'_>>>>,
    listeners: &[u8],
    rooms: &[usize],
    out: &mut impl Write,
) -> BrokenRun {
    let alloc = rt.alloc();
    let mut err: Vec<u8> = Vec::new(alloc);
    let mut rooms = rooms.iter();
    let make = |_: &str| {
        Counted::new(BreakingWriter {
            taken: Vec::new(alloc),
            room: *rooms.next().unwrap_or(&0),
        })
    };
    let (status, sinks) = run(rt, listeners, interfaces, make, out, &mut err);
    BrokenRun {
        told: String::from_utf8(err).expect(rt, "standard error is text"),
        status,
        written: taken_by(rt, sinks),
    }
}

/// Replays one interface of these sources to sinks of this much room each, into an output.
fn run_broken<R: Abort + AllocGlobal + Threads + Wait + Sync>(
    rt: &R,
    sources: &[(&[u8], bool)],
    rooms: &[usize],
    out: &mut impl Write,
) -> BrokenRun {
    let interfaces = in_pieces(rt, sources);
    let listeners = ample_lines(rt, rooms.len());
    broken_by(rt, interfaces, listeners.as_bytes(), rooms, out)
}

/// This was reported, with this status.
fn told(rt: &impl Abort, broken: &BrokenRun, line: &str, status: u8) {
    same(rt, (broken.told.as_str(), broken.status), (line, status));
}

/// More than any test writes.
const AMPLE: usize = 1 << 20;

/// How many bytes of the second source can be read, how many packets arrive, and how many bytes are
/// written.
static SOURCES: [(usize, usize, usize); 4] = [(81, 2, 132), (77, 1, 78), (23, 1, 78), (0, 1, 78)];

#[test]
fn a_broken_source_is_reported_after_its_packets(rt: HostRuntime) {
    let whole = concat(rt.alloc(), &[HEADER, TCP]).expect(&rt, "memory");
    let more = concat(rt.alloc(), &[HEADER, UDP, "000000"]).expect(&rt, "memory");
    same(&rt, more.len(), 81);
    for (given, packets, length) in SOURCES.iter() {
        let second = front(&rt, more.as_slice(), *given);
        breaks_behind(&rt, whole.as_slice(), second, *packets, *length);
    }
}

/// A source that breaks after what it has of its capture, between two whole ones: this many packets
/// arrive, and this many bytes are written.
fn breaks_behind(
    rt: &(impl Abort + AllocGlobal + Threads + Wait + Sync),
    whole: &[u8],
    second: &[u8],
    packets: usize,
    length: usize,
) {
    let mut out: Vec<u8> = Vec::new(rt.alloc());
    let sources = [(whole, false), (second, true), (whole, false)];
    let broken = run_broken(rt, &sources, &[AMPLE], &mut out);
    told(rt, &broken, "bpftap: Interface 0 Capture 1 Device\n", 3);
    let written = item(rt, broken.written.as_slice(), 0).len();
    same(rt, written, length);
    is_clean(rt, out.as_slice(), packets);
}

/// The line of a listener that took this many packets.
fn is_clean(rt: &(impl Abort + AllocGlobal), out: &[u8], packets: usize) {
    let line = format!(in rt.alloc();
        "interface 0 listener 0 received {packets} matched {packets} dropped 0 written {packets} Clean\n"
    );
    same(rt, out, line.expect(rt, "memory").as_bytes());
}

/// The room of a sink, and how many packets it takes whole.
static ROOMS: [(usize, usize); 8] = [
    (0, 0),
    (1, 0),
    (23, 0),
    (24, 0),
    (77, 0),
    (78, 1),
    (100, 1),
    (185, 2),
];

/// A sink with this much room takes this many packets of a text and the bytes that it has room for,
/// and the other one takes all.
fn breaks_at(
    rt: &(impl Abort + AllocGlobal + Threads + Wait + Sync),
    text: &[u8],
    room: usize,
    packets: usize,
) {
    let mut out: Vec<u8> = Vec::new(rt.alloc());
    let broken = run_broken(rt, &[(text, false)], &[room, AMPLE], &mut out);
    told(rt, &broken, "", 3);
    lines_end(rt, out, room, packets);
    took(rt, broken.written.as_slice(), 0, front(rt, text, room));
    took(rt, broken.written.as_slice(), 1, text);
}

#[test]
fn a_broken_sink_is_reported_by_its_bytes(rt: HostRuntime) {
    let text = concat(rt.alloc(), &[HEADER, TCP, UDP, TCP]).expect(&rt, "memory");
    for (room, packets) in ROOMS.iter() {
        breaks_at(&rt, text.as_slice(), *room, *packets);
    }
}

/// Checks what the n-th sink took.
fn took(rt: &impl Abort, written: &[Vec<u8>], n: usize, wanted: &[u8]) {
    same(rt, item(rt, written, n).as_slice(), wanted);
}

/// The line of the first of two listeners, whose sink broke, ends so; the other one's is whole.
fn lines_end(rt: &(impl Abort + AllocGlobal), out: Vec<u8>, room: usize, packets: usize) {
    let ends = format!(in rt.alloc(); " dropped 0 written {packets} Write {room}").expect(
        rt, "memory",
    );
    let out = String::from_utf8(out).expect(rt, "standard output is text");
    let (first, second) = out.split_once('\n').expect(rt, "there are two lines");
    ends_so(rt, first, ends.as_str());
    let whole = "interface 0 listener 1 received 3 matched 3 dropped 0 written 3 Clean\n";
    same(rt, second, whole);
}

/// How many packets arrived before the drain was found closed is the threads' to say.
fn ends_so(rt: &impl Abort, line: &str, ends: &str) {
    let begins = "interface 0 listener 0 received ";
    assert!(rt; line.starts_with(begins), "{line}");
    assert!(rt; line.ends_with(ends), "{line}");
}

/// An output with this much room is reported, and then the torn capture, whose packet was written.
fn is_not_taken(rt: &(impl Abort + AllocGlobal + Threads + Wait + Sync), torn: &[u8], room: usize) {
    let taken = Vec::new(rt.alloc());
    let mut out = BreakingWriter { taken, room };
    let broken = run_broken(rt, &[(torn, false)], &[AMPLE], &mut out);
    let wanted = "bpftap: Device standard output\nbpftap: Interface 0 Capture 0 TornRecord 1\n";
    told(rt, &broken, wanted, 3);
    took(rt, broken.written.as_slice(), 0, front(rt, torn, 78));
}

#[test]
fn an_output_that_breaks_is_a_device_fault(rt: HostRuntime) {
    let torn = concat(rt.alloc(), &[HEADER, TCP, "00"]).expect(&rt, "memory");
    for room in [0, 5, 69] {
        is_not_taken(&rt, torn.as_slice(), room);
    }
}

#[test]
fn lines_that_are_not_sent_on_are_a_device_fault(rt: HostRuntime) {
    let whole = concat(rt.alloc(), &[HEADER, TCP]).expect(&rt, "memory");
    let taken = Vec::new(rt.alloc());
    let mut out = UnflushedWriter { taken };
    let broken = run_broken(&rt, &[(whole.as_slice(), false)], &[AMPLE], &mut out);
    told(&rt, &broken, "bpftap: Device standard output\n", 3);
    is_clean(&rt, out.taken.as_slice(), 1);
}
