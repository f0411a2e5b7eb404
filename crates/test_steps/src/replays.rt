//! `tap`: what its calls answer that `bpftap steps` does not show.

mod caller;

use crate::same::same;
use bpfvm::read_listing;
use filtergen::Refusal;
use listener::{Fed, Message, Mode, OpenFault};
use std::process::Abort;
use std::rt::Env;
use tap::{Answer, Fault, Filter, Report, Spec, Step, Trace, replay, trace};

/// Little-endian, microseconds, snapshot length 262,144, Ethernet.
const HEADER: [u8; 24] = [
    0xd4, 0xc3, 0xb2, 0xa1, 2, 0, 4, 0, 0, 0, 0, 0, 0, 0, 0, 0, 0, 0, 4, 0, 1, 0, 0, 0,
];

/// A frame of 38 bytes: UDP from 10.0.0.1 to 10.0.0.2, port 53 to port 53.
const UDP: [u8; 38] = [
    0xff, 0xff, 0xff, 0xff, 0xff, 0xff, 0, 1, 2, 3, 4, 5, 8, 0, 0x45, 0, 0, 0x18, 0, 0, 0, 0, 0x40,
    0x11, 0, 0, 10, 0, 0, 1, 10, 0, 0, 2, 0, 0x35, 0, 0x35,
];

/// The header of a capture.
fn header(rt: &(impl Abort + AllocGlobal)) -> Vec<u8> {
    Vec::from_slice(rt.alloc(), &HEADER).expect(rt, "memory")
}

/// Appends a record at a second, of a packet of these bytes, as many as `len`.
fn put_record(rt: &(impl Abort + AllocGlobal), text: &mut Vec<u8>, sec: u8, len: u8, data: &[u8]) {
    text.extend_from_slice(&[sec, 0, 0, 0, 0, 0, 0, 0, len, 0, 0, 0, len, 0, 0, 0])
        .expect(rt, "memory");
    text.extend_from_slice(data).expect(rt, "memory");
}

/// A capture of this many packets of 60 zeros, at second 1, 2, ..
fn zeros(rt: &(impl Abort + AllocGlobal), packets: u8) -> Vec<u8> {
    let mut text = header(rt);
    for i in 0..packets {
        put_record(rt, &mut text, i.wrapping_add(1), 60, &[0; 60]);
    }
    text
}

/// The frame with the protocol TCP.
fn tcp() -> [u8; 38] {
    let mut frame = UDP;
    frame[23] = 6;
    frame
}

/// A capture of one TCP frame, at second 1.
fn one_tcp(rt: &(impl Abort + AllocGlobal)) -> Vec<u8> {
    let mut text = header(rt);
    put_record(rt, &mut text, 1, 38, &tcp());
    text
}

fn wanted(
    rt: &(impl Abort + AllocGlobal),
    expression: &str,
    snap: u32,
    capacity: usize,
    mode: Mode,
) -> Spec {
    Spec {
        filter: Filter::Text(String::from_str(rt.alloc(), expression).expect(rt, "memory")),
        snap,
        capacity,
        mode,
    }
}

/// The places of messages.
fn places(rt: &(impl Abort + AllocGlobal), messages: &[Message]) -> Vec<u64> {
    messages
        .iter()
        .map(|m| m.place)
        .collect(rt.alloc())
        .expect(rt, "memory")
}

/// What became of the packets that arrived.
fn fates(rt: &(impl Abort + AllocGlobal), trace: &Trace, l: usize) -> Vec<Fed> {
    let mut fates = Vec::new(rt.alloc());
    for answered in at(rt, trace.answers.as_slice(), l) {
        if let Answer::Arrived(fed) = answered.answer {
            fates.push(fed).expect(rt, "memory");
        }
    }
    fates
}

/// This became of the packets that arrived at the first listener.
fn has_fates(rt: &(impl Abort + AllocGlobal), trace: &Trace, want: &[Fed]) {
    same(rt, fates(rt, trace, 0).as_slice(), want);
}

/// The item at a place, if there is one.
fn at<'a, T>(rt: &(impl Abort + AllocGlobal), items: &'a [T], place: usize) -> &'a T {
    items.get(place).expect(rt, "an item")
}

fn counts(report: &Report) -> (u64, u64, u64) {
    (report.received, report.matched, report.dropped)
}

/// The places of a batch's messages are these.
fn has_batch(rt: &(impl Abort + AllocGlobal), report: &Report, batch: usize, want: &[u64]) {
    let batch = at(rt, report.batches.as_slice(), batch);
    same(rt, places(rt, batch.as_slice()).as_slice(), want);
}

/// The places of the messages that are held are these.
fn holds(rt: &(impl Abort + AllocGlobal), report: &Report, want: &[u64]) {
    same(rt, places(rt, report.held.as_slice()).as_slice(), want);
}

/// A program that keeps 32 bytes of each packet.
fn keeping_32(rt: &impl Abort) -> Filter {
    Filter::Program(read_listing(b"1\n6 0 0 32\n").expect(rt, "a program"))
}

/// Of four packets the third is dropped, and the others are kept with 32 bytes each.
fn drops_the_third(rt: &(impl Abort + AllocGlobal), report: &Report) {
    same(rt, counts(report), (4, 4, 1));
    same(rt, report.batches.len(), 1);
    has_batch(rt, report, 0, &[0]);
    holds(rt, report, &[1, 3]);
    let last = at(rt, report.held.as_slice(), 1);
    same(rt, last.bytes.as_slice().len(), 32);
    same(rt, (last.sec, last.nanos, last.len), (4, 0, 60));
}

/// Four packets, of which the listener has read the first before the fourth arrives.
static ROTATING: [Step; 5] = [
    Step::Arrive,
    Step::Arrive,
    Step::Arrive,
    Step::Read(0),
    Step::Arrive,
];

static ROTATED: [Fed; 4] = [Fed::Stored, Fed::Rotated, Fed::Dropped, Fed::Rotated];

fn rotates_and_drops(rt: &(impl Abort + AllocGlobal), spec: Spec) {
    let text = zeros(rt, 4);
    let steps = ROTATING.as_slice();
    let trace = trace(rt.alloc(), &[text.as_slice()], &[spec], steps).expect(rt, "a trace");
    drops_the_third(rt, at(rt, trace.reports.as_slice(), 0));
    has_fates(rt, &trace, ROTATED.as_slice());
    assert!(rt; trace.record_fault.is_none());
}

/// A spec of a program that keeps 32 bytes.
fn keeping(rt: &impl Abort, snap: u32, capacity: usize) -> Spec {
    Spec {
        filter: keeping_32(rt),
        snap,
        capacity,
        mode: Mode::Buffered,
    }
}

#[test]
fn four_packets_rotate_and_drop(rt: HostRuntime) {
    rotates_and_drops(&rt, wanted(&rt, "", 32, 64, Mode::Buffered));
    rotates_and_drops(&rt, keeping(&rt, 64, 96));
}

type ReplayAnswer = Result<(Vec<Report>, Option<(u32, savefile::Fault)>), Fault>;

/// Both calls report the same of one listener.
fn are_alike(rt: &(impl Abort + AllocGlobal), plain: &ReplayAnswer, trace: &Result<Trace, Fault>) {
    match (plain, trace) {
        (Ok((reports, torn)), Ok(trace)) => {
            let plain = at(rt, reports.as_slice(), 0);
            same(
                rt,
                counts(plain),
                counts(at(rt, trace.reports.as_slice(), 0)),
            );
            same(rt, *torn, trace.record_fault);
        }
        (Err(plain), Err(trace)) => same(rt, plain, trace),
        _ => assert!(rt; false, "one of the two calls refused"),
    }
}

/// A replay of one capture to one listener.
fn replayed(
    rt: &(impl Abort + AllocGlobal),
    text: &[u8],
    spec: Spec,
    steps: &[Step],
) -> Result<Trace, Fault> {
    let specs = [spec];
    let plain = replay(rt.alloc(), &[text], &specs, steps);
    let trace = trace(rt.alloc(), &[text], &specs, steps);
    are_alike(rt, &plain, &trace);
    trace
}

/// A replay of one capture to a listener of all packets, at snapshot length 32.
fn replayed_at_32(
    rt: &(impl Abort + AllocGlobal),
    packets: u8,
    capacity: usize,
    mode: Mode,
    steps: &[Step],
) -> Trace {
    let text = zeros(rt, packets);
    let spec = wanted(rt, "", 32, capacity, mode);
    replayed(rt, text.as_slice(), spec, steps).expect(rt, "a trace")
}

/// The answers to the steps of the first listener, each with its load and its number of held
/// messages.
fn answers(rt: &(impl Abort + AllocGlobal), trace: &Trace) -> Vec<(usize, usize, Answer)> {
    let mut answers = Vec::new(rt.alloc());
    for answered in at(rt, trace.answers.as_slice(), 0) {
        answers
            .push((answered.load, answered.in_hold, answered.answer))
            .expect(rt, "memory");
    }
    answers
}

static CLOSING: [Step; 8] = [
    Step::Arrive,
    Step::Arrive,
    Step::Read(0),
    Step::Flush(0),
    Step::Close(0),
    Step::Arrive,
    Step::Read(0),
    Step::Close(0),
];

/// The answer to each of these steps, with the load and the number of held messages.
static CLOSED: [(usize, usize, Answer); 8] = [
    (0, 0, Answer::Arrived(Fed::Stored)),
    (64, 0, Answer::Arrived(Fed::Stored)),
    (128, 0, Answer::Read(false)),
    (128, 0, Answer::Flushed(true)),
    (0, 2, Answer::Closed),
    (0, 2, Answer::Arrived(Fed::Closed)),
    (0, 2, Answer::Read(false)),
    (0, 2, Answer::Closed),
];

/// Two packets are held, and nothing was read.
fn holds_two(rt: &(impl Abort + AllocGlobal), report: &Report) {
    same(rt, counts(report), (2, 2, 0));
    assert!(rt; report.batches.is_empty());
    holds(rt, report, &[0, 1]);
}

#[test]
fn a_closed_listener_takes_nothing_and_gives_nothing(rt: HostRuntime) {
    let trace = replayed_at_32(&rt, 3, 128, Mode::Buffered, CLOSING.as_slice());
    holds_two(&rt, at(&rt, trace.reports.as_slice(), 0));
    same(&rt, answers(&rt, &trace).as_slice(), CLOSED.as_slice());
}

/// A replay of one TCP frame to a listener of an expression that keeps ten bytes, and a read of it.
fn read_of_tcp(rt: &(impl Abort + AllocGlobal), expression: &str) -> Trace {
    let text = one_tcp(rt);
    let spec = wanted(rt, expression, 10, 48, Mode::Buffered);
    let steps = [Step::Arrive, Step::Flush(0), Step::Read(0)];
    replayed(rt, text.as_slice(), spec, &steps).expect(rt, "a trace")
}

/// One packet was kept with ten bytes.
fn has_ten_bytes(rt: &(impl Abort + AllocGlobal), report: &Report) {
    same(rt, counts(report), (1, 1, 0));
    same(rt, report.batches.len(), 1);
    let message = at(rt, at(rt, report.batches.as_slice(), 0).as_slice(), 0);
    same(rt, message.bytes.as_slice(), &UDP[..10]);
    same(rt, (message.sec, message.nanos, message.len), (1, 0, 38));
}

/// One packet arrived, and the filter rejected it.
fn has_passed_one(rt: &(impl Abort + AllocGlobal), trace: &Trace) {
    same(rt, counts(at(rt, trace.reports.as_slice(), 0)), (1, 0, 0));
    has_fates(rt, trace, &[Fed::Passed]);
}

#[test]
fn an_expression_keeps_what_it_accepts_cut(rt: HostRuntime) {
    let trace = read_of_tcp(&rt, "tcp");
    has_ten_bytes(&rt, at(&rt, trace.reports.as_slice(), 0));
    has_passed_one(&rt, &read_of_tcp(&rt, "udp"));
}

/// Nothing was counted, read or held.
fn has_nothing(rt: &impl Abort, report: &Report) {
    same(rt, counts(report), (0, 0, 0));
    assert!(rt; report.batches.is_empty());
    assert!(rt; report.held.is_empty());
}

/// Nothing arrived at the first listener, which answered two steps.
fn has_no_packet(rt: &(impl Abort + AllocGlobal), trace: &Trace) {
    has_nothing(rt, at(rt, trace.reports.as_slice(), 0));
    same(rt, at(rt, trace.answers.as_slice(), 0).len(), 2);
    assert!(rt; trace.playlist.is_empty());
}

#[test]
fn past_the_last_packet_nothing_arrives(rt: HostRuntime) {
    let steps = [Step::Arrive, Step::Flush(0), Step::Arrive, Step::Read(0)];
    has_no_packet(&rt, &replayed_at_32(&rt, 0, 64, Mode::Buffered, &steps));
}

/// A replay of one TCP frame to one listener is refused so.
fn refuses(rt: &(impl Abort + AllocGlobal), spec: Spec, want: Fault) {
    let text = one_tcp(rt);
    let fault = replayed(rt, text.as_slice(), spec, &[]).err();
    same(rt, fault, Some(want));
}

#[test]
fn a_bad_snapshot_length_is_reported_for_an_expression_and_for_a_program(rt: HostRuntime) {
    for snap in [0, 262_145] {
        let spec = wanted(&rt, "tcp", snap, 0, Mode::Buffered);
        refuses(&rt, spec, Fault::Compile(0, Refusal::BadSnap));
    }
    let spec = keeping(&rt, 262_145, 0);
    refuses(&rt, spec, Fault::Open(0, OpenFault::BadSnap));
}

/// A replay was refused so.
fn is_refused(rt: &impl Abort, answer: ReplayAnswer, want: Fault) {
    match answer {
        Ok(_) => assert!(rt; false, "it was not refused"),
        Err(fault) => same(rt, fault, want),
    }
}

/// The answer to a replay of this many captures, all of them this text, to this many listeners.
fn replay_many(
    rt: &(impl Abort + AllocGlobal),
    listeners: u32,
    captures: usize,
    text: &[u8],
    step: Step,
) -> ReplayAnswer {
    let mut specs = Vec::new(rt.alloc());
    for _ in 0..listeners {
        specs
            .push(wanted(rt, "", 32, 64, Mode::Buffered))
            .expect(rt, "memory");
    }
    let texts = vec![in rt.alloc(); text; captures].expect(rt, "memory");
    replay(rt.alloc(), texts.as_slice(), specs.as_slice(), &[step])
}

/// This many listeners and captures are taken: what is refused is what is checked next, a step that
/// names no listener, and then the first header.
fn are_taken(rt: &(impl Abort + AllocGlobal), listeners: u32, captures: usize) {
    let answer = replay_many(rt, listeners, captures, &HEADER, Step::Read(listeners));
    is_refused(rt, answer, Fault::NoListener(0));
    let answer = replay_many(rt, listeners, captures, &HEADER[..23], Step::Arrive);
    is_refused(rt, answer, Fault::Capture(0, savefile::Fault::ShortHeader));
}

/// This many listeners and captures are too many, whatever else is wrong.
fn are_too_many(rt: &(impl Abort + AllocGlobal), listeners: u32, captures: usize) {
    let answer = replay_many(rt, listeners, captures, &HEADER, Step::Read(listeners));
    is_refused(rt, answer, Fault::TooMany);
    let answer = replay_many(rt, listeners, captures, &HEADER, Step::Arrive);
    is_refused(rt, answer, Fault::TooMany);
}

/// A replay was not refused.
fn is_taken(rt: &impl Abort, answer: ReplayAnswer) {
    assert!(rt; answer.is_ok());
}

/// A replay was not refused, and its first capture is torn in its first record.
fn is_torn(rt: &impl Abort, answer: ReplayAnswer) {
    let (_reports, fault) = answer.expect(rt, "a report");
    same(rt, fault, Some((0, savefile::Fault::TornRecord(0))));
}

#[test]
fn as_many_as_may_be(rt: HostRuntime) {
    are_taken(&rt, 64, 1);
    are_too_many(&rt, 65, 1);
    are_taken(&rt, 1, 65_536);
    are_too_many(&rt, 1, 65_537);
}

// A capture that is read clears half a mebibyte, and after a torn one only headers are read.
#[test]
fn as_many_as_may_be_are_replayed(rt: HostRuntime) {
    is_taken(&rt, replay_many(&rt, 64, 1, &HEADER, Step::Arrive));
    is_taken(&rt, replay_many(&rt, 1, 16, &HEADER, Step::Arrive));
    let mut torn = [0; 25];
    torn[..24].copy_from_slice(&HEADER);
    is_torn(&rt, replay_many(&rt, 1, 65_536, &torn, Step::Arrive));
}
