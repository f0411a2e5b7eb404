//! The tap: captures, specs and steps in, reports out.
use crate::common::{HEAD, HEADER, SIXTIES, TCP, UDP, joined, listed, same};
use filtergen::Refusal;
use listener::{Message, Mode, OpenFault};
use replay::{InterfaceEnd, RunFault, TaskEnd};
use std::process::Abort;
use tap::{Fault, Filter, Report, Spec, Step, replay};

/// Adds messages by capture, place, time and length.
fn add_messages(rt: &impl Abort, out: &mut String, messages: &[Message]) {
    for message in messages {
        let Message {
            capture,
            place,
            sec,
            nanos,
            len,
            bytes,
        } = message;
        let kept = bytes.as_slice().len();
        write!(out, "{capture}.{place} at {sec}.{nanos} {len}:{kept} ").expect(rt, "memory");
    }
}

/// The first report of a replay has these counts, and as text these batches and held messages; the replay ends with this fault.
fn reports(
    rt: &(impl Abort + AllocGlobal),
    captures: &[&[u8]],
    spec: Spec,
    steps: &[Step],
    want: ([u64; 3], &str, Option<(u32, savefile::Fault)>),
) {
    let replayed = replay(rt.alloc(), captures, &[spec], steps);
    let (reports, fault) = replayed.expect(rt, "reports");
    let report: &Report = reports.as_slice().get(0).expect(rt, "a report");
    let mut out = String::new(rt.alloc());
    for batch in report.batches.iter() {
        add_messages(rt, &mut out, batch.as_slice());
        out.push_str("| ").expect(rt, "memory");
    }
    add_messages(rt, &mut out, report.held.as_slice());
    let counts = [report.received, report.matched, report.dropped];
    same(rt, (counts, out.as_str(), fault), want);
}

/// A listener to an expression.
fn spec(
    rt: &(impl Abort + AllocGlobal),
    text: &str,
    snap: u32,
    capacity: usize,
    mode: Mode,
) -> Spec {
    let text = String::from_str(rt.alloc(), text).expect(rt, "memory");
    Spec {
        filter: Filter::Text(text),
        snap,
        capacity,
        mode,
    }
}

/// Steps of listener 0: an arrival, a flush, a read and a close.
const A: Step = Step::Arrive;

const F: Step = Step::Flush(0);

const R: Step = Step::Read(0);

const C: Step = Step::Close(0);

#[test]
fn reports_follow_the_plain_list_of_the_listener(rt: HostRuntime) {
    let file = joined(&rt, &SIXTIES);
    let captures = [file.as_slice()];
    let mixed = [A, A, A, A, R, A, R, A, C, A, R];
    let rows = [
        (
            "",
            Mode::Buffered,
            mixed.as_slice(),
            [6, 6, 0],
            "0.0 at 1.0 60:32 0.1 at 2.0 60:32 | 0.2 at 3.0 60:32 0.3 at 4.0 60:32 | 0.4 at 5.0 60:32 0.5 at 6.0 60:32 ",
        ),
        (
            "",
            Mode::Immediate,
            mixed.as_slice(),
            [6, 6, 1],
            "0.0 at 1.0 60:32 | 0.1 at 2.0 60:32 0.2 at 3.0 60:32 | 0.4 at 5.0 60:32 0.5 at 6.0 60:32 ",
        ),
        (
            "less 59",
            Mode::Buffered,
            [A, A, F, R].as_slice(),
            [2, 0, 0],
            "",
        ),
    ];
    for (text, mode, steps, counts, want) in rows {
        let one = spec(&rt, text, 32, 128, mode);
        reports(&rt, &captures, one, steps, (counts, want, None));
    }
}

#[test]
fn captures_form_one_playlist_up_to_the_first_torn_one(rt: HostRuntime) {
    let both = joined(&rt, &[HEADER, HEAD, TCP, HEAD, UDP]);
    let bad = "01000000 40420f00 00000000 00000000";
    let torn = joined(&rt, &[HEADER, HEAD, TCP, bad]);
    let captures = [both.as_slice(), torn.as_slice(), both.as_slice()];
    let steps = [A, A, F, A, A, R];
    let fault = Some((1, savefile::Fault::BadFraction(1)));
    let first = spec(&rt, "tcp", 10, 48, Mode::Buffered);
    let want = "0.0 at 1.0 38:10 | 1.0 at 1.0 38:10 ";
    reports(&rt, &captures, first, &steps, ([3, 2, 0], want, fault));
    let second = Spec {
        filter: Filter::Program(listed(&rt, "1\n6 0 0 20")),
        snap: 30,
        capacity: 640,
        mode: Mode::Buffered,
    };
    let want = "0.0 at 1.0 38:20 0.1 at 1.0 38:20 | 1.0 at 1.0 38:20 ";
    reports(&rt, &captures, second, &steps, ([3, 3, 0], want, fault));
}

#[test]
fn the_first_fault_of_a_replay_is_named(rt: HostRuntime) {
    let deep = "1+(1+(1+(1+(1+(1+(1+(1+(1+(1+(1+(1+(1+(1+(1+(1+(1+1)))))))))))))))) = 18";
    let text_fault = Fault::Expression(1, filterlang::Fault::NoQualifier(8));
    let short = Fault::Capture(1, savefile::Fault::ShortHeader);
    let capacity = Fault::Open(1, OpenFault::BadCapacity);
    // The second capture has this header; the second listener is this one; the second step reads from a listener.
    let rows = [
        ("", "tcp and 80", 0, 0, 5, Some(Fault::NoListener(1))),
        ("", "tcp and 80", 0, 0, 1, Some(short)),
        (HEADER, "tcp and 80", 0, 0, 1, Some(text_fault)),
        (
            HEADER,
            "tcp",
            0,
            0,
            1,
            Some(Fault::Compile(1, Refusal::BadSnap)),
        ),
        (
            HEADER,
            deep,
            32,
            0,
            1,
            Some(Fault::Compile(1, Refusal::TooDeep)),
        ),
        (HEADER, "tcp", 10, 47, 1, Some(capacity)),
        (HEADER, "tcp", 10, 48, 1, None),
    ];
    for (header, text, snap, capacity, listener, want) in rows {
        let (first, second) = (joined(&rt, &[HEADER]), joined(&rt, &[header]));
        let captures = [first.as_slice(), second.as_slice()];
        let specs = [
            spec(&rt, "", 32, 64, Mode::Buffered),
            spec(&rt, text, snap, capacity, Mode::Buffered),
        ];
        let steps = [A, Step::Read(listener), Step::Close(listener)];
        let found = replay(rt.alloc(), &captures, &specs, &steps).err();
        same(&rt, found, want);
    }
}

#[test]
fn what_no_test_provokes_has_its_name(rt: HostRuntime) {
    let (savefile, full) = (savefile::Fault::NoMemory, savefile::Fault::CountFull);
    let (listing, parse) = (bpfvm::NoMemory, filterlang::Fault::NoMemory);
    let (compile, long) = (Refusal::NoMemory, Refusal::TooLong);
    let (open, tap, many) = (OpenFault::NoMemory, Fault::NoMemory, Fault::TooMany);
    let (start, task, interface) = (
        RunFault::NoStart,
        TaskEnd::Unfinished,
        InterfaceEnd::CountFull,
    );
    let text = format!(in rt.alloc();
        "{savefile:?} {full:?} {listing:?} {parse:?} {compile:?} {long:?} {open:?} {tap:?} {many:?} {start:?} {task:?} {interface:?}"
    );
    same(
        &rt,
        text.expect(&rt, "memory").as_str(),
        "NoMemory CountFull NoMemory NoMemory NoMemory TooLong NoMemory NoMemory TooMany NoStart Unfinished CountFull",
    );
}
