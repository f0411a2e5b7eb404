//! The outcomes of `run_told` and of `refuse` say that reporting failed if standard error fails,
//! and only then.

use crate::same::same;
use cli_run::run::{refuse, run_told};
use replay_types::RunFault;
use savefile::Counted;
use std::process::Abort;
use std::sync::Wait;
use std::thread::Threads;
use test_fixtures::captures::{HEADER, TCP, concat};
use test_fixtures::devices::{BreakingWriter, PiecesReader};

/// LISTENERS, what comes after the header of the capture, and what is reported.
type Replayed = (&'static str, &'static str, &'static str);

static REPLAYED: [Replayed; 5] = [
    ("0 0 0 1048576 2 a", TCP, ""),
    (
        "0 0 0 1048576 2 a",
        "00",
        "bpftap: Interface 0 Capture 0 TornRecord 0\n",
    ),
    ("0 0 0", TCP, "bpftap: Listeners 1\n"),
    ("0 0 64 96 1 a x", TCP, "bpftap: Expression 0 BadWord 0\n"),
    ("0 0 64 95 1 a", TCP, "bpftap: Open 0 0 BadCapacity\n"),
];

/// The first `n` bytes of a text.
fn front<'a>(rt: &'a impl Abort, text: &'a str, n: usize) -> &'a [u8] {
    text.as_bytes()
        .get(..n)
        .expect(rt, "there are enough bytes")
}

/// A standard error of this much room.
fn of_room(rt: &impl AllocGlobal, room: usize) -> BreakingWriter {
    let taken = Vec::new(rt.alloc());
    BreakingWriter { taken, room }
}

/// One interface of this capture.
fn interface_of<'a>(
    rt: &(impl Abort + AllocGlobal),
    left: &'a [u8],
) -> Vec<Vec<Counted<PiecesReader<'a>>>> {
    let source = PiecesReader {
        left,
        piece: 5,
        breaks: false,
    };
    let mut captures = Vec::new(rt.alloc());
    captures.push(Counted::new(source)).expect(rt, "memory");
    let mut interfaces = Vec::new(rt.alloc());
    interfaces.push(captures).expect(rt, "memory");
    interfaces
}

/// Whether `run_told` reported all on a standard error with this much room, which took what it has
/// room for.
fn is_told<R: Abort + AllocGlobal + Threads + Wait + Sync>(
    rt: &R,
    replayed: Replayed,
    room: usize,
) -> bool {
    let (listeners, packets, reported) = replayed;
    let capture = concat(rt.alloc(), &[HEADER, packets]).expect(rt, "memory");
    let captures = interface_of(rt, capture.as_slice());
    let mut out: Vec<u8> = Vec::new(rt.alloc());
    let mut err = of_room(rt, room);
    let make = |_: &str| Counted::new(of_room(rt, 1 << 20));
    let (outcome, _sinks) = run_told(rt, listeners.as_bytes(), captures, make, &mut out, &mut err);
    same(rt, err.taken.as_slice(), front(rt, reported, room));
    outcome.told.is_ok()
}

#[test]
fn a_run_reports_an_error_only_if_standard_error_fails(rt: HostRuntime) {
    for replayed in REPLAYED.iter() {
        let whole = replayed.2.len();
        for room in [0, whole / 2, whole] {
            same(&rt, is_told(&rt, *replayed, room), room == whole);
        }
    }
}

/// Whether `refuse` reported all on a standard error with this much room.
fn refuses(rt: &(impl Abort + AllocGlobal), fault: RunFault, reported: &str, room: usize) {
    let mut err = of_room(rt, room);
    let outcome = refuse(fault, &mut err);
    same(rt, outcome.told.is_ok(), room == reported.len());
    same(rt, err.taken.as_slice(), front(rt, reported, room));
}

#[test]
fn a_refusal_reports_an_error_only_if_standard_error_fails(rt: HostRuntime) {
    let reported = "bpftap: NoStart\n";
    for room in 0..=reported.len() {
        refuses(&rt, RunFault::NoStart, reported, room);
    }
}
