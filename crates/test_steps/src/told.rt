//! The outcome of `steps_told` says that reporting failed if standard error fails, and only then.

use crate::same::same;
use cli_steps::steps::{StepsTexts, steps_told};
use std::process::Abort;
use test_fixtures::captures::{HEADER, TCP, concat};
use test_fixtures::devices::BreakingWriter;

/// LISTENERS, SCRIPT, what comes after the header of the capture, and what is reported.
type Played = (&'static str, &'static str, &'static str, &'static str);

static PLAYED: [Played; 5] = [
    ("32 64", "arrive", TCP, ""),
    ("32 64", "arrive", "00", "bpftap: Capture 0 TornRecord 0\n"),
    ("32", "arrive", TCP, "bpftap: Listeners 1\n"),
    ("32 64", "arrives", TCP, "bpftap: Script 1\n"),
    ("32 64", "read 1", TCP, "bpftap: NoListener 0\n"),
];

/// Whether all was reported on a standard error with this much room, which took what it has room
/// for.
fn is_told(rt: &(impl Abort + AllocGlobal), played: Played, room: usize) -> bool {
    let (listeners, script, packets, reported) = played;
    let capture = concat(rt.alloc(), &[HEADER, packets]).expect(rt, "memory");
    let mut out: Vec<u8> = Vec::new(rt.alloc());
    let taken = Vec::new(rt.alloc());
    let mut err = BreakingWriter { taken, room };
    let texts = StepsTexts {
        listeners: listeners.as_bytes(),
        script: script.as_bytes(),
        captures: &[capture.as_slice()],
    };
    let outcome = steps_told(rt.alloc(), texts, &mut out, &mut err);
    let front = reported.as_bytes().get(..room).expect(rt, "enough bytes");
    same(rt, err.taken.as_slice(), front);
    outcome.told.is_ok()
}

#[test]
fn steps_report_an_error_only_if_standard_error_fails(rt: HostRuntime) {
    for played in PLAYED.iter() {
        let (_, _, _, reported) = played;
        for room in 0..=reported.len() {
            same(&rt, is_told(&rt, *played, room), room == reported.len());
        }
    }
}
