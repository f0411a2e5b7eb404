//! `bpftap steps` into an output that takes all and sends nothing on.

use crate::same::same;
use cli_steps::steps::{Detail, Printing, StepsReplay};
use line_text::LineForm;
use std::process::Abort;
use tap_text::plan::{StepsPlan, read_plan};
use test_fixtures::captures::{HEADER, bytes_of};
use test_fixtures::devices::UnflushedWriter;

/// What `steps` prints is a device fault if it is not sent on, and was taken.
fn is_a_fault(rt: &(impl Abort + AllocGlobal), plan: &StepsPlan, header: &[u8], detail: Detail) {
    let taken = Vec::new(rt.alloc());
    let mut out = UnflushedWriter { taken };
    let mut err: Vec<u8> = Vec::new(rt.alloc());
    let captures = [header];
    let replay = StepsReplay {
        plan,
        captures: &captures,
    };
    let form = LineForm::Text;
    let (outcome, _) = replay.play(rt.alloc(), Printing { form, detail }, &mut out, &mut err);
    let line = b"bpftap: Device standard output\n";
    same(
        rt,
        (err.as_slice(), outcome.status.code()),
        (line.as_slice(), 3),
    );
    assert!(rt; out.taken.ends_with(b"held\n"));
}

#[test]
fn reports_that_are_not_sent_on_are_a_device_fault(rt: HostRuntime) {
    let header = bytes_of(rt.alloc(), HEADER).expect(&rt, "memory");
    let plan = read_plan(rt.alloc(), b"32 64", b"arrive").expect(&rt, "both are read");
    is_a_fault(&rt, &plan, header.as_slice(), Detail::Reports);
    is_a_fault(&rt, &plan, header.as_slice(), Detail::Trace);
    is_a_fault(&rt, &plan, header.as_slice(), Detail::Answers);
}
