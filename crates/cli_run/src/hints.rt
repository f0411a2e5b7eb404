//! Hints on how `bpftap run` ended, below the lines of its faults.

use crate::plan::RunLine;
use crate::tally::Output;
use cli_filter::plan::{PlanFault, read_lines};
use cli_report::failures::hint_source;
use cli_report::files::{hint_capacity, hint_reason};
use cli_report::probe::ProbedInput;
use cli_report::stream::give_hint;
use cli_report::{FailureProbe, HintSink};
use cli_watch::hints::is_asked;
use listener::OpenFault;
use replay_types::{
    InterfaceEnd, InterfaceReport, ListenerReport, MAX_CAPTURES, MAX_INTERFACES, MAX_SPARES,
    MAX_TASKS, RunFault, TaskEnd,
};
use std::alloc::Global;
use std::io::Write;

/// Whether an expression of these lines asks anything of a packet.
pub(crate) fn asks_packets(lines: &[RunLine<'_>]) -> bool {
    lines.iter().any(|line| is_asked(line.expression))
}

/// Hints on why there is no replay.
pub(crate) fn hint_refused<E: HintSink>(
    alloc: Global,
    listeners: &[u8],
    interfaces: usize,
    fault: RunFault,
    err: &mut E,
) {
    match fault {
        RunFault::TooMany => give_hint(
            format_args!(
                "a run takes at most {MAX_INTERFACES} interfaces, each of {MAX_TASKS} listeners and {MAX_CAPTURES} captures"
            ),
            err,
        ),
        RunFault::Open(interface, listener, OpenFault::BadCapacity) => {
            if let Some(line) = line_of(alloc, listeners, interfaces, interface, listener) {
                hint_unopened(&line, err);
            }
        }
        _ => {}
    }
}

/// The line of the listener of this number of an interface.
fn line_of<'p>(
    alloc: Global,
    listeners: &'p [u8],
    interfaces: usize,
    interface: u32,
    listener: u32,
) -> Option<RunLine<'p>> {
    let lines: Result<Vec<RunLine<'p>>, PlanFault> = read_lines(
        alloc,
        listeners,
        interfaces,
        usize::MAX,
    );
    let lines = lines.ok()?;
    let mut own = lines
        .iter()
        .filter(|line| line.interface == interface as usize);
    own.nth(listener as usize).copied()
}

/// Hints on the line of a listener that is not opened.
fn hint_unopened<E: HintSink>(line: &RunLine<'_>, err: &mut E) {
    if line.spares < 1 || line.spares > MAX_SPARES {
        give_hint(
            format_args!("SPARES is 1 to {MAX_SPARES}, not {}", line.spares),
            err,
        );
    } else {
        hint_capacity(line.snap, line.capacity, err);
    }
}

/// Hints on a capture that a listener could not write.
fn hint_sink<W: Write + Drop, E: HintSink>(
    interface: usize,
    listener: usize,
    report: &ListenerReport<Output<FailureProbe<W>>>,
    err: &mut E,
) {
    if let (TaskEnd::Write(_), Some(error)) = (
        report.end,
        report.sink.inner.get_ref().get_ref().failure(),
    ) {
        give_hint(
            format_args!("interface {interface} listener {listener}:"),
            err,
        );
        hint_reason(&error, err);
    }
}

/// Hints on the captures that the listeners of an interface could not write.
fn hint_sinks<W: Write + Drop, E: HintSink>(
    interface: usize,
    listeners: &[ListenerReport<Output<FailureProbe<W>>>],
    err: &mut E,
) {
    for (listener, report) in listeners.iter().enumerate() {
        hint_sink(interface, listener, report, err);
    }
}

/// Hints on how the interfaces ended, each of which has these captures.
pub(crate) fn hint_run<R, W: Write + Drop, E: HintSink>(
    inputs: &[Vec<&str>],
    reports: &[InterfaceReport<ProbedInput<R>, Output<FailureProbe<W>>>],
    err: &mut E,
) {
    for (interface, (report, paths)) in reports.iter().zip(inputs).enumerate() {
        if let InterfaceEnd::Capture(n, fault) = report.end {
            hint_source(
                paths.as_slice(),
                report.sources.as_slice(),
                n as usize,
                fault,
                err,
            );
        }
        hint_sinks(interface, report.listeners.as_slice(), err);
    }
}
