//! Captures that are replayed in threads to the listeners of interfaces: `run`, and the parts that
//! it shares with the command over files.

ghost use Rattle.std.specs.Prelude.{◌≡◌, ◌<◌, ◌≤◌, List, All, IfErr, IfOk, IfSome, length, vec_capacity, vec_len};
ghost use Rattle.line_text.specs.declared.form.LineForm.TheVariants.{Text};
ghost use Rattle.line_text.specs.Sending.{Takes, streams};
ghost use Rattle.cli_text.specs.Telling.{told_line};
ghost use Rattle.cli_text.specs.declared.status.Status.TheVariants.{Refused};
ghost use Rattle.cli_run.specs.Running.{IsNoReplayOf, IsReplayOf, Makes, Runs, RunsTo};
ghost use Rattle.cli_run.specs.Bare.{HaveTheirListeners};
ghost use Rattle.cli_run.specs.Layout.{AreSinksOf, places_of};
ghost use Rattle.cli_run.specs.Replaying.{ReportsRun};

use crate::layout::{interfaces_of, sinks_of};
use crate::plan::{RunLine, fault_text, read_plan};
use crate::report::report_run;
use cli_filter::plan::Plan;
use cli_text::Status;
use cli_text::report::{Outcome, report_line};
use replay::{InterfaceReport, Open, RunFault};
use savefile::{Sink, Source};
use std::alloc::{AllocError, Global};
use std::fmt::Display;
use std::io::Write;
use std::sync::Wait;
use std::thread::Threads;

/// Replays the captures of each interface to its listeners: those of the lines that name it, in
/// their order, each with what its line says and with the program and the sink at its line's place.
/// The reports are those of [`replay::run`].
pub fn replay_plan<R: Source + Send + Drop, W: Sink + Send + Drop, T: Threads + Wait + Sync>(
    rt: &T,
    alloc: Global,
    plan: Plan<RunLine<'_>>,
    captures: Vec<Vec<R>>,
    sinks: Vec<W>,
) -> Result<Vec<InterfaceReport<R, W>>, RunFault>
    requires there { All (λ line. line.interface < length captures.items) plan.lines.items }
    requires programs { length plan.programs.items ≡ length plan.lines.items }
    requires sinks { length sinks.items ≡ length plan.lines.items }
    ensures replayed { IfOk result (λ reports. IsReplayOf R.left R.failures W.taken W.failures plan.entry.lines.items plan.entry.programs.items captures.items sinks.items reports.items) }
    ensures fault { IfErr result (λ fault. IsNoReplayOf plan.entry.lines.items plan.entry.programs.items captures.items sinks.items fault) }
{
    let Plan { lines, programs } = plan;
    let interfaces = interfaces_of(alloc, lines.as_slice(), programs, captures, sinks)?;
    replay::run(rt, alloc, interfaces, &Open)
}

/// What a replay gave, and room for the sinks that are handed back.
#[derive(Drop)]
struct RunResults<R, W> {
    reports: Vec<InterfaceReport<R, W>>,
    /// The number of each line's interface.
    places: Vec<usize>,
    sinks: Vec<W>,
}

/// The sinks of the lines, each made of its OUT.
fn make_sinks<W: Drop, M: FnMut(&str) -> W>(
    alloc: Global,
    lines: &[RunLine<'_>],
    mut make: M,
) -> Result<Vec<W>, AllocError>
    requires { M.IsAlwaysCallable make }
    ensures { IfOk result (λ sinks. (last : M) × Makes M.step make lines.now sinks.items last) }
{
    let mut sinks = Vec::with_capacity(alloc, lines.len())?;
    for line in lines {
        sinks.push(make(line.output))?;
    }
    Ok(sinks)
}

/// Makes the sinks and replays.
fn replay_lines<
    R: Source + Send + Drop,
    W: Sink + Send + Drop,
    M: FnMut(&str) -> W,
    T: Threads + Wait + Sync,
>(
    rt: &T,
    alloc: Global,
    plan: Plan<RunLine<'_>>,
    captures: Vec<Vec<R>>,
    make: M,
) -> Result<RunResults<R, W>, RunFault>
    requires callable { M.IsAlwaysCallable make }
    requires there { All (λ line. line.interface < length captures.items) plan.lines.items }
    requires programs { length plan.programs.items ≡ length plan.lines.items }
    ensures replayed { IfOk result (λ replayed. (sinks : List W) × (last : M) × Makes M.step make plan.entry.lines.items sinks last
        × IsReplayOf R.left R.failures W.taken W.failures plan.entry.lines.items plan.entry.programs.items captures.items sinks replayed.reports.items) }
    ensures places { IfOk result (λ replayed. replayed.places.items ≡ places_of plan.entry.lines.items) }
    ensures room { IfOk result (λ replayed. (vec_len replayed.sinks ≡ 0) × (length plan.entry.lines.items ≤ vec_capacity replayed.sinks)) }
    ensures fault { IfErr result (λ fault. (sinks : List W) × IsNoReplayOf plan.entry.lines.items plan.entry.programs.items captures.items sinks fault) }
{
    let room = Vec::with_capacity(alloc, plan.lines.len())?;
    let places = plan.lines.iter().map(|line| line.interface).collect(alloc)?;
    let made = make_sinks(alloc, plan.lines.as_slice(), make)?;
    Ok(RunResults {
        reports: replay_plan(rt, alloc, plan, captures, made)?,
        places,
        sinks: room,
    })
}

/// Prints and reports how the replay ended, and hands the sinks back.
fn end_run<R: Drop, W: Drop, O: Write, E: Write>(
    replayed: RunResults<R, W>,
    out: &mut O,
    err: &mut E,
) -> (Outcome, Vec<W>)
    requires there { All (λ place. place < length replayed.reports.items) replayed.places.items }
    requires counts { HaveTheirListeners replayed.places.items replayed.reports.items }
    requires room { (vec_len replayed.sinks ≡ 0) × (length replayed.places.items ≤ vec_capacity replayed.sinks) }
    ensures reports { ReportsRun Text replayed.reports.items (streams (O.contents out.old) (E.contents err.old)) (streams (O.contents out.new) (E.contents err.new)) result.0 }
    ensures all { length result.1.items ≡ length replayed.places.items }
    ensures back { AreSinksOf replayed.places.items replayed.reports.items result.1.items }
{
    let RunResults {
        reports,
        places,
        sinks,
    } = replayed;
    let outcome = report_run(reports.as_slice(), out, err);
    (outcome, sinks_of(reports, places.as_slice(), sinks))
}

/// Reports why there is no replay. The status is [`Status::Refused`].
pub fn refuse<E: Write, D: Display + Drop>(fault: D, err: &mut E) -> Outcome
    ensures tells { IfSome (D.output fault) (λ text. Takes (E.contents err.old) (E.contents err.new) result.told (told_line text)) }
    ensures status { result.status ≡ Refused }
{
    Outcome {
        status: Status::Refused,
        told: report_line(fault, err),
    }
}

/// [`run`], with whether standard error took what was reported.
pub fn run_told<
    R: Source + Send + Drop,
    W: Sink + Send + Drop,
    M: FnMut(&str) -> W,
    O: Write,
    E: Write,
    T: AllocGlobal + Threads + Wait + Sync,
>(
    rt: &T,
    listeners: &[u8],
    captures: Vec<Vec<R>>,
    make: M,
    out: &mut O,
    err: &mut E,
) -> (Outcome, Vec<W>)
    requires { M.IsAlwaysCallable make }
    ensures { Runs R.left R.failures W.taken W.failures M.step make listeners.now captures.items
        (streams (O.contents out.old) (E.contents err.old)) (streams (O.contents out.new) (E.contents err.new)) result.0 result.1.items }
{
    let alloc = rt.alloc();
    let plan = match read_plan(alloc, listeners, captures.len()) {
        Ok(plan) => plan,
        Err(fault) => return (refuse(fault_text(fault), err), Vec::new(alloc)),
    };
    match replay_lines(rt, alloc, plan, captures, make) {
        Ok(replayed) => end_run(replayed, out, err),
        Err(fault) => (refuse(fault, err), Vec::new(alloc)),
    }
}

/// Replays captures in threads to the listeners of interfaces, each of which writes what it keeps
/// as a capture. It prints a line for each listener, by interface: what it received, matched,
/// dropped and wrote, and how that ended.
///
/// Each interface has a list of captures, which arrive one after the other. A line of LISTENERS is
/// `INTERFACE FLUSH SNAP CAPACITY SPARES OUT EXPRESSION`: the number of the interface, from 0;
/// after how many arrivals the listener is flushed each time, 0 for never; how many bytes of a
/// packet are kept at most, 0 for 262,144; the size in bytes of each of the listener's buffers,
/// with an `i` after it for the mode Immediate; how many buffers go round between the listener and
/// its writer, 1 to 64; the path of the capture, of which `make` makes a sink; and the filter,
/// which may be empty. Captures are written little-endian, with microseconds.
///
/// A bad line is reported as `Listeners N`, N from 1: it lacks this form, names an interface that
/// does not exist, or has the OUT of an earlier line. After that come the expressions:
/// `Expression N` or `Compile N`, N from 0. After one of these and after a [`RunFault`] no sink is
/// returned, nothing is printed and the exit status is 1. No source is read either: that is tested,
/// not proved.
///
/// Otherwise the sinks are returned in the order of the lines, and the exit status is the greatest
/// of these: 0; 1 if an interface's capture has no header of a savefile, its memory or that of
/// `out` ran out, its arrivals cannot be counted further, or a listener is `Unfinished`; 2 if a
/// capture ended with a record fault; 3 if a source, a sink or `out` failed. A fault of a capture
/// is reported as `Interface I Capture N fault`; one of a sink only by the end `Write B`, B being
/// the bytes that it took.
pub fn run<
    R: Source + Send + Drop,
    W: Sink + Send + Drop,
    M: FnMut(&str) -> W,
    O: Write,
    E: Write,
    T: AllocGlobal + Threads + Wait + Sync,
>(
    rt: &T,
    listeners: &[u8],
    captures: Vec<Vec<R>>,
    make: M,
    out: &mut O,
    err: &mut E,
) -> (u8, Vec<W>)
    requires { M.IsAlwaysCallable make }
    ensures { RunsTo R.left R.failures W.taken W.failures M.step make listeners.now captures.items
        (streams (O.contents out.old) (E.contents err.old)) (streams (O.contents out.new) (E.contents err.new)) result.0 result.1.items }
{
    let (outcome, sinks) = run_told(rt, listeners, captures, make, out, err);
    (outcome.status.code(), sinks)
}
