//! `bpftap run`, over files.

ghost use Rattle.std.specs.Prelude.{◌≡◌, ◌<◌, All, IfOk, length};

use crate::hints::{asks_packets, hint_refused, hint_run};
use crate::paths::{LateFiles, capture_paths, check_paths, late_files};
use crate::plan::{RunLine, fault_text, read_plan};
use crate::reported::replay_fault;
use crate::run::replay_plan;
use crate::tally::report_flushed;
use cli_args::run::RunWords;
use cli_files::captures::output_buffer;
use cli_files::reading::read_text;
use cli_filter::plan::Plan;
use cli_filter::plan_hints::hint_plan;
use cli_report::HintSink;
use cli_report::failures::hint_printed;
use cli_report::files::{LISTENERS_OF_RUN, hint_returns};
use cli_text::Status;
use cli_watch::hints::report_unseen;
use cli_watch::{Screen, Watch};
use fault_report::reporting::{report_fault, report_memory};
use line_text::LineForm;
use replay_types::RunFault;
use std::alloc::Global;
use std::fs::Files;
use std::io::Write;
use std::sync::Wait;
use std::thread::Threads;

/// What LISTENERS asks for; or reports why it is refused.
fn plan_of<'p, E: HintSink>(
    alloc: Global,
    listeners: &'p [u8],
    interfaces: usize,
    err: &mut E,
) -> Result<Plan<RunLine<'p>>, Status>
    ensures there { IfOk result (λ plan. All (λ line. line.interface < interfaces) plan.lines.items) }
    ensures programs { IfOk result (λ plan. length plan.programs.items ≡ length plan.lines.items) }
{
    match read_plan(alloc, listeners, interfaces) {
        Ok(plan) => Ok(plan),
        Err(fault) => {
            let status = report_fault(&fault_text(fault).report(), Status::Refused, err);
            hint_plan::<RunLine<'_>, E>(alloc, listeners, interfaces, LISTENERS_OF_RUN, fault, err);
            Err(status)
        }
    }
}

/// Names the files of a replay. A type parameter will not do for them: that another thread may do
/// what such a file does is shown of a type that is known, and not of one that its trait names.
pub trait NamesFiles: Sized {
    /// The plan of LISTENERS with its files, once it is accepted and the paths are compared; or
    /// reports why it is refused.
    fn named_files<'w, 'r, 'i, 'o, E: HintSink>(
        &'r self,
        words: &RunWords<'i>,
        listeners: &'o [u8],
        watch: &'w Watch<'r, Self>,
        err: &mut E,
    ) -> Result<LateFiles<'w, 'r, 'i, 'o>, Status>;
}

impl NamesFiles for HostRuntime {
    fn named_files<'w, 'r, 'i, 'o, E: HintSink>(
        &'r self,
        words: &RunWords<'i>,
        listeners: &'o [u8],
        watch: &'w Watch<'r, Self>,
        err: &mut E,
    ) -> Result<LateFiles<'w, 'r, 'i, 'o>, Status> {
        let alloc = self.alloc();
        let plan = plan_of(alloc, listeners, words.inputs.len(), err)?;
        check_paths(self, alloc, words, plan.lines.as_slice(), err)?;
        match late_files(self, alloc, words, plan, watch) {
            Ok(late) => Ok(late),
            Err(fault) => Err(report_fault(&replay_fault(fault), Status::Refused, err)),
        }
    }
}

/// Replays the captures, and reports how that ended, with hints; or a fault, and then nothing is
/// reported.
fn replay_files<R: Threads + Wait + Sync + AllocGlobal, O: Write, E: HintSink>(
    rt: &R,
    words: &RunWords<'_>,
    late: LateFiles<'_, '_, '_, '_>,
    out: &mut O,
    err: &mut E,
) -> Result<Status, RunFault> {
    let LateFiles {
        plan,
        captures,
        sinks,
        watch,
    } = late;
    let is_counting = err.takes_hints() && asks_packets(plan.lines.as_slice());
    let replayed = replay_plan(rt, rt.alloc(), plan, captures, sinks);
    watch.erase();
    let mut reports = replayed?;
    let (form, inputs) = (LineForm::asked(words.json), words.inputs.as_slice());
    let status = report_flushed(form, inputs, reports.as_mut_slice(), out, err);
    hint_run(inputs, reports.as_slice(), err);
    if is_counting {
        let _ = report_unseen(watch.frames(), status, err);
    }
    Ok(status)
}

/// Reports why there is no replay, with a hint.
fn report_refused<E: HintSink>(
    alloc: Global,
    words: &RunWords<'_>,
    listeners: &[u8],
    fault: RunFault,
    err: &mut E,
) -> Status {
    let status = report_fault(&replay_fault(fault), Status::Refused, err);
    hint_refused(alloc, listeners, words.inputs.len(), fault, err);
    status
}

/// What is seen of the captures, whose frames are counted if hints are wanted; or reports that
/// memory ran out.
fn watch_of<'r, R: Files + Screen, E: HintSink>(
    rt: &'r R,
    alloc: Global,
    words: &RunWords<'_>,
    err: &mut E,
) -> Result<Watch<'r, R>, Status> {
    match capture_paths(alloc, words) {
        Ok(paths) => {
            let takes_hints = err.takes_hints();
            Ok(Watch::new(rt, paths.as_slice(), takes_hints).counting(takes_hints))
        }
        Err(_) => Err(report_memory(err)),
    }
}

/// Reads LISTENERS, compares the paths, and replays.
fn run_files<
    R: Files + AllocGlobal + NamesFiles + Screen + Threads + Wait + Sync,
    O: Write,
    E: HintSink,
>(rt: &R, words: &RunWords<'_>, out: &mut O, err: &mut E) -> Result<Status, Status> {
    let alloc = rt.alloc();
    let listeners = read_text(rt, words.listeners, err)?;
    let watch = watch_of(rt, alloc, words, err)?;
    let late = rt.named_files(words, listeners.as_slice(), &watch, err)?;
    let mut out = output_buffer(alloc, &mut *out, err)?;
    let status = match replay_files(rt, words, late, &mut out, err) {
        Ok(status) => status,
        Err(fault) => report_refused(alloc, words, listeners.as_slice(), fault, err),
    };
    hint_printed(out.get_ref(), err);
    hint_returns("LISTENERS", listeners.as_slice(), err);
    Ok(status)
}

/// `bpftap run`: LISTENERS is accepted and the paths are compared before a capture is opened.
pub fn run_command<
    R: Files + AllocGlobal + NamesFiles + Screen + Threads + Wait + Sync,
    O: Write,
    E: HintSink,
>(rt: &R, words: &RunWords<'_>, out: &mut O, err: &mut E) -> Status {
    match run_files(rt, words, out, err) {
        Ok(status) | Err(status) => status,
    }
}
