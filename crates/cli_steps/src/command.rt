//! `bpftap steps`, over the files of the system, and what is reported of it.

ghost use Rattle.std.specs.Prelude.{◌≡◌, Err, Ok, false, true};
ghost use Rattle.fault_report.specs.Reports.{TellsMore, TellsOne};
ghost use Rattle.cli_steps.specs.FromFiles.{IsDrawnStatus, IsRefusalStatus, IsStatusOf};
ghost use Rattle.cli_steps.specs.Reports.{IsLineReport, IsOutputFault, IsPictureReport, IsRefusalReport, IsTooManyReport, TellsPlayed, TellsSteps};

use crate::files::steps_files;
use crate::hints::{hint_line, hint_replay, hint_too_many};
use crate::outcome::{PictureFault, StepsRefusal, StepsReport};
use crate::reported::{line_fault, replay_fault, report_played};
use cli_args::steps::StepsWords;
use cli_files::paths::report_path;
use cli_files::reading::{report_io, report_long_text};
use cli_report::failures::hint_unprinted;
use cli_report::files::hint_returns;
use cli_report::{FailureProbe, HintSink};
use cli_store::DiskFiles;
use cli_text::Status;
use cli_watch::{Screen, Watch};
use fault_report::reporting::{report_device, report_fault, report_memory};
use line_text::LineFault;
use std::alloc::Global;
use std::fs::Files;
use std::io;
use std::io::{BufWriter, ErrorKind, Write};
use tap::Fault;

/// How many bytes of output are gathered before they are written.
const OUTPUT_BUFFER: usize = 1 << 16;

/// Reports the first bad line of LISTENERS or SCRIPT, with hints.
fn report_line_fault<E: HintSink>(
    listeners: &[u8],
    script: &[u8],
    fault: LineFault,
    err: &mut E,
) -> Status
    ensures status { result ≡ Status.Refused }
    ensures told { TellsOne E.takes_hints E.failed E.contents E.fault_form (IsLineReport fault) err.old err.new }
{
    let status = report_fault(&line_fault(fault), Status::Refused, err);
    hint_line(listeners, script, fault, err);
    status
}

/// Reports that there are too many captures, with a hint.
fn report_too_many<E: HintSink>(err: &mut E) -> Status
    ensures status { result ≡ Status.Refused }
    ensures told { TellsOne E.takes_hints E.failed E.contents E.fault_form IsTooManyReport err.old err.new }
{
    let status = report_fault(&replay_fault(Fault::TooMany, &[]), Status::Refused, err);
    hint_too_many(err);
    status
}

/// Reports why nothing was played, with hints, and returns the exit status.
fn report_unplayed<E: HintSink>(refusal: &StepsRefusal<'_>, err: &mut E) -> Status
    ensures status { IsRefusalStatus refusal.now result }
    ensures told { TellsOne E.takes_hints E.failed E.contents E.fault_form (IsRefusalReport refusal.now) err.old err.new }
{
    match refusal {
        StepsRefusal::TextTooLong(path) => report_long_text(*path, err),
        StepsRefusal::Line(listeners, script, fault) => {
            report_line_fault(listeners.as_slice(), script.as_slice(), *fault, err)
        }
        StepsRefusal::TooMany => report_too_many(err),
        StepsRefusal::Paths(fault) => report_path(fault, err),
        StepsRefusal::File(path, error) => report_io(error, *path, err),
        StepsRefusal::NoMemory => report_memory(err),
    }
}

/// Reports why the picture at a path was not drawn, if it was not, and returns the exit status.
fn report_picture<E: HintSink>(
    path: &str,
    drawn: &Result<Option<Vec<u8>>, PictureFault>,
    err: &mut E,
) -> Status
    ensures status { IsDrawnStatus drawn.now result }
    ensures told { (fault : PictureFault) → drawn.now ≡ Err fault → TellsOne E.takes_hints E.failed E.contents E.fault_form (IsPictureReport path.entry fault) err.old err.new }
    ensures more { TellsMore E.takes_hints E.failed E.contents E.fault_form err.old err.new }
{
    match drawn {
        Ok(_) => Status::Clean,
        Err(PictureFault::NoMemory) => report_memory(err),
        Err(PictureFault::File(None)) => report_device(path, err),
        Err(PictureFault::File(Some(error))) => report_io(error, path, err),
    }
}

/// Whether it is reported that standard output failed, of which this was noted. That nobody reads it any more is not.
fn is_output_fault(ended: Status, noted: Option<io::Error>) -> bool
    ensures { IsOutputFault ended noted → result ≡ true }
{
    match noted {
        Some(error) => ended == Status::Failed && error.kind() != ErrorKind::BrokenPipe,
        None => ended == Status::Failed,
    }
}

/// Hints on why standard output failed, if that was noted.
fn hint_noted<E: HintSink>(noted: Option<io::Error>, err: &mut E)
    ensures quiet { E.takes_hints err.old ≡ false → err.new ≡ err.old }
{
    if let Some(error) = noted {
        hint_unprinted(&error, err);
    }
}

/// Reports how a replay, what was printed and the picture ended, with hints, and returns the exit status.
fn report_steps<E: HintSink>(
    alloc: Global,
    words: &StepsWords<'_>,
    report: &StepsReport,
    noted: Option<io::Error>,
    err: &mut E,
) -> Status
    ensures status { IsStatusOf (Ok report.now) result }
    ensures told { TellsPlayed E.takes_hints E.failed E.contents E.fault_form words.now noted report.now err.old err.new }
{
    let paths = words.inputs.as_slice();
    let output_failed = is_output_fault(report.status, noted);
    report_played(paths, output_failed, &report.replayed, err);
    hint_noted(noted, err);
    hint_replay(alloc, paths, report, err);
    let drawn = report_picture(words.picture.unwrap_or(""), &report.drawn, err);
    hint_returns("LISTENERS", report.input.listeners.as_slice(), err);
    report.status.max(drawn)
}

/// Reports what a call came to, with hints, and returns the exit status. It was noted why standard output first failed, if it did.
pub fn report_outcome<E: HintSink>(
    alloc: Global,
    words: &StepsWords<'_>,
    outcome: &Result<StepsReport, StepsRefusal<'_>>,
    noted: Option<io::Error>,
    err: &mut E,
) -> Status
    ensures status { IsStatusOf outcome.now result }
    ensures told { TellsSteps E.takes_hints E.failed E.contents E.fault_form words.now noted outcome.now err.old err.new }
{
    match outcome {
        Ok(report) => report_steps(alloc, words, report, noted, err),
        Err(refusal) => report_unplayed(refusal, err),
    }
}

/// `bpftap steps`, with a buffer in front of standard output.
pub fn steps_command<R: Files + AllocGlobal + Screen, O: Write, E: HintSink>(
    rt: &R,
    words: &StepsWords<'_>,
    out: &mut O,
    err: &mut E,
) -> Status {
    let (alloc, watch) = (rt.alloc(), Watch::new(rt, &[], false));
    let noted = FailureProbe::new(out);
    let Ok(mut printed) = BufWriter::with_capacity(alloc, OUTPUT_BUFFER, noted) else {
        return report_memory(err);
    };
    let outcome = steps_files(alloc, &mut DiskFiles::new(rt, &watch), words, &mut printed);
    report_outcome(alloc, words, &outcome, printed.get_ref().failure(), err)
}
