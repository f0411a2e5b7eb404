//! `bpftap split`, over files.

ghost use Rattle.std.specs.Prelude.{◌≡◌, [], true, false, codes};
ghost use Rattle.cli_text.specs.declared.status.Status.TheVariants.{Clean, Failed, Refused};
ghost use Rattle.fault_report.specs.Reports.{TellsOne};
ghost use Rattle.cli_filter.specs.Reports.{IsPlanReport};
ghost use Rattle.cli_split.specs.Reporting.{IsRefusalReport, TellsEnded, TellsOutcome};
ghost use Rattle.cli_split.specs.SplitFiles.{IsRefusalStatus, ReportsOutcome, SplitsFiles, form_of};
ghost use Rattle.cli_split.specs.Statuses.{ReportsSplit};
ghost use Rattle.cli_split.specs.declared.outcome.SplitOutcome.{SplitOutcome};

use crate::files::split_files;
use crate::hints::{counts_frames, hint_ended, names_return};
use crate::outcome::{Refusal, SplitOutcome, SplitReport};
use crate::plan::{MAX_LINES, SplitLine, fault_text};
use crate::report::EndedSplit;
use cli_args::split::SplitWords;
use cli_files::captures::{OUTPUT_BUFFER, output_buffer};
use cli_files::paths::report_path;
use cli_files::reading::{report_io, report_long_text};
use cli_filter::plan::PlanFault;
use cli_filter::plan_hints::hint_plan;
use cli_report::HintSink;
use cli_report::failures::hint_printed;
use cli_report::files::{LINES, hint_returns, name_returns};
use cli_report::stream::give_hint;
use cli_store::{DiskFiles, FileStore};
use cli_text::Status;
use cli_watch::hints::report_unseen;
use cli_watch::output::PrintSink;
use cli_watch::{Screen, Watch};
use fault_report::reporting::{report_fault, report_memory};
use line_text::{LineForm, NamingForm};
use std::alloc::Global;
use std::fs::Files;
use std::io::Write;

/// A call of `bpftap split`: its words, whether standard output is a terminal, and where the text of
/// LINES is kept.
#[derive(Drop)]
pub struct SplitCall<'w, 'p> {
    pub words: &'w SplitWords<'p>,
    pub is_terminal: bool,
    pub text: &'p mut Vec<u8>,
}

/// A call of `bpftap split` that was reported.
#[derive(Clone, Copy, Debug, PartialEq, Eq)]
pub struct Reported<'p> {
    pub status: Status,
    /// The text of LINES, if captures were split as it asks.
    pub text: Option<&'p [u8]>,
    /// Whether the name of an OUT ends in a carriage return.
    pub names_return: bool,
    /// Whether captures were split by an expression, and each OUT was written whole: then the frames
    /// into which it does not look are reported.
    pub is_asked: bool,
}

/// Reports why LINES is refused.
fn report_lines<E: HintSink>(alloc: Global, text: &[u8], fault: PlanFault, err: &mut E) -> Status
    ensures status { result ≡ Refused }
    ensures told { TellsOne E.takes_hints E.failed E.contents E.fault_form (IsPlanReport (codes "Lines") fault) err.old err.new }
{
    let status = report_fault(&fault_text(fault).report(), Status::Refused, err);
    hint_plan::<SplitLine<'_>, E>(alloc, text, (), LINES, fault, err);
    if fault == PlanFault::TooMany {
        give_hint(
            format_args!("LINES has at most {MAX_LINES} lines: split several times"),
            err,
        );
    }
    status
}

/// Reports why nothing was split, and returns the exit status.
fn report_refusal<E: HintSink>(alloc: Global, refusal: &Refusal<'_>, err: &mut E) -> Status
    ensures status { IsRefusalStatus refusal.now result }
    ensures told { TellsOne E.takes_hints E.failed E.contents E.fault_form (IsRefusalReport refusal.now) err.old err.new }
{
    match refusal {
        Refusal::Lines(text, fault) => report_lines(alloc, *text, *fault, err),
        Refusal::TextTooLong(path) => report_long_text(*path, err),
        Refusal::Paths(fault) => report_path(fault, err),
        Refusal::File(path, error) => report_io(error, *path, err),
        Refusal::NoMemory => report_memory(err),
    }
}

/// Reports why nothing was split.
fn report_refused<'p, E: HintSink>(
    alloc: Global,
    refusal: &Refusal<'p>,
    err: &mut E,
) -> Reported<'p>
    ensures status { IsRefusalStatus refusal.now result.status }
    ensures told { TellsOne E.takes_hints E.failed E.contents E.fault_form (IsRefusalReport refusal.now) err.old err.new }
{
    Reported {
        status: report_refusal(alloc, refusal, err),
        text: None,
        names_return: false,
        is_asked: false,
    }
}

/// The form of the lines that are printed.
fn form_of(is_terminal: bool, words: &SplitWords<'_>) -> NamingForm
    ensures { result ≡ form_of is_terminal words.now }
{
    NamingForm {
        form: LineForm::asked(words.json),
        is_terminal,
    }
}

/// Prints how many packets each part has, and reports what failed.
fn report_ended<'p, O: PrintSink, E: HintSink>(
    words: &SplitWords<'_>,
    form: NamingForm,
    report: SplitReport<'p>,
    out: &mut O,
    err: &mut E,
) -> Reported<'p>
    ensures prints { ReportsSplit form report.entry.lines.items report.entry.end (O.contents out.old) (O.contents out.new) result.status }
    ensures silent { result.status ≡ Clean → E.takes_hints err.old ≡ false → err.new ≡ err.old }
    ensures told { TellsEnded E.takes_hints E.failed E.contents E.fault_form report.entry.lines.items words.now.inputs.items report.entry.end err.old err.new }
    ensures handed_on { O.waits out.old ≡ false → (result.status ≡ Failed → ⊥) → O.waits out.new ≡ false }
{
    let SplitReport {
        text,
        lines,
        end,
        mut line,
    } = report;
    let split = EndedSplit {
        captures: words.inputs.as_slice(),
        lines: lines.as_slice(),
        end: &end,
    };
    let status = split.report(form, &mut line, out, err);
    hint_ended(split.captures, split.lines, &end, err);
    Reported {
        status,
        text: Some(text),
        names_return: names_return(split.lines),
        is_asked: counts_frames(split.lines, &end),
    }
}

/// Splits, and reports how that ended: prints how many packets each part has, and reports what failed.
pub fn split_and_report<'p, F: FileStore<'p>, O: PrintSink, E: HintSink>(
    alloc: Global,
    files: &mut F,
    call: SplitCall<'_, 'p>,
    out: &mut O,
    err: &mut E,
) -> Reported<'p>
    requires none_open { F.opened files.old ≡ [] }
    ensures splits { F.known ≡ true → (outcome : SplitOutcome)
        × SplitsFiles (F.place files.old) (F.text files.old) (F.text files.new) (F.printed files.old) (F.failed files.new) (F.denied files.new) call.entry.words.now outcome
        × ReportsOutcome call.entry.is_terminal call.entry.words.now outcome (O.contents out.old) (O.contents out.new) result.status
        × TellsOutcome E.takes_hints E.failed E.contents E.fault_form call.entry.words.now outcome err.old err.new }
    // Where all went well nothing is reported.
    ensures silent { result.status ≡ Clean → E.takes_hints err.old ≡ false → err.new ≡ err.old }
    // Nothing that was printed waits, unless a file or a device failed.
    ensures handed_on { O.waits out.old ≡ false → (result.status ≡ Failed → ⊥) → O.waits out.new ≡ false }
    ensures closed { F.known ≡ true → F.pending files.new ≡ F.pending files.old }
{
    let SplitCall {
        words,
        is_terminal,
        text,
    } = call;
    match split_files(alloc, files, words, text) {
        SplitOutcome::Refused(refusal) => report_refused(alloc, &refusal, err),
        SplitOutcome::Ended(report) => {
            report_ended(words, form_of(is_terminal, words), report, out, err)
        }
    }
}

/// Splits the files of the system.
fn split_on_disk<'w: 'p, 'p, R: Files + AllocGlobal + Screen, O: Write, E: HintSink>(
    rt: &R,
    words: &SplitWords<'w>,
    text: &'p mut Vec<u8>,
    out: &mut O,
    err: &mut E,
) -> Result<Reported<'p>, Status> {
    let alloc = rt.alloc();
    let mut out = output_buffer(alloc, &mut *out, err)?;
    let watch = Watch::new(rt, words.inputs.as_slice(), err.takes_hints()).counting(true);
    let mut files = DiskFiles::new(rt, &watch).gathering(OUTPUT_BUFFER);
    let call = SplitCall {
        words,
        is_terminal: rt.is_output_terminal(),
        text,
    };
    let reported = split_and_report(alloc, &mut files, call, &mut out, err);
    hint_printed(out.get_ref(), err);
    if reported.is_asked && out.get_ref().failure().is_none() {
        let _ = report_unseen(watch.frames(), Status::Clean, err);
    }
    Ok(reported)
}

/// Names the first line of LINES, of this text, that ends in a carriage return: if hints are wanted,
/// or if that is part of the name of an OUT.
fn report_returns<E: HintSink>(text: &[u8], names_return: bool, err: &mut E)
    ensures quiet { names_return ≡ false → E.takes_hints err.old ≡ false → err.new ≡ err.old }
{
    if names_return {
        name_returns("LINES", text, err);
    } else {
        hint_returns("LINES", text, err);
    }
}

/// `bpftap split`: LINES is accepted and the paths are compared before a capture is opened.
pub fn split_command<R: Files + AllocGlobal + Screen, O: Write, E: HintSink>(
    rt: &R,
    words: &SplitWords<'_>,
    out: &mut O,
    err: &mut E,
) -> Status {
    let mut text = Vec::new(rt.alloc());
    match split_on_disk(rt, words, &mut text, out, err) {
        Ok(reported) => {
            if let Some(text) = reported.text {
                report_returns(text, reported.names_return, err);
            }
            reported.status
        }
        Err(status) => status,
    }
}
