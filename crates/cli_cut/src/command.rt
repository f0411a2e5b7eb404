//! `bpftap cut` and `bpftap check`, over files.

ghost use Rattle.std.specs.Prelude.{◌≡◌, [], true, false, Result};
ghost use Rattle.cli_text.specs.declared.status.Status.TheVariants.{Clean};
ghost use Rattle.cli_store.specs.Files.{Keeps};
ghost use Rattle.cli_cut.specs.Captures.{ByInputs, Closed, CutsAll, IsStatusOfAll};
ghost use Rattle.cli_cut.specs.Checking.{Checked, ChecksFiles, IsCheckStatus};
ghost use Rattle.cli_cut.specs.Cutting.{CutsFiles, IsStatusOf};
ghost use Rattle.cli_cut.specs.Reporting.{TellsChecked, TellsClosed, TellsEnd, TellsOutcome};
ghost use Rattle.cli_cut.specs.Telling.{status_of};
ghost use Rattle.cli_cut.specs.declared.outcome.CutOutcome.{CutOutcome};
ghost use Rattle.cli_cut.specs.declared.outcome.Refusal.{Refusal};

use crate::captures::{cut_several, is_unread, report_captures, total_tally};
use crate::checking::check_files;
use crate::hints::{counts_frames, hint_cut, hint_print, hint_replaced, replaced_size};
use crate::one::cut_one;
use crate::outcome::{CutOutcome, CutReport, Reported};
use crate::report::{is_counted, report_count, report_end, report_print, report_refusal};
use cli_args::check::CheckWords;
use cli_args::cut::CutWords;
use cli_report::HintSink;
use cli_store::{DiskFiles, FileStore};
use cli_text::Status;
use cli_watch::hints::report_unseen;
use cli_watch::output::PrintSink;
use cli_watch::{Screen, Watch};
use line_text::LineForm;
use std::alloc::Global;
use std::fs::Files;

/// Reports how a cut ended, with hints, and returns the exit status. The count comes after the
/// fault and its hints.
pub(crate) fn report_cut<E: HintSink>(
    report: &CutReport,
    words: &CutWords<'_>,
    from: &str,
    err: &mut E,
) -> Status
    ensures status { result ≡ status_of report.now.end }
    ensures told { TellsEnd E.takes_hints E.failed E.contents E.fault_form from.entry words.now report.now.end report.now.tally err.old err.new }
{
    let status = report_end(report.end, from, words.output, err);
    hint_cut(report, from, err);
    if words.counted {
        let _ = report_count(report.end, report.tally, LineForm::asked(words.json), err);
    }
    status
}

/// Cuts the only IN, and reports how that ended. That nobody reads standard output any more is not
/// reported, as for `/dev/stdout` before `| head`.
pub fn cut_and_report<'p, F: FileStore<'p>, E: HintSink>(
    alloc: Global,
    files: &mut F,
    words: &CutWords<'p>,
    path: &'p str,
    err: &mut E,
) -> Reported
    requires none_open { F.opened files.old ≡ [] }
    ensures cuts { F.known ≡ true → (outcome : CutOutcome) × CutsFiles (F.place files.old) (F.text files.old) (F.text files.new) (F.failed files.new) (F.denied files.new) words.now path.entry outcome
        × IsStatusOf outcome result.status × TellsOutcome E.takes_hints E.failed E.contents E.fault_form (F.place files.new) (F.printed files.new) path.entry words.now outcome err.old err.new }
    ensures closed { F.known ≡ true → F.pending files.new ≡ F.pending files.old }
{
    match cut_one(alloc, files, words, path) {
        CutOutcome::Refused(refusal) => Reported {
            status: report_refusal(alloc, &refusal, words.expr, err),
            is_counted: false,
        },
        CutOutcome::Ended(report) => {
            if report.is_unread() && files.is_standard_output(words.output) {
                return Reported {
                    status: Status::Failed,
                    is_counted: false,
                };
            }
            Reported {
                status: report_cut(&report, words, path, err),
                is_counted: is_counted(report.end),
            }
        }
    }
}

/// Cuts several IN, and reports how that ended, as [`cut_and_report`] does.
pub fn cut_several_and_report<'p, F: FileStore<'p>, E: HintSink>(
    alloc: Global,
    files: &mut F,
    words: &CutWords<'p>,
    err: &mut E,
) -> Reported
    requires none_open { F.opened files.old ≡ [] }
    ensures cuts { F.known ≡ true → (outcome : Result Closed Refusal) × CutsAll (F.place files.old) (F.text files.old) (F.text files.new) (F.failed files.new) (F.denied files.new) words.now outcome
        × IsStatusOfAll outcome result.status × TellsClosed E.takes_hints E.failed E.contents E.fault_form words.now outcome err.old err.new }
    ensures closed { F.known ≡ true → F.pending files.new ≡ F.pending files.old }
{
    match cut_several(alloc, files, words) {
        Err(refusal) => Reported {
            status: report_refusal(alloc, &refusal, words.expr, err),
            is_counted: false,
        },
        Ok(end) => {
            if is_unread(&end) && files.is_standard_output(words.output) {
                return Reported {
                    status: Status::Failed,
                    is_counted: false,
                };
            }
            Reported {
                status: report_captures(&end, words, err),
                is_counted: total_tally(&end).is_some(),
            }
        }
    }
}

/// `bpftap cut`, whatever the files are: of the only IN, or of several.
pub fn cut_inputs_and_report<'p, F: FileStore<'p>, E: HintSink>(
    alloc: Global,
    files: &mut F,
    words: &CutWords<'p>,
    err: &mut E,
) -> Reported
    requires none_open { F.opened files.old ≡ [] }
    ensures cuts { F.known ≡ true → ByInputs words.now.inputs.items
        (λ path. (outcome : CutOutcome) × CutsFiles (F.place files.old) (F.text files.old) (F.text files.new) (F.failed files.new) (F.denied files.new) words.now path outcome
        × IsStatusOf outcome result.status × TellsOutcome E.takes_hints E.failed E.contents E.fault_form (F.place files.new) (F.printed files.new) path words.now outcome err.old err.new)
        ((outcome : Result Closed Refusal) × CutsAll (F.place files.old) (F.text files.old) (F.text files.new) (F.failed files.new) (F.denied files.new) words.now outcome
        × IsStatusOfAll outcome result.status × TellsClosed E.takes_hints E.failed E.contents E.fault_form words.now outcome err.old err.new) }
    ensures closed { F.known ≡ true → F.pending files.new ≡ F.pending files.old }
{
    match words.inputs.as_slice() {
        [input] => cut_and_report(alloc, files, words, *input, err),
        _ => cut_several_and_report(alloc, files, words, err),
    }
}

/// `bpftap cut`: the filter is accepted, and the paths are compared, before an IN is opened. OUT is
/// made at its first write.
pub fn cut_command<R: Files + AllocGlobal + Screen, E: HintSink>(
    rt: &R,
    words: &CutWords<'_>,
    err: &mut E,
) -> Status {
    let takes_hints = err.takes_hints();
    let is_counting = counts_frames(words, takes_hints);
    let watch = Watch::new(rt, words.inputs.as_slice(), takes_hints).counting(is_counting);
    let replaced = replaced_size(rt, words.output, err);
    let mut files = DiskFiles::new(rt, &watch);
    let reported = cut_inputs_and_report(rt.alloc(), &mut files, words, err);
    if is_counting && reported.is_counted {
        let _ = report_unseen(watch.frames(), Status::Clean, err);
    }
    hint_replaced(rt, replaced, words.output, reported.status, err);
    reported.status
}

/// Prints the program of an expression or of a listing's file, or the expression as it was read, and
/// reports how that ended.
pub fn check_and_report<'p, F: FileStore<'p>, O: PrintSink, E: HintSink>(
    alloc: Global,
    files: &mut F,
    words: &CheckWords<'p>,
    out: &mut O,
    err: &mut E,
) -> Status
    ensures kept { Keeps (F.place files.old) (F.place files.new) (F.text files.old) (F.text files.new) (F.pending files.old) (F.pending files.new) }
    ensures checks { F.known ≡ true → (outcome : Checked)
        × ChecksFiles (F.place files.old) (F.text files.old) (F.printed files.old) (F.failed files.new) (F.denied files.new) (O.contents out.old) (O.contents out.new) words.now outcome
        × IsCheckStatus outcome result × TellsChecked E.takes_hints E.failed E.contents E.fault_form outcome err.old err.new }
    // What was printed does not wait.
    ensures handed_on { result ≡ Clean → O.waits out.new ≡ false }
{
    match check_files(alloc, files, words, out) {
        Ok(printed) => {
            let status = report_print(&printed, err);
            hint_print(alloc, words.expr.unwrap_or(""), &printed, err);
            status
        }
        Err(refusal) => report_refusal(alloc, &refusal, words.expr, err),
    }
}

/// `bpftap check`, over the files of the system.
pub fn check_command<R: Files + AllocGlobal + Screen, O: PrintSink, E: HintSink>(
    rt: &R,
    words: &CheckWords<'_>,
    out: &mut O,
    err: &mut E,
) -> Status {
    let watch = Watch::new(rt, &[], false);
    check_and_report(rt.alloc(), &mut DiskFiles::new(rt, &watch), words, out, err)
}
