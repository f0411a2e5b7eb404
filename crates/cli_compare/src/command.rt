//! `bpftap compare`, over files.

ghost use Rattle.std.specs.Prelude.{◌≡◌, ◌≢◌, [], false, true};
ghost use Rattle.cli_text.specs.declared.status.Status.TheVariants.{Clean};
ghost use Rattle.fault_report.specs.Reports.{TellsAmong};
ghost use Rattle.cli_store.specs.Files.{Keeps};
ghost use Rattle.cli_compare.specs.Comparing.{Answers, KeepsOthers, LinesAnswer, StatusAnswers};
ghost use Rattle.cli_compare.specs.Deciding.{IsAnswerStatus};
ghost use Rattle.cli_compare.specs.Telling.{TellsWith};

use crate::decide::decide_files;
use crate::each::DifferenceCounts;
use crate::files::{compare_files, seek_files};
use crate::report::report_uncompared;
use cli_answers::disk::run_over_disk;
use cli_answers::report::{report_lines, report_sought};
use cli_args::compare::CompareWords;
use cli_files::captures::OUTPUT_BUFFER;
use cli_report::HintSink;
use cli_store::FileStore;
use cli_text::Status;
use cli_watch::Screen;
use cli_watch::frames::FrameCounts;
use cli_watch::hints::is_asked;
use cli_watch::output::PrintSink;
use std::alloc::Global;
use std::fs::Files;
use std::io::Write;

/// Whether an expression asks what a program may look into. A listing's program may.
fn asks_expressions(words: &CompareWords<'_>) -> bool {
    words.listing.is_none() && (is_asked(words.first) || words.second.is_some_and(is_asked))
}

/// The counts of frames, if it is reported into how many of them the expressions do not look.
fn asked_frames(words: &CompareWords<'_>, counts: DifferenceCounts) -> Option<FrameCounts> {
    asks_expressions(words).then_some(counts.frames())
}

/// Prints the packets that are treated differently, and the counts if a header was read; and
/// reports how that ended.
fn compare_all<'p, F: FileStore<'p>, O: PrintSink, E: HintSink>(
    alloc: Global,
    files: &mut F,
    words: &CompareWords<'p>,
    out: &mut O,
    err: &mut E,
) -> Status
    ensures kept { Keeps (F.place files.old) (F.place files.new) (F.text files.old) (F.text files.new) (F.pending files.old) (F.pending files.new) }
    ensures answers { F.known ≡ true → LinesAnswer F.Input.left F.Input.failures O.contents (F.place files.old) (F.text files.old) (F.printed files.old) (F.failed files.new) words.now (λ line says. TellsWith E.takes_hints E.failed E.contents E.fault_form line says err.old err.new) (λ says. TellsAmong E.takes_hints E.failed E.contents E.fault_form says err.old err.new) out.old out.new result }
    ensures handed_on { O.waits out.old ≡ false → result ≡ Clean → O.waits out.new ≡ false }
{
    match compare_files(alloc, files, words, out) {
        Ok(end) => {
            let frames = asked_frames(words, end.counts);
            report_lines(&end, frames, words.inputs.as_slice(), err)
        }
        Err(reason) => report_uncompared(alloc, &reason, words, err),
    }
}

/// Reports only by the status whether a packet is treated differently.
fn ask_quietly<'p, F: FileStore<'p>, O: PrintSink, E: HintSink>(
    alloc: Global,
    files: &mut F,
    words: &CompareWords<'p>,
    _out: &mut O,
    err: &mut E,
) -> Status
    ensures kept { Keeps (F.place files.old) (F.place files.new) (F.text files.old) (F.text files.new) (F.pending files.old) (F.pending files.new) }
    ensures answers { F.known ≡ true → StatusAnswers F.Input.left F.Input.failures (F.place files.old) (F.text files.old) (F.printed files.old) (F.failed files.new) words.now (λ line says. TellsWith E.takes_hints E.failed E.contents E.fault_form line says err.old err.new) _out.old _out.new result }
    ensures silent { _out.new ≡ _out.old }
{
    match seek_files(alloc, files, words) {
        Ok(end) => {
            let paths = words.inputs.as_slice();
            report_sought(&end, Status::Negative, Status::Clean, paths, err)
        }
        Err(reason) => report_uncompared(alloc, &reason, words, err),
    }
}

/// `bpftap compare`, whatever the files are: without IN both filters are decided for every packet;
/// else the packets that they treat differently are printed, and the counts, or with `-q` only the
/// status says whether there is one. Both filters are accepted, and the paths are compared, before
/// a capture is opened. No file but OUT changes.
pub fn compare_and_report<'p, R: AllocGlobal + Screen, F: FileStore<'p>, O: PrintSink, E: HintSink>(
    rt: &R,
    files: &mut F,
    words: &CompareWords<'p>,
    out: &mut O,
    err: &mut E,
) -> Status
    requires none_open { F.opened files.old ≡ [] }
    ensures answers { F.known ≡ true → Answers F.Input.left F.Input.failures O.contents (F.place files.old) (F.text files.old) (F.text files.new) (F.printed files.old) (F.failed files.new) words.now (λ line says. TellsWith E.takes_hints E.failed E.contents E.fault_form line says err.old err.new) (λ says. TellsAmong E.takes_hints E.failed E.contents E.fault_form says err.old err.new) out.old out.new result }
    ensures kept { words.now.inputs.items ≢ [] → Keeps (F.place files.old) (F.place files.new) (F.text files.old) (F.text files.new) (F.pending files.old) (F.pending files.new) }
    // No file but OUT changes, and it is closed.
    ensures others { F.known ≡ true → KeepsOthers (F.place files.old) (F.text files.old) (F.text files.new) words.now.output }
    ensures closed { F.known ≡ true → F.pending files.new ≡ F.pending files.old }
    // Nothing that was printed waits, if all went well.
    ensures handed_on { O.waits out.old ≡ false → result ≡ Clean → O.waits out.new ≡ false }
    // Nor does an answer about every packet, whatever it is.
    ensures answered { words.now.inputs.items ≡ [] → O.waits out.old ≡ false → IsAnswerStatus result → O.waits out.new ≡ false }
{
    if words.inputs.is_empty() {
        decide_files(rt, files, words, out, err)
    } else if words.quiet {
        ask_quietly(rt.alloc(), files, words, out, err)
    } else {
        compare_all(rt.alloc(), files, words, out, err)
    }
}

/// `bpftap compare`, over the files of the system, with a buffer in front of the output.
pub fn compare_command<R: Files + AllocGlobal + Screen, O: Write, E: HintSink>(
    rt: &R,
    words: &CompareWords<'_>,
    out: &mut O,
    err: &mut E,
) -> Status {
    let inputs = words.inputs.as_slice();
    run_over_disk(rt, inputs, out, err, |files, out, err| {
        let mut files = files.gathering(OUTPUT_BUFFER);
        compare_and_report(rt, &mut files, words, out, err)
    })
}
