//! `bpftap explain`, over files.

ghost use Rattle.std.specs.Prelude.{◌≡◌, false, true};
ghost use Rattle.cli_text.specs.declared.status.Status.TheVariants.{Clean};
ghost use Rattle.fault_report.specs.Reports.{TellsAmong, TellsOne};
ghost use Rattle.cli_store.specs.Files.{Keeps};
ghost use Rattle.cli_explain.specs.Explaining.{Answers, LinesAnswer, StatusAnswers};

use crate::files::{explain_files, seek_files};
use crate::full::{PlacesWords, explain_places};
use cli_answers::counts::VerdictCounts;
use cli_answers::disk::run_over_disk;
use cli_answers::report::{report_lines, report_sought, report_unasked};
use cli_args::explain::ExplainWords;
use cli_report::HintSink;
use cli_store::FileStore;
use cli_text::Status;
use cli_watch::Screen;
use cli_watch::frames::FrameCounts;
use cli_watch::hints::is_asked;
use cli_watch::output::PrintSink;
use std::alloc::Global;
use std::fs::Files;
use std::io::Write;

/// The counts of frames, if it is reported into how many of them the filter does not look: a
/// program may.
fn asked_frames(words: &ExplainWords<'_>, counts: VerdictCounts) -> Option<FrameCounts> {
    words.expr.is_some_and(is_asked).then_some(counts.frames())
}

/// Prints a line for each packet, and the counts if a header was read; and reports how that ended.
fn explain_all<'p, F: FileStore<'p>, O: PrintSink, E: HintSink>(
    alloc: Global,
    files: &mut F,
    words: &ExplainWords<'p>,
    out: &mut O,
    err: &mut E,
) -> Status
    ensures kept { Keeps (F.place files.old) (F.place files.new) (F.text files.old) (F.text files.new) (F.pending files.old) (F.pending files.new) }
    ensures answers { F.known ≡ true → LinesAnswer F.Input.left F.Input.failures O.contents (F.place files.old) (F.text files.old) (F.printed files.old) (F.failed files.new) words.now (λ says. TellsOne E.takes_hints E.failed E.contents E.fault_form says err.old err.new) (λ says. TellsAmong E.takes_hints E.failed E.contents E.fault_form says err.old err.new) out.old out.new result }
    ensures handed_on { O.waits out.old ≡ false → result ≡ Clean → O.waits out.new ≡ false }
{
    match explain_files(alloc, files, words, out) {
        Ok(end) => {
            let frames = asked_frames(words, end.counts);
            report_lines(&end, frames, words.inputs.as_slice(), err)
        }
        Err(reason) => report_unasked(alloc, &reason, words.expr, err),
    }
}

/// Reports only by the status whether the filter accepts a packet.
fn ask_quietly<'p, F: FileStore<'p>, O: PrintSink, E: HintSink>(
    alloc: Global,
    files: &mut F,
    words: &ExplainWords<'p>,
    _out: &mut O,
    err: &mut E,
) -> Status
    ensures kept { Keeps (F.place files.old) (F.place files.new) (F.text files.old) (F.text files.new) (F.pending files.old) (F.pending files.new) }
    ensures answers { F.known ≡ true → StatusAnswers F.Input.left F.Input.failures (F.place files.old) (F.text files.old) (F.printed files.old) (F.failed files.new) words.now (λ says. TellsOne E.takes_hints E.failed E.contents E.fault_form says err.old err.new) _out.old _out.new result }
    ensures silent { _out.new ≡ _out.old }
{
    match seek_files(alloc, files, words) {
        Ok(end) => {
            let paths = words.inputs.as_slice();
            report_sought(&end, Status::Clean, Status::Negative, paths, err)
        }
        Err(reason) => report_unasked(alloc, &reason, words.expr, err),
    }
}

/// `bpftap explain`, whatever the files are: with `-q` only the status answers; with `-p` packets of each capture are printed in full; else a
/// line for each packet, and the counts. The filter is accepted, and the paths are compared, before a capture is opened. No file changes.
pub fn explain_and_report<'p, F: FileStore<'p>, O: PrintSink, E: HintSink>(
    alloc: Global,
    files: &mut F,
    words: &ExplainWords<'p>,
    out: &mut O,
    err: &mut E,
) -> Status
    ensures kept { Keeps (F.place files.old) (F.place files.new) (F.text files.old) (F.text files.new) (F.pending files.old) (F.pending files.new) }
    ensures answers { F.known ≡ true → Answers F.Input.left F.Input.failures O.contents (F.place files.old) (F.text files.old) (F.printed files.old) (F.failed files.new) words.now (λ says. TellsOne E.takes_hints E.failed E.contents E.fault_form says err.old err.new) (λ says. TellsAmong E.takes_hints E.failed E.contents E.fault_form says err.old err.new) out.old out.new result }
    // Where all went well, nothing that was printed waits.
    ensures handed_on { O.waits out.old ≡ false → result ≡ Clean → O.waits out.new ≡ false }
{
    match (words.quiet, words.places) {
        (true, _) => ask_quietly(alloc, files, words, out, err),
        (false, Some(places)) => {
            let asked = PlacesWords { words, places };
            explain_places(alloc, files, &asked, out, err)
        }
        (false, None) => explain_all(alloc, files, words, out, err),
    }
}

/// `bpftap explain`, over the files of the system, with a buffer in front of the output.
pub fn explain_command<R: Files + AllocGlobal + Screen, O: Write, E: HintSink>(
    rt: &R,
    words: &ExplainWords<'_>,
    out: &mut O,
    err: &mut E,
) -> Status {
    let inputs = words.inputs.as_slice();
    run_over_disk(rt, inputs, out, err, |mut files, out, err| {
        explain_and_report(rt.alloc(), &mut files, words, out, err)
    })
}
