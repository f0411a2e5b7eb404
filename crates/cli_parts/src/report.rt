//! What is reported of parts that are not joined.

ghost use Rattle.std.specs.Prelude.{◌≡◌, false};

use crate::line::print_stretches;
use crate::lines::LinesFault;
use cli_files::reading::report_printed;
use cli_report::HintSink;
use cli_report::files::hint_bad_line;
use cli_report::stream::give_hint;
use cli_text::Status;
use cli_text::report::EscapedPath;
use fault_report::reporting::{report_fault, report_memory};
use fault_report::{Report, Subject, Word};
use pcap_parts::join::Misfit;
use savefile::Fault;
use std::alloc::Global;
use std::io::Write;

/// The form of a line of LINES of `bpftap join`.
const PART_LINE: &str =
    "as cut --bytes prints it: FIRST-END of SIZE packets N kept N bytes N Clean FILE";

/// How LINES is put in order.
const ORDER: &str = "sort LINES by sort -t- -k1,1n -k2,2nr; is a part missing?";

/// What is wrong with a part whose line has another size.
const OTHER_CAPTURE: &str =
    "the line of this part says another size than the first one: did the capture grow? Cut all parts again";

/// Begins the hints on a file with its path.
pub(crate) fn hint_path<E: HintSink>(path: &str, err: &mut E)
    ensures quiet { E.takes_hints err.old ≡ false → err.new ≡ err.old }
{
    give_hint(format_args!("{}:", EscapedPath(path)), err);
}

/// Reports why the parts of LINES, at this path, do not make a whole capture, and returns the exit status.
fn report_misfit<E: HintSink>(misfit: Misfit, path: &str, err: &mut E) -> Status {
    let (report, hint) = match misfit {
        Misfit::Missing(at) => (Report::placed("MissingPart", Word::Number(at)), Some(ORDER)),
        Misfit::OtherSize(first) => (
            Report::placed("OtherCapture", Word::Number(first)),
            Some(OTHER_CAPTURE),
        ),
        // `LinesFault::Again` comes in its place.
        Misfit::CutOff(first, _) => (Report::placed("MissingPart", Word::Number(first)), None),
        Misfit::CountFull => (Report::named(Fault::CountFull.name()), None),
    };
    let status = report_fault(&report, Status::Refused, err);
    if let Some(hint) = hint {
        hint_path(path, err);
        give_hint(hint, err);
    }
    status
}

/// LINES: its path and its text.
#[derive(Clone, Copy)]
pub(crate) struct LinesFile<'l> {
    pub path: &'l str,
    pub text: &'l [u8],
}

/// Reports why LINES has no parts that are joined, or prints what has to be cut again; returns the exit status.
pub(crate) fn report_lines<O: Write, E: HintSink>(
    alloc: Global,
    fault: &LinesFault,
    lines: LinesFile<'_>,
    out: &mut O,
    err: &mut E,
) -> Status {
    match fault {
        LinesFault::Line(number) => {
            let report = Report::placed("Lines", Word::count(*number));
            let status = report_fault(&report, Status::Refused, err);
            hint_path(lines.path, err);
            hint_bad_line(lines.text, *number, PART_LINE, err);
            status
        }
        LinesFault::Misfit(misfit) => report_misfit(*misfit, lines.path, err),
        LinesFault::Again(again) => {
            let printed = print_stretches(alloc, again.as_slice(), out);
            report_printed(&printed, err).max(Status::Negative)
        }
        LinesFault::NoMemory => report_memory(err),
    }
}

/// Reports that a file is not the one whose part a line has, and returns the exit status.
pub(crate) fn report_other_file<E: HintSink>(path: &str, wanted: &str, err: &mut E) -> Status {
    let report = Report::named("OtherPart").about(Subject::File(path));
    let status = report_fault(&report, Status::Refused, err);
    give_hint(format_args!("{}: {wanted}", EscapedPath(path)), err);
    status
}
