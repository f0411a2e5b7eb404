//! Hints on a cut or a print that failed.

ghost use Rattle.std.specs.Prelude.{◌≡◌, false};

use crate::outcome::CutReport;
use crate::print::PrintFault;
use cli_args::cut::CutWords;
use cli_files::retried::Retried;
use cli_filter::hint_expression;
use cli_report::captures::is_capture;
use cli_report::failures::{hint_input, hint_unprinted};
use cli_report::files::hint_reason;
use cli_report::stream::give_hint;
use cli_report::{FailureProbe, HintSink};
use cli_text::Status;
use cli_text::report::EscapedPath;
use cli_watch::hints::is_asked;
use pcap_cut::cut::End;
use savefile::Fault;
use std::alloc::Global;
use std::fs;
use std::fs::Files;
use std::io::Read;

/// How many bytes at the front of a file say that it is a capture.
const MAGIC_LEN: usize = 4;

/// Hints on the capture at a path, which was not read to its end, below its path. The line of a
/// failed device has the path itself, and no file is at fault if memory is refused.
fn hint_from<R, E: HintSink>(noted: &FailureProbe<R>, from: &str, fault: Fault, err: &mut E)
    ensures quiet { E.takes_hints err.old ≡ false → err.new ≡ err.old }
{
    if fault != Fault::Device && fault != Fault::NoMemory {
        give_hint(format_args!("{}:", EscapedPath(from)), err);
    }
    hint_input(noted, fault, err);
}

/// Hints on how a cut from this path ended.
pub(crate) fn hint_cut<E: HintSink>(report: &CutReport, from: &str, err: &mut E)
    ensures quiet { E.takes_hints err.old ≡ false → err.new ≡ err.old }
{
    match (report.end, &report.unwritten) {
        (End::Clean, _) => {}
        (End::Input(fault), _) => hint_from(&report.noted, from, fault, err),
        (End::Output(_), Some(error)) => hint_reason(error, err),
        (End::Output(_), None) => {}
    }
}

/// Whether it is reported into how many frames the expression does not look: if packets are
/// counted, or hints are wanted.
pub(crate) fn counts_frames(words: &CutWords<'_>, takes_hints: bool) -> bool {
    (words.counted || takes_hints) && words.expr.is_some_and(is_asked)
}

/// The size of the file at a path, if it is a capture.
fn capture_size<R: Files>(rt: &R, path: &str) -> Option<u64> {
    let metadata = fs::metadata(rt, path).ok()?;
    if !metadata.is_file() {
        return None;
    }
    let mut front = [0; MAGIC_LEN];
    Retried::new(fs::open(rt, path).ok()?)
        .read_exact(&mut front)
        .ok()?;
    is_capture(&front).then_some(metadata.len())
}

/// The size of the capture that OUT is before it is written, if hints are wanted. It looks at a
/// regular file only, since a pipe would lose what is read of it.
pub(crate) fn replaced_size<R: Files, E: HintSink>(rt: &R, output: &str, err: &E) -> Option<u64> {
    if err.takes_hints() {
        capture_size(rt, output)
    } else {
        None
    }
}

/// Hints that OUT replaced a capture of this size: all was written, or OUT has another size now.
pub(crate) fn hint_replaced<R: Files, E: HintSink>(
    rt: &R,
    replaced: Option<u64>,
    output: &str,
    status: Status,
    err: &mut E,
)
    ensures quiet { E.takes_hints err.old ≡ false → err.new ≡ err.old }
{
    let Some(size) = replaced else {
        return;
    };
    let is_written = status == Status::Clean || status == Status::Damaged;
    if is_written || capture_size(rt, output) != replaced {
        give_hint(
            format_args!("{} replaces a capture of {size} bytes", EscapedPath(output)),
            err,
        );
    }
}

/// Hints on why the program of an expression was not printed.
pub(crate) fn hint_print<E: HintSink>(
    alloc: Global,
    expr: &str,
    printed: &Result<(), PrintFault>,
    err: &mut E,
)
    ensures quiet { E.takes_hints err.old ≡ false → err.new ≡ err.old }
{
    match printed {
        Err(PrintFault::Expression(fault)) => hint_expression(alloc, expr, *fault, err),
        Err(PrintFault::Output(error)) => hint_unprinted(error, err),
        _ => {}
    }
}
