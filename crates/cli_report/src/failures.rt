//! Hints on the failures that readers and writers noted.

ghost use Rattle.std.specs.Prelude.{◌≡◌, ◌≤◌, false, length, None, slice_get, true};
ghost use Rattle.line_text.specs.declared.form.LineForm.TheVariants.{Json};
ghost use Rattle.fault_report.specs.Reports.{TellsMore};

use crate::captures::hint_capture_fault;
use crate::files::hint_reason;
use crate::probe::{FailureProbe, ProbedInput};
use crate::stream::{HintSink, give_hint, print_below};
use cli_text::report::EscapedPath;
use savefile::Fault;
use std::io;
use std::io::ErrorKind;

/// Hints on a device that failed.
pub fn hint_failure<T, E: HintSink>(noted: &FailureProbe<T>, err: &mut E)
    ensures quiet { E.takes_hints err.old ≡ false → err.new ≡ err.old }
{
    if let Some(error) = noted.failure() {
        hint_reason(&error, err);
    }
}

/// Hints on why standard output failed. If nobody reads it any more, nothing was reported either.
pub fn hint_unprinted<E: HintSink>(error: &io::Error, err: &mut E)
    ensures quiet { E.takes_hints err.old ≡ false → err.new ≡ err.old }
{
    if error.kind() != ErrorKind::BrokenPipe {
        hint_reason(error, err);
    }
}

/// Hints on standard output that failed, if it did.
pub fn hint_output<T, E: HintSink>(noted: &FailureProbe<T>, err: &mut E)
    ensures quiet { E.takes_hints err.old ≡ false → err.new ≡ err.old }
{
    if let Some(error) = noted.failure() {
        hint_unprinted(&error, err);
    }
}

/// Hints on standard output that failed, if it did, among the reports of other files.
pub fn hint_printed<T, E: HintSink>(noted: &FailureProbe<T>, err: &mut E)
    ensures quiet { E.takes_hints err.old ≡ false → err.new ≡ err.old }
{
    if let Some(error) = noted.failure() {
        if error.kind() != ErrorKind::BrokenPipe {
            give_hint("standard output:", err);
            hint_reason(&error, err);
        }
    }
}

/// Hints on the device of a capture, which failed. One that is a folder has captures in it, which
/// are named one by one.
fn hint_device<T, E: HintSink>(noted: &FailureProbe<T>, err: &mut E)
    ensures quiet { E.takes_hints err.old ≡ false → err.new ≡ err.old }
{
    hint_failure(noted, err);
    if let Some(error) = noted.failure() {
        if error.kind() == ErrorKind::IsADirectory {
            give_hint("name its captures: DIR/*.pcap", err);
        }
    }
}

/// Hints on a capture that was not read to its end.
pub fn hint_input<T, E: HintSink>(noted: &FailureProbe<T>, fault: Fault, err: &mut E)
    ensures quiet { E.takes_hints err.old ≡ false → err.new ≡ err.old }
{
    match fault {
        Fault::Device => hint_device(noted, err),
        _ => hint_capture_fault(noted.first(), fault, err),
    }
}

/// Prints below the line of a fault the path of the n-th of several captures, from 0, which has it.
/// Of a single capture it prints nothing, nor if hints are wanted: [`hint_source`] begins with
/// the path.
pub fn name_source<E: HintSink>(paths: &[&str], n: usize, err: &mut E) -> io::Result<()>
    ensures single { length paths.now ≤ 1 → err.new ≡ err.old }
    ensures none { slice_get paths.now n ≡ None → err.new ≡ err.old }
    ensures hinted { E.takes_hints err.old ≡ true → err.new ≡ err.old }
    ensures object { E.fault_form err.old ≡ Json → err.new ≡ err.old }
    ensures more { TellsMore E.takes_hints E.failed E.contents E.fault_form err.old err.new }
{
    match paths.get(n) {
        Some(path) if paths.len() > 1 && !err.takes_hints() => {
            print_below(EscapedPath(*path), err)
        }
        _ => Ok(()),
    }
}

/// Hints on the n-th of several captures, from 0, which was not read to its end.
pub fn hint_source<R, E: HintSink>(
    paths: &[&str],
    sources: &[ProbedInput<R>],
    n: usize,
    fault: Fault,
    err: &mut E,
)
    ensures quiet { E.takes_hints err.old ≡ false → err.new ≡ err.old }
{
    if let (Some(path), Some(source)) = (paths.get(n), sources.get(n)) {
        give_hint(format_args!("{}:", EscapedPath(*path)), err);
        hint_input(&source.inner, fault, err);
    }
}
