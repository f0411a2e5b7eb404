//! The faults of a replay, as values that are reported.

ghost use Rattle.std.specs.Prelude.{◌≡◌, false, [], IfSome, MatchOption};
ghost use Rattle.line_text.specs.declared.form.LineForm.TheVariants.{Text};
ghost use Rattle.replay_types.specs.declared.report.InterfaceEnd.TheVariants.{Capture};
ghost use Rattle.fault_report.specs.Reports.{has_path, reported};
ghost use Rattle.cli_run.specs.Printed.{interface_told};

use fault_report::captures::nth_capture_fault;
use fault_report::{Report, Word};
use replay_types::{InterfaceEnd, RunFault};
use savefile::Fault;

/// What the fault of an interface begins with.
const INTERFACE: &str = "Interface";

/// Why there is no replay.
pub(crate) fn replay_fault(fault: RunFault) -> Report<'static> {
    let name = fault.name();
    match fault {
        RunFault::TooMany | RunFault::NoStart => Report::named(name),
        RunFault::Open(interface, task, fault) => Report {
            name,
            words: [
                Word::Number(u64::from(interface)),
                Word::Number(u64::from(task)),
                Word::Name(fault.name()),
                Word::Nothing,
                Word::Nothing,
            ],
            subject: None,
        },
    }
}

/// The fault of the n-th capture of the i-th interface, whose captures are at these paths, if they
/// are known.
fn capture_fault<'a>(i: usize, n: usize, fault: Fault, paths: Option<&Vec<&'a str>>) -> Report<'a>
    ensures text { reported Text result ≡ interface_told i (Capture n fault) }
    ensures path { has_path Text result.subject ≡ false }
{
    let inner = match paths {
        Some(paths) => nth_capture_fault(fault, n, paths.as_slice()),
        None => nth_capture_fault(fault, n, &[]),
    };
    let [number, name, place, _, _] = inner.words;
    Report {
        name: INTERFACE,
        words: [Word::count(i), Word::Name(inner.name), number, name, place],
        subject: inner.subject,
    }
}

/// How the captures of the i-th interface, which are at these paths if they are known, ended, if
/// that was not clean.
pub(crate) fn end_fault<'a>(
    i: usize,
    end: InterfaceEnd,
    paths: Option<&Vec<&'a str>>,
) -> Option<Report<'a>>
    ensures text { MatchOption result (interface_told i end ≡ []) (λ fault. reported Text fault ≡ interface_told i end) }
    ensures path { IfSome result (λ fault. has_path Text fault.subject ≡ false) }
{
    match end {
        InterfaceEnd::Clean => None,
        InterfaceEnd::Capture(n, fault) => Some(capture_fault(i, n as usize, fault, paths)),
        InterfaceEnd::CountFull => {
            Some(Report::of_part(INTERFACE, i, "CountFull", Word::Nothing))
        }
    }
}
