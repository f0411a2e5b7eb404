//! The faults of captures and of other files.

ghost use Rattle.std.specs.Prelude.{◌≡◌, option_map, slice_get};
ghost use Rattle.fault_report.specs.Captures.{IsCaptureFault, IsNthCaptureFault, IsOutputFault, capture_subject, is_of_capture};
ghost use Rattle.fault_report.specs.Reports.{IsDevice};
ghost use Rattle.fault_report.specs.declared.report.Subject.TheVariants.{Capture};

use crate::report::{Report, Subject};
use crate::word::Word;
use savefile::Fault;

/// That a file or a stream failed.
pub fn device(subject: Subject<'_>) -> Report<'_>
    ensures { IsDevice subject.entry result }
{
    Report::named(Fault::Device.name()).about(subject)
}

/// Whether a fault is of the bytes of a capture.
fn is_of_capture(fault: Fault) -> bool
    ensures { result ≡ is_of_capture fault }
{
    match fault {
        Fault::ShortHeader | Fault::NotSavefile | Fault::Version | Fault::LinkType => true,
        Fault::TornRecord(_) | Fault::BadFraction(_) | Fault::TooLong(_) => true,
        Fault::NoMemory | Fault::Device | Fault::Failed | Fault::CountFull => false,
    }
}

/// What has the fault of the capture at a path: that capture, if it is a fault of its bytes; and
/// the file if that failed.
fn subject_of(fault: Fault, path: &str) -> Option<Subject<'_>>
    ensures { result ≡ capture_subject fault path.entry }
{
    match fault {
        Fault::Device => Some(Subject::File(path)),
        _ if is_of_capture(fault) => Some(Subject::Capture(path)),
        _ => None,
    }
}

/// The fault of the only capture, at this path: its line names the path only if the file failed.
pub fn capture_fault(fault: Fault, path: &str) -> Report<'_>
    ensures { IsCaptureFault fault path.entry result }
{
    Report {
        subject: subject_of(fault, path),
        ..Report::placed(fault.name(), Word::record(fault.place()))
    }
}

/// The capture of this number, of those at these paths.
fn nth_subject<'a>(paths: &[&'a str], number: usize) -> Option<Subject<'a>>
    ensures { result ≡ option_map Capture (slice_get paths.now number) }
{
    match paths.get(number) {
        Some(path) => Some(Subject::Capture(*path)),
        None => None,
    }
}

/// Why a capture at this path was not written further: the line names the path if the file failed.
pub fn output_fault(fault: Fault, path: &str) -> Report<'_>
    ensures { IsOutputFault fault path.entry result }
{
    match fault {
        Fault::Device => device(Subject::File(path)),
        _ => Report::placed(fault.name(), Word::record(fault.place())),
    }
}

/// The fault of the capture of this number, of those at these paths: its line has the number.
pub fn nth_capture_fault<'a>(fault: Fault, number: usize, paths: &[&'a str]) -> Report<'a>
    ensures { IsNthCaptureFault fault number paths.now result }
{
    Report {
        subject: nth_subject(paths, number),
        ..Report::of_part("Capture", number, fault.name(), Word::record(fault.place()))
    }
}
