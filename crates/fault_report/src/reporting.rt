//! Reports faults.

ghost use Rattle.std.specs.Prelude.{◌≡◌, ◌≢◌, false, IfOk, OnOk};
ghost use Rattle.std.specs.Io.KnownBytes.{Appends};
ghost use Rattle.std.specs.IoError.{error_kind};
ghost use Rattle.cli_text.specs.declared.status.Status.TheVariants.{Failed, Refused};
ghost use Rattle.cli_text.specs.Telling.{fault_status, print_status_of};
ghost use Rattle.line_text.specs.Sending.{Takes};
ghost use Rattle.fault_report.specs.Captures.{IsCaptureFault, IsNthCaptureFault};
ghost use Rattle.fault_report.specs.Reports.{IsDevice, IsNoMemory, Tells, TellsMore, TellsOne, has_path, reported};
ghost use Rattle.fault_report.specs.declared.report.Subject.TheVariants.{File, StandardOutput};

use crate::captures::{capture_fault, device, nth_capture_fault};
use crate::printed::Printed;
use crate::report::{Report, Subject};
use crate::sink::FaultSink;
use cli_text::Status;
use cli_text::report::fault_status;
use line_text::sending::send;
use line_text::{Line, LineForm};
use savefile::Fault;
use std::io;
use std::io::{ErrorKind, Write};

/// The line of a report, if it has at most 512 bytes.
fn line_of(form: LineForm, report: &Report<'_>) -> io::Result<Line>
    ensures { IfOk result (λ line. line ≡ reported form report.now) }
{
    let mut line = Line::new();
    writeln!(line, "{}", Printed { form, report })?;
    Ok(line)
}

/// Whether what is printed of a report has a path in it, of any length.
fn has_path(form: LineForm, report: &Report<'_>) -> bool
    ensures { result ≡ has_path form report.now.subject }
{
    match (form, report.subject) {
        (_, Some(Subject::File(_))) => true,
        (LineForm::Json, Some(Subject::Capture(_))) => true,
        _ => false,
    }
}

/// Reports a fault in a line of its own, or as an object: in one piece if it has at most 512 bytes.
/// What has a path in it is reported whatever its length.
pub fn report_in<E: Write>(form: LineForm, report: &Report<'_>, err: &mut E) -> io::Result<()>
    ensures whole { OnOk result (Appends (E.contents err.old) (E.contents err.new) (reported form report.now)) }
    // Without a path it takes a prefix if standard error fails.
    ensures part { has_path form report.now.subject ≡ false → Takes (E.contents err.old) (E.contents err.new) result (reported form report.now) }
{
    match line_of(form, report) {
        Ok(line) => send(line.as_bytes(), err),
        Err(_) if has_path(form, report) => writeln!(err, "{}", Printed { form, report }),
        Err(error) => Err(error),
    }
}

/// Reports a fault, and gives the status back. If standard error itself fails, only the status is
/// left.
pub fn report_fault<E: FaultSink>(fault: &Report<'_>, status: Status, err: &mut E) -> Status
    ensures status { result ≡ status }
    ensures told { Tells E.takes_hints E.failed E.contents E.fault_form err.old err.new (reported (E.fault_form err.old) fault.now) }
{
    err.tell(fault);
    status
}

/// Reports that memory was refused.
pub fn report_memory<E: FaultSink>(err: &mut E) -> Status
    ensures status { result ≡ Refused }
    ensures told { TellsOne E.takes_hints E.failed E.contents E.fault_form IsNoMemory err.old err.new }
{
    report_fault(&Report::named(Fault::NoMemory.name()), Status::Refused, err)
}

/// Reports that the file or device of a path failed.
pub fn report_device<E: FaultSink>(path: &str, err: &mut E) -> Status
    ensures status { result ≡ Failed }
    ensures told { TellsOne E.takes_hints E.failed E.contents E.fault_form (IsDevice (File path.entry)) err.old err.new }
{
    report_fault(&device(Subject::File(path)), Status::Failed, err)
}

/// Reports that standard output failed, if it did, and returns the exit status of printing. If
/// nobody reads what is printed any more, as after `| head`, it reports nothing.
pub fn report_output<E: FaultSink>(printed: &io::Result<()>, err: &mut E) -> Status
    ensures status { result ≡ print_status_of printed.now }
    ensures more { TellsMore E.takes_hints E.failed E.contents E.fault_form err.old err.new }
{
    match printed {
        Ok(()) => Status::Clean,
        Err(error) => report_unwritten(error, err),
    }
}

/// Reports that standard output failed, and returns the exit status. If nobody reads what is
/// printed any more, it reports nothing.
pub fn report_unwritten<E: FaultSink>(error: &io::Error, err: &mut E) -> Status
    ensures status { result ≡ Failed }
    ensures gone { error_kind error.now ≡ ErrorKind.BrokenPipe → err.new ≡ err.old }
    ensures told { error_kind error.now ≢ ErrorKind.BrokenPipe → TellsOne E.takes_hints E.failed E.contents E.fault_form (IsDevice StandardOutput) err.old err.new }
    ensures more { TellsMore E.takes_hints E.failed E.contents E.fault_form err.old err.new }
{
    match error.kind() {
        ErrorKind::BrokenPipe => Status::Failed,
        _ => report_fault(&device(Subject::StandardOutput), Status::Failed, err),
    }
}

/// Reports the fault of the only capture, at this path. Returns the exit status.
pub fn report_capture<E: FaultSink>(fault: Fault, path: &str, err: &mut E) -> Status
    ensures status { result ≡ fault_status fault }
    ensures told { TellsOne E.takes_hints E.failed E.contents E.fault_form (IsCaptureFault fault path.entry) err.old err.new }
{
    report_fault(&capture_fault(fault, path), fault_status(fault), err)
}

/// Reports the fault of the capture of this number, of those at these paths. Returns the exit
/// status.
pub fn report_nth_capture<E: FaultSink>(
    fault: Fault,
    number: usize,
    paths: &[&str],
    err: &mut E,
) -> Status
    ensures status { result ≡ fault_status fault }
    ensures told { TellsOne E.takes_hints E.failed E.contents E.fault_form (IsNthCaptureFault fault number paths.now) err.old err.new }
{
    report_fault(
        &nth_capture_fault(fault, number, paths),
        fault_status(fault),
        err,
    )
}
