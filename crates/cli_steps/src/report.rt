//! What is reported of a replay, and the exit status.

ghost use Rattle.std.specs.Prelude.{◌≡◌, ◌++◌};
ghost use Rattle.line_text.specs.Sending.{Takes};
ghost use Rattle.cli_text.specs.Status.{greater};
ghost use Rattle.cli_text.specs.declared.status.Status.TheVariants.{Refused};
ghost use Rattle.cli_text.specs.Telling.{told_line, print_status_of};
ghost use Rattle.tap.specs.Faults.{fault_text};
ghost use Rattle.cli_steps.specs.Playing.{record_fault_status, failed_output_line, record_fault_line};

use cli_text::Status;
use cli_text::report::{Outcome, print_status, report_line};
use std::io;
use std::io::Write;
use tap::Fault;

/// The exit status of a capture that ended with a record fault, if one did.
fn record_fault_status(record_fault: Option<(u32, savefile::Fault)>) -> Status
    ensures { result ≡ record_fault_status record_fault }
{
    match record_fault {
        Some(_) => Status::Damaged,
        None => Status::Clean,
    }
}

/// Reports that standard output failed, if this is the status of that.
fn report_failed_output<E: Write>(printed: Status, err: &mut E) -> io::Result<()>
    ensures { Takes (E.contents err.old) (E.contents err.new) result (failed_output_line printed) }
{
    match printed {
        Status::Clean => Ok(()),
        _ => report_line("Device standard output", err),
    }
}

/// Reports the capture that ended with a record fault, if one did.
fn report_record_fault<E: Write>(
    record_fault: Option<(u32, savefile::Fault)>,
    err: &mut E,
) -> io::Result<()>
    ensures { Takes (E.contents err.old) (E.contents err.new) result (record_fault_line record_fault) }
{
    match record_fault {
        Some((n, fault)) => report_line(Fault::Capture(n, fault), err),
        None => Ok(()),
    }
}

/// Reports that standard output failed, if this is the status of that, and then a capture's record fault. If the first line is not
/// taken, the second is not sent.
fn report_both<E: Write>(
    printed: Status,
    record_fault: Option<(u32, savefile::Fault)>,
    err: &mut E,
) -> io::Result<()>
    ensures { Takes (E.contents err.old) (E.contents err.new) result (failed_output_line printed ++ record_fault_line record_fault) }
{
    report_failed_output(printed, err)?;
    report_record_fault(record_fault, err)
}

/// Reports that standard output failed, and then a capture's record fault, and returns the greatest status that applies.
pub fn report_end<E: Write>(
    printed: io::Result<()>,
    record_fault: Option<(u32, savefile::Fault)>,
    err: &mut E,
) -> Outcome
    ensures greatest { result.status ≡ greater (print_status_of printed) (record_fault_status record_fault) }
    ensures tells { Takes (E.contents err.old) (E.contents err.new) result.told (failed_output_line (print_status_of printed) ++ record_fault_line record_fault) }
{
    let status = print_status(&printed);
    Outcome {
        status: status.max(record_fault_status(record_fault)),
        told: report_both(status, record_fault, err),
    }
}

/// Reports why there is no replay.
pub fn report_refusal<E: Write>(fault: Fault, err: &mut E) -> Outcome
    ensures tells { Takes (E.contents err.old) (E.contents err.new) result.told (told_line (fault_text fault)) }
    ensures status { result.status ≡ Refused }
{
    Outcome {
        status: Status::Refused,
        told: report_line(fault, err),
    }
}
