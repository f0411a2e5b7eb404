//! How a cut or a print ended, as it is reported, and its exit status.

ghost use Rattle.std.specs.Prelude.{◌≡◌, IfOk};
ghost use Rattle.line_text.specs.Sending.{Takes};
ghost use Rattle.cli_text.specs.Status.{code};
ghost use Rattle.fault_report.specs.Reports.{Tells, TellsOne};
ghost use Rattle.cli_cut.specs.Reporting.{IsRefusalReport, TellsFault, TellsPrint};
ghost use Rattle.cli_cut.specs.Cutting.{IsRefusalStatus};
ghost use Rattle.cli_cut.specs.Telling.{count_told, is_counted, print_status, status_of, tally_json, tally_line, tally_text};

use crate::outcome::Refusal;
use crate::print::PrintFault;
use cli_files::paths::report_path;
use cli_files::reading::{report_io, report_long_text};
use cli_filter::{expression_report, report_no_filter};
use cli_report::HintSink;
use cli_text::Status;
use cli_text::report::fault_status;
use fault_report::captures::output_fault;
use fault_report::reporting::{report_capture, report_fault, report_memory, report_unwritten};
use fault_report::{FaultSink, TextSink};
use line_text::{Line, LineForm};
use pcap_cut::cut::{CutEnd, End, Tally};
use savefile::Fault;
use std::alloc::Global;
use std::io;
use std::io::Write;

/// Reports how a cut from one path to another ended, and returns the exit status.
pub fn report_end<E: FaultSink>(end: End, from: &str, to: &str, err: &mut E) -> Status
    ensures status { result ≡ status_of end }
    ensures told { TellsFault E.takes_hints E.failed E.contents E.fault_form from.entry to.entry end err.old err.new }
{
    match end {
        End::Clean => Status::Clean,
        End::Input(fault) => report_capture(fault, from, err),
        End::Output(fault) => report_fault(&output_fault(fault, to), fault_status(fault), err),
    }
}

/// [`report_end`] as text, with the exit status as a number.
pub fn tell<R, W, E: Write>(end: &CutEnd<R, W>, from: &str, to: &str, err: &mut E) -> u8
    ensures { result ≡ code (status_of end.now.end) }
{
    report_end(end.end, from, to, &mut TextSink(err)).code()
}

/// Reports why nothing was cut, with hints, and returns the exit status.
pub(crate) fn report_refusal<E: HintSink>(
    alloc: Global,
    refusal: &Refusal<'_>,
    expr: Option<&str>,
    err: &mut E,
) -> Status
    ensures status { IsRefusalStatus refusal.now result }
    ensures told { TellsOne E.takes_hints E.failed E.contents E.fault_form (IsRefusalReport refusal.now) err.old err.new }
{
    match refusal {
        Refusal::Filter(listing, fault) => {
            let listing = listing.as_ref().map(|text| text.as_slice());
            report_no_filter(alloc, listing, expr, *fault, err)
        }
        Refusal::TextTooLong(path) => report_long_text(*path, err),
        Refusal::Paths(fault) => report_path(fault, err),
        Refusal::File(path, error) => report_io(error, *path, err),
        Refusal::NoMemory => report_memory(err),
    }
}

/// Whether what OUT has is known by packets: the capture was read to its end or to a torn or bad
/// record, and all was written.
pub(crate) fn is_counted(end: End) -> bool
    ensures { result ≡ is_counted end }
{
    match end {
        End::Clean => true,
        End::Input(fault) => fault_status(fault) == Status::Damaged,
        End::Output(_) => false,
    }
}

#[tactic(auto, unfolding(crate::specs::Telling::tally_text))]
fn tally_text(tally: Tally) -> io::Result<Line>
    ensures { IfOk result (λ line. line ≡ tally_text tally) }
{
    let mut line = Line::new();
    writeln!(line, "{} of {} packets", tally.written, tally.read)?;
    Ok(line)
}

#[tactic(auto, unfolding(crate::specs::Telling::tally_json))]
fn tally_object(tally: Tally) -> io::Result<Line>
    ensures { IfOk result (λ line. line ≡ tally_json tally) }
{
    let mut line = Line::new();
    writeln!(
        line,
        "{{\"kept\":{},\"packets\":{}}}",
        tally.written, tally.read
    )?;
    Ok(line)
}

/// The line of a tally.
fn tally_line(tally: Tally, form: LineForm) -> io::Result<Line>
    ensures { IfOk result (λ line. line ≡ tally_line form tally) }
{
    match form {
        LineForm::Text => tally_text(tally),
        LineForm::Json => tally_object(tally),
    }
}

/// Reports a tally.
pub(crate) fn report_tally<E: HintSink>(tally: Tally, form: LineForm, err: &mut E) -> io::Result<()>
    ensures taken { Takes (E.contents err.old) (E.contents err.new) result (tally_line form tally) }
    ensures told { Tells E.takes_hints E.failed E.contents E.fault_form err.old err.new (tally_line form tally) }
{
    match tally_line(tally, form) {
        Ok(line) => err.tell_line(line.as_bytes()),
        Err(error) => {
            err.fail();
            Err(error)
        }
    }
}

/// Reports how many of the packets were written, in a line `67 of 253 packets` or in an object of
/// JSON, if the capture was read to its end or to a torn or bad record, and all was written. Else
/// it reports nothing. The error is that of standard error, which took a prefix of the line.
#[tactic(auto, using(crate::proofs::Telling::nothing_told))]
pub fn report_count<E: HintSink>(
    end: End,
    tally: Tally,
    form: LineForm,
    err: &mut E,
) -> io::Result<()>
    ensures taken { Takes (E.contents err.old) (E.contents err.new) result (count_told form end tally) }
    ensures told { Tells E.takes_hints E.failed E.contents E.fault_form err.old err.new (count_told form end tally) }
{
    if is_counted(end) {
        report_tally(tally, form, err)
    } else {
        Ok(())
    }
}

/// Reports why a program was not printed, if it was not, and returns the exit status.
pub fn report_print<E: FaultSink>(printed: &Result<(), PrintFault>, err: &mut E) -> Status
    ensures status { result ≡ print_status printed.now }
    ensures told { TellsPrint E.takes_hints E.failed E.contents E.fault_form printed.now err.old err.new }
{
    match printed {
        Ok(()) => Status::Clean,
        Err(PrintFault::Output(error)) => report_unwritten(error, err),
        Err(PrintFault::NoMemory) => report_memory(err),
        Err(PrintFault::Expression(fault)) => {
            report_fault(&expression_report(*fault), Status::Refused, err)
        }
    }
}
