//! What `bpftap run` prints of each listener, what it reports of each interface, and its exit
//! status.

ghost use Rattle.std.specs.Prelude.{◌≡◌, ◌++◌, OnOk, Some};
ghost use Rattle.line_text.specs.declared.form.LineForm.TheVariants.{Text};
ghost use Rattle.line_text.specs.Sending.{Takes, streams};
ghost use Rattle.cli_text.specs.Telling.{output_line};
ghost use Rattle.line_text.specs.Texts.{numbered};
ghost use Rattle.cli_run.specs.Printed.{end_text, interface_told, listener_line, listener_text, printed_replay, told_replay};
ghost use Rattle.cli_run.specs.Replaying.{ReportsRun, interface_status, listeners_status, report_status, run_status, task_status};

use crate::object::put_listener_object;
use crate::reported::end_fault;
use cli_text::Status;
use cli_text::report::{Outcome, fault_status, print_status, report_output};
use fault_report::reporting::report_in;
use line_text::sending::send;
use line_text::{Line, LineForm};
use replay_types::{InterfaceEnd, InterfaceReport, ListenerReport, TaskEnd};
use std::fmt::{Display, Formatter};
use std::io::Write;
use std::{fmt, io};

/// How the writing of a listener's packets ended, as it is printed.
#[derive(Clone, Copy)]
struct EndText(TaskEnd);

impl Display for EndText {
    ghost output = { λ end. Some (end_text end.0) };

    fn fmt<W: fmt::Write>(&self, f: &mut Formatter<W>) -> fmt::Result {
        match self.0 {
            TaskEnd::Clean => f.write_str("Clean"),
            TaskEnd::Write(bytes) => write!(f, "Write {bytes}"),
            TaskEnd::Unfinished => f.write_str("Unfinished"),
        }
    }
}

/// Puts the text of the l-th listener of the i-th interface in place of what the line has.
fn put_listener_text<W>(
    line: &mut Line,
    i: usize,
    l: usize,
    report: &ListenerReport<W>,
) -> io::Result<()>
    ensures { OnOk result (line.new ≡ listener_text i l report.now) }
{
    line.clear();
    writeln!(
        line,
        "interface {i} listener {l} received {} matched {} dropped {} written {} {}",
        report.received,
        report.matched,
        report.dropped,
        report.written,
        EndText(report.end)
    )
}

/// Puts the line of the l-th listener of the i-th interface in place of what the line has.
fn put_listener<W>(
    form: LineForm,
    line: &mut Line,
    i: usize,
    l: usize,
    report: &ListenerReport<W>,
) -> io::Result<()>
    ensures { OnOk result (line.new ≡ listener_line form i l report.now) }
{
    match form {
        LineForm::Text => put_listener_text(line, i, l, report),
        LineForm::Json => put_listener_object(line, i, l, report),
    }
}

/// The lines of the i-th interface's listeners, numbered from 0.
fn write_listeners<W, O: Write>(
    form: LineForm,
    i: usize,
    reports: &[ListenerReport<W>],
    line: &mut Line,
    out: &mut O,
) -> io::Result<()>
    ensures { Takes (O.contents out.old) (O.contents out.new) result (numbered (listener_line form i) 0 reports.now) }
{
    for (l, report) in reports.iter().enumerate() {
        put_listener(form, line, i, l, report)?;
        send(line.as_bytes(), out)?;
    }
    Ok(())
}

/// A line for each listener, by interface and then by listener.
fn write_reports<R, W, O: Write>(
    form: LineForm,
    reports: &[InterfaceReport<R, W>],
    out: &mut O,
) -> io::Result<()>
    ensures { Takes (O.contents out.old) (O.contents out.new) result (printed_replay form reports.now) }
{
    let mut line = Line::new();
    for (i, report) in reports.iter().enumerate() {
        write_listeners(form, i, report.listeners.as_slice(), &mut line, out)?;
    }
    Ok(())
}

/// Prints the reports, and all that the writer has gathered of them.
pub fn print_reports<R, W, O: Write>(
    form: LineForm,
    reports: &[InterfaceReport<R, W>],
    out: &mut O,
) -> io::Result<()>
    ensures { Takes (O.contents out.old) (O.contents out.new) result (printed_replay form reports.now) }
{
    write_reports(form, reports, out)?;
    out.flush()
}

/// The status of how a listener's capture ended.
fn listener_status<W>(report: &ListenerReport<W>) -> Status
    ensures { result ≡ task_status report.now.end }
{
    match report.end {
        TaskEnd::Clean => Status::Clean,
        TaskEnd::Write(_) => Status::Failed,
        TaskEnd::Unfinished => Status::Refused,
    }
}

/// The status of how an interface's captures ended.
fn interface_status(end: InterfaceEnd) -> Status
    ensures { result ≡ interface_status end }
{
    match end {
        InterfaceEnd::Clean => Status::Clean,
        InterfaceEnd::Capture(_, fault) => fault_status(fault),
        InterfaceEnd::CountFull => Status::Refused,
    }
}

/// The greatest status of these listeners.
fn listeners_status<W>(reports: &[ListenerReport<W>]) -> Status
    ensures { result ≡ listeners_status reports.now }
{
    let mut status = Status::Clean;
    for report in reports {
        status = status.max(listener_status(report));
    }
    status
}

/// The greatest status of an interface and its listeners.
fn report_status<R, W>(report: &InterfaceReport<R, W>) -> Status
    ensures { result ≡ report_status report.now }
{
    interface_status(report.end).max(listeners_status(report.listeners.as_slice()))
}

/// The greatest status of all interfaces.
pub fn run_status<R, W>(reports: &[InterfaceReport<R, W>]) -> Status
    ensures { result ≡ run_status reports.now }
{
    let mut status = Status::Clean;
    for report in reports {
        status = status.max(report_status(report));
    }
    status
}

/// Reports how the captures of the i-th interface ended, which are at these paths if they are
/// known, if that was not clean.
fn report_end<E: Write>(
    form: LineForm,
    i: usize,
    end: InterfaceEnd,
    paths: Option<&Vec<&str>>,
    err: &mut E,
) -> io::Result<()>
    ensures { form ≡ Text → Takes (E.contents err.old) (E.contents err.new) result (interface_told i end) }
{
    match end_fault(i, end, paths) {
        Some(fault) => report_in(form, &fault, err),
        None => Ok(()),
    }
}

/// Reports each interface that did not end clean, as a line or as an object of JSON; its captures
/// are at the paths of the same place, if they are known. If `err` does not take one, no further
/// one is reported.
pub(crate) fn report_ends<R, W, E: Write>(
    form: LineForm,
    inputs: &[Vec<&str>],
    reports: &[InterfaceReport<R, W>],
    err: &mut E,
) -> io::Result<()>
    ensures { form ≡ Text → Takes (E.contents err.old) (E.contents err.new) result (told_replay reports.now) }
{
    for (i, report) in reports.iter().enumerate() {
        report_end(form, i, report.end, inputs.get(i), err)?;
    }
    Ok(())
}

/// Reports that standard output failed, if it did, and then each interface that did not end clean.
/// If `err` does not take a line, no further one is reported.
fn report_all<R, W, E: Write>(
    printed: &io::Result<()>,
    reports: &[InterfaceReport<R, W>],
    err: &mut E,
) -> io::Result<()>
    ensures { Takes (E.contents err.old) (E.contents err.new) result (output_line printed.now ++ told_replay reports.now) }
{
    report_output(printed, err)?;
    report_ends(LineForm::Text, &[], reports, err)
}

/// Prints a line for each listener, by interface,
/// `interface I listener L received R matched M dropped D written N
/// END`, reports each interface that did not end clean, and returns the greatest status of all.
///
/// As JSON a line is an object,
/// `{"interface":I,"listener":L,"received":R,"matched":M,"dropped":D,"written":N,"end":"clean"}`;
/// the end may also be `"unfinished"`, or `"write"` with the member `"bytes":B`.
///
/// `out` took exactly these lines, or a prefix of them if it failed; that is reported first, unless
/// nobody reads `out` any more, and the status is [`Status::Failed`]. A listener has
/// [`Status::Refused`] for `Unfinished` and [`Status::Failed`] for `Write B`; an interface
/// [`Status::Failed`] if a source failed, [`Status::Damaged`] for the fault of a record, and
/// [`Status::Refused`] for any other.
pub fn report_run_in<R, W, O: Write, E: Write>(
    form: LineForm,
    reports: &[InterfaceReport<R, W>],
    out: &mut O,
    err: &mut E,
) -> Outcome
    ensures { ReportsRun form reports.now (streams (O.contents out.old) (E.contents err.old)) (streams (O.contents out.new) (E.contents err.new)) result }
{
    let printed = print_reports(form, reports, out);
    let told = report_all(&printed, reports, err);
    Outcome {
        status: print_status(&printed).max(run_status(reports)),
        told,
    }
}

/// [`report_run_in`], as text.
pub fn report_run<R, W, O: Write, E: Write>(
    reports: &[InterfaceReport<R, W>],
    out: &mut O,
    err: &mut E,
) -> Outcome
    ensures { ReportsRun Text reports.now (streams (O.contents out.old) (E.contents err.old)) (streams (O.contents out.new) (E.contents err.new)) result }
{
    report_run_in(LineForm::Text, reports, out, err)
}
