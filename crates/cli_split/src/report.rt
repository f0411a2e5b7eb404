//! What `bpftap split` prints of each OUT, what it reports, and its exit status.

ghost use Rattle.std.specs.Prelude.{◌≡◌, All, false, IsOk, OnOk, slice_get};
ghost use Rattle.line_text.specs.Sending.{Takes};
ghost use Rattle.line_text.specs.Texts.{numbered};
ghost use Rattle.cli_text.specs.Telling.{print_status_of};
ghost use Rattle.cli_text.specs.declared.status.Status.TheVariants.{Clean, Failed};
ghost use Rattle.cli_split.specs.Reporting.{TellsEnded, TellsFaults, TellsPart, TellsParts, TellsPrinted, TellsRead};
ghost use Rattle.cli_split.specs.Printed.{line_text, output_of, part_line, printed_split};
ghost use Rattle.cli_split.specs.Splitting.{passes_header};
ghost use Rattle.cli_split.specs.Statuses.{ReportsSplit, WentWell, parts_status, split_status, stop_status, written_status};

use crate::line::put_count;
use crate::part::PartEnd;
use crate::plan::SplitLine;
use crate::split::{SplitEnd, Stop};
use cli_text::Status;
use cli_text::report::fault_status;
use cli_watch::output::PrintSink;
use fault_report::FaultSink;
use fault_report::captures::output_fault;
use fault_report::reporting::{report_fault, report_nth_capture, report_unwritten};
use line_text::NamingForm;
use line_text::sending::send;
use savefile::Fault;
use std::io;
use std::io::Write;

/// A split that ended: its captures, the lines whose OUT was written, both in order, and how it ended.
#[derive(Drop)]
pub struct EndedSplit<'s, R, W> {
    pub captures: &'s [&'s str],
    pub lines: &'s [SplitLine<'s>],
    pub end: &'s SplitEnd<R, W>,
}

/// The line of a part that was written whole; no line of another one.
fn write_part<W, O: Write>(
    form: NamingForm,
    output: &str,
    part: &PartEnd<W>,
    line: &mut String,
    out: &mut O,
) -> io::Result<()>
    ensures { Takes (O.contents out.old) (O.contents out.new) result (part_line form output.now part.now) }
{
    if part.written.is_err() {
        return Ok(());
    }
    put_count(form, line, output, part.tally)?;
    send(line.as_bytes(), out)
}

/// The OUT of the n-th line, from 0; that of no line is empty.
fn output_at<'a>(lines: &[SplitLine<'a>], n: usize) -> &'a str
    ensures { result.now ≡ output_of (slice_get lines.now n) }
{
    match lines.get(n) {
        Some(line) => line.output,
        None => "",
    }
}

/// The lines of all parts.
fn write_parts<W, O: Write>(
    form: NamingForm,
    lines: &[SplitLine<'_>],
    parts: &[PartEnd<W>],
    line: &mut String,
    out: &mut O,
) -> io::Result<()>
    ensures { Takes (O.contents out.old) (O.contents out.new) result (numbered (line_text form lines.now) 0 parts.now) }
{
    for (n, part) in parts.iter().enumerate() {
        write_part(form, output_at(lines, n), part, line, out)?;
    }
    Ok(())
}

/// Whether the parts were started: the header of the first capture was read.
pub fn was_begun(end: Result<(), Stop>) -> bool
    ensures { result ≡ passes_header end }
{
    match end {
        Err(Stop::AtHeader(n, _)) => n != 0,
        _ => true,
    }
}

/// Prints the lines of all parts that were started, and all that the writer has gathered of them.
fn print_split<R, W, O: PrintSink>(
    form: NamingForm,
    lines: &[SplitLine<'_>],
    end: &SplitEnd<R, W>,
    line: &mut String,
    out: &mut O,
) -> io::Result<()>
    ensures taken { Takes (O.contents out.old) (O.contents out.new) result (printed_split form lines.now end.now) }
    ensures handed_on { O.waits out.old ≡ false → OnOk result (O.waits out.new ≡ false) }
{
    if !was_begun(end.end) {
        return Ok(());
    }
    write_parts(form, lines, end.parts.as_slice(), line, out)?;
    out.hand_on()
}

/// Reports why a part was not written whole, if it was not, and returns the exit status.
fn report_part<W, E: FaultSink>(output: &str, part: &PartEnd<W>, err: &mut E) -> Status
    ensures status { result ≡ written_status part.now.written }
    ensures silent { IsOk part.now.written → err.new ≡ err.old }
    ensures told { TellsPart E.takes_hints E.failed E.contents E.fault_form output.now part.now.written err.old err.new }
{
    match part.written {
        Ok(()) => Status::Clean,
        Err(fault) => report_fault(&output_fault(fault, output), fault_status(fault), err),
    }
}

/// Reports each part that was not written whole, and returns the greatest status.
fn report_parts<W, E: FaultSink>(
    lines: &[SplitLine<'_>],
    parts: &[PartEnd<W>],
    err: &mut E,
) -> Status
    ensures status { result ≡ parts_status parts.now }
    ensures silent { All (λ part. IsOk part.written) parts.now → err.new ≡ err.old }
    ensures told { TellsParts E.takes_hints E.failed E.contents E.fault_form lines.now 0 parts.now err.old err.new }
{
    let mut status = Status::Clean;
    for (n, part) in parts.iter().enumerate() {
        status = status.max(report_part(output_at(lines, n), part, err));
    }
    status
}

/// Reports what ended the reading, if something did, and returns the exit status.
fn report_stop<E: FaultSink>(end: Result<(), Stop>, paths: &[&str], err: &mut E) -> Status
    ensures status { result ≡ stop_status end }
    ensures silent { IsOk end → err.new ≡ err.old }
    ensures told { TellsRead E.takes_hints E.failed E.contents E.fault_form paths.now end err.old err.new }
{
    match end {
        Ok(()) => Status::Clean,
        Err(Stop::AtHeader(n, fault) | Stop::AtRecord(n, fault)) => {
            report_nth_capture(fault, n, paths, err)
        }
    }
}

/// Reports that standard output failed, if it did and somebody reads it, and returns the exit status of printing.
fn report_printed<E: FaultSink>(printed: &io::Result<()>, err: &mut E) -> Status
    ensures status { result ≡ print_status_of printed.now }
    ensures silent { IsOk printed.now → err.new ≡ err.old }
    ensures told { TellsPrinted E.takes_hints E.failed E.contents E.fault_form printed.now err.old err.new }
{
    match printed {
        Ok(()) => Status::Clean,
        Err(error) => report_unwritten(error, err),
    }
}

impl<R, W> EndedSplit<'_, R, W> {
    /// Reports the OUT of each part that was not written whole, and what ended the reading, and returns the greatest of their statuses, as
    /// [`report`](EndedSplit::report) does.
    pub fn report_faults<E: FaultSink>(&self, err: &mut E) -> Status
        ensures status { result ≡ split_status self.now.end.now }
        ensures silent { WentWell self.now.end.now → err.new ≡ err.old }
        ensures told { TellsFaults E.takes_hints E.failed E.contents E.fault_form self.now.lines.now self.now.captures.now self.now.end.now err.old err.new }
    {
        let parts = report_parts(self.lines, self.end.parts.as_slice(), err);
        parts.max(report_stop(self.end.end, self.captures, err))
    }

    /// Prints a line `OUT 67 of 253` for each part that was written whole, in the order of the lines: how many of how many packets; as JSON an
    /// object `{"file":"OUT","kept":67,"packets":253}`. If the header of the first capture was not read it prints nothing. Then it reports
    /// that standard output failed, if it did; the OUT of each part that was not written whole; and what ended the reading. It returns the
    /// greatest of the statuses of these.
    ///
    /// `line` is that of [`line_for`](crate::line::line_for), so that no memory is needed: if more were, and it is refused, that counts as
    /// standard output that failed.
    ///
    /// `out` took exactly these lines, or a prefix of them if it failed; then the status is [`Status::Failed`]. The status of a part is that of
    /// its fault, [`Status::Failed`] if its sink failed. So is that of a capture: [`Status::Failed`] if its source failed, and
    /// [`Status::Damaged`] for the fault of a record.
    pub fn report<O: PrintSink, E: FaultSink>(
        &self,
        form: NamingForm,
        line: &mut String,
        out: &mut O,
        err: &mut E,
    ) -> Status
        ensures prints { ReportsSplit form self.now.lines.now self.now.end.now (O.contents out.old) (O.contents out.new) result }
        ensures silent { result ≡ Clean → err.new ≡ err.old }
        ensures told { TellsEnded E.takes_hints E.failed E.contents E.fault_form self.now.lines.now self.now.captures.now self.now.end.now err.old err.new }
        ensures handed_on { O.waits out.old ≡ false → (result ≡ Failed → ⊥) → O.waits out.new ≡ false }
    {
        let printed = print_split(form, self.lines, self.end, line, out);
        let status = report_printed(&printed, err);
        status.max(self.report_faults(err))
    }
}
