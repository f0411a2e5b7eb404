//! What is printed of a replay: a line for each listener, batch and message.

ghost use Rattle.std.specs.Prelude.{◌≡◌, ◌++◌, OnOk};
ghost use Rattle.line_text.specs.Sending.{Takes};
ghost use Rattle.line_text.specs.Texts.{numbered};
ghost use Rattle.tap_text.specs.Printed.{message_line, message_in, messages_in, part_line, part_in, part_lines, batches_in, listener_line, listener_in, report_lines, reports_in, printed_reports};
ghost use Rattle.tap_text.specs.declared.objects.ReportPart.TheVariants.{Batch};

use crate::objects::{ReportPart, put_listener_object, put_message_object, put_part_object};
use line_text::sending::send;
use line_text::time::NineDigits;
use line_text::{Line, LineForm};
use listener::Message;
use std::io;
use std::io::Write;
use tap::Report;

/// The form of the lines of a report, and its listener's number, from 0.
#[derive(Clone, Copy)]
struct ReportHead {
    form: LineForm,
    l: usize,
}

/// Puts the text of a message in place of what the line has.
#[tactic(auto, unfolding(crate::specs::Printed::message_line))]
fn put_message_text(line: &mut Line, message: &Message) -> io::Result<()>
    ensures { OnOk result (line.new ≡ message_line message.now) }
{
    line.clear();
    let kept = message.bytes.as_slice().len();
    write!(
        line,
        "capture {} place {} time {}.{}",
        message.capture,
        message.place,
        message.sec,
        NineDigits(message.nanos)
    )?;
    writeln!(line, " len {} kept {kept}", message.len)
}

/// Puts the line of a message in place of what the line has.
fn put_message(
    head: ReportHead,
    part: ReportPart,
    message: &Message,
    line: &mut Line,
) -> io::Result<()>
    ensures { OnOk result (line.new ≡ message_in head.form head.l part message.now) }
{
    match head.form {
        LineForm::Text => put_message_text(line, message),
        LineForm::Json => put_message_object(line, head.l, part, message),
    }
}

/// Writes messages, each on a line of its own.
fn write_messages<O: Write>(
    head: ReportHead,
    part: ReportPart,
    messages: &[Message],
    line: &mut Line,
    out: &mut O,
) -> io::Result<()>
    ensures { Takes (O.contents out.old) (O.contents out.new) result (messages_in head.form head.l part messages.now) }
{
    for message in messages {
        put_message(head, part, message, line)?;
        send(line.as_bytes(), out)?;
    }
    Ok(())
}

/// Puts the text of a part in place of what the line has.
fn put_part_text(line: &mut Line, part: ReportPart) -> io::Result<()>
    ensures { OnOk result (line.new ≡ part_line part) }
{
    line.clear();
    match part {
        ReportPart::Batch(b) => writeln!(line, "batch {b}"),
        ReportPart::Held => writeln!(line, "held"),
    }
}

/// Puts the line of a part in place of what the line has.
fn put_part(head: ReportHead, part: ReportPart, line: &mut Line) -> io::Result<()>
    ensures { OnOk result (line.new ≡ part_in head.form head.l part) }
{
    match head.form {
        LineForm::Text => put_part_text(line, part),
        LineForm::Json => put_part_object(line, head.l, part),
    }
}

/// Writes a part: its line, and its messages.
fn write_part<O: Write>(
    head: ReportHead,
    part: ReportPart,
    messages: &[Message],
    line: &mut Line,
    out: &mut O,
) -> io::Result<()>
    ensures { Takes (O.contents out.old) (O.contents out.new) result (part_lines head.form head.l part messages.now) }
{
    put_part(head, part, line)?;
    send(line.as_bytes(), out)?;
    write_messages(head, part, messages, line, out)
}

/// Writes the batches of the l-th listener, numbered from 0.
fn write_batches<O: Write>(
    head: ReportHead,
    batches: &[Vec<Message>],
    line: &mut Line,
    out: &mut O,
) -> io::Result<()>
    ensures { Takes (O.contents out.old) (O.contents out.new) result (numbered (λ b batch. part_lines head.form head.l (Batch b) batch.items) 0 batches.now) }
{
    for (b, batch) in batches.iter().enumerate() {
        write_part(head, ReportPart::Batch(b), batch.as_slice(), line, out)?;
    }
    Ok(())
}

/// Puts the text of a listener's counts in place of what the line has.
fn put_listener_text(line: &mut Line, l: usize, report: &Report) -> io::Result<()>
    ensures { OnOk result (line.new ≡ listener_line l report.now) }
{
    line.clear();
    writeln!(
        line,
        "listener {l} received {} matched {} dropped {}",
        report.received, report.matched, report.dropped
    )
}

/// Puts the line of a listener's counts in place of what the line has.
fn put_listener(head: ReportHead, report: &Report, line: &mut Line) -> io::Result<()>
    ensures { OnOk result (line.new ≡ listener_in head.form head.l report.now) }
{
    match head.form {
        LineForm::Text => put_listener_text(line, head.l, report),
        LineForm::Json => put_listener_object(line, head.l, report),
    }
}

/// Writes the l-th listener's counts and its batches.
fn write_read<O: Write>(
    head: ReportHead,
    report: &Report,
    line: &mut Line,
    out: &mut O,
) -> io::Result<()>
    ensures { Takes (O.contents out.old) (O.contents out.new) result (listener_in head.form head.l report.now ++ batches_in head.form head.l report.now) }
{
    put_listener(head, report, line)?;
    send(line.as_bytes(), out)?;
    write_batches(head, report.batches.as_slice(), line, out)
}

/// Writes the l-th listener's counts, its batches, and what it holds.
fn write_report<O: Write>(
    head: ReportHead,
    report: &Report,
    line: &mut Line,
    out: &mut O,
) -> io::Result<()>
    ensures { Takes (O.contents out.old) (O.contents out.new) result (report_lines head.form head.l report.now) }
{
    write_read(head, report, line, out)?;
    write_part(head, ReportPart::Held, report.held.as_slice(), line, out)
}

/// Writes the reports of all listeners, in order, numbered from 0: a listener's counts, its
/// batches, numbered from 0, with a line for each message, and what it holds. If that fails, `out`
/// took a prefix of the text and no more. It takes no memory.
///
/// In JSON each line is an object that names its listener. That of a message has `"batch":B` or
/// `"held":true`.
pub fn write_reports<O: Write>(form: LineForm, reports: &[Report], out: &mut O) -> io::Result<()>
    ensures { Takes (O.contents out.old) (O.contents out.new) result (reports_in form reports.now) }
{
    let mut line = Line::new();
    for (l, report) in reports.iter().enumerate() {
        write_report(ReportHead { form, l }, report, &mut line, out)?;
    }
    Ok(())
}

/// Prints the reports in a form, and passes on all that the writer has gathered of them.
pub fn print_reports_in<O: Write>(form: LineForm, reports: &[Report], out: &mut O) -> io::Result<()>
    ensures { Takes (O.contents out.old) (O.contents out.new) result (reports_in form reports.now) }
{
    write_reports(form, reports, out)?;
    out.flush()
}

/// Prints the reports as text, and passes on all that the writer has gathered of them.
pub fn print_reports<O: Write>(reports: &[Report], out: &mut O) -> io::Result<()>
    ensures { Takes (O.contents out.old) (O.contents out.new) result (printed_reports reports.now) }
{
    print_reports_in(LineForm::Text, reports, out)
}
