//! Standard error that may take hints, and the line of a hint.

ghost use Rattle.std.specs.Prelude.{◌≡◌, ◌≢◌, ℕ, List, true, false, IfErr, IfOk, IfSome};
ghost use Rattle.line_text.specs.declared.form.LineForm.TheVariants.{Json, Text};
ghost use Rattle.std.specs.Io.{WritesAtMost};
ghost use Rattle.std.specs.Io.KnownBytes.{WriteAppends};
ghost use Rattle.std.specs.IoError.{error_kind};
ghost use Rattle.line_text.specs.Sending.{Takes};
ghost use Rattle.fault_report.specs.Reports.{Tells, TellsMore};
ghost use Rattle.cli_report.specs.Hints.{hint_line, wants_hints};

use fault_report::reporting::report_in;
use fault_report::{FaultSink, Report};
use line_text::sending::send;
use line_text::{Line, LineForm};
use std::fmt::Display;
use std::io;
use std::io::{ErrorKind, Write};

/// Where faults are reported, and whether hints are wanted below their lines.
pub trait HintSink: FaultSink {
    /// Whether hints are wanted.
    fn takes_hints(&self) -> bool
        ensures { result ≡ Self.takes_hints self.now };

    /// Notes that a line is lost since it could not be put together, as if a write of it had
    /// failed.
    fn fail(&mut self)
        ensures taken { Self.contents self.new ≡ Self.contents self.old }
        ensures told { (text : List ℕ) → Tells Self.takes_hints Self.failed Self.contents Self.fault_form self.old self.new text };
}

/// A writer that faults are reported to. Once a write has failed no hints are wanted: one without
/// the line of its fault explains nothing. None are wanted below an object of JSON either.
#[derive(Debug, Drop)]
pub struct ErrorStream<W> {
    inner: W,
    takes_hints: bool,
    failed: bool,
    form: LineForm,
}

impl<W> ErrorStream<W> {
    /// Faults are reported as text. Hints are wanted if standard error is a terminal, or if they
    /// are asked for.
    pub fn new(inner: W, takes_hints: bool) -> ErrorStream<W>
        ensures hints { result.takes_hints ≡ takes_hints }
        ensures failed { result.failed ≡ false }
        ensures form { result.form ≡ Text }
    {
        ErrorStream {
            inner,
            takes_hints,
            failed: false,
            form: LineForm::Text,
        }
    }

    /// From here on faults are reported in this form.
    pub fn set_form(&mut self, form: LineForm)
        ensures form { self.new.form ≡ form }
        ensures hints { self.new.takes_hints ≡ self.old.takes_hints }
        ensures failed { self.new.failed ≡ self.old.failed }
    {
        self.form = form;
    }
}

impl<W: Write> Write for ErrorStream<W> {
    ghost contents = { λ stream. W.contents stream.inner };

    fn write(&mut self, from: &[u8]) -> io::Result<usize>
        ensures bound { WritesAtMost result from.now }
        ensures bytes { WriteAppends (W.contents self.old.inner) (W.contents self.new.inner) result from.now }
        ensures failed { IfErr result (λ error. error_kind error ≢ ErrorKind.Interrupted → self.new.failed ≡ true) }
    {
        let written = self.inner.write(from);
        self.failed = self.failed || has_failed(&written, from);
        written
    }

    fn flush(&mut self) -> io::Result<()> {
        self.inner.flush()
    }
}

/// Whether a write failed: with an error, unless a signal interrupted it, or by taking nothing of
/// what it was given.
fn has_failed(written: &io::Result<usize>, from: &[u8]) -> bool
    ensures { IfErr written.now (λ error. error_kind error ≢ ErrorKind.Interrupted → result ≡ true) }
{
    match written {
        Ok(count) => *count == 0 && !from.is_empty(),
        Err(error) => error.kind() != ErrorKind::Interrupted,
    }
}

impl<W: Write> FaultSink for ErrorStream<W> {
    ghost fault_form = { λ stream. stream.form };

    ghost failed = { λ stream. stream.failed };

    ghost takes_hints = { λ stream. wants_hints stream.form stream.takes_hints stream.failed };

    fn fault_form(&self) -> LineForm {
        self.form
    }

    fn tell(&mut self, fault: &Report<'_>) {
        let told = report_in(self.form, fault, &mut self.inner);
        self.failed = self.failed || told.is_err();
    }

    fn tell_line(&mut self, line: &[u8]) -> io::Result<()> {
        let told = send(line, &mut self.inner);
        self.failed = self.failed || told.is_err();
        told
    }
}

impl<W: Write> HintSink for ErrorStream<W> {
    fn takes_hints(&self) -> bool {
        match self.form {
            LineForm::Text => self.takes_hints && !self.failed,
            LineForm::Json => false,
        }
    }

    fn fail(&mut self) {
        self.failed = true;
    }
}

/// Memory takes the lines of faults, and no hints.
impl HintSink for Vec<u8> {
    fn takes_hints(&self) -> bool {
        false
    }

    fn fail(&mut self) {}
}

/// The line of a hint, if it has at most 512 bytes.
fn line_of<D: Display + Drop>(hint: D) -> io::Result<Line>
    ensures { IfOk result (λ line. IfSome (D.output hint) (λ text. line ≡ hint_line text)) }
{
    let mut line = Line::new();
    writeln!(line, "  {hint}")?;
    Ok(line)
}

/// Writes a hint in a line of its own, in one piece. A line of more than 512 bytes is not written.
fn write_line<D: Display + Drop, W: Write>(hint: D, out: &mut W) -> io::Result<()>
    ensures { IfSome (D.output hint) (λ text. Takes (W.contents out.old) (W.contents out.new) result (hint_line text)) }
{
    let line = line_of(hint)?;
    send(line.as_bytes(), out)
}

/// Prints a hint in a line of its own, indented by two blanks, if hints are wanted. A hint that
/// standard error does not take, or that has more than 509 bytes, is left out.
pub fn give_hint<D: Display + Drop, E: HintSink>(hint: D, err: &mut E)
    // If none are wanted, nothing is written.
    ensures quiet { E.takes_hints err.old ≡ false → err.new ≡ err.old }
{
    if err.takes_hints() {
        let _ = write_line(hint, err);
    }
}

/// Prints a line below that of a fault, indented by two blanks, whether hints are wanted or not.
/// Below an object of JSON it prints none.
pub fn print_below<D: Display + Drop, E: FaultSink>(text: D, err: &mut E) -> io::Result<()>
    ensures line { E.fault_form err.old ≡ Text → IfSome (D.output text) (λ text. Takes (E.contents err.old) (E.contents err.new) result (hint_line text)) }
    ensures object { E.fault_form err.old ≡ Json → err.new ≡ err.old }
    ensures more { TellsMore E.takes_hints E.failed E.contents E.fault_form err.old err.new }
{
    match err.fault_form() {
        LineForm::Text => {
            let line = line_of(text)?;
            err.tell_line(line.as_bytes())
        }
        LineForm::Json => Ok(()),
    }
}
