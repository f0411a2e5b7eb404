//! Where faults are reported.

ghost use Rattle.std.specs.Prelude.{◌≡◌, Bool, true, false};
ghost use Rattle.line_text.specs.declared.form.LineForm.{LineForm as Form};
ghost use Rattle.line_text.specs.declared.form.LineForm.TheVariants.{Text};
ghost use Rattle.line_text.specs.Sending.{Takes};
ghost use Rattle.fault_report.specs.Reports.{Tells, reported};

use crate::report::Report;
use crate::reporting::report_in;
use line_text::LineForm;
use line_text::sending::send;
use std::io;
use std::io::Write;

/// A writer that faults are reported to, and in which form.
pub trait FaultSink: Write {
    /// In which form a fault is reported.
    ghost fault_form: { Self → Form };

    /// Whether a fault that was reported may lack in what it took: it failed, or contracts don't
    /// know whether it did.
    ghost failed: { Self → Bool } = { λ _. true };

    /// Whether hints are wanted below the lines of faults.
    ghost takes_hints: { Self → Bool } = { λ _. false };

    /// In which form a fault is reported: as a line of text, or as an object of JSON.
    fn fault_form(&self) -> LineForm
        ensures { result ≡ fault_form self.now };

    /// Reports a fault. That it could not be written is remembered, and not reported.
    fn tell(&mut self, fault: &Report<'_>)
        ensures told { Tells takes_hints failed Self.contents fault_form self.old self.new (reported (fault_form self.old) fault.now) };

    /// Writes a line below that of a fault. The error is remembered too.
    fn tell_line(&mut self, line: &[u8]) -> io::Result<()>
        ensures taken { Takes (Self.contents self.old) (Self.contents self.new) result line.now }
        ensures told { Tells takes_hints failed Self.contents fault_form self.old self.new line.now };
}

/// Memory takes lines of text.
impl FaultSink for Vec<u8> {
    ghost fault_form = { λ _. Text };

    fn fault_form(&self) -> LineForm {
        LineForm::Text
    }

    fn tell(&mut self, fault: &Report<'_>) {
        let _ = report_in(LineForm::Text, fault, self);
    }

    fn tell_line(&mut self, line: &[u8]) -> io::Result<()> {
        send(line, self)
    }
}

/// A writer that takes lines of text.
#[derive(Drop)]
pub struct TextSink<'e, E>(pub &'e mut E);

impl<E: Write> Write for TextSink<'_, E> {
    fn write(&mut self, from: &[u8]) -> io::Result<usize> {
        self.0.write(from)
    }

    fn flush(&mut self) -> io::Result<()> {
        self.0.flush()
    }
}

impl<E: Write> FaultSink for TextSink<'_, E> {
    ghost fault_form = { λ _. Text };

    fn fault_form(&self) -> LineForm {
        LineForm::Text
    }

    fn tell(&mut self, fault: &Report<'_>) {
        let _ = report_in(LineForm::Text, fault, self);
    }

    fn tell_line(&mut self, line: &[u8]) -> io::Result<()> {
        send(line, self)
    }
}
