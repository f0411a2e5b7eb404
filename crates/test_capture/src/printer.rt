//! A writer as where a command prints.

ghost use Rattle.std.specs.Prelude.{false};

use cli_watch::output::PrintSink;
use std::io;
use std::io::Write;

/// Prints into a writer that is asked to hand on.
#[derive(Drop)]
pub struct Printer<W>(pub W);

impl<W: Write> Write for Printer<W> {
    fn write(&mut self, from: &[u8]) -> io::Result<usize> {
        self.0.write(from)
    }

    fn flush(&mut self) -> io::Result<()> {
        self.0.flush()
    }
}

impl<W: Write> PrintSink for Printer<W> {
    ghost waits = { λ _. false };

    fn hand_on(&mut self) -> io::Result<()> {
        self.flush()
    }
}
