//! The terminal of a program.

use std::io::{IsTerminal, Write};
use std::time::Clock;

/// A runtime that has a clock and the standard streams, which may be terminals.
pub trait Screen: Clock {
    /// Whether standard error is a terminal.
    fn is_error_terminal(&self) -> bool;

    /// Whether standard output is a terminal.
    fn is_output_terminal(&self) -> bool;

    /// Writes a text to standard error. Nothing is reported if that fails.
    fn show(&self, text: &[u8]);
}

impl Screen for HostRuntime {
    fn is_error_terminal(&self) -> bool {
        self.stderr().is_terminal()
    }

    fn is_output_terminal(&self) -> bool {
        self.stdout().is_terminal()
    }

    fn show(&self, text: &[u8]) {
        let _ = self.stderr().write(text);
    }
}
