//! Standard output that may be a pipe whose reader is gone.

use std::io;
use std::io::{ErrorKind, Write};

/// A writer, with whether it is a pipe that nobody reads any more: then a failure is not reported.
#[derive(Drop)]
pub struct Piped<'a, W> {
    inner: &'a mut W,
    is_unread: bool,
}

impl<'a, W: Write> Piped<'a, W> {
    pub fn new(inner: &'a mut W) -> Piped<'a, W> {
        Piped {
            inner,
            is_unread: false,
        }
    }

    /// Whether a write found that nobody reads any more.
    pub fn is_unread(&self) -> bool {
        self.is_unread
    }
}

impl<W: Write> Write for Piped<'_, W> {
    fn write(&mut self, from: &[u8]) -> io::Result<usize> {
        let written = self.inner.write(from);
        if let Err(error) = &written {
            self.is_unread = self.is_unread || error.kind() == ErrorKind::BrokenPipe;
        }
        written
    }

    fn flush(&mut self) -> io::Result<()> {
        self.inner.flush()
    }
}
