//! Standard output of a command, and of one whose captures are watched.

ghost use Rattle.std.specs.Prelude.{◌≡◌, Bool, false, OnOk};
ghost use Rattle.std.specs.Io.KnownBytes.{Keeps};
ghost use Rattle.std.specs.Io.{WritesAtMost};
ghost use Rattle.std.specs.Io.Buffered.{writer_buffer};
ghost use Rattle.line_text.specs.Sending.{Takes};
ghost use Rattle.cli_watch.specs.Waiting.{is_filled};

use crate::screen::Screen;
use crate::watch::Watch;
use line_text::sending::send;
use std::io;
use std::io::{BufWriter, Stdout, Write};

/// Where a command prints. It may gather what it takes.
pub trait PrintSink: Write {
    /// Whether bytes that it took may wait in it.
    ghost waits: { Self → Bool };

    /// Hands on all that it has gathered. If it fails, some of that may still wait.
    fn hand_on(&mut self) -> io::Result<()>
        ensures bytes { Keeps (Self.contents self.old) (Self.contents self.new) }
        ensures handed_on { OnOk result (waits self.new ≡ false) };
}

/// Memory gathers nothing.
impl PrintSink for Vec<u8> {
    ghost waits = { λ _. false };

    fn hand_on(&mut self) -> io::Result<()> {
        self.flush()
    }
}

/// Standard output of the process gathers nothing.
impl PrintSink for Stdout {
    ghost waits = { λ _. false };

    fn hand_on(&mut self) -> io::Result<()> {
        self.flush()
    }
}

/// Sends a text, and hands on all that was gathered. If that fails, a prefix of the text was taken.
pub fn send_last<O: PrintSink>(text: &[u8], out: &mut O) -> io::Result<()>
    ensures taken { Takes (O.contents out.old) (O.contents out.new) result text.now }
    ensures handed_on { OnOk result (O.waits out.new ≡ false) }
{
    send(text, out)?;
    out.hand_on()
}

impl<W: Write + Drop> PrintSink for BufWriter<W> {
    ghost waits = { λ writer. is_filled (writer_buffer writer) };

    fn hand_on(&mut self) -> io::Result<()> {
        self.flush()
    }
}

/// A writer in front of standard output, for which the line of the progress gives way.
#[derive(Drop)]
pub struct WatchedOutput<'w, 'r, R, O> {
    inner: O,
    watch: &'w Watch<'r, R>,
}

impl<'w, 'r, R: Screen, O: Write> WatchedOutput<'w, 'r, R, O> {
    pub fn new(inner: O, watch: &'w Watch<'r, R>) -> Self {
        WatchedOutput { inner, watch }
    }
}

impl<R: Screen, O: Write> Write for WatchedOutput<'_, '_, R, O> {
    ghost contents = { λ output. O.contents output.inner };

    fn write(&mut self, from: &[u8]) -> io::Result<usize> {
        self.watch.give_way();
        self.inner.write(from)
    }

    fn flush(&mut self) -> io::Result<()> {
        self.inner.flush()
    }
}
