//! Calls that a signal interrupted, which are made again.

ghost use Rattle.std.specs.Prelude.{◌≡◌, ◌≢◌, ◌↔◌, IfErr, IsTrue};
ghost use Rattle.std.specs.Io.{ReadsAtMost, WritesAtMost};
ghost use Rattle.std.specs.Io.KnownBytes.{ReadConsumes, WriteAppends};
ghost use Rattle.std.specs.IoError.{error_kind};

use std::fs::{Files, Metadata, OpenFile};
use std::io::{ErrorKind, Read, Write};
use std::{fs, io};

/// A reader or a writer whose calls are made again if a signal interrupted them: that is no fault
/// of a device.
#[derive(Debug, Drop)]
pub struct Retried<T> {
    inner: T,
}

impl<T> Retried<T> {
    pub fn new(inner: T) -> Retried<T>
        ensures { result.inner ≡ inner }
    {
        Retried { inner }
    }
}

/// Whether a signal interrupted a call.
pub(crate) fn is_broken_off(error: &io::Error) -> bool
    ensures { IsTrue result ↔ (error_kind error.now ≡ ErrorKind.Interrupted) }
{
    error.kind() == ErrorKind::Interrupted
}

impl<T: Read> Read for Retried<T> {
    ghost remaining = { λ retried. T.remaining retried.inner };

    fn read(&mut self, to: &mut [u8]) -> io::Result<usize>
        ensures bound { ReadsAtMost result to.new }
        ensures bytes { ReadConsumes (T.remaining self.old.inner) (T.remaining self.new.inner) result to.new }
        ensures retried { IfErr result (λ error. error_kind error ≢ ErrorKind.Interrupted) }
    {
        for _ in 0..u64::MAX {
            match self.inner.read(to) {
                Err(error) if is_broken_off(&error) => {}
                read => return read,
            }
        }
        Err(io::Error::from(ErrorKind::TimedOut))
    }
}

impl<T: Write> Write for Retried<T> {
    ghost contents = { λ retried. T.contents retried.inner };

    fn write(&mut self, from: &[u8]) -> io::Result<usize>
        ensures bound { WritesAtMost result from.now }
        ensures bytes { WriteAppends (T.contents self.old.inner) (T.contents self.new.inner) result from.now }
        ensures retried { IfErr result (λ error. error_kind error ≢ ErrorKind.Interrupted) }
    {
        for _ in 0..u64::MAX {
            match self.inner.write(from) {
                Err(error) if is_broken_off(&error) => {}
                written => return written,
            }
        }
        Err(io::Error::from(ErrorKind::TimedOut))
    }

    fn flush(&mut self) -> io::Result<()> {
        self.inner.flush()
    }
}

/// What is at a path, with symbolic links followed.
pub fn metadata<R: Files>(rt: &R, path: &str) -> io::Result<Metadata>
    ensures { IfErr result (λ error. error_kind error ≢ ErrorKind.Interrupted) }
{
    for _ in 0..u64::MAX {
        match fs::metadata(rt, path) {
            Err(error) if is_broken_off(&error) => {}
            found => return found,
        }
    }
    Err(io::Error::from(ErrorKind::TimedOut))
}

/// What is at a path, be it a symbolic link.
pub fn symlink_metadata<R: Files>(rt: &R, path: &str) -> io::Result<Metadata>
    ensures { IfErr result (λ error. error_kind error ≢ ErrorKind.Interrupted) }
{
    for _ in 0..u64::MAX {
        match fs::symlink_metadata(rt, path) {
            Err(error) if is_broken_off(&error) => {}
            found => return found,
        }
    }
    Err(io::Error::from(ErrorKind::TimedOut))
}

/// What an open file is.
pub fn open_metadata<F: OpenFile>(file: &F) -> io::Result<Metadata>
    ensures { IfErr result (λ error. error_kind error ≢ ErrorKind.Interrupted) }
{
    for _ in 0..u64::MAX {
        match file.metadata() {
            Err(error) if is_broken_off(&error) => {}
            found => return found,
        }
    }
    Err(io::Error::from(ErrorKind::TimedOut))
}
