//! Readers and writers that note what a hint says of them.

ghost use Rattle.std.specs.Prelude.{◌≡◌, ◌≢◌, ◌<◌, length, None, IfOk, IfErr, IsErr, IsSome};
ghost use Rattle.std.specs.Io.{WritesAtMost};
ghost use Rattle.std.specs.Io.KnownBytes.{Keeps, WriteAppends};
ghost use Rattle.std.specs.IoError.{error_kind};

use savefile::{Counted, HEADER_LEN};
use std::io;
use std::io::{BufWriter, ErrorKind, Read, Write};

/// The first bytes that were read, at most 24.
#[derive(Debug, Drop)]
struct FirstBytes {
    bytes: [u8; HEADER_LEN],
    /// How many of them came.
    came: usize,
}

impl FirstBytes {
    fn note(&mut self, read: &[u8]) {
        for byte in read {
            let Some(slot) = self.bytes.get_mut(self.came) else {
                return;
            };
            *slot = *byte;
            self.came += 1;
        }
    }
}

/// A reader or a writer that notes the first 24 bytes that were read from it, and why a call first
/// failed. Once a write or a flush has failed, each later one fails with the same error and touches
/// nothing: nothing goes out after a failure that is reported. A call that a signal interrupted is
/// no failure; a write that takes nothing is one.
#[derive(Debug, Drop)]
pub struct FailureProbe<T> {
    inner: T,
    first: FirstBytes,
    failure: Option<io::Error>,
}

/// A capture that is read, whose first bytes and failure are noted.
pub type ProbedInput<R> = Counted<FailureProbe<R>>;

/// A buffered output for a capture, whose failure is noted.
pub type ProbedOutput<W> = Counted<BufWriter<FailureProbe<W>>>;

impl<T> FailureProbe<T> {
    pub fn new(inner: T) -> FailureProbe<T>
        ensures inner { result.inner ≡ inner }
        ensures none { result.failure ≡ None }
    {
        FailureProbe {
            inner,
            first: FirstBytes {
                bytes: [0; HEADER_LEN],
                came: 0,
            },
            failure: None,
        }
    }

    pub fn get_ref(&self) -> &T
        ensures { result.now ≡ self.now.inner }
    {
        &self.inner
    }

    /// The first bytes that were read, at most 24.
    pub fn first(&self) -> &[u8] {
        &self.first.bytes[..self.first.came.min(HEADER_LEN)]
    }

    /// Why a call failed first.
    pub fn failure(&self) -> Option<io::Error>
        ensures { result ≡ self.now.failure }
    {
        self.failure
    }

    fn note_failure(&mut self, error: io::Error)
        ensures noted { error_kind error ≢ ErrorKind.Interrupted → IsSome self.new.failure }
        ensures inner { self.new.inner ≡ self.old.inner }
    {
        if self.failure.is_none() && error.kind() != ErrorKind::Interrupted {
            self.failure = Some(error);
        }
    }
}

impl<T: Drop> FailureProbe<T> {
    /// What was noted, once the reader or the writer is done with.
    pub fn into_notes(self) -> FailureProbe<()>
        ensures first { result.first ≡ self.first }
        ensures failure { result.failure ≡ self.failure }
    {
        FailureProbe {
            inner: (),
            first: self.first,
            failure: self.failure,
        }
    }
}

impl<T: Read> Read for FailureProbe<T> {
    ghost remaining = { λ probe. T.remaining probe.inner };

    fn read(&mut self, to: &mut [u8]) -> io::Result<usize> {
        let read = self.inner.read(to);
        match &read {
            Ok(count) => self.first.note(&to[..*count]),
            Err(error) => self.note_failure(*error),
        }
        read
    }
}

impl<T: Write> FailureProbe<T> {
    /// Writes, and notes if that fails.
    fn write_noting(&mut self, from: &[u8]) -> io::Result<usize>
        ensures bound { WritesAtMost result from.now }
        ensures bytes { WriteAppends (T.contents self.old.inner) (T.contents self.new.inner) result from.now }
        ensures noted { IfErr result (λ error. error_kind error ≢ ErrorKind.Interrupted → IsSome self.new.failure) }
        ensures stuck { IfOk result (λ n. n ≡ 0 → 0 < length from.now → IsSome self.new.failure) }
    {
        let written = self.inner.write(from);
        match &written {
            Ok(0) if !from.is_empty() => self.note_failure(io::Error::from(ErrorKind::WriteZero)),
            Ok(_) => {}
            Err(error) => self.note_failure(*error),
        }
        written
    }

    /// Flushes, and notes if that fails.
    fn flush_noting(&mut self) -> io::Result<()>
        ensures bytes { Keeps (T.contents self.old.inner) (T.contents self.new.inner) }
        ensures noted { IfErr result (λ error. error_kind error ≢ ErrorKind.Interrupted → IsSome self.new.failure) }
    {
        let flushed = self.inner.flush();
        if let Err(error) = &flushed {
            self.note_failure(*error);
        }
        flushed
    }
}

impl<T: Write> Write for FailureProbe<T> {
    ghost contents = { λ probe. T.contents probe.inner };

    fn write(&mut self, from: &[u8]) -> io::Result<usize>
        ensures bound { WritesAtMost result from.now }
        ensures bytes { WriteAppends (T.contents self.old.inner) (T.contents self.new.inner) result from.now }
        ensures noted { IfErr result (λ error. error_kind error ≢ ErrorKind.Interrupted → IsSome self.new.failure) }
        ensures stuck { IfOk result (λ n. n ≡ 0 → 0 < length from.now → IsSome self.new.failure) }
        // After a failure nothing more is written, and each call fails.
        ensures refused { IsSome self.old.failure → IsErr result }
        ensures ended { IsSome self.old.failure → self.new ≡ self.old }
    {
        match self.failure {
            None => self.write_noting(from),
            Some(error) => Err(error),
        }
    }

    fn flush(&mut self) -> io::Result<()>
        ensures bytes { Keeps (T.contents self.old.inner) (T.contents self.new.inner) }
        ensures noted { IfErr result (λ error. error_kind error ≢ ErrorKind.Interrupted → IsSome self.new.failure) }
        ensures refused { IsSome self.old.failure → IsErr result }
        ensures ended { IsSome self.old.failure → self.new ≡ self.old }
    {
        match self.failure {
            None => self.flush_noting(),
            Some(error) => Err(error),
        }
    }
}
