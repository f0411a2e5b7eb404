//! Files that are opened or made when they are needed first.

ghost use Rattle.std.specs.Prelude.{◌≡◌, true, IsErr, IfErr, OnErr, option_and_then};
ghost use Rattle.std.specs.Io.{ReadsAtMost, WritesAtMost};
ghost use Rattle.std.specs.Io.KnownBytes.{Keeps, ReadConsumes, WriteAppends};
ghost use Rattle.cli_files.specs.Late.{left_of};

use crate::retried::Retried;
use std::fs::Files;
use std::io::{ErrorKind, Read, Write};
use std::{fs, io};

/// A file that is made at its first write, so that what was there stays if nothing is written. Once
/// a call has failed, or taken nothing of what it was given, every later one fails and touches
/// nothing: nothing is written after a fault that was reported.
#[derive(Drop)]
pub struct LateFile<'r, 'p, R: Files> {
    rt: &'r R,
    path: &'p str,
    file: Option<Retried<R::File>>,
    failed: bool,
}

impl<'r, 'p, R: Files> LateFile<'r, 'p, R> {
    pub fn new(rt: &'r R, path: &'p str) -> Self {
        LateFile {
            rt,
            path,
            file: None,
            failed: false,
        }
    }

    fn create_and_write(&mut self, bytes: &[u8]) -> io::Result<usize>
        ensures bound { WritesAtMost result bytes.now }
        ensures bytes { WriteAppends (option_and_then (λ file. R.File.contents file.inner) self.old.file) (option_and_then (λ file. R.File.contents file.inner) self.new.file) result bytes.now }
    {
        if self.file.is_none() {
            self.file = Some(Retried::new(fs::create(self.rt, self.path)?));
        }
        match &mut self.file {
            Some(file) => file.write(bytes),
            None => Ok(0),
        }
    }
}

impl<R: Files> Write for LateFile<'_, '_, R> {
    // Those of the file, once it is made.
    ghost contents = { λ late. option_and_then (λ file. R.File.contents file.inner) late.file };

    fn write(&mut self, bytes: &[u8]) -> io::Result<usize>
        ensures bound { WritesAtMost result bytes.now }
        ensures bytes { WriteAppends (option_and_then (λ file. R.File.contents file.inner) self.old.file) (option_and_then (λ file. R.File.contents file.inner) self.new.file) result bytes.now }
        ensures failed { IfErr result (λ _. self.new.failed ≡ true) }
        // After a failure nothing more is written, and each call fails.
        ensures refused { self.old.failed ≡ true → IsErr result }
        ensures ended { self.old.failed ≡ true → self.new ≡ self.old }
    {
        if self.failed {
            return Err(io::Error::from(ErrorKind::Other));
        }
        let written = self.create_and_write(bytes);
        self.failed = match &written {
            Ok(n) => *n == 0 && !bytes.is_empty(),
            Err(_) => true,
        };
        written
    }

    fn flush(&mut self) -> io::Result<()>
        ensures bytes { Keeps (option_and_then (λ file. R.File.contents file.inner) self.old.file) (option_and_then (λ file. R.File.contents file.inner) self.new.file) }
        ensures refused { self.old.failed ≡ true → IsErr result }
        ensures ended { self.old.failed ≡ true → self.new ≡ self.old }
    {
        if self.failed {
            return Err(io::Error::from(ErrorKind::Other));
        }
        match &mut self.file {
            Some(file) => file.flush(),
            None => Ok(()),
        }
    }
}

/// A file that is opened at its first read, and closed at its end. Once a call has failed every
/// later one fails too.
#[derive(Drop)]
pub struct LateInput<'r, 'p, R: Files> {
    rt: &'r R,
    path: &'p str,
    file: Option<Retried<R::File>>,
    ended: bool,
    failed: bool,
}

impl<'r, 'p, R: Files> LateInput<'r, 'p, R> {
    pub fn new(rt: &'r R, path: &'p str) -> Self {
        LateInput {
            rt,
            path,
            file: None,
            ended: false,
            failed: false,
        }
    }

    /// Opens the file at once.
    pub fn opened(rt: &'r R, path: &'p str) -> io::Result<Self> {
        let file = Some(Retried::new(fs::open(rt, path)?));
        Ok(LateInput {
            rt,
            path,
            file,
            ended: false,
            failed: false,
        })
    }

    fn open_and_read(&mut self, to: &mut [u8]) -> io::Result<usize>
        ensures bound { ReadsAtMost result to.new }
        ensures bytes { ReadConsumes (option_and_then (λ file. R.File.remaining file.inner) self.old.file) (option_and_then (λ file. R.File.remaining file.inner) self.new.file) result to.new }
        ensures same { (self.new.ended ≡ self.old.ended) × (self.new.failed ≡ self.old.failed) }
    {
        if self.file.is_none() {
            self.file = Some(Retried::new(fs::open(self.rt, self.path)?));
        }
        match &mut self.file {
            Some(file) => file.read(to),
            None => Err(io::Error::from(ErrorKind::Other)),
        }
    }
}

impl<R: Files> Read for LateInput<'_, '_, R> {
    // What the file has left, once it is open, and nothing once it has ended.
    ghost remaining = { λ late. left_of (option_and_then (λ file. R.File.remaining file.inner) late.file) late.ended };

    fn read(&mut self, to: &mut [u8]) -> io::Result<usize>
        ensures bound { ReadsAtMost result to.new }
        ensures bytes { ReadConsumes (left_of (option_and_then (λ file. R.File.remaining file.inner) self.old.file) self.old.ended) (left_of (option_and_then (λ file. R.File.remaining file.inner) self.new.file) self.new.ended) result to.new }
        // After a failure each call fails.
        ensures refused { self.old.failed ≡ true → IsErr result }
        ensures failed { OnErr result (self.new.failed ≡ true) }
        ensures stays { self.old.failed ≡ true → self.new.failed ≡ true }
    {
        if self.failed {
            return Err(io::Error::from(ErrorKind::Other));
        }
        if self.ended {
            return Ok(0);
        }
        let read = self.open_and_read(to);
        match &read {
            Ok(0) if !to.is_empty() => {
                self.ended = true;
                self.file = None;
            }
            Ok(_) => {}
            Err(_) => self.failed = true,
        }
        read
    }
}
