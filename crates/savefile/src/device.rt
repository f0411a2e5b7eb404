//! What a savefile is read from and written to.

ghost use Rattle.std.specs.Prelude.{◌≡◌, ℕ, List, [], Bool, false, Option, None, Some, ◌<◌, ◌≤◌, length, IfOk};
ghost use Rattle.std.specs.Io.KnownBytes.{Keeps, ReadConsumes, WriteAppends};
ghost use Rattle.savefile.specs.Device.{CountsFailure};

use std::io::{Read, Write};

/// A device failed. The call moved no byte.
#[derive(Clone, Copy, Debug, PartialEq, Eq)]
pub struct Broken;

/// What bytes are read from.
pub trait Source {
    /// The bytes left, if the type knows them.
    ghost left: { Self → Option (List ℕ) } = { λ _. None };

    /// How often it failed so far, modulo 2^64.
    ghost failures: { Self → ℕ };

    /// Reads the next bytes into the front of a slice, and answers how many. Into a slice that is
    /// not empty, 0 is the end of input. [`Broken`] comes if the device failed: no byte was moved,
    /// and the failures grew by one.
    fn read(&mut self, to: &mut [u8]) -> Result<usize, Broken>
        ensures count { IfOk result (λ n. n ≤ length to.new) }
        ensures bytes { ReadConsumes (left self.old) (left self.new) result to.new }
        ensures failures { CountsFailure (failures self.old) (failures self.new) result };
}

/// What bytes are written to.
pub trait Sink {
    /// The bytes taken so far, if the type knows them.
    ghost taken: { Self → Option (List ℕ) } = { λ _. None };

    /// Which of several sinks it is. No call changes that.
    ghost name: { Self → List ℕ } = { λ _. [] };

    /// How often it failed so far, modulo 2^64.
    ghost failures: { Self → ℕ };

    /// Takes bytes from the front of a slice, at least one if there is one, and answers how many.
    /// [`Broken`] comes if the device failed: no byte was moved, and the failures grew by one.
    fn write(&mut self, from: &[u8]) -> Result<usize, Broken>
        ensures count { IfOk result (λ n. n ≤ length from.now) }
        ensures progress { IfOk result (λ n. 0 < length from.now → 0 < n) }
        ensures bytes { WriteAppends (taken self.old) (taken self.new) result from.now }
        ensures named { name self.new ≡ name self.old }
        ensures failures { CountsFailure (failures self.old) (failures self.new) result };

    /// Asks the sink to hand on what it has gathered. One that gathers none does nothing, and this
    /// is the default. What can't be handed on stays gathered, and no failure is reported here:
    /// whoever empties the sink at the end finds it.
    #[tactic(auto, using(crate::proofs::Gathering::keeps_itself))]
    fn flush(&mut self)
        ensures bytes { Keeps (taken self.old) (taken self.new) }
        ensures failures { failures self.new ≡ failures self.old }
        ensures named { name self.new ≡ name self.old }
    {}
}

/// A [`Sink`] that may gather what it took, and says when nothing is left to be handed on.
pub trait GatheringSink: Sink {
    /// Whether bytes may wait in it that it took since it was last asked to hand on.
    ghost waits: { Self → Bool };

    /// Hands on what it has gathered, as [`Sink::flush`] does.
    fn hand_on(&mut self)
        ensures bytes { Keeps (Self.taken self.old) (Self.taken self.new) }
        ensures failures { Self.failures self.new ≡ Self.failures self.old }
        ensures named { Self.name self.new ≡ Self.name self.old }
        ensures handed_on { waits self.new ≡ false };
}

/// Bytes in memory, which never fail.
impl Source for &[u8] {
    ghost left = { λ s. Some s.now };

    ghost failures = { λ _. 0 };

    fn read(&mut self, to: &mut [u8]) -> Result<usize, Broken> {
        match Read::read(self, to) {
            Ok(n) => Ok(n),
            Err(_) => Err(Broken),
        }
    }
}

/// Makes a [`Source`] of any [`Read`] and a [`Sink`] of any [`Write`], and counts the failures.
///
/// Contracts know its bytes if they know those of `T`: over memory, and not over a file. An error,
/// and a write of no byte of a slice that is not empty, are [`Broken`]. No call is tried again. An
/// error of a flush is not reported.
#[derive(Debug, Drop)]
pub struct Counted<T> {
    pub inner: T,
    /// How often a call answered [`Broken`], modulo 2^64.
    pub failures: u64,
    /// Whether it took bytes since it was last asked to hand on.
    pub waits: bool,
}

impl<T> Counted<T> {
    /// Counts from 0.
    pub fn new(inner: T) -> Counted<T>
        ensures inner { result.inner ≡ inner }
        ensures failures { result.failures ≡ 0 }
    {
        Counted {
            inner,
            failures: 0,
            waits: false,
        }
    }

    /// Gives back what is inside.
    pub fn into_inner(self) -> T
        ensures { result ≡ self.inner }
    {
        self.inner
    }
}

impl<T: Read> Source for Counted<T> {
    ghost left = { λ s. T.remaining s.inner };

    ghost failures = { λ s. s.failures };

    fn read(&mut self, to: &mut [u8]) -> Result<usize, Broken> {
        match self.inner.read(to) {
            Ok(n) => Ok(n),
            Err(_) => {
                self.failures = self.failures.wrapping_add(1);
                Err(Broken)
            }
        }
    }
}

impl<T: Write> Sink for Counted<T> {
    ghost taken = { λ s. T.contents s.inner };

    ghost failures = { λ s. s.failures };

    fn write(&mut self, from: &[u8]) -> Result<usize, Broken> {
        self.waits = true;
        match self.inner.write(from) {
            Ok(n) if n > 0 || from.is_empty() => Ok(n),
            _ => {
                self.failures = self.failures.wrapping_add(1);
                Err(Broken)
            }
        }
    }

    fn flush(&mut self) {
        self.hand_on();
    }
}

impl<T: Write> GatheringSink for Counted<T> {
    ghost waits = { λ s. s.waits };

    fn hand_on(&mut self) {
        let _ = self.inner.flush();
        self.waits = false;
    }
}
