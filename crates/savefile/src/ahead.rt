//! The bytes of a source, read ahead of their use.

ghost use Rattle.std.specs.Prelude.{◌≡◌, ◌+◌, ◌-◌, ◌<◌, ◌≤◌, ◌⊎◌, [], vec_len, length, take, drop, OnOk, OnErr, IfOk, IfErr};
ghost use Rattle.std.specs.Io.KnownBytes.{Keeps, Consumes, IsAtEnd};
ghost use Rattle.savefile.specs.declared.ahead.TheConstants.{MAX_AHEAD};
ghost use Rattle.savefile.specs.Device.{CountsFailure};

use crate::device::{Broken, Source};
use crate::record::{MAX_SNAP, RECORD_HEADER_LEN};
use std::alloc::{AllocError, Global};
use std::fmt::{self, Debug, Formatter};

/// The most bytes that can be asked for: those of the longest record.
pub(crate) const MAX_AHEAD: usize = RECORD_HEADER_LEN + MAX_SNAP as usize;

/// How many bytes the memory has: room for the longest record, and for large reads.
const MEMORY: usize = 1 << 19;

/// A source, and memory that is taken once, into which it is read in large pieces.
/// `memory[start..end]` was read and is still to be passed, and `memory[start - lent..start]` is
/// lent until the source is read again.
#[derive(Drop)]
pub(crate) struct Ahead<R> {
    source: R,
    memory: Vec<u8>,
    lent: usize,
    start: usize,
    end: usize,
    ghost lent_lies_before: { lent ≤ start },
    ghost ordered: { start ≤ end },
    ghost in_bounds: { end ≤ vec_len memory },
    ghost room: { MAX_AHEAD ≤ vec_len memory },
}

/// Of the memory it shows how many bytes wait, and none of them.
impl<R: Debug> Debug for Ahead<R> {
    fn fmt<W: fmt::Write>(&self, f: &mut Formatter<W>) -> fmt::Result {
        f.debug_struct("Ahead")
            .field("source", &self.source)
            .field("waiting", &(self.end - self.start))
            .finish_non_exhaustive()
    }
}

/// The memory, all zeros.
fn zeros(alloc: Global) -> Result<Vec<u8>, AllocError>
    ensures { IfOk result (λ v. vec_len v ≡ 524288) }
{
    vec![in alloc; 0; MEMORY]
}

/// Reads once into a slice, past its first `waiting` bytes.
fn read_behind<R: Source>(
    source: &mut R,
    memory: &mut [u8],
    waiting: usize,
) -> Result<usize, Broken>
    requires { waiting ≤ length memory.old }
    ensures room { length memory.new ≡ length memory.old }
    ensures front { take waiting memory.new ≡ take waiting memory.old }
    ensures count { IfOk result (λ n. waiting + n ≤ length memory.new) }
    ensures bytes { IfOk result (λ n. Consumes (R.left source.old) (R.left source.new) (take n (drop waiting memory.new))) }
    ensures kept { OnErr result (Keeps (R.left source.old) (R.left source.new)) }
    ensures end { IfOk result (λ n. n ≡ 0 → waiting < length memory.old → IsAtEnd (R.left source.new)) }
    ensures failures { CountsFailure (R.failures source.old) (R.failures source.new) result }
{
    source.read(&mut memory[waiting..])
}

impl<R> Ahead<R> {
    ghost use Rattle.savefile.specs.Ahead.{waiting_in, lent_by};

    /// Takes the memory; a source that it is refused for comes back.
    pub(crate) fn new(alloc: Global, source: R) -> Result<Ahead<R>, R>
        ensures source { IfOk result (λ ahead. ahead.source ≡ source) }
        ensures nothing { IfOk result (λ ahead. waiting_in ahead ≡ []) }
        ensures back { IfErr result (λ back. back ≡ source) }
    {
        match zeros(alloc) {
            Ok(memory) => Ok(Ahead {
                source,
                memory,
                lent: 0,
                start: 0,
                end: 0,
            }),
            Err(AllocError) => Err(source),
        }
    }

    /// Gives the source back.
    pub(crate) fn into_source(self) -> R
        ensures { result ≡ self.source }
    {
        let Ahead {
            source,
            memory: _,
            lent: _,
            start: _,
            end: _,
        } = self;
        source
    }

    /// What was read and is still to be passed.
    #[inline]
    pub(crate) fn waiting(&self) -> &[u8]
        ensures value { result.now ≡ waiting_in self.now }
        ensures len { length result.now ≡ self.now.end - self.now.start }
    {
        let (start, end) = (self.start, self.end);
        let all = self.memory.as_slice();
        &all[start..end]
    }

    /// What was passed last, until the source is read again.
    #[inline]
    pub(crate) fn lent(&self) -> &[u8]
        ensures { result.now ≡ lent_by self.now }
    {
        let (lent, start) = (self.lent, self.start);
        let all = self.memory.as_slice();
        &all[start - lent..start]
    }

    /// Passes bytes, and lends the last ones, as many as `count`.
    #[inline]
    pub(crate) fn pass(&mut self, front: usize, count: usize)
        requires { front + count ≤ length (waiting_in self.old) }
        ensures source { self.new.source ≡ self.old.source }
        ensures waiting { waiting_in self.new ≡ drop (front + count) (waiting_in self.old) }
        ensures lent { lent_by self.new ≡ take count (drop front (waiting_in self.old)) }
    {
        self.start += front + count;
        self.lent = count;
    }
}

impl<R: Source> Ahead<R> {
    ghost use Rattle.savefile.specs.Ahead.{waiting_in, Grows};

    /// Moves what waits to the front. Nothing is lent any more.
    fn to_front(&mut self)
        ensures source { self.new.source ≡ self.old.source }
        ensures start { self.new.start ≡ 0 }
        ensures end { self.new.end ≡ self.old.end - self.old.start }
        ensures waiting { waiting_in self.new ≡ waiting_in self.old }
    {
        let (start, end) = (self.start, self.end);
        self.lent = 0;
        if start > 0 {
            self.memory.as_mut_slice().copy_within(start..end, 0);
            self.start = 0;
            self.end = end - start;
        }
    }

    /// Moves the waiting bytes to the front, reads once after them, and returns how many bytes
    /// came.
    fn read_more(&mut self) -> Result<usize, Broken>
        ensures grows { Grows R.left self.old self.new }
        ensures count { IfOk result (λ n. self.new.end - self.new.start ≡ self.old.end - self.old.start + n) }
        ensures stays { OnErr result (self.new.end - self.new.start ≡ self.old.end - self.old.start) }
        ensures end { IfOk result (λ n. n ≡ 0 → self.old.end - self.old.start < MAX_AHEAD → IsAtEnd (R.left self.new.source)) }
        ensures failures { CountsFailure (R.failures self.old.source) (R.failures self.new.source) result }
    {
        self.to_front();
        let n = read_behind(&mut self.source, self.memory.as_mut_slice(), self.end)?;
        self.end += n;
        Ok(n)
    }

    /// The part of `fill` that asks the source.
    #[cold]
    #[inline(never)]
    fn fill_slowly(&mut self, want: usize) -> Result<(), Broken>
        requires { want ≤ MAX_AHEAD }
        ensures grows { Grows R.left self.old self.new }
        ensures enough { OnOk result ((want ≤ length (waiting_in self.new)) ⊎ IsAtEnd (R.left self.new.source)) }
        ensures short { OnErr result (length (waiting_in self.new) < want) }
        ensures failures { CountsFailure (R.failures self.old.source) (R.failures self.new.source) result }
    {
        while self.end - self.start < want {
            if self.read_more()? == 0 {
                return Ok(());
            }
        }
        Ok(())
    }

    /// Reads until this many bytes wait, or the input ends. It asks the source only if fewer wait.
    #[inline]
    pub(crate) fn fill(&mut self, want: usize) -> Result<(), Broken>
        requires { want ≤ MAX_AHEAD }
        ensures grows { Grows R.left self.old self.new }
        ensures enough { OnOk result ((want ≤ length (waiting_in self.new)) ⊎ IsAtEnd (R.left self.new.source)) }
        ensures short { OnErr result (length (waiting_in self.new) < want) }
        ensures idle { want ≤ length (waiting_in self.old) → self.new ≡ self.old }
        ensures failures { CountsFailure (R.failures self.old.source) (R.failures self.new.source) result }
    {
        if self.end - self.start >= want {
            return Ok(());
        }
        self.fill_slowly(want)
    }
}
