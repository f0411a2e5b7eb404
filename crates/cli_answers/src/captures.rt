//! Several captures, read in order up to the first fault.

ghost use Rattle.std.specs.Prelude.{◌≡◌};
ghost use Rattle.cli_answers.specs.Captures.{LooksIn, SeeksIn, goes_on, goes_on_to_find, is_found, read_of};

use crate::printing::Unprinted;
use crate::seek::{PacketTest, Sought, find_first};
use cli_report::FailureProbe;
use cli_walk::{Stop, Visited, Visitor, Walk, visit_captures};
use savefile::{Fault, Source};
use std::alloc::Global;

/// What printing a line for each packet came to.
#[derive(Debug, Drop)]
pub struct LinesEnd<C> {
    /// What was counted, if all was printed.
    pub counts: C,
    /// The capture that ended the reading, if one did, and what was noted of it.
    pub read: Result<(), Stop>,
    pub noted: Option<FailureProbe<()>>,
    /// Whether all was printed.
    pub printed: Result<(), Unprinted>,
}

/// What looking for a packet that passes a test came to.
#[derive(Debug, Drop)]
pub struct SoughtEnd {
    /// Whether there is one; or the capture that ended the reading.
    pub found: Result<bool, Stop>,
    /// What was noted of that capture.
    pub noted: Option<FailureProbe<()>>,
}

/// Whether the next capture is read after one that was read and printed so.
pub fn goes_on(read: Result<(), Fault>, printed: &Result<(), Unprinted>) -> Result<bool, Fault>
    ensures { result ≡ goes_on read printed.now }
{
    match read {
        Ok(()) => Ok(printed.is_ok()),
        Err(fault) => Err(fault),
    }
}

/// The capture that ended the reading, if one did, of a walk that ended so.
pub fn read_of(end: Result<bool, Stop>) -> Result<(), Stop>
    ensures { result ≡ read_of end }
{
    match end {
        Ok(_) => Ok(()),
        Err(stop) => Err(stop),
    }
}

/// Looks in each capture for a packet that passes a test.
#[derive(Clone, Copy)]
struct Search<'t, T> {
    alloc: Global,
    test: &'t T,
}

/// Whether the next capture is read after one in which a packet was looked for.
fn goes_on_to_find(found: Result<bool, Fault>) -> Result<bool, Fault>
    ensures { result ≡ goes_on_to_find found }
{
    match found {
        Ok(found) => Ok(!found),
        Err(fault) => Err(fault),
    }
}

impl<R: Source, T: PacketTest> Visitor<R, (), ()> for Search<'_, T> {
    ghost visits = { λ search _ _ _ from v _ _. LooksIn R.left (T.passed search.test.now) from v };

    fn visit(&self, _number: usize, capture: R, _state: &mut (), _out: &mut ()) -> Visited<R> {
        let Sought { source, found } = find_first(self.alloc, capture, self.test);
        Visited {
            source,
            goes_on: goes_on_to_find(found),
        }
    }
}

/// What looking for a packet in several captures came to.
#[derive(Debug, Drop)]
pub struct SoughtCaptures<R> {
    /// The sources of the captures, in order. Those after the last one that was read are as they
    /// were.
    pub sources: Vec<R>,
    /// Whether a capture has such a packet; or the capture that could not be read so far.
    pub found: Result<bool, Stop>,
}

/// Whether a packet was found in a walk that ended so.
fn is_found(end: Result<bool, Stop>) -> Result<bool, Stop>
    ensures { result ≡ is_found end }
{
    match end {
        Ok(is_over) => Ok(!is_over),
        Err(stop) => Err(stop),
    }
}

/// Looks for the first packet that passes a test, capture by capture. It prints nothing.
///
/// `found` is `Ok(true)` at that packet, and then no further capture is read; `Ok(false)` if no
/// capture has such a packet; or the first capture that could not be read to its end, if none
/// before it has one. If memory is refused for the sources, it is [`Fault::NoMemory`] of capture 0,
/// and none is read.
pub fn find_in_captures<R: Source + Drop, T: PacketTest>(
    alloc: Global,
    captures: Vec<R>,
    test: &T,
) -> SoughtCaptures<R>
    ensures { SeeksIn R.left R.failures (T.passed test.now) captures.items result }
{
    let search = Search { alloc, test };
    let Walk { sources, end } = visit_captures(alloc, captures, &search, &mut (), &mut ());
    SoughtCaptures {
        sources,
        found: is_found(end),
    }
}
