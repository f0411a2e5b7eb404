//! Several captures whose packets are counted, in order up to the first fault.

ghost use Rattle.std.specs.Prelude.{◌≡◌, ◌||◌, ◌&&◌, false, true, IsErr, IsOk, slice_get};
ghost use Rattle.line_text.specs.Sending.{Takes};
ghost use Rattle.cli_answers.specs.Counts.{counts_text, counts_json, plus};
ghost use Rattle.cli_count.specs.Captures.{CountsIn, CountsNext, Shows, shown_counts, taken_or_none};

use crate::count::{CountEnd, count_packets};
use crate::filter::CountedFilter;
use crate::line::print_count;
use cli_answers::captures::{goes_on, read_of};
use cli_answers::counts::VerdictCounts;
use cli_answers::printing::Unprinted;
use cli_walk::{Stop, Visited, Visitor, Walk, visit_captures};
use line_text::NamingForm;
use savefile::Source;
use std::alloc::Global;
use std::io::Write;

/// How the captures are counted, and what is printed of each.
#[derive(Clone, Copy)]
pub struct CountJob<'f, 'p, 'a> {
    pub alloc: Global,
    pub filter: &'f CountedFilter,
    /// Whether the instructions of the filter's program are counted.
    pub is_measured: bool,
    /// The paths of the captures, in order.
    pub paths: &'p [&'a str],
    /// Whether the counts of each capture are printed.
    pub is_shown: bool,
    pub form: NamingForm,
}

/// What was counted of the captures so far.
#[derive(Debug, Drop)]
pub struct CountTotals {
    /// Whether the header of a capture was read.
    pub opened: bool,
    /// Of the packets of all captures.
    pub counts: VerdictCounts,
    /// How many instructions the program took for them.
    pub instructions: u64,
    /// Whether all was printed.
    pub printed: Result<(), Unprinted>,
}

/// What counting the packets of several captures came to.
#[derive(Debug, Drop)]
pub struct CountedCaptures<R> {
    /// The sources of the captures, in order. Those after the last one that was read are as they
    /// were.
    pub sources: Vec<R>,
    pub totals: CountTotals,
    /// The capture that ended the reading, if one did.
    pub read: Result<(), Stop>,
}

/// Whether one of the two holds.
pub(crate) fn either(one: bool, other: bool) -> bool
    ensures { result ≡ (one || other) }
{
    one || other
}

/// How many instructions were counted, if they were.
fn taken_or_none(taken: Option<u64>) -> u64
    ensures { result ≡ taken_or_none taken }
{
    match taken {
        Some(taken) => taken,
        None => 0,
    }
}

impl CountJob<'_, '_, '_> {
    /// Prints the counts of the capture of this number, if they are asked for and its header was
    /// read.
    fn show<R, O: Write>(
        &self,
        number: usize,
        end: &CountEnd<R>,
        out: &mut O,
    ) -> Result<(), Unprinted>
        ensures { Shows (shown_counts self.now.is_shown self.now.form (slice_get self.now.paths.now number) end.now.opened end.now.counts end.now.taken) (O.contents out.old) (O.contents out.new) result }
    {
        if !self.is_shown || !end.opened {
            return Ok(());
        }
        match self.paths.get(number) {
            Some(path) => print_count(self.alloc, *path, end, self.form, out),
            None => Ok(()),
        }
    }
}

impl<R: Source, O: Write> Visitor<R, CountTotals, O> for CountJob<'_, '_, '_> {
    ghost visits = { λ j n t o from v t' o'. CountsNext R.left j.is_shown j.form j.paths.now j.filter.now j.is_measured n t (O.contents o) from v t' (O.contents o') };

    fn visit(
        &self,
        number: usize,
        capture: R,
        totals: &mut CountTotals,
        out: &mut O,
    ) -> Visited<R> {
        let end = count_packets(self.alloc, capture, self.filter, self.is_measured);
        let printed = self.show(number, &end, out);
        let goes_on = goes_on(end.read, &printed);
        let opened = either(totals.opened, end.opened);
        *totals = CountTotals {
            opened,
            counts: totals.counts.plus(end.counts),
            instructions: totals.instructions.saturating_add(taken_or_none(end.taken)),
            printed,
        };
        Visited {
            source: end.source,
            goes_on,
        }
    }
}

/// Counts what a filter answers to the packets of several captures, in order, and prints the counts
/// of each after its path, if they are asked for.
///
/// The first fault ends the reading, and the packets before it are counted. If `printed` of the
/// totals has a fault, `read` is `Ok`, since no further capture was read. If memory is refused for
/// the sources, `read` is [`savefile::Fault::NoMemory`] of capture 0, and none is read.
pub fn count_captures<R: Source + Drop, O: Write>(
    job: &CountJob<'_, '_, '_>,
    captures: Vec<R>,
    out: &mut O,
) -> CountedCaptures<R>
    ensures { CountsIn R.left R.failures O.contents job.now.is_shown job.now.form job.now.paths.now job.now.filter.now job.now.is_measured captures.items out.old out.new result }
{
    let mut totals = CountTotals {
        opened: false,
        counts: VerdictCounts::NONE,
        instructions: 0,
        printed: Ok(()),
    };
    let Walk { sources, end } = visit_captures(job.alloc, captures, job, &mut totals, out);
    CountedCaptures {
        sources,
        totals,
        read: read_of(end),
    }
}
