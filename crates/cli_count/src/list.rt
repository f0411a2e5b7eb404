//! Captures in which a packet is looked for: the paths of those that have one.

ghost use Rattle.std.specs.Prelude.{◌≡◌, ◌||◌, slice_get};
ghost use Rattle.cli_count.specs.Captures.{ListsIn, ListsNext, Shows, looked, shown_path, was_found};

use crate::captures::either;
use crate::line::print_path;
use cli_answers::captures::{goes_on, read_of};
use cli_answers::printing::Unprinted;
use cli_answers::seek::{PacketTest, Sought, find_first};
use cli_walk::{Stop, Visited, Visitor, Walk, visit_captures};
use line_text::NamingForm;
use savefile::{Fault, Source};
use std::alloc::Global;
use std::io::Write;

/// What is looked for, and where.
#[derive(Clone, Copy)]
pub struct ListJob<'t, 'p, 'a, T> {
    pub alloc: Global,
    pub test: &'t T,
    /// The paths of the captures, in order.
    pub paths: &'p [&'a str],
    pub form: NamingForm,
}

/// What was found in the captures so far.
#[derive(Debug, Drop)]
pub struct ListTotals {
    /// Whether a capture has such a packet.
    pub found: bool,
    /// Whether all was printed.
    pub printed: Result<(), Unprinted>,
}

/// What looking for a packet in each of several captures came to.
#[derive(Debug, Drop)]
pub struct ListedCaptures<R> {
    /// The sources of the captures, in order. Those after the last one that was read are as they
    /// were.
    pub sources: Vec<R>,
    pub totals: ListTotals,
    /// The capture that ended the reading, if one did.
    pub read: Result<(), Stop>,
}

/// Whether a packet was found.
fn was_found(found: Result<bool, Fault>) -> bool
    ensures { result ≡ was_found found }
{
    match found {
        Ok(found) => found,
        Err(_) => false,
    }
}

/// How the reading of a capture ended in which a packet was looked for.
fn looked(found: Result<bool, Fault>) -> Result<(), Fault>
    ensures { result ≡ looked found }
{
    match found {
        Ok(_) => Ok(()),
        Err(fault) => Err(fault),
    }
}

impl<T> ListJob<'_, '_, '_, T> {
    /// Prints the path of the capture of this number, if a packet was found in it.
    fn show<O: Write>(&self, number: usize, found: bool, out: &mut O) -> Result<(), Unprinted>
        ensures { Shows (shown_path self.now.form (slice_get self.now.paths.now number) found) (O.contents out.old) (O.contents out.new) result }
    {
        if !found {
            return Ok(());
        }
        match self.paths.get(number) {
            Some(path) => print_path(self.alloc, *path, self.form, out),
            None => Ok(()),
        }
    }
}

impl<R: Source, O: Write, T: PacketTest> Visitor<R, ListTotals, O> for ListJob<'_, '_, '_, T> {
    ghost visits = { λ j n t o from v t' o'. ListsNext R.left j.form j.paths.now (T.passed j.test.now) n t (O.contents o) from v t' (O.contents o') };

    fn visit(&self, number: usize, capture: R, totals: &mut ListTotals, out: &mut O) -> Visited<R> {
        let Sought { source, found } = find_first(self.alloc, capture, self.test);
        let is_found = was_found(found);
        let printed = self.show(number, is_found, out);
        let goes_on = goes_on(looked(found), &printed);
        let found = either(totals.found, is_found);
        *totals = ListTotals { found, printed };
        Visited { source, goes_on }
    }
}

/// Looks in each of several captures, in order, for a packet that passes a test, and prints the
/// path of each that has one. A capture is read up to its first such packet.
///
/// The first fault ends the reading. If `printed` of the totals has a fault, `read` is `Ok`, since
/// no further capture was read. If memory is refused for the sources, `read` is [`Fault::NoMemory`]
/// of capture 0, and none is read.
pub fn list_captures<R: Source + Drop, O: Write, T: PacketTest>(
    job: &ListJob<'_, '_, '_, T>,
    captures: Vec<R>,
    out: &mut O,
) -> ListedCaptures<R>
    ensures { ListsIn R.left R.failures O.contents job.now.form job.now.paths.now (T.passed job.now.test.now) captures.items out.old out.new result }
{
    let mut totals = ListTotals {
        found: false,
        printed: Ok(()),
    };
    let Walk { sources, end } = visit_captures(job.alloc, captures, job, &mut totals, out);
    ListedCaptures {
        sources,
        totals,
        read: read_of(end),
    }
}
