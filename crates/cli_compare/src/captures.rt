//! Several captures, read in order up to the first fault: the functions under `bpftap compare`.

ghost use Rattle.std.specs.Prelude.{◌≡◌};
ghost use Rattle.cli_compare.specs.Captures.{ComparesIn};

use crate::each::DifferenceCounts;
use crate::line::Comparing;
use crate::pair::FilterPair;
use cli_answers::PacketForm;
use cli_answers::lines::{PrintedCaptures, print_captures};
use savefile::Source;
use std::alloc::Global;
use std::io::Write;

/// Prints a line for each packet of several captures that two filters treat differently, in order, as [`compare_each`](crate::each::compare_each) does of each: places
/// count from 0 in each capture. An object of JSON has the capture's number, from 0.
///
/// The first fault ends the reading, as [`print_captures`] says.
pub fn compare_captures<R: Source + Drop, O: Write>(
    alloc: Global,
    captures: Vec<R>,
    pair: &FilterPair,
    form: PacketForm,
    out: &mut O,
) -> PrintedCaptures<R, DifferenceCounts>
    ensures { ComparesIn R.left R.failures O.contents form pair.now captures.items out.old out.new result }
{
    print_captures(alloc, captures, Comparing { pair, form }, out)
}
