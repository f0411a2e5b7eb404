//! Several captures, read in order up to the first fault: the functions under `bpftap explain`.

ghost use Rattle.std.specs.Prelude.{◌≡◌};
ghost use Rattle.cli_explain.specs.Captures.{ExplainsIn};

use crate::form::Asking;
use cli_answers::counts::VerdictCounts;
use cli_answers::lines::{PrintedCaptures, print_captures};
use cli_answers::{AskedFilter, PacketForm};
use savefile::Source;
use std::alloc::Global;
use std::io::Write;

/// Prints a line for each packet of several captures, in order, as [`explain_each`](crate::each::explain_each) does of each: places
/// count from 0 in each capture. An object of JSON has the capture's number, from 0.
///
/// The first fault ends the reading, as [`print_captures`] says.
pub fn explain_captures<R: Source + Drop, O: Write>(
    alloc: Global,
    captures: Vec<R>,
    filter: &AskedFilter,
    form: PacketForm,
    out: &mut O,
) -> PrintedCaptures<R, VerdictCounts>
    ensures { ExplainsIn R.left R.failures O.contents form filter.now captures.items out.old out.new result }
{
    print_captures(alloc, captures, Asking { filter, form }, out)
}
