//! Laws of the file LISTENERS.

ghost use Rattle.cli_run.specs.Laws.{FirstBadIsOne, NoneIsBad};

/// A file whose lines all have their form, each with an OUT of its own, has no bad line. So a file
/// is read, or its first bad line is reported, and never both.
pub fn none_is_bad()
    ensures { NoneIsBad }
{}

/// A file has one first bad line at most, so only one number can be reported.
pub fn first_bad_is_one()
    ensures { FirstBadIsOne }
{}
