//! Hints on captures that were not read to their ends.

ghost use Rattle.std.specs.Prelude.{◌≡◌, false};

use cli_report::failures::hint_input;
use cli_report::stream::give_hint;
use cli_report::{FailureProbe, HintSink};
use cli_text::report::EscapedPath;
use cli_walk::Stop;
use savefile::Fault;

/// Whether the path of one of several captures comes first, or that of the only one: the line of a
/// failed device has the path itself, and no file is at fault if memory is refused.
fn names_path(paths: &[&str], fault: Fault) -> bool {
    paths.len() > 1 || (fault != Fault::Device && fault != Fault::NoMemory)
}

/// Hints on the capture of this number, which was not read to its end, by what was noted of it,
/// below its path.
pub fn hint_capture<R, E: HintSink>(
    paths: &[&str],
    number: usize,
    fault: Fault,
    noted: &FailureProbe<R>,
    err: &mut E,
)
    ensures quiet { E.takes_hints err.old ≡ false → err.new ≡ err.old }
{
    if names_path(paths, fault) {
        if let Some(path) = paths.get(number) {
            give_hint(format_args!("{}:", EscapedPath(*path)), err);
        }
    }
    hint_input(noted, fault, err);
}

/// Hints that the captures after the one of this number are not read, if there are any.
fn hint_unread<E: HintSink>(paths: &[&str], number: usize, err: &mut E)
    ensures quiet { E.takes_hints err.old ≡ false → err.new ≡ err.old }
{
    if number < paths.len().saturating_sub(1) {
        give_hint("the captures after it are not read", err);
    }
}

/// Hints on the capture that ended the reading of several, if one did, by what was noted of it, and
/// that those after it are not read.
pub(crate) fn hint_ended<E: HintSink>(
    paths: &[&str],
    read: Result<(), Stop>,
    noted: &Option<FailureProbe<()>>,
    err: &mut E,
)
    ensures quiet { E.takes_hints err.old ≡ false → err.new ≡ err.old }
{
    if let (Err(stop), Some(noted)) = (read, noted) {
        hint_capture(paths, stop.number, stop.fault, noted, err);
        hint_unread(paths, stop.number, err);
    }
}
