//! Hints on how `bpftap explain` ended, below the lines of its faults.

ghost use Rattle.std.specs.Prelude.{◌≡◌, false};

use cli_report::HintSink;
use cli_report::stream::give_hint;
use cli_text::report::EscapedPath;

/// Hints on a place at which the capture of this number has no packet, below its path.
pub(crate) fn hint_place<E: HintSink>(paths: &[&str], number: usize, err: &mut E)
    ensures quiet { E.takes_hints err.old ≡ false → err.new ≡ err.old }
{
    if let Some(path) = paths.get(number) {
        give_hint(format_args!("{}:", EscapedPath(*path)), err);
    }
    give_hint(
        "places count from 0: bpftap info prints how many packets there are",
        err,
    );
}
