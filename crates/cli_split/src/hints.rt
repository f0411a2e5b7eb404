//! Hints on how `bpftap split` ended, below the lines of its faults.

ghost use Rattle.std.specs.Prelude.{◌≡◌, false};

use crate::outcome::{ClosedEnd, ClosedPart};
use crate::plan::SplitLine;
use crate::split::Stop;
use cli_report::HintSink;
use cli_report::failures::hint_source;
use cli_report::files::hint_reason;
use cli_report::stream::give_hint;
use cli_text::report::EscapedPath;
use cli_watch::hints::is_asked;

/// Hints on a capture that was not written.
fn hint_closed<E: HintSink>(line: &SplitLine<'_>, part: &ClosedPart, err: &mut E)
    ensures quiet { E.takes_hints err.old ≡ false → err.new ≡ err.old }
{
    if part.written.is_err() {
        give_hint(format_args!("{}:", EscapedPath(line.output)), err);
        if let Some(error) = part.sink {
            hint_reason(&error, err);
        }
    }
}

/// Hints on the captures that were not written.
fn hint_parts<E: HintSink>(lines: &[SplitLine<'_>], parts: &[ClosedPart], err: &mut E)
    ensures quiet { E.takes_hints err.old ≡ false → err.new ≡ err.old }
{
    for (line, part) in lines.iter().zip(parts.iter()) {
        hint_closed(line, part, err);
    }
}

/// Hints on the captures that were not written, and on the one that ended the reading.
pub fn hint_ended<E: HintSink>(
    inputs: &[&str],
    lines: &[SplitLine<'_>],
    end: &ClosedEnd,
    err: &mut E,
)
    ensures quiet { E.takes_hints err.old ≡ false → err.new ≡ err.old }
{
    hint_parts(lines, end.parts.as_slice(), err);
    if let Err(Stop::AtHeader(n, fault) | Stop::AtRecord(n, fault)) = end.end {
        hint_source(inputs, end.sources.as_slice(), n, fault, err);
    }
}

/// Whether it is reported into how many frames the expressions of the lines do not look: each OUT
/// was written whole.
pub(crate) fn counts_frames(lines: &[SplitLine<'_>], end: &ClosedEnd) -> bool {
    end.parts.iter().all(|part| part.written.is_ok())
        && lines.iter().any(|line| is_asked(line.expression))
}

/// Whether the name of an OUT ends in a carriage return.
pub(crate) fn names_return(lines: &[SplitLine<'_>]) -> bool {
    lines.iter().any(|line| line.output.ends_with('\r'))
}
