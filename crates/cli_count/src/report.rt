//! What counting came to, as it is reported, and its exit status.

ghost use Rattle.std.specs.Prelude.{◌≡◌};
ghost use Rattle.cli_text.specs.Status.{greater};
ghost use Rattle.fault_report.specs.Reports.{TellsAmong};
ghost use Rattle.cli_answers.specs.Telling.{TellsEnd, printed_status, stop_status};
ghost use Rattle.cli_count.specs.Telling.{bounds_status, listed_status};

use cli_answers::captures::LinesEnd;
use cli_answers::report::report_end;
use cli_args::counting::CountBounds;
use cli_report::HintSink;
use cli_text::Status;

/// The exit status of captures of which N packets are accepted; without bounds it is
/// [`Status::Clean`].
pub fn bounds_status(bounds: Option<CountBounds>, accepted: u64) -> Status
    ensures { result ≡ bounds_status bounds accepted }
{
    match bounds {
        Some(bounds) if !bounds.contains(accepted) => Status::Negative,
        _ => Status::Clean,
    }
}

/// The exit status of captures of which one has an accepted packet, or none has.
pub fn listed_status(found: bool) -> Status
    ensures { result ≡ listed_status found }
{
    if found {
        Status::Clean
    } else {
        Status::Negative
    }
}

/// Reports what was not printed and then the capture that ended the reading, if there are these,
/// with hints on that one, and returns the greatest exit status that applies: theirs, or that of
/// the answer.
pub fn report_counting<C, E: HintSink>(
    end: &LinesEnd<C>,
    answer: Status,
    paths: &[&str],
    err: &mut E,
) -> Status
    ensures status { result ≡ greater (greater (printed_status end.now.printed) (stop_status end.now.read)) answer }
    ensures told { TellsEnd (λ says. TellsAmong E.takes_hints E.failed E.contents E.fault_form says err.old err.new) paths.now end.now.printed end.now.read }
{
    report_end(end, paths, err).max(answer)
}
