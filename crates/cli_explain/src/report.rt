//! What explaining a capture came to, as it is reported, and its exit status.

ghost use Rattle.std.specs.Prelude.{◌≡◌, option_map, slice_get};
ghost use Rattle.cli_text.specs.Status.{greater};
ghost use Rattle.cli_text.specs.declared.status.Status.TheVariants.{Refused};
ghost use Rattle.fault_report.specs.Reports.{TellsAmong, TellsMore};
ghost use Rattle.fault_report.specs.declared.report.Subject.TheVariants.{Capture};
ghost use Rattle.cli_answers.specs.Telling.{printed_status};
ghost use Rattle.cli_explain.specs.Telling.{IsNoPacketReport, TellsFound, TellsRead, found_status, read_status};

use crate::one::Found;
use cli_answers::counts::VerdictCounts;
use cli_answers::lines::Printed;
use cli_answers::report::{report_capture, report_printed};
use cli_report::HintSink;
use cli_report::failures::name_source;
use cli_text::Status;
use fault_report::reporting::{report_capture as report_only, report_fault};
use fault_report::{FaultSink, Report, Subject, Word};
use savefile::Fault;

/// Reports what was not printed and then the capture's fault, if there are these, and answers the greatest exit status that applies.
pub fn report_each<R: Drop, E: FaultSink>(
    explained: Printed<R, VerdictCounts>,
    path: &str,
    err: &mut E,
) -> Status
    ensures { result ≡ greater (printed_status explained.printed) (read_status explained.read) }
{
    let printed = report_printed(&explained.printed, err);
    match explained.read {
        Ok(()) => printed,
        Err(fault) => printed.max(report_only(fault, path, err)),
    }
}

/// The capture of this number, of those at these paths.
fn capture_of<'a>(paths: &[&'a str], number: usize) -> Option<Subject<'a>>
    ensures { result ≡ option_map Capture (slice_get paths.now number) }
{
    match paths.get(number) {
        Some(path) => Some(Subject::Capture(*path)),
        None => None,
    }
}

/// That the capture of this number has no packet at a place.
fn no_packet<'a>(place: u64, paths: &[&'a str], number: usize) -> Report<'a>
    ensures { IsNoPacketReport paths.now number place result }
{
    Report {
        subject: capture_of(paths, number),
        ..Report::placed("NoPacket", Word::Number(place))
    }
}

/// Reports that the capture of this number has no packet at a place, and below that the capture's path if there are several.
fn report_no_packet<E: HintSink>(place: u64, paths: &[&str], number: usize, err: &mut E) -> Status
    ensures status { result ≡ Refused }
    ensures told { TellsAmong E.takes_hints E.failed E.contents E.fault_form (IsNoPacketReport paths.now number place) err.old err.new }
{
    let status = report_fault(&no_packet(place, paths, number), Status::Refused, err);
    let _ = name_source(paths, number, err);
    status
}

/// Reports that the capture of this number has no packet at a place, or the capture's fault, if there is one, and answers the exit status.
fn report_read<E: HintSink>(
    read: Result<bool, Fault>,
    place: u64,
    paths: &[&str],
    number: usize,
    err: &mut E,
) -> Status
    ensures status { result ≡ found_status read }
    ensures told { TellsRead (λ says. TellsAmong E.takes_hints E.failed E.contents E.fault_form says err.old err.new) paths.now number place read }
    ensures more { TellsMore E.takes_hints E.failed E.contents E.fault_form err.old err.new }
{
    match read {
        Ok(true) => Status::Clean,
        Ok(false) => report_no_packet(place, paths, number, err),
        Err(fault) => report_capture(paths, number, fault, err),
    }
}

/// Reports why a packet of the capture of this number was not printed, that its place has none, and then the capture's fault, and answers
/// the greatest exit status that applies.
pub fn report_one<R, E: HintSink>(
    found: &Found<R>,
    place: u64,
    paths: &[&str],
    number: usize,
    err: &mut E,
) -> Status
    ensures status { result ≡ greater (printed_status found.now.printed) (found_status found.now.read) }
    ensures told { TellsFound (λ says. TellsAmong E.takes_hints E.failed E.contents E.fault_form says err.old err.new) paths.now number place found.now.read found.now.printed }
    ensures more { TellsMore E.takes_hints E.failed E.contents E.fault_form err.old err.new }
{
    let status = report_printed(&found.printed, err);
    status.max(report_read(found.read, place, paths, number, err))
}
