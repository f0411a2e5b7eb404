//! What reading captures and printing came to, as it is reported, and its exit status.

ghost use Rattle.std.specs.Prelude.{◌≡◌, slice_get};
ghost use Rattle.cli_text.specs.Status.{greater};
ghost use Rattle.cli_text.specs.Telling.{fault_status};
ghost use Rattle.fault_report.specs.Reports.{TellsAmong, TellsMore, TellsOne};
ghost use Rattle.cli_answers.specs.Asked.{IsUnaskedReport, IsUnaskedStatus};
ghost use Rattle.cli_answers.specs.Telling.{IsFaultAt, IsFaultReport, TellsEnd, TellsStop, TellsUnprinted, printed_status, sought_status, stop_status};

use crate::asked::Unasked;
use crate::captures::{LinesEnd, SoughtEnd, read_of};
use crate::hints::hint_ended;
use crate::printing::Unprinted;
use cli_files::paths::report_path;
use cli_files::reading::{report_io, report_long_text};
use cli_filter::report_no_filter;
use cli_report::HintSink;
use cli_text::Status;
use cli_text::report::fault_status;
use cli_walk::Stop;
use cli_watch::frames::FrameCounts;
use cli_watch::hints::report_unseen;
use fault_report::captures::{capture_fault, device, nth_capture_fault};
use fault_report::reporting::{report_fault, report_memory, report_unwritten};
use fault_report::{FaultSink, Report, Subject};
use savefile::Fault;
use std::alloc::Global;

/// Reports why not all was printed, if it was not.
pub fn report_printed<E: FaultSink>(printed: &Result<(), Unprinted>, err: &mut E) -> Status
    ensures status { result ≡ printed_status printed.now }
    ensures told { TellsUnprinted (λ says. TellsOne E.takes_hints E.failed E.contents E.fault_form says err.old err.new) printed.now }
    ensures more { TellsMore E.takes_hints E.failed E.contents E.fault_form err.old err.new }
{
    match printed {
        Ok(()) => Status::Clean,
        Err(Unprinted::NoMemory) => report_memory(err),
        Err(Unprinted::Output(error)) => report_unwritten(error, err),
    }
}

/// The fault of the capture of this number, at this path, of those at these paths: that a device
/// failed names its path; any other fault has the number of the capture if there are several.
fn fault_at<'a>(paths: &[&'a str], number: usize, fault: Fault, path: &'a str) -> Report<'a>
    ensures { IsFaultAt paths.now number fault path.entry result }
{
    match fault {
        Fault::Device => device(Subject::File(path)),
        _ if paths.len() == 1 => capture_fault(fault, path),
        _ => nth_capture_fault(fault, number, paths),
    }
}

/// The fault of the capture of this number, of those at these paths.
fn fault_of<'a>(paths: &[&'a str], number: usize, fault: Fault) -> Report<'a>
    ensures { IsFaultReport paths.now number fault (slice_get paths.now number) result }
{
    match paths.get(number) {
        Some(path) => fault_at(paths, number, fault, *path),
        None => nth_capture_fault(fault, number, paths),
    }
}

/// Reports the fault of the capture of this number, of those at these paths: a failed device by its
/// path; any other fault by its name, after the capture's number if there are several captures. It
/// answers the exit status.
pub fn report_capture<E: FaultSink>(
    paths: &[&str],
    number: usize,
    fault: Fault,
    err: &mut E,
) -> Status
    ensures status { result ≡ fault_status fault }
    ensures told { TellsOne E.takes_hints E.failed E.contents E.fault_form (IsFaultReport paths.now number fault (slice_get paths.now number)) err.old err.new }
{
    report_fault(&fault_of(paths, number, fault), fault_status(fault), err)
}

/// Reports the capture that ended the reading, if one did, and answers the exit status.
fn report_stop<E: FaultSink>(read: Result<(), Stop>, paths: &[&str], err: &mut E) -> Status
    ensures status { result ≡ stop_status read }
    ensures told { TellsStop (λ says. TellsOne E.takes_hints E.failed E.contents E.fault_form says err.old err.new) paths.now read }
    ensures more { TellsMore E.takes_hints E.failed E.contents E.fault_form err.old err.new }
{
    match read {
        Ok(()) => Status::Clean,
        Err(stop) => report_capture(paths, stop.number, stop.fault, err),
    }
}

/// Reports what was not printed of several captures and then the one that ended the reading, if
/// there are these, with hints on that one, and answers the greatest exit status that applies.
pub fn report_end<C, E: HintSink>(end: &LinesEnd<C>, paths: &[&str], err: &mut E) -> Status
    ensures status { result ≡ greater (printed_status end.now.printed) (stop_status end.now.read) }
    ensures told { TellsEnd (λ says. TellsAmong E.takes_hints E.failed E.contents E.fault_form says err.old err.new) paths.now end.now.printed end.now.read }
{
    let printed = report_printed(&end.printed, err);
    let status = printed.max(report_stop(end.read, paths, err));
    hint_ended(paths, end.read, &end.noted, err);
    status
}

/// [`report_end`] of the lines of captures. If frames were counted and all was printed, it reports
/// below that into how many of them no filter looks, whatever capture ended the reading.
pub fn report_lines<C, E: HintSink>(
    end: &LinesEnd<C>,
    frames: Option<FrameCounts>,
    paths: &[&str],
    err: &mut E,
) -> Status
    ensures status { result ≡ greater (printed_status end.now.printed) (stop_status end.now.read) }
    ensures told { TellsEnd (λ says. TellsAmong E.takes_hints E.failed E.contents E.fault_form says err.old err.new) paths.now end.now.printed end.now.read }
{
    let status = report_end(end, paths, err);
    if let (Some(frames), Ok(())) = (frames, &end.printed) {
        let _ = report_unseen(frames, Status::Clean, err);
    }
    status
}

/// Reports the capture that ended the looking for a packet, if one did, and answers the exit
/// status: the one where a packet was found, or the one where none was.
fn report_found<E: FaultSink>(
    sought: Result<bool, Stop>,
    found: Status,
    none: Status,
    paths: &[&str],
    err: &mut E,
) -> Status
    ensures status { result ≡ sought_status found none sought }
    ensures told { TellsStop (λ says. TellsOne E.takes_hints E.failed E.contents E.fault_form says err.old err.new) paths.now sought }
{
    match sought {
        Ok(true) => found,
        Ok(false) => none,
        Err(stop) => report_capture(paths, stop.number, stop.fault, err),
    }
}

/// Reports the capture that ended the looking for a packet, if one did, with hints on it, and
/// answers the exit status: the one where a packet was found, or the one where all captures were
/// read and none was.
pub fn report_sought<E: HintSink>(
    end: &SoughtEnd,
    found: Status,
    none: Status,
    paths: &[&str],
    err: &mut E,
) -> Status
    ensures status { result ≡ sought_status found none end.now.found }
    ensures told { TellsStop (λ says. TellsOne E.takes_hints E.failed E.contents E.fault_form says err.old err.new) paths.now end.now.found }
{
    let status = report_found(end.found, found, none, paths, err);
    hint_ended(paths, read_of(end.found), &end.noted, err);
    status
}

/// Reports why nothing is asked of captures, with hints, and returns the exit status.
pub fn report_unasked<E: HintSink>(
    alloc: Global,
    reason: &Unasked<'_>,
    expr: Option<&str>,
    err: &mut E,
) -> Status
    ensures status { IsUnaskedStatus reason.now result }
    ensures told { TellsOne E.takes_hints E.failed E.contents E.fault_form (IsUnaskedReport reason.now) err.old err.new }
{
    match reason {
        Unasked::Filter(listing, fault) => {
            let listing = listing.as_ref().map(|text| text.as_slice());
            report_no_filter(alloc, listing, expr, *fault, err)
        }
        Unasked::TextTooLong(path) => report_long_text(*path, err),
        Unasked::Paths(fault) => report_path(fault, err),
        Unasked::File(path, error) => report_io(error, *path, err),
    }
}
