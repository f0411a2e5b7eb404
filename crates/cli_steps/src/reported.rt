//! The faults of a replay, as values that are reported.

ghost use Rattle.std.specs.Prelude.{◌≡◌, ℕ, Some, true};
ghost use Rattle.savefile.specs.declared.fault.Fault.{Fault as RecordFault};
ghost use Rattle.tap.specs.declared.fault.Fault.TheVariants.{Capture};
ghost use Rattle.fault_report.specs.Reports.{IsDevice, TellsAmong, TellsMore, TellsOne};
ghost use Rattle.fault_report.specs.declared.report.Subject.TheVariants.{StandardOutput};
ghost use Rattle.cli_steps.specs.Reports.{IsEnd, IsLineReport, IsReplayReport};

use crate::steps::Replayed;
use cli_report::HintSink;
use fault_report::captures::{device, nth_capture_fault};
use fault_report::{Report, Subject, Word};
use line_text::LineFault;
use tap::Fault;

/// The first bad line of LISTENERS or of SCRIPT.
pub(crate) fn line_fault(fault: LineFault) -> Report<'static>
    ensures { IsLineReport fault result }
{
    Report::placed(fault.name(), Word::place(fault.line()))
}

/// A fault of a replay of the captures at these paths.
pub(crate) fn replay_fault<'a>(fault: Fault, paths: &[&'a str]) -> Report<'a>
    ensures { IsReplayReport paths.now fault result }
{
    let name = fault.name();
    match fault {
        Fault::TooMany | Fault::NoMemory => Report::named(name),
        Fault::NoListener(step) => Report::placed(name, Word::count(step)),
        Fault::Capture(capture, fault) => {
            return nth_capture_fault(fault, capture as usize, paths);
        }
        Fault::Expression(listener, fault) => {
            let place = Word::place(fault.place());
            Report::of_part(name, listener as usize, fault.name(), place)
        }
        Fault::Compile(listener, refusal) => {
            Report::of_part(name, listener as usize, refusal.name(), Word::Nothing)
        }
        Fault::Open(listener, fault) => {
            Report::of_part(name, listener as usize, fault.name(), Word::Nothing)
        }
    }
}

/// Reports the fault that a replay of the captures at these paths ended with.
fn report_end<E: HintSink>(paths: &[&str], fault: Fault, err: &mut E)
    ensures { TellsOne E.takes_hints E.failed E.contents E.fault_form (IsReplayReport paths.now fault) err.old err.new }
{
    err.tell(&replay_fault(fault, paths));
}

/// Reports that standard output failed, if it did.
fn report_unprinted<E: HintSink>(output_failed: bool, err: &mut E)
    ensures told { output_failed ≡ true → TellsOne E.takes_hints E.failed E.contents E.fault_form (IsDevice StandardOutput) err.old err.new }
    ensures more { TellsMore E.takes_hints E.failed E.contents E.fault_form err.old err.new }
{
    if output_failed {
        err.tell(&device(Subject::StandardOutput));
    }
}

/// Reports the capture that ended with a record fault, of those at these paths, if one did.
fn report_record_fault<E: HintSink>(
    paths: &[&str],
    record_fault: Option<(u32, savefile::Fault)>,
    err: &mut E,
)
    ensures told { (capture : ℕ) → (fault : RecordFault) → record_fault ≡ Some (capture, fault) → TellsOne E.takes_hints E.failed E.contents E.fault_form (IsReplayReport paths.now (Capture capture fault)) err.old err.new }
    ensures more { TellsMore E.takes_hints E.failed E.contents E.fault_form err.old err.new }
{
    if let Some((capture, fault)) = record_fault {
        report_end(paths, Fault::Capture(capture, fault), err);
    }
}

/// Reports what became of a replay of the captures at these paths: that standard output failed, and then the capture that ended with a
/// record fault; or why there is no replay.
pub(crate) fn report_played<E: HintSink>(
    paths: &[&str],
    output_failed: bool,
    replayed: &Result<Replayed, Fault>,
    err: &mut E,
)
    ensures ended { (fault : Fault) → IsEnd replayed.now fault → TellsAmong E.takes_hints E.failed E.contents E.fault_form (IsReplayReport paths.now fault) err.old err.new }
    ensures unprinted { output_failed ≡ true → TellsAmong E.takes_hints E.failed E.contents E.fault_form (IsDevice StandardOutput) err.old err.new }
    ensures more { TellsMore E.takes_hints E.failed E.contents E.fault_form err.old err.new }
{
    report_unprinted(output_failed, err);
    match replayed {
        Ok(replayed) => report_record_fault(paths, replayed.record_fault, err),
        Err(fault) => report_end(paths, *fault, err),
    }
}
