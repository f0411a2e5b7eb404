//! Hints on the faults of `bpftap steps`, after the lines that report them.

ghost use Rattle.std.specs.Prelude.{◌≡◌, false};

use crate::outcome::{StepsInput, StepsReport};
use cli_filter_hints::expressions::{hint_refusal, hint_text_fault};
use cli_report::HintSink;
use cli_report::captures::hint_capture_fault;
use cli_report::files::{
    LISTENERS_OF_STEPS, SCRIPT, hint_bad_line, hint_capacity, hint_no_listener,
};
use cli_report::stream::give_hint;
use cli_text::report::EscapedPath;
use line_text::LineFault;
use listener::OpenFault;
use savefile::Fault;
use std::alloc::Global;
use tap::{Filter, MAX_CAPTURES, MAX_LISTENERS, Spec};

/// Hints on a line of LISTENERS or SCRIPT that is refused.
pub(crate) fn hint_line<E: HintSink>(listeners: &[u8], script: &[u8], fault: LineFault, err: &mut E)
    ensures quiet { E.takes_hints err.old ≡ false → err.new ≡ err.old }
{
    match fault {
        LineFault::Listeners(line) => hint_bad_line(listeners, line, LISTENERS_OF_STEPS, err),
        LineFault::Script(line) => hint_bad_line(script, line, SCRIPT, err),
        LineFault::NoMemory => {}
    }
}

/// A hint on too many listeners or captures.
pub(crate) fn hint_too_many<E: HintSink>(err: &mut E)
    ensures quiet { E.takes_hints err.old ≡ false → err.new ≡ err.old }
{
    give_hint(
        format_args!(
            "a replay takes at most {MAX_LISTENERS} listeners and {MAX_CAPTURES} captures"
        ),
        err,
    )
}

/// Hints on a listener that is refused.
fn hint_listener<E: HintSink>(alloc: Global, spec: &Spec, fault: tap::Fault, err: &mut E)
    ensures quiet { E.takes_hints err.old ≡ false → err.new ≡ err.old }
{
    match (fault, &spec.filter) {
        (tap::Fault::Expression(_, fault), Filter::Text(text)) => {
            hint_text_fault(alloc, text.as_str(), fault, err);
        }
        (tap::Fault::Compile(_, refusal), _) => hint_refusal(refusal, err),
        (tap::Fault::Open(_, OpenFault::BadCapacity), _) => {
            hint_capacity(spec.snap, spec.capacity, err);
        }
        _ => {}
    }
}

/// Hints on the capture of this number, which is refused, or which ended with a record fault, below its path.
fn hint_capture<E: HintSink>(
    paths: &[&str],
    texts: &[Vec<u8>],
    number: usize,
    fault: Fault,
    err: &mut E,
)
    ensures quiet { E.takes_hints err.old ≡ false → err.new ≡ err.old }
{
    if let (Some(path), Some(text)) = (paths.get(number), texts.get(number)) {
        give_hint(format_args!("{}:", EscapedPath(*path)), err);
        hint_capture_fault(text.as_slice(), fault, err);
    }
}

/// Hints on why there is no replay of the captures at these paths.
fn hint_fault<E: HintSink>(
    alloc: Global,
    paths: &[&str],
    input: &StepsInput,
    fault: tap::Fault,
    err: &mut E,
)
    ensures quiet { E.takes_hints err.old ≡ false → err.new ≡ err.old }
{
    let specs = input.plan.specs.as_slice();
    match fault {
        tap::Fault::Capture(n, fault) => {
            hint_capture(paths, input.captures.as_slice(), n as usize, fault, err)
        }
        tap::Fault::NoListener(step) => {
            hint_no_listener(input.script.as_slice(), step, specs.len(), err)
        }
        tap::Fault::Expression(l, _) | tap::Fault::Compile(l, _) | tap::Fault::Open(l, _) => {
            if let Some(spec) = specs.get(l as usize) {
                hint_listener(alloc, spec, fault, err);
            }
        }
        tap::Fault::TooMany => hint_too_many(err),
        tap::Fault::NoMemory => {}
    }
}

/// Hints on why there is no replay of the captures at these paths, or on the record that one ended at.
pub(crate) fn hint_replay<E: HintSink>(
    alloc: Global,
    paths: &[&str],
    report: &StepsReport,
    err: &mut E,
)
    ensures quiet { E.takes_hints err.old ≡ false → err.new ≡ err.old }
{
    if !err.takes_hints() {
        return;
    }
    match &report.replayed {
        Ok(replayed) => {
            if let Some((n, fault)) = replayed.record_fault {
                hint_capture(
                    paths,
                    report.input.captures.as_slice(),
                    n as usize,
                    fault,
                    err,
                );
            }
        }
        Err(fault) => hint_fault(alloc, paths, &report.input, *fault, err),
    }
}
