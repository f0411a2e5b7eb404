//! What comparing two filters came to, as it is reported, and its exit status.

ghost use Rattle.std.specs.Prelude.{◌≡◌, Some, option_copied};
ghost use Rattle.cli_text.specs.declared.status.Status.TheVariants.{Refused};
ghost use Rattle.fault_report.specs.Reports.{Tells, TellsMore, TellsOne};
ghost use Rattle.line_text.specs.declared.form.LineForm.TheVariants.{Text};
ghost use Rattle.cli_answers.specs.Asked.{IsUnaskedStatus};
ghost use Rattle.cli_answers.specs.Telling.{TellsUnprinted};
ghost use Rattle.cli_compare.specs.Comparing.{IsOutStatus, IsRefusedStatus};
ghost use Rattle.cli_compare.specs.Deciding.{answer_status};
ghost use Rattle.cli_compare.specs.Telling.{IsNamedReport, IsRefusedReport, IsUngivenReport, TellsOut, TellsWith, below, name_of, name_of_refusal};

use crate::asked::Uncompared;
use crate::outcome::OutFault;
use cli_answers::asked::Unasked;
use cli_answers::printing::Unprinted;
use cli_answers::report::report_unasked;
use cli_args::compare::CompareWords;
use cli_files::reading::report_io;
use cli_filter::{FilterFault, expression_report, hint_expression};
use cli_report::HintSink;
use cli_report::files::hint_reason;
use cli_text::Status;
use fault_report::reporting::{report_device, report_fault, report_memory, report_unwritten};
use fault_report::{FaultSink, Report, Subject};
use filter_same::Sameness;
use filtergen::ExpressionFault;
use line_text::{Line, LineForm};
use std::alloc::Global;

/// The name of the first of two expressions.
const FIRST: &str = "EXPR1";

/// The name of the second one.
const SECOND: &str = "EXPR2";

/// Reports why the answer about two expressions was not printed, if it was not, and answers the
/// exit status: [`Status::Clean`] if they are the same, [`Status::Negative`] if a packet shows a
/// difference, [`Status::Undecided`] if nothing is claimed of them.
pub fn report_answer<E: FaultSink>(answer: &Result<Sameness, Unprinted>, err: &mut E) -> Status
    ensures status { result ≡ answer_status answer.now }
    ensures told { TellsUnprinted (λ says. TellsOne E.takes_hints E.failed E.contents E.fault_form says err.old err.new) answer.now }
    ensures more { TellsMore E.takes_hints E.failed E.contents E.fault_form err.old err.new }
{
    match answer {
        Ok(Sameness::Same | Sameness::SameAsCaptured) => Status::Clean,
        Ok(Sameness::Short(_) | Sameness::Differ(_)) => Status::Negative,
        Ok(Sameness::NotDecided(_)) => Status::Undecided,
        Err(Unprinted::NoMemory) => report_memory(err),
        Err(Unprinted::Output(error)) => report_unwritten(error, err),
    }
}

/// Prints the name of an argument in a line below that of its fault.
fn print_name<E: HintSink>(name: &str, err: &mut E)
    ensures { Tells E.takes_hints E.failed E.contents E.fault_form err.old err.new (below (Some name.now) Text) }
{
    let mut line = Line::new();
    match writeln!(line, "  {name}:") {
        // `tell_line` promises the whole line, `print_below` a beginning of it.
        Ok(()) => {
            let _ = err.tell_line(line.as_bytes());
        }
        Err(_) => err.fail(),
    }
}

/// Names what has a fault below its line, if it has a name. An object of JSON has the name itself.
fn name_below<E: HintSink>(name: Option<&str>, err: &mut E)
    ensures { Tells E.takes_hints E.failed E.contents E.fault_form err.old err.new (below (option_copied name.entry) (E.fault_form err.old)) }
{
    match (name, err.fault_form()) {
        (Some(name), LineForm::Text) => print_name(name, err),
        _ => {}
    }
}

/// The fault of an expression, about the argument of this name, if it has one.
fn named_report(name: Option<&'static str>, fault: ExpressionFault) -> Report<'static>
    ensures { IsNamedReport (option_copied name.entry) fault result }
{
    match name {
        Some(name) => expression_report(fault).about(Subject::Argument(name)),
        None => expression_report(fault),
    }
}

/// Reports why an expression is no filter, with hints: the fault names it if it is one of two.
fn report_expression<E: HintSink>(
    alloc: Global,
    name: Option<&'static str>,
    expr: &str,
    fault: ExpressionFault,
    err: &mut E,
) -> Status
    ensures status { result ≡ Refused }
    ensures told { TellsWith E.takes_hints E.failed E.contents E.fault_form (option_copied name.entry) (IsNamedReport (option_copied name.entry) fault) err.old err.new }
{
    let status = report_fault(&named_report(name, fault), Status::Refused, err);
    name_below(name, err);
    hint_expression(alloc, expr, fault, err);
    status
}

/// Reports why there is no filter, with hints, and returns the exit status.
fn report_ungiven<E: HintSink>(
    alloc: Global,
    name: Option<&'static str>,
    expr: &str,
    reason: &Unasked<'_>,
    err: &mut E,
) -> Status
    ensures status { IsUnaskedStatus reason.now result }
    ensures told { TellsWith E.takes_hints E.failed E.contents E.fault_form (name_of (option_copied name.entry) reason.now) (IsUngivenReport (option_copied name.entry) reason.now) err.old err.new }
{
    match reason {
        Unasked::Filter(None, FilterFault::Expression(fault)) => {
            report_expression(alloc, name, expr, *fault, err)
        }
        _ => report_unasked(alloc, reason, Some(expr), err),
    }
}

/// Reports why two filters are not compared, with hints, and returns the exit status. The fault
/// names its expression, if there are two: in a line below, or in its object.
pub fn report_uncompared<E: HintSink>(
    alloc: Global,
    reason: &Uncompared<'_>,
    words: &CompareWords<'_>,
    err: &mut E,
) -> Status
    ensures status { IsRefusedStatus reason.now result }
    ensures told { TellsWith E.takes_hints E.failed E.contents E.fault_form (name_of_refusal words.now reason.now) (IsRefusedReport words.now reason.now) err.old err.new }
{
    let second = words.second.unwrap_or("");
    match reason {
        Uncompared::First(reason) => {
            let name = words.listing.is_none().then_some(FIRST);
            report_ungiven(alloc, name, words.first, reason, err)
        }
        Uncompared::Second(reason) => report_ungiven(alloc, Some(SECOND), second, reason, err),
        Uncompared::Files(reason) => report_unasked(alloc, reason, None, err),
    }
}

/// Reports why OUT has no packet, if so, and returns the exit status.
pub fn report_out<E: HintSink>(written: &Result<(), OutFault>, path: &str, err: &mut E) -> Status
    ensures status { IsOutStatus written.now result }
    ensures told { TellsOut (λ says. TellsOne E.takes_hints E.failed E.contents E.fault_form says err.old err.new) path.entry written.now }
    ensures more { TellsMore E.takes_hints E.failed E.contents E.fault_form err.old err.new }
{
    match written {
        Ok(()) => Status::Clean,
        Err(OutFault::Unmade(error)) => report_io(error, path, err),
        Err(OutFault::Unwritten(error)) => {
            let status = report_device(path, err);
            if let Some(error) = error {
                hint_reason(error, err);
            }
            status
        }
    }
}
