//! The filters of the commands, each of a listing's file or of an expression, and what is reported
//! if there is none.

ghost use Rattle.std.specs.Prelude.{◌≡◌, ◌⊎◌, ℕ, List, Some, None, false, Ok, IfErr, IfOk, IsErr, option_copied};
ghost use Rattle.cli_text.specs.declared.status.Status.TheVariants.{Failed, Refused};
ghost use Rattle.fault_report.specs.Reports.{TellsOne};
ghost use Rattle.cli_filter.specs.Filter.{IsFilter, IsNoFilter};
ghost use Rattle.cli_filter.specs.Reports.{IsFilterReport};

use crate::assembly_hints::hint_assembly;
use crate::listing_hints::hint_listing;
use crate::program::{FilterFault, filter};
use crate::report::report_filter;
use bpfvm::Program;
use cli_files::reading::read_text;
use cli_filter_hints::expressions::{hint_refusal, hint_text_fault};
use cli_report::HintSink;
use cli_report::captures::is_capture;
use cli_report::stream::give_hint;
use cli_text::Status;
use filtergen::ExpressionFault;
use std::alloc::Global;
use std::fs::Files;

/// Hints on an expression that has no program.
pub fn hint_expression<E: HintSink>(alloc: Global, text: &str, fault: ExpressionFault, err: &mut E)
    ensures quiet { E.takes_hints err.old ≡ false → err.new ≡ err.old }
{
    match fault {
        ExpressionFault::Text(fault) => hint_text_fault(alloc, text, fault, err),
        ExpressionFault::Tree(refusal) => hint_refusal(refusal, err),
    }
}

fn hint_filter<E: HintSink>(
    alloc: Global,
    listing: Option<&[u8]>,
    expr: Option<&str>,
    fault: FilterFault,
    err: &mut E,
)
    ensures quiet { E.takes_hints err.old ≡ false → err.new ≡ err.old }
{
    if listing.is_some_and(is_capture) {
        give_hint("this is a capture: -f takes the program of a filter", err);
        return;
    }
    match fault {
        FilterFault::Expression(fault) => hint_expression(alloc, expr.unwrap_or(""), fault, err),
        FilterFault::Listing(fault) => hint_listing(listing.unwrap_or(&[]), fault, err),
        FilterFault::Assembly(fault) => hint_assembly(alloc, listing.unwrap_or(&[]), fault, err),
        FilterFault::Twice => give_hint(
            "a filter is an expression or a listing: leave out -e or -f",
            err,
        ),
    }
}

/// Reports why a listing or an expression gives no filter, with hints, and returns the exit status.
pub fn report_no_filter<E: HintSink>(
    alloc: Global,
    listing: Option<&[u8]>,
    expr: Option<&str>,
    fault: FilterFault,
    err: &mut E,
) -> Status
    ensures status { result ≡ Refused }
    ensures told { TellsOne E.takes_hints E.failed E.contents E.fault_form (IsFilterReport fault) err.old err.new }
{
    let status = report_filter(fault, err);
    hint_filter(alloc, listing, expr, fault, err);
    status
}

/// The filter, or reports why there is none, with hints, and returns the exit status.
fn filter_or_report<E: HintSink>(
    alloc: Global,
    listing: Option<&[u8]>,
    expr: Option<&str>,
    found: Result<Program, FilterFault>,
    err: &mut E,
) -> Result<Program, Status>
    ensures found { IfOk result (λ program. found ≡ Ok program) }
    ensures refused { IfErr result (λ status. (status ≡ Refused) × IsErr found) }
{
    match found {
        Ok(program) => Ok(program),
        Err(fault) => Err(report_no_filter(alloc, listing, expr, fault, err)),
    }
}

/// The program of a listing's file; or reports why there is none, and returns the exit status.
pub fn program_of_file<R: Files + AllocGlobal, E: HintSink>(
    rt: &R,
    path: &str,
    err: &mut E,
) -> Result<Program, Status>
    ensures found { IfOk result (λ program. (text : List ℕ) × IsFilter (Some text) None 0 program) }
    ensures refused { IfErr result (λ status. (status ≡ Refused) ⊎ (status ≡ Failed)) }
{
    let listing = read_text(rt, path, err)?;
    let listing = Some(listing.as_slice());
    let alloc = rt.alloc();
    filter_or_report(alloc, listing, None, filter(alloc, listing, None, 0), err)
}

/// The program of an expression; without one every packet is taken. Or reports why there is none,
/// and returns the exit status.
pub fn program_of_expression<R: AllocGlobal, E: HintSink>(
    rt: &R,
    expr: Option<&str>,
    snap: u32,
    err: &mut E,
) -> Result<Program, Status>
    ensures found { IfOk result (IsFilter None (option_copied expr.entry) snap) }
    ensures refused { IfErr result (λ status. (status ≡ Refused) × (fault : FilterFault) × IsNoFilter None (option_copied expr.entry) snap fault) }
{
    let alloc = rt.alloc();
    filter_or_report(alloc, None, expr, filter(alloc, None, expr, snap), err)
}
