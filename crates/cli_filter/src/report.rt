//! Reports why there is no filter.

ghost use Rattle.std.specs.Prelude.{◌≡◌};
ghost use Rattle.fault_report.specs.Reports.{TellsOne};
ghost use Rattle.cli_filter.specs.Reports.{IsAssemblyReport, IsExpressionReport, IsFilterReport, IsListingReport, IsProgramReport};
ghost use Rattle.cli_text.specs.declared.status.Status.TheVariants.{Refused};

use crate::program::FilterFault;
use bpf_asm::AssemblyFault;
use bpfvm::{Invalid, ListingFault};
use cli_text::Status;
use fault_report::reporting::report_fault;
use fault_report::{FaultSink, Report, Word};
use filtergen::ExpressionFault;

/// The fault of an expression, as it is reported.
pub fn expression_report(fault: ExpressionFault) -> Report<'static>
    ensures { IsExpressionReport fault result }
{
    Report::placed(fault.name(), Word::place(fault.place()))
}

/// The fault of a program inside that of its text.
fn program_report(name: &'static str, fault: Invalid) -> Report<'static>
    ensures { IsProgramReport name.now fault result }
{
    let end = Word::Nothing;
    Report {
        name,
        words: [
            Word::Name(fault.name()),
            Word::place(fault.place()),
            end,
            end,
            end,
        ],
        subject: None,
    }
}

/// The fault of a listing.
fn listing_report(fault: ListingFault) -> Report<'static>
    ensures { IsListingReport fault result }
{
    match fault {
        ListingFault::BadLine(line) => Report::placed(fault.name(), Word::count(line)),
        ListingFault::Count => Report::named(fault.name()),
        ListingFault::Program(invalid) => program_report(fault.name(), invalid),
    }
}

/// The fault of assembly.
fn assembly_report(fault: AssemblyFault) -> Report<'static>
    ensures { IsAssemblyReport fault result }
{
    match fault {
        AssemblyFault::Line(line, _) => Report::placed(fault.name(), Word::count(line)),
        AssemblyFault::Program(invalid) => program_report(fault.name(), invalid),
        AssemblyFault::TextTooLong | AssemblyFault::NoMemory => Report::named(fault.name()),
    }
}

/// Why there is no filter, as it is reported.
pub fn filter_report(fault: FilterFault) -> Report<'static>
    ensures { IsFilterReport fault result }
{
    match fault {
        FilterFault::Twice => Report::named("FilterTwice"),
        FilterFault::Listing(fault) => listing_report(fault),
        FilterFault::Assembly(fault) => assembly_report(fault),
        FilterFault::Expression(fault) => expression_report(fault),
    }
}

/// Reports why there is no filter, and returns the exit status.
pub fn report_filter<E: FaultSink>(fault: FilterFault, err: &mut E) -> Status
    ensures status { result ≡ Refused }
    ensures told { TellsOne E.takes_hints E.failed E.contents E.fault_form (IsFilterReport fault) err.old err.new }
{
    report_fault(&filter_report(fault), Status::Refused, err)
}
