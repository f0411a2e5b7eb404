//! The filter of a command.

ghost use Rattle.std.specs.Prelude.{IfOk, IfErr, option_copied};
ghost use Rattle.cli_filter.specs.Filter.{IsFilter, IsNoFilter};

use crate::report::filter_report;
use bpf_asm::{AssemblyFault, ProgramTextFault, read_program};
use bpfvm::{ListingFault, Program};
use fault_report::printed::ReportText;
use filtergen::{ExpressionFault, compile_text};
use savefile::effective_snaplen;
use std::alloc::Global;
use std::fmt;
use std::fmt::{Display, Formatter};
use thiserror::Error;

/// Why a command has no filter. It prints as it is reported.
#[derive(Clone, Copy, Debug, PartialEq, Eq, Error)]
pub enum FilterFault {
    /// Both a listing and an expression are given.
    Twice,
    /// The text is no listing of a valid program.
    Listing(ListingFault),
    /// The text is no assembly of a valid program.
    Assembly(AssemblyFault),
    /// The expression has no program.
    Expression(ExpressionFault),
}

impl Display for FilterFault {
    fn fmt<W: fmt::Write>(&self, f: &mut Formatter<W>) -> fmt::Result {
        write!(f, "{}", ReportText(&filter_report(*self)))
    }
}

/// The filter of a program's text (a listing, assembly or an image) or of an expression. An
/// expression's filter returns the snapshot length if the expression accepts a packet. Without
/// either it is that of the empty expression, which accepts every packet.
///
/// The fault is the one that applies: [`FilterFault::Twice`] if both are given; the fault of a text
/// that is no valid program in its notation; or that of an expression which is refused, or too deep
/// or too long to compile, or of a snapshot length above 262,144. An expression may also give
/// `NoMemory`.
pub fn filter(
    alloc: Global,
    listing: Option<&[u8]>,
    expr: Option<&str>,
    snap: u32,
) -> Result<Program, FilterFault>
    ensures found { IfOk result (IsFilter (option_copied listing.entry) (option_copied expr.entry) snap) }
    ensures fault { IfErr result (IsNoFilter (option_copied listing.entry) (option_copied expr.entry) snap) }
{
    match (listing, expr) {
        (Some(_), Some(_)) => Err(FilterFault::Twice),
        (Some(text), None) => match read_program(alloc, text) {
            Ok(program) => Ok(program),
            Err(ProgramTextFault::Listing(fault)) => Err(FilterFault::Listing(fault)),
            Err(ProgramTextFault::Assembly(fault)) => Err(FilterFault::Assembly(fault)),
        },
        (None, expr) => match compile_text(alloc, expr.unwrap_or(""), effective_snaplen(snap)) {
            Ok(program) => Ok(program),
            Err(fault) => Err(FilterFault::Expression(fault)),
        },
    }
}
