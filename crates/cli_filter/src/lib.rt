//! The filter that a command is given: an expression or the listing of a file, and what is printed
//! if it is refused; and the plan of a file of lines, each with a filter.
#![tactic(auto)]

mod assembly_hints;
mod filters;
mod listing_hints;
pub mod plan;
pub mod plan_files;
pub mod plan_hints;
mod program;
mod report;

pub use filters::{hint_expression, program_of_expression, program_of_file, report_no_filter};
pub use program::{FilterFault, filter};
pub use report::{expression_report, filter_report, report_filter};
