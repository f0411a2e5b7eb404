//! What prints packets in full.

use bpfvm::Program;
use cli_answers::{AskedFilter, PacketForm};
use filtergen::Refusal;
use std::alloc::Global;

/// What prints packets in full: the filter that is asked, the program whose run is printed, and the form.
#[derive(Clone, Copy)]
pub struct FullPrinter<'f, 'p> {
    pub alloc: Global,
    pub filter: &'f AskedFilter,
    /// The program: what its expression is compiled to, or why it is not; or the program that it is.
    pub program: Result<&'p Program, Refusal>,
    pub form: PacketForm,
}
