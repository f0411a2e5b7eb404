//! Programs as text, in whichever notation: decimal listings, assembly, images.

ghost use Rattle.std.specs.Prelude.{◌≡◌, ◌≤◌, Some, IfOk, IfErr, length};
ghost use Rattle.std.specs.List.{prefix_len};
ghost use Rattle.bpf_asm.specs.Faults.{program_text_fault_name, program_text_fault_text};
ghost use Rattle.bpf_asm.specs.Notation.{is_space, past_spaces, is_assembly, IsProgramText, IsNoProgramText};

use crate::fault::AssemblyFault;
use crate::reading::read_assembly;
use bpfvm::{ListingFault, Program, read_listing};
use std::alloc::Global;
use std::fmt;
use std::fmt::{Display, Formatter};
use thiserror::Error;

/// Why a text is no program, in the notation that it is in. It prints as the fault of that
/// notation.
#[derive(Clone, Copy, Debug, PartialEq, Eq, Error)]
pub enum ProgramTextFault {
    Listing(ListingFault),
    Assembly(AssemblyFault),
}

impl ProgramTextFault {
    /// The name of the fault in its notation.
    pub fn name(self) -> &'static str
        ensures { result.now ≡ program_text_fault_name self }
    {
        match self {
            ProgramTextFault::Listing(fault) => fault.name(),
            ProgramTextFault::Assembly(fault) => fault.name(),
        }
    }
}

impl Display for ProgramTextFault {
    ghost output = { λ fault. Some (program_text_fault_text fault) };

    fn fmt<W: fmt::Write>(&self, f: &mut Formatter<W>) -> fmt::Result {
        match self {
            ProgramTextFault::Listing(fault) => write!(f, "{fault}"),
            ProgramTextFault::Assembly(fault) => write!(f, "{fault}"),
        }
    }
}

/// Whether a byte is a blank or ends a line.
fn is_space(byte: u8) -> bool
    ensures { result ≡ is_space byte }
{
    byte == b' ' || byte == b'\t' || byte == b'\r' || byte == b'\n'
}

/// How many bytes at the front of a text are blanks.
fn space_count(text: &[u8]) -> usize
    ensures value { result ≡ prefix_len is_space text.now }
    ensures within { result ≤ length text.now }
{
    text.iter().take_while(|byte| is_space(**byte)).count()
}

/// What follows the blanks at the front of a text.
fn past_spaces(text: &[u8]) -> &[u8]
    ensures { result.now ≡ past_spaces text.now }
{
    let count = space_count(text);
    &text[count..]
}

/// Whether a text is assembly or an image, and no decimal listing: it has a byte that is no blank,
/// and the first of these is no digit.
pub fn is_assembly(text: &[u8]) -> bool
    ensures { result ≡ is_assembly text.now }
{
    past_spaces(text)
        .first()
        .is_some_and(|byte| !byte.is_ascii_digit())
}

/// The program of a text: of a decimal listing as [`read_listing`] reads it, or of assembly or an
/// image as [`read_assembly`] does. [`is_assembly`] says which it is.
///
/// The fault is that of the notation. `NoMemory` may come at any time for assembly.
pub fn read_program(alloc: Global, text: &[u8]) -> Result<Program, ProgramTextFault>
    ensures ok { IfOk result (λ program. IsProgramText text.now program) }
    ensures fault { IfErr result (IsNoProgramText text.now) }
{
    if is_assembly(text) {
        match read_assembly(alloc, text) {
            Ok(program) => Ok(program),
            Err(fault) => Err(ProgramTextFault::Assembly(fault)),
        }
    } else {
        match read_listing(text) {
            Ok(program) => Ok(program),
            Err(fault) => Err(ProgramTextFault::Listing(fault)),
        }
    }
}
