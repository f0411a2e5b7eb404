//! Why a text is no assembly of a program.

ghost use Rattle.std.specs.Prelude.{◌≡◌, Some};
ghost use Rattle.bpf_asm.specs.Faults.{cause_text, assembly_fault_name, assembly_fault_text};
ghost use Rattle.bpf_asm.specs.declared.fault.AssemblyFault.TheVariants.{NoMemory};

use bpfvm::Invalid;
use std::alloc::{AllocError, AllocFailed};
use std::fmt;
use std::fmt::{Display, Formatter};
use thiserror::Error;

/// What is wrong with a line of assembly. It prints as its name.
#[derive(Clone, Copy, Debug, PartialEq, Eq, Error)]
pub enum Cause {
    /// A byte with which no word, number or sign begins, or a `/*` without its `*/` on the line.
    BadByte,
    /// A number that is misspelled, or out of its range: below -2,147,483,648 or above
    /// 4,294,967,295.
    BadNumber,
    /// A label of more than 32 bytes.
    LongLabel,
    /// There is no instruction of this name.
    UnknownName,
    /// The instruction takes no operand of this form.
    BadOperand,
    /// An earlier line has this label too.
    LabelTwice,
    /// The place in front of the instruction is not its own.
    BadPlace,
    /// No line has the label that the jump leads to.
    NoLabel,
    /// The jump leads back, or to itself.
    JumpBack,
    /// The conditional jump passes more than 255 instructions.
    JumpTooFar,
}

impl Cause {
    /// Its name, as it prints.
    pub fn name(self) -> &'static str
        ensures { result.now ≡ cause_text self }
    {
        match self {
            Cause::BadByte => "BadByte",
            Cause::BadNumber => "BadNumber",
            Cause::LongLabel => "LongLabel",
            Cause::UnknownName => "UnknownName",
            Cause::BadOperand => "BadOperand",
            Cause::LabelTwice => "LabelTwice",
            Cause::BadPlace => "BadPlace",
            Cause::NoLabel => "NoLabel",
            Cause::JumpBack => "JumpBack",
            Cause::JumpTooFar => "JumpTooFar",
        }
    }
}

impl Display for Cause {
    ghost output = { λ fault. Some (cause_text fault) };

    fn fmt<W: fmt::Write>(&self, f: &mut Formatter<W>) -> fmt::Result {
        f.write_str(self.name())
    }
}

/// Why a text is no assembly of a program. It prints as its name and its line, and a program's
/// fault as `Program` and that fault.
#[derive(Clone, Copy, Debug, PartialEq, Eq, Error)]
pub enum AssemblyFault {
    /// The text has more than 65,536 bytes.
    TextTooLong,
    /// The first line with a fault, counted from 1, and the fault.
    Line(usize, Cause),
    /// The instructions are no program. A place counts them from 0.
    Program(Invalid),
    /// Memory was refused.
    NoMemory,
}

impl AssemblyFault {
    /// Its name, without a line and without the fault of the program; of a line it is the name of
    /// the cause.
    pub fn name(self) -> &'static str
        ensures { result.now ≡ assembly_fault_name self }
    {
        match self {
            AssemblyFault::TextTooLong => "TextTooLong",
            AssemblyFault::Line(_, cause) => cause.name(),
            AssemblyFault::Program(_) => "Program",
            AssemblyFault::NoMemory => "NoMemory",
        }
    }
}

impl Display for AssemblyFault {
    ghost output = { λ fault. Some (assembly_fault_text fault) };

    fn fmt<W: fmt::Write>(&self, f: &mut Formatter<W>) -> fmt::Result {
        match self {
            AssemblyFault::Line(line, _) => write!(f, "{} {line}", self.name()),
            AssemblyFault::Program(fault) => write!(f, "{} {fault}", self.name()),
            AssemblyFault::TextTooLong | AssemblyFault::NoMemory => f.write_str(self.name()),
        }
    }
}

impl From<AllocError> for AssemblyFault {
    ghost from_gives = { λ _ e. e ≡ NoMemory };

    fn from(_refused: AllocError) -> AssemblyFault {
        AssemblyFault::NoMemory
    }
}

impl<T: Drop> From<AllocFailed<T>> for AssemblyFault {
    ghost from_gives = { λ _ e. e ≡ NoMemory };

    fn from(_refused: AllocFailed<T>) -> AssemblyFault {
        AssemblyFault::NoMemory
    }
}
