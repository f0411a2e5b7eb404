//! Why a list of instructions is no program, and a text no listing.

ghost use Rattle.std.specs.Prelude.{◌≡◌, Some, codes};
ghost use Rattle.bpfvm.specs.Faults.{invalid_name, invalid_place, invalid_text, listing_fault_name, listing_fault_text};

use std::alloc::{AllocError, AllocFailed};
use std::fmt;
use std::fmt::{Display, Formatter};
use thiserror::Error;

/// Why a list of instructions is no program. A place counts instructions from 0. It prints as its
/// name, and then its place if it has one.
///
/// `Empty` and `TooMany` are looked for first, then the first faulty instruction, and `NoReturn`
/// last.
#[derive(Clone, Copy, Debug, PartialEq, Eq, Error)]
pub enum Invalid {
    /// There is no instruction.
    Empty,
    /// There are more than 512 instructions.
    TooMany,
    /// The code of the instruction at this place is not known.
    UnknownCode(usize),
    /// The jump at this place leads out of the program.
    JumpOut(usize),
    /// The instruction at this place names a cell of the scratch memory beyond the 16 that there
    /// are.
    Cell(usize),
    /// The instruction at this place divides by the constant 0, or takes the rest of such a
    /// division.
    ZeroDivisor(usize),
    /// The last instruction is not a return.
    NoReturn,
}

impl Invalid {
    /// Its name, without a place.
    pub fn name(self) -> &'static str
        ensures { result.now ≡ invalid_name self }
    {
        match self {
            Invalid::Empty => "Empty",
            Invalid::TooMany => "TooMany",
            Invalid::UnknownCode(_) => "UnknownCode",
            Invalid::JumpOut(_) => "JumpOut",
            Invalid::Cell(_) => "Cell",
            Invalid::ZeroDivisor(_) => "ZeroDivisor",
            Invalid::NoReturn => "NoReturn",
        }
    }

    /// The place of the instruction that is at fault, counted from 0.
    pub fn place(self) -> Option<usize>
        ensures { result ≡ invalid_place self }
    {
        match self {
            Invalid::UnknownCode(place)
            | Invalid::JumpOut(place)
            | Invalid::Cell(place)
            | Invalid::ZeroDivisor(place) => Some(place),
            Invalid::Empty | Invalid::TooMany | Invalid::NoReturn => None,
        }
    }
}

impl Display for Invalid {
    ghost output = { λ fault. Some (invalid_text fault) };

    fn fmt<W: fmt::Write>(&self, f: &mut Formatter<W>) -> fmt::Result {
        match self.place() {
            Some(place) => write!(f, "{} {place}", self.name()),
            None => f.write_str(self.name()),
        }
    }
}

/// Why a text is no listing of a program: the first of these faults that applies. It prints as its
/// name, and then its line, or the fault of the program.
#[derive(Clone, Copy, Debug, PartialEq, Eq, Error)]
pub enum ListingFault {
    /// The first malformed line, counted from 1.
    BadLine(usize),
    /// The first line is not the number of the lines that follow it.
    Count,
    /// The instructions are no program.
    Program(Invalid),
}

impl ListingFault {
    /// Its name, without a line and without the fault of the program.
    pub fn name(self) -> &'static str
        ensures { result.now ≡ listing_fault_name self }
    {
        match self {
            ListingFault::BadLine(_) => "BadLine",
            ListingFault::Count => "Count",
            ListingFault::Program(_) => "Program",
        }
    }
}

impl Display for ListingFault {
    ghost output = { λ fault. Some (listing_fault_text fault) };

    fn fmt<W: fmt::Write>(&self, f: &mut Formatter<W>) -> fmt::Result {
        match self {
            ListingFault::BadLine(line) => write!(f, "{} {line}", self.name()),
            ListingFault::Count => f.write_str(self.name()),
            ListingFault::Program(fault) => write!(f, "{} {fault}", self.name()),
        }
    }
}

/// Memory was refused.
#[derive(Clone, Copy, Debug, PartialEq, Eq, Error)]
pub struct NoMemory;

impl Display for NoMemory {
    ghost output = { λ _. Some (codes "NoMemory") };

    fn fmt<W: fmt::Write>(&self, f: &mut Formatter<W>) -> fmt::Result {
        f.write_str("NoMemory")
    }
}

impl From<AllocError> for NoMemory {
    fn from(_e: AllocError) -> NoMemory {
        NoMemory
    }
}

impl<T: Drop> From<AllocFailed<T>> for NoMemory {
    fn from(_e: AllocFailed<T>) -> NoMemory {
        NoMemory
    }
}
