//! Why the lines of a file are not taken.

ghost use Rattle.std.specs.Prelude.{◌≡◌, Some};
ghost use Rattle.line_text.specs.Faults.{fault_line, line_fault_name, line_fault_text};
ghost use Rattle.line_text.specs.declared.fault.LineFault.TheVariants.{NoMemory};

use std::alloc::{AllocError, AllocFailed};
use std::fmt;
use std::fmt::{Display, Formatter};

/// Why the files LISTENERS and SCRIPT are not taken. A line is counted from 1.
#[derive(Clone, Copy, Debug, PartialEq, Eq)]
pub enum LineFault {
    /// A malformed line of LISTENERS.
    Listeners(usize),
    /// A malformed line of SCRIPT.
    Script(usize),
    NoMemory,
}

impl LineFault {
    /// Its name, without its line.
    pub fn name(self) -> &'static str
        ensures { result.now ≡ line_fault_name self }
    {
        match self {
            LineFault::Listeners(_) => "Listeners",
            LineFault::Script(_) => "Script",
            LineFault::NoMemory => "NoMemory",
        }
    }

    /// The line that is not taken, from 1.
    pub fn line(self) -> Option<usize>
        ensures { result ≡ fault_line self }
    {
        match self {
            LineFault::Listeners(line) | LineFault::Script(line) => Some(line),
            LineFault::NoMemory => None,
        }
    }
}

impl Display for LineFault {
    ghost output = { λ fault. Some (line_fault_text fault) };

    fn fmt<W: fmt::Write>(&self, f: &mut Formatter<W>) -> fmt::Result {
        match self.line() {
            Some(line) => write!(f, "{} {line}", self.name()),
            None => f.write_str(self.name()),
        }
    }
}

impl From<AllocError> for LineFault {
    ghost from_gives = { λ _ e. e ≡ NoMemory };

    fn from(_e: AllocError) -> LineFault {
        LineFault::NoMemory
    }
}

impl<T: Drop> From<AllocFailed<T>> for LineFault {
    ghost from_gives = { λ _ e. e ≡ NoMemory };

    fn from(_e: AllocFailed<T>) -> LineFault {
        LineFault::NoMemory
    }
}
