//! Why a listener or a buffer could not be made.

ghost use Rattle.std.specs.Prelude.{◌≡◌, Some};
ghost use Rattle.listener.specs.Faults.{open_fault_text};
ghost use Rattle.listener.specs.declared.fault.OpenFault.TheVariants.{NoMemory};

use std::alloc::AllocError;
use std::fmt;
use std::fmt::{Display, Formatter};
use thiserror::Error;

/// Why a listener or a buffer could not be made. It prints as its name.
#[derive(Clone, Copy, Debug, PartialEq, Eq, Error)]
pub enum OpenFault {
    /// The snapshot length is not 1 to 262,144.
    BadSnap,
    /// The capacity is out of its range.
    BadCapacity,
    /// Memory was refused.
    NoMemory,
}

impl OpenFault {
    /// Its name, as it prints.
    pub fn name(self) -> &'static str
        ensures { result.now ≡ open_fault_text self }
    {
        match self {
            OpenFault::BadSnap => "BadSnap",
            OpenFault::BadCapacity => "BadCapacity",
            OpenFault::NoMemory => "NoMemory",
        }
    }
}

impl Display for OpenFault {
    ghost output = { λ fault. Some (open_fault_text fault) };

    fn fmt<W: fmt::Write>(&self, f: &mut Formatter<W>) -> fmt::Result {
        f.write_str(self.name())
    }
}

impl From<AllocError> for OpenFault {
    ghost from_gives = { λ _ e. e ≡ NoMemory };

    fn from(_e: AllocError) -> OpenFault {
        OpenFault::NoMemory
    }
}
