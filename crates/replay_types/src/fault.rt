//! Why a replay gives no reports.

ghost use Rattle.std.specs.Prelude.{◌≡◌, Some};
ghost use Rattle.replay_types.specs.Faults.{run_fault_name, run_fault_text};
ghost use Rattle.replay_types.specs.declared.fault.RunFault.TheVariants.{NoStart};

use listener::OpenFault;
use std::alloc::{AllocError, AllocFailed};
use std::fmt;
use std::fmt::{Display, Formatter};
use thiserror::Error;

/// Why a replay gives no reports: the first of these faults that applies. Interfaces and their
/// tasks are counted from 0. It prints as its name, its numbers, and the fault inside it.
#[derive(Clone, Copy, Debug, PartialEq, Eq, Error)]
pub enum RunFault {
    /// There are over 16 interfaces, or one has over 64 tasks or over 65,536 captures.
    TooMany,
    /// Of this interface this task is not opened: its snapshot length, its capacity, or its number
    /// of spare buffers ([`OpenFault::BadCapacity`] too) is out of range.
    Open(u32, u32, OpenFault),
    /// Memory or a thread was refused. The threads that were started already have ended; they read
    /// and wrote nothing.
    NoStart,
}

impl RunFault {
    /// Its name, without its numbers and the fault inside it.
    pub fn name(self) -> &'static str
        ensures { result.now ≡ run_fault_name self }
    {
        match self {
            RunFault::TooMany => "TooMany",
            RunFault::Open(_, _, _) => "Open",
            RunFault::NoStart => "NoStart",
        }
    }
}

impl Display for RunFault {
    ghost output = { λ fault. Some (run_fault_text fault) };

    fn fmt<W: fmt::Write>(&self, f: &mut Formatter<W>) -> fmt::Result {
        match self {
            RunFault::Open(interface, task, fault) => {
                write!(f, "{} {interface} {task} {fault}", self.name())
            }
            RunFault::TooMany | RunFault::NoStart => f.write_str(self.name()),
        }
    }
}

impl From<AllocError> for RunFault {
    ghost from_gives = { λ _ e. e ≡ NoStart };

    fn from(_e: AllocError) -> RunFault {
        RunFault::NoStart
    }
}

impl<T: Drop> From<AllocFailed<T>> for RunFault {
    ghost from_gives = { λ _ e. e ≡ NoStart };

    fn from(_e: AllocFailed<T>) -> RunFault {
        RunFault::NoStart
    }
}
