//! Why a replay gives no report.

ghost use Rattle.std.specs.Prelude.{◌≡◌, Some};
ghost use Rattle.tap.specs.Faults.{fault_name, fault_text};
ghost use Rattle.tap.specs.Refusals.{of_playlist};
ghost use Rattle.tap.specs.declared.fault.Fault.TheVariants.{NoMemory};

use filtergen_facts::Refusal;
use listener::OpenFault;
use std::alloc::{AllocError, AllocFailed};
use std::fmt;
use std::fmt::{Display, Formatter};
use tap_steps::PlaylistFault;
use thiserror::Error;

/// Why a replay gives no report: the first of these faults that applies, and of `Expression`,
/// `Compile` and `Open` the first listener's. Captures, listeners and steps are counted from 0. It
/// prints as its name, its number, and the fault inside it.
#[derive(Clone, Copy, Debug, PartialEq, Eq, Error)]
pub enum Fault {
    /// There are over 64 listeners, or over 65,536 captures.
    TooMany,
    /// This step is the first one to name a listener that does not exist.
    NoListener(usize),
    /// This capture is the first whose header is refused.
    Capture(u32, savefile::Fault),
    /// This listener's expression is refused.
    Expression(u32, filterlang::Fault),
    /// This listener's expression is not compiled.
    Compile(u32, Refusal),
    /// This listener is not opened.
    Open(u32, OpenFault),
    /// Memory was refused, at any point.
    NoMemory,
}

impl Fault {
    /// Its name, without its number and the fault inside it.
    pub fn name(self) -> &'static str
        ensures { result.now ≡ fault_name self }
    {
        match self {
            Fault::TooMany => "TooMany",
            Fault::NoListener(_) => "NoListener",
            Fault::Capture(_, _) => "Capture",
            Fault::Expression(_, _) => "Expression",
            Fault::Compile(_, _) => "Compile",
            Fault::Open(_, _) => "Open",
            Fault::NoMemory => "NoMemory",
        }
    }
}

impl Display for Fault {
    ghost output = { λ fault. Some (fault_text fault) };

    fn fmt<W: fmt::Write>(&self, f: &mut Formatter<W>) -> fmt::Result {
        let name = self.name();
        match self {
            Fault::NoListener(step) => write!(f, "{name} {step}"),
            Fault::Capture(capture, fault) => write!(f, "{name} {capture} {fault}"),
            Fault::Expression(listener, fault) => write!(f, "{name} {listener} {fault}"),
            Fault::Compile(listener, refusal) => write!(f, "{name} {listener} {refusal}"),
            Fault::Open(listener, fault) => write!(f, "{name} {listener} {fault}"),
            Fault::TooMany | Fault::NoMemory => f.write_str(name),
        }
    }
}

impl From<PlaylistFault> for Fault {
    ghost from_gives = { λ f e. e ≡ of_playlist f };

    fn from(fault: PlaylistFault) -> Fault {
        match fault {
            PlaylistFault::Capture(n, fault) => Fault::Capture(n, fault),
            PlaylistFault::NoMemory => Fault::NoMemory,
        }
    }
}

impl From<AllocError> for Fault {
    ghost from_gives = { λ _ e. e ≡ NoMemory };

    fn from(_e: AllocError) -> Fault {
        Fault::NoMemory
    }
}

impl<T: Drop> From<AllocFailed<T>> for Fault {
    ghost from_gives = { λ _ e. e ≡ NoMemory };

    fn from(_e: AllocFailed<T>) -> Fault {
        Fault::NoMemory
    }
}
