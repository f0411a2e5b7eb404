//! Why captures give no playlist.

ghost use Rattle.std.specs.Prelude.{◌≡◌, Some};
ghost use Rattle.tap_steps.specs.Faults.{playlist_fault_name, playlist_fault_text};
ghost use Rattle.tap_steps.specs.declared.fault.PlaylistFault.TheVariants.{NoMemory};

use std::alloc::AllocError;
use std::fmt;
use std::fmt::{Display, Formatter};
use thiserror::Error;

/// Why captures give no playlist. Captures are counted from 0. It prints as its name, the number
/// and the fault of the capture.
#[derive(Clone, Copy, Debug, PartialEq, Eq, Error)]
pub enum PlaylistFault {
    /// This capture is the first whose header is refused.
    Capture(u32, savefile::Fault),
    /// Memory was refused.
    NoMemory,
}

impl PlaylistFault {
    /// Its name, without a number or the fault of a capture.
    pub fn name(self) -> &'static str
        ensures { result.now ≡ playlist_fault_name self }
    {
        match self {
            PlaylistFault::Capture(_, _) => "Capture",
            PlaylistFault::NoMemory => "NoMemory",
        }
    }
}

impl Display for PlaylistFault {
    ghost output = { λ fault. Some (playlist_fault_text fault) };

    fn fmt<W: fmt::Write>(&self, f: &mut Formatter<W>) -> fmt::Result {
        match self {
            PlaylistFault::Capture(capture, fault) => {
                write!(f, "{} {capture} {fault}", self.name())
            }
            PlaylistFault::NoMemory => f.write_str(self.name()),
        }
    }
}

impl From<AllocError> for PlaylistFault {
    ghost from_gives = { λ _ e. e ≡ NoMemory };

    fn from(_e: AllocError) -> PlaylistFault {
        PlaylistFault::NoMemory
    }
}
