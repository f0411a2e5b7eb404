//! Why a savefile could not be read or written.

ghost use Rattle.std.specs.Prelude.{◌≡◌, Some};
ghost use Rattle.savefile.specs.Faults.{fault_name, fault_place, fault_text};
ghost use Rattle.savefile.specs.declared.fault.Fault.TheVariants.{Device, NoMemory};

use crate::device::Broken;
use std::alloc::{AllocError, AllocFailed};
use std::fmt;
use std::fmt::{Display, Formatter};
use thiserror::Error;

/// Why a savefile could not be read or written. It prints as its name, and then its place if it has
/// one: the number of a record, counted from 0.
#[derive(Clone, Copy, Debug, PartialEq, Eq, Error)]
pub enum Fault {
    /// The text has fewer than the 24 bytes of a file header.
    ShortHeader,
    /// The first four bytes are no magic number of this profile.
    NotSavefile,
    /// The version is not 2.4.
    Version,
    /// The link type is not 1, Ethernet.
    LinkType,
    /// The text ends inside the record at this place.
    TornRecord(u64),
    /// The fraction of the record at this place is a second or more; that this is refused is this
    /// project's own.
    BadFraction(u64),
    /// The captured length of the record at this place is above 262,144, a bar of this project.
    TooLong(u64),
    /// A request for memory was refused.
    NoMemory,
    /// The device failed in this very call.
    Device,
    /// An earlier call ended the reading or writing: a device failed, or, in a reader, a record was
    /// torn or bad or memory ran out. Nothing was done.
    Failed,
    /// A count is full: a reader has given 2^64 - 1 packets, or what a writer sent would pass
    /// 2^64 - 1 bytes; nothing was done.
    CountFull,
}

impl Fault {
    /// Its name, without a place.
    pub fn name(self) -> &'static str
        ensures { result.now ≡ fault_name self }
    {
        match self {
            Fault::ShortHeader => "ShortHeader",
            Fault::NotSavefile => "NotSavefile",
            Fault::Version => "Version",
            Fault::LinkType => "LinkType",
            Fault::TornRecord(_) => "TornRecord",
            Fault::BadFraction(_) => "BadFraction",
            Fault::TooLong(_) => "TooLong",
            Fault::NoMemory => "NoMemory",
            Fault::Device => "Device",
            Fault::Failed => "Failed",
            Fault::CountFull => "CountFull",
        }
    }

    /// The place of the record that is at fault, counted from 0.
    pub fn place(self) -> Option<u64>
        ensures { result ≡ fault_place self }
    {
        match self {
            Fault::TornRecord(place) | Fault::BadFraction(place) | Fault::TooLong(place) => {
                Some(place)
            }
            Fault::ShortHeader
            | Fault::NotSavefile
            | Fault::Version
            | Fault::LinkType
            | Fault::NoMemory
            | Fault::Device
            | Fault::Failed
            | Fault::CountFull => None,
        }
    }
}

impl Display for Fault {
    ghost output = { λ fault. Some (fault_text fault) };

    fn fmt<W: fmt::Write>(&self, f: &mut Formatter<W>) -> fmt::Result {
        match self.place() {
            Some(place) => write!(f, "{} {place}", self.name()),
            None => f.write_str(self.name()),
        }
    }
}

impl From<Broken> for Fault {
    ghost from_gives = { λ _ e. e ≡ Device };

    fn from(_e: Broken) -> Fault {
        Fault::Device
    }
}

impl From<AllocError> for Fault {
    ghost from_gives = { λ _ e. e ≡ NoMemory };

    fn from(_e: AllocError) -> Fault {
        Fault::NoMemory
    }
}

impl<T: Drop> From<AllocFailed<T>> for Fault {
    ghost from_gives = { λ _ e. e ≡ NoMemory };

    fn from(_e: AllocFailed<T>) -> Fault {
        Fault::NoMemory
    }
}
