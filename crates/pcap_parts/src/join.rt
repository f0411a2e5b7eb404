//! Parts that are joined.

ghost use Rattle.std.specs.Prelude.{◌≡◌, ◌<◌, ◌≢◌, ◌⊎◌, true, false, None, IfErr, OnErr, OnOk, Ok, option_map};
ghost use Rattle.pcap_parts.specs.Joining.{at_record, begun, joined, Fits, IsMisfit, IsWhole};

use crate::part::PartCut;
use savefile::{Fault, HEADER_LEN};

/// The byte after the header, at which the first part begins.
pub const FIRST_RECORD: u64 = HEADER_LEN as u64;

const _: () = prove!(FIRST_RECORD == 24);

/// Why parts do not make a whole capture.
#[derive(Clone, Copy, Debug, PartialEq, Eq)]
pub enum Misfit {
    /// No part begins at this byte, where the ones before end.
    Missing(u64),
    /// The part that begins at this byte is one of a capture of another size.
    OtherSize(u64),
    /// The part between these bytes ends inside a record, and the capture goes on: where the part
    /// ends was guessed wrong.
    CutOff(u64, u64),
    /// There are 2^64 packets or more.
    CountFull,
}

/// What parts that follow each other have.
#[derive(Clone, Copy, Debug, PartialEq, Eq)]
pub struct Joined {
    /// The byte at which the next part begins.
    pub next: u64,
    /// How many bytes the whole capture has.
    pub size: u64,
    /// How many packets there are.
    pub read: u64,
    /// The fault that ends the capture, if one does, at its place in the whole.
    pub fault: Option<Fault>,
}

/// The fault of another record.
fn at_record(fault: Fault, place: u64) -> Fault
    ensures { result ≡ at_record place fault }
{
    match fault {
        Fault::TornRecord(_) => Fault::TornRecord(place),
        Fault::BadFraction(_) => Fault::BadFraction(place),
        Fault::TooLong(_) => Fault::TooLong(place),
        other => other,
    }
}

/// The fault of another record, if there is one.
fn fault_at(fault: Option<Fault>, place: u64) -> Option<Fault>
    ensures { result ≡ option_map (at_record place) fault }
{
    match fault {
        Some(fault) => Some(at_record(fault, place)),
        None => None,
    }
}

impl Joined {
    /// Of no part yet, of a capture of `size` bytes.
    pub fn new(size: u64) -> Joined
        ensures { result ≡ begun size }
    {
        Joined {
            next: FIRST_RECORD,
            size,
            read: 0,
            fault: None,
        }
    }

    /// Adds the part that begins where the ones before end, and returns whether it was added: one
    /// that begins earlier is passed over, and so is each one after a fault. A bad record lies
    /// whole in its part, so it ends the capture; a torn one does only at the end of the capture.
    pub fn add(&mut self, part: &PartCut<'_>) -> Result<bool, Misfit>
        ensures added { result ≡ Ok true → Fits self.old part.now × (self.new ≡ joined self.old part.now) }
        ensures passed { result ≡ Ok false → (self.new ≡ self.old) × ((self.old.fault ≢ None) ⊎ (part.now.first < self.old.next)) }
        ensures misfit { IfErr result (λ misfit. (self.new ≡ self.old) × IsMisfit self.old part.now misfit) }
    {
        let PartCut { first, end, .. } = *part;
        if self.fault.is_some() || first < self.next {
            return Ok(false);
        }
        if first > self.next {
            return Err(Misfit::Missing(self.next));
        }
        if part.size != self.size {
            return Err(Misfit::OtherSize(first));
        }
        if let Some(Fault::TornRecord(_)) = part.fault {
            if end != part.size {
                return Err(Misfit::CutOff(first, end));
            }
        }
        let Some(read) = self.read.checked_add(part.tally.read) else {
            return Err(Misfit::CountFull);
        };
        self.next = end;
        self.read = read;
        self.fault = fault_at(part.fault, read);
        Ok(true)
    }

    /// Whether these parts are the whole capture: they end where it does, or a bad record ends it
    /// before.
    pub fn finish(&self) -> Result<(), Misfit>
        ensures whole { OnOk result (IsWhole self.now) }
        ensures missing { IfErr result (λ misfit. (misfit ≡ Misfit.Missing self.now.next) × (IsWhole self.now → ⊥)) }
    {
        match self.fault {
            Some(Fault::BadFraction(_) | Fault::TooLong(_)) => Ok(()),
            _ if self.next == self.size => Ok(()),
            _ => Err(Misfit::Missing(self.next)),
        }
    }
}
