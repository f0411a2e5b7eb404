//! A part of a capture, and what its cut came to.

ghost use Rattle.std.specs.Prelude.{◌≡◌, IfNone, IfSome};
ghost use Rattle.pcap_cut.specs.Outcome.{end_behind};
ghost use Rattle.pcap_parts.specs.Parts.{IsCounted};

use pcap_cut::cut::{CutEnd, End, Tally};
use savefile::Fault;

/// What the cut of a part came to: of the header of a capture, and a range of the bytes after it.
#[derive(Clone, Copy, Debug, PartialEq, Eq)]
pub struct PartCut<'a> {
    /// The byte of the capture at which the part begins.
    pub first: u64,
    /// The byte after its last one.
    pub end: u64,
    /// How many bytes the whole capture has.
    pub size: u64,
    /// How many packets the part has, and how many of these were written.
    pub tally: Tally,
    /// How many bytes were written, the header among them.
    pub sent: u64,
    /// Why the part has no further packet, if it does not end clean. The place counts the records
    /// of the part.
    pub fault: Option<Fault>,
    /// The path of the file that was written.
    pub file: &'a str,
}

impl<'a> PartCut<'a> {
    /// What a cut of a part came to; `None` if the part was not read to its end or to a torn or bad
    /// record, or not all was written.
    pub fn of<R, W>(
        first: u64,
        end: u64,
        size: u64,
        file: &'a str,
        cut: &CutEnd<R, W>,
    ) -> Option<PartCut<'a>>
        ensures part { IfSome result (λ part. (part.first ≡ first) × (part.end ≡ end) × (part.size ≡ size) × (part.file.now ≡ file.now)) }
        ensures cut { IfSome result (λ part. (part.tally ≡ cut.now.tally) × (part.sent ≡ cut.now.sent) × (cut.now.end ≡ end_behind part.fault)) }
        ensures counted { IfSome result (λ part. IsCounted cut.now.end) }
        ensures none { IfNone result (IsCounted cut.now.end → ⊥) }
    {
        let fault = match cut.end {
            End::Clean => None,
            End::Input(
                fault @ (Fault::TornRecord(_) | Fault::BadFraction(_) | Fault::TooLong(_)),
            ) => Some(fault),
            End::Input(_) | End::Output(_) => return None,
        };
        Some(PartCut {
            first,
            end,
            size,
            tally: cut.tally,
            sent: cut.sent,
            fault,
            file,
        })
    }
}
