//! What follows from the definitions. Each function does nothing: its contract is the law.

ghost use Rattle.pcap_parts.specs.Cutting.{JoinsWhatWasCut};
ghost use Rattle.pcap_parts.specs.Parts.{ReadsByParts, CutsByParts};
ghost use Rattle.pcap_parts.specs.Whole.{CutsItsParts, HoldsItsParts};
ghost use Rattle.pcap_parts.specs.Writing.{JoinsTheCut};

use savefile::{Sink, Source};

/// If the header with a part ends clean, what comes after the part is read as a capture of its own
/// with the same header: the whole has the packets of both, and the fault of the rest, at its place
/// in the whole. So a part may end wherever somebody guessed that a record ends: if it is read
/// clean, the guess was right.
pub fn reads_by_parts()
    ensures { ReadsByParts }
{}

/// A cut of the whole is the cut of the first part, and then the cut of the rest without its
/// header.
pub fn cuts_by_parts()
    ensures { CutsByParts }
{}

/// If the parts make a whole capture, and what the cut of each reports is so, then the capture
/// holds the packets of all parts, one after the other, up to the fault that they have together, at
/// its place in the whole.
pub fn holds_its_parts()
    ensures { HoldsItsParts }
{}

/// The cut of a capture is the cut of its first part, and then those of the others without their
/// headers.
pub fn cuts_its_parts()
    ensures { CutsItsParts }
{}

/// If the file of each part is the cut of its packets, what is written of all parts is the cut of
/// the packets of all: byte for byte what one cut of the whole capture writes.
pub fn joins_the_cut()
    ensures { JoinsTheCut }
{}

/// If the header of one capture with each part was cut by [`cut`](pcap_cut::cut::cut), by one program
/// into a file of its own, and the parts say of that what
/// [`PartCut::of`](crate::part::PartCut::of) says, what is written of those that
/// [`select_parts`](crate::select::select_parts) returns is the cut of that capture.
pub fn joins_what_was_cut<R: Source, W: Sink>()
    ensures { JoinsWhatWasCut R.left W.taken }
{}
