//! What a capture has, and whether it is whole.

ghost use Rattle.std.specs.Prelude.{◌≡◌, ◌≢◌, ◌↔◌, ℕ, List, [], Option, Err};
ghost use Rattle.std.specs.Io.KnownBytes.{Consumes};
ghost use Rattle.savefile.specs.declared.header.Header.{Header};
ghost use Rattle.savefile.specs.declared.packet.Packet.{Packet};
ghost use Rattle.savefile.specs.Reader.{HasGiven};
ghost use Rattle.pcap_info.specs.Contents.{IsContents};
ghost use Rattle.pcap_info.specs.Survey.{ReadsTo, Surveys};

use crate::contents::Contents;
use savefile::{Fault, Header, Reader, Source};
use std::alloc::Global;

/// What a capture has.
#[derive(Debug, Drop)]
pub struct CaptureSurvey<R> {
    pub source: R,
    /// The header, if it was read.
    pub header: Option<Header>,
    /// Of all packets, or of those before the fault.
    pub contents: Contents,
    /// Why there is no further packet, if it is not the end of the capture.
    pub read: Result<(), Fault>,
}

/// Reads a capture to its end, or to its first fault, and counts what it has. It takes the memory
/// of a reader, however long the capture is.
///
/// `read` has the fault: that of the header, which then is none; with [`Fault::NoMemory`] the
/// source is as it was too; that of the first torn or bad record, by its place; [`Fault::Device`]
/// if and only if the source failed; or [`Fault::CountFull`] after 2^64 - 1 packets.
pub fn survey_capture<R: Source>(alloc: Global, from: R) -> CaptureSurvey<R>
    // What the capture has, and how its reading ended.
    ensures surveys { Surveys R.left from result }

    // The next bytes of the source are taken, and its fault is reported exactly if it failed.
    ensures gave { (given : List ℕ) × Consumes (R.left from) (R.left result.source) given }
    ensures source_broke { (result.read ≡ Err Fault.Device) ↔ (R.failures result.source ≢ R.failures from) }
{
    let mut reader = match Reader::open(alloc, from) {
        Ok(reader) => reader,
        Err((source, fault)) => {
            return CaptureSurvey {
                source,
                header: None,
                contents: Contents::NONE,
                read: Err(fault),
            };
        }
    };
    let mut contents = Contents::NONE;
    let read = count_all(&mut reader, &mut contents);
    CaptureSurvey {
        header: Some(reader.header()),
        source: reader.close(),
        contents,
        read,
    }
}

/// Counts all packets of a capture.
fn count_all<R: Source>(reader: &mut Reader<R>, contents: &mut Contents) -> Result<(), Fault>
    ensures counts { (from : Option (List ℕ)) (header : Header) → HasGiven R.left from header [] reader.old → IsContents [] contents.old →
        (packets : List Packet) × ReadsTo from (R.left reader.new.source) header packets result × IsContents packets contents.new }
    ensures header { reader.new.header ≡ reader.old.header }
    ensures taken { (bytes : List ℕ) × Consumes (R.left reader.old.source) (R.left reader.new.source) bytes }
    ensures source_broke { (result ≡ Err Fault.Device) ↔ (R.failures reader.new.source ≢ R.failures reader.old.source) }
{
    loop {
        match reader.advance() {
            Ok(true) => *contents = contents.with(&reader.packet()),
            Ok(false) => return Ok(()),
            Err(fault) => return Err(fault),
        }
    }
}
