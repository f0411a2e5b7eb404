//! The cuts of parts, written as one.

ghost use Rattle.std.specs.Prelude.{◌≡◌, ◌<◌, true, All, IfErr, IfOk, OnOk, length};
ghost use Rattle.pcap_parts.specs.Writing.{HasHeader, HaveOneHeader, IsFileFault, IsHeaderFault, IsWriteFault, IsWritten, OneOf, TookBodies, TookBody};

use crate::copy::{CopyFault, Nowhere, copy_after_header, copy_bytes, write_text};
use crate::files::PartFiles;
use crate::part::PartCut;
use savefile::{Broken, Counted, HEADER_LEN, Sink};
use std::alloc::Global;

/// How many bytes are copied at once.
const ROOM: usize = 1 << 18;

const _: () = prove!(ROOM == 262144);

/// Why the cuts of parts are not written as one.
#[derive(Debug, Drop)]
pub enum WriteFault<'p, E> {
    /// This file has another header than that of the first part.
    OtherHeader(&'p str),
    /// This file has another size than its line says.
    OtherSize(&'p str),
    /// This file could not be opened or read.
    Unread(&'p str, E),
    /// The sink failed.
    Output,
    NoMemory,
}

/// The header of a part's file.
fn header_of<'p, F: PartFiles>(
    alloc: Global,
    files: &F,
    part: &PartCut<'p>,
    room: &mut [u8],
) -> Result<Vec<u8>, WriteFault<'p, F::Failure>>
    requires room { 0 < length room.now }
    ensures room { length room.new ≡ length room.old }
    ensures header { F.known ≡ true → IfOk result (λ header. HasHeader (F.text files.now) header.items part.now) }
    ensures fault { F.known ≡ true → IfErr result (λ fault. IsFileFault (F.text files.now) fault part.now) }
{
    let mut file = match files.open(part.file) {
        Ok(file) => file,
        Err(failure) => return Err(WriteFault::Unread(part.file, failure)),
    };
    let mut header = Counted::new(Vec::new(alloc));
    match copy_bytes(&mut file, HEADER_LEN as u64, room, &mut header) {
        Ok(()) => Ok(header.into_inner()),
        Err(CopyFault::Input) => Err(WriteFault::Unread(part.file, files.failure(file))),
        Err(CopyFault::Size) => Err(WriteFault::OtherSize(part.file)),
        Err(CopyFault::Output) => Err(WriteFault::NoMemory),
    }
}

/// Refuses a file whose header is another one than this.
fn check_headers<'p, F: PartFiles>(
    alloc: Global,
    files: &F,
    parts: &[PartCut<'p>],
    header: &[u8],
    room: &mut [u8],
) -> Result<(), WriteFault<'p, F::Failure>>
    requires room { 0 < length room.now }
    ensures room { length room.new ≡ length room.old }
    ensures same { F.known ≡ true → OnOk result (All (HasHeader (F.text files.now) header.now) parts.now) }
    ensures fault { F.known ≡ true → IfErr result (IsHeaderFault (F.text files.now) parts.now header.now) }
{
    for other in parts {
        let found = match header_of(alloc, files, other, room) {
            Ok(found) => found,
            Err(fault) => return Err(fault),
        };
        if found.as_slice() != header {
            return Err(WriteFault::OtherHeader(other.file));
        }
    }
    Ok(())
}

/// Writes what the file of a part has after its header.
fn append_part<'p, F: PartFiles, W: Sink>(
    files: &F,
    part: &PartCut<'p>,
    room: &mut [u8],
    to: &mut W,
) -> Result<(), WriteFault<'p, F::Failure>>
    requires room { 0 < length room.now }
    ensures room { length room.new ≡ length room.old }
    ensures took { F.known ≡ true → OnOk result (TookBody (F.text files.now) (W.taken to.old) (W.taken to.new) part.now) }
    ensures fault { F.known ≡ true → IfErr result (λ fault. IsFileFault (F.text files.now) fault part.now) }
    ensures named { W.name to.new ≡ W.name to.old }
{
    let mut file = match files.open(part.file) {
        Ok(file) => file,
        Err(failure) => return Err(WriteFault::Unread(part.file, failure)),
    };
    match copy_after_header(&mut file, part.sent, room, to) {
        Ok(()) => Ok(()),
        Err(CopyFault::Input) => Err(WriteFault::Unread(part.file, files.failure(file))),
        Err(CopyFault::Size) => Err(WriteFault::OtherSize(part.file)),
        Err(CopyFault::Output) => Err(WriteFault::Output),
    }
}

/// Writes what the files of parts have after their headers, one after the other.
fn append_parts<'p, F: PartFiles, W: Sink>(
    files: &F,
    parts: &[PartCut<'p>],
    room: &mut [u8],
    to: &mut W,
) -> Result<(), WriteFault<'p, F::Failure>>
    requires room { 0 < length room.now }
    ensures took { F.known ≡ true → OnOk result (TookBodies (F.text files.now) (W.taken to.old) (W.taken to.new) parts.now) }
    ensures fault { F.known ≡ true → IfErr result (λ fault. OneOf (IsFileFault (F.text files.now) fault) parts.now) }
    ensures named { W.name to.new ≡ W.name to.old }
{
    for part in parts {
        if let Err(fault) = append_part(files, part, room, to) {
            return Err(fault);
        }
    }
    Ok(())
}

/// Writes the cuts of parts as one: the header that all have, and then the packets of each part, in
/// this order. The sizes are those that the lines of the parts say. Nothing is written before the
/// headers of all files were compared.
pub fn write_parts<'p, F: PartFiles, W: Sink>(
    alloc: Global,
    files: &F,
    parts: &[PartCut<'p>],
    to: &mut W,
) -> Result<(), WriteFault<'p, F::Failure>>
    requires some { 0 < length parts.now }
    ensures written { F.known ≡ true → OnOk result (IsWritten (F.text files.now) (W.taken to.old) (W.taken to.new) parts.now) }
    // If not all files have one header the sink stays as it was.
    ensures untouched { F.known ≡ true → (HaveOneHeader (F.text files.now) parts.now → ⊥) → to.new ≡ to.old }
    ensures fault { F.known ≡ true → IfErr result (IsWriteFault (F.text files.now) parts.now) }
    ensures named { W.name to.new ≡ W.name to.old }
{
    let Ok(mut room) = vec![in alloc; 0; ROOM] else {
        return Err(WriteFault::NoMemory);
    };
    let header = match header_of(alloc, files, &parts[0], room.as_mut_slice()) {
        Ok(header) => header,
        Err(fault) => return Err(fault),
    };
    let room = room.as_mut_slice();
    if let Err(fault) = check_headers(alloc, files, parts, header.as_slice(), room) {
        return Err(fault);
    }
    match write_text(header.as_slice(), to) {
        Ok(()) => append_parts(files, parts, room, to),
        Err(Broken) => Err(WriteFault::Output),
    }
}
