//! Reading a whole savefile.

ghost use Rattle.std.specs.Prelude.{◌≡◌, ◌⊎◌, ℕ, List, [], All, Some, IfOk, IfErr};
ghost use Rattle.savefile.specs.Reader.{HasGiven};
ghost use Rattle.savefile.specs.Savefile.{Holds, IsWritable, RefusesHeader};

use crate::fault::Fault;
use crate::header::{Header, header_of};
use crate::packet::Packet;
use crate::reader::Reader;
use std::alloc::Global;

/// Reads a whole savefile: its header, its packets in order, and the fault that ended them, if any.
///
/// The outer error is [`Fault::ShortHeader`], [`Fault::NotSavefile`], [`Fault::Version`] or
/// [`Fault::LinkType`], if and only if that is the first check of the header to fail, or
/// [`Fault::NoMemory`]. A torn or bad record ends the packets; its fault, [`Fault::TornRecord`],
/// [`Fault::BadFraction`] or [`Fault::TooLong`], is returned with the packets before it.
pub fn read_all(alloc: Global, text: &[u8]) -> Result<(Header, Vec<Packet>, Option<Fault>), Fault>
    // What is read is what the savefile holds, and all that it holds.
    ensures holds { IfOk result (λ r. Holds text.now r.0.order r.0.unit r.0.snap r.1.items r.2) }
    // What is read may be written.
    ensures writable { IfOk result (λ r. All IsWritable r.1.items) }
    // When each error comes, and no other.
    ensures refused { (fault : Fault) → RefusesHeader text.now fault → result ≡ Err fault }
    ensures only { IfErr result (λ fault. RefusesHeader text.now fault ⊎ (fault ≡ Fault.NoMemory)) }
{
    // The header is refused for what it is, even if there is no memory.
    let _header = header_of(text)?;
    let mut reader = match Reader::open(alloc, text) {
        Ok(reader) => reader,
        Err((_, fault)) => return Err(fault),
    };
    let header = reader.header();
    let (packets, fault) = read_packets(alloc, &mut reader)?;
    Ok((header, packets, fault))
}

/// Reads the packets that are left, in order, and the fault that ended them, if any.
fn read_packets(
    alloc: Global,
    reader: &mut Reader<&[u8]>,
) -> Result<(Vec<Packet>, Option<Fault>), Fault>
    ensures holds { (text : List ℕ) (header : Header) → HasGiven (λ s. Some s.now) (Some text) header [] reader.old →
        IfOk result (λ r. Holds text header.order header.unit header.snap r.0.items r.1) }
    ensures writable { IfOk result (λ r. All IsWritable r.0.items) }
    ensures only { IfErr result (λ fault. fault ≡ Fault.NoMemory) }
{
    let mut packets = Vec::new(alloc);
    loop {
        match reader.advance() {
            Ok(true) => packets.push(reader.packet().to_packet(alloc)?)?,
            Ok(false) => return Ok((packets, None)),
            Err(fault) => return Ok((packets, Some(fault))),
        }
    }
}
