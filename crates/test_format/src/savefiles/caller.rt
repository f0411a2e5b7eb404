//! The caller of `savefile`'s page, README.md.

use savefile::{Counted, Fault, Reader, Sink, Source, Writer};
use std::alloc::Global;

/// Copies the packets that had more than 1,000 bytes on the wire. The sink comes back.
fn copy_long<R: Source + Drop, W: Sink + Drop>(alloc: Global, from: R, to: W) -> Result<W, Fault> {
    let mut reader = match Reader::open(alloc, from) {
        Ok(reader) => reader,
        Err((_source, fault)) => return Err(fault),
    };
    let header = reader.header();
    let (mut writer, opened) = Writer::open(to, header.order, header.unit, header.snap);
    opened?;
    while reader.advance()? {
        let packet = reader.packet();
        if packet.len > 1_000 {
            writer.put(packet.sec, packet.nanos, packet.len, packet.bytes)?;
        }
    }
    let (sink, _sent) = writer.close();
    Ok(sink)
}

/// What is copied of a capture in memory.
fn copied(alloc: Global, capture: &[u8]) -> Result<Vec<u8>, Fault> {
    let memory = Counted::new(Vec::new(alloc));
    Ok(copy_long(alloc, capture, memory)?.into_inner())
}

/// A header, and records of packets that had 60 bytes on the wire, 1,500 and 60.
const SHORT_AND_LONG: [u8; 78] = [
    0xd4, 0xc3, 0xb2, 0xa1, 2, 0, 4, 0, 0, 0, 0, 0, 0, 0, 0, 0, 0, 0, 4, 0, 1, 0, 0, 0, //
    1, 0, 0, 0, 0, 0, 0, 0, 2, 0, 0, 0, 60, 0, 0, 0, 7, 8, //
    2, 0, 0, 0, 0, 0, 0, 0, 2, 0, 0, 0, 0xdc, 5, 0, 0, 7, 8, //
    1, 0, 0, 0, 0, 0, 0, 0, 2, 0, 0, 0, 60, 0, 0, 0, 7, 8,
];

/// The header, and the second record.
const LONG: [u8; 42] = [
    0xd4, 0xc3, 0xb2, 0xa1, 2, 0, 4, 0, 0, 0, 0, 0, 0, 0, 0, 0, 0, 0, 4, 0, 1, 0, 0, 0, //
    2, 0, 0, 0, 0, 0, 0, 0, 2, 0, 0, 0, 0xdc, 5, 0, 0, 7, 8,
];

#[test]
fn long_packets_are_copied(rt: HostRuntime) {
    let copied = copied(rt.alloc(), &SHORT_AND_LONG).expect(&rt, "it is copied");
    assert!(rt; copied.as_slice() == LONG.as_slice());
}
