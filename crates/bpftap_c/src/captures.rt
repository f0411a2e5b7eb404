//! Captures in memory: read record by record, and written.

ghost use Rattle.std.specs.Prelude.{◌≡◌, ◌^◌, ◌<◌, ◌≤◌, length};
ghost use Rattle.savefile.specs.declared.record.TheConstants.{MAX_SNAP};
ghost use Rattle.savefile.specs.Savefile.{header_text};
ghost use Rattle.bpftap_c.specs.Captures.{order_code, order_of, unit_code, unit_of, header_in, unread, record_found, advanced, IsOpened, GivesNext, PutsRecord};
ghost use Rattle.bpftap_c.specs.Memory.{Puts};

use crate::memory::{put_both, put_bytes};
use crate::outcome::{BpftapResult, Failure, code_of, failed};
use savefile::{
    Fault, HEADER_LEN, Header, MAX_SNAP, Order, PacketRef, RECORD_HEADER_LEN, Unit, file_header,
    header_of, record_header, record_of,
};

/// How far a capture in memory was read, and what its header says.
#[repr(C)]
#[derive(Clone, Copy, Debug, PartialEq, Eq)]
pub struct BpftapReader {
    /// Where the next record begins.
    pub offset: usize,
    /// How many records come before it.
    pub place: u64,
    /// 0, or the number of the fault for which the header is refused.
    pub fault: u32,
    /// The byte order: 0 little-endian, any other number big-endian.
    pub order: u32,
    /// The unit of time: 0 microseconds, any other number nanoseconds.
    pub unit: u32,
    /// The snapshot length.
    pub snap: u32,
}

/// A record of a capture in memory.
#[repr(C)]
#[derive(Clone, Copy, Debug, PartialEq, Eq)]
pub struct BpftapRecord {
    /// Where the captured bytes begin.
    pub offset: usize,
    /// How many records come before it.
    pub place: u64,
    /// 0, or the number of a fault: that there is no further record, or why it cannot be read, or
    /// why the header was refused.
    pub fault: u32,
    pub seconds: u32,
    pub nanos: u32,
    /// How many bytes were captured.
    pub captured: u32,
    /// How many bytes the packet had on the wire.
    pub wire: u32,
}

/// There is no further record.
const END: u32 = 4;

fn order_code(order: Order) -> u32
    ensures { result ≡ order_code order }
{
    match order {
        Order::Little => 0,
        Order::Big => 1,
    }
}

fn order_of(code: u32) -> Order
    ensures { result ≡ order_of code }
{
    if code == 0 { Order::Little } else { Order::Big }
}

fn unit_code(unit: Unit) -> u32
    ensures { result ≡ unit_code unit }
{
    match unit {
        Unit::Micro => 0,
        Unit::Nano => 1,
    }
}

fn unit_of(code: u32) -> Unit
    ensures { result ≡ unit_of code }
{
    if code == 0 { Unit::Micro } else { Unit::Nano }
}

fn header_in(reader: &BpftapReader) -> Header
    ensures { result ≡ header_in reader.now }
{
    Header {
        order: order_of(reader.order),
        unit: unit_of(reader.unit),
        snap: reader.snap,
    }
}

/// Reads the header of a capture that begins a memory.
#[unsafe(no_mangle)]
pub extern "C" fn bpftap_open(memory: &[u8]) -> BpftapReader
    ensures { IsOpened memory.now result }
{
    match header_of(memory) {
        Ok(header) => BpftapReader {
            offset: HEADER_LEN,
            place: 0,
            fault: 0,
            order: order_code(header.order),
            unit: unit_code(header.unit),
            snap: header.snap,
        },
        Err(fault) => BpftapReader {
            offset: 0,
            place: 0,
            fault: code_of(Failure::Capture(fault)),
            order: 0,
            unit: 0,
            snap: 0,
        },
    }
}

/// That no record was read, for this fault.
fn unread(reader: &BpftapReader, fault: u32) -> BpftapRecord
    ensures { result ≡ unread reader.now fault }
{
    BpftapRecord {
        offset: reader.offset,
        place: reader.place,
        fault,
        seconds: 0,
        nanos: 0,
        captured: 0,
        wire: 0,
    }
}

/// The record of a packet, which begins where the next one was to begin.
fn record_found(reader: &BpftapReader, packet: &PacketRef<'_>) -> BpftapRecord
    requires offset { reader.now.offset < 2 ^ 63 }
    requires size { length packet.now.bytes ≤ MAX_SNAP }
    ensures { result ≡ record_found reader.now packet.now }
{
    BpftapRecord {
        offset: reader.offset + RECORD_HEADER_LEN,
        place: reader.place,
        fault: 0,
        seconds: packet.sec,
        nanos: packet.nanos,
        captured: packet.bytes.len() as u32,
        wire: packet.len,
    }
}

/// Reads the next record, and moves the reader past it. A reader whose next record can't be read
/// stays where it is. If its header was refused, that fault is returned again.
#[unsafe(no_mangle)]
pub extern "C" fn bpftap_next(memory: &[u8], reader: &mut BpftapReader) -> BpftapRecord
    ensures { GivesNext memory.now reader.old reader.new result }
{
    if reader.fault != 0 {
        return unread(reader, reader.fault);
    }
    if reader.place == u64::MAX {
        return unread(reader, code_of(Failure::Capture(Fault::CountFull)));
    }
    if reader.offset > memory.len() {
        return unread(reader, END);
    }
    match record_of(header_in(reader), reader.place, &memory[reader.offset..]) {
        Ok(Some(packet)) => {
            let found = record_found(reader, &packet);
            reader.offset += RECORD_HEADER_LEN + packet.bytes.len();
            reader.place += 1;
            found
        }
        Ok(None) => unread(reader, END),
        Err(fault) => unread(reader, code_of(Failure::Capture(fault))),
    }
}

/// Writes the header of a capture, in this byte order and unit of time.
#[unsafe(no_mangle)]
pub extern "C" fn bpftap_put_header(order: u32, unit: u32, snap: u32, to: &mut [u8]) -> BpftapResult
    ensures { Puts (header_text (order_of order) (unit_of unit) snap) to.old to.new result }
{
    put_bytes(&file_header(order_of(order), unit_of(unit), snap), to)
}

/// Writes the record of a packet: the time and the wire length of `packet`, and these captured
/// bytes.
#[unsafe(no_mangle)]
pub extern "C" fn bpftap_put(
    order: u32,
    unit: u32,
    packet: &BpftapRecord,
    bytes: &[u8],
    to: &mut [u8],
) -> BpftapResult
    ensures { PutsRecord (order_of order) (unit_of unit) packet.now bytes.now to.old to.new result }
{
    if bytes.len() > MAX_SNAP as usize {
        return failed(Failure::Capture(Fault::TooLong(packet.place)));
    }
    if packet.nanos >= 1_000_000_000 {
        return failed(Failure::Capture(Fault::BadFraction(packet.place)));
    }
    let header = record_header(
        order_of(order),
        unit_of(unit),
        packet.seconds,
        packet.nanos,
        bytes.len() as u32,
        packet.wire,
    );
    put_both(&header, bytes, to)
}
