//! Buffers of records.

ghost use Rattle.std.specs.Prelude.{◌≡◌, ◌↔◌, false, ◌+◌, ◌^◌, ◌<◌, ◌≤◌, [], ◌++◌, length, All, vec_len, vec_capacity, IfOk, IfErr, OnOk, IsTrue};
ghost use Rattle.std.specs.Bool.{OnTrue};
ghost use Rattle.savefile.specs.declared.record.TheConstants.{MAX_SNAP};
ghost use Rattle.savefile.specs.Filling.{Fills};
ghost use Rattle.byteorder.specs.Endian.{little_bytes};
ghost use Rattle.listener.specs.Buffers.{filled, with_message, FitsSavefileRecord, RefusesBuffer};
ghost use Rattle.listener.specs.Messages.{size, room, cut_to, arrival};
ghost use Rattle.listener.specs.RecordBytes.{fields_text, records_text};

use crate::fault::OpenFault;
use crate::records::Records;
use byteorder::{ByteOrder, LittleEndian};
use savefile::{Packet, PacketRef};
use std::alloc::Global;
use std::marker::Model;

/// The bytes of a record's fields.
const FIELDS_LEN: usize = 32;

/// Zero bytes, as many as a padding has at most.
const ZEROS: [u8; 8] = [0; 8];

/// The fewest bytes that a buffer may have: room for the record of one byte.
pub const MIN_CAPACITY: usize = 40;

/// The most bytes that a buffer may have.
pub const MAX_CAPACITY: usize = 1_048_576;

// Clauses and definitions name the constants: they are these numbers.
const _: () = prove!(MIN_CAPACITY == 40);

const _: () = prove!(MAX_CAPACITY == 1_048_576);

/// The size in bytes of a record with this many bytes of data.
pub fn size(kept: u32) -> usize
    ensures { result ≡ size kept }
{
    FIELDS_LEN + (kept as usize + 7) / 8 * 8
}

/// Writes a number as four bytes at an offset of a text.
#[inline(always)]
fn fill_u32(text: &mut [u8], at: usize, n: u32)
    requires { at + 4 ≤ length text.old }
    ensures { Fills at text.old (little_bytes 4 n) text.new }
{
    LittleEndian::write_u32(&mut text[at..], n);
}

/// Writes a number as eight bytes at an offset of a text.
#[inline(always)]
fn fill_u64(text: &mut [u8], at: usize, n: u64)
    requires { at + 8 ≤ length text.old }
    ensures { Fills at text.old (little_bytes 8 n) text.new }
{
    LittleEndian::write_u64(&mut text[at..], n);
}

/// The fields of a record: its first 32 bytes.
#[inline(always)]
pub fn fields(sec: u32, nanos: u32, kept: u32, len: u32, place: u64, capture: u32) -> [u8; 32]
    ensures text { result ≡ fields_text sec nanos kept len place capture }
    ensures small { (sec < 2 ^ 32) × (nanos < 2 ^ 32) × (len < 2 ^ 32) × (place < 2 ^ 64) × (capture < 2 ^ 32) }
{
    let mut text = [0; FIELDS_LEN];
    fill_u32(&mut text, 0, sec);
    fill_u32(&mut text, 4, nanos);
    fill_u32(&mut text, 8, kept);
    fill_u32(&mut text, 12, len);
    fill_u64(&mut text, 16, place);
    fill_u32(&mut text, 24, capture);
    fill_u32(&mut text, 28, 0);
    text
}

/// Appends bytes for which there is room.
#[inline(always)]
fn append(to: &mut Vec<u8>, more: &[u8])
    requires { vec_len to.old + length more.now ≤ vec_capacity to.old }
    ensures items { to.new.items ≡ to.old.items ++ more.now }
    ensures len { vec_len to.new ≡ vec_len to.old + length more.now }
    ensures capacity { vec_capacity to.old ≤ vec_capacity to.new }
{
    to.extend_from_slice(more).unwrap();
}

/// A buffer of records: the messages that a listener stores or holds, as bytes, one record after
/// the other.
///
/// Contracts see its capacity and the list of its messages. Only [`Buffer::new`] takes memory.
#[derive(Drop)]
pub struct Buffer {
    bytes: Vec<u8>,
    capacity: usize,
    count: usize,
}

impl Model for Buffer {
    ghost use Rattle.listener.specs.Buffers.{Filled, filled};
    ghost use Rattle.listener.specs.Decoded.{messages_in, IsBuffer};

    ghost Value = { Filled };

    ghost view = { λ b. filled b.capacity (messages_in b.bytes.items) };

    ghost invariant = { λ b. IsBuffer b.bytes b.capacity b.count };
}

impl Buffer {
    /// An empty buffer with room for this many bytes of records, 40 to 1,048,576.
    ///
    /// It returns [`OpenFault::BadCapacity`] if and only if the capacity is out of that range.
    pub fn new(alloc: Global, capacity: usize) -> Result<Buffer, OpenFault>
        ensures ok { IfOk result (λ buffer. buffer ≡ filled capacity []) }
        ensures in_range { OnOk result ((MIN_CAPACITY ≤ capacity) × (capacity ≤ MAX_CAPACITY)) }
        ensures only { IfErr result (RefusesBuffer capacity) }
    {
        if capacity < MIN_CAPACITY || capacity > MAX_CAPACITY {
            return Err(OpenFault::BadCapacity);
        }
        Ok(Buffer {
            bytes: Vec::with_capacity(alloc, capacity)?,
            capacity,
            count: 0,
        })
    }

    /// How many bytes of records it has room for.
    pub fn capacity(&self) -> usize
        ensures { result ≡ self.now.capacity }
    {
        self.capacity
    }

    /// How many messages it has, which are not counted anew.
    pub fn len(&self) -> usize
        ensures messages { result ≡ length self.now.messages }
        ensures bound { result ≤ 32768 }
    {
        self.count
    }

    /// Whether it has no message.
    pub fn is_empty(&self) -> bool
        ensures { IsTrue result ↔ (self.now.messages ≡ []) }
    {
        self.bytes.is_empty()
    }

    /// Forgets its messages, and keeps its memory.
    pub fn clear(&mut self)
        ensures { self.new ≡ filled self.old.capacity [] }
    {
        self.bytes.clear();
        self.count = 0;
    }

    /// Its messages, oldest first. Nothing is copied.
    pub fn records(&self) -> Records<'_>
        ensures messages { result ≡ self.now.messages }
        ensures writable { All FitsSavefileRecord self.now.messages }
    {
        Records::of(self.bytes.as_slice())
    }

    /// The bytes of its records. Each has its fields as little-endian numbers (seconds,
    /// nanoseconds, kept length and original length of 4 bytes, place of 8, capture of 4, and 4
    /// zero bytes), its data, and zero bytes up to a multiple of 8.
    pub fn bytes(&self) -> &[u8]
        ensures { result.now ≡ records_text self.now.messages }
    {
        self.bytes.as_slice()
    }

    /// Whether there is room for a message with this many bytes of data.
    pub fn fits(&self, kept: u32) -> bool
        ensures { IsTrue result ↔ (room self.now.messages + size kept ≤ self.now.capacity) }
    {
        size(kept) <= self.capacity - self.bytes.len()
    }

    /// Appends a message with the packet's first bytes, if there is room for it; it may just fill
    /// the buffer. Else it changes nothing and returns false.
    ///
    /// `kept` is at most the packet's captured length, and at most 262,144.
    pub fn put(&mut self, capture: u32, place: u64, packet: &Packet, kept: u32) -> bool
        requires captured { kept ≤ length packet.now.bytes }
        requires writable { kept ≤ MAX_SNAP }
        ensures fits { IsTrue result ↔ (room self.old.messages + size kept ≤ self.old.capacity) }
        ensures stored { OnTrue result (self.new ≡ with_message self.old (cut_to kept (arrival capture place packet.now))) }
        ensures unchanged { result ≡ false → self.new ≡ self.old }
    {
        self.put_ref(capture, place, &packet.as_ref(), kept)
    }

    /// Does what [`Buffer::put`] does, with a packet whose bytes lie elsewhere.
    pub fn put_ref(&mut self, capture: u32, place: u64, packet: &PacketRef<'_>, kept: u32) -> bool
        requires captured { kept ≤ length packet.now.bytes }
        requires writable { kept ≤ MAX_SNAP }
        ensures fits { IsTrue result ↔ (room self.old.messages + size kept ≤ self.old.capacity) }
        ensures stored { OnTrue result (self.new ≡ with_message self.old (cut_to kept (arrival capture place packet.now))) }
        ensures unchanged { result ≡ false → self.new ≡ self.old }
    {
        let size = size(kept);
        if size > self.capacity - self.bytes.len() {
            return false;
        }
        let header = fields(packet.sec, packet.nanos, kept, packet.len, place, capture);
        let data = &packet.bytes[..kept as usize];
        append(&mut self.bytes, &header);
        append(&mut self.bytes, data);
        append(&mut self.bytes, &ZEROS[..size - FIELDS_LEN - data.len()]);
        self.count += 1;
        true
    }
}
