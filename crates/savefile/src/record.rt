//! The header of a record.

ghost use Rattle.std.specs.Prelude.{◌≡◌, ◌+◌, ◌<◌, ◌≤◌, ◌⊎◌, ◌++◌, List, [], length, drop, Some, IfErr, IfNone, IfOk, IfSome, OnOk};
ghost use Rattle.savefile.specs.Savefile.{first_fault, number_in, IsRecord, IsWritable};
ghost use Rattle.savefile.specs.RecordHeader.{IsRecordHeader};
ghost use Rattle.savefile.specs.Snapshot.{effective_snaplen};

use crate::fault::Fault;
use crate::header::{Header, Order, Unit};
use crate::packet::PacketRef;
use byteorder::{BigEndian, ByteOrder, LittleEndian};

/// What the header of a record says.
#[derive(Clone, Copy, Debug)]
pub(crate) struct RecordHeader {
    pub(crate) sec: u32,
    pub(crate) nanos: u32,
    pub(crate) captured: u32,
    pub(crate) len: u32,
}

/// The bytes of a record's header.
pub const RECORD_HEADER_LEN: usize = 16;

const _: () = prove!(RECORD_HEADER_LEN == 16);

/// The most bytes that are captured of a packet, so that a record may have, read or written:
/// libpcap's `MAXIMUM_SNAPLEN`.
pub const MAX_SNAP: u32 = 262_144;

// Clauses and definitions name the constant: it is this number.
const _: () = prove!(MAX_SNAP == 262_144);

/// The snapshot length that is meant by `snap`: 0 stands for the largest, [`MAX_SNAP`], as it does
/// for tcpdump.
pub fn effective_snaplen(snap: u32) -> u32
    ensures { result ≡ effective_snaplen snap }
{
    if snap == 0 { MAX_SNAP } else { snap }
}

impl RecordHeader {
    /// The header of no packet.
    pub(crate) const EMPTY: RecordHeader = RecordHeader {
        sec: 0,
        nanos: 0,
        captured: 0,
        len: 0,
    };

    /// Reads the header of the record that a text begins with, or returns its first fault. The
    /// place is that of the record.
    #[inline]
    pub(crate) fn read(
        &mut self,
        order: Order,
        unit: Unit,
        place: u64,
        text: &[u8],
    ) -> Result<(), Fault>
        requires { 0 < length text.now }
        ensures ok { OnOk result (IsRecordHeader order unit text.now self.new) }
        // Whatever follows the text; if it ends inside the header, nothing does.
        ensures err { IfErr result (λ fault. (more : List _) → (16 ≤ length text.now) ⊎ (more ≡ []) →
            first_fault order unit place (text.now ++ more) ≡ Some fault) }
    {
        match order {
            Order::Little => self.read_in::<LittleEndian>(unit, place, text),
            Order::Big => self.read_in::<BigEndian>(unit, place, text),
        }
    }

    #[inline]
    fn read_in<B: ByteOrder>(&mut self, unit: Unit, place: u64, text: &[u8]) -> Result<(), Fault>
        requires { 0 < length text.now }
        ensures ok { (order : Order) → B.number_of ≡ number_in order → OnOk result (IsRecordHeader order unit text.now self.new) }
        ensures err { (order : Order) → B.number_of ≡ number_in order →
            IfErr result (λ fault. (more : List _) → (16 ≤ length text.now) ⊎ (more ≡ []) →
            first_fault order unit place (text.now ++ more) ≡ Some fault) }
    {
        if text.len() < RECORD_HEADER_LEN {
            return Err(Fault::TornRecord(place));
        }
        let fraction = B::read_u32(&text[4..]);
        if fraction >= unit.per_second() {
            return Err(Fault::BadFraction(place));
        }
        let captured = B::read_u32(&text[8..]);
        if captured > MAX_SNAP {
            return Err(Fault::TooLong(place));
        }
        self.sec = B::read_u32(text);
        self.nanos = fraction * unit.nanos();
        self.captured = captured;
        self.len = B::read_u32(&text[12..]);
        Ok(())
    }
}

/// The packet of the record that a text begins with, whose bytes it lends; `None` if and only if
/// the text is empty. The record takes [`RECORD_HEADER_LEN`] bytes and then those that were
/// captured.
///
/// `place` counts the record in its savefile, from 0. The error is [`Fault::TornRecord`],
/// [`Fault::BadFraction`] or [`Fault::TooLong`] with this place, as
/// [`Reader::advance`](crate::Reader::advance) names it. No memory is taken.
#[inline]
pub fn record_of(header: Header, place: u64, text: &[u8]) -> Result<Option<PacketRef<'_>>, Fault>
    ensures packet { IfOk result (λ next. IfSome next (λ p.
        IsRecord header.order header.unit text.now p (drop (16 + length p.bytes) text.now))) }
    ensures writable { IfOk result (λ next. IfSome next IsWritable) }
    ensures end { IfOk result (λ next. IfNone next (text.now ≡ [])) }
    ensures fault { IfErr result (λ fault. first_fault header.order header.unit place text.now ≡ Some fault) }
{
    if text.is_empty() {
        return Ok(None);
    }
    let mut head = RecordHeader::EMPTY;
    if let Err(fault) = head.read(header.order, header.unit, place, text) {
        return Err(fault);
    }
    let size = RECORD_HEADER_LEN + head.captured as usize;
    if text.len() < size {
        return Err(Fault::TornRecord(place));
    }
    Ok(Some(PacketRef {
        sec: head.sec,
        nanos: head.nanos,
        len: head.len,
        bytes: &text[RECORD_HEADER_LEN..size],
    }))
}
