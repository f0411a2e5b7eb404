//! Writing a savefile, packet by packet.

ghost use Rattle.std.specs.Prelude.{◌≡◌, ◌≢◌, ℕ, List, [], ◌∷◌, ◌++◌, Option, true, false, ◌+◌, ◌/◌, ◌^◌, ◌<◌, ◌≤◌, ◌↔◌, ◌⊎◌, length, IfErr, OnOk, OnErr};
ghost use Rattle.std.specs.Io.KnownBytes.{Keeps};
ghost use Rattle.savefile.specs.declared.record.TheConstants.{MAX_SNAP};
ghost use Rattle.savefile.specs.declared.packet.Packet.{Packet};
ghost use Rattle.savefile.specs.Device.{CountsFailure};
ghost use Rattle.savefile.specs.Filling.{Fills};
ghost use Rattle.savefile.specs.Savefile.{bytes_in, header_text, nanos_in, packet, record_header_text};
ghost use Rattle.savefile.specs.Sending.{Sends, SendsPart};
ghost use Rattle.savefile.specs.Writer.{HasWritten, HasWrittenPart};

use crate::device::{Broken, GatheringSink, Sink};
use crate::fault::Fault;
use crate::header::{ETHERNET, HEADER_LEN, MAJOR, MINOR, Order, Unit};
use crate::record::RECORD_HEADER_LEN;
use byteorder::{BigEndian, ByteOrder, LittleEndian};
use std::marker::Model;

/// Writes a number as two bytes at an offset of a text.
fn fill_u16<B: ByteOrder>(text: &mut [u8], at: usize, n: u16)
    requires { at + 2 ≤ length text.old }
    ensures { Fills at text.old (B.bytes_of 2 n) text.new }
{
    B::write_u16(&mut text[at..], n);
}

/// Writes a number as four bytes at an offset of a text.
fn fill_u32<B: ByteOrder>(text: &mut [u8], at: usize, n: u32)
    requires { at + 4 ≤ length text.old }
    ensures { Fills at text.old (B.bytes_of 4 n) text.new }
{
    B::write_u32(&mut text[at..], n);
}

/// The header of a savefile, with zeros in both reserved fields.
fn file_header_in<B: ByteOrder>(unit: Unit, snap: u32) -> [u8; HEADER_LEN]
    ensures { (order : Order) → B.bytes_of ≡ bytes_in order → result ≡ header_text order unit snap }
{
    let mut text = [0; HEADER_LEN];
    fill_u32::<B>(&mut text, 0, unit.magic());
    fill_u16::<B>(&mut text, 4, MAJOR);
    fill_u16::<B>(&mut text, 6, MINOR);
    fill_u32::<B>(&mut text, 8, 0);
    fill_u32::<B>(&mut text, 12, 0);
    fill_u32::<B>(&mut text, 16, snap);
    fill_u32::<B>(&mut text, 20, ETHERNET);
    text
}

/// The header of a savefile as [`Writer::open`] writes it, for callers that gather a savefile in
/// their own memory.
pub fn file_header(order: Order, unit: Unit, snap: u32) -> [u8; HEADER_LEN]
    ensures { result ≡ header_text order unit snap }
{
    match order {
        Order::Little => file_header_in::<LittleEndian>(unit, snap),
        Order::Big => file_header_in::<BigEndian>(unit, snap),
    }
}

fn record_header_in<B: ByteOrder>(
    sec: u32,
    fraction: u32,
    captured: u32,
    len: u32,
) -> [u8; RECORD_HEADER_LEN]
    ensures { (order : Order) → B.bytes_of ≡ bytes_in order → result ≡ record_header_text order sec fraction captured len }
{
    let mut text = [0; RECORD_HEADER_LEN];
    fill_u32::<B>(&mut text, 0, sec);
    fill_u32::<B>(&mut text, 4, fraction);
    fill_u32::<B>(&mut text, 8, captured);
    fill_u32::<B>(&mut text, 12, len);
    text
}

/// The header of a record as [`Writer::put`] writes it before the `captured` bytes of a packet.
/// With microseconds the nanoseconds are divided by 1,000 and the rest is dropped.
#[inline]
pub fn record_header(
    order: Order,
    unit: Unit,
    sec: u32,
    nanos: u32,
    captured: u32,
    len: u32,
) -> [u8; RECORD_HEADER_LEN]
    ensures { result ≡ record_header_text order sec (nanos / nanos_in unit) captured len }
{
    let fraction = nanos / unit.nanos();
    match order {
        Order::Little => record_header_in::<LittleEndian>(sec, fraction, captured, len),
        Order::Big => record_header_in::<BigEndian>(sec, fraction, captured, len),
    }
}

/// Writes a savefile into a sink.
///
/// Until a device fault the sink took the written text of the packets whose `put` returned `Ok`,
/// and no more; [`Writer::sent`] is its length. After a device fault it took exactly `sent` bytes:
/// the packets whose `put` returned `Ok`, whole, and a prefix, not the whole, of the one whose
/// `put` returned [`Fault::Device`].
///
/// A packet is sent in two writes, its record's header and then its bytes (in one if it has none,
/// and in more if the sink takes fewer than it is given); no clause says so. If each write is a
/// system call, give the writer a sink that gathers them.
///
/// Contracts see its sink, the byte order and the unit of time that it writes, how many bytes it
/// has sent, and whether the device failed it.
#[derive(Debug, Drop)]
pub struct Writer<W> {
    sink: W,
    order: Order,
    unit: Unit,
    sent: u64,
    failed: bool,
}

impl<W> Model for Writer<W> {
    ghost use Rattle.savefile.specs.Writer.{Writing, writing};

    ghost Value = { Writing W };

    ghost view = { λ w. writing w.sink w.order w.unit w.sent w.failed };
}

impl<W: Sink> Writer<W> {
    /// Begins a savefile: writes its header. [`Fault::Device`] comes if and only if the sink failed
    /// in this call. Then the sink took exactly [`Writer::sent`] bytes, a prefix of the header and
    /// not the whole, and the writer has failed.
    pub fn open(sink: W, order: Order, unit: Unit, snap: u32) -> (Writer<W>, Result<(), Fault>)
        ensures ok { OnOk result.1 (HasWritten W.taken (W.taken sink) order unit snap [] result.0) }
        ensures err { OnErr result.1 (HasWrittenPart W.taken (W.taken sink) order unit snap [] result.0) }
        ensures device { (result.1 ≡ Err Fault.Device) ↔ (W.failures result.0.sink ≢ W.failures sink) }
        ensures only { IfErr result.1 (λ fault. fault ≡ Fault.Device) }
        ensures named { W.name result.0.sink ≡ W.name sink }
    {
        let mut writer = Writer {
            sink,
            order,
            unit,
            sent: 0,
            failed: false,
        };
        let answer = writer.send(&file_header(order, unit, snap));
        (writer, answer)
    }

    /// Sends bytes. Mostly the sink takes them all at once.
    #[inline(always)]
    fn send(&mut self, bytes: &[u8]) -> Result<(), Fault>
        requires { self.old.sent + length bytes.now < 2 ^ 64 }
        ensures ok { OnOk result (Sends W.taken self.old self.new bytes.now × (self.new.failed ≡ self.old.failed)) }
        ensures err { OnErr result (SendsPart W.taken self.old self.new bytes.now) }
        ensures only { IfErr result (λ fault. fault ≡ Fault.Device) }
        ensures failures { CountsFailure (W.failures self.old.sink) (W.failures self.new.sink) result }
        ensures named { W.name self.new.sink ≡ W.name self.old.sink }
    {
        if bytes.is_empty() {
            return Ok(());
        }
        match self.sink.write(bytes) {
            Ok(n) => {
                self.sent += n as u64;
                if n == bytes.len() {
                    return Ok(());
                }
                self.send_rest(&bytes[n..])
            }
            Err(Broken) => {
                self.failed = true;
                Err(Fault::Device)
            }
        }
    }

    /// Sends bytes, as many at a time as the sink takes.
    #[cold]
    #[inline(never)]
    fn send_rest(&mut self, bytes: &[u8]) -> Result<(), Fault>
        requires { self.old.sent + length bytes.now < 2 ^ 64 }
        ensures ok { OnOk result (Sends W.taken self.old self.new bytes.now × (self.new.failed ≡ self.old.failed)) }
        ensures err { OnErr result (SendsPart W.taken self.old self.new bytes.now) }
        ensures only { IfErr result (λ fault. fault ≡ Fault.Device) }
        ensures failures { CountsFailure (W.failures self.old.sink) (W.failures self.new.sink) result }
        ensures named { W.name self.new.sink ≡ W.name self.old.sink }
    {
        let mut rest = bytes;
        while !rest.is_empty() {
            match self.sink.write(rest) {
                Ok(taken) => {
                    self.sent += taken as u64;
                    rest = &rest[taken..];
                }
                Err(Broken) => {
                    self.failed = true;
                    return Err(Fault::Device);
                }
            }
        }
        Ok(())
    }

    /// Sends a header, and then bytes.
    #[inline(always)]
    fn send_both(&mut self, header: &[u8], bytes: &[u8]) -> Result<(), Fault>
        requires { self.old.sent + length header.now + length bytes.now < 2 ^ 64 }
        ensures ok { OnOk result (Sends W.taken self.old self.new (header.now ++ bytes.now) × (self.new.failed ≡ self.old.failed)) }
        ensures err { OnErr result (SendsPart W.taken self.old self.new (header.now ++ bytes.now)) }
        ensures only { IfErr result (λ fault. fault ≡ Fault.Device) }
        ensures failures { CountsFailure (W.failures self.old.sink) (W.failures self.new.sink) result }
        ensures named { W.name self.new.sink ≡ W.name self.old.sink }
    {
        self.send(header)?;
        self.send(bytes)
    }

    /// Writes one packet: its time, its original length, and the bytes that were captured of it.
    ///
    /// `nanos` is below 1,000,000,000, and `bytes` has at most [`MAX_SNAP`](crate::MAX_SNAP) bytes.
    /// With microseconds the nanoseconds are divided by 1,000 and the rest is dropped.
    /// [`Fault::Device`] comes if and only if the sink failed in this call; from then on the writer
    /// has failed, and every `put` returns [`Fault::Failed`] and does nothing. [`Fault::CountFull`]
    /// comes if and only if the record would take [`Writer::sent`] past 2^64 - 1; it does nothing,
    /// and the writer can be used on. No memory is taken.
    #[inline(always)]
    pub fn put(&mut self, sec: u32, nanos: u32, len: u32, bytes: &[u8]) -> Result<(), Fault>
        requires nanos { nanos < 1000000000 }
        requires size { length bytes.now ≤ MAX_SNAP }

        // After Ok, what was written before and now this packet; after Device, a prefix of that,
        // and not the whole.
        ensures ok { (start : Option (List ℕ)) (order : Order) (unit : Unit) (snap : ℕ) (packets : List Packet) →
            HasWritten W.taken start order unit snap packets self.old →
            OnOk result (HasWritten W.taken start order unit snap (packets ++ packet sec nanos len bytes.now ∷ []) self.new) }
        ensures broke_off { (start : Option (List ℕ)) (order : Order) (unit : Unit) (snap : ℕ) (packets : List Packet) →
            HasWritten W.taken start order unit snap packets self.old → result ≡ Err Fault.Device →
            HasWrittenPart W.taken start order unit snap (packets ++ packet sec nanos len bytes.now ∷ []) self.new }

        // What the sink took before stays.
        ensures grows { self.old.sent ≤ self.new.sent }
        ensures named { W.name self.new.sink ≡ W.name self.old.sink }

        // When each error comes, and no other.
        ensures device { (result ≡ Err Fault.Device) ↔ (W.failures self.new.sink ≢ W.failures self.old.sink) }
        ensures failed { (result ≡ Err Fault.Failed) ↔ (self.old.failed ≡ true) }
        ensures count_full { (result ≡ Err Fault.CountFull) ↔
            ((self.old.failed ≡ false) × (2 ^ 64 ≤ self.old.sent + 16 + length bytes.now)) }
        ensures only { IfErr result (λ fault. (fault ≡ Fault.Device) ⊎ (fault ≡ Fault.Failed) ⊎ (fault ≡ Fault.CountFull)) }

        // Device means that the writer failed; Ok means that it did not.
        ensures fails { result ≡ Err Fault.Device → self.new.failed ≡ true }
        ensures works { OnOk result (self.new.failed ≡ false) }

        // Without a device fault, an error changed nothing.
        ensures unchanged { result ≡ Err Fault.Failed ⊎ result ≡ Err Fault.CountFull → self.new ≡ self.old }
    {
        if self.failed {
            return Err(Fault::Failed);
        }
        if u64::MAX - self.sent < (RECORD_HEADER_LEN + bytes.len()) as u64 {
            return Err(Fault::CountFull);
        }
        let captured = bytes.len() as u32;
        let header = record_header(self.order, self.unit, sec, nanos, captured, len);
        self.send_both(&header, bytes)
    }

    /// Asks the sink to hand on what it has gathered. What it took and how often it failed stays as
    /// it was.
    pub fn flush(&mut self)
        ensures same { (self.new.order ≡ self.old.order) × (self.new.unit ≡ self.old.unit) × (self.new.sent ≡ self.old.sent) × (self.new.failed ≡ self.old.failed) }
        ensures bytes { Keeps (W.taken self.old.sink) (W.taken self.new.sink) }
        ensures failures { W.failures self.new.sink ≡ W.failures self.old.sink }
        ensures named { W.name self.new.sink ≡ W.name self.old.sink }
    {
        self.sink.flush();
    }

    /// How many bytes the sink took since the writer was opened.
    pub fn sent(&self) -> u64
        ensures { result ≡ self.now.sent }
    {
        self.sent
    }

    /// Gives the sink back, with the number of bytes that it took since the writer was opened.
    pub fn close(self) -> (W, u64)
        ensures sink { result.0 ≡ self.sink }
        ensures sent { result.1 ≡ self.sent }
    {
        let Writer {
            sink,
            order: _,
            unit: _,
            sent,
            failed: _,
        } = self;
        (sink, sent)
    }
}

impl<W: GatheringSink> Writer<W> {
    /// Has the sink hand on what it has gathered: after this nothing waits in it.
    pub fn hand_on(&mut self)
        ensures same { (self.new.order ≡ self.old.order) × (self.new.unit ≡ self.old.unit) × (self.new.sent ≡ self.old.sent) × (self.new.failed ≡ self.old.failed) }
        ensures bytes { Keeps (W.taken self.old.sink) (W.taken self.new.sink) }
        ensures failures { W.failures self.new.sink ≡ W.failures self.old.sink }
        ensures named { W.name self.new.sink ≡ W.name self.old.sink }
        ensures handed_on { W.waits self.new.sink ≡ false }
    {
        self.sink.hand_on();
    }
}
