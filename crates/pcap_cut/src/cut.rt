//! A capture cut by a filter: the function under `bpftap cut`.

ghost use Rattle.std.specs.Prelude.{◌≡◌, ◌≢◌, ℕ, List, [], ◌∷◌, ◌++◌, Option, None, true, false, Err, IfErr, ◌↔◌, ◌+◌, ◌-◌, ◌<◌, ◌≤◌, ◌^◌};
ghost use Rattle.std.specs.Io.KnownBytes.{Consumes};
ghost use Rattle.savefile.specs.Savefile.{IsWritable};
ghost use Rattle.savefile.specs.declared.header.Order.{Order};
ghost use Rattle.savefile.specs.declared.header.Unit.{Unit};
ghost use Rattle.savefile.specs.declared.packet.Packet.{Packet};
ghost use Rattle.savefile.specs.declared.writing.Writer.{Writer};
ghost use Rattle.savefile.specs.Reader.{HasGiven};
ghost use Rattle.savefile.specs.Writer.{HasWritten};
ghost use Rattle.pcap_cut.specs.Advancing.{Advances, IsAhead};
ghost use Rattle.pcap_cut.specs.Copying.{Copied, Wrote};
ghost use Rattle.pcap_cut.specs.Cut.{accepts, accepted};
ghost use Rattle.savefile.specs.Snapshot.{effective_snaplen};
ghost use Rattle.pcap_cut.specs.Outcome.{tallied, Cuts};

use bpfvm::Program;
use savefile::laws::{given_so_far, growing_text};
use savefile::{Fault, Header, PacketRef, Reader, Sink, Source, Writer, effective_snaplen};
use std::alloc::Global;

/// How a cut ended.
#[derive(Clone, Copy, Debug, PartialEq, Eq)]
pub enum End {
    /// The whole capture was read, and each accepted packet was written.
    Clean,
    /// The capture could not be read, or not further; the packets before a bad record were written.
    Input(Fault),
    /// The output could not be written further.
    Output(Fault),
}

/// How many packets were read, and how many of these were written.
#[derive(Clone, Copy, Debug, PartialEq, Eq)]
pub struct Tally {
    pub read: u64,
    pub written: u64,
}

impl Tally {
    /// No packet.
    pub const NONE: Tally = Tally {
        read: 0,
        written: 0,
    };
}

/// What a cut gives back.
#[derive(Debug, Drop)]
pub struct CutEnd<R, W> {
    pub source: R,
    pub sink: W,
    /// How many bytes the sink took in this call.
    pub sent: u64,
    /// How many packets the capture has, and how many of these the program accepts, if it was read
    /// to its end or to a torn or bad record, and all was written.
    pub tally: Tally,
    pub end: End,
}

/// Writes the packets of a capture that a program accepts, each cut, as a capture of its own.
///
/// Of a packet it keeps as many bytes as the least of the snapshot length, the program's answer and
/// the captured length; its time and its original length stay. The new capture has the header that
/// is given, where the snapshot length 0 means 262,144. The capture that is read is a savefile of
/// pcap-savefile(5), in any byte order and unit. Each packet is written before the next one is
/// read, and the sink is flushed whenever the source has to be asked for the next one.
///
/// The end is [`End::Clean`] if the whole capture was read and written. It is [`End::Input`]
///
/// - with the header's fault, and the sink is as it was; so it is with [`Fault::NoMemory`], and then
///   the source is too;
/// - with the fault of the first torn or bad record, after all packets before it;
/// - with [`Fault::Device`] if and only if the source failed: after all packets that came whole in
///   what the source gave, or, with the sink as it was, if that was fewer than the 24 bytes of a
///   header;
/// - with [`Fault::CountFull`] after 2^64 - 1 packets.
///
/// It is [`End::Output`] with [`Fault::Device`] if and only if the sink failed, or
/// [`Fault::CountFull`] if the text has 2^64 bytes or more. In every case the sink took exactly
/// `sent` bytes, a prefix of the text that was to be written.
pub fn cut<R: Source, W: Sink>(
    alloc: Global,
    from: R,
    program: &Program,
    header: Header,
    to: W,
) -> CutEnd<R, W>
    // What the source had, what it gave of that, what the sink took, and how that ended.
    ensures cuts { Cuts R.left W.taken from to program.now header.snap header.order header.unit result }

    // A device's fault is returned if and only if the device failed.
    ensures source_broke { (result.end ≡ End.Input Fault.Device) ↔ (R.failures result.source ≢ R.failures from) }
    ensures sink_broke { (result.end ≡ End.Output Fault.Device) ↔ (W.failures result.sink ≢ W.failures to) }

    // The sink is the one that was given.
    ensures named { W.name result.sink ≡ W.name to }
{
    let mut reader = match Reader::open(alloc, from) {
        Ok(reader) => reader,
        Err((source, fault)) => {
            return CutEnd {
                source,
                sink: to,
                sent: 0,
                tally: Tally::NONE,
                end: End::Input(fault),
            };
        }
    };
    // What was sent of the text of some packets begins the text of all.
    growing_text();
    let ended = write_accepted(&mut reader, program, header, to);
    CutEnd {
        source: reader.close(),
        sink: ended.sink,
        sent: ended.sent,
        tally: ended.tally,
        end: ended.end,
    }
}

/// The result of copying.
#[derive(Drop)]
struct Ended<W> {
    sink: W,
    sent: u64,
    tally: Tally,
    end: End,
}

/// The header, and then each accepted packet.
fn write_accepted<R: Source, W: Sink>(
    reader: &mut Reader<R>,
    program: &Program,
    header: Header,
    to: W,
) -> Ended<W>
    ensures writes { (from : Option (List ℕ)) (given : Header) → HasGiven R.left from given [] reader.old →
        (writer : Writer W) × (result.sink ≡ writer.sink) × (result.sent ≡ writer.sent)
        × Copied W.taken from (R.left reader.new.source) given (W.taken to) header.order header.unit (effective_snaplen header.snap) program.now (effective_snaplen header.snap) result.tally result.end writer }
    ensures taken { (bytes : List ℕ) × Consumes (R.left reader.old.source) (R.left reader.new.source) bytes }
    ensures source_broke { (result.end ≡ End.Input Fault.Device) ↔ (R.failures reader.new.source ≢ R.failures reader.old.source) }
    ensures sink_broke { (result.end ≡ End.Output Fault.Device) ↔ (W.failures result.sink ≢ W.failures to) }
    ensures named { W.name result.sink ≡ W.name to }
{
    let snap = effective_snaplen(header.snap);
    let (mut writer, opened) = Writer::open(to, header.order, header.unit, snap);
    if let Err(fault) = opened {
        // No packet, too, begins what the capture holds.
        given_so_far(reader);
        let (sink, sent) = writer.close();
        return Ended {
            sink,
            sent,
            tally: Tally::NONE,
            end: End::Output(fault),
        };
    }
    let (tally, end) = copy_accepted(reader, program, snap, &mut writer);
    let (sink, sent) = writer.close();
    Ended {
        sink,
        sent,
        tally,
        end,
    }
}

/// Each accepted packet, written before the next one is read.
fn copy_accepted<R: Source, W: Sink>(
    reader: &mut Reader<R>,
    program: &Program,
    snap: u32,
    writer: &mut Writer<W>,
) -> (Tally, End)
    ensures copies { (from : Option (List ℕ)) (header : Header) (to : Option (List ℕ)) (order : Order) (unit : Unit) (head : ℕ) →
        HasGiven R.left from header [] reader.old → HasWritten W.taken to order unit head [] writer.old →
        Copied W.taken from (R.left reader.new.source) header to order unit head program.now snap result.0 result.1 writer.new }
    ensures taken { (bytes : List ℕ) × Consumes (R.left reader.old.source) (R.left reader.new.source) bytes }
    ensures source_broke { (result.1 ≡ End.Input Fault.Device) ↔ (R.failures reader.new.source ≢ R.failures reader.old.source) }
    ensures sink_broke { (result.1 ≡ End.Output Fault.Device) ↔ (W.failures writer.new.sink ≢ W.failures writer.old.sink) }
    ensures named { W.name writer.new.sink ≡ W.name writer.old.sink }
{
    let mut tally = Tally::NONE;
    loop {
        match advance_flushed(reader, writer) {
            Ok(true) => {
                // If the sink breaks, what was read so far begins what the capture holds.
                given_so_far(reader);
                match put_accepted(writer, &reader.packet(), program, snap, &mut tally) {
                    Ok(()) => {}
                    Err(fault) => return (tally, End::Output(fault)),
                }
            }
            Ok(false) => return (tally, End::Clean),
            Err(fault) => return (tally, End::Input(fault)),
        }
    }
}

/// Goes on to the next packet, as [`Reader::advance`] does. The sink is asked to hand on what it
/// has gathered before the source is asked: so whoever reads along has all that was accepted while
/// the source is waited for, and a file is written in large pieces. The contract can't say which
/// of the two is asked first, since it compares only what is before the call with what is after
/// it: a test with a pipe and a clock shows that.
#[inline(always)]
pub fn advance_flushed<R: Source, W: Sink>(
    reader: &mut Reader<R>,
    writer: &mut Writer<W>,
) -> Result<bool, Fault>
    // The next bytes of the source are taken, and none while a whole record is ahead.
    ensures advances { Advances R.left R.failures reader.old reader.new result }
    // What was written stays, and while a whole record is ahead nothing is handed on.
    ensures written { (start : Option (List ℕ)) (order : Order) (unit : Unit) (head : ℕ) (packets : List Packet) →
        HasWritten W.taken start order unit head packets writer.old → HasWritten W.taken start order unit head packets writer.new }
    ensures sink_works { W.failures writer.new.sink ≡ W.failures writer.old.sink }
    ensures named { W.name writer.new.sink ≡ W.name writer.old.sink }
    ensures ahead { IsAhead reader.old → writer.new ≡ writer.old }
{
    given_so_far(reader);
    if reader.advance_ahead() {
        return Ok(true);
    }
    writer.flush();
    reader.advance()
}

/// Writes a packet, cut, if a program accepts it, as [`cut`] does, and counts it: one step of a
/// cut, for callers that read packets themselves. At most `snap` bytes are kept; here 0 means 0.
///
/// The error is [`Fault::Device`] if and only if the sink failed, or [`Fault::CountFull`] if the
/// text has 2^64 bytes or more. The sink then took a prefix of the text with this packet.
// It is in the loop of each cut, and of each part of a split.
#[inline(always)]
pub fn put_accepted<W: Sink>(
    writer: &mut Writer<W>,
    packet: &PacketRef<'_>,
    program: &Program,
    snap: u32,
    tally: &mut Tally,
) -> Result<(), Fault>
    requires writable { IsWritable packet.now }
    requires room { tally.now.read + 1 < 2 ^ 64 }
    requires fewer { tally.now.written ≤ tally.now.read }
    ensures writes { (start : Option (List ℕ)) (order : Order) (unit : Unit) (head : ℕ) (before : List Packet) →
        HasWritten W.taken start order unit head before writer.old →
        Wrote W.taken start order unit head (before ++ accepted program.now snap (packet.now ∷ [])) result writer.new }
    ensures counts { tally.new ≡ tallied (accepts program.now packet.now) tally.old }
    ensures sink_broke { (result ≡ Err Fault.Device) ↔ (W.failures writer.new.sink ≢ W.failures writer.old.sink) }
    ensures named { W.name writer.new.sink ≡ W.name writer.old.sink }
{
    // The text grows by this packet's record.
    growing_text();
    let verdict = bpfvm::run(program, packet.bytes, packet.len);
    tally.read += 1;
    if verdict == 0 {
        return Ok(());
    }
    tally.written += 1;
    let kept = (verdict.min(snap) as usize).min(packet.bytes.len());
    writer.put(packet.sec, packet.nanos, packet.len, &packet.bytes[..kept])
}
