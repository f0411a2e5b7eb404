//! How many packets of a capture are whole in what a file took of it.

ghost use Rattle.std.specs.Prelude.{◌≡◌, ◌+◌, ◌%◌, ◌^◌, ◌≤◌, IfOk, OnErr};
ghost use Rattle.std.specs.Io.{WritesAtMost};
ghost use Rattle.std.specs.Io.KnownBytes.{WriteAppends};
ghost use Rattle.std.specs.List.{AllZip};
ghost use Rattle.cli_run.specs.Flushing.{AreFlushed, IsFlushed, bytes_of, packets_of};
ghost use Rattle.cli_run.specs.Replaying.{PrintsRun};

use crate::report::{print_reports, report_ends, run_status};
use cli_report::HintSink;
use cli_text::Status;
use fault_report::reporting::report_output;
use line_text::LineForm;
use replay_types::{InterfaceReport, ListenerReport, TaskEnd};
use savefile::Counted;
use std::io;
use std::io::{BufWriter, Write};

/// What the next byte of a capture belongs to.
#[derive(Clone, Copy, Debug, PartialEq, Eq)]
enum Place {
    /// The capture's header, and how many of its bytes are missing.
    FileHeader(usize),
    /// A record's header: how many of its bytes came, and the captured length as far as it came.
    RecordHeader(usize, u32),
    /// The bytes of a packet, and how many of them are missing.
    Packet(usize),
}

/// How many bytes the header of a capture has.
const FILE_HEADER: usize = 24;

/// The place of the last byte of a record's header, and those of the captured length's first and
/// last one.
const HEADER_END: usize = 15;

const LENGTH_START: usize = 8;

const LENGTH_END: usize = 11;

/// What a byte of a record's header, at this place, adds to the captured length, which is
/// little-endian.
fn length_part(place: usize, byte: u8) -> u32 {
    if place < LENGTH_START || place > LENGTH_END {
        return 0;
    }
    u32::from(byte) << (8 * (place - LENGTH_START))
}

/// Counts the packets that are whole in the bytes of a little-endian capture, which come in pieces
/// of any length.
#[derive(Clone, Copy, Debug)]
struct PacketCount {
    whole: u64,
    place: Place,
}

impl PacketCount {
    fn new() -> PacketCount
        ensures { result.whole ≡ 0 }
    {
        PacketCount {
            whole: 0,
            place: Place::FileHeader(FILE_HEADER),
        }
    }

    /// Begins a record after a packet that is whole.
    fn end_packet(&mut self) -> Place {
        self.whole = self.whole.wrapping_add(1);
        Place::RecordHeader(0, 0)
    }

    fn add_byte(&mut self, byte: u8) {
        self.place = match self.place {
            Place::FileHeader(missing) if missing > 1 => Place::FileHeader(missing - 1),
            Place::FileHeader(_) => Place::RecordHeader(0, 0),
            Place::RecordHeader(came, captured) if came < HEADER_END => {
                Place::RecordHeader(came + 1, captured | length_part(came, byte))
            }
            Place::RecordHeader(_, captured) if captured > 0 => Place::Packet(captured as usize),
            Place::RecordHeader(_, _) => self.end_packet(),
            Place::Packet(missing) if missing > 1 => Place::Packet(missing - 1),
            Place::Packet(_) => self.end_packet(),
        };
    }

    /// Passes over bytes of a packet, `most` at most and not its last one, and returns how many.
    fn pass(&mut self, most: usize) -> usize
        ensures { result ≤ most }
    {
        let Place::Packet(missing) = self.place else {
            return 0;
        };
        if missing == 0 {
            return 0;
        }
        let passed = most.min(missing - 1);
        self.place = Place::Packet(missing - passed);
        passed
    }

    fn add(&mut self, bytes: &[u8]) {
        let mut rest = bytes;
        while let Some((byte, after)) = rest.split_first() {
            self.add_byte(*byte);
            let passed = self.pass(after.len());
            rest = &after[passed..];
        }
    }
}

/// A writer of a capture, little-endian, that counts what is taken of it: the bytes, and the
/// packets that are whole in them.
#[derive(Debug, Drop)]
pub struct CountingCapture<W> {
    inner: W,
    /// How many bytes were taken, modulo 2^64.
    bytes: u64,
    packets: PacketCount,
}

impl<W> CountingCapture<W> {
    /// A writer of which nothing was taken yet.
    pub fn new(inner: W) -> CountingCapture<W>
        ensures inner { result.inner ≡ inner }
        ensures bytes { bytes_of result ≡ 0 }
        ensures packets { packets_of result ≡ 0 }
    {
        CountingCapture {
            inner,
            bytes: 0,
            packets: PacketCount::new(),
        }
    }

    /// The writer below.
    pub fn get_ref(&self) -> &W
        ensures { result.now ≡ self.now.inner }
    {
        &self.inner
    }

    /// How many bytes were taken, modulo 2^64.
    pub fn bytes(&self) -> u64
        ensures { result ≡ bytes_of self.now }
    {
        self.bytes
    }

    /// How many packets are whole in them.
    pub fn packets(&self) -> u64
        ensures { result ≡ packets_of self.now }
    {
        self.packets.whole
    }
}

impl<W: Write> Write for CountingCapture<W> {
    ghost contents = { λ out. W.contents out.inner };

    fn write(&mut self, from: &[u8]) -> io::Result<usize>
        ensures bound { WritesAtMost result from.now }
        ensures bytes { WriteAppends (W.contents self.old.inner) (W.contents self.new.inner) result from.now }
        ensures counted { IfOk result (λ taken. bytes_of self.new ≡ (bytes_of self.old + taken) % 2 ^ 64) }
        ensures failed { OnErr result (bytes_of self.new ≡ bytes_of self.old) }
    {
        let taken = self.inner.write(from)?;
        self.bytes = self.bytes.wrapping_add(taken as u64);
        self.packets.add(&from[..taken]);
        Ok(taken)
    }

    fn flush(&mut self) -> io::Result<()> {
        self.inner.flush()
    }
}

/// The writer of an OUT: a buffer in front of what counts.
pub type Output<W> = Counted<BufWriter<CountingCapture<W>>>;

/// Empties the buffer in front of an OUT. If that fails, or a write failed before, the report has
/// what OUT itself took. A listener that did not hand over its end stays Unfinished.
pub fn flush_one<W: Write + Drop>(report: &mut ListenerReport<Output<W>>)
    ensures { IsFlushed W.contents report.old report.new }
{
    let flushed = report.sink.inner.flush();
    if flushed.is_ok() && !matches!(&report.end, TaskEnd::Write(_)) {
        return;
    }
    let out = report.sink.inner.get_ref();
    report.written = out.packets();
    if report.end != TaskEnd::Unfinished {
        report.end = TaskEnd::Write(out.bytes());
    }
}

/// Empties the buffers in front of the OUTs of an interface.
fn flush_interface<R, W: Write + Drop>(report: &mut InterfaceReport<R, Output<W>>)
    ensures { AreFlushed W.contents report.old report.new }
{
    for listener in report.listeners.iter_mut() {
        flush_one(listener);
    }
}

/// Empties the buffers in front of all captures that are written; the report of one that failed has
/// what OUT itself took. What is counted and how the interfaces ended stays.
pub fn flush_all<R, W: Write + Drop>(reports: &mut [InterfaceReport<R, Output<W>>])
    ensures { AllZip (AreFlushed W.contents) reports.old reports.new }
{
    for report in reports.iter_mut() {
        flush_interface(report);
    }
}

/// Empties the buffers in front of all captures that are written, prints the reports, and reports
/// that standard output failed, and each interface that did not end clean; its captures are at the
/// paths of the same place. Returns the greatest status of all.
pub fn report_flushed<R, W: Write + Drop, O: Write, E: HintSink>(
    form: LineForm,
    inputs: &[Vec<&str>],
    reports: &mut [InterfaceReport<R, Output<W>>],
    out: &mut O,
    err: &mut E,
) -> Status
    ensures flushed { AllZip (AreFlushed W.contents) reports.old reports.new }
    ensures prints { PrintsRun form reports.new (O.contents out.old) (O.contents out.new) result }
{
    flush_all(reports);
    let printed = print_reports(form, reports, out);
    let status = report_output(&printed, err);
    let _ = report_ends(err.fault_form(), inputs, reports, err);
    status.max(run_status(reports))
}
