//! Replays in threads: worked examples, devices that fail in mid-stream, and memory that runs out.

mod batches;
mod caller;
mod endings;
mod overlap;
mod refusals;
mod rings;
mod small;
mod steps;

use crate::same::same;
use bpfvm::{Insn, Program};
use listener::Mode;
use replay::{Interface, InterfaceEnd, InterfaceReport, ListenerReport, Open, Task, TaskEnd, run};
use savefile::{Counted, Order, Unit};
use std::alloc::{AllocError, Global};
use std::io;
use std::io::{Read, Write};
use std::process::Abort;
use std::sync::Wait;
use std::test::Fail;
use std::thread::Threads;

/// Little-endian, microseconds, snapshot length 262,144, Ethernet.
const HEADER: [u8; 24] = [
    0xd4, 0xc3, 0xb2, 0xa1, 2, 0, 4, 0, 0, 0, 0, 0, 0, 0, 0, 0, 0, 0, 4, 0, 1, 0, 0, 0,
];

/// A frame of 38 bytes: UDP from 10.0.0.1 to 10.0.0.2, port 53 to port 53.
const UDP_FRAME: [u8; 38] = [
    0xff, 0xff, 0xff, 0xff, 0xff, 0xff, 0, 1, 2, 3, 4, 5, 8, 0, 0x45, 0, 0, 0x18, 0, 0, 0, 0, 0x40,
    0x11, 0, 0, 10, 0, 0, 1, 10, 0, 0, 2, 0, 0x35, 0, 0x35,
];

/// That frame with the protocol TCP.
const TCP_FRAME: [u8; 38] = [
    0xff, 0xff, 0xff, 0xff, 0xff, 0xff, 0, 1, 2, 3, 4, 5, 8, 0, 0x45, 0, 0, 0x18, 0, 0, 0, 0, 0x40,
    6, 0, 0, 10, 0, 0, 1, 10, 0, 0, 2, 0, 0x35, 0, 0x35,
];

/// A record of a frame that was captured at a second, with its first bytes.
fn put_record(
    text: &mut Vec<u8>,
    sec: u8,
    frame: &[u8; 38],
    kept: usize,
) -> Result<(), AllocError> {
    let kept = kept.min(38);
    let low = kept as u8;
    text.extend_from_slice(&[sec, 0, 0, 0, 0, 0, 0, 0, low, 0, 0, 0, 38, 0, 0, 0])?;
    text.extend_from_slice(&frame[..kept])
}

/// A capture of frames, the first of them at this second, each second one.
fn capture(alloc: Global, sec: u8, frames: &[[u8; 38]]) -> Result<Vec<u8>, AllocError> {
    let mut text = Vec::from_slice(alloc, &HEADER)?;
    let mut sec = sec;
    for frame in frames {
        put_record(&mut text, sec, frame, 38)?;
        sec = sec.wrapping_add(1);
    }
    Ok(text)
}

/// What is written of frames with their seconds, at a snapshot length below 65,536, or at 262,144
/// as 0.
fn written(
    alloc: Global,
    snap: u16,
    records: &[(u8, [u8; 38])],
    kept: usize,
) -> Result<Vec<u8>, AllocError> {
    let mut text = Vec::from_slice(alloc, &HEADER[..16])?;
    let high = if snap == 0 { 4 } else { 0 };
    let [low, middle] = snap.to_le_bytes();
    text.extend_from_slice(&[low, middle, high, 0, 1, 0, 0, 0])?;
    for (sec, frame) in records {
        put_record(&mut text, *sec, frame, kept)?;
    }
    Ok(text)
}

/// Bytes in memory, of which those from `end` on can't be read: there the device ends, or fails.
#[derive(Drop)]
struct Tape {
    bytes: Vec<u8>,
    place: usize,
    end: usize,
    fails: bool,
}

impl Read for Tape {
    fn read(&mut self, to: &mut [u8]) -> io::Result<usize> {
        let whole = self.bytes.len().min(self.end);
        let left = self.bytes.get(self.place..whole).unwrap_or(&[]);
        if left.is_empty() && self.fails {
            return Err(io::Error::from(io::ErrorKind::Interrupted));
        }
        let n = left.len().min(to.len());
        to[..n].copy_from_slice(&left[..n]);
        self.place = self.place.wrapping_add(n);
        Ok(n)
    }
}

/// A source of all these bytes.
fn source_of(bytes: Vec<u8>) -> Counted<Tape> {
    Counted::new(Tape {
        bytes,
        place: 0,
        end: usize::MAX,
        fails: false,
    })
}

/// Frames as they are captured from this second on. The device ends at a byte of the capture, or
/// fails there.
#[derive(Clone, Copy)]
struct Recorded<'a> {
    sec: u8,
    frames: &'a [[u8; 38]],
    end: usize,
    fails: bool,
}

/// The whole capture of frames.
fn in_full(sec: u8, frames: &[[u8; 38]]) -> Recorded<'_> {
    Recorded {
        sec,
        frames,
        end: usize::MAX,
        fails: false,
    }
}

/// The recorded packets up to a byte.
fn up_to(end: usize, recorded: Recorded<'_>) -> Recorded<'_> {
    Recorded { end, ..recorded }
}

/// The source of a capture.
fn source_for(alloc: Global, recorded: Recorded<'_>) -> Result<TapeSource, AllocError> {
    let mut source = source_of(capture(alloc, recorded.sec, recorded.frames)?);
    source.inner.end = recorded.end;
    source.inner.fails = recorded.fails;
    Ok(source)
}

fn sources_for(alloc: Global, captures: &[Recorded<'_>]) -> Result<Vec<TapeSource>, AllocError> {
    let mut sources = Vec::new(alloc);
    for recorded in captures {
        sources.push(source_for(alloc, *recorded)?)?;
    }
    Ok(sources)
}

/// Takes bytes into memory while there is room, and fails then.
#[derive(Drop)]
struct Paper {
    bytes: Vec<u8>,
    room: usize,
}

impl Write for Paper {
    fn write(&mut self, from: &[u8]) -> io::Result<usize> {
        let n = from.len().min(self.room.saturating_sub(self.bytes.len()));
        if n == 0 && !from.is_empty() {
            return Err(io::Error::from(io::ErrorKind::StorageFull));
        }
        self.bytes.extend_from_slice(&from[..n])?;
        Ok(n)
    }

    fn flush(&mut self) -> io::Result<()> {
        Ok(())
    }
}

/// A sink with room for this many bytes.
fn sink_with(alloc: Global, room: usize) -> Counted<Paper> {
    Counted::new(Paper {
        bytes: Vec::new(alloc),
        room,
    })
}

fn insn(code: u16, jt: u8, jf: u8, k: u32) -> Insn {
    Insn { code, jt, jf, k }
}

/// A program that accepts IPv4 packets of TCP, with at most 64 bytes.
fn keeping_tcp() -> Result<Program, bpfvm::Invalid> {
    Program::new(&[
        insn(40, 0, 0, 12),
        insn(21, 0, 3, 2048),
        insn(48, 0, 0, 23),
        insn(21, 0, 1, 6),
        insn(6, 0, 0, 64),
        insn(6, 0, 0, 0),
    ])
}

/// A program that accepts each packet whole.
fn keeping_all() -> Result<Program, bpfvm::Invalid> {
    Program::new(&[insn(6, 0, 0, 262_144)])
}

/// A task that is flushed after each arrival, with two buffers that go round, and a little-endian
/// savefile with microseconds.
fn task<W: Drop>(program: Program, snap: u32, capacity: usize, sink: W) -> Task<W> {
    Task {
        program,
        snap,
        capacity,
        mode: Mode::Buffered,
        flush_every: 1,
        spares: 2,
        order: Order::Little,
        unit: Unit::Micro,
        sink,
    }
}

/// The item at a place, if there is one.
fn at<'a, T>(rt: &(impl Abort + AllocGlobal), items: &'a [T], place: usize) -> &'a T {
    items.get(place).expect(rt, "an item")
}

/// The counts of a report and its end: sent, received, matched, dropped, written.
fn told<W: Drop>(alloc: Global, report: &ListenerReport<W>) -> Result<String, AllocError> {
    format!(in alloc;
        "{} {} {} {} {} {:?}",
        report.sent, report.received, report.matched, report.dropped, report.written, report.end
    )
}

type TapeSource = Counted<Tape>;

type PaperSink = Counted<Paper>;

/// Replays one interface, and gives its report.
fn replay_one(
    rt: &(impl Abort + AllocGlobal + Threads + Wait + Sync),
    interface: Interface<TapeSource, PaperSink>,
) -> Result<InterfaceReport<TapeSource, PaperSink>, Fail> {
    let interfaces = vec![in rt.alloc(); interface]?;
    let mut reports = run(rt, rt.alloc(), interfaces, &Open)?;
    same(rt, reports.len(), 1);
    Ok(reports.pop().expect(rt, "a report"))
}

/// Checks what is reported of a task, and the bytes of its savefile.
fn serves(
    rt: &(impl Abort + AllocGlobal),
    report: &ListenerReport<PaperSink>,
    want: &str,
    bytes: &[u8],
) {
    let got = told(rt.alloc(), report).expect(rt, "memory");
    same(rt, got.as_str(), want);
    same(rt, report.sink.inner.bytes.as_slice(), bytes);
}
