//! What is reported of an OUT that failed, by the bytes that it took.

use crate::run_plan::nothing_done;
use crate::same::same;
use cli_run::tally::{CountingCapture, Output, flush_one};
use replay::{ListenerReport, TaskEnd};
use savefile::Counted;
use std::io;
use std::io::{BufWriter, ErrorKind, Write};
use std::process::Abort;

/// Takes this many bytes, and then fails.
#[derive(Drop)]
struct Narrow {
    room: usize,
}

impl Write for Narrow {
    fn write(&mut self, from: &[u8]) -> io::Result<usize> {
        if self.room == 0 {
            return Err(io::Error::from(ErrorKind::Other));
        }
        let taken = self.room.min(from.len());
        self.room -= taken;
        Ok(taken)
    }

    fn flush(&mut self) -> io::Result<()> {
        Ok(())
    }
}

/// A record of this many bytes.
fn push_record(rt: &(impl Abort + AllocGlobal), bytes: &mut Vec<u8>, length: u32) {
    bytes.extend_from_slice(&[9; 8]).expect(rt, "memory");
    bytes
        .extend_from_slice(&u32::to_le_bytes(length))
        .expect(rt, "memory");
    bytes.extend_from_slice(&[9; 4]).expect(rt, "memory");
    for _ in 0..length {
        bytes.push(255).expect(rt, "memory");
    }
}

/// A header, a record of 3 bytes, one without bytes, and one of 258.
fn capture(rt: &(impl Abort + AllocGlobal)) -> Vec<u8> {
    let mut bytes = Vec::from_slice(rt.alloc(), &[7; 24]).expect(rt, "memory");
    for length in [3, 0, 258] {
        push_record(rt, &mut bytes, length);
    }
    bytes
}

/// How many packets are whole in this many bytes of it.
fn whole_in(bytes: u64) -> u64 {
    [43, 59, 333].iter().filter(|end| bytes >= **end).count() as u64
}

/// A buffer in front of an OUT that takes this many bytes, into which a capture went.
fn filled(
    rt: &(impl Abort + AllocGlobal),
    room: usize,
) -> Counted<BufWriter<CountingCapture<Narrow>>> {
    let out = CountingCapture::new(Narrow { room });
    let buffer = BufWriter::with_capacity(rt.alloc(), 40, out).expect(rt, "memory");
    let mut sink = Counted::new(buffer);
    for piece in capture(rt).as_slice().chunks(5) {
        let _ = sink.inner.write(piece);
    }
    sink
}

/// The report of a listener whose capture went into a buffer, in front of an OUT that takes this
/// many bytes.
fn reported(
    rt: &(impl Abort + AllocGlobal),
    room: usize,
    end: TaskEnd,
) -> ListenerReport<Output<Narrow>> {
    ListenerReport {
        sink: filled(rt, room),
        sent: 333,
        received: 4,
        matched: 3,
        dropped: 0,
        written: 3,
        end,
        past: nothing_done(rt),
    }
}

/// What is reported as written to an OUT that takes this many bytes is what it has.
fn is_told(rt: &(impl Abort + AllocGlobal), room: usize, end: TaskEnd) {
    let taken = room.min(333) as u64;
    let mut report = reported(rt, room, end);
    flush_one(&mut report);
    let told = match end {
        TaskEnd::Clean if room >= 333 => end,
        TaskEnd::Unfinished => end,
        _ => TaskEnd::Write(taken),
    };
    let found = (room, report.end, report.written);
    same(rt, found, (room, told, whole_in(taken)));
}

#[test]
fn what_is_reported_as_written_is_what_out_has(rt: HostRuntime) {
    for room in 0..=340 {
        is_told(&rt, room, TaskEnd::Clean);
        is_told(&rt, room, TaskEnd::Write(333));
        is_told(&rt, room, TaskEnd::Unfinished);
    }
}
