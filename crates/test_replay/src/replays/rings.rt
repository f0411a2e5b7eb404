//! The buffers that go round between a task's two threads.

use super::*;
use replay::Gate;
use std::sync::atomic::AtomicU64;
use std::sync::atomic::Ordering::SeqCst;
use std::thread;
use std::time::{Clock, Duration};

/// How many turns of a millisecond something is waited for.
const MAX_TURNS: u32 = 20_000;

/// How many buffers go round.
const SPARES: usize = 16;

/// How many packets arrive if the first write fails: enough that some come after it on a busy
/// machine.
const CROWD: usize = 1_000;

/// Takes everything, but holds each write after the header until as many batches were read as
/// buffers go round.
#[derive(Drop)]
struct Patient<'a, R> {
    rt: &'a R,
    read: &'a AtomicU64,
    writes: u64,
    /// How many batches were read when the first packet was written.
    first: u64,
}

impl<R: Clock> Write for Patient<'_, R> {
    fn write(&mut self, from: &[u8]) -> io::Result<usize> {
        self.writes = self.writes.wrapping_add(1);
        for _ in 0..MAX_TURNS {
            if self.writes != 2 || self.read.load(SeqCst) >= SPARES as u64 {
                break;
            }
            thread::sleep(self.rt, Duration::from_millis(1));
        }
        if self.writes == 2 {
            // Time enough for a batch too many.
            thread::sleep(self.rt, Duration::from_millis(20));
            self.first = self.read.load(SeqCst);
        }
        Ok(from.len())
    }

    fn flush(&mut self) -> io::Result<()> {
        Ok(())
    }
}

/// Gives each packet time to be read until as many batches were read as buffers go round, and
/// counts the batches.
#[derive(Drop)]
struct Paced<'a, R> {
    rt: &'a R,
    read: &'a AtomicU64,
}

impl<R: Clock> Gate for Paced<'_, R> {
    fn before_arrive(&self, _interface: u32, _n: u64) {
        if self.read.load(SeqCst) < SPARES as u64 {
            thread::sleep(self.rt, Duration::from_millis(1));
        }
    }

    fn after_arrive(&self, _interface: u32, _n: u64) {}

    fn before_read(&self, _interface: u32, _listener: u32) {}

    fn after_read(&self, _interface: u32, _listener: u32, packets: u32) {
        if packets > 0 {
            self.read.fetch_add(1, SeqCst);
        }
    }
}

/// This many TCP frames.
fn frames(alloc: Global, packets: usize) -> Result<Vec<[u8; 38]>, AllocError> {
    let mut frames = Vec::new(alloc);
    for _ in 0..packets {
        frames.push(TCP_FRAME)?;
    }
    Ok(frames)
}

/// An interface of a capture of this many packets, and this task.
fn crowded<W: Drop>(
    alloc: Global,
    packets: usize,
    task: Task<W>,
) -> Result<Vec<Interface<TapeSource, W>>, AllocError> {
    let text = capture(alloc, 1, frames(alloc, packets)?.as_slice())?;
    let captures = vec![in alloc; source_of(text)]?;
    let mut tasks = Vec::new(alloc);
    tasks.push(task)?;
    let mut interfaces = Vec::new(alloc);
    interfaces.push(Interface { captures, tasks })?;
    Ok(interfaces)
}

#[test]
fn as_many_batches_are_read_ahead_as_buffers_go_round(rt: HostRuntime) -> Result<(), Fail> {
    let alloc = rt.alloc();
    let read = AtomicU64::new(0);
    let gate = Paced {
        rt: &rt,
        read: &read,
    };
    let sink = Counted::new(Patient {
        rt: &rt,
        read: &read,
        writes: 0,
        first: 0,
    });
    // Room for one packet in each buffer. On a busy machine many packets find no room, so there are
    // many more than buffers.
    let mut one = task(keeping_all()?, 64, 96, sink);
    one.spares = SPARES;
    let reports = run(&rt, alloc, crowded(alloc, 5_000, one)?, &gate)?;
    let report = at(&rt, reports.as_slice(), 0);
    let one = at(&rt, report.listeners.as_slice(), 0);
    same(&rt, one.end, TaskEnd::Clean);
    same(&rt, one.sink.inner.first, SPARES as u64);
    Ok(())
}

/// The sink took only the header, and the pair was closed: an arrival that finds it so is not
/// received.
fn was_closed(rt: &impl Abort, one: &ListenerReport<PaperSink>) {
    same(rt, (one.end, one.written), (TaskEnd::Write(24), 0));
    assert!(rt; one.received < CROWD as u64);
}

#[test]
fn a_failed_write_closes_the_drain(rt: HostRuntime) -> Result<(), Fail> {
    let alloc = rt.alloc();
    let read = AtomicU64::new(0);
    let gate = Paced {
        rt: &rt,
        read: &read,
    };
    let one = task(keeping_all()?, 64, 96, sink_with(alloc, 24));
    let reports = run(&rt, alloc, crowded(alloc, CROWD, one)?, &gate)?;
    let report = at(&rt, reports.as_slice(), 0);
    same(&rt, report.end, InterfaceEnd::Clean);
    was_closed(&rt, at(&rt, report.listeners.as_slice(), 0));
    Ok(())
}
