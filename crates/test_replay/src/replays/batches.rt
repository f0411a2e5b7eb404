//! Which calls a gate gets for a batch of several packets, and when.

use super::*;
use replay::Gate;
use std::sync::atomic::AtomicU64;
use std::sync::atomic::Ordering::SeqCst;
use std::thread;
use std::time::{Clock, Duration};

/// A sink that counts the bytes that it takes.
#[derive(Drop)]
struct Weighed<'a> {
    bytes: &'a AtomicU64,
}

impl Write for Weighed<'_> {
    fn write(&mut self, from: &[u8]) -> io::Result<usize> {
        self.bytes.fetch_add(from.len() as u64, SeqCst);
        Ok(from.len())
    }

    fn flush(&mut self) -> io::Result<()> {
        Ok(())
    }
}

/// Counts the batches that are reported and their packets, and those of which something was written
/// before.
#[derive(Drop)]
struct Batches<'a, R> {
    rt: &'a R,
    bytes: &'a AtomicU64,
    told: AtomicU64,
    packets: AtomicU64,
    late: AtomicU64,
}

impl<R: Clock> Gate for Batches<'_, R> {
    fn before_arrive(&self, _interface: u32, _n: u64) {}

    fn after_arrive(&self, _interface: u32, _n: u64) {}

    fn before_read(&self, _interface: u32, _listener: u32) {}

    fn after_read(&self, _interface: u32, _listener: u32, packets: u32) {
        if packets == 0 {
            return;
        }
        self.told.fetch_add(1, SeqCst);
        self.packets.fetch_add(packets as u64, SeqCst);
        // Time for the writer thread, had it the batch already. Of an empty savefile 24 bytes are
        // written.
        thread::sleep(self.rt, Duration::from_millis(50));
        if self.bytes.load(SeqCst) > 24 {
            self.late.fetch_add(1, SeqCst);
        }
    }
}

/// An interface of three packets, and a task that is flushed after the third: its store becomes the
/// hold then, and not before.
fn three_at_once(
    alloc: Global,
    bytes: &AtomicU64,
) -> Result<Interface<TapeSource, Counted<Weighed<'_>>>, Fail> {
    let text = capture(alloc, 1, &[TCP_FRAME, UDP_FRAME, TCP_FRAME])?;
    let mut one = task(keeping_all()?, 64, 1_000, Counted::new(Weighed { bytes }));
    one.flush_every = 3;
    Ok(Interface {
        captures: vec![in alloc; source_of(text)]?,
        tasks: vec![in alloc; one]?,
    })
}

/// One batch of three packets was reported, and nothing of it was written before; in the end all
/// is.
fn told_at_once<R>(rt: &impl Abort, gate: &Batches<'_, R>) {
    same(
        rt,
        (gate.told.load(SeqCst), gate.packets.load(SeqCst)),
        (1, 3),
    );
    same(rt, gate.late.load(SeqCst), 0);
    same(rt, gate.bytes.load(SeqCst), 24 + 3 * (16 + 38));
}

#[test]
fn a_batch_is_reported_with_its_packets_before_it_is_handed_on(
    rt: HostRuntime,
) -> Result<(), Fail> {
    let alloc = rt.alloc();
    let bytes = AtomicU64::new(0);
    let gate = Batches {
        rt: &rt,
        bytes: &bytes,
        told: AtomicU64::new(0),
        packets: AtomicU64::new(0),
        late: AtomicU64::new(0),
    };
    let interfaces = vec![in alloc; three_at_once(alloc, &bytes)?]?;
    let reports = run(&rt, alloc, interfaces, &gate)?;
    same(&rt, reports.len(), 1);
    told_at_once(&rt, &gate);
    Ok(())
}
