//! Small buffers, and memory that runs out.

use super::*;
use replay::{Gate, RunFault};
use savefile::Fault;
use std::sync::atomic::AtomicBool;
use std::sync::atomic::Ordering::SeqCst;
use std::thread;
use std::time::{Clock, Duration};

/// How many packets arrive.
const PACKETS: u8 = 10;

/// How many turns of a millisecond something is waited for.
const MAX_TURNS: u32 = 20_000;

/// Holds each read until all packets were given to the listeners.
#[derive(Drop)]
struct HeldReads<'a, R> {
    rt: &'a R,
    is_given: AtomicBool,
}

impl<R: Clock> Gate for HeldReads<'_, R> {
    fn before_arrive(&self, _interface: u32, _n: u64) {}

    fn after_arrive(&self, _interface: u32, n: u64) {
        if n.wrapping_add(1) == PACKETS as u64 {
            self.is_given.store(true, SeqCst);
        }
    }

    fn before_read(&self, _interface: u32, _listener: u32) {
        for _ in 0..MAX_TURNS {
            if self.is_given.load(SeqCst) {
                return;
            }
            thread::sleep(self.rt, Duration::from_millis(1));
        }
    }

    fn after_read(&self, _interface: u32, _listener: u32, _packets: u32) {}
}

/// A capture of this many TCP frames.
fn tcp_frames(alloc: Global, packets: u8) -> Result<Vec<u8>, AllocError> {
    let mut text = Vec::from_slice(alloc, &HEADER)?;
    for sec in 0..packets {
        put_record(&mut text, sec, &TCP_FRAME, 38)?;
    }
    Ok(text)
}

/// A task that keeps 20 bytes of each packet, one in a buffer.
fn narrow_task(alloc: Global, mode: Mode, flush_every: u32) -> Result<Task<PaperSink>, Fail> {
    let mut one = task(keeping_tcp()?, 20, 56, sink_with(alloc, usize::MAX));
    one.mode = mode;
    one.flush_every = flush_every;
    Ok(one)
}

/// An interface with a capture of this many TCP frames, and a listener in each mode that keeps 20
/// bytes of each, one in a buffer.
fn narrow(
    alloc: Global,
    packets: u8,
    flush_every: u32,
) -> Result<Vec<Interface<TapeSource, PaperSink>>, Fail> {
    let tasks = vec![in alloc;
        narrow_task(alloc, Mode::Buffered, flush_every)?,
        narrow_task(alloc, Mode::Immediate, flush_every)?,
    ]?;
    let captures = vec![in alloc; source_of(tcp_frames(alloc, packets)?)]?;
    Ok(vec![in alloc; Interface { captures, tasks }]?)
}

/// Both listeners kept the first two of all packets: one was held, one stored.
fn keep_two(rt: &(impl Abort + AllocGlobal), report: &InterfaceReport<TapeSource, PaperSink>) {
    same(rt, report.end, InterfaceEnd::Clean);
    same(rt, report.listeners.len(), 2);
    let two = [(0, TCP_FRAME), (1, TCP_FRAME)];
    let text = written(rt.alloc(), 20, &two, 20).expect(rt, "memory");
    for listener in &report.listeners {
        serves(rt, listener, "96 10 10 8 2 Clean", text.as_slice());
    }
}

#[test]
fn a_slow_reader_loses_packets(rt: HostRuntime) -> Result<(), Fail> {
    let alloc = rt.alloc();
    let gate = HeldReads {
        rt: &rt,
        is_given: AtomicBool::new(false),
    };
    let reports = run(&rt, alloc, narrow(alloc, PACKETS, 0)?, &gate)?;
    assert!(rt; gate.is_given.load(SeqCst));
    keep_two(&rt, at(&rt, reports.as_slice(), 0));
    Ok(())
}

/// What follows the first of these records, of 36 bytes each, that is this one.
fn behind<'a>(records: &'a [u8], wanted: &[u8]) -> Option<&'a [u8]> {
    for (k, record) in records.chunks_exact(36).enumerate() {
        if record == wanted {
            return records.get(k.wrapping_add(1).wrapping_mul(36)..);
        }
    }
    None
}

/// Whether the records, of 36 bytes each, are among others in the same order.
fn stand_among(records: &[u8], others: &[u8]) -> bool {
    let mut others = others;
    for record in records.chunks_exact(36) {
        match behind(others, record) {
            Some(rest) => others = rest,
            None => return false,
        }
    }
    true
}

/// A listener of 250 packets keeps some of them, as they are in the whole, and drops the others.
fn keeps_some_in_order(rt: &impl Abort, listener: &ListenerReport<PaperSink>, whole: &[u8]) {
    same(rt, listener.end, TaskEnd::Clean);
    same(rt, (listener.received, listener.matched), (250, 250));
    same(rt, listener.dropped.wrapping_add(listener.written), 250);
    let file = listener.sink.inner.bytes.as_slice();
    let records = file.get(24..).unwrap_or(&[]);
    same(rt, records.len() as u64, 36 * listener.written.min(250));
    assert!(rt; stand_among(records, whole));
}

/// Two listeners keep some of 250 packets in order, flushed after this many.
fn keep_some_in_order(
    rt: &(impl Abort + AllocGlobal + Threads + Wait + Sync),
    flush_every: u32,
    whole: &[u8],
) -> Result<(), Fail> {
    let interfaces = narrow(rt.alloc(), 250, flush_every)?;
    let reports = run(rt, rt.alloc(), interfaces, &Open)?;
    let report = at(rt, reports.as_slice(), 0);
    same(rt, report.end, InterfaceEnd::Clean);
    for listener in &report.listeners {
        keeps_some_in_order(rt, listener, whole);
    }
    Ok(())
}

#[test]
fn what_small_buffers_keep_is_in_order(rt: HostRuntime) -> Result<(), Fail> {
    let mut whole = Vec::new(rt.alloc());
    for sec in 0..250 {
        put_record(&mut whole, sec, &TCP_FRAME, 20)?;
    }
    for flush_every in 0..20 {
        keep_some_in_order(&rt, flush_every, whole.as_slice())?;
    }
    Ok(())
}

/// Two captures of a frame each, and one listener, whose sink takes no memory.
fn lasting(
    alloc: Global,
    program: Program,
) -> Result<Vec<Interface<TapeSource, PaperSink>>, AllocError> {
    let captures = vec![in alloc;
        source_of(capture(alloc, 1, &[TCP_FRAME])?),
        source_of(capture(alloc, 2, &[TCP_FRAME])?),
    ]?;
    let sink = Counted::new(Paper {
        bytes: Vec::with_capacity(alloc, 256)?,
        room: 256,
    });
    let tasks = vec![in alloc; task(program, 64, 1_024, sink)]?;
    Ok(vec![in alloc; Interface { captures, tasks }]?)
}

/// How many packets come before the end of an interface of two, which may be that memory ran out.
fn packets_before(rt: &impl Abort, end: InterfaceEnd) -> u64 {
    match end {
        InterfaceEnd::Capture(n, fault) => {
            same(rt, fault, Fault::NoMemory);
            n as u64
        }
        end => {
            same(rt, end, InterfaceEnd::Clean);
            2
        }
    }
}

/// A listener is clean and wrote this many packets.
fn wrote(rt: &impl Abort, listener: &ListenerReport<PaperSink>, packets: u64) {
    same(rt, listener.end, TaskEnd::Clean);
    same(
        rt,
        (listener.received, listener.written, listener.dropped),
        (packets, packets, 0),
    );
    same(rt, listener.sent, 24 + 54 * packets.min(2));
}

// By hand: with `rt try --test --fail-alloc N` this passes for every N.
#[test]
fn want_of_memory_is_told_by_name(rt: HostRuntime) {
    let program = keeping_all().expect(&rt, "a program");
    let Ok(interfaces) = lasting(rt.alloc(), program) else {
        return;
    };
    match run(&rt, rt.alloc(), interfaces, &Open) {
        Ok(reports) => {
            let report = at(&rt, reports.as_slice(), 0);
            let packets = packets_before(&rt, report.end);
            wrote(&rt, at(&rt, report.listeners.as_slice(), 0), packets);
        }
        Err(fault) => same(&rt, fault, RunFault::NoStart),
    }
}
