//! Reading goes on while packets arrive.

use super::*;
use replay::Gate;
use std::sync::atomic::Ordering::SeqCst;
use std::sync::atomic::{AtomicBool, AtomicU64};
use std::thread;
use std::time::{Clock, Duration};

/// How many packets each of the two listeners accepts of the first 0, 1 and 2.
const ACCEPTED: [[u64; 3]; 2] = [[0, 1, 1], [0, 1, 2]];

/// How many turns of a millisecond something is waited for.
const MAX_TURNS: u32 = 20_000;

/// Holds each arrival until the listeners that count have read all that they accepted before it,
/// and each listener's first read until arrival 1 is held.
#[derive(Drop)]
struct Lockstep<'a, R> {
    rt: &'a R,
    /// The listeners from this one on count.
    first: usize,
    /// How many arrivals were held so far.
    entered: AtomicU64,
    /// How many packets each listener has read.
    read: [AtomicU64; 2],
    /// Something was waited for in vain.
    is_late: AtomicBool,
}

impl<'a, R: Clock> Lockstep<'a, R> {
    fn new(rt: &'a R, first: usize) -> Lockstep<'a, R> {
        Lockstep {
            rt,
            first,
            entered: AtomicU64::new(0),
            read: [AtomicU64::new(0), AtomicU64::new(0)],
            is_late: AtomicBool::new(false),
        }
    }

    /// Whether the listeners that count have read what they accepted of the first n arrivals.
    fn is_read(&self, n: u64) -> bool {
        for (listener, (read, accepted)) in self.read.iter().zip(ACCEPTED).enumerate() {
            if listener < self.first {
                continue;
            }
            match accepted.get(n as usize) {
                Some(accepted) if read.load(SeqCst) == *accepted => {}
                _ => return false,
            }
        }
        true
    }

    /// Waits a millisecond, unless something was waited for in vain already.
    fn waits_on(&self) -> bool {
        if self.is_late.load(SeqCst) {
            return false;
        }
        thread::sleep(self.rt, Duration::from_millis(1));
        true
    }
}

impl<R: Clock> Gate for Lockstep<'_, R> {
    fn before_arrive(&self, _interface: u32, n: u64) {
        self.entered.fetch_add(1, SeqCst);
        for _ in 0..MAX_TURNS {
            if self.is_read(n) || !self.waits_on() {
                return;
            }
        }
        self.is_late.store(true, SeqCst);
    }

    fn after_arrive(&self, _interface: u32, _n: u64) {}

    fn before_read(&self, _interface: u32, _listener: u32) {
        for _ in 0..MAX_TURNS {
            if self.entered.load(SeqCst) >= 2 || !self.waits_on() {
                return;
            }
        }
        self.is_late.store(true, SeqCst);
    }

    fn after_read(&self, _interface: u32, listener: u32, packets: u32) {
        if let Some(read) = self.read.get(listener as usize) {
            read.fetch_add(packets as u64, SeqCst);
        }
    }
}

/// The tasks of the example, of which the first sink has this much room.
fn example_tasks(alloc: Global, mode: Mode, room: usize) -> Result<Vec<Task<PaperSink>>, Fail> {
    let everywhere = sink_with(alloc, usize::MAX);
    let mut tasks = vec![in alloc;
        task(keeping_tcp()?, 64, 96, sink_with(alloc, room)),
        task(keeping_all()?, 262_144, 262_176, everywhere),
    ]?;
    if mode == Mode::Immediate {
        for task in tasks.iter_mut() {
            task.mode = mode;
            task.flush_every = 0;
        }
    }
    Ok(tasks)
}

/// The interface of the example: T and U arrive, and then T, at a listener for TCP, whose sink has
/// this much room, and one for all. If they are Immediate, nothing is flushed.
fn example(
    alloc: Global,
    mode: Mode,
    room: usize,
) -> Result<Vec<Interface<TapeSource, PaperSink>>, Fail> {
    let captures = sources_for(
        alloc,
        &[
            in_full(1, &[TCP_FRAME, UDP_FRAME]),
            in_full(3, &[TCP_FRAME]),
        ],
    )?;
    let tasks = example_tasks(alloc, mode, room)?;
    Ok(vec![in alloc; Interface { captures, tasks }]?)
}

/// The first listener of the example keeps the packets of TCP.
fn keeps_tcp(rt: &(impl Abort + AllocGlobal), report: &InterfaceReport<TapeSource, PaperSink>) {
    let tcp = [(1, TCP_FRAME), (3, TCP_FRAME)];
    let tcp = written(rt.alloc(), 64, &tcp, 38).expect(rt, "memory");
    let listener = at(rt, report.listeners.as_slice(), 0);
    serves(rt, listener, "132 3 2 0 2 Clean", tcp.as_slice());
}

/// The second listener of the example keeps all packets.
fn keeps_all(rt: &(impl Abort + AllocGlobal), report: &InterfaceReport<TapeSource, PaperSink>) {
    let all = [(1, TCP_FRAME), (2, UDP_FRAME), (3, TCP_FRAME)];
    let all = written(rt.alloc(), 0, &all, 38).expect(rt, "memory");
    let listener = at(rt, report.listeners.as_slice(), 1);
    serves(rt, listener, "186 3 3 0 3 Clean", all.as_slice());
}

/// Replays the example in lockstep, and tests that each listener keeps all that it accepts.
fn overlaps(
    rt: &(impl Abort + AllocGlobal + Clock + Threads + Wait + Sync),
    mode: Mode,
) -> Result<(), Fail> {
    let gate = Lockstep::new(rt, 0);
    let interfaces = example(rt.alloc(), mode, usize::MAX)?;
    let reports = run(rt, rt.alloc(), interfaces, &gate)?;
    assert!(rt; !gate.is_late.load(SeqCst));
    same(rt, gate.entered.load(SeqCst), 3);
    let report = at(rt, reports.as_slice(), 0);
    same(rt, report.end, InterfaceEnd::Clean);
    keeps_tcp(rt, report);
    keeps_all(rt, report);
    Ok(())
}

#[test]
fn reading_and_replaying_overlap(rt: HostRuntime) -> Result<(), Fail> {
    overlaps(&rt, Mode::Buffered)
}

#[test]
fn immediate_packets_are_read_without_a_flush(rt: HostRuntime) -> Result<(), Fail> {
    overlaps(&rt, Mode::Immediate)
}

/// A listener whose sink took only the header wrote nothing more.
fn wrote_the_header(rt: &(impl Abort + AllocGlobal), broken: &ListenerReport<PaperSink>) {
    same(rt, broken.end, TaskEnd::Write(24));
    same(rt, (broken.sent, broken.written), (24, 0));
    assert!(rt; broken.received >= 1 && broken.received <= 3);
    let head = written(rt.alloc(), 64, &[], 38).expect(rt, "memory");
    same(rt, broken.sink.inner.bytes.as_slice(), head.as_slice());
    same(rt, broken.sink.failures, 1);
}

#[test]
fn one_failed_sink_leaves_the_others(rt: HostRuntime) -> Result<(), Fail> {
    let gate = Lockstep::new(&rt, 1);
    let interfaces = example(rt.alloc(), Mode::Buffered, 24)?;
    let reports = run(&rt, rt.alloc(), interfaces, &gate)?;
    assert!(rt; !gate.is_late.load(SeqCst));
    let report = at(&rt, reports.as_slice(), 0);
    same(&rt, report.end, InterfaceEnd::Clean);
    wrote_the_header(&rt, at(&rt, report.listeners.as_slice(), 0));
    keeps_all(&rt, report);
    Ok(())
}

/// Holds each arrival until there were two.
#[derive(Drop)]
struct Meeting<'a, R> {
    rt: &'a R,
    /// How many arrivals were held so far.
    entered: AtomicU64,
    /// How many of these were not held in vain.
    met: AtomicU64,
}

impl<R: Clock> Gate for Meeting<'_, R> {
    fn before_arrive(&self, _interface: u32, _n: u64) {
        self.entered.fetch_add(1, SeqCst);
        for _ in 0..MAX_TURNS {
            if self.entered.load(SeqCst) >= 2 {
                self.met.fetch_add(1, SeqCst);
                return;
            }
            thread::sleep(self.rt, Duration::from_millis(1));
        }
    }

    fn after_arrive(&self, _interface: u32, _n: u64) {}

    fn before_read(&self, _interface: u32, _listener: u32) {}

    fn after_read(&self, _interface: u32, _listener: u32, _packets: u32) {}
}

/// An interface of one packet, at this second, to which nobody listens.
fn unheard(alloc: Global, sec: u8) -> Result<Interface<TapeSource, PaperSink>, AllocError> {
    Ok(Interface {
        captures: sources_for(alloc, &[in_full(sec, &[TCP_FRAME])])?,
        tasks: Vec::new(alloc),
    })
}

#[test]
fn interfaces_are_replayed_side_by_side(rt: HostRuntime) -> Result<(), Fail> {
    let alloc = rt.alloc();
    let gate = Meeting {
        rt: &rt,
        entered: AtomicU64::new(0),
        met: AtomicU64::new(0),
    };
    let interfaces = vec![in alloc; unheard(alloc, 0)?, unheard(alloc, 1)?]?;
    let reports = run(&rt, alloc, interfaces, &gate)?;
    same(&rt, (reports.len(), gate.met.load(SeqCst)), (2, 2));
    Ok(())
}
