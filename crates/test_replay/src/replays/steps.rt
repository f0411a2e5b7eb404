//! Which calls a gate gets for each step.

use super::*;
use replay::Gate;
use std::sync::atomic::AtomicU64;
use std::sync::atomic::Ordering::SeqCst;
use std::thread;
use std::time::{Clock, Duration};

/// How many packets each listener accepts of the first 0, 1, 2 and 3 of its interface.
const ACCEPTED: [[[u64; 4]; 2]; 2] = [[[0, 1, 1, 2], [0, 1, 2, 3]], [[0, 0, 1, 1], [0, 1, 2, 2]]];

/// How many turns of a millisecond something is waited for.
const MAX_TURNS: u32 = 20_000;

/// What was reported of an interface.
#[derive(Drop)]
struct Told {
    /// How many arrivals began, and ended, in order.
    began: AtomicU64,
    arrived: AtomicU64,
    listeners: [ToldOfOne; 2],
}

/// What was reported of a listener.
#[derive(Drop)]
struct ToldOfOne {
    /// How many reads began, and ended.
    began: AtomicU64,
    read: AtomicU64,
    /// How many packets were read.
    packets: AtomicU64,
}

impl ToldOfOne {
    fn new() -> ToldOfOne {
        ToldOfOne {
            began: AtomicU64::new(0),
            read: AtomicU64::new(0),
            packets: AtomicU64::new(0),
        }
    }
}

impl Told {
    fn new() -> Told {
        Told {
            began: AtomicU64::new(0),
            arrived: AtomicU64::new(0),
            listeners: [ToldOfOne::new(), ToldOfOne::new()],
        }
    }
}

/// Counts each step, and holds each arrival, once it is given and what is due was flushed, until it
/// is read. A step that is reported twice, or with another number, or out of turn, counts as odd.
#[derive(Drop)]
struct Watch<'a, R> {
    rt: &'a R,
    told: [Told; 2],
    odd: AtomicU64,
}

impl<'a, R> Watch<'a, R> {
    fn new(rt: &'a R) -> Watch<'a, R> {
        Watch {
            rt,
            told: [Told::new(), Told::new()],
            odd: AtomicU64::new(0),
        }
    }

    fn of(&self, interface: u32) -> Option<&Told> {
        let told = self.told.get(interface as usize);
        if told.is_none() {
            self.odd.fetch_add(1, SeqCst);
        }
        told
    }

    fn of_one(&self, interface: u32, listener: u32) -> Option<&ToldOfOne> {
        let told = self.of(interface)?.listeners.get(listener as usize);
        if told.is_none() {
            self.odd.fetch_add(1, SeqCst);
        }
        told
    }

    fn expects(&self, holds: bool) {
        if !holds {
            self.odd.fetch_add(1, SeqCst);
        }
    }

    /// Whether both listeners of an interface have read what they accepted of its first n packets.
    fn is_read(&self, interface: u32, n: u64) -> bool {
        let (Some(told), Some(accepted)) = (
            self.told.get(interface as usize),
            ACCEPTED.get(interface as usize),
        ) else {
            return true;
        };
        told.listeners.iter().zip(accepted).all(|(one, accepted)| accepted.get(n as usize)
            == Some(&one.packets.load(SeqCst)))
    }
}

impl<R: Clock> Gate for Watch<'_, R> {
    fn before_arrive(&self, interface: u32, n: u64) {
        let Some(told) = self.of(interface) else {
            return;
        };
        self.expects(told.began.fetch_add(1, SeqCst) == n && told.arrived.load(SeqCst) == n);
    }

    fn after_arrive(&self, interface: u32, n: u64) {
        let Some(told) = self.of(interface) else {
            return;
        };
        self.expects(told.arrived.fetch_add(1, SeqCst) == n);
        for _ in 0..MAX_TURNS {
            if self.is_read(interface, n.wrapping_add(1)) {
                return;
            }
            thread::sleep(self.rt, Duration::from_millis(1));
        }
        self.expects(false);
    }

    fn before_read(&self, interface: u32, listener: u32) {
        let Some(one) = self.of_one(interface, listener) else {
            return;
        };
        self.expects(one.began.fetch_add(1, SeqCst) == one.read.load(SeqCst));
    }

    fn after_read(&self, interface: u32, listener: u32, packets: u32) {
        let Some(one) = self.of_one(interface, listener) else {
            return;
        };
        one.packets.fetch_add(packets as u64, SeqCst);
        let before = one.read.fetch_add(1, SeqCst);
        self.expects(before.wrapping_add(1) == one.began.load(SeqCst));
    }
}

/// A capture for each frame.
fn one_of_each(alloc: Global, frames: &[[u8; 38]]) -> Result<Vec<TapeSource>, AllocError> {
    let mut captures = Vec::new(alloc);
    for frame in frames {
        captures.push(source_of(capture(alloc, 1, &[*frame])?))?;
    }
    Ok(captures)
}

/// An interface of a capture for each frame, at a listener for TCP and one for all.
fn interface(alloc: Global, frames: &[[u8; 38]]) -> Result<Interface<TapeSource, PaperSink>, Fail> {
    let captures = one_of_each(alloc, frames)?;
    let tcp = task(keeping_tcp()?, 64, 96, sink_with(alloc, usize::MAX));
    let all = task(keeping_all()?, 64, 96, sink_with(alloc, usize::MAX));
    Ok(Interface {
        captures,
        tasks: vec![in alloc; tcp, all]?,
    })
}

/// This many interfaces ended clean.
fn end_clean(
    rt: &impl Abort,
    reports: &[InterfaceReport<TapeSource, PaperSink>],
    interfaces: usize,
) {
    same(rt, reports.len(), interfaces);
    for report in reports {
        same(rt, report.end, InterfaceEnd::Clean);
    }
}

/// This many arrivals of an interface were reported, and for each listener this many packets, each
/// begun and ended.
fn was_told(rt: &impl Abort, told: &Told, arrivals: u64, packets: [u64; 2]) {
    let ends = (told.began.load(SeqCst), told.arrived.load(SeqCst));
    same(rt, ends, (arrivals, arrivals));
    for (one, packets) in told.listeners.iter().zip(packets) {
        same(rt, one.packets.load(SeqCst), packets);
        same(rt, one.began.load(SeqCst), one.read.load(SeqCst));
    }
}

/// The interfaces whose steps are watched.
fn two_interfaces(alloc: Global) -> Result<Vec<Interface<TapeSource, PaperSink>>, Fail> {
    Ok(vec![in alloc;
        interface(alloc, &[TCP_FRAME, UDP_FRAME, TCP_FRAME])?,
        interface(alloc, &[UDP_FRAME, TCP_FRAME])?,
    ]?)
}

#[test]
fn each_step_is_reported_once_with_its_numbers(rt: HostRuntime) -> Result<(), Fail> {
    let watch = Watch::new(&rt);
    let interfaces = two_interfaces(rt.alloc())?;
    let reports = run(&rt, rt.alloc(), interfaces, &watch)?;
    same(&rt, watch.odd.load(SeqCst), 0);
    end_clean(&rt, reports.as_slice(), 2);
    for (told, (arrivals, packets)) in watch.told.iter().zip([(3, [2, 3]), (2, [1, 2])]) {
        was_told(&rt, told, arrivals, packets);
    }
    Ok(())
}
