//! Replays in threads: what is reported, how interfaces and listeners end, and what is refused.
use crate::common::{HEAD, HEADER, Piped, TCP, UDP, counted, joined, listed, same};
use listener::{Mode, OpenFault};
use replay::{
    Gate, Interface, InterfaceEnd, InterfaceReport, ListenerReport, Open, RunFault, Task, TaskEnd,
    run,
};
use savefile::{Fault, Order, Unit};
use std::process::Abort;
use std::sync::Wait;
use std::thread::Threads;

/// A listing that accepts TCP over IPv4, with at most 64 bytes.
const KEEPS_TCP: &str = "6\n40 0 0 12\n21 0 3 2048\n48 0 0 23\n21 0 1 6\n6 0 0 64\n6 0 0 0\n";

/// An interface of a capture of TCP and UDP and of this one, with a task for TCP, whose sink takes 24 bytes at so many calls.
fn interface(
    rt: &(impl Abort + AllocGlobal),
    second: &[&str],
    snap: u32,
    calls: u32,
) -> Interface<Piped, Piped> {
    let first = counted(joined(rt, &[HEADER, HEAD, TCP, HEAD, UDP]), 9, u32::MAX);
    let second = counted(joined(rt, second), 9, u32::MAX);
    let task = Task {
        program: listed(rt, KEEPS_TCP),
        snap,
        capacity: 4_096,
        mode: Mode::Buffered,
        flush_every: 1,
        spares: 2,
        order: Order::Little,
        unit: Unit::Micro,
        sink: counted(Vec::new(rt.alloc()), 24, calls),
    };
    Interface {
        captures: vec![in rt.alloc(); first, second].expect(rt, "memory"),
        tasks: vec![in rt.alloc(); task].expect(rt, "memory"),
    }
}

/// Replays one interface of two sources past a gate: how it and its listener end, the listener's counts, and what its sink took.
fn replayed(
    rt: &(impl Abort + AllocGlobal + Threads + Wait + Sync),
    interface: Interface<Piped, Piped>,
    gate: &(impl Gate + Sync),
) -> (InterfaceEnd, TaskEnd, [u64; 5], Vec<u8>) {
    let interfaces = vec![in rt.alloc(); interface].expect(rt, "memory");
    let reports = run(rt, rt.alloc(), interfaces, gate);
    let mut reports: Vec<InterfaceReport<Piped, Piped>> = reports.expect(rt, "a replay");
    let InterfaceReport {
        end,
        sources,
        mut listeners,
    } = reports.pop().expect(rt, "a report");
    same(rt, (sources.len(), listeners.len()), (2, 1));
    let ListenerReport {
        sink,
        sent,
        received,
        matched,
        dropped,
        written,
        end: task_end,
        ..
    } = listeners.pop().expect(rt, "a listener");
    let counts = [sent, received, matched, dropped, written];
    (end, task_end, counts, sink.into_inner().bytes)
}

#[test]
fn a_replay_writes_what_matched_up_to_a_fault(rt: HostRuntime) {
    let more = (132, [3, 2, 2]);
    let less = (78, [2, 1, 1]);
    let short = InterfaceEnd::Capture(1, Fault::ShortHeader);
    let torn = InterfaceEnd::Capture(1, Fault::TornRecord(0));
    let rows = [
        ([HEADER, HEAD, TCP], InterfaceEnd::Clean, more),
        ([HEADER, "", ""], InterfaceEnd::Clean, less),
        (["", "", ""], short, less),
        ([HEADER, "02000000 000000", ""], torn, less),
    ];
    let head = "d4c3b2a1 02000400 00000000 00000000 40000000 01000000";
    let text = joined(&rt, &[head, HEAD, TCP, HEAD, TCP]);
    for (second, want, (size, [received, matched, written])) in rows {
        let one = interface(&rt, &second, 64, u32::MAX);
        let (end, task_end, counts, bytes) = replayed(&rt, one, &Open);
        same(&rt, (end, task_end), (want, TaskEnd::Clean));
        let want = [size as u64, received, matched, 0, written];
        same(&rt, counts, want);
        same(&rt, Some(bytes.as_slice()), text.as_slice().get(..size));
    }
    // A sink that fails after the header ends its listener alone.
    let one = interface(&rt, &[HEADER], 64, 1);
    let (end, task_end, counts, bytes) = replayed(&rt, one, &Open);
    same(
        &rt,
        (end, task_end),
        (InterfaceEnd::Clean, TaskEnd::Write(24)),
    );
    same(&rt, (counts[0], counts[4], bytes.len()), (24, 0, 24));
}

#[test]
fn the_first_refusal_is_named(rt: HostRuntime) {
    // What the replay calls.
    Gate::before_arrive(&Open, 0, 0);
    Gate::after_arrive(&Open, 0, 0);
    Gate::before_read(&Open, 0, 0);
    Gate::after_read(&Open, 0, 0, 0);
    let snapshot = RunFault::Open(0, 0, OpenFault::BadSnap);
    let rows = [
        (17, 0, RunFault::TooMany),
        (2, 0, snapshot),
        (1, 262_145, snapshot),
    ];
    for (count, snap, want) in rows {
        let mut interfaces = Vec::new(rt.alloc());
        for _ in 0..count {
            let one = interface(&rt, &[HEADER], snap, u32::MAX);
            interfaces.push(one).expect(&rt, "memory");
        }
        let refused = run(&rt, rt.alloc(), interfaces, &Open).err();
        same(&rt, refused, Some(want));
    }
}
