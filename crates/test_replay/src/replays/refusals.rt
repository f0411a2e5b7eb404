//! What is refused, before anything is read or written.

use super::*;
use listener::OpenFault;
use replay::RunFault;
use std::sync::atomic::AtomicU64;
use std::sync::atomic::Ordering::SeqCst;

/// A device that ends at once, and takes everything. It counts its calls.
#[derive(Drop)]
struct CountedCalls<'a> {
    calls: &'a AtomicU64,
}

impl Read for CountedCalls<'_> {
    fn read(&mut self, _to: &mut [u8]) -> io::Result<usize> {
        self.calls.fetch_add(1, SeqCst);
        Ok(0)
    }
}

impl Write for CountedCalls<'_> {
    fn write(&mut self, from: &[u8]) -> io::Result<usize> {
        self.calls.fetch_add(1, SeqCst);
        Ok(from.len())
    }

    fn flush(&mut self) -> io::Result<()> {
        Ok(())
    }
}

type CallCounter<'a> = Counted<CountedCalls<'a>>;

fn tally(calls: &AtomicU64) -> CallCounter<'_> {
    Counted::new(CountedCalls { calls })
}

/// This many devices.
fn tallies(
    alloc: Global,
    calls: &AtomicU64,
    devices: usize,
) -> Result<Vec<CallCounter<'_>>, AllocError> {
    let mut made = Vec::new(alloc);
    for _ in 0..devices {
        made.push(tally(calls))?;
    }
    Ok(made)
}

/// A task with this snapshot length, capacity and number of spare buffers.
fn task_of(calls: &AtomicU64, numbers: (u32, usize, usize)) -> Result<Task<CallCounter<'_>>, Fail> {
    let (snap, capacity, spares) = numbers;
    let mut one = task(keeping_all()?, snap, capacity, tally(calls));
    one.spares = spares;
    Ok(one)
}

/// An interface with this many captures, and a task for each snapshot length, capacity and number
/// of spare buffers.
fn interface<'a>(
    alloc: Global,
    calls: &'a AtomicU64,
    captures: usize,
    tasks: &[(u32, usize, usize)],
) -> Result<Interface<CallCounter<'a>, CallCounter<'a>>, Fail> {
    let captures = tallies(alloc, calls, captures)?;
    let mut made = Vec::new(alloc);
    for numbers in tasks {
        made.push(task_of(calls, *numbers)?)?;
    }
    Ok(Interface {
        captures,
        tasks: made,
    })
}

/// This many interfaces, with this many captures each, and one valid task.
fn interfaces_of_one_task(
    alloc: Global,
    calls: &AtomicU64,
    interfaces: usize,
    captures: usize,
) -> Result<Vec<Interface<CallCounter<'_>, CallCounter<'_>>>, Fail> {
    let mut made = Vec::new(alloc);
    for _ in 0..interfaces {
        made.push(interface(alloc, calls, captures, &[RIGHT])?)?;
    }
    Ok(made)
}

/// Tests that a replay is refused, with this fault, and that nothing was read or written.
fn refuses(
    rt: &(impl Abort + AllocGlobal + Threads + Wait + Sync),
    calls: &AtomicU64,
    interfaces: Vec<Interface<CallCounter<'_>, CallCounter<'_>>>,
    want: RunFault,
) {
    match run(rt, rt.alloc(), interfaces, &Open) {
        Ok(_) => panic!(rt; "it ran"),
        Err(fault) => same(rt, fault, want),
    }
    same(rt, calls.load(SeqCst), 0);
}

/// Tests that two interfaces of a capture each, with these tasks, are refused so.
fn refuses_two(
    rt: &(impl Abort + AllocGlobal + Threads + Wait + Sync),
    first: &[(u32, usize, usize)],
    second: &[(u32, usize, usize)],
    want: RunFault,
) -> Result<(), Fail> {
    let calls = AtomicU64::new(0);
    let interfaces = vec![in rt.alloc();
        interface(rt.alloc(), &calls, 1, first)?,
        interface(rt.alloc(), &calls, 1, second)?,
    ]?;
    refuses(rt, &calls, interfaces, want);
    Ok(())
}

/// A valid task.
const RIGHT: (u32, usize, usize) = (1, 40, 1);

#[test]
fn spares_of_zero_or_65_are_refused(rt: HostRuntime) -> Result<(), Fail> {
    let first = RunFault::Open(0, 0, OpenFault::BadCapacity);
    refuses_two(&rt, &[(1, 40, 0)], &[], first)?;
    refuses_two(&rt, &[(1, 40, 65)], &[], first)
}

#[test]
fn the_first_of_several_refusals_is_reported(rt: HostRuntime) -> Result<(), Fail> {
    let fault = OpenFault::BadSnap;
    refuses_two(&rt, &[(0, 40, 1)], &[], RunFault::Open(0, 0, fault))?;
    refuses_two(&rt, &[(262_145, 0, 0)], &[], RunFault::Open(0, 0, fault))?;
    let wrong = [RIGHT, RIGHT, (0, 40, 1), (1, 39, 1)];
    refuses_two(&rt, &[RIGHT], &wrong, RunFault::Open(1, 2, fault))?;
    let fault = OpenFault::BadCapacity;
    refuses_two(&rt, &[(1, 39, 1)], &wrong, RunFault::Open(0, 0, fault))?;
    refuses_two(
        &rt,
        &[RIGHT, (1, 1_048_577, 1)],
        &wrong,
        RunFault::Open(0, 1, fault),
    )?;
    // too many are reported first
    refuses_two(&rt, &[(0, 0, 0)], &[RIGHT; 65], RunFault::TooMany)
}

#[test]
fn seventeen_interfaces_are_too_many(rt: HostRuntime) -> Result<(), Fail> {
    let calls = AtomicU64::new(0);
    let interfaces = interfaces_of_one_task(rt.alloc(), &calls, 17, 1)?;
    refuses(&rt, &calls, interfaces, RunFault::TooMany);
    Ok(())
}

#[test]
fn too_many_captures_are_refused(rt: HostRuntime) -> Result<(), Fail> {
    let calls = AtomicU64::new(0);
    let interfaces = vec![in rt.alloc(); interface(rt.alloc(), &calls, 65_537, &[RIGHT])?]?;
    refuses(&rt, &calls, interfaces, RunFault::TooMany);
    Ok(())
}

/// The first of 65,536 captures ended an interface, and each of its 64 tasks is clean and wrote its
/// header.
fn ends_at_the_first_capture(
    rt: &impl Abort,
    report: &InterfaceReport<CallCounter<'_>, CallCounter<'_>>,
) {
    let fault = savefile::Fault::ShortHeader;
    same(rt, report.end, InterfaceEnd::Capture(0, fault));
    same(
        rt,
        (report.sources.len(), report.listeners.len()),
        (65_536, 64),
    );
    for listener in &report.listeners {
        same(rt, (listener.sent, listener.end), (24, TaskEnd::Clean));
    }
}

/// 64 tasks, and 65,536 captures of which the first has no header, are replayed.
fn replays_the_most_captures_and_tasks(
    rt: &(impl Abort + AllocGlobal + Threads + Wait + Sync),
) -> Result<(), Fail> {
    let calls = AtomicU64::new(0);
    let mut tasks = [RIGHT; 64];
    tasks[0] = (1, 40, 64);
    let interfaces = vec![in rt.alloc(); interface(rt.alloc(), &calls, 65_536, &tasks)?]?;
    let reports = run(rt, rt.alloc(), interfaces, &Open)?;
    ends_at_the_first_capture(rt, at(rt, reports.as_slice(), 0));
    // only the first source was read, once, and each header was written at one go
    same(rt, calls.load(SeqCst), 65);
    Ok(())
}

/// This many interfaces of one task each ended clean.
fn end_clean(
    rt: &impl Abort,
    reports: &[InterfaceReport<CallCounter<'_>, CallCounter<'_>>],
    interfaces: usize,
) {
    same(rt, reports.len(), interfaces);
    for report in reports {
        let told = (report.end, report.listeners.len());
        same(rt, told, (InterfaceEnd::Clean, 1));
    }
}

fn replays_the_most_interfaces(
    rt: &(impl Abort + AllocGlobal + Threads + Wait + Sync),
) -> Result<(), Fail> {
    let calls = AtomicU64::new(0);
    let interfaces = interfaces_of_one_task(rt.alloc(), &calls, 16, 0)?;
    let reports = run(rt, rt.alloc(), interfaces, &Open)?;
    end_clean(rt, reports.as_slice(), 16);
    same(rt, calls.load(SeqCst), 16);
    Ok(())
}

#[test]
fn the_most_of_everything_is_replayed(rt: HostRuntime) -> Result<(), Fail> {
    replays_the_most_captures_and_tasks(&rt)?;
    replays_the_most_interfaces(&rt)
}

#[test]
fn faults_are_reported_by_name_and_place(rt: HostRuntime) -> Result<(), Fail> {
    for (fault, want) in [
        (RunFault::TooMany, "TooMany"),
        (
            RunFault::Open(0, 0, OpenFault::BadCapacity),
            "Open 0 0 BadCapacity",
        ),
        (
            RunFault::Open(15, 63, OpenFault::BadSnap),
            "Open 15 63 BadSnap",
        ),
        (RunFault::NoStart, "NoStart"),
    ] {
        let text = format!(in rt.alloc(); "{fault}")?;
        same(&rt, text.as_str(), want);
    }
    Ok(())
}
