//! The example of the page of `replay`, README.md.

use super::at;
use bpfvm::read_listing;
use listener::Mode;
use replay::{Interface, ListenerReport, Open, Task, run};
use savefile::{Counted, Order, Unit};
use std::alloc::Global;
use std::process::Abort;
use std::sync::Wait;
use std::test::Fail;
use std::thread::Threads;

/// A task that keeps what a listing accepts, cut to 96 bytes, in memory.
fn task_for(alloc: Global, listing: &[u8]) -> Result<Task<Counted<Vec<u8>>>, Fail> {
    Ok(Task {
        program: read_listing(listing)?,
        snap: 96,
        capacity: 1_048_576,
        mode: Mode::Buffered,
        flush_every: 0,
        spares: 8,
        order: Order::Little,
        unit: Unit::Micro,
        sink: Counted::new(Vec::new(alloc)),
    })
}

/// An interface with one capture, and a task for each listing.
fn interface_for<'a>(
    alloc: Global,
    listings: &[&[u8]],
    capture: &'a [u8],
) -> Result<Interface<&'a [u8], Counted<Vec<u8>>>, Fail> {
    let mut tasks = Vec::new(alloc);
    for listing in listings {
        tasks.push(task_for(alloc, listing)?)?;
    }
    Ok(Interface {
        captures: vec![in alloc; capture]?,
        tasks,
    })
}

/// Adds the savefile of each listener, and how many of its packets were lost.
fn add_files(
    files: &mut Vec<(Vec<u8>, u64)>,
    listeners: Vec<ListenerReport<Counted<Vec<u8>>>>,
) -> Result<(), Fail> {
    for listener in listeners {
        files.push((listener.sink.into_inner(), listener.dropped))?;
    }
    Ok(())
}

/// Reads a capture once, and makes a savefile for each listing: the packets that it accepts, cut to 96 bytes, and how many of
/// them were lost.
fn sorted_out<R: Threads + Wait + Sync>(
    rt: &R,
    alloc: Global,
    listings: &[&[u8]],
    capture: &[u8],
) -> Result<Vec<(Vec<u8>, u64)>, Fail> {
    let interfaces = vec![in alloc; interface_for(alloc, listings, capture)?]?;
    let mut files = Vec::new(alloc);
    for report in run(rt, alloc, interfaces, &Open)? {
        add_files(&mut files, report.listeners)?;
    }
    Ok(files)
}

/// A savefile has these bytes, and nothing was lost.
fn has_all(rt: &impl Abort, file: &(Vec<u8>, u64), bytes: &[u8]) {
    let (file, lost) = file;
    assert!(rt; file.as_slice() == bytes);
    assert_eq!(rt; *lost, 0);
}

#[test]
fn the_example_of_the_page(rt: HostRuntime) -> Result<(), Fail> {
    // Ethernet frames of 14 bytes of IPv4 and of ARP; a listing that accepts IPv4, and one that
    // accepts everything
    let capture = [
        0xd4, 0xc3, 0xb2, 0xa1, 2, 0, 4, 0, 0, 0, 0, 0, 0, 0, 0, 0, 96, 0, 0, 0, 1, 0, 0, 0, //
        1, 0, 0, 0, 0, 0, 0, 0, 14, 0, 0, 0, 14, 0, 0, 0, //
        0xff, 0xff, 0xff, 0xff, 0xff, 0xff, 0, 1, 2, 3, 4, 5, 8, 0, //
        2, 0, 0, 0, 0, 0, 0, 0, 14, 0, 0, 0, 14, 0, 0, 0, //
        0xff, 0xff, 0xff, 0xff, 0xff, 0xff, 0, 1, 2, 3, 4, 5, 8, 6,
    ];
    let ip = b"4\n40 0 0 12\n21 0 1 2048\n6 0 0 262144\n6 0 0 0\n";
    let all = b"1\n6 0 0 262144\n";
    let files = sorted_out(&rt, rt.alloc(), &[ip, all], &capture)?;
    assert_eq!(rt; files.len(), 2);
    has_all(&rt, at(&rt, files.as_slice(), 0), &capture[..54]);
    has_all(&rt, at(&rt, files.as_slice(), 1), &capture);
    Ok(())
}
