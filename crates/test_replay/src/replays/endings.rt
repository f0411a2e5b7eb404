//! How interfaces and tasks end.

use super::*;
use savefile::Fault;

/// A task that takes each packet, in buffers with room for all of a small capture.
fn roomy(alloc: Global) -> Result<Task<PaperSink>, Fail> {
    Ok(task(keeping_all()?, 64, 1_024, sink_with(alloc, usize::MAX)))
}

/// This many tasks that have room for all.
fn roomy_tasks(alloc: Global, tasks: usize) -> Result<Vec<Task<PaperSink>>, Fail> {
    let mut made = Vec::new(alloc);
    for _ in 0..tasks {
        made.push(roomy(alloc)?)?;
    }
    Ok(made)
}

/// An interface of these captures, with this many tasks.
fn interface(
    alloc: Global,
    captures: &[Recorded<'_>],
    tasks: usize,
) -> Result<Interface<TapeSource, PaperSink>, Fail> {
    let captures = sources_for(alloc, captures)?;
    Ok(Interface {
        captures,
        tasks: roomy_tasks(alloc, tasks)?,
    })
}

/// Tests that an interface ended so, and that each of its tasks is Clean and wrote these records.
fn ends(
    rt: &(impl Abort + AllocGlobal),
    report: &InterfaceReport<TapeSource, PaperSink>,
    end: InterfaceEnd,
    records: &[(u8, [u8; 38])],
) {
    same(rt, report.end, end);
    let text = written(rt.alloc(), 64, records, 38).expect(rt, "memory");
    let n = records.len();
    let sent = text.len();
    let want = format!(in rt.alloc(); "{sent} {n} {n} 0 {n} Clean").expect(rt, "memory");
    for listener in &report.listeners {
        serves(rt, listener, want.as_str(), text.as_slice());
    }
}

/// Replays one interface with two tasks that have room for all of it.
fn replayed(
    rt: &(impl Abort + AllocGlobal + Threads + Wait + Sync),
    captures: &[Recorded<'_>],
) -> Result<InterfaceReport<TapeSource, PaperSink>, Fail> {
    let report = replay_one(rt, interface(rt.alloc(), captures, 2)?)?;
    same(rt, report.listeners.len(), 2);
    Ok(report)
}

/// Tests how much was read of each source of a report.
fn was_read(
    rt: &(impl Abort + AllocGlobal),
    report: &InterfaceReport<TapeSource, PaperSink>,
    want: &[usize],
) {
    let places: Vec<usize> = report
        .sources
        .iter()
        .map(|source| source.inner.place)
        .collect(rt.alloc())
        .expect(rt, "memory");
    same(rt, places.as_slice(), want);
}

/// This many frames, of TCP and UDP in turn, at seconds from 1 on.
fn frames(alloc: Global, packets: u8) -> Result<Vec<[u8; 38]>, AllocError> {
    let mut frames = Vec::new(alloc);
    for n in 0..packets {
        frames.push(if n % 2 == 0 { TCP_FRAME } else { UDP_FRAME })?;
    }
    Ok(frames)
}

/// A task with buffers of this capacity: another one for each round.
fn varied_task(alloc: Global, capacity: usize, round: u64) -> Result<Task<PaperSink>, Fail> {
    let mut one = task(keeping_tcp()?, 40, capacity, sink_with(alloc, usize::MAX));
    one.spares = 1 + (round % 3) as usize;
    one.flush_every = (round % 5) as u32;
    Ok(one)
}

/// An interface of one capture and 1 to 4 tasks, each with buffers of one to four records: another
/// one for each round.
fn varied(
    alloc: Global,
    packets: u8,
    round: u64,
) -> Result<Interface<TapeSource, PaperSink>, Fail> {
    let text = capture(alloc, 1, frames(alloc, packets)?.as_slice())?;
    let captures = vec![in alloc; source_of(text)]?;
    let mut tasks = Vec::new(alloc);
    for k in 0..1 + round % 4 {
        let capacity = 72 * (1 + (k + round % 4) as usize % 4);
        tasks.push(varied_task(alloc, capacity, round)?)?;
    }
    Ok(Interface { captures, tasks })
}

/// Checks that a task is clean, and that its savefile has as many packets as it reports.
fn is_clean(rt: &impl Abort, listener: &ListenerReport<PaperSink>, packets: u8) {
    let matched = packets.div_ceil(2) as u64;
    same(rt, listener.end, TaskEnd::Clean);
    same(
        rt,
        (listener.received, listener.matched),
        (packets as u64, matched),
    );
    same(rt, listener.written.wrapping_add(listener.dropped), matched);
    same(rt, listener.sent, 24 + 54 * listener.written.min(12));
}

/// Checks that an interface is clean, and each of its tasks, of which there are this many.
fn are_clean(
    rt: &impl Abort,
    report: &InterfaceReport<TapeSource, PaperSink>,
    tasks: u64,
    packets: u8,
) {
    same(rt, report.end, InterfaceEnd::Clean);
    same(rt, report.listeners.len() as u64, tasks);
    for listener in &report.listeners {
        is_clean(rt, listener, packets);
    }
}

#[test]
fn ends_clean_when_nothing_failed(rt: HostRuntime) -> Result<(), Fail> {
    for round in 0..100 {
        let packets = (round % 23) as u8;
        let report = replay_one(&rt, varied(rt.alloc(), packets, round)?)?;
        are_clean(&rt, &report, 1 + round % 4, packets);
    }
    Ok(())
}

const ONE: [[u8; 38]; 1] = [UDP_FRAME];

const TWO: [[u8; 38]; 2] = [TCP_FRAME, UDP_FRAME];

const THREE: [[u8; 38]; 3] = [TCP_FRAME, UDP_FRAME, TCP_FRAME];

/// An interface of two captures of two frames each, at these seconds, with this many tasks.
fn whole(
    alloc: Global,
    secs: [u8; 2],
    tasks: usize,
) -> Result<Interface<TapeSource, PaperSink>, Fail> {
    let captures = [in_full(secs[0], &TWO), in_full(secs[1], &TWO)];
    interface(alloc, &captures, tasks)
}

/// An interface of three captures, the second without a header, with two tasks.
fn headless(alloc: Global) -> Result<Interface<TapeSource, PaperSink>, Fail> {
    let captures = [
        in_full(1, &TWO),
        up_to(0, in_full(1, &[])),
        in_full(8, &TWO),
    ];
    interface(alloc, &captures, 2)
}

/// Checks that the second capture of an interface ended it, and the one after it came back unread.
fn ends_without_a_header(
    rt: &(impl Abort + AllocGlobal),
    report: &InterfaceReport<TapeSource, PaperSink>,
) {
    let end = InterfaceEnd::Capture(1, Fault::ShortHeader);
    ends(rt, report, end, &[(1, TCP_FRAME), (2, UDP_FRAME)]);
    same(rt, report.listeners.len(), 2);
    was_read(rt, report, &[132, 0, 0]);
}

/// Tests that an interface of two whole captures ended clean.
fn ends_whole(rt: &(impl Abort + AllocGlobal), report: &InterfaceReport<TapeSource, PaperSink>) {
    let records = [
        (3, TCP_FRAME),
        (4, UDP_FRAME),
        (5, TCP_FRAME),
        (6, UDP_FRAME),
    ];
    ends(rt, report, InterfaceEnd::Clean, &records);
    same(rt, report.listeners.len(), 1);
    was_read(rt, report, &[132, 132]);
}

#[test]
fn a_refused_header_ends_only_its_interface(rt: HostRuntime) -> Result<(), Fail> {
    let alloc = rt.alloc();
    let interfaces = vec![in alloc; headless(alloc)?, whole(alloc, [3, 5], 1)?]?;
    let reports = run(&rt, alloc, interfaces, &Open)?;
    same(&rt, reports.len(), 2);
    ends_without_a_header(&rt, at(&rt, reports.as_slice(), 0));
    ends_whole(&rt, at(&rt, reports.as_slice(), 1));
    Ok(())
}

#[test]
fn a_torn_record_comes_after_its_packets(rt: HostRuntime) -> Result<(), Fail> {
    // the second at seconds 2 to 4 and without its last byte
    let captures = [
        in_full(1, &ONE),
        up_to(185, in_full(2, &THREE)),
        in_full(9, &THREE),
    ];
    let report = replayed(&rt, &captures)?;
    let end = InterfaceEnd::Capture(1, Fault::TornRecord(2));
    let records = [(1, UDP_FRAME), (2, TCP_FRAME), (3, UDP_FRAME)];
    ends(&rt, &report, end, &records);
    was_read(&rt, &report, &[78, 185, 0]);
    Ok(())
}

/// Three captures, the second with a device that fails at this byte.
fn failing_behind_one(at_byte: usize) -> [Recorded<'static>; 3] {
    let failing = Recorded {
        sec: 2,
        frames: &TWO,
        end: at_byte,
        fails: true,
    };
    [in_full(1, &ONE), failing, in_full(9, &TWO)]
}

/// Checks that this many packets before the byte at which a device fails are written, and no packet
/// after it.
fn writes_before(
    rt: &(impl Abort + AllocGlobal + Threads + Wait + Sync),
    at_byte: usize,
    packets: usize,
) -> Result<(), Fail> {
    let report = replayed(rt, &failing_behind_one(at_byte))?;
    let end = InterfaceEnd::Capture(1, Fault::Device);
    let records = [(1, UDP_FRAME), (2, TCP_FRAME)];
    let records = records.get(..packets).unwrap_or(&[]);
    ends(rt, &report, end, records);
    was_read(rt, &report, &[78, at_byte, 0]);
    same(rt, at(rt, report.sources.as_slice(), 1).failures, 1);
    Ok(())
}

#[test]
fn packets_before_a_failed_source_are_written(rt: HostRuntime) -> Result<(), Fail> {
    // in the second record, directly after the first, in the first, and in the header
    for (at_byte, packets) in [(100, 2), (78, 2), (50, 1), (23, 1), (0, 1)] {
        writes_before(&rt, at_byte, packets)?;
    }
    Ok(())
}

/// An interface of one capture without its last byte, and no task.
fn torn_unheard(alloc: Global) -> Result<Interface<TapeSource, PaperSink>, Fail> {
    interface(alloc, &[up_to(131, in_full(1, &TWO))], 0)
}

/// Tests that an interface with no task ended so.
fn ends_unheard(
    rt: &impl Abort,
    report: &InterfaceReport<TapeSource, PaperSink>,
    end: InterfaceEnd,
) {
    same(rt, (report.end, report.listeners.len()), (end, 0));
}

#[test]
fn captures_are_read_where_nobody_listens(rt: HostRuntime) -> Result<(), Fail> {
    let alloc = rt.alloc();
    let interfaces = vec![in alloc; whole(alloc, [1, 3], 0)?, torn_unheard(alloc)?]?;
    let reports = run(&rt, alloc, interfaces, &Open)?;
    let report = at(&rt, reports.as_slice(), 0);
    ends_unheard(&rt, report, InterfaceEnd::Clean);
    was_read(&rt, report, &[132, 132]);
    let end = InterfaceEnd::Capture(0, Fault::TornRecord(1));
    ends_unheard(&rt, at(&rt, reports.as_slice(), 1), end);
    Ok(())
}

#[test]
fn without_captures_the_header_is_written(rt: HostRuntime) -> Result<(), Fail> {
    let report = replayed(&rt, &[])?;
    ends(&rt, &report, InterfaceEnd::Clean, &[]);
    assert!(rt; report.sources.is_empty());
    Ok(())
}

#[test]
fn without_interfaces_nothing_is_reported(rt: HostRuntime) -> Result<(), Fail> {
    let none: Vec<Interface<TapeSource, PaperSink>> = Vec::new(rt.alloc());
    assert!(rt; run(&rt, rt.alloc(), none, &Open)?.is_empty());
    Ok(())
}

/// An interface of T, U and T, and a task whose sink has this much room.
fn with_room(alloc: Global, room: usize) -> Result<Interface<TapeSource, PaperSink>, Fail> {
    let one = task(keeping_all()?, 64, 1_024, sink_with(alloc, room));
    let tasks = vec![in alloc; one]?;
    Ok(Interface {
        captures: sources_for(alloc, &[in_full(1, &THREE)])?,
        tasks,
    })
}

/// Checks that a task filled its sink's room, and how many packets are reported as written.
fn filled(
    rt: &(impl Abort + AllocGlobal),
    one: &ListenerReport<PaperSink>,
    room: usize,
    count: u64,
) {
    same(rt, one.end, TaskEnd::Write(room as u64));
    same(rt, (one.sent, one.written), (room as u64, count));
    let records = [(1, TCP_FRAME), (2, UDP_FRAME), (3, TCP_FRAME)];
    let whole = written(rt.alloc(), 64, &records, 38).expect(rt, "memory");
    let sent = whole.get(..room).expect(rt, "room for a part");
    same(rt, one.sink.inner.bytes.as_slice(), sent);
}

/// Replays T, U and T to a task whose sink has this much room, and checks how many packets are
/// reported as written.
fn breaks_off(
    rt: &(impl Abort + AllocGlobal + Threads + Wait + Sync),
    room: usize,
    count: u64,
) -> Result<(), Fail> {
    let report = replay_one(rt, with_room(rt.alloc(), room)?)?;
    same(rt, report.end, InterfaceEnd::Clean);
    filled(rt, at(rt, report.listeners.as_slice(), 0), room, count);
    Ok(())
}

#[test]
fn a_packet_counts_as_written_where_it_went_out_whole(rt: HostRuntime) -> Result<(), Fail> {
    // The header has 24 bytes, and each record 54.
    let rooms = [
        (0, 0),
        (10, 0),
        (24, 0),
        (77, 0),
        (78, 1),
        (88, 1),
        (131, 1),
        (132, 2),
        (185, 2),
    ];
    for (room, count) in rooms {
        breaks_off(&rt, room, count)?;
    }
    Ok(())
}
