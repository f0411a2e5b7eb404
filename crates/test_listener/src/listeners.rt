//! Worked examples of buffers and listeners.

mod caller;
mod plain;

use crate::same::same;
use crate::shown::{BYTES, keeping, put_places, put_state, told};
use listener::{Buffer, Fed, Listener, Mode, OpenFault, Read, Record, kept_of};
use savefile::PacketRef;
use std::alloc::{AllocError, Global};
use std::process::Abort;
use std::test::Fail;

/// A packet of one second and these bytes.
fn packet(bytes: &[u8]) -> PacketRef<'_> {
    PacketRef {
        sec: 1,
        nanos: 0,
        len: 60,
        bytes,
    }
}

/// Adds what a read of a listener answers.
fn put_read(alloc: Global, listener: &mut Listener, out: &mut String) -> Result<(), Fail> {
    let empty = Buffer::new(alloc, listener.capacity())?;
    match listener.read(empty) {
        Read::Full(buffer) => {
            out.push_str("Full")?;
            put_places(&buffer, out)?;
        }
        Read::Nothing(_) => out.push_str("Nothing")?,
    }
    Ok(())
}

/// Adds what a listener answers to one step of a script: `a` is an arrival of 60 bytes, `f` a
/// flush, `r` a read and `c` a close.
fn put_answer(
    alloc: Global,
    listener: &mut Listener,
    step: char,
    place: u64,
    out: &mut String,
) -> Result<(), Fail> {
    match step {
        'a' if listener.counts().received < u64::MAX => {
            write!(out, "{:?}", listener.arrive_ref(0, place, &packet(&BYTES)))?;
        }
        'f' => write!(out, "{}", listener.flush())?,
        'r' => put_read(alloc, listener, out)?,
        _ => {
            listener.close();
            out.push_str("closed")?;
        }
    }
    out.push_str(", ")?;
    Ok(())
}

/// Adds what a listener answers to a script.
fn put_answers(
    alloc: Global,
    listener: &mut Listener,
    script: &str,
    out: &mut String,
) -> Result<(), Fail> {
    let mut place = 0;
    for one in script.chars() {
        put_answer(alloc, listener, one, place, out)?;
        if one == 'a' {
            place = place.wrapping_add(1);
        }
    }
    Ok(())
}

/// What a listener answers to a script, what it has then, and its counts.
fn play(alloc: Global, listener: &mut Listener, script: &str) -> Result<String, Fail> {
    let mut out = String::new(alloc);
    put_answers(alloc, listener, script, &mut out)?;
    let (hold, store) = listener.buffers();
    put_state(hold, store, listener.counts(), &mut out)?;
    Ok(out)
}

/// A listener of snapshot length 32 that accepts each packet.
fn keeping_all(alloc: Global, capacity: usize, mode: Mode) -> Result<Listener, Fail> {
    let program = keeping(262_144)?;
    Ok(Listener::open_as(alloc, program, 32, capacity, mode)?)
}

/// What such a listener answers to a script, what it has then, and its counts.
fn told_of(alloc: Global, capacity: usize, mode: Mode, script: &str) -> Result<String, Fail> {
    let mut listener = keeping_all(alloc, capacity, mode)?;
    play(alloc, &mut listener, script)
}

/// A script is played so at such a listener.
fn played(
    rt: &(impl Abort + AllocGlobal),
    capacity: usize,
    mode: Mode,
    script: &str,
    want: &str,
) -> Result<(), Fail> {
    let told = told_of(rt.alloc(), capacity, mode, script)?;
    same(rt, told.as_str(), want);
    Ok(())
}

#[test]
fn a_full_store_rotates_and_then_drops(rt: HostRuntime) -> Result<(), Fail> {
    played(
        &rt,
        64,
        Mode::Buffered,
        "aaara",
        "Stored, Rotated, Dropped, Full 0, Rotated, held 1, stored 3; 4 4 1",
    )
}

#[test]
fn a_store_that_is_just_full_stores(rt: HostRuntime) -> Result<(), Fail> {
    played(
        &rt,
        128,
        Mode::Buffered,
        "aarfcarcf",
        "Stored, Stored, Nothing, true, closed, Closed, Nothing, closed, false, held 0 1, stored; 2 2 0",
    )
}

#[test]
fn each_mode_hands_over_in_its_way(rt: HostRuntime) -> Result<(), Fail> {
    played(
        &rt,
        128,
        Mode::Immediate,
        "aaaararacar",
        "Held, Stored, Stored, Dropped, Full 0, Rotated, Full 1 2, Held, closed, Closed, Nothing, held 4 5, stored; 6 6 1",
    )?;
    played(
        &rt,
        128,
        Mode::Buffered,
        "aaaararacar",
        "Stored, Stored, Rotated, Stored, Full 0 1, Rotated, Full 2 3, Stored, closed, Closed, Nothing, held, stored 4 5; 6 6 0",
    )
}

/// Capture 0, place 1, second 2, 3,000 nanoseconds, 60 bytes on the wire, data aa bb cc.
const RECORD: [u8; 40] = [
    2, 0, 0, 0, 0xb8, 0x0b, 0, 0, 3, 0, 0, 0, 0x3c, 0, 0, 0, 1, 0, 0, 0, 0, 0, 0, 0, 0, 0, 0, 0, 0,
    0, 0, 0, 0xaa, 0xbb, 0xcc, 0, 0, 0, 0, 0,
];

/// This many bytes: 0, 1, 2 and on.
fn numbered(alloc: Global, len: usize) -> Result<Vec<u8>, AllocError> {
    let mut bytes = Vec::new(alloc);
    for i in 0..len {
        bytes.push((i % 256) as u8)?;
    }
    Ok(bytes)
}

/// Puts the first bytes of a packet into a buffer.
fn put(
    rt: &impl Abort,
    buffer: &mut Buffer,
    capture: u32,
    place: u64,
    packet: &PacketRef<'_>,
    kept: u32,
) -> bool {
    assert!(rt; kept <= 262_144);
    assert!(rt; kept as usize <= packet.bytes.len());
    buffer.put_ref(capture, place, packet, kept)
}

/// Puts a packet of the data of `RECORD`, of a capture's first interface, and says whether it found
/// room.
fn put_three(rt: &impl Abort, buffer: &mut Buffer, place: u64, kept: u32) -> bool {
    let packet = PacketRef {
        sec: 2,
        nanos: 3000,
        len: 60,
        bytes: &[0xaa, 0xbb, 0xcc],
    };
    put(rt, buffer, 0, place, &packet, kept)
}

/// A buffer has these bytes and this many records.
fn has(rt: &impl Abort, buffer: &Buffer, bytes: &[u8], len: usize) {
    assert!(rt; buffer.bytes() == bytes);
    same(rt, buffer.len(), len);
}

/// A record of three bytes finds its room in an empty buffer of 40 bytes.
fn is_filled(rt: &impl Abort, buffer: &mut Buffer) {
    assert!(rt; buffer.is_empty());
    same(rt, buffer.capacity(), 40);
    assert!(rt; buffer.fits(3));
    assert!(rt; put_three(rt, buffer, 1, 3));
    has(rt, buffer, &RECORD, 1);
}

/// A full buffer has no room for a record without data.
fn is_full(rt: &impl Abort, buffer: &mut Buffer) {
    assert!(rt; !buffer.fits(0));
    assert!(rt; !put_three(rt, buffer, 2, 0));
    has(rt, buffer, &RECORD, 1);
}

#[test]
fn a_record_has_its_bytes(rt: HostRuntime) -> Result<(), Fail> {
    let mut buffer = Buffer::new(rt.alloc(), 40)?;
    is_filled(&rt, &mut buffer);
    is_full(&rt, &mut buffer);
    // emptied, it has the same room again
    buffer.clear();
    has(&rt, &buffer, &[], 0);
    is_filled(&rt, &mut buffer);
    Ok(())
}

/// A record shows the greatest fields, and these bytes.
fn shows(rt: &impl Abort, record: Record<'_>, bytes: &[u8]) {
    assert!(rt; (record.capture, record.place) == (u32::MAX - 2, u64::MAX - 3));
    assert!(rt; (record.sec, record.nanos) == (u32::MAX, 999_999_999));
    assert!(rt; record.len == u32::MAX - 1 && record.bytes == bytes);
}

/// A buffer with a record of the greatest fields, of the first 25 of these bytes.
fn greatest(rt: &(impl Abort + AllocGlobal), data: &[u8]) -> Result<Buffer, OpenFault> {
    let mut buffer = Buffer::new(rt.alloc(), 64)?;
    let packet = PacketRef {
        sec: u32::MAX,
        nanos: 999_999_999,
        len: u32::MAX - 1,
        bytes: data,
    };
    assert!(rt; put(rt, &mut buffer, u32::MAX - 2, u64::MAX - 3, &packet, 25));
    Ok(buffer)
}

/// The one record of a buffer, and the message made of it, show the greatest fields and these
/// bytes.
fn each_shows(
    rt: &(impl Abort + AllocGlobal),
    buffer: &Buffer,
    bytes: &[u8],
) -> Result<(), AllocError> {
    same(rt, buffer.bytes().len(), 64);
    same(rt, buffer.len(), 1);
    for record in buffer.records() {
        shows(rt, record, bytes);
        let message = record.to_message(rt.alloc())?;
        shows(rt, message.as_record(), bytes);
    }
    Ok(())
}

#[test]
fn records_show_what_was_put(rt: HostRuntime) -> Result<(), Fail> {
    let data = numbered(rt.alloc(), 60)?;
    let buffer = greatest(&rt, &data)?;
    let want = numbered(rt.alloc(), 25)?;
    each_shows(&rt, &buffer, &want)?;
    Ok(())
}

/// A record with this much data takes this much of a buffer of that capacity, or finds no room in
/// it.
fn takes(
    rt: &(impl Abort + AllocGlobal),
    packet: &PacketRef<'_>,
    kept: u32,
    capacity: usize,
    want: usize,
) -> Result<(), Fail> {
    let mut buffer = Buffer::new(rt.alloc(), capacity)?;
    put(rt, &mut buffer, 0, 0, packet, kept);
    same(
        rt,
        (kept, capacity, buffer.bytes().len()),
        (kept, capacity, want),
    );
    Ok(())
}

/// How many bytes of data, the capacity of a buffer, and how many bytes of it the record takes.
const SIZES: [(u32, usize, usize); 9] = [
    (0, 40, 32),
    (1, 40, 40),
    (24, 56, 56),
    (24, 55, 0),
    (25, 64, 64),
    (25, 63, 0),
    (32, 64, 64),
    (262_144, 262_176, 262_176),
    (262_144, 262_175, 0),
];

/// Records of a packet take their sizes.
fn take_their_sizes(rt: &(impl Abort + AllocGlobal), packet: &PacketRef<'_>) -> Result<(), Fail> {
    for (kept, capacity, want) in SIZES {
        takes(rt, packet, kept, capacity, want)?;
    }
    Ok(())
}

#[test]
fn a_record_takes_its_size(rt: HostRuntime) -> Result<(), Fail> {
    let data = numbered(rt.alloc(), 262_144)?;
    take_their_sizes(&rt, &packet(&data))
}

/// Capacities, and how a buffer of each is made.
const BUFFERS: [(usize, &str); 6] = [
    (39, "BadCapacity"),
    (40, "Ok"),
    (1_048_576, "Ok"),
    (1_048_577, "BadCapacity"),
    (0, "BadCapacity"),
    (usize::MAX, "BadCapacity"),
];

/// Snapshot lengths and capacities, and how a listener with each is opened.
const LISTENERS: [(u32, usize, &str); 12] = [
    (0, 64, "BadSnap"),
    (0, 0, "BadSnap"),
    (262_145, 1_048_576, "BadSnap"),
    (u32::MAX, 0, "BadSnap"),
    (1, 40, "Ok"),
    (1, 39, "BadCapacity"),
    (10, 48, "Ok"),
    (10, 47, "BadCapacity"),
    (262_144, 262_176, "Ok"),
    (262_144, 262_175, "BadCapacity"),
    (262_144, 1_048_576, "Ok"),
    (1, 1_048_577, "BadCapacity"),
];

/// How a listener is opened, in the mode that is given or in none.
fn opened(alloc: Global, snap: u32, capacity: usize, mode: Option<Mode>) -> Result<String, Fail> {
    let program = keeping(1)?;
    let answer = match mode {
        Some(mode) => Listener::open_as(alloc, program, snap, capacity, mode),
        None => Listener::open(alloc, program, snap, capacity),
    };
    Ok(told(alloc, answer.err())?)
}

/// A listener is opened so in both modes.
fn opens(
    rt: &(impl Abort + AllocGlobal),
    snap: u32,
    capacity: usize,
    want: &str,
) -> Result<(), Fail> {
    for mode in [None, Some(Mode::Immediate)] {
        let got = opened(rt.alloc(), snap, capacity, mode)?;
        same(rt, (snap, capacity, got.as_str()), (snap, capacity, want));
    }
    Ok(())
}

/// A buffer of that capacity is taken so.
fn is_taken(rt: &(impl Abort + AllocGlobal), capacity: usize, want: &str) -> Result<(), Fail> {
    let got = told(rt.alloc(), Buffer::new(rt.alloc(), capacity).err())?;
    same(rt, (capacity, got.as_str()), (capacity, want));
    Ok(())
}

#[test]
fn capacities_of_buffers_have_their_range(rt: HostRuntime) -> Result<(), Fail> {
    for (capacity, want) in BUFFERS {
        is_taken(&rt, capacity, want)?;
    }
    Ok(())
}

#[test]
fn capacities_and_snapshot_lengths_of_listeners_have_their_ranges(
    rt: HostRuntime,
) -> Result<(), Fail> {
    for (snap, capacity, want) in LISTENERS {
        opens(&rt, snap, capacity, want)?;
    }
    Ok(())
}

/// A filter that keeps `most` keeps this many of these bytes, at snapshot length 32.
fn keeps(rt: &impl Abort, most: u32, bytes: &[u8], want: Option<u32>) -> Result<(), Fail> {
    same(rt, kept_of(&keeping(most)?, &32, &packet(bytes)), want);
    Ok(())
}

#[test]
fn a_filter_keeps_the_least_of_three_lengths(rt: HostRuntime) -> Result<(), Fail> {
    let (long, short) = ([7; 60], [7; 10]);
    keeps(&rt, 40, &long, Some(32))?;
    keeps(&rt, 20, &long, Some(20))?;
    keeps(&rt, 40, &short, Some(10))?;
    keeps(&rt, 0, &long, None)
}

/// The answer, or a failed test that names its fault.
fn made<T: Drop>(rt: &impl Abort, answer: Result<T, OpenFault>) -> T {
    match answer {
        Ok(value) => value,
        Err(fault) => panic!(rt; "{fault}"),
    }
}

fn six_arrive(rt: &impl Abort, listener: &mut Listener) {
    for place in 0..6 {
        assert!(rt; listener.counts().received < u64::MAX);
        listener.arrive_ref(0, place, &packet(&[7; 60]));
    }
}

// By hand: with `rt try --test --fail-alloc N` this prints NoMemory for N of 1 and 2, the two
// buffers of the listener, and of 3, the buffer that is given; for every other N it passes, since
// nothing else takes memory.
#[test]
fn only_opening_takes_memory(rt: HostRuntime) -> Result<(), Fail> {
    let mut listener = made(&rt, Listener::open(rt.alloc(), keeping(64)?, 32, 128));
    six_arrive(&rt, &mut listener);
    let Ok(empty) = Buffer::new(rt.alloc(), listener.capacity()) else {
        panic!(rt; "NoMemory")
    };
    listener.read(empty);
    listener.flush();
    listener.close();
    same(&rt, listener.counts().dropped, 2);
    Ok(())
}

/// Takes what may be sent to another thread and dropped there.
fn takes_what_is_sent<T: Send + Drop>(_value: T) {}

#[test]
fn values_may_be_sent(rt: HostRuntime) -> Result<(), Fail> {
    takes_what_is_sent(Buffer::new(rt.alloc(), 40)?);
    takes_what_is_sent(Listener::open(rt.alloc(), keeping(1)?, 1, 40)?);
    Ok(())
}
