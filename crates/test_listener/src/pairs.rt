//! Worked examples over the public functions, in one thread.

ghost use Rattle.std.specs.Prelude.{◌≡◌, IfOk};

use crate::same::same;
use crate::shown::{BYTES, keeping, put_places, put_state, told};
use handover::{Drain, DrainEnd, FeedEnd, Feeder, Link, Read, Settled, pair, pair_as, settle};
use listener::{Buffer, Fed, Mode};
use savefile::PacketRef;
use std::alloc::{AllocError, Global};
use std::process::Abort;
use std::test::Fail;

mod caller;
mod dropped;
mod past;
mod threads;

/// A packet of one second, with 60 bytes.
fn packet() -> PacketRef<'static> {
    PacketRef {
        sec: 1,
        nanos: 0,
        len: 60,
        bytes: &BYTES,
    }
}

/// Adds what the feeder answers to one step of a script: `a` is an arrival, and `f` a flush.
fn put_fed(
    link: &Link,
    feeder: &mut Feeder,
    step: char,
    place: u64,
    out: &mut String,
) -> Result<(), AllocError>
    requires { feeder.old.pair ≡ link.now }
    ensures { feeder.new.pair ≡ feeder.old.pair }
{
    if step == 'f' {
        return write!(out, "{}, ", feeder.flush(link));
    }
    if feeder.counts().received == u64::MAX {
        return out.push_str("full");
    }
    write!(out, "{:?}, ", feeder.arrive_ref(link, 0, place, &packet()))
}

/// Adds what a read answered.
fn put_answer(answer: &Read, out: &mut String) -> Result<(), AllocError> {
    match answer {
        Read::Full(buffer) => {
            out.push_str("Full")?;
            put_places(buffer, out)?;
        }
        Read::Nothing(buffer) => write!(out, "Nothing {}", buffer.len())?,
        Read::Ended(buffer) => write!(out, "Ended {}", buffer.len())?,
    }
    out.push_str(", ")
}

/// Adds what the drain answers to a read.
fn put_read(alloc: Global, link: &Link, drain: &mut Drain, out: &mut String) -> Result<(), Fail>
    requires { drain.old.pair ≡ link.now }
    ensures { drain.new.pair ≡ drain.old.pair }
{
    let empty = Buffer::new(alloc, drain.capacity())?;
    let answer = drain.read(link, empty);
    put_answer(&answer, out)?;
    Ok(())
}

/// The steps of a script while both ends are open: `a` is an arrival, `f` a flush and `r` a read.
/// Returns the next place.
fn together(
    alloc: Global,
    link: &Link,
    feeder: &mut Feeder,
    drain: &mut Drain,
    script: &str,
    out: &mut String,
) -> Result<u64, Fail>
    requires { (feeder.old.pair ≡ link.now) × (drain.old.pair ≡ link.now) }
    ensures { (feeder.new.pair ≡ feeder.old.pair) × (drain.new.pair ≡ drain.old.pair) }
{
    let mut place = 0u64;
    for step in script.chars() {
        if step == 'r' {
            put_read(alloc, link, drain, out)?;
        } else {
            put_fed(link, feeder, step, place, out)?;
        }
        if step == 'a' {
            place = place.wrapping_add(1);
        }
    }
    Ok(place)
}

/// The steps of a script at a feeder whose drain has closed.
fn feeds_on(
    link: &Link,
    feeder: &mut Feeder,
    script: &str,
    place: u64,
    out: &mut String,
) -> Result<(), AllocError>
    requires { feeder.old.pair ≡ link.now }
    ensures { feeder.new.pair ≡ feeder.old.pair }
{
    for step in script.chars() {
        put_fed(link, feeder, step, place, out)?;
    }
    Ok(())
}

/// This many reads of a drain whose feeder has ended.
fn reads_on(
    alloc: Global,
    link: &Link,
    drain: &mut Drain,
    reads: usize,
    out: &mut String,
) -> Result<(), Fail>
    requires { drain.old.pair ≡ link.now }
    ensures { drain.new.pair ≡ drain.old.pair }
{
    for _ in 0..reads {
        put_read(alloc, link, drain, out)?;
    }
    Ok(())
}

/// Plays a script, ends the feeder, and reads on.
fn until_ended(
    alloc: Global,
    link: &Link,
    mut feeder: Feeder,
    drain: &mut Drain,
    script: &str,
    reads: usize,
    out: &mut String,
) -> Result<FeedEnd, Fail>
    requires { (feeder.pair ≡ link.now) × (drain.old.pair ≡ link.now) }
    ensures end { IfOk result (λ ended. ended.pair ≡ feeder.pair) }
    ensures drain { drain.new.pair ≡ drain.old.pair }
{
    together(alloc, link, &mut feeder, drain, script, out)?;
    let ended = feeder.end(link);
    out.push_str("end, ")?;
    reads_on(alloc, link, drain, reads, out)?;
    Ok(ended)
}

/// What is left of a pair of snapshot length 32 and capacity 64 whose feeder ended.
fn left_of_ended(
    alloc: Global,
    mode: Mode,
    script: &str,
    reads: usize,
    out: &mut String,
) -> Result<Settled, Fail> {
    let (link, feeder, mut drain) = pair_as(alloc, keeping(32)?, 32, 64, mode)?;
    let feeder = until_ended(alloc, &link, feeder, &mut drain, script, reads, out)?;
    let drain = drain.close(&link);
    Ok(settle(link, feeder, drain))
}

/// What a pair of snapshot length 32 and capacity 64 answers to a script, then, once its feeder has
/// ended, to this many reads, and what is left of it.
fn ended(
    rt: &(impl Abort + AllocGlobal),
    mode: Mode,
    script: &str,
    reads: usize,
    want: &str,
) -> Result<(), Fail> {
    let mut out = String::new(rt.alloc());
    let settled = left_of_ended(rt.alloc(), mode, script, reads, &mut out)?;
    put_state(&settled.hold, &settled.rest, settled.counts, &mut out)?;
    same(rt, out.as_str(), want);
    Ok(())
}

/// Plays a script, closes the drain, and feeds on by a second script.
fn until_closed(
    alloc: Global,
    link: &Link,
    feeder: &mut Feeder,
    mut drain: Drain,
    script: &str,
    behind: &str,
    out: &mut String,
) -> Result<DrainEnd, Fail>
    requires { (feeder.old.pair ≡ link.now) × (drain.pair ≡ link.now) }
    ensures end { IfOk result (λ end. end.pair ≡ drain.pair) }
    ensures feeder { feeder.new.pair ≡ feeder.old.pair }
{
    let place = together(alloc, link, feeder, &mut drain, script, out)?;
    let drain = drain.close(link);
    out.push_str("close, ")?;
    feeds_on(link, feeder, behind, place, out)?;
    Ok(drain)
}

/// What is left of a pair of snapshot length 32 and capacity 64 whose drain closed first.
fn left_of_closed(
    alloc: Global,
    most: u32,
    script: &str,
    behind: &str,
    out: &mut String,
) -> Result<Settled, Fail> {
    let (link, mut feeder, drain) = pair(alloc, keeping(most)?, 32, 64)?;
    let drain = until_closed(alloc, &link, &mut feeder, drain, script, behind, out)?;
    let feeder = feeder.end(&link);
    Ok(settle(link, feeder, drain))
}

/// What such a pair answers if the drain closes first, and the feeder goes on with a second script.
fn closed(
    rt: &(impl Abort + AllocGlobal),
    most: u32,
    script: &str,
    behind: &str,
    want: &str,
) -> Result<(), Fail> {
    let mut out = String::new(rt.alloc());
    let settled = left_of_closed(rt.alloc(), most, script, behind, &mut out)?;
    put_state(&settled.hold, &settled.rest, settled.counts, &mut out)?;
    same(rt, out.as_str(), want);
    Ok(())
}

#[test]
fn a_full_store_rotates_and_then_drops(rt: HostRuntime) -> Result<(), Fail> {
    ended(
        &rt,
        Mode::Buffered,
        "araarfa",
        2,
        "Stored, Nothing 0, Rotated, Dropped, Full 0, true, Stored, end, Full 1, Ended 0, held, stored 3; 4 4 1",
    )
}

#[test]
fn an_immediate_pair_hands_over_at_once(rt: HostRuntime) -> Result<(), Fail> {
    ended(
        &rt,
        Mode::Immediate,
        "arraaa",
        2,
        "Held, Full 0, Nothing 0, Held, Stored, Dropped, end, Full 1, Ended 0, held, stored 2; 4 4 1",
    )
}

#[test]
fn a_flush_wants_a_full_store_and_an_empty_hold(rt: HostRuntime) -> Result<(), Fail> {
    ended(
        &rt,
        Mode::Buffered,
        "fafafr",
        0,
        "false, Stored, true, Stored, false, Full 0, end, held, stored 1; 2 2 0",
    )?;
    ended(
        &rt,
        Mode::Immediate,
        "afaf",
        1,
        "Held, false, Stored, false, end, Full 0, held, stored 1; 2 2 0",
    )
}

#[test]
fn a_closed_pair_takes_nothing(rt: HostRuntime) -> Result<(), Fail> {
    closed(
        &rt,
        262_144,
        "",
        "af",
        "close, Closed, false, held, stored; 0 0 0",
    )?;
    closed(
        &rt,
        262_144,
        "aaa",
        "afa",
        "Stored, Rotated, Dropped, close, Closed, false, Closed, held 0, stored 1; 3 3 1",
    )
}

#[test]
fn a_rejected_packet_is_received_and_no_more(rt: HostRuntime) -> Result<(), Fail> {
    closed(
        &rt,
        0,
        "aar",
        "a",
        "Passed, Passed, Nothing 0, close, Closed, held, stored; 2 0 0",
    )
}

/// Snapshot lengths and capacities, and how a pair with each is made.
const PAIRS: [(u32, usize, &str); 8] = [
    (0, 64, "BadSnap"),
    (262_145, 0, "BadSnap"),
    (1, 40, "Ok"),
    (1, 39, "BadCapacity"),
    (10, 47, "BadCapacity"),
    (262_144, 262_176, "Ok"),
    (262_144, 1_048_576, "Ok"),
    (1, 1_048_577, "BadCapacity"),
];

/// Tests how a pair with a snapshot length and a capacity is made, in this mode.
fn is_made(
    rt: &(impl Abort + AllocGlobal),
    snap: u32,
    capacity: usize,
    mode: Mode,
    want: &str,
) -> Result<(), Fail> {
    let made = pair_as(rt.alloc(), keeping(1)?, snap, capacity, mode);
    let got = told(rt.alloc(), made.err())?;
    same(rt, (snap, capacity, got.as_str()), (snap, capacity, want));
    Ok(())
}

/// What `pair` makes.
fn is_made_buffered(
    rt: &(impl Abort + AllocGlobal),
    snap: u32,
    capacity: usize,
    want: &str,
) -> Result<(), Fail> {
    let got = told(
        rt.alloc(),
        pair(rt.alloc(), keeping(1)?, snap, capacity).err(),
    )?;
    same(rt, (snap, capacity, got.as_str()), (snap, capacity, want));
    Ok(())
}

#[test]
fn capacities_and_snapshot_lengths_have_their_ranges(rt: HostRuntime) -> Result<(), Fail> {
    for (snap, capacity, want) in PAIRS {
        is_made_buffered(&rt, snap, capacity, want)?;
        is_made(&rt, snap, capacity, Mode::Immediate, want)?;
    }
    Ok(())
}

fn arrive(link: &Link, feeder: &mut Feeder, place: u64) -> Option<Fed>
    requires { feeder.old.pair ≡ link.now }
    ensures { feeder.new.pair ≡ feeder.old.pair }
{
    if feeder.counts().received == u64::MAX {
        return None;
    }
    Some(feeder.arrive_ref(link, 0, place, &packet()))
}

// By hand: with `rt try --test --fail-alloc N` this prints NoMemory for N of 1 to 5, what the pair
// takes (two buffers, the row of slots that the table is given, its words and its slot), and of 6,
// the buffer that is given; for every other N it passes, since nothing else takes memory.
#[test]
fn only_the_pair_takes_memory(rt: HostRuntime) -> Result<(), Fail> {
    let Ok((link, mut feeder, mut drain)) = pair(rt.alloc(), keeping(64)?, 32, 64) else {
        panic!(rt; "NoMemory")
    };
    let Ok(empty) = Buffer::new(rt.alloc(), drain.capacity()) else {
        panic!(rt; "NoMemory")
    };
    same(&rt, arrive(&link, &mut feeder, 0), Some(Fed::Stored));
    same(&rt, arrive(&link, &mut feeder, 1), Some(Fed::Rotated));
    same(&rt, arrive(&link, &mut feeder, 2), Some(Fed::Dropped));
    drain.read(&link, empty);
    assert!(rt; feeder.flush(&link));
    let drain = drain.close(&link);
    let feeder = feeder.end(&link);
    let settled = settle(link, feeder, drain);
    same(&rt, settled.counts.dropped, 1);
    Ok(())
}

/// Takes what may be sent to another thread and dropped there.
fn takes_what_is_sent<T: Send + Drop>(_value: T) {}

/// Takes what threads may share.
fn takes_what_is_shared<T: Sync>(_value: &T) {}

#[test]
fn ends_may_be_sent_and_links_shared(rt: HostRuntime) -> Result<(), Fail> {
    let (link, feeder, drain) = pair(rt.alloc(), keeping(1)?, 1, 40)?;
    takes_what_is_shared(&link);
    takes_what_is_sent(feeder.end(&link));
    takes_what_is_sent(drain.close(&link));
    takes_what_is_sent(link);
    let (_link, feeder, drain) = pair(rt.alloc(), keeping(1)?, 1, 40)?;
    takes_what_is_sent(feeder);
    takes_what_is_sent(drain);
    Ok(())
}
