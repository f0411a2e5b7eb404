//! A feeder and a drain in threads of their own.

ghost use Rattle.std.specs.Prelude.{◌≡◌, []};
ghost use Rattle.listener.specs.Buffers.{filled};

use super::packet;
use crate::same::same;
use crate::shown::keeping;
use handover::{Drain, DrainEnd, FeedEnd, Feeder, Link, Read, Settled, pair_as, settle};
use listener::{Buffer, Counts, Fed, Mode, OpenFault};
use std::alloc::Global;
use std::process::Abort;
use std::sync::atomic::AtomicBool;
use std::sync::atomic::Ordering::SeqCst;
use std::test::Fail;
use std::thread::{Threads, join, yield_now};

/// What became of the packets of a feeder.
#[derive(Drop)]
struct Fates {
    /// The places of those that were stored.
    stored: Vec<u64>,
    dropped: u64,
    closed: u64,
    /// One was answered otherwise than with Closed after one that was.
    opened: bool,
}

impl Fates {
    fn new(alloc: Global) -> Fates {
        Fates {
            stored: Vec::new(alloc),
            dropped: 0,
            closed: 0,
            opened: false,
        }
    }

    fn tell(&mut self, place: u64, fed: Fed) {
        match fed {
            Fed::Closed => self.closed = self.closed.wrapping_add(1),
            Fed::Dropped => self.dropped = self.dropped.wrapping_add(1),
            _ => {
                let _ = self.stored.push(place);
            }
        }
        if self.closed > 0 && fed != Fed::Closed {
            self.opened = true;
        }
    }
}

/// How a pair of snapshot length 32 is played in two threads.
#[derive(Clone, Copy)]
struct PairPlan {
    mode: Mode,
    capacity: usize,
    /// How many packets are given, and how many of these, the last ones, once the drain has closed.
    packets: u64,
    late: u64,
    /// How many reads are made at most.
    reads: u64,
    /// The feeder starts after the drain, and yields after each packet.
    is_slow: bool,
}

impl PairPlan {
    fn of(mode: Mode, capacity: usize, packets: u64, late: u64, reads: u64) -> PairPlan {
        PairPlan {
            mode,
            capacity,
            packets,
            late,
            reads,
            is_slow: false,
        }
    }
}

/// What the drain's thread hands to the feeder's.
#[derive(Drop)]
struct Signs {
    has_begun: AtomicBool,
    is_closed: AtomicBool,
}

/// Waits for a sign, but not for ever.
fn await_sign(sign: &AtomicBool) {
    for _ in 0..10_000_000u64 {
        if sign.load(SeqCst) {
            return;
        }
        yield_now();
    }
}

/// Gives the packets of a plan, and ends.
fn feed(
    link: &Link,
    mut feeder: Feeder,
    plan: PairPlan,
    signs: &Signs,
    mut fates: Fates,
) -> (FeedEnd, Fates)
    requires { feeder.pair ≡ link.now }
    ensures { result.0.pair ≡ feeder.pair }
{
    if plan.is_slow {
        await_sign(&signs.has_begun);
    }
    for place in 0..plan.packets {
        if plan.packets.wrapping_sub(place) == plan.late {
            await_sign(&signs.is_closed);
        }
        if feeder.counts().received != u64::MAX {
            let fed = feeder.arrive_ref(link, 0, place, &packet());
            fates.tell(place, fed);
        }
        if plan.is_slow {
            yield_now();
        }
    }
    (feeder.end(link), fates)
}

/// Appends the places of a buffer's messages.
fn note(buffer: &Buffer, places: &mut Vec<u64>) {
    for record in buffer.records() {
        let _ = places.push(record.place);
    }
}

/// Reads once; returns an empty buffer for the next read, and whether the feeder had ended.
fn read_once(link: &Link, drain: &mut Drain, spare: Buffer, places: &mut Vec<u64>) -> (Buffer, bool)
    requires { (drain.old.pair ≡ link.now) × (spare ≡ filled drain.old.profile.capacity []) }
    ensures { (drain.new.pair ≡ drain.old.pair) × (result.0 ≡ filled drain.new.profile.capacity []) }
{
    match drain.read(link, spare) {
        Read::Full(mut buffer) => {
            note(&buffer, places);
            buffer.clear();
            (buffer, false)
        }
        Read::Nothing(buffer) => {
            yield_now();
            (buffer, false)
        }
        Read::Ended(buffer) => (buffer, true),
    }
}

/// Reads this often, but not past the end, and closes. Returns the places that were read, and
/// whether the end was reached.
fn read_all(
    link: &Link,
    mut drain: Drain,
    mut spare: Buffer,
    reads: u64,
    mut places: Vec<u64>,
) -> (DrainEnd, Vec<u64>, bool)
    requires { (drain.pair ≡ link.now) × (spare ≡ filled drain.profile.capacity []) }
    ensures { result.0.pair ≡ drain.pair }
{
    for _ in 0..reads {
        let (empty, ended) = read_once(link, &mut drain, spare, &mut places);
        spare = empty;
        if ended {
            return (drain.close(link), places, true);
        }
    }
    (drain.close(link), places, false)
}

/// What came of a plan.
#[derive(Drop)]
struct PairOutcome {
    settled: Settled,
    fates: Fates,
    /// The places that were read.
    read: Vec<u64>,
    /// Whether a read reached the end.
    ended: bool,
}

/// Plays a plan with a feeder and a drain in threads of their own.
fn play(
    rt: &(impl Abort + AllocGlobal + Threads + Sync),
    plan: PairPlan,
) -> Result<PairOutcome, OpenFault> {
    let alloc = rt.alloc();
    let (capacity, reads) = (plan.capacity, plan.reads);
    let program = keeping(262_144).expect(rt, "a program");
    let (link, feeder, drain) = pair_as(alloc, program, 32, capacity, plan.mode)?;
    let spare = Buffer::new(alloc, capacity)?;
    let (fates, places) = (Fates::new(alloc), Vec::new(alloc));
    let shared = &link;
    let both = Signs {
        has_begun: AtomicBool::new(false),
        is_closed: AtomicBool::new(false),
    };
    let signs = &both;
    let ((feed_end, fates), (drain_end, read, ended)) = join(
        rt,
        move || -> (FeedEnd, Fates)
            requires { feeder.pair ≡ shared.now }
            ensures { result.0.pair ≡ feeder.pair }
        { feed(shared, feeder, plan, signs, fates) },
        move || -> (DrainEnd, Vec<u64>, bool)
            requires { (drain.pair ≡ shared.now) × (spare ≡ filled drain.profile.capacity []) }
            ensures { result.0.pair ≡ drain.pair }
        {
            signs.has_begun.store(true, SeqCst);
            let read = read_all(shared, drain, spare, reads, places);
            signs.is_closed.store(true, SeqCst);
            read
        },
    );
    Ok(PairOutcome {
        settled: settle(link, feed_end, drain_end),
        fates,
        read,
        ended,
    })
}

/// Checks that nothing is taken after the close, and that the counts are those of what was
/// answered.
fn are_counted(rt: &impl Abort, fates: &Fates, counts: Counts, plan: PairPlan) {
    assert!(rt; !fates.opened);
    assert!(rt; fates.closed >= plan.late);
    same(rt, counts.received, plan.packets.wrapping_sub(fates.closed));
    same(rt, counts.matched, counts.received);
    same(rt, counts.dropped, fates.dropped);
}

/// Plays a plan, and checks that the packets that were stored are those that were read and those
/// that are left, in order. Returns these, and whether a read reached the end.
fn run(
    rt: &(impl Abort + AllocGlobal + Threads + Sync),
    plan: PairPlan,
) -> Result<(Vec<u64>, bool), OpenFault> {
    let PairOutcome {
        settled,
        fates,
        read,
        ended,
    } = play(rt, plan)?;
    let mut kept = read;
    note(&settled.hold, &mut kept);
    note(&settled.rest, &mut kept);
    assert!(rt; kept.as_slice() == fates.stored.as_slice());
    are_counted(rt, &fates, settled.counts, plan);
    Ok((kept, ended))
}

const MODES: [Mode; 2] = [Mode::Buffered, Mode::Immediate];

#[test]
fn what_is_not_dropped_is_read_or_left(rt: HostRuntime) -> Result<(), Fail> {
    for mode in MODES {
        let (_, ended) = run(&rt, PairPlan::of(mode, 256, 10_000, 0, u64::MAX))?;
        assert!(rt; ended);
    }
    Ok(())
}

#[test]
fn a_close_in_the_middle_ends_the_arrivals(rt: HostRuntime) -> Result<(), Fail> {
    for mode in MODES {
        for reads in [0, 1, 10, 100, 1_000] {
            run(&rt, PairPlan::of(mode, 256, 10_000, 3, reads))?;
        }
    }
    Ok(())
}

/// How many different lists of packets are kept in 500 runs of one plan, each second one slow. Runs
/// that differ in what they keep differ in the order in which the two threads' steps came.
fn orders_met(rt: &(impl Abort + AllocGlobal + Threads + Sync), mode: Mode) -> Result<usize, Fail> {
    let mut lists: Vec<Vec<u64>> = Vec::new(rt.alloc());
    for round in 0..500u64 {
        let mut seven = PairPlan::of(mode, 64, 7, 0, u64::MAX);
        seven.is_slow = round % 2 == 1;
        let (kept, _) = run(rt, seven)?;
        if !lists.iter().any(|list| list.as_slice() == kept.as_slice()) {
            lists.push(kept)?;
        }
    }
    Ok(lists.len())
}

#[test]
fn many_short_runs_meet_many_orders(rt: HostRuntime) -> Result<(), Fail> {
    for mode in MODES {
        for round in 0..400u64 {
            run(
                &rt,
                PairPlan::of(mode, 64, 1 + round % 7, round % 2, round % 5),
            )?;
            run(&rt, PairPlan::of(mode, 64, 1 + round % 7, 0, u64::MAX))?;
        }
        let met = orders_met(&rt, mode)?;
        assert!(rt; met >= 2, "{met} orders");
    }
    Ok(())
}
