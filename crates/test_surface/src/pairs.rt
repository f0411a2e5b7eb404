//! A feeder and a drain: the two ends of one listener, without a lock.
ghost use Rattle.std.specs.Prelude.{◌≡◌};

use crate::common::{listed, packet, same};
use handover::{Drain, DrainEnd, FeedEnd, Feeder, Link, Read, Settled, pair_as, settle};
use listener::{Buffer, Counts, Fed, Mode};
use savefile::Packet;
use std::alloc::Global;
use std::process::Abort;

/// What an arrival is answered.
fn fed(link: &Link, feeder: &mut Feeder, place: u64, packet: &Packet) -> Fed
    requires { feeder.old.pair ≡ link.now }
    ensures { feeder.new.pair ≡ feeder.old.pair }
{
    if feeder.counts().received == u64::MAX {
        return Fed::Closed;
    }
    feeder.arrive(link, 0, place, packet)
}

/// How many packets a read gives; 100 if there is nothing, and 200 after the end.
fn taken(alloc: Global, link: &Link, drain: &mut Drain) -> usize
    requires { drain.old.pair ≡ link.now }
    ensures { drain.new.pair ≡ drain.old.pair }
{
    let Ok(empty) = Buffer::new(alloc, drain.capacity()) else {
        return 300;
    };
    match drain.read(link, empty) {
        Read::Full(buffer) => buffer.len(),
        Read::Nothing(_) => 100,
        Read::Ended(_) => 200,
    }
}

/// Four arrivals, two reads and a flush.
type Answers = ([Fed; 4], [usize; 2], bool);

fn together(
    alloc: Global,
    link: &Link,
    feeder: &mut Feeder,
    drain: &mut Drain,
    packet: &Packet,
) -> Answers
    requires { (feeder.old.pair ≡ link.now) × (drain.old.pair ≡ link.now) }
    ensures { (feeder.new.pair ≡ feeder.old.pair) × (drain.new.pair ≡ drain.old.pair) }
{
    let first = fed(link, feeder, 0, packet);
    let early = taken(alloc, link, drain);
    let second = fed(link, feeder, 1, packet);
    let third = fed(link, feeder, 2, packet);
    let late = taken(alloc, link, drain);
    let flushed = feeder.flush(link);
    let last = fed(link, feeder, 3, packet);
    ([first, second, third, last], [early, late], flushed)
}

/// What a pair answers while both ends are open, then to two reads, what its hold and its rest have, and its counts.
fn played(
    rt: &(impl Abort + AllocGlobal),
    mode: Mode,
    packet: &Packet,
) -> (Answers, [usize; 4], Counts) {
    let alloc = rt.alloc();
    let ends = pair_as(alloc, listed(rt, "1\n6 0 0 32"), 32, 64, mode);
    let (link, mut feeder, mut drain): (Link, Feeder, Drain) = ends.expect(rt, "a pair");
    let answers = together(alloc, &link, &mut feeder, &mut drain, packet);
    let fed: FeedEnd = feeder.end(&link);
    let next = taken(alloc, &link, &mut drain);
    let last = taken(alloc, &link, &mut drain);
    let drained: DrainEnd = drain.close(&link);
    let Settled { hold, rest, counts } = settle(link, fed, drained);
    (answers, [next, last, hold.len(), rest.len()], counts)
}

#[test]
fn a_pair_in_one_thread_answers_step_by_step(rt: HostRuntime) {
    let packet = packet(&rt, "z");
    let fed = [Fed::Stored, Fed::Rotated, Fed::Dropped, Fed::Stored];
    let counts = Counts {
        received: 4,
        matched: 4,
        dropped: 1,
    };
    same(
        &rt,
        played(&rt, Mode::Buffered, &packet),
        ((fed, [100, 1], true), [1, 200, 0, 1], counts),
    );
    let fed = [Fed::Held, Fed::Held, Fed::Stored, Fed::Stored];
    let counts = Counts {
        dropped: 0,
        ..counts
    };
    same(
        &rt,
        played(&rt, Mode::Immediate, &packet),
        ((fed, [1, 1], true), [1, 200, 0, 1], counts),
    );
}
