//! Buffers and listeners: the plain list of one listener, call by call.
use crate::common::{UDP, listed, packet, same};
use handover::pair;
use listener::{Buffer, Counts, Fed, Listener, Mode, OpenFault, Read, Record, size};
use savefile::Packet;
use std::alloc::Global;
use std::process::Abort;

#[test]
fn a_buffer_takes_records_up_to_its_capacity(rt: HostRuntime) {
    same(
        &rt,
        [size(0), size(1), size(24), size(25), size(262_144)],
        [32, 40, 56, 64, 262_176],
    );
    let packet = packet(&rt, "aabbcc");
    let mut buffer = Buffer::new(rt.alloc(), 40).expect(&rt, "a buffer");
    same(&rt, (buffer.is_empty(), buffer.capacity()), (true, 40));
    assert!(rt; packet.bytes.as_slice().len() >= 2);
    same(&rt, buffer.put(7, 9, &packet, 2), true);
    same(&rt, buffer.put(7, 10, &packet, 0), false);
    same(&rt, buffer.len(), 1);
    for record in buffer.records() {
        let Record {
            capture,
            place,
            sec,
            nanos,
            len,
            bytes,
        } = record;
        let found = (capture, place, [sec, nanos, len]);
        same(&rt, found, (7, 9, [2, 3_000, 60]));
        same(&rt, bytes, [0xaa, 0xbb].as_slice());
    }
    buffer.clear();
    same(&rt, (buffer.is_empty(), buffer.capacity()), (true, 40));
}

#[test]
fn buffers_listeners_and_pairs_open_within_their_ranges(rt: HostRuntime) {
    let alloc = rt.alloc();
    let narrow = Buffer::new(alloc, 39).err();
    same(&rt, narrow, Some(OpenFault::BadCapacity));
    let rows = [
        (0, 64, Some(OpenFault::BadSnap)),
        (262_145, 1_048_576, Some(OpenFault::BadSnap)),
        (32, 63, Some(OpenFault::BadCapacity)),
        (32, 64, None),
        (10, 47, Some(OpenFault::BadCapacity)),
        (10, 48, None),
        (32, 1_048_576, None),
        (32, 1_048_577, Some(OpenFault::BadCapacity)),
        (262_144, 262_175, Some(OpenFault::BadCapacity)),
        (262_144, 262_176, None),
    ];
    for (snap, capacity, want) in rows {
        let program = listed(&rt, "1\n6 0 0 9");
        let found = Listener::open(alloc, program, snap, capacity).err();
        same(&rt, (snap, capacity, found), (snap, capacity, want));
        let found = pair(alloc, listed(&rt, "1\n6 0 0 9"), snap, capacity).err();
        same(&rt, (snap, capacity, found), (snap, capacity, want));
    }
}

/// What an arrival is answered.
fn fed(listener: &mut Listener, place: u64, packet: &Packet) -> Fed {
    if listener.counts().received == u64::MAX {
        return Fed::Closed;
    }
    listener.arrive(3, place, packet)
}

/// How many packets a read gives; 100 if there is nothing.
fn taken(alloc: Global, listener: &mut Listener) -> usize {
    let Ok(empty) = Buffer::new(alloc, listener.capacity()) else {
        return 300;
    };
    match listener.read(empty) {
        Read::Full(buffer) => buffer.len(),
        Read::Nothing(_) => 100,
    }
}

/// What a listener of this mode, two packets of which fill a buffer, answers to seven arrivals, the last one after the close, and to three
/// reads among them; and how many it dropped.
fn played(
    rt: &(impl Abort + AllocGlobal),
    mode: Mode,
    packet: &Packet,
) -> ([Fed; 7], [usize; 3], Counts) {
    let alloc = rt.alloc();
    let opened = Listener::open_as(alloc, listed(rt, "1\n6 0 0 1000"), 32, 128, mode);
    let mut tap = opened.expect(rt, "a listener");
    let [first, second] = [fed(&mut tap, 0, packet), fed(&mut tap, 1, packet)];
    let [third, fourth] = [fed(&mut tap, 2, packet), fed(&mut tap, 3, packet)];
    let early = taken(alloc, &mut tap);
    let fifth = fed(&mut tap, 4, packet);
    let late = taken(alloc, &mut tap);
    let sixth = fed(&mut tap, 5, packet);
    tap.close();
    let last = fed(&mut tap, 6, packet);
    let answers = [first, second, third, fourth, fifth, sixth, last];
    (answers, [early, late, taken(alloc, &mut tap)], tap.counts())
}

#[test]
fn each_mode_answers_step_by_step(rt: HostRuntime) {
    let packet = packet(&rt, "z");
    let counts = Counts {
        received: 6,
        matched: 6,
        dropped: 0,
    };
    let (stored, rotated, held) = (Fed::Stored, Fed::Rotated, Fed::Held);
    let buffered = [
        stored,
        stored,
        rotated,
        stored,
        rotated,
        stored,
        Fed::Closed,
    ];
    let found = played(&rt, Mode::Buffered, &packet);
    same(&rt, found, (buffered, [2, 2, 100], counts));
    let immediate = [
        held,
        stored,
        stored,
        Fed::Dropped,
        rotated,
        held,
        Fed::Closed,
    ];
    let counts = Counts {
        dropped: 1,
        ..counts
    };
    let found = played(&rt, Mode::Immediate, &packet);
    same(&rt, found, (immediate, [1, 2, 100], counts));
}

#[test]
fn a_rejected_packet_passes_and_is_received(rt: HostRuntime) {
    let (none, udp) = (packet(&rt, "z"), packet(&rt, UDP));
    let program = listed(&rt, "4\n48 0 0 23\n21 0 1 17\n6 0 0 10\n6 0 0 0\n");
    let mut listener = Listener::open(rt.alloc(), program, 262_144, 262_176).expect(&rt, "one");
    let answers = [fed(&mut listener, 0, &none), fed(&mut listener, 1, &udp)];
    same(&rt, answers, [Fed::Passed, Fed::Stored]);
    same(&rt, [listener.flush(), listener.flush()], [true, false]);
    same(&rt, taken(rt.alloc(), &mut listener), 1);
    let counts = listener.counts();
    same(&rt, (counts.received, counts.matched), (2, 1));
}
