//! The plain list as a slow program of its own, beside the listener, over random lists of steps.

ghost use Rattle.std.specs.Prelude.{◌<◌};

use super::packet;
use crate::same::same;
use bpfvm::{Insn, Program};
use listener::{Buffer, Fed, Listener, Mode, Read};
use std::alloc::{AllocError, Global};
use std::process::Abort;
use std::test::Fail;

/// A message: its place, how many bytes are kept of it, and the last of them.
#[derive(Clone, Copy, Debug, PartialEq, Eq)]
struct KeptMessage {
    place: u64,
    len: usize,
    last: u8,
}

/// What pends, how many of it are held, and the counts, as the table has them.
#[derive(Drop)]
struct PlainModel {
    capacity: usize,
    mode: Mode,
    pending: Vec<KeptMessage>,
    held: usize,
    received: u64,
    matched: u64,
    dropped: u64,
    closed: bool,
}

/// A record's size, counted up.
fn size_of(len: usize) -> usize {
    let mut size: usize = 32;
    for i in 0..len {
        if i % 8 == 0 {
            size = size.wrapping_add(8);
        }
    }
    size
}

impl PlainModel {
    fn new(alloc: Global, capacity: usize, mode: Mode) -> PlainModel {
        PlainModel {
            capacity,
            mode,
            pending: Vec::new(alloc),
            held: 0,
            received: 0,
            matched: 0,
            dropped: 0,
            closed: false,
        }
    }

    fn load(&self) -> usize {
        let mut load: usize = 0;
        for kept in self.pending.iter().skip(self.held) {
            load = load.wrapping_add(size_of(kept.len));
        }
        load
    }

    /// An arrival at a Buffered list.
    fn arrive_buffered(&mut self, kept: Option<KeptMessage>) -> Result<Fed, AllocError> {
        self.received = self.received.wrapping_add(1);
        let Some(kept) = kept else {
            return Ok(Fed::Passed);
        };
        self.matched = self.matched.wrapping_add(1);
        if self.load().wrapping_add(size_of(kept.len)) <= self.capacity {
            self.pending.push(kept)?;
            return Ok(Fed::Stored);
        }
        if self.held > 0 {
            self.dropped = self.dropped.wrapping_add(1);
            return Ok(Fed::Dropped);
        }
        self.held = self.pending.len();
        self.pending.push(kept)?;
        Ok(Fed::Rotated)
    }

    /// An Immediate list makes the store the hold after each accepted arrival.
    fn arrive(&mut self, kept: Option<KeptMessage>) -> Result<Fed, AllocError> {
        if self.closed {
            return Ok(Fed::Closed);
        }
        let fed = self.arrive_buffered(kept)?;
        if self.mode == Mode::Immediate && kept.is_some() && self.flush() && fed == Fed::Stored {
            return Ok(Fed::Held);
        }
        Ok(fed)
    }

    fn flush(&mut self) -> bool {
        if self.closed || self.held > 0 || self.pending.is_empty() {
            return false;
        }
        self.held = self.pending.len();
        true
    }

    /// The batch that a read takes.
    fn read(&mut self, alloc: Global) -> Result<Option<Vec<KeptMessage>>, AllocError> {
        if self.closed || self.held == 0 {
            return Ok(None);
        }
        let mut batch = Vec::new(alloc);
        let mut rest = Vec::new(alloc);
        for (i, kept) in self.pending.iter().enumerate() {
            if i < self.held {
                batch.push(*kept)?;
            } else {
                rest.push(*kept)?;
            }
        }
        self.pending = rest;
        self.held = 0;
        Ok(Some(batch))
    }
}

/// The messages of a buffer.
fn messages(alloc: Global, buffer: &Buffer) -> Result<Vec<KeptMessage>, AllocError> {
    let mut out = Vec::new(alloc);
    for record in buffer.records() {
        let last = match record.bytes.last() {
            Some(byte) => *byte,
            None => 0,
        };
        out.push(KeptMessage {
            place: record.place,
            len: record.bytes.len(),
            last,
        })?;
    }
    Ok(out)
}

/// Numbers that look random, the same each time.
#[derive(Drop)]
struct Random {
    state: u64,
}

impl Random {
    fn below(&mut self, n: u64) -> u64
        requires { 0 < n }
        ensures { result < n }
    {
        self.state = self
            .state
            .wrapping_mul(6364136223846793005)
            .wrapping_add(1442695040888963407);
        (self.state >> 33) % n
    }
}

/// What is kept of a packet: nothing if that has no bytes.
fn cut(bytes: &[u8], place: u64, len: usize) -> Option<KeptMessage> {
    let last = *bytes.get(..len)?.last()?;
    Some(KeptMessage { place, len, last })
}

/// The data of a packet: the first byte is the program's answer.
fn data_of(place: u64, verdict: u8) -> [u8; 96] {
    let mut data = [0; 96];
    for (i, byte) in data.iter_mut().enumerate() {
        *byte = (place.wrapping_add(i as u64) % 251) as u8;
    }
    data[0] = verdict;
    data
}

/// A packet of these bytes, of which this much is to be kept, arrives at both.
fn bytes_arrive(
    rt: &impl Abort,
    listener: &mut Listener,
    slow: &mut PlainModel,
    place: u64,
    bytes: &[u8],
    kept: Option<KeptMessage>,
) -> Result<(), AllocError> {
    assert!(rt; listener.counts().received < u64::MAX);
    let fed = listener.arrive_ref(0, place, &packet(bytes));
    same(rt, fed, slow.arrive(kept)?);
    Ok(())
}

/// A packet arrives at both. The program's answer is 0 at times.
fn arrive_at_both(
    rt: &impl Abort,
    listener: &mut Listener,
    slow: &mut PlainModel,
    random: &mut Random,
    place: u64,
    snap: usize,
) -> Result<(), AllocError> {
    let captured = random.below(97) as usize;
    let verdict = random.below(100).saturating_sub(9);
    let data = data_of(place, verdict as u8);
    let bytes = &data[..captured];
    let kept = cut(bytes, place, captured.min(verdict as usize).min(snap));
    bytes_arrive(rt, listener, slow, place, bytes, kept)
}

/// The messages that a read takes, if it takes any.
fn read_of(alloc: Global, listener: &mut Listener) -> Result<Option<Vec<KeptMessage>>, Fail> {
    let empty = Buffer::new(alloc, listener.capacity())?;
    match listener.read(empty) {
        Read::Full(buffer) => Ok(Some(messages(alloc, &buffer)?)),
        Read::Nothing(_) => Ok(None),
    }
}

fn read_at_both(
    rt: &(impl Abort + AllocGlobal),
    listener: &mut Listener,
    slow: &mut PlainModel,
) -> Result<(), Fail> {
    let batch = slow.read(rt.alloc())?;
    match (read_of(rt.alloc(), listener)?, batch) {
        (Some(taken), Some(batch)) => assert!(rt; taken.as_slice() == batch.as_slice()),
        (None, None) => {}
        _ => assert!(rt; false, "a batch of one"),
    }
    Ok(())
}

/// What pends at a listener, and how many messages of it are held.
fn pending_of(alloc: Global, listener: &Listener) -> Result<(Vec<KeptMessage>, usize), AllocError> {
    let (hold, store) = listener.buffers();
    let mut pending = messages(alloc, hold)?;
    let held = pending.len();
    let stored = messages(alloc, store)?;
    pending.extend_from_slice(stored.as_slice())?;
    Ok((pending, held))
}

/// Both have the same counts.
fn compare_counts(rt: &impl Abort, listener: &Listener, slow: &PlainModel) {
    let counts = listener.counts();
    same(rt, counts.received, slow.received);
    same(rt, counts.matched, slow.matched);
    same(rt, counts.dropped, slow.dropped);
}

/// Both have the same state.
fn compare(
    rt: &(impl Abort + AllocGlobal),
    listener: &Listener,
    slow: &PlainModel,
) -> Result<(), AllocError> {
    compare_counts(rt, listener, slow);
    let (pending, held) = pending_of(rt.alloc(), listener)?;
    same(rt, held, slow.held);
    assert!(rt; pending.as_slice() == slow.pending.as_slice());
    Ok(())
}

fn step_at_both(
    rt: &(impl Abort + AllocGlobal),
    listener: &mut Listener,
    slow: &mut PlainModel,
    random: &mut Random,
    place: u64,
    snap: usize,
) -> Result<(), Fail> {
    match random.below(40) {
        0..30 => arrive_at_both(rt, listener, slow, random, place, snap)?,
        30..33 => same(rt, listener.flush(), slow.flush()),
        33..39 => read_at_both(rt, listener, slow)?,
        _ => {
            listener.close();
            slow.closed = true;
        }
    }
    Ok(())
}

/// A program whose answer is a packet's first byte.
fn first_byte() -> Result<Program, bpfvm::Invalid> {
    Program::new(&[
        Insn {
            code: bpfvm::code::LD_B_ABS,
            jt: 0,
            jf: 0,
            k: 0,
        },
        Insn {
            code: bpfvm::code::RET_A,
            jt: 0,
            jf: 0,
            k: 0,
        },
    ])
}

/// Forty random steps at both.
fn steps_at_both(
    rt: &(impl Abort + AllocGlobal),
    listener: &mut Listener,
    slow: &mut PlainModel,
    random: &mut Random,
    snap: usize,
) -> Result<(), Fail> {
    for place in 0..40 {
        step_at_both(rt, listener, slow, random, place, snap)?;
        compare(rt, listener, slow)?;
    }
    Ok(())
}

/// One random list of steps.
fn run_both(rt: &(impl Abort + AllocGlobal), random: &mut Random, mode: Mode) -> Result<(), Fail> {
    let snap = random.below(64) as u32 + 1;
    let capacity = size_of(snap as usize).wrapping_add(random.below(200) as usize);
    let mut listener = Listener::open_as(rt.alloc(), first_byte()?, snap, capacity, mode)?;
    let mut slow = PlainModel::new(rt.alloc(), capacity, mode);
    steps_at_both(rt, &mut listener, &mut slow, random, snap as usize)
}

#[test]
fn a_listener_is_its_plain_list(rt: HostRuntime) -> Result<(), Fail> {
    let mut random = Random { state: 1993 };
    for _ in 0..2000 {
        run_both(&rt, &mut random, Mode::Buffered)?;
        run_both(&rt, &mut random, Mode::Immediate)?;
    }
    Ok(())
}
