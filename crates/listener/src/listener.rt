//! One listener: a program, a store and a hold.

ghost use Rattle.std.specs.Prelude.{◌≡◌, ◌≢◌, ℕ, ◌-◌, ◌<◌, ◌≤◌, ◌^◌, ◌++◌, [], length, Some, None, IfOk, IfErr, OnOk, IsTrue, ◌↔◌, option_map};
ghost use Rattle.listener.specs.Buffers.{filled};
ghost use Rattle.listener.specs.Listening.{listening, seen_by, TakesStep, RefusesOpen, InRange};
ghost use Rattle.listener.specs.Messages.{arrival, size_of};
ghost use Rattle.listener.specs.PlainList.{terms, empty, arrived, flushed, read, closed};
ghost use Rattle.listener.specs.declared.answer.Read.{Read};
ghost use Rattle.listener.specs.declared.fault.OpenFault.TheVariants.{NoMemory};
ghost use Rattle.listener.specs.declared.mode.Mode.TheVariants.{Buffered, Immediate};

use crate::answer::{Counts, Fed, Read};
use crate::buffer::{Buffer, MAX_CAPACITY, size};
use crate::fault::OpenFault;
use crate::filter::kept_of;
use crate::mode::Mode;
use bpfvm::Program;
use savefile::{MAX_SNAP, Packet, PacketRef};
use std::alloc::Global;
use std::marker::Model;
use std::mem;

/// A listener of a tap: a filter program, and the packets that it accepted, in a store and a hold.
///
/// Contracts see its program, its snapshot length, and its plain list: what pends, oldest first,
/// how many of it are held, the counts, and whether it is closed. Each call is one step of that
/// list.
#[derive(Drop)]
pub struct Listener {
    program: Program,
    snap: u32,
    mode: Mode,
    store: Buffer,
    hold: Buffer,
    counts: Counts,
    closed: bool,
}

impl Model for Listener {
    ghost use Rattle.std.specs.Prelude.{◌≡◌, ◌≤◌, ◌++◌, length};
    ghost use Rattle.listener.specs.Listening.{Listening, listening, InRange};
    ghost use Rattle.listener.specs.PlainList.{plain, terms};

    ghost Value = { Listening };

    ghost view = { λ l. listening l.program l.snap (terms l.store.capacity l.mode)
        (plain (l.hold.messages ++ l.store.messages) (length l.hold.messages) l.counts.received l.counts.matched l.counts.dropped l.closed) };

    ghost invariant = { λ l. (l.hold.capacity ≡ l.store.capacity) × (l.counts.dropped ≤ l.counts.matched)
        × (l.counts.matched ≤ l.counts.received) × InRange l.snap l.store.capacity };
}

/// Tests the numbers that a listener is opened with, and takes no memory.
///
/// [`OpenFault::BadSnap`] comes if and only if the snapshot length is not 1 to 262,144; else
/// [`OpenFault::BadCapacity`] if and only if the capacity is below the bytes of a record with a
/// snapshot length of data (32, and the data up to a multiple of 8) or above 1,048,576.
pub fn check_range(snap: u32, capacity: usize) -> Result<(), OpenFault>
    ensures in_range { OnOk result (InRange snap capacity) }
    ensures only { IfErr result (RefusesOpen snap capacity) }
    ensures no_memory { IfErr result (λ fault. fault ≢ NoMemory) }
{
    if snap < 1 || snap > MAX_SNAP {
        return Err(OpenFault::BadSnap);
    }
    if capacity < size(snap) || capacity > MAX_CAPACITY {
        return Err(OpenFault::BadCapacity);
    }
    Ok(())
}

/// Whether a message that went into the store is handed over at once.
fn hands_over(mode: Mode, hold: &Buffer) -> bool
    ensures { IsTrue result ↔ ((mode ≡ Immediate) × (hold.now.messages ≡ [])) }
{
    match mode {
        Mode::Buffered => false,
        Mode::Immediate => hold.is_empty(),
    }
}

impl Listener {
    /// Opens a listener in the mode [`Mode::Buffered`], as [`Listener::open_as`].
    pub fn open(
        alloc: Global,
        program: Program,
        snap: u32,
        capacity: usize,
    ) -> Result<Listener, OpenFault>
        ensures ok { IfOk result (λ listener. listener ≡ listening program snap (terms capacity Buffered) empty) }
        ensures in_range { OnOk result (InRange snap capacity) }
        ensures only { IfErr result (RefusesOpen snap capacity) }
    {
        Listener::open_as(alloc, program, snap, capacity, Mode::Buffered)
    }

    /// Opens a listener. It takes a filter program, how many bytes of a packet are kept at most,
    /// the size in bytes of each of the two buffers, and when the store becomes the hold.
    ///
    /// It returns [`OpenFault::BadSnap`] or [`OpenFault::BadCapacity`] if and only if
    /// [`check_range`] does.
    pub fn open_as(
        alloc: Global,
        program: Program,
        snap: u32,
        capacity: usize,
        mode: Mode,
    ) -> Result<Listener, OpenFault>
        ensures ok { IfOk result (λ listener. listener ≡ listening program snap (terms capacity mode) empty) }
        ensures in_range { OnOk result (InRange snap capacity) }
        ensures only { IfErr result (RefusesOpen snap capacity) }
    {
        check_range(snap, capacity)?;
        Ok(Listener {
            program,
            snap,
            mode,
            store: Buffer::new(alloc, capacity)?,
            hold: Buffer::new(alloc, capacity)?,
            counts: Counts {
                received: 0,
                matched: 0,
                dropped: 0,
            },
            closed: false,
        })
    }

    /// How many bytes of records each of its buffers has room for.
    pub fn capacity(&self) -> usize
        ensures is { result ≡ self.now.terms.capacity }
        ensures in_range { InRange self.now.snap result }
    {
        self.store.capacity()
    }

    /// The counts, of the packets that arrived before the listener was closed.
    pub fn counts(&self) -> Counts
        ensures received { result.received ≡ self.now.list.received }
        ensures matched { result.matched ≡ self.now.list.matched }
        ensures dropped { result.dropped ≡ self.now.list.dropped }
        ensures some_matched { result.matched ≤ result.received }
        ensures some_dropped { result.dropped ≤ result.matched }
    {
        self.counts
    }

    /// A packet arrives, from a capture and a place there.
    ///
    /// If the program accepts it, the least of the snapshot length, the program's answer and the
    /// captured length is kept of it. It takes no memory, and copies these bytes once if it stores
    /// them.
    pub fn arrive(&mut self, capture: u32, place: u64, packet: &Packet) -> Fed
        requires { self.old.list.received < 2 ^ 64 - 1 }
        ensures { TakesStep self.old (arrived (seen_by self.old (arrival capture place packet.now)) result) self.new }
    {
        self.arrive_ref(capture, place, &packet.as_ref())
    }

    /// A packet arrives whose bytes lie elsewhere: else as [`Listener::arrive`].
    pub fn arrive_ref(&mut self, capture: u32, place: u64, packet: &PacketRef<'_>) -> Fed
        requires { self.old.list.received < 2 ^ 64 - 1 }
        ensures { TakesStep self.old (arrived (seen_by self.old (arrival capture place packet.now)) result) self.new }
    {
        if self.closed {
            return Fed::Closed;
        }
        self.counts.received += 1;
        let Some(kept) = kept_of(&self.program, &self.snap, packet) else {
            return Fed::Passed;
        };
        self.counts.matched += 1;
        let stored = self.store.put_ref(capture, place, packet, kept);
        if stored {
            let at_once = hands_over(self.mode, &self.hold);
            if at_once {
                mem::swap(&mut self.store, &mut self.hold);
                return Fed::Held;
            }
            return Fed::Stored;
        }
        let free = self.hold.is_empty();
        if !free {
            self.counts.dropped += 1;
            return Fed::Dropped;
        }
        mem::swap(&mut self.store, &mut self.hold);
        let _moved = self.store.put_ref(capture, place, packet, kept);
        Fed::Rotated
    }

    /// The bytes of the record that a packet takes in a buffer, or would take; nothing if the
    /// program rejects it.
    ///
    /// The program is asked once more, and nothing changes.
    pub fn record_size(&self, packet: &PacketRef<'_>) -> Option<usize>
        ensures { (capture place : ℕ) → result ≡ option_map size_of (seen_by self.now (arrival capture place packet.now)) }
    {
        let Some(kept) = kept_of(&self.program, &self.snap, packet) else {
            return None;
        };
        Some(size(kept))
    }

    /// Makes a nonempty store the hold if the hold is empty, and returns whether it did: what the
    /// read timeout of bpf(4) does.
    pub fn flush(&mut self) -> bool
        ensures { TakesStep self.old (flushed result) self.new }
    {
        if self.closed || !self.hold.is_empty() || self.store.is_empty() {
            return false;
        }
        mem::swap(&mut self.store, &mut self.hold);
        true
    }

    /// Takes the whole hold and puts the given empty buffer, of the listener's capacity, in its
    /// place. If there is nothing to read, that buffer is given back.
    pub fn read(&mut self, empty: Buffer) -> Read
        requires { empty ≡ filled self.old.terms.capacity [] }
        ensures full { (buffer : _) → result ≡ Read.Full buffer →
            TakesStep self.old (read (Some buffer.messages)) self.new × (buffer.capacity ≡ self.old.terms.capacity) }
        ensures nothing { (buffer : _) → result ≡ Read.Nothing buffer → TakesStep self.old (read None) self.new × (buffer ≡ empty) }
    {
        if self.closed || self.hold.is_empty() {
            return Read::Nothing(empty);
        }
        Read::Full(mem::replace(&mut self.hold, empty))
    }

    /// Closes the listener: from now on nothing changes.
    pub fn close(&mut self)
        ensures { TakesStep self.old closed self.new }
    {
        self.closed = true;
    }

    /// The hold and the store.
    pub fn buffers(&self) -> (&Buffer, &Buffer)
        ensures pending { result.0.now.messages ++ result.1.now.messages ≡ self.now.list.pending }
        ensures held { length result.0.now.messages ≡ self.now.list.in_hold }
        ensures hold_capacity { result.0.now.capacity ≡ self.now.terms.capacity }
        ensures store_capacity { result.1.now.capacity ≡ self.now.terms.capacity }
    {
        (&self.hold, &self.store)
    }
}
