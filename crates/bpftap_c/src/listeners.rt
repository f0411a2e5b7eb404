//! Listeners whose buffers are in the caller's memory.

ghost use Rattle.std.specs.Prelude.{◌≡◌, ◌<◌, ◌-◌, ◌^◌, ◌≤◌, ◌↔◌, length, min, IsTrue};
ghost use Rattle.listener.specs.declared.answer.Fed.{Fed};
ghost use Rattle.listener.specs.PlainList.{arrived, flushed, closed};
ghost use Rattle.bpftap_c.specs.Buffers.{arrival_of};
ghost use Rattle.bpftap_c.specs.Listeners.{kept_by_answer, fed_code, reset, shut, IsListener, Takes, Opens, Reads};

use crate::buffers::BpftapBuffer;
use crate::captures::BpftapRecord;
use crate::outcome::{BpftapResult, Failure, code_of, done, failed};
use listener::{Fed, OpenFault, check_range};
use std::mem;

/// A listener: the caller has set its two buffers, its snapshot length and its mode.
#[repr(C)]
pub struct BpftapListener<'a> {
    /// Takes packets as they arrive.
    pub store: BpftapBuffer<'a>,
    /// Waits for its reader.
    pub hold: BpftapBuffer<'a>,
    /// The packets that arrived.
    pub received: u64,
    /// Those that a filter accepted.
    pub matched: u64,
    /// Those of the latter that found no room.
    pub dropped: u64,
    /// The snapshot length.
    pub snap: u32,
    /// When the store becomes the hold: 0 Buffered, any other number Immediate.
    pub mode: u32,
    /// 0 if it is open.
    pub closed: u32,
}

/// Empties both buffers of a listener, and sets its counts to 0.
fn reset(listener: &mut BpftapListener<'_>, closed: u32)
    ensures { listener.new ≡ reset listener.old closed }
{
    listener.store.size = 0;
    listener.hold.size = 0;
    listener.received = 0;
    listener.matched = 0;
    listener.dropped = 0;
    listener.closed = closed;
}

/// Opens a listener, whose two buffers have one capacity.
#[unsafe(no_mangle)]
pub extern "C" fn bpftap_listener_open(listener: &mut BpftapListener<'_>) -> u32
    ensures { Opens listener.old listener.new result }
{
    reset(listener, 1);
    if let Err(fault) = check_range(listener.snap, listener.store.bytes.len()) {
        return code_of(Failure::Open(fault));
    }
    if listener.hold.bytes.len() != listener.store.bytes.len() {
        return code_of(Failure::Open(OpenFault::BadCapacity));
    }
    listener.closed = 0;
    0
}

fn fed_code(fed: Fed) -> u32
    ensures { result ≡ fed_code fed }
{
    match fed {
        Fed::Passed => 0,
        Fed::Stored => 1,
        Fed::Held => 2,
        Fed::Rotated => 3,
        Fed::Dropped => 4,
        Fed::Closed => 5,
    }
}

/// A packet arrives, to which a filter answers this.
fn arrive(
    listener: &mut BpftapListener<'_>,
    answer: u32,
    capture: u32,
    packet: &BpftapRecord,
    bytes: &[u8],
) -> Fed
    requires listener { IsListener listener.old }
    requires counted { listener.old.received < 2 ^ 64 - 1 }
    ensures { Takes listener.old (arrived (kept_by_answer answer listener.old.snap (arrival_of capture packet.now bytes.now)) result) listener.new }
{
    if listener.closed != 0 {
        return Fed::Closed;
    }
    listener.received += 1;
    if answer == 0 {
        return Fed::Passed;
    }
    listener.matched += 1;
    let most = answer.min(listener.snap);
    let kept = (most as usize).min(bytes.len());
    let data = &bytes[..kept];
    let stored = listener.store.put(capture, packet, data);
    if stored {
        if listener.mode == 0 || listener.hold.size != 0 {
            return Fed::Stored;
        }
        mem::swap(&mut listener.store, &mut listener.hold);
        return Fed::Held;
    }
    if listener.hold.size != 0 {
        listener.dropped += 1;
        return Fed::Dropped;
    }
    mem::swap(&mut listener.store, &mut listener.hold);
    let _stored = listener.store.put(capture, packet, data);
    Fed::Rotated
}

/// A packet arrives, with the place, time and wire length of `packet`, to which a filter answers
/// this.
#[unsafe(no_mangle)]
pub extern "C" fn bpftap_listener_arrive(
    listener: &mut BpftapListener<'_>,
    answer: u32,
    capture: u32,
    packet: &BpftapRecord,
    bytes: &[u8],
) -> u32
    requires listener { IsListener listener.old }
    requires counted { listener.old.received < 2 ^ 64 - 1 }
    ensures { (fed : Fed) × (result ≡ fed_code fed)
        × Takes listener.old (arrived (kept_by_answer answer listener.old.snap (arrival_of capture packet.now bytes.now)) fed) listener.new }
{
    fed_code(arrive(listener, answer, capture, packet, bytes))
}

/// Makes the store the hold if that is empty, and returns whether it did.
#[unsafe(no_mangle)]
pub extern "C" fn bpftap_listener_flush(listener: &mut BpftapListener<'_>) -> bool
    requires { IsListener listener.old }
    ensures { Takes listener.old (flushed result) listener.new }
{
    if listener.closed != 0 || listener.hold.size != 0 || listener.store.size == 0 {
        return false;
    }
    mem::swap(&mut listener.store, &mut listener.hold);
    true
}

/// Reads the hold into a buffer of the same capacity, which is left to the listener in its place.
#[unsafe(no_mangle)]
pub extern "C" fn bpftap_listener_read<'a>(
    listener: &mut BpftapListener<'a>,
    batch: &mut BpftapBuffer<'a>,
) -> BpftapResult
    requires { IsListener listener.old }
    ensures { Reads listener.old batch.old listener.new batch.new result }
{
    if batch.bytes.len() != listener.store.bytes.len() {
        return failed(Failure::Open(OpenFault::BadCapacity));
    }
    batch.size = 0;
    if listener.closed != 0 {
        return done(0);
    }
    mem::swap(&mut listener.hold, batch);
    done(batch.size)
}

/// Closes a listener: from now on nothing changes. Not a byte of its buffers does now.
#[unsafe(no_mangle)]
pub extern "C" fn bpftap_listener_close(listener: &mut BpftapListener<'_>)
    requires { IsListener listener.old }
    ensures closes { Takes listener.old closed listener.new }
    ensures rest { listener.new ≡ shut listener.old }
{
    listener.closed = 1;
}
