//! The thread that reads a listener.

ghost use Rattle.std.specs.Prelude.{◌≡◌, ◌≢◌, [], ◌∷◌, ◌++◌, true, IfOk, IfErr, IfSome};
ghost use Rattle.rtrb.specs.Ring.{sent, SameProducer};
ghost use Rattle.listener.specs.Buffers.{filled};
ghost use Rattle.handover.specs.Ends.{IsSameDrain};
ghost use Rattle.handover.specs.History.{batches_of, ended_in};
ghost use Rattle.replay.specs.Reading.{HasRead, messages_of};

use crate::backoff::Backoff;
use crate::gate::Gate;
use crate::start_barrier::StartBarrier;
use crate::task_link::TaskLink;
use handover::{Drain, DrainEnd, Read};
use listener::Buffer;
use rtrb::{Consumer, Finished, Producer, PushError};
use std::snapshot::Snapshot;
use std::sync::Wait;
use std::thread::Promise;

/// What the reading thread of a task is given. All that it has read was pushed.
#[derive(Drop)]
pub(crate) struct Reading<'a, G> {
    pub(crate) gate: &'a G,
    pub(crate) interface: u32,
    /// Which listener of the interface.
    pub(crate) listener: u32,
    pub(crate) link: &'a TaskLink,
    pub(crate) drain: Drain,
    /// Of what is read.
    pub(crate) full: Producer<Buffer>,
    /// Of the buffers that come back.
    pub(crate) empty: Consumer<Buffer>,
    ghost pair: { drain.pair ≡ link.now },
    ghost pushed: { messages_of (sent full) ≡ batches_of drain.takes },
}

/// What a reading thread hands back.
#[derive(Drop)]
pub(crate) struct ReaderEnd {
    pub(crate) drain: DrainEnd,
    /// Shows what was pushed.
    pub(crate) finished: Option<Finished<Buffer>>,
    pub(crate) stop: ReaderStop,
}

/// Why a reading thread reads no further.
#[derive(Clone, Copy)]
pub(crate) enum ReaderStop {
    /// The end was found.
    Ended,
    /// Nobody gives buffers back any more.
    Abandoned,
    /// A buffer of another capacity was given back.
    Foreign,
}

/// A reading thread hands back what it read of this drain, and pushed into this ring; nothing where
/// a thread was refused.
#[derive(Drop)]
pub(crate) struct ReadsOut {
    pub(crate) drain: Snapshot<Drain>,
    pub(crate) full: Snapshot<Producer<Buffer>>,
}

impl Promise<Option<ReaderEnd>> for ReadsOut {
    ghost kept_by = { λ p r. IfSome r (HasRead p.drain.value p.full.value) };
}

/// What came of one read.
#[derive(Drop)]
enum Once {
    /// A batch was pushed.
    Pushed,
    /// Nothing was there, and the buffer is still empty.
    StillEmpty(Buffer),
    Ended,
}

/// Pushes a buffer as soon as there is room for it.
fn push_waiting<R: Wait>(rt: &R, link: &TaskLink, producer: &mut Producer<Buffer>, buffer: Buffer)
    ensures ring { SameProducer producer.old producer.new }
    ensures sent { sent producer.new ≡ sent producer.old ++ buffer ∷ [] }
{
    let mut buffer = buffer;
    let mut backoff = Backoff::new();
    for _ in rt.forever() {
        match producer.push(buffer) {
            Ok(()) => return,
            Err(PushError::Full(back)) => buffer = back,
        }
        backoff.wait(rt, &link.reader);
    }
    unreachable!()
}

/// The next empty buffer, cleared.
fn next_empty<R: Wait>(
    rt: &R,
    link: &TaskLink,
    empty: &mut Consumer<Buffer>,
    capacity: usize,
) -> Result<Buffer, ReaderStop>
    ensures ok { IfOk result (λ buffer. buffer ≡ filled capacity []) }
    ensures err { IfErr result (λ stop. stop ≢ ReaderStop.Ended) }
{
    let mut backoff = Backoff::new();
    for _ in rt.forever() {
        match empty.pop() {
            Ok(mut buffer) => {
                if buffer.capacity() != capacity {
                    return Err(ReaderStop::Foreign);
                }
                buffer.clear();
                return Ok(buffer);
            }
            Err(_) => {
                if empty.is_abandoned() {
                    return Err(ReaderStop::Abandoned);
                }
                backoff.wait(rt, &link.reader);
            }
        }
    }
    unreachable!()
}

impl<G: Gate> Reading<'_, G> {
    #[tactic(auto, using(crate::proofs::Batches::pushes_batch, crate::proofs::Batches::batches_nothing, crate::proofs::Batches::batches_ended, crate::proofs::Batches::ended_found))]
    /// Reads once, and pushes the batch that was read.
    fn read_once<R: Wait>(&mut self, rt: &R, empty: Buffer) -> Once
        requires { empty ≡ filled self.old.drain.profile.capacity [] }
        ensures same { IsSameDrain self.old.drain self.new.drain }
        ensures ring { SameProducer self.old.full self.new.full }
        ensures kept { (b : _) → result ≡ Once.StillEmpty b → b ≡ filled self.old.drain.profile.capacity [] }
        ensures ended { result ≡ Once.Ended → ended_in self.new.drain.takes ≡ true }
    {
        let gate = self.gate;
        gate.before_read(self.interface, self.listener);
        match self.drain.read(self.link.pair(), empty) {
            Read::Full(buffer) => {
                gate.after_read(self.interface, self.listener, buffer.len() as u32);
                push_waiting(rt, self.link, &mut self.full, buffer);
                self.link.wake_writer();
                Once::Pushed
            }
            Read::Nothing(buffer) => {
                gate.after_read(self.interface, self.listener, 0);
                Once::StillEmpty(buffer)
            }
            Read::Ended(_) => {
                gate.after_read(self.interface, self.listener, 0);
                Once::Ended
            }
        }
    }

    /// Reads until the end is found, or until nobody gives buffers back any more.
    fn read_all<R: Wait>(&mut self, rt: &R) -> ReaderStop
        ensures same { IsSameDrain self.old.drain self.new.drain }
        ensures ring { SameProducer self.old.full self.new.full }
        ensures ended { result ≡ ReaderStop.Ended → ended_in self.new.drain.takes ≡ true }
    {
        let link = self.link;
        let capacity = self.drain.capacity();
        let mut spare: Option<Buffer> = None;
        let mut backoff = Backoff::new();
        for _ in rt.forever() {
            let buffer = match spare.take() {
                Some(buffer) => buffer,
                None => match next_empty(rt, link, &mut self.empty, capacity) {
                    Ok(buffer) => buffer,
                    Err(why) => return why,
                },
            };
            match self.read_once(rt, buffer) {
                Once::Pushed => backoff = Backoff::new(),
                Once::StillEmpty(buffer) => {
                    spare = Some(buffer);
                    backoff.wait(rt, &link.reader);
                }
                Once::Ended => return ReaderStop::Ended,
            }
        }
        unreachable!()
    }
}

/// Reads all that it can, and then closes the drain. If a thread was refused, it does nothing.
pub(crate) fn read_out<G: Gate, R: Wait>(
    rt: &R,
    barrier: &StartBarrier,
    reading: Reading<'_, G>,
) -> Option<ReaderEnd>
    ensures { IfSome result (HasRead reading.entry.drain reading.entry.full) }
{
    if !barrier.is_whole(rt) {
        return None;
    }
    let mut reading = reading;
    let stop = reading.read_all(rt);
    let Reading {
        link,
        drain,
        full,
        ..
    } = reading;
    let end = ReaderEnd {
        drain: drain.close(link.pair()),
        finished: full.finish(),
        stop,
    };
    link.wake_writer();
    Some(end)
}
