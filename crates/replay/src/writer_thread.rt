//! The thread that writes what was read.

ghost use Rattle.std.specs.Prelude.{◌≡◌, ◌++◌, IfSome, List, []};
ghost use Rattle.rtrb.specs.Ring.{received, SameConsumer};
ghost use Rattle.listener.specs.Laws.{joined};
ghost use Rattle.listener.specs.declared.message.Message.{Message};
ghost use Rattle.replay.specs.Reading.{messages_of};
ghost use Rattle.replay.specs.Writing.{Writes};
ghost use Rattle.replay.specs.declared.capture_output.OutputFile.{OutputFile};
ghost use Rattle.replay.specs.WrittenOut.{HasWrittenOut};

use crate::backoff::Backoff;
use crate::capture_output::{OutputFile, Written};
use crate::start_barrier::StartBarrier;
use crate::task_link::TaskLink;
use listener::Buffer;
use rtrb::{Consumer, Producer};
use savefile::Sink;
use std::snapshot::Snapshot;
use std::sync::Wait;
use std::thread::Promise;

/// What the writer thread of a task is given.
#[derive(Drop)]
pub(crate) struct Writing<'a, W> {
    pub(crate) link: &'a TaskLink,
    pub(crate) output: OutputFile<W>,
    /// Of what is read.
    pub(crate) full: Consumer<Buffer>,
    /// Of the buffers that go back.
    pub(crate) empty: Producer<Buffer>,
    pub(crate) rest: Consumer<Buffer>,
    ghost new: { (received full ≡ []) × (received rest ≡ []) },
}

/// What a writer thread hands back.
#[derive(Drop)]
pub(crate) struct WriteEnd<W> {
    pub(crate) written: Written<W>,
    /// May have buffers that were not written.
    pub(crate) full: Consumer<Buffer>,
    /// The same of the rest.
    pub(crate) rest: Consumer<Buffer>,
}

/// A writer thread hands back what it wrote into this savefile, out of these rings; nothing if a
/// thread was refused.
#[derive(Drop)]
pub(crate) struct WritesOut<W> {
    pub(crate) output: Snapshot<OutputFile<W>>,
    pub(crate) full: Snapshot<Consumer<Buffer>>,
    pub(crate) rest: Snapshot<Consumer<Buffer>>,
}

impl<W: Sink> Promise<Option<WriteEnd<W>>> for WritesOut<W> {
    ghost kept_by = { λ p r. IfSome r (HasWrittenOut W.taken W.failures p.output.value p.full.value p.rest.value) };
}

/// Gives an empty buffer back. If nobody takes it, it is let go.
fn give_back(empty: &mut Producer<Buffer>, buffer: Buffer) {
    let _ = empty.push(buffer);
}

/// Waits a while. Before it parks the sink hands on what it has gathered.
fn wait<W: Sink, R: Wait>(rt: &R, link: &TaskLink, written: &mut Written<W>, backoff: &mut Backoff)
    ensures { (output : OutputFile W) (messages : List Message) → Writes W.taken W.failures output messages written.old →
        Writes W.taken W.failures output messages written.new }
{
    if backoff.is_out() {
        written.flush();
    }
    backoff.wait(rt, &link.writer);
}

/// Writes what comes through the ring of what is read, until its other end is dropped and nothing
/// is in it, or a fault came. The buffers go back, empty.
fn write_read<W: Sink, R: Wait>(
    rt: &R,
    link: &TaskLink,
    written: &mut Written<W>,
    full: &mut Consumer<Buffer>,
    mut empty: Producer<Buffer>,
)
    ensures ring { SameConsumer full.old full.new }
    ensures writes { (output : OutputFile W) (messages : List Message) →
        Writes W.taken W.failures output (messages ++ joined (messages_of (received full.old))) written.old →
        Writes W.taken W.failures output (messages ++ joined (messages_of (received full.new))) written.new }
{
    let mut last = false;
    let mut backoff = Backoff::new();
    for _ in rt.forever() {
        if !written.works {
            break;
        }
        match full.pop() {
            Ok(buffer) => {
                written.put_all(&buffer);
                give_back(&mut empty, buffer);
                link.wake_reader();
                backoff = Backoff::new();
            }
            Err(_) => {
                if last {
                    break;
                }
                // Something may have come before the other end was dropped: look once more.
                last = full.is_abandoned();
                if !last {
                    wait(rt, link, written, &mut backoff);
                }
            }
        }
    }
}

/// Writes the rest, which comes once the feeder has ended, if no fault came.
fn write_rest<W: Sink, R: Wait>(
    rt: &R,
    link: &TaskLink,
    written: &mut Written<W>,
    rest: &mut Consumer<Buffer>,
)
    ensures ring { SameConsumer rest.old rest.new }
    ensures writes { (output : OutputFile W) (messages : List Message) →
        Writes W.taken W.failures output (messages ++ joined (messages_of (received rest.old))) written.old →
        Writes W.taken W.failures output (messages ++ joined (messages_of (received rest.new))) written.new }
{
    let mut backoff = Backoff::new();
    for _ in rt.forever() {
        if !written.works {
            return;
        }
        if let Ok(buffer) = rest.pop() {
            written.put_all(&buffer);
            return;
        }
        wait(rt, link, written, &mut backoff);
    }
}

/// Writes what is read, and last the rest. The sink hands on what it has gathered before the thread
/// parks, and in the end. If a thread was refused, it does nothing.
pub(crate) fn write_out<W: Sink + Drop, R: Wait>(
    rt: &R,
    barrier: &StartBarrier,
    writing: Writing<'_, W>,
) -> Option<WriteEnd<W>>
    ensures { IfSome result (HasWrittenOut W.taken W.failures writing.entry.output writing.entry.full writing.entry.rest) }
{
    if !barrier.is_whole(rt) {
        return None;
    }
    let Writing {
        link,
        output,
        mut full,
        empty,
        mut rest,
    } = writing;
    let mut written = Written::open(output);
    write_read(rt, link, &mut written, &mut full, empty);
    link.wake_reader();
    write_rest(rt, link, &mut written, &mut rest);
    written.flush();
    Some(WriteEnd {
        written,
        full,
        rest,
    })
}
