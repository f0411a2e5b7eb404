//! The states of a task: what its two threads are given, these threads, and what they handed back.

ghost use Rattle.std.specs.Prelude.{◌≡◌, []};
ghost use Rattle.rtrb.specs.Ring.{sent, received, IsPair};
ghost use Rattle.handover.specs.Rule.{profile_of};

use crate::capture_output::OutputFile;
use crate::reading_thread::{ReaderEnd, ReadsOut};
use crate::writer_thread::{WriteEnd, WritesOut};
use handover::Drain;
use listener::Buffer;
use replay_types::Task;
use rtrb::{Consumer, Producer};
use savefile::Sink;
use std::snapshot::Snapshot;
use std::thread::PromisedHandle;

/// All that the two threads of a task are given.
#[derive(Drop)]
pub(crate) struct TaskParts<W> {
    pub(crate) task: Snapshot<Task<W>>,
    pub(crate) drain: Drain,
    pub(crate) full_in: Producer<Buffer>,
    pub(crate) full_out: Consumer<Buffer>,
    pub(crate) empty_in: Producer<Buffer>,
    pub(crate) empty_out: Consumer<Buffer>,
    pub(crate) rest_out: Consumer<Buffer>,
    pub(crate) output: OutputFile<W>,
    ghost profile: { drain.profile ≡ profile_of task.value.capacity task.value.mode },
    ghost out: { (output.sink ≡ task.value.sink) × (output.order ≡ task.value.order) × (output.unit ≡ task.value.unit) × (output.snap ≡ task.value.snap) },
    ghost new: { drain.takes ≡ [] },
    ghost ring: { IsPair full_in full_out × (sent full_in ≡ []) × (received full_out ≡ []) },
    ghost rest: { received rest_out ≡ [] },
}

/// The two threads of a task, which run.
#[derive(Drop)]
pub(crate) struct TaskThreads<W: Sink + Drop> {
    pub(crate) task: Snapshot<Task<W>>,
    pub(crate) reader: PromisedHandle<Option<ReaderEnd>, ReadsOut>,
    pub(crate) writer: PromisedHandle<Option<WriteEnd<W>>, WritesOut<W>>,
    ghost profile: { reader.promise.drain.value.profile ≡ profile_of task.value.capacity task.value.mode },
    ghost out: { (writer.promise.output.value.sink ≡ task.value.sink) × (writer.promise.output.value.order ≡ task.value.order)
        × (writer.promise.output.value.unit ≡ task.value.unit) × (writer.promise.output.value.snap ≡ task.value.snap) },
    ghost ring: { IsPair reader.promise.full.value writer.promise.full.value },
}

/// What the two threads of a task handed back.
#[derive(Drop)]
pub(crate) struct TaskDone<W: Sink> {
    pub(crate) task: Snapshot<Task<W>>,
    pub(crate) read: ReaderEnd,
    pub(crate) write: WriteEnd<W>,
}
