//! Starting the two threads of a task, and waiting for them.

ghost use Rattle.std.specs.Prelude.{◌≡◌, IfOk, IfSome};
ghost use Rattle.rtrb.specs.Ring.{SameConsumer};
ghost use Rattle.replay.specs.TaskStates.{IsDone, threads_line, threads_pair, parts_line};

use crate::gate::Gate;
use crate::reading_thread::{ReaderEnd, Reading, ReadsOut, read_out};
use crate::start_barrier::Starter;
use crate::states::{TaskDone, TaskParts, TaskThreads};
use crate::task_link::TaskLink;
use crate::writer_thread::{WriteEnd, WritesOut, Writing, write_out};
use savefile::Sink;
use std::alloc::AllocError;
use std::snapshot::Snapshot;
use std::sync::Wait;
use std::thread::{PromisedHandle, Threads};

/// A thread that reads a listener.
type ReadingThread = PromisedHandle<Option<ReaderEnd>, ReadsOut>;

/// A thread that writes a savefile.
type WritingThread<W> = PromisedHandle<Option<WriteEnd<W>>, WritesOut<W>>;

impl<'s, E: 's, G: Gate + Sync + 's, R: Threads + Wait + Sync + 's> Starter<'s, E, G, R> {
    fn start_reader(&self, reading: Reading<'s, G>) -> Result<ReadingThread, AllocError>
        ensures { IfOk result (λ reader. (reader.promise.drain.value ≡ reading.entry.drain) × (reader.promise.full.value ≡ reading.entry.full)) }
    {
        let (rt, barrier) = (self.rt, &self.shared.barrier);
        let reads = ReadsOut {
            drain: Snapshot::of(&reading.drain),
            full: Snapshot::of(&reading.full),
        };
        Ok(
            self.scope
                .spawn_with(reads, move || read_out(rt, barrier, reading))?,
        )
    }

    fn start_writer<W: Sink + Send + Drop + 's>(
        &self,
        writing: Writing<'s, W>,
    ) -> Result<WritingThread<W>, AllocError>
        ensures output { IfOk result (λ writer. writer.promise.output.value ≡ writing.entry.output) }
        ensures rings { IfOk result (λ writer. (writer.promise.full.value ≡ writing.entry.full) × (writer.promise.rest.value ≡ writing.entry.rest)) }
    {
        let (rt, barrier) = (self.rt, &self.shared.barrier);
        let writes = WritesOut {
            output: Snapshot::of(&writing.output),
            full: Snapshot::of(&writing.full),
            rest: Snapshot::of(&writing.rest),
        };
        Ok(
            self.scope
                .spawn_with(writes, move || write_out(rt, barrier, writing))?,
        )
    }

    /// Starts the threads of a task, of which this is the place among those of its interface.
    pub(crate) fn start<W: Sink + Send + Drop + 's>(
        &self,
        interface: u32,
        listener: u32,
        link: &'s TaskLink,
        parts: TaskParts<W>,
    ) -> Result<TaskThreads<W>, AllocError>
        requires pair { parts.drain.pair ≡ link.now }
        ensures threads { IfOk result (λ c. (c.task.value ≡ parts.task.value) × (threads_pair c ≡ link.now)) }
        ensures line { IfOk result (λ c. threads_line c ≡ parts_line parts) }
    {
        let TaskParts {
            task,
            drain,
            full_in,
            full_out,
            empty_in,
            empty_out,
            rest_out,
            output,
        } = parts;
        let reading = Reading {
            gate: self.shared.gate,
            interface,
            listener,
            link,
            drain,
            full: full_in,
            empty: empty_out,
        };
        let writing = Writing {
            link,
            output,
            full: full_out,
            empty: empty_in,
            rest: rest_out,
        };
        let reader = self.start_reader(reading)?;
        let writer = self.start_writer(writing)?;
        Ok(TaskThreads {
            task,
            reader,
            writer,
        })
    }
}

/// Waits for the threads of a task, and returns what they did if all were started.
pub(crate) fn finish<W: Sink + Drop, R: Threads>(
    rt: &R,
    threads: TaskThreads<W>,
) -> Option<TaskDone<W>>
    ensures task { IfSome result (λ done. done.task.value ≡ threads.task.value) }
    ensures pair { IfSome result (λ done. done.read.drain.pair ≡ threads_pair threads) }
    ensures rest { IfSome result (λ done. SameConsumer threads.writer.promise.rest.value done.write.rest) }
    ensures done { IfSome result (IsDone W.taken W.failures) }
{
    let TaskThreads {
        task,
        reader,
        writer,
    } = threads;
    let read = reader.join(rt)?;
    let write = writer.join(rt)?;
    Some(TaskDone { task, read, write })
}
