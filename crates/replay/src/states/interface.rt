//! The states of an interface: made, and running.

ghost use Rattle.std.specs.Prelude.{◌≡◌, ◌≤◌, length, map, vec_capacity};
ghost use Rattle.replay.specs.TaskStates.{threads_line, parts_line};
ghost use Rattle.replay.specs.Lines.{line_of};
ghost use Rattle.replay.specs.Rooms.{HasRoom};

use crate::replaying_thread::{PlayEnd, PlaysOut};
use crate::reserved::Reserved;
use crate::states::{FeederSlot, TaskParts, TaskThreads};
use crate::task_link::TaskLink;
use replay_types::ListenerReport;
use savefile::{Sink, Source};
use std::thread::PromisedHandle;

/// An interface for which all is made; the links of its tasks are apart.
#[derive(Drop)]
pub(crate) struct Prepared<R, W: Sink + Drop> {
    pub(crate) captures: Vec<R>,
    pub(crate) slots: Vec<FeederSlot>,
    pub(crate) all_parts: Vec<TaskParts<W>>,
    pub(crate) room: Reserved<R, W>,
    ghost lines: { map line_of slots.items ≡ map parts_line all_parts.items },
    ghost few: { (length captures.items ≤ 65536) × (length all_parts.items ≤ 64) },
    ghost enough: { HasRoom (length captures.items) (length all_parts.items) room },
}

/// All interfaces, and the links of their tasks.
#[derive(Drop)]
pub(crate) struct AllPrepared<R, W: Sink + Drop> {
    pub(crate) links: Vec<Vec<TaskLink>>,
    pub(crate) prepared: Vec<Prepared<R, W>>,
}

/// An interface whose threads run.
#[derive(Drop)]
pub(crate) struct Running<R: Source + Drop, W: Sink + Drop> {
    pub(crate) player: PromisedHandle<Option<PlayEnd<R>>, PlaysOut<R>>,
    pub(crate) all_threads: Vec<TaskThreads<W>>,
    pub(crate) reports: Vec<ListenerReport<W>>,
    ghost lines: { map line_of player.promise.slots.value.items ≡ map threads_line all_threads.items },
    ghost room: { (length reports.items ≡ 0) × (length all_threads.items ≤ vec_capacity reports) },
}
