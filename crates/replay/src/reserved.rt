//! Room for what threads hand back, made before they are started.

ghost use Rattle.std.specs.Prelude.{◌≡◌, ◌≤◌, [], vec_capacity, IfOk};
ghost use Rattle.replay.specs.Rooms.{HasRoom};

use crate::states::{EndedFeeder, TaskThreads};
use replay_types::ListenerReport;
use savefile::Sink;
use std::alloc::{AllocError, Global};

/// Room for what the threads of an interface hand back.
#[derive(Drop)]
pub(crate) struct Reserved<R, W: Sink + Drop> {
    pub(crate) sources: Vec<R>,
    pub(crate) ends: Vec<EndedFeeder>,
    pub(crate) all_threads: Vec<TaskThreads<W>>,
    pub(crate) reports: Vec<ListenerReport<W>>,
}

/// Room for this many of one kind and of another: two lists that are still empty.
pub(crate) fn two_lists<X: Drop, Y: Drop>(
    alloc: Global,
    first: usize,
    second: usize,
) -> Result<(Vec<X>, Vec<Y>), AllocError>
    ensures empty { IfOk result (λ p. (p.0.items ≡ []) × (p.1.items ≡ [])) }
    ensures enough { IfOk result (λ p. (first ≤ vec_capacity p.0) × (second ≤ vec_capacity p.1)) }
{
    let ones = Vec::with_capacity(alloc, first)?;
    let others = Vec::with_capacity(alloc, second)?;
    Ok((ones, others))
}

/// Room for this many captures and tasks.
pub(crate) fn room_for<R: Drop, W: Sink + Drop>(
    alloc: Global,
    captures: usize,
    tasks: usize,
) -> Result<Reserved<R, W>, AllocError>
    ensures { IfOk result (λ room. HasRoom captures tasks room) }
{
    let played = two_lists(alloc, captures, tasks)?;
    let (all_threads, reports) = two_lists(alloc, tasks, tasks)?;
    let (sources, ends) = played;
    Ok(Reserved {
        sources,
        ends,
        all_threads,
        reports,
    })
}
