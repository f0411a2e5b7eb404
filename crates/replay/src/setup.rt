//! Makes all that the threads of a replay are given, before any of them is started.

ghost use Rattle.std.specs.Prelude.{◌≡◌, ◌<◌, ◌≤◌, [], All, IfOk, map, vec_capacity};
ghost use Rattle.std.specs.List.{AllZip};
ghost use Rattle.rtrb.specs.Ring.{known_free, received, sent, IsPair};
ghost use Rattle.replay.specs.TaskStates.{parts_line, parts_pair, parts_task};
ghost use Rattle.replay.specs.Lines.{line_of};
ghost use Rattle.replay_types.specs.Refusals.{IsInBounds};
ghost use Rattle.replay.specs.Rings.{ring_of};
ghost use Rattle.replay.specs.Setups.{HasLinks, IsPreparedFor};

use crate::capture_output::OutputFile;
use crate::reserved::{room_for, two_lists};
use crate::states::{AllPrepared, FeederSlot, Prepared, TaskParts};
use crate::task_link::TaskLink;
use handover::pair_as;
use listener::Buffer;
use replay_types::{Interface, Task};
use rtrb::{Consumer, Producer, RingBuffer};
use savefile::Sink;
use std::alloc::{AllocError, Global};
use std::snapshot::Snapshot;

/// What is made for a task: what its two ends share, its feeder, and what its threads are given.
#[derive(Drop)]
struct Made<W> {
    link: TaskLink,
    slot: FeederSlot,
    parts: TaskParts<W>,
}

/// The rings of a task: of what is read, of empty buffers, and of the rest.
#[derive(Drop)]
struct Rings {
    full: (Producer<Buffer>, Consumer<Buffer>),
    empty: (Producer<Buffer>, Consumer<Buffer>),
    rest: (Producer<Buffer>, Consumer<Buffer>),
}

/// What is made for the tasks of an interface, in order.
#[derive(Drop)]
struct AllMade<W> {
    links: Vec<TaskLink>,
    slots: Vec<FeederSlot>,
    all_parts: Vec<TaskParts<W>>,
}

/// A ring with this many empty buffers in it.
fn spare_buffers(
    alloc: Global,
    spares: usize,
    capacity: usize,
) -> Result<(Producer<Buffer>, Consumer<Buffer>), AllocError> {
    let (mut empty_in, empty_out) = RingBuffer::new(alloc, spares)?;
    for _ in 0..spares {
        let Ok(buffer) = Buffer::new(alloc, capacity) else {
            return Err(AllocError);
        };
        empty_in.push_reserved(buffer);
    }
    Ok((empty_in, empty_out))
}

/// Makes the rings of a task.
fn rings_for(alloc: Global, spares: usize, capacity: usize) -> Result<Rings, AllocError>
    ensures full { IfOk result (λ r. IsPair r.full.0 r.full.1 × (sent r.full.0 ≡ []) × (received r.full.1 ≡ [])) }
    ensures rest { IfOk result (λ r. (ring_of r.rest.0.end ≡ ring_of r.rest.1.end) × (sent r.rest.0 ≡ []) × (0 < known_free r.rest.0) × (received r.rest.1 ≡ [])) }
{
    let full = RingBuffer::new(alloc, spares)?;
    let empty = spare_buffers(alloc, spares, capacity)?;
    let rest = RingBuffer::new(alloc, 1)?;
    Ok(Rings { full, empty, rest })
}

/// Makes the two ends of a task, its rings and its buffers.
fn make<W: Sink + Drop>(alloc: Global, task: Task<W>) -> Result<Made<W>, AllocError>
    ensures task { IfOk result (λ m. m.parts.task.value ≡ task) }
    ensures pair { IfOk result (λ m. m.parts.drain.pair ≡ m.link) }
    ensures line { IfOk result (λ m. line_of m.slot ≡ parts_line m.parts) }
{
    let about = Snapshot::of(&task);
    let Rings { full, empty, rest } = rings_for(alloc, task.spares, task.capacity)?;
    let Task {
        program,
        snap,
        capacity,
        mode,
        flush_every,
        spares: _,
        order,
        unit,
        sink,
    } = task;
    let Ok((link, feeder, drain)) = pair_as(alloc, program, snap, capacity, mode) else {
        return Err(AllocError);
    };
    let parts = TaskParts {
        task: about,
        drain,
        full_in: full.0,
        full_out: full.1,
        empty_in: empty.0,
        empty_out: empty.1,
        rest_out: rest.1,
        output: OutputFile {
            sink,
            order,
            unit,
            snap,
        },
    };
    Ok(Made {
        link: TaskLink::new(link),
        slot: FeederSlot {
            feeder,
            flush_every,
            rest_in: rest.0,
        },
        parts,
    })
}

/// Room for what is made for this many tasks.
fn room_for_made<W: Sink + Drop>(alloc: Global, tasks: usize) -> Result<AllMade<W>, AllocError>
    ensures empty { IfOk result (λ m. (m.links.items ≡ []) × (m.slots.items ≡ []) × (m.all_parts.items ≡ [])) }
    ensures enough { IfOk result (λ m. (tasks ≤ vec_capacity m.links) × (tasks ≤ vec_capacity m.slots) × (tasks ≤ vec_capacity m.all_parts)) }
{
    let all_parts = Vec::with_capacity(alloc, tasks)?;
    let (links, slots) = two_lists(alloc, tasks, tasks)?;
    Ok(AllMade {
        links,
        slots,
        all_parts,
    })
}

/// Makes all that the tasks of an interface need.
fn make_all<W: Sink + Drop>(alloc: Global, tasks: Vec<Task<W>>) -> Result<AllMade<W>, AllocError>
    ensures tasks { IfOk result (λ m. map parts_task m.all_parts.items ≡ tasks.items) }
    ensures pairs { IfOk result (λ m. map parts_pair m.all_parts.items ≡ m.links.items) }
    ensures lines { IfOk result (λ m. map line_of m.slots.items ≡ map parts_line m.all_parts.items) }
{
    let mut all = room_for_made(alloc, tasks.len())?;
    for task in tasks {
        let Made { link, slot, parts } = make(alloc, task)?;
        all.links.push_reserved(link);
        all.slots.push_reserved(slot);
        all.all_parts.push_reserved(parts);
    }
    Ok(all)
}

/// Makes all of an interface.
fn prepare<R: Drop, W: Sink + Drop>(
    alloc: Global,
    interface: Interface<R, W>,
) -> Result<(Vec<TaskLink>, Prepared<R, W>), AllocError>
    requires { IsInBounds interface }
    ensures links { IfOk result (λ p. HasLinks p.0 p.1) }
    ensures prepared { IfOk result (λ p. IsPreparedFor interface p.1) }
{
    let room = room_for(alloc, interface.captures.len(), interface.tasks.len())?;
    let Interface { captures, tasks } = interface;
    let AllMade {
        links,
        slots,
        all_parts,
    } = make_all(alloc, tasks)?;
    let prepared = Prepared {
        captures,
        slots,
        all_parts,
        room,
    };
    Ok((links, prepared))
}

/// Makes all of all interfaces.
pub(crate) fn prepare_all<R: Drop, W: Sink + Drop>(
    alloc: Global,
    interfaces: Vec<Interface<R, W>>,
) -> Result<AllPrepared<R, W>, AllocError>
    requires { All IsInBounds interfaces.items }
    ensures links { IfOk result (λ all. AllZip HasLinks all.links.items all.prepared.items) }
    ensures prepared { IfOk result (λ all. AllZip IsPreparedFor interfaces.items all.prepared.items) }
{
    let (mut links, mut prepared) = two_lists(alloc, interfaces.len(), interfaces.len())?;
    for interface in interfaces {
        let (its_links, its_own) = prepare(alloc, interface)?;
        links.push_reserved(its_links);
        prepared.push_reserved(its_own);
    }
    Ok(AllPrepared { links, prepared })
}
