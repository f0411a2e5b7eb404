//! The whole replay: all is made, the threads run, and the reports are made.

ghost use Rattle.std.specs.Prelude.{◌≡◌, ◌≤◌, List, [], length, IfErr, IfOk, OnOk, vec_capacity};
ghost use Rattle.std.specs.List.{AllZip};
ghost use Rattle.replay_types.specs.Refusals.{IsFirst, NoneStands};
ghost use Rattle.replay.specs.Replayed.{IsReplayed};
ghost use Rattle.replay.specs.Runs.{IsRunningOf};
ghost use Rattle.replay.specs.Setups.{HasLinks, IsPreparedFor};
ghost use Rattle.replay_types.specs.declared.task.Interface.{Interface};

use crate::gate::Gate;
use crate::reporting::report_all;
use crate::reserved::two_lists;
use crate::setup::prepare_all;
use crate::start_barrier::{Shared, StartBarrier, Starter};
use crate::states::{AllPrepared, Prepared, Running};
use crate::task_link::TaskLink;
use replay_types::{Interface, InterfaceReport, RunFault, check_all};
use savefile::{Sink, Source};
use std::alloc::{AllocError, Global};
use std::sync::Wait;
use std::thread;
use std::thread::Threads;

/// Starts the threads of all interfaces, and waits until all have ended.
fn in_threads<
    S: Source + Send + Drop,
    W: Sink + Send + Drop,
    G: Gate + Sync,
    R: Threads + Wait + Sync,
>(
    rt: &R,
    shared: &Shared<'_, G>,
    links: &[Vec<TaskLink>],
    prepared: Vec<Prepared<S, W>>,
    running: Vec<Running<S, W>>,
) -> Result<Vec<Running<S, W>>, AllocError>
    requires few { length prepared.items ≤ 16 }
    requires links { AllZip HasLinks links.now prepared.items }
    requires room { (running.items ≡ []) × (length prepared.items ≤ vec_capacity running) }
    ensures { IfOk result (λ all. AllZip IsRunningOf prepared.items all.items) }
{
    thread::scope(
        thread::scope_env(),
        rt,
        move |scope| -> Result<Vec<Running<S, W>>, AllocError>
            requires { (length prepared.items ≤ 16) × AllZip HasLinks links.now prepared.items
                × (running.items ≡ []) × (length prepared.items ≤ vec_capacity running) }
            ensures { IfOk result (λ all. AllZip IsRunningOf prepared.items all.items) }
        {
            let starter = Starter { rt, scope, shared };
            starter.launch_all(links, prepared, running)
        },
    )
}

/// Replays interfaces for which all is made.
fn replay_prepared<
    S: Source + Send + Drop,
    W: Sink + Send + Drop,
    G: Gate + Sync,
    R: Threads + Wait + Sync,
>(
    rt: &R,
    alloc: Global,
    gate: &G,
    all: AllPrepared<S, W>,
) -> Result<Vec<InterfaceReport<S, W>>, AllocError>
    requires few { length all.prepared.items ≤ 16 }
    requires links { AllZip HasLinks all.links.items all.prepared.items }
    ensures { IfOk result (λ reports. (interfaces : List (Interface S W)) → AllZip IsPreparedFor interfaces all.prepared.items →
        AllZip (IsReplayed S.left S.failures W.taken W.failures) interfaces reports.items) }
{
    let (reports, running) = two_lists(alloc, all.prepared.len(), all.prepared.len())?;
    let AllPrepared { links, prepared } = all;
    let shared = Shared {
        barrier: StartBarrier::new(),
        gate,
        alloc,
    };
    let running = in_threads(rt, &shared, links.as_slice(), prepared, running)?;
    let Some(reports) = report_all(rt, links, running, reports) else {
        return Err(AllocError);
    };
    Ok(reports)
}

/// Replays the captures of each interface to its listeners, in threads, and writes what each
/// listener keeps as a savefile.
///
/// One thread for each interface reads its captures in order, gives each packet to all its
/// listeners, and flushes those that are due. Two threads for each listener read its buffers and
/// write its savefile. The call returns a report for each interface, in order, with the sources,
/// and in it one for each listener, in order, with the sinks. The sources that were not read come
/// back as they were.
///
/// What is promised, whatever the order of the threads. *Of an interface*: the packets that arrive
/// are those of its captures, one capture after the other, each with its capture's number and its
/// place there, from 0; the first capture with a fault ends them, after its packets before the
/// fault, and the end names it. *Of a listener*: the report's `past` is that of a pair that was
/// settled, and was made with the task's capacity and mode. The feeder of this pair was asked for
/// each of these packets and for the flushes that are due, and its calls with the drain's reads
/// make one legal history of the tap's list, whose counts are the report's. Its sink took exactly
/// `sent` bytes. If it ends [`Clean`](crate::TaskEnd::Clean), all packets were received, and the
/// sink took the text of all that looking back keeps of that history; after
/// [`Write`](crate::TaskEnd::Write) it took a beginning of that text, and the sink failed or the
/// text would have 2^64 bytes. Which packets find no room depends on the threads; if the end is
/// Clean, each that matched is written or dropped.
///
/// Before anything is read, written or made the numbers are tested, and the first fault is
/// answered: [`RunFault::TooMany`], then by interface and task [`RunFault::Open`].
/// [`RunFault::NoStart`] comes only if none of these applies: memory or a thread was refused, and
/// nothing was read or written, and the gate was not called (tested, not proved). What the call
/// grows it grows before the threads' work (tried by hand, not proved), but for the half mebibyte
/// with which each capture is read; if that is refused it is the capture's fault.
pub fn run<
    S: Source + Send + Drop,
    W: Sink + Send + Drop,
    G: Gate + Sync,
    R: Threads + Wait + Sync,
>(
    rt: &R,
    alloc: Global,
    interfaces: Vec<Interface<S, W>>,
    gate: &G,
) -> Result<Vec<InterfaceReport<S, W>>, RunFault>
    ensures stand { OnOk result (NoneStands interfaces.items) }
    ensures first { IfErr result (IsFirst interfaces.items) }
    ensures replayed { IfOk result (λ reports. AllZip (IsReplayed S.left S.failures W.taken W.failures) interfaces.items reports.items) }
{
    check_all(interfaces.as_slice())?;
    let all = prepare_all(alloc, interfaces)?;
    Ok(replay_prepared(rt, alloc, gate, all)?)
}
