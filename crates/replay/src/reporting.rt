//! Waiting for the threads of interfaces, and reporting what became of them.

ghost use Rattle.std.specs.Prelude.{◌≡◌, ◌≤◌, [], length, map, vec_capacity, List, All, IfSome};
ghost use Rattle.std.specs.List.{AllZip};
ghost use Rattle.handover.specs.Asks.{asks};
ghost use Rattle.handover.specs.Rule.{profile_of};
ghost use Rattle.listener.specs.LookingBack.{all_accepted};
ghost use Rattle.listener.specs.Messages.{Arrival};
ghost use Rattle.replay.specs.TaskStates.{threads_line, threads_pair, threads_task};
ghost use Rattle.replay.specs.Lines.{ended_all, ended_of, fed_all};
ghost use Rattle.replay.specs.Replayed.{IsServed};
ghost use Rattle.replay.specs.Reports.{IsReported};
ghost use Rattle.replay.specs.Rings.{ring_of};
ghost use Rattle.replay.specs.RunsEnded.{HasItsPairs, IsReportOf, past_pair};
ghost use Rattle.replay.specs.Writing.{IsTimely};

use crate::replaying_thread::PlayEnd;
use crate::settling::settled;
use crate::states::{EndedFeeder, Running, TaskThreads};
use crate::task_link::TaskLink;
use crate::task_threads::finish;
use replay_types::{InterfaceReport, ListenerReport};
use savefile::{Sink, Source};
use std::thread::Threads;

/// Waits for the threads of a task, and settles it.
fn report_task<W: Sink + Drop, R: Threads>(
    rt: &R,
    link: TaskLink,
    ending: EndedFeeder,
    threads: TaskThreads<W>,
) -> Option<ListenerReport<W>>
    requires pair { (ending.feed.pair ≡ link) × (threads_pair threads ≡ link) }
    requires profile { ending.feed.profile ≡ profile_of threads.task.value.capacity threads.task.value.mode }
    requires ring { ring_of ending.rest_in.end ≡ ring_of threads.writer.promise.rest.value.end }
    requires timely { All (λ m. IsTimely m.nanos) (all_accepted (asks ending.feed.feeds)) }
    ensures report { IfSome result (λ report. IsReported W.taken W.failures threads.task.value ending.feed.feeds report.past.takes report) }
    ensures past { IfSome result (λ report. (report.past.pair ≡ threads_pair threads) × (report.past.feeds ≡ ending.feed.feeds)
        × (report.past.profile ≡ ending.feed.profile)) }
{
    let done = finish(rt, threads)?;
    Some(settled(link, ending, done))
}

/// Waits for the threads of an interface's tasks, and settles them.
fn report_tasks<W: Sink + Drop, R: Threads>(
    rt: &R,
    links: Vec<TaskLink>,
    ends: Vec<EndedFeeder>,
    all_threads: Vec<TaskThreads<W>>,
    mut reports: Vec<ListenerReport<W>>,
) -> Option<Vec<ListenerReport<W>>>
    requires pairs { map threads_pair all_threads.items ≡ links.items }
    requires fed { (playlist : List Arrival) × All (λ a. IsTimely a.packet.nanos) playlist × (map ended_of ends.items ≡ ended_all (map (fed_all playlist) (map threads_line all_threads.items))) }
    requires room { (reports.items ≡ []) × (length all_threads.items ≤ vec_capacity reports) }
    ensures pairs { IfSome result (λ reports. map past_pair reports.items ≡ map threads_pair all_threads.items) }
    ensures served { IfSome result (λ reports. (playlist : List Arrival) → All (λ a. IsTimely a.packet.nanos) playlist →
        map ended_of ends.items ≡ ended_all (map (fed_all playlist) (map threads_line all_threads.items)) →
        AllZip (IsServed W.taken W.failures playlist) (map threads_task all_threads.items) reports.items) }
{
    let mut links = links.into_iter();
    let mut ends = ends.into_iter();
    for threads in all_threads {
        let Some(link) = links.next() else {
            unreachable!()
        };
        let Some(ending) = ends.next() else {
            unreachable!()
        };
        let report = report_task(rt, link, ending, threads)?;
        reports.push_reserved(report);
    }
    Some(reports)
}

/// Waits for the threads of an interface.
fn report_one<S: Source + Drop, W: Sink + Drop, R: Threads>(
    rt: &R,
    links: Vec<TaskLink>,
    running: Running<S, W>,
) -> Option<InterfaceReport<S, W>>
    requires { map threads_pair running.all_threads.items ≡ links.items }
    ensures { IfSome result (IsReportOf S.left S.failures W.taken W.failures running) }
{
    let Running {
        player,
        all_threads,
        reports,
    } = running;
    let PlayEnd { ends, sources, end } = player.join(rt)?;
    Some(InterfaceReport {
        end,
        sources,
        listeners: report_tasks(rt, links, ends, all_threads, reports)?,
    })
}

/// Waits for the threads of all interfaces.
pub(crate) fn report_all<S: Source + Drop, W: Sink + Drop, R: Threads>(
    rt: &R,
    links: Vec<Vec<TaskLink>>,
    running: Vec<Running<S, W>>,
    mut reports: Vec<InterfaceReport<S, W>>,
) -> Option<Vec<InterfaceReport<S, W>>>
    requires pairs { AllZip HasItsPairs links.items running.items }
    requires room { (reports.items ≡ []) × (length running.items ≤ vec_capacity reports) }
    ensures { IfSome result (λ reports. AllZip (IsReportOf S.left S.failures W.taken W.failures) running.items reports.items) }
{
    let mut links = links.into_iter();
    for one in running {
        let Some(its_links) = links.next() else {
            unreachable!()
        };
        reports.push_reserved(report_one(rt, its_links, one)?);
    }
    Some(reports)
}
