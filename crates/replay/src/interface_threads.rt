//! Starting the threads of interfaces.

ghost use Rattle.std.specs.Prelude.{◌≡◌, ◌≤◌, [], length, map, IfOk, vec_capacity};
ghost use Rattle.std.specs.List.{AllZip};
ghost use Rattle.replay.specs.TaskStates.{threads_line, threads_pair, threads_task, parts_line, parts_pair, parts_task};
ghost use Rattle.replay.specs.Runs.{IsRunningOf};
ghost use Rattle.replay.specs.Setups.{HasLinks};

use crate::gate::Gate;
use crate::replaying_thread::{Play, PlayEnd, Player, PlaysOut, play_out};
use crate::reserved::Reserved;
use crate::start_barrier::Starter;
use crate::states::{Prepared, Running, TaskParts, TaskThreads};
use crate::task_link::TaskLink;
use savefile::{Sink, Source};
use std::alloc::AllocError;
use std::snapshot::Snapshot;
use std::sync::Wait;
use std::thread::{PromisedHandle, Threads};

/// A thread that replays the captures of an interface.
type ReplayingThread<S> = PromisedHandle<Option<PlayEnd<S>>, PlaysOut<S>>;

impl<'s, E: 's, G: Gate + Sync + 's, R: Threads + Wait + Sync + 's> Starter<'s, E, G, R> {
    /// Starts the threads of all tasks of an interface.
    fn start_all<W: Sink + Send + Drop + 's>(
        &self,
        interface: u32,
        links: &'s [TaskLink],
        all_parts: Vec<TaskParts<W>>,
        mut all_threads: Vec<TaskThreads<W>>,
    ) -> Result<Vec<TaskThreads<W>>, AllocError>
        requires pairs { map parts_pair all_parts.items ≡ links.now }
        requires few { length all_parts.items ≤ 64 }
        requires room { (all_threads.items ≡ []) × (length all_parts.items ≤ vec_capacity all_threads) }
        ensures lines { IfOk result (λ all. map threads_line all.items ≡ map parts_line all_parts.items) }
        ensures pairs { IfOk result (λ all. map threads_pair all.items ≡ map parts_pair all_parts.items) }
        ensures tasks { IfOk result (λ all. map threads_task all.items ≡ map parts_task all_parts.items) }
    {
        for parts in all_parts {
            let k = all_threads.len();
            let threads = self.start(interface, k as u32, &links[k], parts)?;
            all_threads.push_reserved(threads);
        }
        Ok(all_threads)
    }

    fn start_player<S: Source + Send + Drop + 's>(
        &self,
        play: Play<'s, S>,
    ) -> Result<ReplayingThread<S>, AllocError>
        ensures slots { IfOk result (λ player. player.promise.slots.value ≡ play.entry.player.slots) }
        ensures captures { IfOk result (λ player. player.promise.captures.value ≡ play.entry.captures) }
    {
        let (rt, shared) = (self.rt, self.shared);
        let plays = PlaysOut {
            slots: Snapshot::of(&play.player.slots),
            captures: Snapshot::of(&play.captures),
        };
        Ok(
            self.scope
                .spawn_with(plays, move || play_out(rt, shared, play))?,
        )
    }

    /// Starts the threads of an interface.
    fn launch_one<S: Source + Send + Drop + 's, W: Sink + Send + Drop + 's>(
        &self,
        interface: u32,
        links: &'s [TaskLink],
        prepared: Prepared<S, W>,
    ) -> Result<Running<S, W>, AllocError>
        requires pairs { map parts_pair prepared.all_parts.items ≡ links.now }
        ensures { IfOk result (λ running. IsRunningOf prepared running) }
    {
        let Prepared {
            captures,
            slots,
            all_parts,
            room,
        } = prepared;
        let Reserved {
            sources,
            ends,
            all_threads,
            reports,
        } = room;
        let player = Player {
            interface,
            links,
            slots,
            arrived: 0,
        };
        let play = Play {
            player,
            captures,
            ends,
            sources,
        };
        let player = self.start_player(play)?;
        let all_threads = self.start_all(interface, links, all_parts, all_threads)?;
        Ok(Running {
            player,
            all_threads,
            reports,
        })
    }

    /// Starts the threads of all interfaces, and lets them go. If one is refused, the others end
    /// without having done anything.
    pub(crate) fn launch_all<S: Source + Send + Drop + 's, W: Sink + Send + Drop + 's>(
        &self,
        links: &'s [Vec<TaskLink>],
        prepared: Vec<Prepared<S, W>>,
        mut running: Vec<Running<S, W>>,
    ) -> Result<Vec<Running<S, W>>, AllocError>
        requires few { length prepared.items ≤ 16 }
        requires links { AllZip HasLinks links.now prepared.items }
        requires room { (running.items ≡ []) × (length prepared.items ≤ vec_capacity running) }
        ensures { IfOk result (λ all. AllZip IsRunningOf prepared.items all.items) }
    {
        let mut all_started = self.shared.barrier.begin(self.rt);
        for one in prepared {
            let i = running.len();
            running.push_reserved(self.launch_one(i as u32, links[i].as_slice(), one)?);
        }
        *all_started = true;
        Ok(running)
    }
}
