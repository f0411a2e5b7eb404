//! The thread that reads the captures of an interface: it gives each packet to all feeders, flushes
//! those that are due, and ends them.

ghost use Rattle.std.specs.Prelude.{◌≡◌, ◌≢◌, ℕ, ◌-◌, ◌<◌, ◌≤◌, ◌^◌, List, ◌∷◌, ◌++◌, [], All, IfSome, Option, length, map, vec_capacity};
ghost use Rattle.listener.specs.LookingBack.{count, is_arrival};
ghost use Rattle.listener.specs.Messages.{Arrival, arrival};
ghost use Rattle.savefile.specs.declared.header.Header.{Header};
ghost use Rattle.savefile.specs.Reader.{HasGiven};
ghost use Rattle.replay.specs.Arrived.{HasGivenPackets};
ghost use Rattle.replay.specs.Captures.{ComesBack, GivesPlaylist};
ghost use Rattle.replay.specs.Lines.{HasArrived, IsFresh, Line, ended_all, ended_line, ended_of, fed_with, line_of, slot_pair};
ghost use Rattle.replay.specs.PlayedOut.{HasPlayedOut};
ghost use Rattle.replay.specs.Playing.{is_due};
ghost use Rattle.replay.specs.Writing.{IsTimely};

use crate::gate::Gate;
use crate::start_barrier::Shared;
use crate::states::{EndedFeeder, FeederSlot};
use crate::task_link::TaskLink;
use listener::Fed;
use replay_types::InterfaceEnd;
use savefile::{PacketRef, Reader, Source};
use std::alloc::Global;
use std::snapshot::Snapshot;
use std::sync::Wait;
use std::thread::Promise;

/// The most packets that arrive at an interface.
const MAX_ARRIVALS: u64 = u64::MAX - 1;

/// The feeders of an interface, beside the links of their tasks, and how many packets arrived
/// there.
#[derive(Drop)]
pub(crate) struct Player<'a> {
    pub(crate) interface: u32,
    pub(crate) links: &'a [TaskLink],
    pub(crate) slots: Vec<FeederSlot>,
    pub(crate) arrived: u64,
}

/// A packet that arrives: its number among the arrivals of the interface, its capture, and its
/// place there.
#[derive(Clone, Copy)]
pub(crate) struct PlacedArrival<'a> {
    pub(crate) n: u64,
    pub(crate) capture: u32,
    pub(crate) place: u64,
    pub(crate) packet: &'a PacketRef<'a>,
}

/// Whether a flush is due after arrival n.
fn is_due(every: u32, n: u64) -> bool
    requires { n < 2 ^ 64 - 2 }
    ensures { result ≡ is_due every n }
{
    every != 0 && (n + 1) % every as u64 == 0
}

/// Whether an arrival made the store the hold.
fn is_hold_made(fed: Fed) -> bool {
    matches!(fed, Fed::Held | Fed::Rotated)
}

fn wake_reader_if(link: &TaskLink, is_hold_made: bool) {
    if is_hold_made {
        link.wake_reader();
    }
}

/// Gives a packet to a feeder, flushes it if that is due, and wakes its reader if there is a
/// hold to read.
fn give(slot: &mut FeederSlot, link: &TaskLink, placed: &PlacedArrival<'_>)
    requires pair { slot_pair slot.old ≡ link.now }
    requires n { placed.now.n < 2 ^ 64 - 2 }
    requires room { count is_arrival (line_of slot.old).asks < 2 ^ 64 - 1 }
    ensures { line_of slot.new ≡ fed_with placed.now.n (arrival placed.now.capture placed.now.place placed.now.packet.now) (line_of slot.old) }
{
    let fed = slot
        .feeder
        .arrive_ref(link.pair(), placed.capture, placed.place, placed.packet);
    wake_reader_if(link, is_hold_made(fed));
    if is_due(slot.flush_every, placed.n) {
        let flushed = slot.feeder.flush(link.pair());
        wake_reader_if(link, flushed);
    }
}

/// Gives a packet to each feeder.
fn give_all(slots: &mut Vec<FeederSlot>, links: &[TaskLink], placed: &PlacedArrival<'_>)
    requires pairs { map slot_pair slots.old.items ≡ links.now }
    requires n { placed.now.n < 2 ^ 64 - 2 }
    requires room { All (λ l. count is_arrival l.asks < 2 ^ 64 - 1) (map line_of slots.old.items) }
    ensures { map line_of slots.new.items
        ≡ map (fed_with placed.now.n (arrival placed.now.capture placed.now.place placed.now.packet.now)) (map line_of slots.old.items) }
{
    for (k, slot) in slots.iter_mut().enumerate() {
        give(slot, &links[k], placed);
    }
}

impl Player<'_> {
    /// The next packet arrives, of a capture and a place there.
    fn arrive<G: Gate>(&mut self, gate: &G, capture: u32, place: u64, packet: &PacketRef<'_>)
        requires room { self.old.arrived < 2 ^ 64 - 2 }
        requires so_far { (starts : List Line) × (playlist : List Arrival) × HasArrived starts playlist self.old }
        ensures { (starts : List Line) (playlist : List Arrival) → HasArrived starts playlist self.old →
            HasArrived starts (playlist ++ arrival capture place packet.now ∷ []) self.new }
    {
        let placed = PlacedArrival {
            n: self.arrived,
            capture,
            place,
            packet,
        };
        gate.before_arrive(self.interface, placed.n);
        give_all(&mut self.slots, self.links, &placed);
        gate.after_arrive(self.interface, placed.n);
        self.arrived += 1;
    }

    /// Gives the packets of a capture to the feeders, one after the other. If that ends the
    /// interface, it returns how.
    ///
    /// It is a function of its own in the program, so that what is read and asked for each packet
    /// stays in registers.
    #[inline(never)]
    fn give_packets<S: Source, G: Gate>(
        &mut self,
        gate: &G,
        capture: u32,
        reader: &mut Reader<S>,
    ) -> Option<InterfaceEnd>
        requires room { self.old.arrived ≤ 2 ^ 64 - 2 }
        requires so_far { (starts : List Line) × (playlist : List Arrival) × HasArrived starts playlist self.old }
        ensures played { (start : Option (List ℕ)) (header : Header) → HasGiven S.left start header [] reader.old →
            HasGivenPackets start (S.failures reader.new.source ≢ S.failures reader.old.source) capture self.old self.new result }
        ensures back { ComesBack S.left S.failures reader.old.source reader.new.source capture result }
        ensures room { self.new.arrived ≤ 2 ^ 64 - 2 }
        ensures so_far { (starts : List Line) × (playlist : List Arrival) × HasArrived starts playlist self.new }
    {
        for place in 0..u64::MAX {
            match reader.advance() {
                Ok(true) => {}
                Ok(false) => return None,
                Err(fault) => return Some(InterfaceEnd::Capture(capture, fault)),
            }
            if self.arrived == MAX_ARRIVALS {
                return Some(InterfaceEnd::CountFull);
            }
            self.arrive(gate, capture, place, &reader.packet());
        }
        Some(InterfaceEnd::CountFull)
    }

    /// Reads a capture, and gives its packets to the feeders. Its source comes back; and how the
    /// interface ended, if this ended it.
    fn give_capture<S: Source, G: Gate>(
        &mut self,
        alloc: Global,
        gate: &G,
        capture: u32,
        source: S,
    ) -> (S, Option<InterfaceEnd>)
        requires room { self.old.arrived ≤ 2 ^ 64 - 2 }
        requires so_far { (starts : List Line) × (playlist : List Arrival) × HasArrived starts playlist self.old }
        ensures played { HasGivenPackets (S.left source) (S.failures result.0 ≢ S.failures source) capture self.old self.new result.1 }
        ensures back { ComesBack S.left S.failures source result.0 capture result.1 }
        ensures room { self.new.arrived ≤ 2 ^ 64 - 2 }
        ensures so_far { (starts : List Line) × (playlist : List Arrival) × HasArrived starts playlist self.new }
    {
        match Reader::open(alloc, source) {
            Ok(mut reader) => {
                let end = self.give_packets(gate, capture, &mut reader);
                (reader.close(), end)
            }
            Err((source, fault)) => (source, Some(InterfaceEnd::Capture(capture, fault))),
        }
    }

    /// Reads the captures in order, until one ends the interface: the result says how. The sources
    /// come back, those after it as they were.
    pub(crate) fn give_captures<S: Source + Drop, G: Gate>(
        &mut self,
        alloc: Global,
        gate: &G,
        captures: Vec<S>,
        mut sources: Vec<S>,
    ) -> (Vec<S>, InterfaceEnd)
        requires few { length captures.items ≤ 65536 }
        requires room { (length sources.items ≡ 0) × (length captures.items ≤ vec_capacity sources) }
        requires arrived { self.old.arrived ≤ 2 ^ 64 - 2 }
        requires so_far { (starts : List Line) × (playlist : List Arrival) × HasArrived starts playlist self.old }
        ensures { (starts : List Line) → HasArrived starts [] self.old → (playlist : List Arrival) × All (λ a. IsTimely a.packet.nanos) playlist × HasArrived starts playlist self.new
            × GivesPlaylist S.left S.failures (length playlist) 0 captures.items result.0.items playlist result.1 }
    {
        let mut end = None;
        for (n, source) in captures.into_iter().enumerate() {
            let source = match end {
                Some(_) => source,
                None => {
                    let (source, ended) = self.give_capture(alloc, gate, n as u32, source);
                    end = ended;
                    source
                }
            };
            sources.push_reserved(source);
        }
        (sources, end.unwrap_or(InterfaceEnd::Clean))
    }
}

/// What the replaying thread of an interface is given.
#[derive(Drop)]
pub(crate) struct Play<'a, R> {
    pub(crate) player: Player<'a>,
    pub(crate) captures: Vec<R>,
    /// Room for what comes back of the feeders.
    pub(crate) ends: Vec<EndedFeeder>,
    /// Room for what comes back of the captures.
    pub(crate) sources: Vec<R>,
    ghost pairs: { map slot_pair player.slots.items ≡ player.links.now },
    ghost fresh: { (player.arrived ≡ 0) × All IsFresh (map line_of player.slots.items) },
    ghost few: { length captures.items ≤ 65536 },
    ghost ends_fit: { (length ends.items ≡ 0) × (length player.slots.items ≤ vec_capacity ends) },
    ghost sources_fit: { (length sources.items ≡ 0) × (length captures.items ≤ vec_capacity sources) },
}

/// What the replaying thread of an interface hands back.
#[derive(Drop)]
pub(crate) struct PlayEnd<R> {
    pub(crate) ends: Vec<EndedFeeder>,
    pub(crate) sources: Vec<R>,
    pub(crate) end: InterfaceEnd,
}

/// A replaying thread hands back these feeders ended, after the packets of these captures; nothing
/// if a thread was refused.
#[derive(Drop)]
pub(crate) struct PlaysOut<R> {
    pub(crate) slots: Snapshot<Vec<FeederSlot>>,
    pub(crate) captures: Snapshot<Vec<R>>,
}

impl<R: Source> Promise<Option<PlayEnd<R>>> for PlaysOut<R> {
    ghost kept_by = { λ p r. IfSome r (HasPlayedOut R.left R.failures (map line_of p.slots.value.items) p.captures.value.items) };
}

#[tactic(auto, using(crate::proofs::Rings::ring_of_same))]
/// Ends a feeder, and hands its rest to the writer of its task.
fn end_one(slot: FeederSlot, link: &TaskLink) -> EndedFeeder
    requires { slot_pair slot ≡ link.now }
    ensures { ended_of result ≡ ended_line (line_of slot) }
{
    let FeederSlot {
        feeder,
        flush_every: _,
        mut rest_in,
    } = slot;
    let (feed, rest) = feeder.end(link.pair()).take_rest();
    rest_in.push_reserved(rest);
    link.wake_reader();
    link.wake_writer();
    EndedFeeder { feed, rest_in }
}

/// Ends all feeders.
fn end_all(player: Player<'_>, mut ends: Vec<EndedFeeder>) -> Vec<EndedFeeder>
    requires pairs { map slot_pair player.slots.items ≡ player.links.now }
    requires room { (ends.items ≡ []) × (length player.slots.items ≤ vec_capacity ends) }
    ensures { map ended_of result.items ≡ ended_all (map line_of player.entry.slots.items) }
{
    let Player { links, slots, .. } = player;
    for slot in slots {
        let k = ends.len();
        ends.push_reserved(end_one(slot, &links[k]));
    }
    ends
}

/// Gives the packets of all captures to the feeders, and ends these. If a thread was refused, it
/// does nothing.
pub(crate) fn play_out<S: Source + Drop, G: Gate, R: Wait>(
    rt: &R,
    shared: &Shared<'_, G>,
    play: Play<'_, S>,
) -> Option<PlayEnd<S>>
    ensures { IfSome result (HasPlayedOut S.left S.failures (map line_of play.entry.player.slots.items) play.entry.captures.items) }
{
    if !shared.barrier.is_whole(rt) {
        return None;
    }
    let Play {
        mut player,
        captures,
        ends,
        sources,
    } = play;
    let (sources, end) = player.give_captures(shared.alloc, shared.gate, captures, sources);
    let ends = end_all(player, ends);
    Some(PlayEnd { ends, sources, end })
}
