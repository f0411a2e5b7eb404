//! The end that packets are given to.

ghost use Rattle.std.specs.Prelude.{◌≡◌, ◌-◌, ◌^◌, ◌<◌, ◌≤◌, List, ◌++◌, [], ◌∷◌, Option};
ghost use Rattle.listener.specs.Buffers.{filled};
ghost use Rattle.listener.specs.declared.message.Message.{Message};
ghost use Rattle.handover.specs.declared.calls.Feed.{Feed};
ghost use Rattle.listener.specs.Messages.{arrival, kept_by};
ghost use Rattle.handover.specs.declared.calls.Feed.TheVariants.{Arrive};
ghost use Rattle.handover.specs.declared.calls.WordStep.TheVariants.{Store};
ghost use Rattle.handover.specs.declared.calls.Word.TheVariants as word;
ghost use Rattle.handover.specs.Ends.{feeding_ended, IsSameFeeder, HasOwnRun, AreCountsOf, AreCountsOfCalls, Flushed, own_list};
ghost use Rattle.handover.specs.Orders.{SightGoesOn, of_feeder};
ghost use Rattle.handover.specs.Own.{received_in, matched_in, dropped_in};
ghost use Rattle.handover.specs.Steps.{call_steps};

use crate::atomic_words::{ENDED, PairSeat, SetEnded};
use crate::link::Link;
use crate::stand::{Accepted, Stand};
use bpfvm::Program;
use listener::{Buffer, Counts, Fed, Mode, kept_of};
use savefile::{Packet, PacketRef};
use std::marker::Model;

/// The end of a pair that packets are given to: a filter, the store, and the counts.
///
/// Contracts see which pair it is of, its filter, its calls with their answers, the steps that
/// these took, which steps of both ends it has seen, and its store.
// The program comes first, so that a packet which it rejects takes one address of the feeder.
#[derive(Drop)]
pub struct Feeder {
    pub(crate) program: Program,
    pub(crate) stand: Stand,
    pub(crate) snap: u32,
    pub(crate) mode: Mode,
    pub(crate) counts: Counts,
}

impl Model for Feeder {
    ghost use Rattle.std.specs.Prelude.{◌≡◌, false};
    ghost use Rattle.listener.specs.Listening.{InRange};
    ghost use Rattle.handover.specs.Ends.{Feeding, feeding};
    ghost use Rattle.handover.specs.Ends.{AreCountsOfCalls};
    ghost use Rattle.handover.specs.Rule.{known};
    ghost use Rattle.handover.specs.Seated.{IsFeeder};

    ghost Value = { Feeding };

    ghost view = { λ f. feeding f.stand.seat.table_id f.program f.snap f.stand.seat.me.0.view.profile f.stand.seat.me.0.view.feeds
        f.stand.seat.me.0.view.feed_steps f.stand.seat.me.0.feeder_saw f.stand.store.messages };

    ghost invariant = { λ f. IsFeeder (known f.stand.seat.me) f.stand.store false × InRange f.snap f.stand.store.capacity
        × (f.stand.seat.me.0.view.profile.mode ≡ f.mode) × AreCountsOfCalls f.counts f.stand.seat.me.0.view.feeds };
}

/// A feeder that has ended, without its rest.
///
/// Contracts see what they saw of the feeder, but for its filter; and what it still had in its
/// store.
#[derive(Drop)]
pub struct BareEnd {
    pub(crate) seat: PairSeat,
    pub(crate) counts: Counts,
}

impl Model for BareEnd {
    ghost use Rattle.std.specs.Prelude.{true};
    ghost use Rattle.listener.specs.Buffers.{filled};
    ghost use Rattle.handover.specs.Ends.{FeedingEnded, feeding_ended};
    ghost use Rattle.handover.specs.Ends.{AreCountsOfCalls};
    ghost use Rattle.handover.specs.Own.{store_of};
    ghost use Rattle.handover.specs.Rule.{known};
    ghost use Rattle.handover.specs.Seated.{IsFeeder};

    ghost Value = { FeedingEnded };

    ghost view = { λ f. feeding_ended f.seat.table_id f.seat.me.0.view.profile f.seat.me.0.view.feeds f.seat.me.0.view.feed_steps
        f.seat.me.0.feeder_saw (store_of f.seat.me.0.view.feeds) };

    ghost invariant = { λ f. IsFeeder (known f.seat.me) (filled f.seat.me.0.view.profile.capacity (store_of f.seat.me.0.view.feeds)) true
        × AreCountsOfCalls f.counts f.seat.me.0.view.feeds };
}

/// A feeder that has ended, with its rest: what it still had in its store.
///
/// Contracts see of it what they see of a [`BareEnd`].
#[derive(Drop)]
pub struct FeedEnd {
    end: BareEnd,
    rest: Buffer,
}

impl Model for FeedEnd {
    ghost use Rattle.std.specs.Prelude.{◌≡◌};
    ghost use Rattle.listener.specs.Buffers.{filled};
    ghost use Rattle.handover.specs.Ends.{FeedingEnded};

    ghost Value = { FeedingEnded };

    ghost view = { λ f. f.end };

    ghost invariant = { λ f. f.rest ≡ filled f.end.profile.capacity f.end.store };
}

impl FeedEnd {
    /// Takes the rest out, for callers that need it before the pair is settled:
    /// [`settle_bare`](crate::settle_bare) then settles it.
    pub fn take_rest(self) -> (BareEnd, Buffer)
        ensures end { result.0 ≡ self }
        ensures rest { result.1 ≡ filled self.profile.capacity self.store }
    {
        let FeedEnd { end, rest } = self;
        (end, rest)
    }
}

/// Counts an arrival with this answer, and returns the answer.
fn count(counts: &mut Counts, fed: Fed) -> Fed
    requires room { counts.old.received < 2 ^ 64 - 1 }
    requires ordered { (counts.old.matched ≤ counts.old.received) × (counts.old.dropped ≤ counts.old.matched) }
    ensures answer { result ≡ fed }
    ensures counts { (fs : List Feed) (m : Option Message) → AreCountsOfCalls counts.old fs →
        AreCountsOfCalls counts.new (fs ++ Arrive m fed ∷ []) }
{
    match fed {
        Fed::Closed => return fed,
        Fed::Passed => {}
        Fed::Stored | Fed::Held | Fed::Rotated => counts.matched += 1,
        Fed::Dropped => {
            counts.matched += 1;
            counts.dropped += 1;
        }
    }
    counts.received += 1;
    fed
}

impl Feeder {
    /// A packet arrives, from a capture and a place there.
    ///
    /// If the program accepts it, the least of the snapshot length, the program's answer and the
    /// captured length is kept of it. The answer is [`Fed::Closed`] if it found that the drain
    /// had closed. It waits for nobody, takes no memory, and copies the bytes once if it stores
    /// them.
    pub fn arrive(&mut self, link: &Link, capture: u32, place: u64, packet: &Packet) -> Fed
        requires pair { self.old.pair ≡ link.now }
        requires room { received_in self.old.feeds < 2 ^ 64 - 1 }
        ensures same { IsSameFeeder self.old self.new }
        ensures call { self.new.feeds ≡ self.old.feeds ++
            Arrive (kept_by self.old.program self.old.snap (arrival capture place packet.now)) result ∷ [] }
        ensures steps { self.new.steps ≡ self.old.steps ++ call_steps self.old.profile.mode self.old.store
            (Arrive (kept_by self.old.program self.old.snap (arrival capture place packet.now)) result) }
        ensures order { SightGoesOn of_feeder self.old.seen self.new.seen self.new.steps }
        ensures own { HasOwnRun self.new }
    {
        self.arrive_ref(link, capture, place, &packet.as_ref())
    }

    /// A packet arrives whose bytes lie elsewhere: else as [`Feeder::arrive`].
    pub fn arrive_ref(
        &mut self,
        link: &Link,
        capture: u32,
        place: u64,
        packet: &PacketRef<'_>,
    ) -> Fed
        requires pair { self.old.pair ≡ link.now }
        requires room { received_in self.old.feeds < 2 ^ 64 - 1 }
        ensures same { IsSameFeeder self.old self.new }
        ensures call { self.new.feeds ≡ self.old.feeds ++
            Arrive (kept_by self.old.program self.old.snap (arrival capture place packet.now)) result ∷ [] }
        ensures steps { self.new.steps ≡ self.old.steps ++ call_steps self.old.profile.mode self.old.store
            (Arrive (kept_by self.old.program self.old.snap (arrival capture place packet.now)) result) }
        ensures order { SightGoesOn of_feeder self.old.seen self.new.seen self.new.steps }
        ensures own { HasOwnRun self.new }
    {
        let Some(kept) = kept_of(&self.program, &self.snap, packet) else {
            return count(&mut self.counts, self.stand.pass(link));
        };
        let accepted = Accepted {
            capture,
            place,
            packet,
            kept,
        };
        count(
            &mut self.counts,
            self.stand.take(link, self.mode, &accepted),
        )
    }

    /// Makes a nonempty store the hold if the hold is empty, and returns whether it did: what the
    /// read timeout of bpf(4) does. It answers false if it found that the drain had closed.
    pub fn flush(&mut self, link: &Link) -> bool
        requires { self.old.pair ≡ link.now }
        ensures same { IsSameFeeder self.old self.new }
        ensures call { Flushed result self.old self.new }
        ensures order { SightGoesOn of_feeder self.old.seen self.new.seen self.new.steps }
        ensures own { HasOwnRun self.new }
    {
        if self.stand.store.is_empty() {
            self.stand.flush_nothing(link)
        } else {
            self.stand.flush_store(link)
        }
    }

    /// The counts, of the packets that arrived before the pair was found closed.
    pub fn counts(&self) -> Counts
        ensures received { result.received ≡ received_in self.now.feeds }
        ensures matched { result.matched ≡ matched_in self.now.feeds }
        ensures dropped { result.dropped ≡ dropped_in self.now.feeds }
        ensures own { AreCountsOf result (own_list self.now.feeds) }
        ensures run { HasOwnRun self.now }
    {
        self.counts
    }

    /// Ends the feeder: a read that finds this and an empty hold is answered with
    /// [`Read::Ended`](crate::Read::Ended). The rest, which comes after what is read and the hold,
    /// stays in the end.
    pub fn end(self, link: &Link) -> FeedEnd
        requires { self.pair ≡ link.now }
        ensures ended { result ≡ feeding_ended self.pair self.profile self.feeds (self.steps ++ Store word.Ended 1 ∷ []) result.seen self.store }
        ensures order { SightGoesOn of_feeder self.seen result.seen result.steps }
        ensures own { HasOwnRun self }
    {
        let Feeder {
            stand: Stand { mut seat, store },
            program: _,
            snap: _,
            mode: _,
            counts,
        } = self;
        link.table.shared.store::<SetEnded>(&mut seat, ENDED, 1);
        FeedEnd {
            end: BareEnd { seat, counts },
            rest: store,
        }
    }
}
