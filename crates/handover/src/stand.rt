//! The feeder's seat with its store, and each way on which a call goes over the words.

ghost use Rattle.std.specs.Prelude.{◌≡◌, ◌≢◌, ◌+◌, ◌<◌, ◌≤◌, [], ◌∷◌, ◌++◌, true, false, length, Some, None};
ghost use Rattle.listener.specs.Buffers.{filled};
ghost use Rattle.listener.specs.Messages.{room, size_of};
ghost use Rattle.listener.specs.declared.mode.Mode.TheVariants as mode;
ghost use Rattle.listener.specs.declared.message.Message.{Message};
ghost use Rattle.handover.specs.declared.calls.Feed.{Feed};
ghost use Rattle.handover.specs.declared.calls.Feed.TheVariants.{Arrive};
ghost use Rattle.handover.specs.declared.view.Role.TheVariants.{Feeds};
ghost use Rattle.handover.specs.Allowed.{AllFit, IsQuiet, Busy, Loud, handed};
ghost use Rattle.handover.specs.History.{kind, finds, finds_closed};
ghost use Rattle.handover.specs.Own.{store_of};
ghost use Rattle.handover.specs.Rule.{terms_of, saw_closed, saw_turn, set_turn, IsLegalWithReads, known, FeederSees};
ghost use Rattle.handover.specs.Seated.{IsGiving, IsStand, IsOffered, HasCalled, HasFlushed};

use crate::atomic_words::{
    CLOSED, Call, ClosedLoad, GaveTurn, PairSeat, SLOT, SawClosed, SawTurn, TURN,
};
use crate::link::Link;
use listener::{Buffer, Fed, Mode};
use savefile::PacketRef;
use std::marker::Brand;
use std::mem;

/// A packet that the filter accepted, its capture, its place there, and how many bytes are kept of
/// it.
#[derive(Clone, Copy)]
pub(crate) struct Accepted<'a> {
    pub(crate) capture: u32,
    pub(crate) place: u64,
    pub(crate) packet: &'a PacketRef<'a>,
    pub(crate) kept: u32,
}

/// The feeder's seat and its store.
#[derive(Drop)]
pub(crate) struct Stand {
    pub(crate) seat: PairSeat,
    pub(crate) store: Buffer,
}

/// Loads `closed`. The step ends the calls that C names if the pair is open, else the one that
/// found it closed.
fn see_closed<C: ClosedLoad>(link: &Link, seat: &mut PairSeat) -> u64
    requires pair { seat.old.table_id ≡ link.now }
    requires calm { (seat.old.me.0.view.role ≡ Feeds) × (seat.old.me.0.view.rotating ≡ false) × (seat.old.me.0.view.ended ≡ false) }
    requires quiet { IsQuiet (terms_of seat.old.me.0.view.profile) seat.old.me.0.view.feeds C.quiet }
    requires late { (kind C.late ≡ finds_closed) × AllFit seat.old.me.0.view.profile.capacity (C.late ∷ []) }
    ensures pair { seat.new.table_id ≡ seat.old.table_id }
    ensures step { saw_closed C.quiet C.late (known seat.old.me) result (known seat.new.me) }
    ensures own { IsLegalWithReads seat.new.me.0.view }
    ensures order { FeederSees seat.old.me.0 seat.new.me.0 }
{
    link.table.shared.load::<SawClosed<C>>(seat, CLOSED)
}

/// Loads `turn`. The step ends the call C if the hold is full.
fn see_turn<C: Call>(link: &Link, seat: &mut PairSeat) -> u64
    requires pair { seat.old.table_id ≡ link.now }
    requires calm { (seat.old.me.0.view.role ≡ Feeds) × (seat.old.me.0.view.rotating ≡ false) × (seat.old.me.0.view.ended ≡ false) }
    requires unclosed { finds seat.old.me.0.view.feeds ≡ false }
    requires busy { Busy (terms_of seat.old.me.0.view.profile) (store_of seat.old.me.0.view.feeds) C.call }
    requires fits { AllFit seat.old.me.0.view.profile.capacity (C.call ∷ []) }
    ensures pair { seat.new.table_id ≡ seat.old.table_id }
    ensures step { saw_turn C.call (known seat.old.me) result (known seat.new.me) }
    ensures own { IsLegalWithReads seat.new.me.0.view }
    ensures order { FeederSees seat.old.me.0 seat.new.me.0 }
{
    link.table.shared.load::<SawTurn<C>>(seat, TURN)
}

/// Stores 1 to `turn`, which hands the slot over and ends the call C.
fn give_turn<C: Call>(link: &Link, seat: &mut PairSeat)
    requires pair { seat.old.table_id ≡ link.now }
    requires giving { IsGiving (known seat.old.me)
        (filled seat.old.me.0.view.profile.capacity (handed (store_of seat.old.me.0.view.feeds) C.call)) }
    requires loud { Loud (terms_of seat.old.me.0.view.profile) (store_of seat.old.me.0.view.feeds) C.call }
    requires fits { AllFit seat.old.me.0.view.profile.capacity (C.call ∷ []) }
    ensures pair { seat.new.table_id ≡ seat.old.table_id }
    ensures step { set_turn C.call (known seat.old.me) 1 (known seat.new.me) }
    ensures own { IsLegalWithReads seat.new.me.0.view }
    ensures order { FeederSees seat.old.me.0 seat.new.me.0 }
{
    link.table.shared.store::<GaveTurn<C>>(seat, TURN, 1);
}

impl Stand {
    /// Exchanges the store for the empty buffer that the seat has taken out of the slot.
    fn swap_out(&mut self, link: &Link)
        requires pair { self.old.seat.table_id ≡ link.now }
        requires slot { self.old.seat.me.1 ≡ (0, filled self.old.seat.me.0.view.profile.capacity []) ∷ [] }
        ensures pair { self.new.seat.table_id ≡ self.old.seat.table_id }
        ensures seat { self.new.seat.me ≡ (self.old.seat.me.0, (0, self.old.store) ∷ []) }
        ensures store { self.new.store ≡ filled self.old.seat.me.0.view.profile.capacity [] }
    {
        mem::swap(
            self.seat.slot_mut(&link.table.shared, SLOT),
            &mut self.store,
        );
    }

    /// A packet that the filter rejects.
    pub(crate) fn pass(&mut self, link: &Link) -> Fed
        requires { IsStand link.now self.old }
        ensures { HasCalled self.old self.new (Arrive None result) }
    {
        if see_closed::<Brand>(link, &mut self.seat) == 0 {
            Fed::Passed
        } else {
            Fed::Closed
        }
    }

    /// A packet for which the store has room, in the mode Buffered: the store becomes the hold only
    /// when it lacks room.
    fn keep(&mut self, link: &Link, packet: &Accepted<'_>) -> Fed
        ghost message: { Message }
        requires offered { IsOffered link.now self.old packet.now message }
        requires fits { room self.old.store.messages + size_of message ≤ self.old.seat.me.0.view.profile.capacity }
        requires mode { self.old.seat.me.0.view.profile.mode ≡ mode.Buffered }
        ensures { HasCalled self.old self.new (Arrive (Some message) result) }
    {
        if see_closed::<Brand>(link, &mut self.seat) != 0 {
            return Fed::Closed;
        }
        let _stored = self
            .store
            .put_ref(packet.capture, packet.place, packet.packet, packet.kept);
        Fed::Stored
    }

    /// A packet for which the store has room, in the mode Immediate: the store becomes the hold at
    /// once.
    fn hand_over(&mut self, link: &Link, packet: &Accepted<'_>) -> Fed
        ghost message: { Message }
        requires offered { IsOffered link.now self.old packet.now message }
        requires fits { room self.old.store.messages + size_of message ≤ self.old.seat.me.0.view.profile.capacity }
        requires mode { self.old.seat.me.0.view.profile.mode ≡ mode.Immediate }
        ensures { HasCalled self.old self.new (Arrive (Some message) result) }
    {
        if see_closed::<Brand>(link, &mut self.seat) != 0 {
            return Fed::Closed;
        }
        let full = see_turn::<Brand>(link, &mut self.seat) != 0;
        let _stored = self
            .store
            .put_ref(packet.capture, packet.place, packet.packet, packet.kept);
        if full {
            return Fed::Stored;
        }
        self.swap_out(link);
        give_turn::<Brand>(link, &mut self.seat);
        Fed::Held
    }

    /// A packet for which the store has no room.
    fn rotate(&mut self, link: &Link, packet: &Accepted<'_>) -> Fed
        ghost message: { Message }
        requires offered { IsOffered link.now self.old packet.now message }
        requires over { self.old.seat.me.0.view.profile.capacity < room self.old.store.messages + size_of message }
        ensures { HasCalled self.old self.new (Arrive (Some message) result) }
    {
        if see_closed::<Brand>(link, &mut self.seat) != 0 {
            return Fed::Closed;
        }
        if see_turn::<Brand>(link, &mut self.seat) != 0 {
            return Fed::Dropped;
        }
        self.swap_out(link);
        give_turn::<Brand>(link, &mut self.seat);
        let _stored = self
            .store
            .put_ref(packet.capture, packet.place, packet.packet, packet.kept);
        Fed::Rotated
    }

    /// A packet that the filter accepts.
    pub(crate) fn take(&mut self, link: &Link, mode: Mode, packet: &Accepted<'_>) -> Fed
        ghost message: { Message }
        requires offered { IsOffered link.now self.old packet.now message }
        requires mode { self.old.seat.me.0.view.profile.mode ≡ mode }
        ensures { HasCalled self.old self.new (Arrive (Some message) result) }
    {
        if !self.store.fits(packet.kept) {
            return self.rotate(link, packet);
        }
        match mode {
            Mode::Buffered => self.keep(link, packet),
            Mode::Immediate => self.hand_over(link, packet),
        }
    }

    /// A flush of an empty store.
    pub(crate) fn flush_nothing(&mut self, link: &Link) -> bool
        requires stand { IsStand link.now self.old }
        requires store { self.old.store.messages ≡ [] }
        ensures { HasFlushed self.old self.new result }
    {
        see_closed::<Brand>(link, &mut self.seat);
        false
    }

    /// A flush of a store that has something.
    pub(crate) fn flush_store(&mut self, link: &Link) -> bool
        requires stand { IsStand link.now self.old }
        requires store { 0 < length self.old.store.messages }
        ensures { HasFlushed self.old self.new result }
    {
        if see_closed::<Brand>(link, &mut self.seat) != 0 {
            return false;
        }
        if see_turn::<Brand>(link, &mut self.seat) != 0 {
            return false;
        }
        self.swap_out(link);
        give_turn::<Brand>(link, &mut self.seat);
        true
    }
}
