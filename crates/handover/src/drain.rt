//! The end that batches are read from.

ghost use Rattle.std.specs.Prelude.{◌≡◌, ◌++◌, [], ◌∷◌};
ghost use Rattle.listener.specs.Buffers.{filled};
ghost use Rattle.handover.specs.declared.calls.WordStep.TheVariants.{Store};
ghost use Rattle.handover.specs.declared.calls.Word.TheVariants as word;
ghost use Rattle.handover.specs.Ends.{draining, IsSameDrain};
ghost use Rattle.handover.specs.Orders.{SightGoesOn, of_drain};
ghost use Rattle.handover.specs.Reads.{take_of, HasBuffer, IsLastGiven};
ghost use Rattle.handover.specs.Steps.{GrewByRead};

use crate::atomic_words::{
    CLOSED, Cleared, ENDED, LookedEnded, LookedTurn, PairSeat, SLOT, SetClosed, TURN,
};
use crate::link::Link;
use listener::Buffer;
use std::marker::Model;

/// What a read gives.
#[derive(Drop)]
pub enum Read {
    /// The whole hold.
    Full(Buffer),
    /// The hold was empty: the buffer that was brought.
    Nothing(Buffer),
    /// The hold was empty, and the feeder had ended: the buffer that was brought.
    Ended(Buffer),
}

/// The end of a pair that batches are read from.
///
/// Contracts see which pair it is of, its terms, its reads with their answers, its steps, and the
/// steps of both ends that it has seen.
#[derive(Drop)]
pub struct Drain {
    pub(crate) seat: PairSeat,
    pub(crate) capacity: usize,
}

impl Model for Drain {
    ghost use Rattle.std.specs.Prelude.{◌≡◌, false};
    ghost use Rattle.handover.specs.Ends.{Draining, draining};
    ghost use Rattle.handover.specs.Rule.{known};
    ghost use Rattle.handover.specs.Seated.{IsDrain};

    ghost Value = { Draining };

    ghost view = { λ d. draining d.seat.table_id d.seat.me.0.view.profile d.seat.me.0.view.takes d.seat.me.0.view.take_steps d.seat.me.0.drain_saw };

    ghost invariant = { λ d. IsDrain (known d.seat.me) false × (d.capacity ≡ d.seat.me.0.view.profile.capacity) };
}

/// A drain that has closed.
///
/// Contracts see what they saw of the drain.
#[derive(Drop)]
pub struct DrainEnd {
    pub(crate) seat: PairSeat,
}

impl Model for DrainEnd {
    ghost use Rattle.std.specs.Prelude.{true};
    ghost use Rattle.handover.specs.Ends.{Draining, draining};
    ghost use Rattle.handover.specs.Rule.{known};
    ghost use Rattle.handover.specs.Seated.{IsDrain};

    ghost Value = { Draining };

    ghost view = { λ d. draining d.seat.table_id d.seat.me.0.view.profile d.seat.me.0.view.takes d.seat.me.0.view.take_steps d.seat.me.0.drain_saw };

    ghost invariant = { λ d. IsDrain (known d.seat.me) true };
}

impl Drain {
    /// How many bytes of records a buffer of the pair has room for.
    pub fn capacity(&self) -> usize
        ensures { result ≡ self.now.profile.capacity }
    {
        self.capacity
    }

    /// Takes the whole hold and puts the given empty buffer, of the pair's capacity, in its place.
    /// If there is nothing to read, that buffer is given back, with [`Read::Ended`] if the feeder
    /// had ended.
    ///
    /// It waits for nobody, and takes no memory. What it answers was so at its own load of `turn`.
    /// A batch is what was handed over last, of all that the drain has seen. That the feeder made
    /// those steps, `settle` promises.
    pub fn read(&mut self, link: &Link, empty: Buffer) -> Read
        requires pair { self.old.pair ≡ link.now }
        requires empty { empty ≡ filled self.old.profile.capacity [] }
        ensures same { IsSameDrain self.old self.new }
        ensures call { self.new.takes ≡ self.old.takes ++ take_of result ∷ [] }
        ensures steps { GrewByRead (take_of result) self.old.steps self.new.steps }
        ensures order { SightGoesOn of_drain self.old.seen self.new.seen self.new.steps }
        ensures buffer { HasBuffer self.old.profile.capacity result }
        ensures taken { IsLastGiven result self.new.seen }
    {
        let shared = &link.table.shared;
        let ended = shared.load::<LookedEnded>(&mut self.seat, ENDED);
        let full = shared.load::<LookedTurn>(&mut self.seat, TURN);
        if full != 0 {
            let hold = shared.exchange(&mut self.seat, SLOT, empty);
            shared.store::<Cleared>(&mut self.seat, TURN, 0);
            return Read::Full(hold);
        }
        if ended == 0 {
            Read::Nothing(empty)
        } else {
            Read::Ended(empty)
        }
    }

    /// Closes the pair: an arrival that finds it closed is answered with
    /// [`Fed::Closed`](listener::Fed::Closed), and a flush with false.
    pub fn close(self, link: &Link) -> DrainEnd
        requires { self.pair ≡ link.now }
        ensures closed { result ≡ draining self.pair self.profile self.takes (self.steps ++ Store word.Closed 1 ∷ []) result.seen }
        ensures order { SightGoesOn of_drain self.seen result.seen result.steps }
    {
        let Drain {
            mut seat,
            capacity: _,
        } = self;
        link.table.shared.store::<SetClosed>(&mut seat, CLOSED, 1);
        DrainEnd { seat }
    }
}
