//! What the two ends share, how they are made and what is left of them.

ghost use Rattle.std.specs.Prelude.{◌≡◌, [], ◌∷◌, IfOk, IfErr, OnOk};
ghost use Rattle.listener.specs.Buffers.{filled, RefusesBuffer};
ghost use Rattle.listener.specs.Laws.{hold_of};
ghost use Rattle.listener.specs.Listening.{InRange, RefusesOpen};
ghost use Rattle.listener.specs.PlainList.{stored};
ghost use Rattle.listener.specs.declared.mode.Mode.TheVariants.{Buffered};
ghost use Rattle.handover.specs.declared.view.Profile.{Profile};
ghost use Rattle.handover.specs.Ends.{feeding, draining, pair_lists, AreCountsOf, AreCountsOfCalls};
ghost use Rattle.handover.specs.History.{LegalHistory, merge};
ghost use Rattle.handover.specs.Orders.{HasOneOrder};
ghost use Rattle.handover.specs.Rule.{first, last, profile_of, terms_of};
ghost use Rattle.handover.specs.Settling.{IsWhole};

use crate::atomic_words::{Ends, PairSeat, PairTable, SLOT, SeatWitness};
use crate::drain::{Drain, DrainEnd};
use crate::feeder::{BareEnd, FeedEnd, Feeder};
use crate::stand::Stand;
use crate::view::Profile;
use atomic_table::{Refused, Table};
use bpfvm::Program;
use listener::{Buffer, Counts, Mode, OpenFault, check_range};
use std::alloc::Global;
use std::fmt::{self, Debug, Formatter, Write};
use std::marker::Model;

/// What the threads of a pair share, by a `&`. Contracts see which pair it is.
#[derive(Drop)]
pub struct Link {
    pub(crate) table: PairTable,
}

impl Model for Link {
    ghost use Rattle.std.specs.Prelude.{◌≡◌};
    ghost use Rattle.atomic_table.specs.Seated.{TableId, table_id_coded};

    ghost Value = { TableId };

    ghost coded = { table_id_coded };

    ghost view = { λ l. l.table.shared.table_id };

    ghost invariant = { λ l. (l.table.shared.table_id.words ≡ 3) × (l.table.shared.table_id.slots ≡ 1) };
}

/// What was done with a pair that is settled. It has no bytes, and only [`settle_bare`] makes one:
/// so these calls were made, by the two ends of one pair.
///
/// Contracts see which pair it was, its terms, the calls of both ends with their answers, and the
/// steps that these took.
#[derive(Drop)]
pub struct Past {
    seat: PairSeat,
}

impl Model for Past {
    ghost use Rattle.std.specs.Prelude.{◌≡◌};
    ghost use Rattle.handover.specs.declared.view.Role.TheVariants.{Spent};
    ghost use Rattle.handover.specs.Ends.{PairLists, pair_lists};

    ghost Value = { PairLists };

    ghost view = { λ p. pair_lists p.seat.table_id p.seat.me.0.view.profile p.seat.me.0.view.feeds p.seat.me.0.view.feed_steps
        p.seat.me.0.view.takes p.seat.me.0.view.take_steps };

    ghost invariant = { λ p. p.seat.me.0.view.role ≡ Spent };
}

impl Debug for Past {
    fn fmt<W: Write>(&self, f: &mut Formatter<W>) -> fmt::Result {
        f.write_str("Past")
    }
}

/// What is left of a pair.
#[derive(Drop)]
pub struct Settled {
    /// What was held and not read.
    pub hold: Buffer,
    /// What the feeder still had in its store.
    pub rest: Buffer,
    /// The counts, of the packets that arrived before the pair was found closed.
    pub counts: Counts,
}

/// What is left of a pair whose rest was taken before.
#[derive(Drop)]
pub struct BareSettled {
    /// What was held and not read.
    pub hold: Buffer,
    /// The counts, of the packets that arrived before the pair was found closed.
    pub counts: Counts,
    /// The calls of both ends.
    pub past: Past,
}

/// Makes a pair in the mode [`Mode::Buffered`], as [`pair_as`].
pub fn pair(
    alloc: Global,
    program: Program,
    snap: u32,
    capacity: usize,
) -> Result<(Link, Feeder, Drain), OpenFault>
    ensures ok { IfOk result (λ p. p.1 ≡ feeding p.0 program snap (profile_of capacity Buffered) [] [] [] []) }
    ensures drain { IfOk result (λ p. p.2 ≡ draining p.0 (profile_of capacity Buffered) [] [] []) }
    ensures in_range { OnOk result (InRange snap capacity) }
    ensures only { IfErr result (RefusesOpen snap capacity) }
{
    pair_as(alloc, program, snap, capacity, Mode::Buffered)
}

/// The one slot of what is shared: a hold, which is empty.
fn hold_slot(alloc: Global, capacity: usize) -> Result<Vec<Buffer>, OpenFault>
    ensures ok { IfOk result (λ slots. slots.items ≡ filled capacity [] ∷ []) }
    ensures only { IfErr result (RefusesBuffer capacity) }
{
    let hold = Buffer::new(alloc, capacity)?;
    let mut slots = Vec::with_capacity(alloc, 1)?;
    slots.push_reserved(hold);
    Ok(slots)
}

/// Makes a feeder and a drain, and what they share: a filter program, at most this many bytes of a
/// packet, this many bytes of records in each of the buffers, and when the store becomes the hold.
///
/// [`OpenFault::BadSnap`] and [`OpenFault::BadCapacity`] come exactly where [`check_range`] answers
/// them. No other call of this crate takes memory.
pub fn pair_as(
    alloc: Global,
    program: Program,
    snap: u32,
    capacity: usize,
    mode: Mode,
) -> Result<(Link, Feeder, Drain), OpenFault>
    ensures ok { IfOk result (λ p. p.1 ≡ feeding p.0 program snap (profile_of capacity mode) [] [] [] []) }
    ensures drain { IfOk result (λ p. p.2 ≡ draining p.0 (profile_of capacity mode) [] [] []) }
    ensures in_range { OnOk result (InRange snap capacity) }
    ensures only { IfErr result (RefusesOpen snap capacity) }
{
    check_range(snap, capacity)?;
    let store = Buffer::new(alloc, capacity)?;
    let slots = hold_slot(alloc, capacity)?;
    match Table::new(alloc, &[0, 0, 0], slots, &Profile { capacity, mode }) {
        Ok((table, seat)) => Ok(parted(table, seat, store, program, snap, mode)),
        Err(Refused { slots: _ }) => Err(OpenFault::NoMemory),
    }
}

/// The two ends of a table that nobody has stepped on.
fn parted(
    table: PairTable,
    mut seat: PairSeat,
    store: Buffer,
    program: Program,
    snap: u32,
    mode: Mode,
) -> (Link, Feeder, Drain)
    requires table { (table.shared.table_id.words ≡ 3) × (table.shared.table_id.slots ≡ 1)
        × (seat.table_id ≡ table.shared.table_id) }
    requires seat { seat.me ≡ (first (profile_of store.capacity mode), []) }
    requires store { store ≡ filled store.capacity [] }
    requires in_range { InRange snap store.capacity }
    ensures feeder { result.1 ≡ feeding result.0 program snap (profile_of store.capacity mode) [] [] [] [] }
    ensures drain { result.2 ≡ draining result.0 (profile_of store.capacity mode) [] [] [] }
{
    let capacity = store.capacity();
    let other = table.shared.split_seat::<Ends>(&mut seat);
    let counts = Counts {
        received: 0,
        matched: 0,
        dropped: 0,
    };
    let feeder = Feeder {
        stand: Stand { seat, store },
        program,
        snap,
        mode,
        counts,
    };
    let drain = Drain {
        seat: other,
        capacity,
    };
    (Link { table }, feeder, drain)
}

/// Takes a pair apart, once both ends have ended.
///
/// The feeder's calls and the drain's reads make one legal history of the plain list, and the hold
/// with the rest has what then pends: what was read, then the hold, then the rest is exactly what
/// was kept, and this is the messages of the arrivals that were answered Stored, Held or Rotated,
/// in order. The steps of both have one order, in which each load answered what the last store to
/// its word left, or 0 if there is none: one of the ends has seen it all, and the other a beginning
/// of it.
pub fn settle(link: Link, feeder: FeedEnd, drain: DrainEnd) -> Settled
    requires { (feeder.pair ≡ link) × (drain.pair ≡ link) }
    ensures history { LegalHistory (terms_of feeder.profile) feeder.feeds drain.takes (merge feeder.feeds drain.takes) }
    ensures order { HasOneOrder feeder.seen drain.seen feeder.steps drain.steps }
    ensures hold { result.hold ≡ filled feeder.profile.capacity (hold_of (last feeder.feeds drain.takes)) }
    ensures rest { result.rest ≡ filled feeder.profile.capacity feeder.store }
    ensures store { feeder.store ≡ stored (last feeder.feeds drain.takes) }
    ensures counts { AreCountsOf result.counts (last feeder.feeds drain.takes) × AreCountsOfCalls result.counts feeder.feeds }
    ensures whole { IsWhole feeder.profile feeder.feeds drain.takes result.hold.messages result.rest.messages result.counts }
{
    let (end, rest) = feeder.take_rest();
    let BareSettled {
        hold,
        counts,
        past: _,
    } = settle_bare(link, end, drain);
    Settled { hold, rest, counts }
}

/// Takes a pair apart, as [`settle`], whose rest [`FeedEnd::take_rest`] took; and gives the calls
/// of both ends.
pub fn settle_bare(link: Link, feeder: BareEnd, drain: DrainEnd) -> BareSettled
    requires { (feeder.pair ≡ link) × (drain.pair ≡ link) }
    ensures history { LegalHistory (terms_of feeder.profile) feeder.feeds drain.takes (merge feeder.feeds drain.takes) }
    ensures order { HasOneOrder feeder.seen drain.seen feeder.steps drain.steps }
    ensures past { result.past ≡ pair_lists link feeder.profile feeder.feeds feeder.steps drain.takes drain.steps }
    ensures hold { result.hold ≡ filled feeder.profile.capacity (hold_of (last feeder.feeds drain.takes)) }
    ensures rest { feeder.store ≡ stored (last feeder.feeds drain.takes) }
    ensures counts { AreCountsOf result.counts (last feeder.feeds drain.takes) × AreCountsOfCalls result.counts feeder.feeds }
    ensures whole { IsWhole feeder.profile feeder.feeds drain.takes result.hold.messages feeder.store result.counts }
{
    let Link { table } = link;
    let BareEnd { mut seat, counts } = feeder;
    let DrainEnd { seat: other } = drain;
    table.shared.join_seat::<Ends>(&mut seat, other);
    let witness = table.shared.split_seat::<SeatWitness>(&mut seat);
    let mut closed = table.close_with(seat);
    let hold = closed.take(SLOT);
    closed.free();
    BareSettled {
        hold,
        counts,
        past: Past { seat: witness },
    }
}
