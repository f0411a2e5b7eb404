//! The atomic words of a pair, its table with the rule over them, and what each kind of step says.

ghost use Rattle.std.specs.Prelude.{List, [], false};
ghost use Rattle.handover.specs.declared.calls.Feed.{Feed};
ghost use Rattle.handover.specs.declared.calls.Feed.TheVariants.{Flush, FlushClosed};
ghost use Rattle.handover.specs.Orders.{last_given};
ghost use Rattle.handover.specs.Rule.{KeepsRule, first, for_feeder, for_drain, joint, witness, spent, saw_closed, saw_turn, set_turn, set_ended, looked_ended, looked_turn, cleared, set_closed, IsLegalWithReads, known, FeederSees, DrainSees};

use crate::view::{Profile, Sight};
use atomic_table::{Join, Play, Seat, Split, Table, TableRule};
use listener::Buffer;
use std::alloc::Global;
use std::marker::{Brand, PhantomData};

/// The words of the table: 1 exactly while the hold is full; 1 once the drain has closed; 1 once
/// the feeder has ended.
pub(crate) const TURN: usize = 0;

pub(crate) const CLOSED: usize = 1;

pub(crate) const ENDED: usize = 2;

/// The table's one slot.
pub(crate) const SLOT: usize = 0;

pub(crate) type PairSeat = Seat<Buffer, Sight>;

pub(crate) type PairTable = Table<Buffer, Sight, Profile, HandOver, Global>;

/// The rule of the table.
pub struct HandOver;

impl TableRule<Buffer, Sight, Profile> for HandOver {
    ghost holds = { KeepsRule };

    ghost first = { first };
}

/// The two ends.
pub struct Ends;

impl Split<Sight> for Ends {
    ghost left = { for_feeder };

    ghost right = { for_drain };
}

/// A copy of what the joined seat knows.
pub struct SeatWitness;

impl Split<Sight> for SeatWitness {
    ghost left = { λ s. s };

    ghost right = { witness };
}

impl Join<Sight> for Ends {
    ghost both = { joint };

    ghost spent = { spent };
}

/// The calls that a load of `closed` ends if it finds the pair open, and the one that it ends
/// if it is closed.
pub trait ClosedLoad {
    ghost quiet: { List Feed };

    ghost late: { Feed };
}

impl ClosedLoad for Brand {
    ghost quiet = { [] };

    ghost late = { FlushClosed };
}

/// The call that a step on `turn` ends.
pub trait Call {
    ghost call: { Feed };
}

impl Call for Brand {
    ghost call = { Flush false };
}

/// The feeder's load of `closed`.
pub struct SawClosed<C> {
    marker: PhantomData<C>,
}

impl<C: ClosedLoad> Play<Buffer, Sight> for SawClosed<C> {
    ghost then = { λ step me found after. saw_closed C.quiet C.late (known me) found (known after) × IsLegalWithReads after.0.view × FeederSees me.0 after.0 };
}

/// The feeder's load of `turn`.
pub struct SawTurn<C> {
    marker: PhantomData<C>,
}

impl<C: Call> Play<Buffer, Sight> for SawTurn<C> {
    ghost then = { λ step me found after. saw_turn C.call (known me) found (known after) × IsLegalWithReads after.0.view × FeederSees me.0 after.0 };
}

/// The feeder's store to `turn`.
pub struct GaveTurn<C> {
    marker: PhantomData<C>,
}

impl<C: Call> Play<Buffer, Sight> for GaveTurn<C> {
    ghost then = { λ step me found after. set_turn C.call (known me) found (known after) × IsLegalWithReads after.0.view × FeederSees me.0 after.0 };
}

/// The feeder's store to `ended`.
pub struct SetEnded;

impl Play<Buffer, Sight> for SetEnded {
    ghost then = { λ step me found after. set_ended (known me) found (known after) × IsLegalWithReads after.0.view × FeederSees me.0 after.0 };
}

/// The drain's load of `ended`.
pub struct LookedEnded;

impl Play<Buffer, Sight> for LookedEnded {
    ghost then = { λ step me found after. looked_ended (known me) found (known after) × DrainSees me.0 after.0 };
}

/// The drain's load of `turn`.
pub struct LookedTurn;

impl Play<Buffer, Sight> for LookedTurn {
    ghost then = { λ step me found after. looked_turn (known me) found (known after) × DrainSees me.0 after.0 };
}

/// The drain's store to `turn`.
pub struct Cleared;

impl Play<Buffer, Sight> for Cleared {
    ghost then = { λ step me found after. cleared (last_given after.0.drain_saw) (known me) found (known after) × DrainSees me.0 after.0 };
}

/// The drain's store to `closed`.
pub struct SetClosed;

impl Play<Buffer, Sight> for SetClosed {
    ghost then = { λ step me found after. set_closed (known me) found (known after) × DrainSees me.0 after.0 };
}
