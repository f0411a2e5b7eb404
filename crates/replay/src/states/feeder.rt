//! The states of a feeder: while packets arrive, and ended.

ghost use Rattle.std.specs.Prelude.{◌≡◌, ◌<◌, [], ◌∷◌};
ghost use Rattle.replay.specs.Reading.{messages_of};
ghost use Rattle.rtrb.specs.Ring.{known_free, sent};

use handover::{BareEnd, Feeder};
use listener::Buffer;
use rtrb::Producer;

/// Where packets go into one listener, after how many arrivals it is flushed, and where its rest
/// goes once it has ended: what it still has in its store.
// The feeder comes first, so that a packet which it rejects takes one address of both.
#[derive(Drop)]
pub(crate) struct FeederSlot {
    pub(crate) feeder: Feeder,
    pub(crate) flush_every: u32,
    pub(crate) rest_in: Producer<Buffer>,
    ghost room: { (sent rest_in ≡ []) × (0 < known_free rest_in) },
}

/// A feeder that has ended, and the ring that its rest went into.
#[derive(Drop)]
pub(crate) struct EndedFeeder {
    pub(crate) feed: BareEnd,
    pub(crate) rest_in: Producer<Buffer>,
    ghost pushed: { messages_of (sent rest_in) ≡ feed.store ∷ [] },
}
