//! Why a listener answered as it did.

ghost use Rattle.std.specs.Prelude.{◌≡◌, Some};
ghost use Rattle.tap_text.specs.Reasons.{state_before, full_hold_of, hold_text, sum_text, arrival_text, flush_end, flush_text, read_end, read_text};

use listener::Fed;
use std::fmt;
use std::fmt::{Display, Formatter};
use tap_steps::Answered;

/// The state of a listener before a step.
#[derive(Clone, Copy, Debug)]
pub struct ListenerState {
    pub closed: bool,
    /// The bytes of the records in the store.
    pub load: usize,
    /// The number of packets in the hold.
    pub in_hold: usize,
    /// The step that made the store this hold, from 1.
    pub held_since: usize,
    /// The bytes that store and hold each have room for.
    pub capacity: usize,
}

impl ListenerState {
    /// The state of a listener of this capacity before it answered so; its hold was filled last at
    /// this step.
    pub fn before(answered: &Answered, held_since: usize, capacity: usize) -> ListenerState
        ensures { result ≡ state_before answered.now held_since capacity }
    {
        ListenerState {
            closed: answered.closed,
            load: answered.load,
            in_hold: answered.in_hold,
            held_since,
            capacity,
        }
    }

    pub(crate) fn hold(&self) -> FullHold
        ensures { result ≡ full_hold_of self.now }
    {
        FullHold {
            step: self.held_since,
            packets: self.in_hold,
        }
    }
}

/// A full hold: the step that filled it, from 1, and the number of its packets.
#[derive(Clone, Copy, Debug)]
pub struct FullHold {
    pub step: usize,
    pub packets: usize,
}

impl Display for FullHold {
    ghost output = { λ hold. Some (hold_text hold) };

    #[tactic(auto, unfolding(crate::specs::Reasons::hold_text))]
    fn fmt<W: fmt::Write>(&self, f: &mut Formatter<W>) -> fmt::Result {
        let noun = if self.packets == 1 {
            " packet"
        } else {
            " packets"
        };
        write!(
            f,
            "the hold of step {} with {}{noun}",
            self.step, self.packets
        )
    }
}

/// The bytes that are stored, and those of the record that arrives.
#[derive(Clone, Copy)]
struct Sum {
    load: usize,
    more: usize,
}

impl Display for Sum {
    ghost output = { λ sum. Some (sum_text sum.load sum.more) };

    fn fmt<W: fmt::Write>(&self, f: &mut Formatter<W>) -> fmt::Result {
        write!(f, "{} stored and {} more", self.load, self.more)
    }
}

/// What became of an arrival.
#[derive(Clone, Copy, Debug)]
pub struct ArrivalEnd {
    pub before: ListenerState,
    /// The bytes of the record that the packet takes, or would take.
    pub size: usize,
    pub fed: Fed,
}

impl Display for ArrivalEnd {
    ghost output = { λ arrival. Some (arrival_text arrival.before arrival.size arrival.fed) };

    fn fmt<W: fmt::Write>(&self, f: &mut Formatter<W>) -> fmt::Result {
        let ListenerState {
            load,
            in_hold,
            held_since,
            capacity,
            ..
        } = self.before;
        let sum = Sum {
            load,
            more: self.size,
        };
        match self.fed {
            Fed::Passed => f.write_str("Passed, the filter rejects it"),
            Fed::Stored => write!(f, "Stored, {sum} are within {capacity}"),
            Fed::Held => write!(
                f,
                "Held, {sum} are within {capacity}, and the empty hold takes them at once"
            ),
            Fed::Rotated => write!(
                f,
                "Rotated, {sum} exceed {capacity}, and the empty hold takes the {load}"
            ),
            Fed::Dropped => {
                let hold = FullHold {
                    step: held_since,
                    packets: in_hold,
                };
                write!(f, "Dropped, {sum} exceed {capacity}; {hold} is not read")
            }
            Fed::Closed => f.write_str("Closed"),
        }
    }
}

/// How a flush ended.
#[derive(Clone, Copy, Debug)]
pub enum FlushEnd {
    Closed,
    /// The hold is full.
    NotRead(FullHold),
    NothingStored,
    /// The hold takes what is stored, this many bytes of records.
    Takes(usize),
}

impl Display for FlushEnd {
    ghost output = { λ end. Some (flush_text end) };

    fn fmt<W: fmt::Write>(&self, f: &mut Formatter<W>) -> fmt::Result {
        match self {
            FlushEnd::Closed => f.write_str("not flushed, closed"),
            FlushEnd::NotRead(hold) => write!(f, "not flushed, {hold} is not read"),
            FlushEnd::NothingStored => f.write_str("not flushed, nothing is stored"),
            FlushEnd::Takes(load) => write!(f, "flushed, the empty hold takes the {load} stored"),
        }
    }
}

/// How a flush ends, from the listener's state.
pub fn flush_end(before: &ListenerState) -> FlushEnd
    ensures { result ≡ flush_end before.now }
{
    if before.closed {
        FlushEnd::Closed
    } else if before.in_hold > 0 {
        FlushEnd::NotRead(before.hold())
    } else if before.load == 0 {
        FlushEnd::NothingStored
    } else {
        FlushEnd::Takes(before.load)
    }
}

/// How a read ended.
#[derive(Clone, Copy, Debug)]
pub enum ReadEnd {
    Closed,
    NothingHeld,
    /// The reader takes the hold.
    Takes(FullHold),
}

impl Display for ReadEnd {
    ghost output = { λ end. Some (read_text end) };

    fn fmt<W: fmt::Write>(&self, f: &mut Formatter<W>) -> fmt::Result {
        match self {
            ReadEnd::Closed => f.write_str("nothing read, closed"),
            ReadEnd::NothingHeld => f.write_str("nothing read, nothing is held"),
            ReadEnd::Takes(hold) => write!(f, "read, it takes {hold}"),
        }
    }
}

/// How a read ends, from the listener's state.
pub fn read_end(before: &ListenerState) -> ReadEnd
    ensures { result ≡ read_end before.now }
{
    if before.closed {
        ReadEnd::Closed
    } else if before.in_hold == 0 {
        ReadEnd::NothingHeld
    } else {
        ReadEnd::Takes(before.hold())
    }
}
