//! What listeners answered, and why, as members of a JSON object.

ghost use Rattle.std.specs.Prelude.{Some};
ghost use Rattle.tap_text.specs.Members.{sum_members, hold_members, arrival_members, flush_members, read_members};

use crate::reasons::{ArrivalEnd, FlushEnd, FullHold, ListenerState, ReadEnd};
use listener::Fed;
use std::fmt;
use std::fmt::{Display, Formatter};

/// The bytes that are stored, those of the record that arrives, and those that the store has room
/// for.
#[derive(Clone, Copy)]
struct SumMembers {
    before: ListenerState,
    size: usize,
}

impl Display for SumMembers {
    ghost output = { λ sum. Some (sum_members sum.before sum.size) };

    fn fmt<W: fmt::Write>(&self, f: &mut Formatter<W>) -> fmt::Result {
        write!(
            f,
            "\"stored\":{},\"size\":{},\"capacity\":{}",
            self.before.load, self.size, self.before.capacity
        )
    }
}

/// A full hold.
#[derive(Clone, Copy)]
struct HoldMembers(FullHold);

impl Display for HoldMembers {
    ghost output = { λ hold. Some (hold_members hold.0) };

    fn fmt<W: fmt::Write>(&self, f: &mut Formatter<W>) -> fmt::Result {
        write!(
            f,
            "\"hold_step\":{},\"hold_packets\":{}",
            self.0.step, self.0.packets
        )
    }
}

/// What became of an arrival.
#[derive(Clone, Copy)]
pub(crate) struct ArrivalMembers(pub ArrivalEnd);

impl Display for ArrivalMembers {
    ghost output = { λ arrival. Some (arrival_members arrival.0.before arrival.0.size arrival.0.fed) };

    fn fmt<W: fmt::Write>(&self, f: &mut Formatter<W>) -> fmt::Result {
        let ArrivalEnd { before, size, fed } = self.0;
        let sum = SumMembers { before, size };
        match fed {
            Fed::Passed => f.write_str("\"answer\":\"passed\""),
            Fed::Stored => write!(f, "\"answer\":\"stored\",{sum}"),
            Fed::Held => write!(f, "\"answer\":\"held\",{sum}"),
            Fed::Rotated => write!(f, "\"answer\":\"rotated\",{sum}"),
            Fed::Dropped => {
                let hold = HoldMembers(before.hold());
                write!(f, "\"answer\":\"dropped\",{sum},{hold}")
            }
            Fed::Closed => f.write_str("\"answer\":\"closed\""),
        }
    }
}

/// How a flush ended.
#[derive(Clone, Copy)]
pub(crate) struct FlushMembers(pub FlushEnd);

impl Display for FlushMembers {
    ghost output = { λ end. Some (flush_members end.0) };

    fn fmt<W: fmt::Write>(&self, f: &mut Formatter<W>) -> fmt::Result {
        match self.0 {
            FlushEnd::Closed => f.write_str("\"answer\":\"not flushed\",\"reason\":\"closed\""),
            FlushEnd::NotRead(hold) => write!(
                f,
                "\"answer\":\"not flushed\",\"reason\":\"hold not read\",{}",
                HoldMembers(hold)
            ),
            FlushEnd::NothingStored => {
                f.write_str("\"answer\":\"not flushed\",\"reason\":\"nothing stored\"")
            }
            FlushEnd::Takes(load) => write!(f, "\"answer\":\"flushed\",\"stored\":{load}"),
        }
    }
}

/// How a read ended.
#[derive(Clone, Copy)]
pub(crate) struct ReadMembers(pub ReadEnd);

impl Display for ReadMembers {
    ghost output = { λ end. Some (read_members end.0) };

    fn fmt<W: fmt::Write>(&self, f: &mut Formatter<W>) -> fmt::Result {
        match self.0 {
            ReadEnd::Closed => f.write_str("\"answer\":\"nothing read\",\"reason\":\"closed\""),
            ReadEnd::NothingHeld => {
                f.write_str("\"answer\":\"nothing read\",\"reason\":\"nothing held\"")
            }
            ReadEnd::Takes(hold) => write!(f, "\"answer\":\"read\",{}", HoldMembers(hold)),
        }
    }
}
