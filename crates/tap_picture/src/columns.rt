//! What each step found in a listener, and what became of it.

use listener::Fed;
use std::slice::Iter;
use tap_steps::{Answer, Answered, PlacedPacket, Step, Trace};

/// A step as one listener sees it.
#[derive(Clone, Copy)]
pub struct Column<'a> {
    /// Which step it is, from 0.
    pub index: u64,
    pub step: Step,
    /// The packet that an arrival took.
    pub packet: Option<&'a PlacedPacket>,
    /// What the listener answered, if the step concerns it.
    pub answer: Option<Answer>,
    /// The bytes of the store before the step.
    pub load: u64,
    /// The bytes of the hold before the step.
    pub hold_load: u64,
    /// The bytes of the record that the packet takes, or would take; 0 if the filter rejects it.
    pub more: u64,
}

/// The state of a listener between the steps of a replay.
#[derive(Drop)]
pub struct Columns<'a> {
    listener: u32,
    packets: Iter<'a, PlacedPacket>,
    answers: Iter<'a, Answered>,
    count: u64,
    load: u64,
    hold_load: u64,
}

impl<'a> Columns<'a> {
    /// The columns before the first step, of the listener with these answers.
    pub fn new(listener: u32, trace: &'a Trace, answers: &'a [Answered]) -> Columns<'a> {
        Columns {
            listener,
            packets: trace.playlist.iter(),
            answers: answers.iter(),
            count: 0,
            load: 0,
            hold_load: 0,
        }
    }

    /// What the next step finds, and what becomes of it.
    pub fn next(&mut self, step: Step) -> Column<'a> {
        let packet = match step {
            Step::Arrive => self.packets.next(),
            Step::Flush(_) | Step::Read(_) | Step::Close(_) => None,
        };
        let is_own = match step {
            Step::Arrive => packet.is_some(),
            Step::Flush(l) | Step::Read(l) | Step::Close(l) => l == self.listener,
        };
        let answered = if is_own { self.answers.next() } else { None };
        if let Some(before) = answered {
            self.load = before.load as u64;
        }
        let column = Column {
            index: self.count,
            step,
            packet,
            answer: answered.map(|before| before.answer),
            load: self.load,
            hold_load: self.hold_load,
            more: answered.map_or(0, |before| before.size as u64),
        };
        self.count = self.count.wrapping_add(1);
        self.go_on(&column);
        column
    }

    /// The buffers after a step.
    fn go_on(&mut self, column: &Column<'a>) {
        let (load, more) = (column.load, column.more);
        match column.answer {
            Some(Answer::Arrived(Fed::Stored)) => self.load = load.wrapping_add(more),
            Some(Answer::Arrived(Fed::Held)) => {
                self.hold_load = load.wrapping_add(more);
                self.load = 0;
            }
            Some(Answer::Arrived(Fed::Rotated)) => {
                self.hold_load = load;
                self.load = more;
            }
            Some(Answer::Flushed(true)) => {
                self.hold_load = load;
                self.load = 0;
            }
            Some(Answer::Read(true)) => self.hold_load = 0,
            _ => {}
        }
    }
}

/// The most bytes that a step finds in a buffer, or would make it have.
pub fn highest(mut columns: Columns<'_>, steps: &[Step]) -> u64 {
    let mut most: u64 = 0;
    for step in steps {
        let column = columns.next(*step);
        let store = match column.answer {
            Some(Answer::Arrived(Fed::Passed | Fed::Closed)) => column.load,
            _ => column.load.saturating_add(column.more),
        };
        most = most.max(store).max(column.hold_load);
    }
    most
}
