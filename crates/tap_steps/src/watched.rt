//! A listener with what was read from it, and what it answered.

ghost use Rattle.std.specs.Prelude.{◌≡◌, ℕ, ◌<◌, ◌-◌, ◌^◌, ◌++◌, List, [], Option, Some, IfOk, OnOk, option_map, false};
ghost use Rattle.listener.specs.Buffers.{filled};
ghost use Rattle.listener.specs.Listening.{seen_by};
ghost use Rattle.listener.specs.Messages.{arrival};
ghost use Rattle.listener.specs.PlainList.{load};
ghost use Rattle.listener.specs.PlainList as P;
ghost use Rattle.tap_steps.specs.Answers.{size_kept};
ghost use Rattle.tap_steps.specs.Watching.{watch, stepped, arrived_at, with_answer, no_answers, Tells};
ghost use Rattle.tap_steps.specs.declared.answer.Answered.{Answered};

use crate::answer::{Answer, Answered};
use crate::playlist::PlacedPacket;
use crate::report::Report;
use listener::{Buffer, Listener, Message, Read};
use savefile::PacketRef;
use std::alloc::{AllocError, Global};
use std::marker::Model;

/// A listener, the batches that were read from it, and its answers, if they are followed.
#[derive(Drop)]
pub struct Watched {
    listener: Listener,
    closed: bool,
    batches: Vec<Vec<Message>>,
    answers: Option<Vec<Answered>>,
    // An empty buffer for the next read, once there was a read.
    spare: Option<Buffer>,
}

impl Model for Watched {
    ghost use Rattle.std.specs.Option.{ForSome};
    ghost use Rattle.std.specs.Prelude.{◌≡◌, [], map, option_map};
    ghost use Rattle.listener.specs.Buffers.{filled};
    ghost use Rattle.tap_steps.specs.Watching.{Watch, watch};

    ghost Value = { Watch };

    ghost view = { λ w. watch w.listener (map (λ b. b.items) w.batches.items) (option_map (λ a. a.items) w.answers) };

    ghost invariant = { λ w. ForSome w.spare (λ b. b ≡ filled w.listener.terms.capacity []) × (w.closed ≡ w.listener.list.closed) };
}

/// The state of a listener before a step.
#[derive(Clone, Copy)]
struct Before {
    closed: bool,
    load: usize,
    in_hold: usize,
}

impl Before {
    fn of(listener: &Listener, closed: bool) -> Before
        ensures closed { result.closed ≡ closed }
        ensures load { result.load ≡ load listener.now.list }
        ensures held { result.in_hold ≡ listener.now.list.in_hold }
    {
        let (hold, store) = listener.buffers();
        Before {
            closed,
            load: store.bytes().len(),
            in_hold: hold.len(),
        }
    }

    /// The answer to a step, of an arrival with the bytes of its record.
    fn answer_of(self, size: usize, answer: Answer) -> Answered
        ensures { result ≡ record { closed = self.closed; load = self.load; in_hold = self.in_hold; size = size; answer = answer } }
    {
        Answered {
            closed: self.closed,
            load: self.load,
            in_hold: self.in_hold,
            size,
            answer,
        }
    }
}

/// Adds an answer, if answers are followed.
fn follow(answers: &mut Option<Vec<Answered>>, answered: Answered) -> Result<(), AllocError>
    ensures { OnOk result (option_map (λ a. a.items) answers.new ≡ with_answer answered (option_map (λ a. a.items) answers.old)) }
{
    if let Some(answers) = answers {
        answers.push(answered)?;
    }
    Ok(())
}

impl Watched {
    /// A listener that is open.
    pub fn new(alloc: Global, listener: Listener, traced: bool) -> Watched
        requires { listener.list.closed ≡ false }
        ensures { result ≡ watch listener [] (no_answers traced) }
    {
        Watched {
            listener,
            closed: false,
            batches: Vec::new(alloc),
            answers: if traced { Some(Vec::new(alloc)) } else { None },
            spare: None,
        }
    }

    /// The bytes of the record that a packet takes, or would take. Nothing is asked if answers are
    /// not followed.
    fn followed_size(&self, packet: &PacketRef<'_>) -> usize
        ensures { (followed : List Answered) → self.now.answers ≡ Some followed → (capture place : ℕ) →
            result ≡ size_kept (seen_by self.now.listener (arrival capture place packet.now)) }
    {
        if self.answers.is_none() {
            return 0;
        }
        self.listener.record_size(packet).unwrap_or(0)
    }

    /// A packet arrives.
    pub fn arrive(&mut self, placed: &PlacedPacket) -> Result<(), AllocError>
        requires { self.old.listener.list.received < 2 ^ 64 - 1 }
        ensures { OnOk result (self.new ≡ arrived_at placed.now self.old) }
    {
        listener::laws::answers();
        let before = Before::of(&self.listener, self.closed);
        let packet = placed.packet.as_ref();
        let size = self.followed_size(&packet);
        let fed = self
            .listener
            .arrive_ref(placed.capture, placed.place, &packet);
        follow(
            &mut self.answers,
            before.answer_of(size, Answer::Arrived(fed)),
        )?;
        Ok(())
    }

    pub fn flush(&mut self) -> Result<(), AllocError>
        ensures { OnOk result (self.new ≡ stepped P.Flush self.old) }
    {
        listener::laws::answers();
        let before = Before::of(&self.listener, self.closed);
        let full = self.listener.flush();
        follow(
            &mut self.answers,
            before.answer_of(0, Answer::Flushed(full)),
        )?;
        Ok(())
    }

    pub fn close(&mut self) -> Result<(), AllocError>
        ensures { OnOk result (self.new ≡ stepped P.Close self.old) }
    {
        listener::laws::answers();
        let before = Before::of(&self.listener, self.closed);
        self.listener.close();
        self.closed = true;
        follow(&mut self.answers, before.answer_of(0, Answer::Closed))?;
        Ok(())
    }

    /// An empty buffer for a read.
    fn empty_buffer(&mut self, alloc: Global) -> Result<Buffer, AllocError>
        ensures ok { IfOk result (λ buffer. buffer ≡ filled self.old.listener.terms.capacity []) }
        ensures same { self.new ≡ self.old }
    {
        if let Some(spare) = self.spare.take() {
            return Ok(spare);
        }
        let Ok(empty) = Buffer::new(alloc, self.listener.capacity()) else {
            return Err(AllocError);
        };
        Ok(empty)
    }

    /// Reads a batch, if there is one.
    pub fn read(&mut self, alloc: Global) -> Result<(), AllocError>
        ensures { OnOk result (self.new ≡ stepped P.Read self.old) }
    {
        listener::laws::answers();
        let empty = self.empty_buffer(alloc)?;
        let before = Before::of(&self.listener, self.closed);
        match self.listener.read(empty) {
            Read::Full(mut full) => {
                let mut batch = Vec::with_capacity(alloc, full.len())?;
                copy(alloc, &full, &mut batch)?;
                self.batches.push(batch)?;
                full.clear();
                self.spare = Some(full);
                follow(&mut self.answers, before.answer_of(0, Answer::Read(true)))?;
                return Ok(());
            }
            Read::Nothing(empty) => {
                self.spare = Some(empty);
                follow(&mut self.answers, before.answer_of(0, Answer::Read(false)))?;
                return Ok(());
            }
        }
    }

    /// The report, and the answers, if they were followed.
    pub fn report(self, alloc: Global) -> Result<(Report, Option<Vec<Answered>>), AllocError>
        ensures ok { IfOk result (λ r. Tells self r.0) }
        ensures answers { IfOk result (λ r. option_map (λ a. a.items) r.1 ≡ self.answers) }
    {
        let held = held_by(alloc, &self.listener)?;
        let counts = self.listener.counts();
        let Watched {
            batches,
            answers,
            ..
        } = self;
        let report = Report {
            batches,
            held,
            received: counts.received,
            matched: counts.matched,
            dropped: counts.dropped,
        };
        Ok((report, answers))
    }
}

/// The messages that a listener has and that were not read.
fn held_by(alloc: Global, listener: &Listener) -> Result<Vec<Message>, AllocError>
    ensures { IfOk result (λ held. held.items ≡ listener.now.list.pending) }
{
    let (hold, store) = listener.buffers();
    let mut held = Vec::with_capacity(alloc, hold.len() + store.len())?;
    copy(alloc, hold, &mut held)?;
    copy(alloc, store, &mut held)?;
    Ok(held)
}

/// Appends copies of the messages of a buffer.
fn copy(alloc: Global, buffer: &Buffer, to: &mut Vec<Message>) -> Result<(), AllocError>
    ensures { OnOk result (to.new.items ≡ to.old.items ++ buffer.now.messages) }
{
    for record in buffer.records() {
        to.push(record.to_message(alloc)?)?;
    }
    Ok(())
}
