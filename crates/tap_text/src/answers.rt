//! What listeners answered, and why: what `bpftap steps -v` prints before the reports.

ghost use Rattle.std.specs.Prelude.{◌≡◌, ◌++◌, map, IfOk, OnOk, Some, string_bytes};
ghost use Rattle.line_text.specs.Sending.{Takes};
ghost use Rattle.line_text.specs.Texts.{numbered};
ghost use Rattle.tap_text.specs.Answers.{cursor, cursors_of, fills_hold, answer_head, answer_end, reason_in, next_line, arrived_line, advanced, one_advanced, line_at, placed_text, placed_members, arrival_line, no_packet_line, own_line, step_text, packets_after, cursors_after, answers_from};
ghost use Rattle.tap_text.specs.Members.{reason_members};
ghost use Rattle.tap_text.specs.Reasons.{state_before, reason};
ghost use Rattle.tap_steps.specs.declared.step.Step.TheVariants.{Arrive};

use crate::buffer::LineBuffer;
use crate::members::{ArrivalMembers, FlushMembers, ReadMembers};
use crate::reasons::{ArrivalEnd, ListenerState, flush_end, read_end};
use crate::rejections::put_rejection;
use filter_print::Canonical;
use filterlang::Expr;
use line_text::LineForm;
use line_text::sending::send;
use line_text::time::NineDigits;
use listener::Fed;
use std::alloc::{AllocError, Global};
use std::fmt::{Display, Formatter};
use std::io::Write;
use std::marker::Model;
use std::{fmt, io};
use tap_steps::{Answer, Answered, PlacedPacket, Spec, Step, Trace};

/// The bytes that a line has room for, beside what decides of a rejected packet.
const LINE_ROOM: usize = 512;

/// The form of the lines of a step, and the step's number, from 1.
#[derive(Clone, Copy)]
struct StepHead {
    form: LineForm,
    n: usize,
}

/// Puts what comes before the answer of the l-th listener in place of what the line has.
fn put_answer_head(head: StepHead, l: usize, line: &mut String) -> Result<(), AllocError>
    ensures { OnOk result (string_bytes line.new ≡ answer_head head.form head.n l) }
{
    line.clear();
    match head.form {
        LineForm::Text => write!(line, "  listener {l} "),
        LineForm::Json => write!(line, "{{\"step\":{},\"listener\":{l},", head.n),
    }
}

/// Appends an answer and why it was given. `size` is the size of an arrival's record, kept or not.
fn put_text(
    before: ListenerState,
    size: usize,
    answer: Answer,
    line: &mut String,
) -> Result<(), AllocError>
    ensures { OnOk result (string_bytes line.new ≡ string_bytes line.old ++ reason before size answer) }
{
    match answer {
        Answer::Arrived(fed) => write!(line, "{}", ArrivalEnd { before, size, fed }),
        Answer::Flushed(_) => write!(line, "{}", flush_end(&before)),
        Answer::Read(_) => write!(line, "{}", read_end(&before)),
        Answer::Closed => write!(line, "closed"),
    }
}

/// Appends the same as members of an object.
fn put_members(
    before: ListenerState,
    size: usize,
    answer: Answer,
    line: &mut String,
) -> Result<(), AllocError>
    ensures { OnOk result (string_bytes line.new ≡ string_bytes line.old ++ reason_members before size answer) }
{
    match answer {
        Answer::Arrived(fed) => write!(
            line,
            "\"action\":\"arrive\",{}",
            ArrivalMembers(ArrivalEnd { before, size, fed })
        ),
        Answer::Flushed(_) => write!(
            line,
            "\"action\":\"flush\",{}",
            FlushMembers(flush_end(&before))
        ),
        Answer::Read(_) => write!(
            line,
            "\"action\":\"read\",{}",
            ReadMembers(read_end(&before))
        ),
        Answer::Closed => write!(line, "\"action\":\"close\",\"answer\":\"closed\""),
    }
}

/// Appends an answer and why it was given, in a form.
fn put_answer(
    form: LineForm,
    before: ListenerState,
    size: usize,
    answer: Answer,
    line: &mut String,
) -> Result<(), AllocError>
    ensures { OnOk result (string_bytes line.new ≡ string_bytes line.old ++ reason_in form before size answer) }
{
    match form {
        LineForm::Text => put_text(before, size, answer, line),
        LineForm::Json => put_members(before, size, answer, line),
    }
}

/// What comes after an answer.
fn answer_end(form: LineForm) -> &'static str
    ensures { result.now ≡ answer_end form }
{
    match form {
        LineForm::Text => "\n",
        LineForm::Json => "}\n",
    }
}

/// Whether an answer says that the store became the hold.
fn fills_hold(answer: Answer) -> bool
    ensures { result ≡ fills_hold answer }
{
    match answer {
        Answer::Arrived(fed) => match fed {
            Fed::Rotated => true,
            Fed::Held => true,
            Fed::Passed => false,
            Fed::Stored => false,
            Fed::Dropped => false,
            Fed::Closed => false,
        },
        Answer::Flushed(full) => full,
        Answer::Read(_) => false,
        Answer::Closed => false,
    }
}

/// What is left of a listener's answers after some steps.
#[derive(Drop)]
struct AnswerCursor<'a> {
    expr: &'a Option<Expr>,
    capacity: usize,
    /// The step that made the store the hold last, from 1.
    held_since: usize,
    answers: &'a [Answered],
}

impl<'a> Model for AnswerCursor<'a> {
    ghost use Rattle.std.specs.Coded.{codes};
    ghost use Rattle.filter_tree.specs.contracts.tree.Expr as e;
    ghost use Rattle.tap_text.specs.Answers.{Cursor, cursor};

    ghost Value = { Cursor };

    ghost coded = { Prim.hlevel (codes, e.the_row.coded) };

    ghost view = { λ x. cursor x.expr.now x.capacity x.held_since x.answers.now };
}

impl<'a> AnswerCursor<'a> {
    /// All answers of a listener.
    fn new(spec: &Spec, expr: &'a Option<Expr>, answers: &'a [Answered]) -> AnswerCursor<'a>
        ensures { result ≡ cursor expr.now spec.now.capacity 0 answers.now }
    {
        AnswerCursor {
            expr,
            capacity: spec.capacity,
            held_since: 0,
            answers,
        }
    }

    /// Puts an answer, as the l-th listener's, and why it was given, in place of what the line has.
    fn put_reason(
        &self,
        head: StepHead,
        l: usize,
        answered: &Answered,
        line: &mut String,
    ) -> Result<(), AllocError>
        ensures { OnOk result (string_bytes line.new ≡ answer_head head.form head.n l
            ++ reason_in head.form (state_before answered.now self.now.held_since self.now.capacity) answered.now.size answered.now.answer) }
    {
        let before = ListenerState::before(answered, self.held_since, self.capacity);
        put_answer_head(head, l, line)?;
        put_answer(head.form, before, answered.size, answered.answer, line)
    }

    /// Puts the line of the next answer, as the l-th listener's, in place of what the line has.
    fn put_next(&self, head: StepHead, l: usize, line: &mut String) -> Result<(), AllocError>
        ensures { OnOk result (string_bytes line.new ≡ next_line head.form head.n l self.now) }
    {
        let Some((answered, _)) = self.answers.split_first() else {
            line.clear();
            return Ok(());
        };
        self.put_reason(head, l, answered, line)?;
        line.push_str(answer_end(head.form))
    }

    /// Puts the line of the next answer, as the l-th listener's to this packet.
    fn put_arrived(
        &self,
        head: StepHead,
        l: usize,
        placed: &PlacedPacket,
        buffer: &mut LineBuffer,
    ) -> Result<(), AllocError>
        ensures { OnOk result (string_bytes buffer.new.line ≡ arrived_line head.form head.n placed.now l self.now) }
    {
        let Some((answered, _)) = self.answers.split_first() else {
            buffer.line.clear();
            return Ok(());
        };
        self.put_reason(head, l, answered, &mut buffer.line)?;
        put_rejection(head.form, buffer, placed, self.expr, answered.answer)?;
        buffer.line.push_str(answer_end(head.form))
    }

    /// Goes past the next answer, which is that to the n-th step.
    fn advance(&mut self, n: usize)
        ensures { self.new ≡ advanced n self.old }
    {
        let Some((answered, later)) = self.answers.split_first() else {
            return;
        };
        if fills_hold(answered.answer) {
            self.held_since = n;
        }
        self.answers = later;
    }
}

/// All answers of a trace of these listeners.
fn answer_cursors<'a>(
    alloc: Global,
    specs: &[Spec],
    expressions: &'a [Option<Expr>],
    answers: &'a [Vec<Answered>],
) -> Result<Vec<AnswerCursor<'a>>, AllocError>
    ensures { IfOk result (λ all. all.items ≡ cursors_of specs.now expressions.now (map (λ a. a.items) answers.now)) }
{
    let mut all = Vec::with_capacity(alloc, specs.len())?;
    for ((spec, expr), own) in specs.iter().zip(expressions).zip(answers) {
        all.push(AnswerCursor::new(spec, expr, own.as_slice()))?;
    }
    Ok(all)
}

/// Puts the text of an expression, twice, in place of what the line has.
fn put_twice(line: &mut String, expr: &Expr) -> Result<(), AllocError> {
    line.clear();
    write!(line, "{} {}", Canonical(expr), Canonical(expr))
}

/// A line with room for each answer of these listeners. What decides on a packet is part of an
/// expression, so twice the expression's own text has room for it, with any parentheses.
fn room_for(alloc: Global, all: &[AnswerCursor<'_>]) -> Result<String, AllocError> {
    let mut line = String::with_capacity(alloc, LINE_ROOM)?;
    for one in all {
        if let Some(expr) = one.expr {
            put_twice(&mut line, expr)?;
        }
    }
    line.reserve(LINE_ROOM)?;
    Ok(line)
}

/// A line with room for each answer of these listeners, and for what decides on a packet.
fn line_for(alloc: Global, all: &[AnswerCursor<'_>]) -> Result<LineBuffer, AllocError> {
    Ok(LineBuffer {
        line: room_for(alloc, all)?,
        text: room_for(alloc, all)?,
    })
}

/// Writes the next answer of each listener, to this packet.
fn write_all<O: Write>(
    head: StepHead,
    placed: &PlacedPacket,
    all: &[AnswerCursor<'_>],
    buffer: &mut LineBuffer,
    out: &mut O,
) -> io::Result<()>
    ensures { Takes (O.contents out.old) (O.contents out.new) result (numbered (arrived_line head.form head.n placed.now) 0 all.now) }
{
    for (l, one) in all.iter().enumerate() {
        one.put_arrived(head, l, placed, buffer)?;
        send(buffer.line.as_bytes(), out)?;
    }
    Ok(())
}

/// Goes past the next answer of each listener, which is that to the n-th step.
fn advance_all(all: &mut Vec<AnswerCursor<'_>>, n: usize)
    ensures { all.new.items ≡ map (advanced n) all.old.items }
{
    for one in all.iter_mut() {
        one.advance(n);
    }
}

/// Writes the next answer of the l-th listener.
fn write_one<O: Write>(
    head: StepHead,
    all: &[AnswerCursor<'_>],
    l: usize,
    line: &mut String,
    out: &mut O,
) -> io::Result<()>
    ensures { Takes (O.contents out.old) (O.contents out.new) result (line_at head.form head.n l all.now) }
{
    let Some(one) = all.get(l) else {
        return Ok(());
    };
    one.put_next(head, l, line)?;
    send(line.as_bytes(), out)
}

/// Goes past the next answer of the l-th listener, which is that to the n-th step.
fn advance_one(all: &mut Vec<AnswerCursor<'_>>, n: usize, l: usize)
    ensures { all.new.items ≡ one_advanced n l all.old.items }
{
    if l < all.len() {
        let one = &mut all[l];
        one.advance(n);
    }
}

/// A packet that arrives.
#[derive(Clone, Copy)]
struct Arriving<'a>(&'a PlacedPacket);

impl Display for Arriving<'_> {
    ghost output = { λ arriving. Some (placed_text arriving.0.now) };

    fn fmt<W: fmt::Write>(&self, f: &mut Formatter<W>) -> fmt::Result {
        let packet = &self.0.packet;
        write!(
            f,
            "capture {} place {} time {}.{} len {}",
            self.0.capture,
            self.0.place,
            packet.sec,
            NineDigits(packet.nanos),
            packet.len
        )
    }
}

/// The same packet as members of an object.
#[derive(Clone, Copy)]
struct ArrivingMembers<'a>(&'a PlacedPacket);

impl Display for ArrivingMembers<'_> {
    ghost output = { λ arriving. Some (placed_members arriving.0.now) };

    fn fmt<W: fmt::Write>(&self, f: &mut Formatter<W>) -> fmt::Result {
        let packet = &self.0.packet;
        write!(
            f,
            "\"capture\":{},\"place\":{},\"seconds\":{},\"nanoseconds\":{},\"length\":{}",
            self.0.capture, self.0.place, packet.sec, packet.nanos, packet.len
        )
    }
}

/// Puts the line of a step, an arrival that takes this packet, in place of what the line has.
fn put_arrival(head: StepHead, placed: &PlacedPacket, line: &mut String) -> Result<(), AllocError>
    ensures { OnOk result (string_bytes line.new ≡ arrival_line head.form head.n placed.now) }
{
    let n = head.n;
    line.clear();
    match head.form {
        LineForm::Text => writeln!(line, "step {n} arrive {}", Arriving(placed)),
        LineForm::Json => writeln!(
            line,
            "{{\"step\":{n},\"action\":\"arrive\",{}}}",
            ArrivingMembers(placed)
        ),
    }
}

/// Writes a step, an arrival that takes this packet, and all answers to it.
fn write_arrival<O: Write>(
    head: StepHead,
    placed: &PlacedPacket,
    all: &[AnswerCursor<'_>],
    buffer: &mut LineBuffer,
    out: &mut O,
) -> io::Result<()>
    ensures { Takes (O.contents out.old) (O.contents out.new) result
        (arrival_line head.form head.n placed.now ++ numbered (arrived_line head.form head.n placed.now) 0 all.now) }
{
    put_arrival(head, placed, &mut buffer.line)?;
    send(buffer.line.as_bytes(), out)?;
    write_all(head, placed, all, buffer, out)
}

/// Puts the line of a step, an arrival for which no packet is left, in place of what the line has.
fn put_no_packet(head: StepHead, line: &mut String) -> Result<(), AllocError>
    ensures { OnOk result (string_bytes line.new ≡ no_packet_line head.form head.n) }
{
    let n = head.n;
    line.clear();
    match head.form {
        LineForm::Text => writeln!(line, "step {n} arrive, no packet is left"),
        LineForm::Json => writeln!(line, "{{\"step\":{n},\"action\":\"arrive\"}}"),
    }
}

/// Writes a step, an arrival for which no packet is left.
fn write_no_packet<O: Write>(head: StepHead, line: &mut String, out: &mut O) -> io::Result<()>
    ensures { Takes (O.contents out.old) (O.contents out.new) result (no_packet_line head.form head.n) }
{
    put_no_packet(head, line)?;
    send(line.as_bytes(), out)
}

/// Puts the line of a step, which names the l-th listener, in place of what the line has.
fn put_own(head: StepHead, word: &str, l: usize, line: &mut String) -> Result<(), AllocError>
    ensures { OnOk result (string_bytes line.new ≡ own_line head.form head.n word.now l) }
{
    let n = head.n;
    line.clear();
    match head.form {
        LineForm::Text => writeln!(line, "step {n} {word} {l}"),
        LineForm::Json => writeln!(
            line,
            "{{\"step\":{n},\"action\":\"{word}\",\"listener\":{l}}}"
        ),
    }
}

/// What is left of a trace to be printed: each listener's answers, and the packets that arrive.
#[derive(Drop)]
pub struct AnswerPrinter<'a> {
    cursors: Vec<AnswerCursor<'a>>,
    packets: &'a [PlacedPacket],
    buffer: LineBuffer,
}

impl<'a> AnswerPrinter<'a> {
    /// All answers of a trace of these listeners. It takes the room for their lines, which should
    /// be enough for all of them: that printing takes no more memory is not proved.
    pub fn new(
        alloc: Global,
        specs: &[Spec],
        trace: &'a Trace,
    ) -> Result<AnswerPrinter<'a>, AllocError>
        ensures cursors { IfOk result (λ p. p.cursors.items ≡ cursors_of specs.now trace.now.expressions.items (map (λ a. a.items) trace.now.answers.items)) }
        ensures packets { IfOk result (λ p. p.packets.now ≡ trace.now.playlist.items) }
    {
        let expressions = trace.expressions.as_slice();
        let cursors = answer_cursors(alloc, specs, expressions, trace.answers.as_slice())?;
        let buffer = line_for(alloc, cursors.as_slice())?;
        Ok(AnswerPrinter {
            cursors,
            packets: trace.playlist.as_slice(),
            buffer,
        })
    }

    /// Writes a step, which names the l-th listener, and the answer to it, and goes past this.
    fn write_own<O: Write>(
        &mut self,
        head: StepHead,
        word: &str,
        l: usize,
        out: &mut O,
    ) -> io::Result<()>
        ensures text { Takes (O.contents out.old) (O.contents out.new) result (own_line head.form head.n word.now l ++ line_at head.form head.n l self.old.cursors.items) }
        ensures cursors { OnOk result (self.new.cursors.items ≡ one_advanced head.n l self.old.cursors.items) }
        ensures packets { self.new.packets ≡ self.old.packets }
    {
        put_own(head, word, l, &mut self.buffer.line)?;
        send(self.buffer.line.as_bytes(), out)?;
        write_one(head, self.cursors.as_slice(), l, &mut self.buffer.line, out)?;
        advance_one(&mut self.cursors, head.n, l);
        Ok(())
    }

    /// Writes a step, an arrival, and all answers to it, and goes past these. If no packet is left,
    /// there are none.
    fn write_arrive<O: Write>(&mut self, head: StepHead, out: &mut O) -> io::Result<()>
        ensures text { Takes (O.contents out.old) (O.contents out.new) result (step_text head.form head.n Arrive self.old.packets.now self.old.cursors.items) }
        ensures cursors { OnOk result (self.new.cursors.items ≡ cursors_after head.n Arrive self.old.packets.now self.old.cursors.items) }
        ensures packets { OnOk result (self.new.packets.now ≡ packets_after Arrive self.old.packets.now) }
    {
        let Some((placed, later)) = self.packets.split_first() else {
            return write_no_packet(head, &mut self.buffer.line, out);
        };
        write_arrival(head, placed, self.cursors.as_slice(), &mut self.buffer, out)?;
        advance_all(&mut self.cursors, head.n);
        self.packets = later;
        Ok(())
    }

    /// Writes a step and the answers to it, and goes past these.
    fn write_step<O: Write>(&mut self, head: StepHead, step: Step, out: &mut O) -> io::Result<()>
        ensures text { Takes (O.contents out.old) (O.contents out.new) result (step_text head.form head.n step self.old.packets.now self.old.cursors.items) }
        ensures cursors { OnOk result (self.new.cursors.items ≡ cursors_after head.n step self.old.packets.now self.old.cursors.items) }
        ensures packets { OnOk result (self.new.packets.now ≡ packets_after step self.old.packets.now) }
    {
        match step {
            Step::Arrive => self.write_arrive(head, out),
            Step::Flush(l) => self.write_own(head, "flush", l as usize, out),
            Step::Read(l) => self.write_own(head, "read", l as usize, out),
            Step::Close(l) => self.write_own(head, "close", l as usize, out),
        }
    }

    /// Writes a line for each step, and below it a line for each listener that it reaches: what it
    /// answered, and why. The steps are those of the trace, counted from 1, as the lines of SCRIPT.
    ///
    /// In JSON each line is an object that has its step's number; that for an answer to an arrival
    /// also has the packet's capture and place, and what decided if an expression rejects it.
    ///
    /// If it fails, `out` took a prefix of the text and no more.
    pub fn write_answers<O: Write>(
        &mut self,
        form: LineForm,
        steps: &[Step],
        out: &mut O,
    ) -> io::Result<()>
        ensures { Takes (O.contents out.old) (O.contents out.new) result (answers_from form 1 steps.now self.old.packets.now self.old.cursors.items) }
    {
        for (i, step) in steps.iter().enumerate() {
            let head = StepHead { form, n: i + 1 };
            self.write_step(head, *step, out)?;
        }
        Ok(())
    }
}
