//! Captures that are split: the function under `bpftap split`.

ghost use Rattle.std.specs.Prelude.{◌≡◌, ◌≢◌, ◌↔◌, ◌≤◌, ◌<◌, ◌+◌, ◌-◌, ◌^◌, ◌∷◌, ◌++◌, ℕ, List, [], Option, None, Ok, Err, IfErr, IfOk, OnErr, OnOk, length, false, true, vec_capacity};
ghost use Rattle.std.specs.Io.KnownBytes.{Consumes};
ghost use Rattle.std.specs.List.{AllZip};
ghost use Rattle.savefile.specs.declared.header.Header.{Header};
ghost use Rattle.savefile.specs.declared.header.Order.{Order};
ghost use Rattle.savefile.specs.declared.header.Unit.{Unit};
ghost use Rattle.savefile.specs.declared.packet.Packet.{Packet};
ghost use Rattle.savefile.specs.Reader.{HasGiven, Lends};
ghost use Rattle.pcap_cut.specs.Advancing.{Advances, IsAhead};
ghost use Rattle.cli_split.specs.Reading.{GaveSo, HasOpened, ReadsOne, ReadsAll, ReadsSoFar, end_of};
ghost use Rattle.cli_split.specs.Splitting.{HasRoom, Splits, passes_header};
ghost use Rattle.cli_split.specs.Standing.{GoesOn, HasHandedOn, HasParts, HasSplit, HasTaken};
ghost use Rattle.cli_split.specs.Writing.{IsLeft};
ghost use Rattle.cli_split.specs.declared.part.Part.{Part};

use crate::part::{Outlet, Part, PartEnd, begin_all, close_all, give_all, hand_on_all, leave_all};
use savefile::laws::given_so_far;
use savefile::{Fault, GatheringSink, Order, Reader, Source, Unit};
use std::alloc::{AllocError, Global};

/// Why a capture, by its number from 0, was not read to its end.
#[derive(Clone, Copy, Debug, PartialEq, Eq)]
pub enum Stop {
    /// Its header could not be read.
    AtHeader(usize, Fault),
    /// It could not be read further.
    AtRecord(usize, Fault),
}

/// What a split returns.
#[derive(Debug, Drop)]
pub struct SplitEnd<R, W> {
    /// The sources of the captures, in order. Those after the capture that ended the reading are as they were.
    pub sources: Vec<R>,
    /// How each part ended, in order.
    pub parts: Vec<PartEnd<W>>,
    /// Whether all captures were read to their ends, or what ended the reading.
    pub end: Result<(), Stop>,
}

/// How the n-th capture ended, whose header was read.
fn end_of(n: usize, given: Result<(), Fault>) -> Result<(), Stop>
    ensures { result ≡ end_of n given }
{
    match given {
        Ok(()) => Ok(()),
        Err(fault) => Err(Stop::AtRecord(n, fault)),
    }
}

/// How far the parts were written.
#[derive(Drop)]
struct Splitter<W> {
    outlets: Vec<Outlet<W>>,
    /// How many packets were read of all captures.
    read: u64,
}

impl<W: GatheringSink> Splitter<W> {
    /// Goes on to the next packet of a capture, as [`Reader::advance`] does. All sinks are asked to hand on what they have gathered before the source
    /// is asked: so whoever reads a part along has all that it was given while the source is waited for, and files are written in large pieces. The
    /// contract can't say who is asked first, since it compares only what is before the call with what is after it: a test with a pipe and a clock
    /// shows that.
    #[inline(always)]
    fn advance_flushed<R: Source>(&mut self, reader: &mut Reader<R>) -> Result<bool, Fault>
        // The next bytes of the source are taken, and none while a whole record is ahead.
        ensures advances { Advances R.left R.failures reader.old reader.new result }
        ensures lends { result ≡ Ok true → Lends reader.new }
        // What was written stays, and while a whole record is ahead nothing is handed on.
        ensures read { self.new.read ≡ self.old.read }
        ensures written { (order : Order) (unit : Unit) (packets : List Packet) (parts : List (Part W)) →
            HasSplit W.taken W.name W.failures order unit packets parts self.old → HasSplit W.taken W.name W.failures order unit packets parts self.new }
        ensures ahead { IsAhead reader.old → self.new ≡ self.old }
        // If no whole record is ahead, nothing waits in the sink of any part afterwards.
        ensures handed_on { (IsAhead reader.old → ⊥) →
            (order : Order) (unit : Unit) (packets : List Packet) (parts : List (Part W)) → HasSplit W.taken W.name W.failures order unit packets parts self.old →
            AllZip (HasHandedOn W.taken W.name W.failures W.waits order unit packets) parts self.new.outlets.items }
    {
        given_so_far(reader);
        if reader.advance_ahead() {
            return Ok(true);
        }
        hand_on_all(&mut self.outlets);
        reader.advance()
    }

    /// Gives the packets of a capture to all parts, each before the next one is read.
    fn give_packets<R: Source>(&mut self, reader: &mut Reader<R>) -> Result<(), Fault>
        requires begun { (start : Option (List ℕ)) × (header : Header) × HasGiven R.left start header [] reader.old }
        requires so_far { HasParts W.taken W.name W.failures self.old }
        ensures gives { (start : Option (List ℕ)) (header : Header) → HasGiven R.left start header [] reader.old →
            (packets : List Packet) × GaveSo start (R.left reader.new.source) header self.new.read packets result
            × GoesOn W.taken W.name W.failures packets self.old self.new }
        ensures taken { (bytes : List ℕ) × Consumes (R.left reader.old.source) (R.left reader.new.source) bytes }
        ensures broke { (result ≡ Err Fault.Device) ↔ (R.failures reader.new.source ≢ R.failures reader.old.source) }
    {
        loop {
            if self.read == u64::MAX {
                // What was read so far begins what the capture holds.
                given_so_far(reader);
                return Err(Fault::CountFull);
            }
            match self.advance_flushed(reader) {
                Ok(true) => {
                    give_all(&mut self.outlets, &reader.packet());
                    self.read += 1;
                }
                Ok(false) => return Ok(()),
                Err(fault) => return Err(fault),
            }
        }
    }

    /// Gives the packets of the n-th capture, whose header was read, and returns its source.
    fn give_opened<R: Source>(&mut self, n: usize, mut reader: Reader<R>) -> (R, Result<(), Stop>)
        requires opened { (from : R) × HasOpened R.left R.failures from reader }
        requires so_far { HasParts W.taken W.name W.failures self.old }
        ensures reads { (from : R) → HasOpened R.left R.failures from reader →
            (packets : List Packet) × ReadsOne R.left R.failures from result.0 self.new.read n packets result.1
            × GoesOn W.taken W.name W.failures packets self.old self.new }
        ensures begun { passes_header result.1 ≡ true }
    {
        let given = self.give_packets(&mut reader);
        (reader.close(), end_of(n, given))
    }

    /// Gives the packets of the n-th capture, if none before ended the reading.
    fn give_capture<R: Source>(
        &mut self,
        alloc: Global,
        n: usize,
        source: R,
        end: Result<(), Stop>,
    ) -> (R, Result<(), Stop>)
        requires so_far { HasParts W.taken W.name W.failures self.old }
        ensures reads { OnOk end ((packets : List Packet) × ReadsOne R.left R.failures source result.0 self.new.read n packets result.1
            × GoesOn W.taken W.name W.failures packets self.old self.new) }
        ensures unread { OnErr end ((result.0 ≡ source) × (result.1 ≡ end) × (self.new ≡ self.old)) }
    {
        if end.is_err() {
            return (source, end);
        }
        match Reader::open(alloc, source) {
            Ok(reader) => self.give_opened(n, reader),
            Err((source, fault)) => (source, Err(Stop::AtHeader(n, fault))),
        }
    }

    /// Gives the packets of further captures, in order. The number of each is how many sources came back before.
    fn give_captures<R: Source + Drop>(
        &mut self,
        alloc: Global,
        captures: Vec<R>,
        mut sources: Vec<R>,
        first: Result<(), Stop>,
    ) -> (Vec<R>, Result<(), Stop>)
        requires so_far { HasParts W.taken W.name W.failures self.old }
        requires behind { 0 < length sources.items }
        requires room { length sources.items + length captures.items ≤ vec_capacity sources }
        ensures reads { (order : Order) (unit : Unit) (packets : List Packet) (parts : List (Part W)) (all : List R) →
            HasSplit W.taken W.name W.failures order unit packets parts self.old →
            ReadsSoFar R.left R.failures all sources.items (length sources.items) captures.items packets first →
            (more : List Packet) × ReadsAll R.left R.failures (length (packets ++ more)) 0 all result.0.items (packets ++ more) result.1
            × HasSplit W.taken W.name W.failures order unit (packets ++ more) parts self.new }
        ensures begun { passes_header first ≡ true → passes_header result.1 ≡ true }
    {
        let mut end = first;
        for source in captures {
            let (source, ended) = self.give_capture(alloc, sources.len(), source, end);
            sources.push_reserved(source);
            end = ended;
        }
        (sources, end)
    }
}

/// The sources of captures that are not read, after those that were.
fn leave_captures<R: Drop>(captures: Vec<R>, mut sources: Vec<R>) -> Vec<R>
    requires { length sources.items + length captures.items ≤ vec_capacity sources }
    ensures { result.items ≡ sources.items ++ captures.items }
{
    for source in captures {
        sources.push_reserved(source);
    }
    sources
}

/// The room for what a split writes and returns, and what the memory for reading each capture is taken from.
#[derive(Drop)]
pub struct Room<R, W> {
    alloc: Global,
    sources: Vec<R>,
    outlets: Vec<Outlet<W>>,
    ends: Vec<PartEnd<W>>,
}

impl<R: Drop, W: Drop> Room<R, W> {
    /// Room for this many captures and parts.
    pub fn reserve(alloc: Global, captures: usize, parts: usize) -> Result<Room<R, W>, AllocError>
        ensures { IfOk result (HasRoom captures parts) }
    {
        Ok(Room {
            alloc,
            sources: Vec::with_capacity(alloc, captures)?,
            outlets: Vec::with_capacity(alloc, parts)?,
            ends: Vec::with_capacity(alloc, parts)?,
        })
    }
}

impl<R: Source + Drop, W: GatheringSink + Drop> Room<R, W> {
    /// Reads no further capture, and starts no part.
    fn leave(
        mut self,
        captures: Vec<R>,
        parts: Vec<Part<W>>,
        end: Result<(), Stop>,
    ) -> SplitEnd<R, W>
        requires sources { length self.sources.items + length captures.items ≤ vec_capacity self.sources }
        requires ends { (length self.ends.items ≡ 0) × (length parts.items ≤ vec_capacity self.ends) }
        ensures sources { result.sources.items ≡ self.sources.items ++ captures.items }
        ensures parts { AllZip IsLeft parts.items result.parts.items }
        ensures end { result.end ≡ end }
    {
        leave_all(parts, &mut self.ends);
        SplitEnd {
            sources: leave_captures(captures, self.sources),
            parts: self.ends,
            end,
        }
    }

    /// Splits the first capture, whose header was read, and the others. The parts were begun.
    fn split_opened(self, reader: Reader<R>, others: Vec<R>) -> SplitEnd<R, W>
        requires opened { (first : R) × HasOpened R.left R.failures first reader }
        requires begun { (order : Order) × (unit : Unit) × (parts : List (Part W)) × AllZip (HasTaken W.taken W.name W.failures order unit []) parts self.outlets.items
            × (length parts ≤ vec_capacity self.ends) }
        requires sources { (self.sources.items ≡ []) × (length others.items + 1 ≤ vec_capacity self.sources) }
        requires ends { length self.ends.items ≡ 0 }
        ensures { (first : R) (order : Order) (unit : Unit) (parts : List (Part W)) → HasOpened R.left R.failures first reader →
            AllZip (HasTaken W.taken W.name W.failures order unit []) parts self.outlets.items →
            Splits R.left R.failures W.taken W.name W.failures (first ∷ others.items) parts order unit result }
    {
        let Room {
            alloc,
            mut sources,
            outlets,
            ends,
        } = self;
        let mut splitter = Splitter { outlets, read: 0 };
        let (source, end) = splitter.give_opened(0, reader);
        sources.push_reserved(source);
        let (sources, end) = splitter.give_captures(alloc, others, sources, end);
        SplitEnd {
            sources,
            parts: close_all(splitter.outlets, ends),
            end,
        }
    }

    /// Splits captures as [`split`] does, with this room for them: so it asks for no memory but that of each capture's reader.
    pub fn split(
        mut self,
        mut captures: Vec<R>,
        parts: Vec<Part<W>>,
        order: Order,
        unit: Unit,
    ) -> SplitEnd<R, W>
        requires room { HasRoom (length captures.items) (length parts.items) self }
        ensures { Splits R.left R.failures W.taken W.name W.failures captures.items parts.items order unit result }
    {
        if captures.is_empty() {
            return self.leave(captures, parts, Ok(()));
        }
        match Reader::open(self.alloc, captures.remove(0)) {
            Ok(reader) => {
                begin_all(parts, order, unit, &mut self.outlets);
                self.split_opened(reader, captures)
            }
            Err((source, fault)) => {
                self.sources.push_reserved(source);
                self.leave(captures, parts, Err(Stop::AtHeader(0, fault)))
            }
        }
    }
}

/// Writes captures of the packets of others, in one pass. Each part gets the packets that its program accepts, cut, as a capture of its
/// own: exactly the bytes that [`cut`](pcap_cut::cut::cut) would write of all captures, one after the other.
///
/// Each capture is read once, packet by packet, up to the first fault: its own header's, a torn or bad record, or its source's. The
/// fault ends the reading, and what was read before it is written. The captures may differ in byte order and in unit of time: the parts
/// are written in those given. The parts are started once the header of the first capture is read. If that fails, or if there is no
/// capture, all sinks are as they were.
///
/// A part whose sink fails ends there, with a prefix of its text and [`Fault::Device`]; so does one whose text has 2^64 bytes or more,
/// with [`Fault::CountFull`]. The others go on. If memory runs out for a capture's reader, that is `NoMemory`, a fault of its header, and
/// its source is as it was. After 2^64 - 1 packets no more is read, with [`Fault::CountFull`].
///
/// The error is that memory runs out before anything is read or written.
pub fn split<R: Source + Drop, W: GatheringSink + Drop>(
    alloc: Global,
    captures: Vec<R>,
    parts: Vec<Part<W>>,
    order: Order,
    unit: Unit,
) -> Result<SplitEnd<R, W>, AllocError>
    ensures { IfOk result (λ end. Splits R.left R.failures W.taken W.name W.failures captures.items parts.items order unit end) }
{
    let room = Room::reserve(alloc, captures.len(), parts.len())?;
    Ok(room.split(captures, parts, order, unit))
}
