//! Reading a savefile, packet by packet.

ghost use Rattle.std.specs.Prelude.{◌≡◌, ◌≢◌, ℕ, List, [], ◌∷◌, ◌++◌, Option, None, true, false, ◌+◌, ◌-◌, ◌^◌, ◌<◌, ◌≤◌, ◌↔◌, ◌⊎◌, length, IfOk, IfErr, IfSome, MatchOption, MatchResult};
ghost use Rattle.std.specs.Io.KnownBytes.{Consumes, IsAtEnd};
ghost use Rattle.savefile.specs.Ahead.{waiting_in, Grows};
ghost use Rattle.savefile.specs.Savefile.{number_in, IsHeader, IsRecord, IsWritable, RefusesHeader};
ghost use Rattle.savefile.specs.Reader.{GoesOn, HasEnded, HasFailed, HasGiven, HasRecord, IsCause, Leaves, LeavesNext, Lends, WasBegun, WasRead, WasRefused};
ghost use Rattle.savefile.specs.Passing.{passed_packet, MeetsEnd, MeetsFault, Passes, PassesHeader};

use crate::ahead::Ahead;
use crate::device::Source;
use crate::fault::Fault;
use crate::header::{HEADER_LEN, Header, header_of};
use crate::packet::{Packet, PacketRef};
use crate::record::{RECORD_HEADER_LEN, RecordHeader, record_of};
use std::alloc::{AllocError, Global};
use std::marker::Model;

/// How far a reader has come.
#[derive(Clone, Copy, Debug)]
enum State {
    /// It goes on.
    Reading,
    /// It met the clean end.
    Ended,
    /// It reported a fault, after which it cannot read.
    Broken,
}

/// Reads a savefile from a source, packet by packet. It takes its memory in [`Reader::open`],
/// however long the savefile is; no clause says so.
///
/// A packet comes in one of two ways. [`Reader::advance`] goes on to the next one, which
/// [`Reader::packet`] then lends out of the reader's own memory, without a copy. [`Reader::next`]
/// gives a copy of its own.
///
/// It reads what [`read_all`](crate::read_all) reads, in whatever pieces the source gives its
/// bytes. It asks the source only if the next record is not whole in what it has taken already, and
/// then for as many bytes as it has room for; no clause says how many. So a fault, the source's
/// too, comes after all packets that came whole.
///
/// Contracts see its source, the header of its savefile, how many packets it has given, the one
/// that it lends, the bytes that it took from the source ahead of the packets to come, whether it
/// has ended, and whether it has failed.
#[derive(Debug, Drop)]
pub struct Reader<R> {
    ahead: Ahead<R>,
    header: Header,
    /// How many packets were given.
    given: u64,
    /// The header of the record that is lent.
    record: RecordHeader,
    state: State,
}

impl<R> Model for Reader<R> {
    ghost use Rattle.savefile.specs.Reader.{Reading, reading};
    ghost use Rattle.savefile.specs.Ahead.{waiting_in};
    ghost use Rattle.savefile.specs.Passing.{passed_packet, is_ended, is_broken};

    ghost Value = { Reading R };

    ghost view = { λ r. reading r.ahead.source r.header r.given (passed_packet r.«record» r.ahead) (waiting_in r.ahead) (is_ended r.state) (is_broken r.state) };
}

/// Passes the header of a savefile.
fn read_header<R: Source>(ahead: &mut Ahead<R>) -> Result<Header, Fault>
    ensures ok { IfOk result (λ header. PassesHeader R.left ahead.old ahead.new header) }
    ensures err { IfErr result (λ fault. Grows R.left ahead.old ahead.new
        × (((fault ≡ Fault.Device) × (length (waiting_in ahead.new) < 24))
        ⊎ ((rest : List ℕ) × IfSome (R.left ahead.new.source) (λ bytes. bytes ≡ rest) × RefusesHeader (waiting_in ahead.new ++ rest) fault))) }
    ensures device { (result ≡ Err Fault.Device) ↔ (R.failures ahead.new.source ≢ R.failures ahead.old.source) }
{
    ahead.fill(HEADER_LEN)?;
    let header = header_of(ahead.waiting())?;
    ahead.pass(HEADER_LEN, 0);
    Ok(header)
}

/// Passes the record that comes next, at this place, whose bytes are then lent; `false` if nothing
/// is left.
#[inline(always)]
fn read_record<R: Source>(
    ahead: &mut Ahead<R>,
    head: &mut RecordHeader,
    header: Header,
    place: u64,
) -> Result<bool, Fault>
    ensures packet { result ≡ Ok true → Passes R.left header ahead.old ahead.new (passed_packet head.new ahead.new) }
    ensures writable { result ≡ Ok true → IsWritable (passed_packet head.new ahead.new) }
    ensures end { result ≡ Ok false → MeetsEnd R.left ahead.old ahead.new }
    ensures fault { IfErr result (MeetsFault R.left header place ahead.old ahead.new) }
    ensures idle { (p : Packet) (after : List ℕ) → IsRecord header.order header.unit (waiting_in ahead.old) p after →
        ahead.new.source ≡ ahead.old.source }
    ensures device { (result ≡ Err Fault.Device) ↔ (R.failures ahead.new.source ≢ R.failures ahead.old.source) }
{
    ahead.fill(RECORD_HEADER_LEN)?;
    let text = ahead.waiting();
    if text.is_empty() {
        return Ok(false);
    }
    head.read(header.order, header.unit, place, text)?;
    let captured = head.captured as usize;
    let size = RECORD_HEADER_LEN + captured;
    ahead.fill(size)?;
    if ahead.waiting().len() < size {
        return Err(Fault::TornRecord(place));
    }
    ahead.pass(RECORD_HEADER_LEN, captured);
    Ok(true)
}

/// Passes the record that comes next, if it is whole and a good one in what waits; its bytes are
/// then lent.
#[inline(always)]
fn pass_record<R: Source>(
    ahead: &mut Ahead<R>,
    head: &mut RecordHeader,
    header: Header,
    place: u64,
) -> bool
    ensures packet { result ≡ true → Passes R.left header ahead.old ahead.new (passed_packet head.new ahead.new) }
    ensures writable { result ≡ true → IsWritable (passed_packet head.new ahead.new) }
    ensures source { ahead.new.source ≡ ahead.old.source }
    ensures whole { (result ≡ true) ↔ HasRecord header (waiting_in ahead.old) }
    ensures stays { result ≡ false → (ahead.new ≡ ahead.old) × (head.new ≡ head.old) }
{
    let Ok(Some(packet)) = record_of(header, place, ahead.waiting()) else {
        return false;
    };
    let captured = packet.bytes.len();
    *head = RecordHeader {
        sec: packet.sec,
        nanos: packet.nanos,
        captured: captured as u32,
        len: packet.len,
    };
    ahead.pass(RECORD_HEADER_LEN, captured);
    true
}

impl<R: Source> Reader<R> {
    /// Reads the header of a savefile.
    ///
    /// The error is [`Fault::ShortHeader`], [`Fault::NotSavefile`], [`Fault::Version`] or
    /// [`Fault::LinkType`] if that is the first check of the header to fail; [`Fault::Device`] if
    /// and only if the source failed in this call; or [`Fault::NoMemory`], and then the source was
    /// not read. The source comes back with it; bytes that were read are lost, and after
    /// [`Fault::Device`] these are fewer than the header's 24.
    pub fn open(alloc: Global, source: R) -> Result<Reader<R>, (R, Fault)>
        // The reader has given nothing yet.
        ensures ok { IfOk result (λ reader. HasGiven R.left (R.left source) reader.header [] reader) }

        // When each error comes, and no other.
        ensures refused { IfErr result (λ back. WasRefused (R.left source) back.1 ⊎ (back.1 ≡ Fault.Device) ⊎ (back.1 ≡ Fault.NoMemory)) }
        ensures device { MatchResult result (λ reader. R.failures reader.source ≡ R.failures source)
            (λ back. (back.1 ≡ Fault.Device) ↔ (R.failures back.0 ≢ R.failures source)) }

        // The next bytes of the source are taken: none without memory, and no whole header if the
        // source failed.
        ensures unread { IfErr result (λ back. back.1 ≡ Fault.NoMemory → back.0 ≡ source) }
        ensures taken { MatchResult result
            (λ reader. (bytes : List ℕ) × Consumes (R.left source) (R.left reader.source) bytes)
            (λ back. (bytes : List ℕ) × Consumes (R.left source) (R.left back.0) bytes × (back.1 ≡ Fault.Device → length bytes < 24)) }
    {
        let mut ahead = match Ahead::new(alloc, source) {
            Ok(ahead) => ahead,
            Err(source) => return Err((source, Fault::NoMemory)),
        };
        match read_header(&mut ahead) {
            Ok(header) => Ok(Reader {
                ahead,
                header,
                given: 0,
                record: RecordHeader::EMPTY,
                state: State::Reading,
            }),
            Err(fault) => Err((ahead.into_source(), fault)),
        }
    }

    /// The header of the savefile. No call changes it.
    pub fn header(&self) -> Header
        ensures { result ≡ self.now.header }
    {
        self.header
    }

    /// Goes on to the next packet, which [`Reader::packet`] then lends. `false` is the clean end,
    /// and repeats.
    ///
    /// A torn or bad record ends the packets: [`Fault::TornRecord`], [`Fault::BadFraction`] or
    /// [`Fault::TooLong`], with its place, comes after all packets before it. [`Fault::Device`]
    /// comes if and only if the source failed in this call, and after all packets that came whole
    /// in what was taken from the source. After each of these every call returns [`Fault::Failed`],
    /// which comes nowhere else, and reads nothing. [`Fault::CountFull`] comes if and only if
    /// 2^64 - 1 packets were given; it reads nothing, and repeats. No memory is taken.
    #[inline(always)]
    pub fn advance(&mut self) -> Result<bool, Fault>
        // One packet more, the end, or why there is none. What was given so far begins what the
        // text holds, whatever comes. Each packet may be written.
        ensures packet { (start : Option (List ℕ)) (header : Header) (packets : List Packet) → HasGiven R.left start header packets self.old →
            result ≡ Ok true → HasGiven R.left start header (packets ++ self.new.lent ∷ []) self.new }
        ensures end { (start : Option (List ℕ)) (header : Header) (packets : List Packet) → HasGiven R.left start header packets self.old →
            result ≡ Ok false → WasRead start header packets None }
        ensures cause { (start : Option (List ℕ)) (header : Header) (packets : List Packet) → HasGiven R.left start header packets self.old →
            IfErr result (IsCause start (R.left self.new.source) header packets) }
        ensures so_far { (start : Option (List ℕ)) (header : Header) (packets : List Packet) → HasGiven R.left start header packets self.old →
            WasBegun start header packets }
        ensures writable { result ≡ Ok true → IsWritable self.new.lent }

        // When the errors come that are not of the text, and how each answer leaves the reader.
        ensures device { (result ≡ Err Fault.Device) ↔ (R.failures self.new.source ≢ R.failures self.old.source) }
        ensures failed { (result ≡ Err Fault.Failed) ↔ HasFailed self.old }
        ensures count_full { (result ≡ Err Fault.CountFull) ↔ (GoesOn self.old × (self.old.given ≡ 2 ^ 64 - 1)) }
        ensures ended { HasEnded self.old → (result ≡ Ok false) × (self.new ≡ self.old) }
        ensures leaves { Leaves self.old self.new result }
        ensures header { self.new.header ≡ self.old.header }

        // The next bytes of the source are taken, and none if the next record was taken whole
        // already.
        ensures taken { (bytes : List ℕ) × Consumes (R.left self.old.source) (R.left self.new.source) bytes }
        ensures idle { (p : Packet) (after : List ℕ) →
            IsRecord self.old.header.order self.old.header.unit self.old.ahead p after →
            self.new.source ≡ self.old.source }
    {
        match self.state {
            State::Reading => {}
            State::Ended => return Ok(false),
            State::Broken => return Err(Fault::Failed),
        }
        if self.given == u64::MAX {
            return Err(Fault::CountFull);
        }
        match read_record(&mut self.ahead, &mut self.record, self.header, self.given) {
            Ok(true) => {
                self.given += 1;
                Ok(true)
            }
            Ok(false) => {
                self.state = State::Ended;
                Ok(false)
            }
            Err(fault) => {
                self.state = State::Broken;
                Err(fault)
            }
        }
    }

    /// Goes on to the next packet, as [`Reader::advance`] does, if its record is whole, and a good
    /// one, in what was taken from the source already. Else it returns `false`, and nothing
    /// changed: a call of [`Reader::advance`] would ask the source, or return the end or a fault.
    /// So who gathers output can hand it on before the reader waits for more. The source is not
    /// asked, and no memory is taken.
    #[inline(always)]
    pub fn advance_ahead(&mut self) -> bool
        ensures packet { (start : Option (List ℕ)) (header : Header) (packets : List Packet) → HasGiven R.left start header packets self.old →
            result ≡ true → HasGiven R.left start header (packets ++ self.new.lent ∷ []) self.new }
        ensures writable { result ≡ true → IsWritable self.new.lent }
        ensures leaves { result ≡ true → Leaves self.old self.new (Ok true) }
        ensures source { self.new.source ≡ self.old.source }
        ensures header { self.new.header ≡ self.old.header }

        // When it goes on, and that it changes nothing if it does not.
        ensures ahead { (result ≡ true) ↔ (GoesOn self.old × (self.old.given ≢ 2 ^ 64 - 1) × HasRecord self.old.header self.old.ahead) }
        ensures stays { result ≡ false → self.new ≡ self.old }
    {
        let State::Reading = self.state else {
            return false;
        };
        let Reader { header, given, .. } = *self;
        if given == u64::MAX {
            return false;
        }
        if !pass_record(&mut self.ahead, &mut self.record, header, given) {
            return false;
        }
        self.given += 1;
        true
    }

    /// Lends the packet that the latest call went on to: [`Reader::advance`], or [`Reader::next`],
    /// which gave a copy of it.
    #[inline]
    pub fn packet(&self) -> PacketRef<'_>
        requires { Lends self.now }
        ensures { result ≡ self.now.lent }
    {
        PacketRef {
            sec: self.record.sec,
            nanos: self.record.nanos,
            len: self.record.len,
            bytes: self.ahead.lent(),
        }
    }

    /// Gives the next packet, with a copy of its bytes. `None` is the clean end, and repeats.
    ///
    /// The faults are those of [`Reader::advance`], and [`Fault::NoMemory`] if memory for the copy
    /// was refused; after that one too every call returns [`Fault::Failed`].
    pub fn next(&mut self, alloc: Global) -> Result<Option<Packet>, Fault>
        // One packet more, the end, or why there is none. What was given so far begins what the
        // text holds, whatever comes. Each packet may be written.
        ensures packet { (start : Option (List ℕ)) (header : Header) (packets : List Packet) → HasGiven R.left start header packets self.old →
            IfOk result (λ next. MatchOption next (WasRead start header packets None) (λ p. HasGiven R.left start header (packets ++ p ∷ []) self.new)) }
        ensures cause { (start : Option (List ℕ)) (header : Header) (packets : List Packet) → HasGiven R.left start header packets self.old →
            IfErr result (λ fault. IsCause start (R.left self.new.source) header packets fault ⊎ (fault ≡ Fault.NoMemory)) }
        ensures so_far { (start : Option (List ℕ)) (header : Header) (packets : List Packet) → HasGiven R.left start header packets self.old →
            WasBegun start header packets }
        ensures lent { IfOk result (λ next. IfSome next (λ p. self.new.lent ≡ p)) }
        ensures writable { IfOk result (λ next. IfSome next IsWritable) }

        // When the errors come that are not of the text, and how each answer leaves the reader.
        ensures device { (result ≡ Err Fault.Device) ↔ (R.failures self.new.source ≢ R.failures self.old.source) }
        ensures failed { (result ≡ Err Fault.Failed) ↔ HasFailed self.old }
        ensures count_full { (result ≡ Err Fault.CountFull) ↔ (GoesOn self.old × (self.old.given ≡ 2 ^ 64 - 1)) }
        ensures ended { HasEnded self.old → (result ≡ Ok None) × (self.new ≡ self.old) }
        ensures leaves { LeavesNext self.old self.new result }
        ensures header { self.new.header ≡ self.old.header }

        // The next bytes of the source are taken, and none if the next record was taken whole
        // already.
        ensures taken { (bytes : List ℕ) × Consumes (R.left self.old.source) (R.left self.new.source) bytes }
        ensures idle { (p : Packet) (after : List ℕ) →
            IsRecord self.old.header.order self.old.header.unit self.old.ahead p after →
            self.new.source ≡ self.old.source }
    {
        if !self.advance()? {
            return Ok(None);
        }
        match self.packet().to_packet(alloc) {
            Ok(packet) => Ok(Some(packet)),
            Err(AllocError) => {
                self.state = State::Broken;
                Err(Fault::NoMemory)
            }
        }
    }

    /// Gives the source back. What was read of it ahead of the packets that were given is lost.
    pub fn close(self) -> R
        ensures { result ≡ self.source }
    {
        let Reader {
            ahead,
            header: _,
            given: _,
            record: _,
            state: _,
        } = self;
        ahead.into_source()
    }
}
