//! What is printed of several captures, a line for each packet and then the counts, up to the first fault.

ghost use Rattle.std.specs.Prelude.{◌≡◌, ◌≢◌, ◌↔◌, ◌||◌, ◌⊎◌, ◌++◌, ◌∷◌, ◌+◌, ◌<◌, ◌^◌, ℕ, List, [], Option, Result, Err, IsErr, IsOk, OnOk, OnErr, true, false};
ghost use Rattle.std.specs.Io.KnownBytes.{Consumes, Keeps};
ghost use Rattle.line_text.specs.Sending.{Takes};
ghost use Rattle.savefile.specs.declared.header.Header.{Header};
ghost use Rattle.savefile.specs.declared.packet.Packet.{Packet};
ghost use Rattle.savefile.specs.Reader.{HasGiven};
ghost use Rattle.cli_answers.specs.Lines.{PrintsCapture, PrintsIn, PrintsNext, PrintsNth, PrintsPackets};

use crate::ahead::advance_flushed;
use crate::captures::{goes_on, read_of};
use crate::counts::{PacketCounts, print_counts};
use crate::form::{PacketForm, PacketLine};
use crate::printing::Unprinted;
use cli_walk::{Stop, Visited, Visitor, Walk, visit_captures};
use cli_watch::output::PrintSink;
use savefile::laws::given_so_far;
use savefile::{Fault, PacketRef, Reader, Source};
use std::alloc::Global;
use std::io::Write;

/// What printing lines for the packets of a capture came to.
#[derive(Debug, Drop)]
pub struct Printed<R, C> {
    pub source: R,
    /// Whether the header was read.
    pub opened: bool,
    /// What was counted, if all was printed.
    pub counts: C,
    /// The fault that ended the capture, if one did.
    pub read: Result<(), Fault>,
    /// Whether all was printed.
    pub printed: Result<(), Unprinted>,
}

impl<C> Printed<(), C> {
    /// Of a reader that its caller has.
    pub fn of_reader(
        counts: C,
        read: Result<(), Fault>,
        printed: Result<(), Unprinted>,
    ) -> Printed<(), C>
        ensures counts { result.counts ≡ counts }
        ensures read { result.read ≡ read }
        ensures printed { result.printed ≡ printed }
    {
        Printed {
            source: (),
            opened: true,
            counts,
            read,
            printed,
        }
    }
}

/// What was printed of the captures so far.
#[derive(Debug, Drop)]
pub struct PrintedTotals<C> {
    /// Whether the header of a capture was read.
    pub opened: bool,
    /// Of all captures, if all was printed.
    pub counts: C,
    /// Whether all was printed.
    pub printed: Result<(), Unprinted>,
}

impl<C: PacketCounts> PrintedTotals<C> {
    /// What was printed, once one capture more was.
    fn after(&self, opened: bool, counts: C, printed: Result<(), Unprinted>) -> PrintedTotals<C>
        ensures opened { result.opened ≡ (self.now.opened || opened) }
        ensures counts { result.counts ≡ C.sum self.now.counts counts }
        ensures printed { result.printed ≡ printed }
    {
        PrintedTotals {
            opened: self.opened || opened,
            counts: self.counts.plus(counts),
            printed,
        }
    }
}

/// What printing lines for the packets of several captures came to.
#[derive(Debug, Drop)]
pub struct PrintedCaptures<R, C> {
    /// The sources of the captures, in order. Those after the last one that was read are as they were.
    pub sources: Vec<R>,
    pub totals: PrintedTotals<C>,
    /// The capture that ended the reading, if one did.
    pub read: Result<(), Stop>,
}

/// What prints the lines of packets, and counts them.
pub trait PacketPrinter<C: PacketCounts>: Copy {
    /// The lines of these packets were printed, if they have some, and the packets were counted:
    /// what the output had before that, and has now.
    ghost printed: { Self → List Packet → Option (List ℕ) → Option (List ℕ) → C → Type 0 };

    /// A beginning of their lines was printed.
    ghost begun: { Self → List Packet → Option (List ℕ) → Option (List ℕ) → Type 0 };

    /// The same for the capture of this number.
    ghost nth: { Self → ℕ → Self };

    /// The same for the capture of this number.
    fn of_capture(self, number: usize) -> Self
        ensures { result ≡ nth self number };

    /// Prints the line of the next packet, if it has one, and counts it.
    fn print<O: Write>(
        &self,
        packet: &PacketRef<'_>,
        buffer: &mut PacketLine,
        counts: &mut C,
        out: &mut O,
    ) -> Result<(), Unprinted>
        requires { (n : ℕ) × C.fit counts.now n × (n + 1 < 2 ^ 64) }
        ensures fit { OnOk result ((n : ℕ) → C.fit counts.old n → C.fit counts.new (n + 1)) }
        ensures prints { (packets : List Packet) (start : Option (List ℕ)) → printed self.now packets start (O.contents out.old) counts.old →
            OnOk result (printed self.now (packets ++ packet.now ∷ []) start (O.contents out.new) counts.new) }
        ensures breaks { (packets : List Packet) (start : Option (List ℕ)) → printed self.now packets start (O.contents out.old) counts.old →
            OnErr result (begun self.now packets start (O.contents out.new) ⊎ begun self.now (packets ++ packet.now ∷ []) start (O.contents out.new)) };

    /// No packets are printed by nothing.
    ghost starts: { (p : Self) (old : Option (List ℕ)) → printed p [] old old C.none };

    /// What was printed stays so while the output keeps it.
    ghost stays: { (p : Self) (packets : List Packet) (old mid new : Option (List ℕ)) (c : C) → printed p packets old mid c → Keeps mid new → printed p packets old new c };
}

/// Prints the line of each packet that a reader goes on to.
fn print_packets<R: Source, C: PacketCounts, P: PacketPrinter<C>, O: Write>(
    printer: &P,
    reader: &mut Reader<R>,
    buffer: &mut PacketLine,
    out: &mut O,
) -> Printed<(), C>
    ensures prints { (from : Option (List ℕ)) (header : Header) → HasGiven R.left from header [] reader.old →
        PrintsPackets (P.printed printer.now) (P.begun printer.now) from (R.left reader.new.source) header (O.contents out.old) (O.contents out.new) result.counts result.read result.printed }
    ensures taken { (bytes : List ℕ) × Consumes (R.left reader.old.source) (R.left reader.new.source) bytes }
    ensures source_broke { (result.read ≡ Err Fault.Device) ↔ (R.failures reader.new.source ≢ R.failures reader.old.source) }
{
    let mut counts = C::none();
    loop {
        match advance_flushed(reader, out) {
            Ok(true) => {
                // Where the printing breaks off, what was read so far begins what the capture holds.
                given_so_far(reader);
                match printer.print(&reader.packet(), buffer, &mut counts, out) {
                    Ok(()) => {}
                    Err(unprinted) => {
                        return Printed::of_reader(counts, Ok(()), Err(unprinted));
                    }
                }
            }
            Ok(false) => return Printed::of_reader(counts, Ok(()), Ok(())),
            Err(fault) => return Printed::of_reader(counts, Err(fault), Ok(())),
        }
    }
}

/// Prints a line for each packet of a capture.
///
/// Each line is sent before the next packet is read. `read` has the header's fault, and then nothing is printed; with
/// [`Fault::NoMemory`] the source is as it was too. It has the fault of the first torn or bad record, after the lines of the packets before
/// it. It is [`Fault::Device`] exactly if the source failed. If `printed` has a fault, `out` took a prefix of the lines, and `read` is `Ok`,
/// since no further packet was read.
pub fn print_capture<R: Source, C: PacketCounts, P: PacketPrinter<C>, O: Write>(
    alloc: Global,
    from: R,
    printer: &P,
    out: &mut O,
) -> Printed<R, C>
    ensures prints { PrintsCapture R.left from C.none (P.printed printer.now) (P.begun printer.now) (O.contents out.old) (O.contents out.new) result }

    // The next bytes of the source are taken, and its fault is reported exactly if it failed.
    ensures gave { (given : List ℕ) × Consumes (R.left from) (R.left result.source) given }
    ensures source_broke { (result.read ≡ Err Fault.Device) ↔ (R.failures result.source ≢ R.failures from) }
{
    let mut reader = match Reader::open(alloc, from) {
        Ok(reader) => reader,
        Err((source, fault)) => {
            return Printed {
                source,
                opened: false,
                counts: C::none(),
                read: Err(fault),
                printed: Ok(()),
            };
        }
    };
    let mut buffer = PacketLine::new(alloc);
    let ended = print_packets(printer, &mut reader, &mut buffer, out);
    Printed {
        source: reader.close(),
        opened: true,
        counts: ended.counts,
        read: ended.read,
        printed: ended.printed,
    }
}

/// Prints the lines of each capture.
#[derive(Clone, Copy)]
struct Each<P> {
    alloc: Global,
    printer: P,
}

impl<R: Source, C: PacketCounts, O: Write, P: PacketPrinter<C>> Visitor<R, PrintedTotals<C>, O>
    for Each<P> {
    ghost visits = { λ each n t o from v t' o'. PrintsNext C.sum (PrintsNth R.left O.contents C.none P.printed P.begun P.nth each.printer) n t o from v t' o' };

    fn visit(
        &self,
        number: usize,
        capture: R,
        totals: &mut PrintedTotals<C>,
        out: &mut O,
    ) -> Visited<R> {
        let printer = self.printer.of_capture(number);
        let Printed {
            source,
            opened,
            counts,
            read,
            printed,
        } = print_capture(self.alloc, capture, &printer, out);
        let goes_on = goes_on(read, &printed);
        *totals = totals.after(opened, counts, printed);
        Visited { source, goes_on }
    }
}

/// Prints the lines of several captures, in order.
///
/// The first fault ends the reading, and what was printed before it stays. If `printed` has a fault, `read` is `Ok`, since no further
/// packet was read. If memory is refused for the sources, `read` is [`Fault::NoMemory`] of capture 0, and none is read.
pub fn print_captures<R: Source + Drop, C: PacketCounts, P: PacketPrinter<C>, O: Write>(
    alloc: Global,
    captures: Vec<R>,
    printer: P,
    out: &mut O,
) -> PrintedCaptures<R, C>
    ensures { PrintsIn R.left R.failures C.none C.sum (PrintsNth R.left O.contents C.none P.printed P.begun P.nth printer) captures.items out.old out.new result }
{
    let mut totals = PrintedTotals {
        opened: false,
        counts: C::none(),
        printed: Ok(()),
    };
    let each = Each { alloc, printer };
    let Walk { sources, end } = visit_captures(alloc, captures, &each, &mut totals, out);
    PrintedCaptures {
        sources,
        totals,
        read: read_of(end),
    }
}

/// Prints the counts of all captures, if a header was read and all lines were printed; and hands on
/// all that was printed.
pub fn print_totals<C: PacketCounts, O: PrintSink>(
    alloc: Global,
    totals: PrintedTotals<C>,
    form: PacketForm,
    out: &mut O,
) -> Result<(), Unprinted>
    ensures none { totals.opened ≡ false → (result ≡ totals.printed) × (out.new ≡ out.old) }
    ensures failed { IsErr totals.printed → (result ≡ totals.printed) × (out.new ≡ out.old) }
    ensures prints { totals.opened ≡ true → IsOk totals.printed →
        Takes (O.contents out.old) (O.contents out.new) result (C.line_in form totals.counts) }
    ensures handed_on { totals.opened ≡ true → IsOk result → O.waits out.new ≡ false }
{
    if totals.opened && totals.printed.is_ok() {
        print_counts(totals.counts, form, &mut String::new(alloc), out)
    } else {
        totals.printed
    }
}
