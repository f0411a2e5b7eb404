//! One packet of a capture in full: the function under `bpftap explain -p`.

ghost use Rattle.std.specs.Prelude.{◌≡◌, ◌≢◌, ◌↔◌, ℕ, List, Option, [], Ok, Err, OnOk, false, true};
ghost use Rattle.std.specs.Io.KnownBytes.{Consumes};
ghost use Rattle.savefile.specs.declared.header.Header.{Header};
ghost use Rattle.savefile.specs.Reader.{HasGiven, Lends};
ghost use Rattle.cli_answers.specs.declared.form.PacketForm.TheVariants.{Json, Text};
ghost use Rattle.cli_explain.specs.Explained.{Finds, GoesTo, PrintsFound, PrintsMore, PrintsWhole};

use crate::form::{Asking, print_line};
use crate::object::whole_object;
use crate::printer::FullPrinter;
use crate::whole::whole_text;
use cli_answers::PacketForm;
use cli_answers::form::PacketLine;
use cli_answers::printing::Unprinted;
use cli_watch::output::{PrintSink, send_last};
use savefile::laws::given_so_far;
use savefile::{Fault, PacketRef, Reader, Source};

/// What explaining one packet came to.
#[derive(Debug, Drop)]
pub struct Found<R> {
    pub source: R,
    /// Whether the capture has a packet at that place, or why it could not be read so far.
    pub read: Result<bool, Fault>,
    /// Whether all was printed.
    pub printed: Result<(), Unprinted>,
}

/// Prints all of the packet at a place of a capture, from 0: its line as [`explain_each`](crate::each::explain_each) has it; of an
/// expression how it was read, and each primitive and relation with its own answer and the bytes that it looked at, or that it was
/// not asked; and the run of the program, by the names of its instructions, with the registers after each. In JSON it prints an object on
/// one line: the members of the packet's object, its bytes as digits, and the same facts.
///
/// `read` is `Ok(false)` if the capture has no packet at that place; or it has the fault that comes before it, as that of the header, or of
/// a torn or bad record. Then nothing is printed; with [`Fault::NoMemory`] the source is as it was too. If `printed` is `NoMemory`, `out`
/// took only that line or nothing, and if it is `Output` a prefix of the line, or the line and what comes after it. Of an object it took
/// nothing, and a prefix.
pub fn explain_one<R: Source, O: PrintSink>(
    from: R,
    printer: &FullPrinter<'_, '_>,
    place: u64,
    out: &mut O,
) -> Found<R>
    // Whether there is such a packet, and what was printed of it.
    ensures finds { Finds R.left from printer.now.form printer.now.filter.now place (O.contents out.old) (O.contents out.new) result }

    // The next bytes of the source are taken, and its fault is returned if and only if it failed.
    ensures gave { (given : List ℕ) × Consumes (R.left from) (R.left result.source) given }
    ensures source_broke { (result.read ≡ Err Fault.Device) ↔ (R.failures result.source ≢ R.failures from) }
{
    let mut reader = match Reader::open(printer.alloc, from) {
        Ok(reader) => reader,
        Err((source, fault)) => {
            return Found {
                source,
                read: Err(fault),
                printed: Ok(()),
            };
        }
    };
    let read = go_to(&mut reader, place);
    // What was read so far begins what the capture holds.
    given_so_far(&reader);
    let printed = print_found(printer, place, read, &reader, out);
    Found {
        source: reader.close(),
        read,
        printed,
    }
}

/// Goes on to the packet at a place.
pub(crate) fn go_to<R: Source>(reader: &mut Reader<R>, place: u64) -> Result<bool, Fault>
    ensures goes { (from : Option (List ℕ)) (header : Header) → HasGiven R.left from header [] reader.old →
        GoesTo R.left from header place reader.new result }
    ensures lends { result ≡ Ok true → Lends reader.new }
    ensures taken { (bytes : List ℕ) × Consumes (R.left reader.old.source) (R.left reader.new.source) bytes }
    ensures source_broke { (result ≡ Err Fault.Device) ↔ (R.failures reader.new.source ≢ R.failures reader.old.source) }
{
    let mut passed = 0;
    while passed < place {
        match reader.advance() {
            Ok(true) => passed += 1,
            Ok(false) => return Ok(false),
            Err(fault) => return Err(fault),
        }
    }
    reader.advance()
}

/// Prints the packet that a reader went on to, where it did.
fn print_found<R: Source, O: PrintSink>(
    printer: &FullPrinter<'_, '_>,
    place: u64,
    read: Result<bool, Fault>,
    reader: &Reader<R>,
    out: &mut O,
) -> Result<(), Unprinted>
    requires { read ≡ Ok true → Lends reader.now }
    ensures { PrintsFound printer.now.form printer.now.filter.now place reader.now.lent (O.contents out.old) (O.contents out.new) read result }
{
    match read {
        Ok(true) => print_whole(printer, place, &reader.packet(), out),
        Ok(false) => Ok(()),
        Err(_) => Ok(()),
    }
}

/// Prints a packet in full, in the form that is asked for.
pub(crate) fn print_whole<O: PrintSink>(
    printer: &FullPrinter<'_, '_>,
    place: u64,
    packet: &PacketRef<'_>,
    out: &mut O,
) -> Result<(), Unprinted>
    ensures prints { PrintsWhole printer.now.form printer.now.filter.now place packet.now (O.contents out.old) (O.contents out.new) result }
    ensures handed_on { OnOk result (O.waits out.new ≡ false) }
{
    match printer.form {
        PacketForm::Text => print_text(printer, place, packet, out),
        PacketForm::Json(capture) => print_object(printer, capture, place, packet, out),
    }
}

/// Prints a packet's line, and then everything else about it.
fn print_text<O: PrintSink>(
    printer: &FullPrinter<'_, '_>,
    place: u64,
    packet: &PacketRef<'_>,
    out: &mut O,
) -> Result<(), Unprinted>
    ensures prints { PrintsWhole Text printer.now.filter.now place packet.now (O.contents out.old) (O.contents out.new) result }
    ensures handed_on { OnOk result (O.waits out.new ≡ false) }
{
    let mut buffer = PacketLine::new(printer.alloc);
    let asking = Asking {
        filter: printer.filter,
        form: PacketForm::Text,
    };
    print_line(&asking, place, packet, &mut buffer, out)?;
    print_rest(printer, place, packet, out)
}

/// Prints what follows a packet's line.
fn print_rest<O: PrintSink>(
    printer: &FullPrinter<'_, '_>,
    place: u64,
    packet: &PacketRef<'_>,
    out: &mut O,
) -> Result<(), Unprinted>
    ensures prints { PrintsMore (O.contents out.old) (O.contents out.new) result }
    ensures handed_on { OnOk result (O.waits out.new ≡ false) }
{
    let text = whole_text(printer, place, packet)?;
    send_last(text.as_bytes(), out)?;
    Ok(())
}

/// Prints the object of a packet of the capture of this number, with everything about it.
fn print_object<O: PrintSink>(
    printer: &FullPrinter<'_, '_>,
    capture: usize,
    place: u64,
    packet: &PacketRef<'_>,
    out: &mut O,
) -> Result<(), Unprinted>
    ensures prints { PrintsWhole (Json capture) printer.now.filter.now place packet.now (O.contents out.old) (O.contents out.new) result }
    ensures handed_on { OnOk result (O.waits out.new ≡ false) }
{
    let object = whole_object(printer, capture, place, packet)?;
    send_last(object.as_bytes(), out)?;
    Ok(())
}
