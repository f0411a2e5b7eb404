//! The packets of a range of places in full: the function under `bpftap explain -p FIRST-LAST`.

ghost use Rattle.std.specs.Prelude.{◌≡◌, ◌≢◌, ◌↔◌, ◌++◌, ◌∷◌, ℕ, List, Option, [], Err, IsOk, false, length};
ghost use Rattle.std.specs.Io.KnownBytes.{Consumes};
ghost use Rattle.savefile.specs.declared.header.Header.{Header};
ghost use Rattle.savefile.specs.declared.packet.Packet.{Packet};
ghost use Rattle.savefile.specs.Reader.{HasGiven, Lends};
ghost use Rattle.cli_explain.specs.Range.{FindsRange, PrintsRange, ShowsRange};

use crate::one::{Found, go_to, print_whole};
use crate::printer::FullPrinter;
use cli_answers::printing::Unprinted;
use cli_args::places::PlaceRange;
use cli_watch::output::PrintSink;
use savefile::laws::given_so_far;
use savefile::{Fault, Reader, Source};

/// Prints all of the packets from one place of a capture to another, one after the other, each as [`explain_one`](crate::one::explain_one)
/// does; if the last place is below the first, only that at the first. If the capture ends between these places, that is no fault.
///
/// `read` is `Ok(false)` if the capture has no packet at the first place, and then nothing is printed. It has the fault that ended the capture, if one
/// did, after the packets before it. With [`Fault::NoMemory`] of the header the source is as it was. If `printed` has a fault, the packets
/// before it are printed, and of the one that it came at what [`explain_one`](crate::one::explain_one) says.
pub fn explain_range<R: Source, O: PrintSink>(
    from: R,
    printer: &FullPrinter<'_, '_>,
    places: PlaceRange,
    out: &mut O,
) -> Found<R>
    // Which packets there are, and what was printed of them.
    ensures finds { FindsRange R.left from printer.now.form printer.now.filter.now places.first places.last (O.contents out.old) (O.contents out.new) result }

    // The next bytes of the source are taken, and its fault is returned if and only if it failed.
    ensures gave { (given : List ℕ) × Consumes (R.left from) (R.left result.source) given }
    ensures source_broke { (result.read ≡ Err Fault.Device) ↔ (R.failures result.source ≢ R.failures from) }

    // If nothing waited and all was printed, nothing waits.
    ensures handed_on { O.waits out.old ≡ false → IsOk result.printed → O.waits out.new ≡ false }
{
    let mut reader = match Reader::open(printer.alloc, from) {
        Ok(reader) => reader,
        Err((source, fault)) => {
            return Found {
                source,
                read: Err(fault),
                printed: Ok(()),
            };
        }
    };
    let ended = show_range(printer, places, &mut reader, out);
    Found {
        source: reader.close(),
        read: ended.read,
        printed: ended.printed,
    }
}

/// Goes on to the first place, and prints the packets from there.
fn show_range<R: Source, O: PrintSink>(
    printer: &FullPrinter<'_, '_>,
    places: PlaceRange,
    reader: &mut Reader<R>,
    out: &mut O,
) -> Found<()>
    ensures shows { (from : Option (List ℕ)) (header : Header) → HasGiven R.left from header [] reader.old →
        ShowsRange from (R.left reader.new.source) header printer.now.form printer.now.filter.now places.first places.last (O.contents out.old) (O.contents out.new) result.read result.printed }
    ensures taken { (bytes : List ℕ) × Consumes (R.left reader.old.source) (R.left reader.new.source) bytes }
    ensures source_broke { (result.read ≡ Err Fault.Device) ↔ (R.failures reader.new.source ≢ R.failures reader.old.source) }
    ensures handed_on { O.waits out.old ≡ false → IsOk result.printed → O.waits out.new ≡ false }
{
    match go_to(reader, places.first) {
        Ok(true) => print_range(printer, places, reader, out),
        Ok(false) => outcome(Ok(false), Ok(())),
        Err(fault) => outcome(Err(fault), Ok(())),
    }
}

/// What printing came to, of a reader that its caller has.
fn outcome(read: Result<bool, Fault>, printed: Result<(), Unprinted>) -> Found<()>
    ensures read { result.read ≡ read }
    ensures printed { result.printed ≡ printed }
{
    Found {
        source: (),
        read,
        printed,
    }
}

/// Prints the packet that a reader lends, which is the first, and those after it, up to the last place.
fn print_range<R: Source, O: PrintSink>(
    printer: &FullPrinter<'_, '_>,
    places: PlaceRange,
    reader: &mut Reader<R>,
    out: &mut O,
) -> Found<()>
    requires { Lends reader.old }
    ensures prints { (from : Option (List ℕ)) (header : Header) (before : List Packet) → length before ≡ places.first →
        HasGiven R.left from header (before ++ reader.old.lent ∷ []) reader.old →
        PrintsRange from (R.left reader.new.source) header printer.now.form printer.now.filter.now places.first places.last before (O.contents out.old) (O.contents out.new) result.read result.printed }
    ensures taken { (bytes : List ℕ) × Consumes (R.left reader.old.source) (R.left reader.new.source) bytes }
    ensures source_broke { (result.read ≡ Err Fault.Device) ↔ (R.failures reader.new.source ≢ R.failures reader.old.source) }
    ensures handed_on { IsOk result.printed → O.waits out.new ≡ false }
{
    let mut place = places.first;
    loop {
        // Where the printing breaks off, what was read so far begins what the capture holds.
        given_so_far(reader);
        let printed = print_whole(printer, place, &reader.packet(), out);
        if printed.is_err() {
            return outcome(Ok(true), printed);
        }
        if place >= places.last {
            return outcome(Ok(true), Ok(()));
        }
        match reader.advance() {
            Ok(true) => place += 1,
            Ok(false) => return outcome(Ok(true), Ok(())),
            Err(fault) => return outcome(Err(fault), Ok(())),
        }
    }
}
