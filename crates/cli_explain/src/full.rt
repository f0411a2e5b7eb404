//! `bpftap explain -p`, over files that contracts can know: packets of each capture in full.

ghost use Rattle.std.specs.Prelude.{◌≡◌, false, true};
ghost use Rattle.std.specs.List.{AllByRecursion};
ghost use Rattle.cli_text.specs.declared.status.Status.TheVariants.{Clean};
ghost use Rattle.fault_report.specs.Reports.{TellsAmong, TellsMore, TellsOne};
ghost use Rattle.cli_store.specs.Files.{Keeps};
ghost use Rattle.cli_explain.specs.Explaining.{FindsIn, FindsOne, PlacesAnswer, goes_on_after};

use crate::hints::hint_place;
use crate::one::Found;
use crate::outcome::FullEnd;
use crate::printer::FullPrinter;
use crate::range::explain_range;
use crate::report::report_one;
use bpfvm::Program;
use cli_answers::asked::{Asked, ask};
use cli_answers::hints::hint_capture;
use cli_answers::printing::Unprinted;
use cli_answers::report::report_unasked;
use cli_answers::{AskedFilter, PacketForm};
use cli_args::explain::ExplainWords;
use cli_args::places::PlaceRange;
use cli_report::HintSink;
use cli_store::FileStore;
use cli_text::Status;
use cli_watch::output::PrintSink;
use filtergen::{Refusal, compile};
use savefile::Fault;
use std::alloc::Global;

/// Which packets of each capture are explained in full, and by what; and the paths of the captures, as they are reported.
#[derive(Clone, Copy)]
struct InFull<'f, 'p, 'w> {
    printer: FullPrinter<'f, 'p>,
    places: PlaceRange,
    paths: &'w [&'w str],
}

/// A capture, and its number among those that are read.
struct NumberedCapture<R> {
    number: usize,
    source: R,
}

/// The words of a command line that has places, and those.
#[derive(Clone, Copy)]
pub struct PlacesWords<'w, 'p> {
    pub words: &'w ExplainWords<'p>,
    pub places: PlaceRange,
}

/// Whether the next capture is read after one of which packets were read and printed so.
fn goes_on_after(read: Result<bool, Fault>, printed: &Result<(), Unprinted>) -> bool
    ensures { result ≡ goes_on_after read printed.now }
{
    match read {
        Ok(_) => printed.is_ok(),
        Err(_) => false,
    }
}

/// Prints the packets of a range of places of a capture in full, closes it, and reports how that ended.
fn explain_places_of<'p, F: FileStore<'p>, O: PrintSink, E: HintSink>(
    asked: &InFull<'_, '_, '_>,
    files: &mut F,
    capture: NumberedCapture<F::Input>,
    out: &mut O,
    err: &mut E,
) -> FullEnd
    ensures kept { Keeps (F.place files.old) (F.place files.new) (F.text files.old) (F.text files.new) (F.pending files.old) (F.pending files.new) }
    ensures finds { F.known ≡ true → F.Input.failures capture.source ≡ 0 →
        FindsOne F.Input.left (F.failed files.new) (λ says. TellsAmong E.takes_hints E.failed E.contents E.fault_form says err.old err.new) asked.now.paths.now asked.now.printer.form capture.number asked.now.printer.filter.now asked.now.places.first asked.now.places.last capture.source (O.contents out.old) (O.contents out.new) result }
    ensures stays { F.known ≡ true → F.failed files.old ≡ true → F.failed files.new ≡ true }
    ensures more { TellsMore E.takes_hints E.failed E.contents E.fault_form err.old err.new }
    ensures handed_on { O.waits out.old ≡ false → result.status ≡ Clean → O.waits out.new ≡ false }
{
    let NumberedCapture { number, source } = capture;
    let form = asked.printer.form.of_capture(number);
    let printer = FullPrinter {
        form,
        ..asked.printer
    };
    let Found {
        source,
        read,
        printed,
    } = explain_range(source, &printer, asked.places, out);
    let noted = files.done(source);
    let goes_on = goes_on_after(read, &printed);
    let found = Found {
        source: (),
        read,
        printed,
    };
    let status = report_one(&found, asked.places.first, asked.paths, number, err);
    match read {
        Ok(true) => {}
        Ok(false) => hint_place(asked.paths, number, err),
        Err(fault) => hint_capture(asked.paths, number, fault, &noted, err),
    }
    FullEnd { status, goes_on }
}

/// Prints these packets of each capture in full, in order, until one can't be read so far or the printing fails; and closes all captures.
fn explain_in_full<'p, F: FileStore<'p>, O: PrintSink, E: HintSink>(
    asked: &InFull<'_, '_, '_>,
    files: &mut F,
    captures: Vec<F::Input>,
    out: &mut O,
    err: &mut E,
) -> Status
    ensures kept { Keeps (F.place files.old) (F.place files.new) (F.text files.old) (F.text files.new) (F.pending files.old) (F.pending files.new) }
    ensures finds { F.known ≡ true → AllByRecursion (λ capture. F.Input.failures capture ≡ 0) captures.items →
        FindsIn F.Input.left O.contents (F.failed files.new) (λ says. TellsAmong E.takes_hints E.failed E.contents E.fault_form says err.old err.new) asked.now.paths.now asked.now.printer.form asked.now.printer.filter.now asked.now.places.first asked.now.places.last 0 true Clean captures.items out.old out.new result }
    ensures handed_on { O.waits out.old ≡ false → result ≡ Clean → O.waits out.new ≡ false }
{
    let mut status = Status::Clean;
    let mut goes_on = true;
    let mut number: usize = 0;
    for capture in captures {
        if goes_on {
            let numbered = NumberedCapture {
                number,
                source: capture,
            };
            let end = explain_places_of(asked, files, numbered, out, err);
            status = status.max(end.status);
            goes_on = end.goes_on;
            number += 1;
        } else {
            let _ = files.done(capture);
        }
    }
    status
}

/// The program whose run is printed of a packet in full.
#[derive(Drop)]
enum RunProgram<'f> {
    /// What an expression is compiled to, or why it is not.
    Compiled(Result<Program, Refusal>),
    /// The filter is a program.
    Asked(&'f Program),
}

impl<'f> RunProgram<'f> {
    /// That of a filter, whose expression is compiled to return this number where it accepts.
    fn of_filter(filter: &'f AskedFilter, snap: u32) -> RunProgram<'f> {
        match filter {
            AskedFilter::Expression(expr) => RunProgram::Compiled(compile(expr, snap)),
            AskedFilter::Program(program) => RunProgram::Asked(program),
        }
    }

    /// The program, or why there is none.
    fn program(&self) -> Result<&Program, Refusal> {
        match self {
            RunProgram::Compiled(Ok(program)) => Ok(program),
            RunProgram::Compiled(Err(refusal)) => Err(*refusal),
            RunProgram::Asked(program) => Ok(*program),
        }
    }
}

/// Prints the packets of a range of places of each capture in full, with the run of the filter's program, as texts or as objects; and reports
/// how that ended.
pub fn explain_places<'p, F: FileStore<'p>, O: PrintSink, E: HintSink>(
    alloc: Global,
    files: &mut F,
    asked: &PlacesWords<'_, 'p>,
    out: &mut O,
    err: &mut E,
) -> Status
    ensures kept { Keeps (F.place files.old) (F.place files.new) (F.text files.old) (F.text files.new) (F.pending files.old) (F.pending files.new) }
    ensures answers { F.known ≡ true → PlacesAnswer F.Input.left F.Input.failures O.contents (F.place files.old) (F.text files.old) (F.printed files.old) (F.failed files.new) asked.now.words.now asked.now.places (λ says. TellsOne E.takes_hints E.failed E.contents E.fault_form says err.old err.new) (λ says. TellsAmong E.takes_hints E.failed E.contents E.fault_form says err.old err.new) out.old out.new result }
    ensures handed_on { O.waits out.old ≡ false → result ≡ Clean → O.waits out.new ≡ false }
{
    let PlacesWords { words, places } = *asked;
    let paths = words.inputs.as_slice();
    let Asked { filter, captures } = match ask(alloc, files, words.listing, words.expr, paths) {
        Ok(asked) => asked,
        Err(reason) => return report_unasked(alloc, &reason, words.expr, err),
    };
    let form = PacketForm::asked(words.json);
    let run = RunProgram::of_filter(&filter, words.snap);
    let printer = FullPrinter {
        alloc,
        filter: &filter,
        program: run.program(),
        form,
    };
    let in_full = InFull {
        printer,
        places,
        paths,
    };
    explain_in_full(&in_full, files, captures, out, err)
}
