//! `bpftap explain` with `-c`, `-l`, or a bound, over files.

ghost use Rattle.std.specs.Prelude.{◌≡◌, OnOk, false, if◌then◌else◌};
ghost use Rattle.line_text.specs.declared.form.LineForm.TheVariants.{Json, Text};
ghost use Rattle.cli_text.specs.declared.status.Status.TheVariants.{Clean};
ghost use Rattle.cli_store.specs.Files.{Keeps};

use crate::captures::{CountJob, CountTotals, CountedCaptures, count_captures};
use crate::filter::CountedFilter;
use crate::line::print_sum_object;
use crate::list::{ListJob, ListedCaptures, list_captures};
use crate::report::{bounds_status, listed_status, report_counting};
use cli_answers::PacketForm;
use cli_answers::asked::{Asked, Unasked, ask};
use cli_answers::captures::LinesEnd;
use cli_answers::counts::print_counts;
use cli_answers::disk::run_over_disk;
use cli_answers::opened::close_captures;
use cli_answers::printing::Unprinted;
use cli_answers::report::report_unasked;
use cli_args::counting::{CountShown, CountWords};
use cli_files::paths::PathFault;
use cli_report::HintSink;
use cli_store::FileStore;
use cli_text::Status;
use cli_watch::Screen;
use cli_watch::hints::{is_asked, report_unseen};
use cli_watch::output::PrintSink;
use line_text::{LineForm, NamingForm};
use std::alloc::Global;
use std::fs::Files;
use std::io::Write;

/// What one call is asked for, and whether its standard output is a terminal.
#[derive(Clone, Copy)]
pub struct CountCall<'w, 'a> {
    pub words: &'w CountWords<'a>,
    pub is_terminal: bool,
}

impl CountCall<'_, '_> {
    /// The form of the lines that name captures.
    fn form(self) -> NamingForm
        ensures form { result.form ≡ if self.entry.words.now.json then Json else Text }
        ensures terminal { result.is_terminal ≡ self.entry.is_terminal }
    {
        NamingForm {
            form: LineForm::asked(self.words.json),
            is_terminal: self.is_terminal,
        }
    }
}

/// What one call has: what it is asked for, its filter, and its captures.
#[derive(Drop)]
struct Job<'w, 'a, I> {
    alloc: Global,
    call: CountCall<'w, 'a>,
    filter: CountedFilter,
    captures: Vec<I>,
}

/// Whether it is reported into how many frames the expression does not look: if counts are
/// printed.
fn counts_frames(words: &CountWords<'_>) -> bool {
    words.shown == CountShown::Counts && words.expr.is_some_and(is_asked)
}

/// Whether instructions are counted: only in JSON, since counting them takes time.
fn counts_instructions(words: &CountWords<'_>) -> bool {
    words.json && words.shown == CountShown::Counts
}

/// Accepts the filter, compares the paths, and opens the captures late, in this order.
fn prepare<'w, 'p, F: FileStore<'p>>(
    alloc: Global,
    files: &mut F,
    call: CountCall<'w, 'p>,
) -> Result<Job<'w, 'p, F::Input>, Unasked<'p>>
    ensures kept { Keeps (F.place files.old) (F.place files.new) (F.text files.old) (F.text files.new) (F.pending files.old) (F.pending files.new) }
{
    let words = call.words;
    let inputs = words.inputs.as_slice();
    let Asked { filter, captures } = ask(alloc, files, words.listing, words.expr, inputs)?;
    match CountedFilter::of(alloc, filter) {
        Ok(filter) => Ok(Job {
            alloc,
            call,
            filter,
            captures,
        }),
        Err(_) => {
            let _ = close_captures(files, captures, Ok(()));
            Err(Unasked::Paths(PathFault::NoMemory))
        }
    }
}

/// Prints the sum of the counts of several captures, if a header was read, and all that the writer
/// has gathered.
fn finish_counts<O: PrintSink>(
    alloc: Global,
    words: &CountWords<'_>,
    has_program: bool,
    totals: CountTotals,
    out: &mut O,
) -> Result<(), Unprinted>
    ensures { OnOk result (O.waits out.new ≡ false) }
{
    totals.printed?;
    let is_summed = words.inputs.len() > 1 && words.shown == CountShown::Counts;
    if !totals.opened || !is_summed {
        return Ok(out.hand_on()?);
    }
    if words.json {
        let taken = if has_program {
            Some(totals.instructions)
        } else {
            None
        };
        return print_sum_object(alloc, totals.counts, taken, out);
    }
    print_counts(
        totals.counts,
        PacketForm::Text,
        &mut String::new(alloc),
        out,
    )
}

/// Hands on the paths that were printed, if all were.
fn finish_paths<O: PrintSink>(printed: Result<(), Unprinted>, out: &mut O) -> Result<(), Unprinted>
    ensures { OnOk result (O.waits out.new ≡ false) }
{
    printed?;
    Ok(out.hand_on()?)
}

/// Counts the packets, prints the counts if they are asked for, and reports how that ended.
fn count_all<'p, F: FileStore<'p>, O: PrintSink, E: HintSink>(
    files: &mut F,
    job: Job<'_, 'p, F::Input>,
    out: &mut O,
    err: &mut E,
) -> Status
    ensures kept { Keeps (F.place files.old) (F.place files.new) (F.text files.old) (F.text files.new) (F.pending files.old) (F.pending files.new) }
    ensures handed_on { O.waits out.old ≡ false → result ≡ Clean → O.waits out.new ≡ false }
{
    let Job {
        alloc,
        call,
        filter,
        captures,
    } = job;
    let words = call.words;
    let paths = words.inputs.as_slice();
    let counting = CountJob {
        alloc,
        filter: &filter,
        is_measured: counts_instructions(words),
        paths,
        is_shown: words.shown == CountShown::Counts,
        form: call.form(),
    };
    let CountedCaptures {
        sources,
        totals,
        read,
    } = count_captures(&counting, captures, out);
    let noted = close_captures(files, sources, read);
    let counts = totals.counts;
    let has_program = filter.measured_program(counting.is_measured).is_some();
    let end = LinesEnd {
        counts,
        read,
        noted,
        printed: finish_counts(alloc, words, has_program, totals, out),
    };
    let answer = bounds_status(words.bounds, counts.yes);
    let status = report_counting(&end, answer, paths, err);
    if counts_frames(words) && end.printed.is_ok() {
        let _ = report_unseen(counts.frames(), Status::Clean, err);
    }
    status
}

/// Prints the paths of the captures that have an accepted packet, and reports how that ended.
fn list_all<'p, F: FileStore<'p>, O: PrintSink, E: HintSink>(
    files: &mut F,
    job: Job<'_, 'p, F::Input>,
    out: &mut O,
    err: &mut E,
) -> Status
    ensures kept { Keeps (F.place files.old) (F.place files.new) (F.text files.old) (F.text files.new) (F.pending files.old) (F.pending files.new) }
    ensures handed_on { O.waits out.old ≡ false → result ≡ Clean → O.waits out.new ≡ false }
{
    let Job {
        alloc,
        call,
        filter,
        captures,
    } = job;
    let words = call.words;
    let paths = words.inputs.as_slice();
    let listing = ListJob {
        alloc,
        test: &filter,
        paths,
        form: call.form(),
    };
    let ListedCaptures {
        sources,
        totals,
        read,
    } = list_captures(&listing, captures, out);
    let answer = listed_status(totals.found);
    let end = LinesEnd {
        counts: (),
        read,
        noted: close_captures(files, sources, read),
        printed: finish_paths(totals.printed, out),
    };
    report_counting(&end, answer, paths, err)
}

/// `bpftap explain` with `-c`, `-l`, or a bound, whatever the files are: the filter is accepted and
/// the paths are compared before a capture is opened, and no capture is the file that is printed
/// to. No file changes.
pub fn count_and_report<'p, F: FileStore<'p>, O: PrintSink, E: HintSink>(
    alloc: Global,
    files: &mut F,
    call: CountCall<'_, 'p>,
    out: &mut O,
    err: &mut E,
) -> Status
    ensures kept { Keeps (F.place files.old) (F.place files.new) (F.text files.old) (F.text files.new) (F.pending files.old) (F.pending files.new) }
    // Nothing that was printed waits, if all went well.
    ensures handed_on { O.waits out.old ≡ false → result ≡ Clean → O.waits out.new ≡ false }
{
    match prepare(alloc, files, call) {
        Ok(job) => match call.words.shown {
            CountShown::Paths => list_all(files, job, out, err),
            CountShown::Counts | CountShown::Nothing => count_all(files, job, out, err),
        },
        Err(reason) => report_unasked(alloc, &reason, call.words.expr, err),
    }
}

/// [`count_and_report`] over the files of the system, with a buffer in front of the output.
pub fn count_command<R: Files + AllocGlobal + Screen, O: Write, E: HintSink>(
    rt: &R,
    words: &CountWords<'_>,
    out: &mut O,
    err: &mut E,
) -> Status {
    let inputs = words.inputs.as_slice();
    let call = CountCall {
        words,
        is_terminal: rt.is_output_terminal(),
    };
    run_over_disk(rt, inputs, out, err, |mut files, out, err| {
        count_and_report(rt.alloc(), &mut files, call, out, err)
    })
}
