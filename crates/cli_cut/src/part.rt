//! `bpftap cut --bytes`, over files: one part of a capture.

ghost use Rattle.std.specs.Prelude.{◌≡◌};
ghost use Rattle.pcap_parts.specs.Parts.{IsCounted};
ghost use Rattle.cli_cut.specs.Parts.{IsCutAndEmptied, IsEmptied, PrintsPart};
ghost use Rattle.cli_cut.specs.Telling.{status_of};

use crate::command::report_cut;
use crate::hints::{counts_frames, hint_replaced, replaced_size};
use crate::outcome::CutReport;
use crate::paths::late_output;
use crate::plan::read_filter;
use crate::report::{report_count, report_end};
use bpfvm::Program;
use cli_args::cut::CutWords;
use cli_args::places::ByteRange;
use cli_files::paths::{Opening, STANDARD_OUTPUT, refuse_shared_files};
use cli_files::reading::report_printed;
use cli_parts::input::{OpenPart, open_part};
use cli_parts::line::print_part;
use cli_report::HintSink;
use cli_report::stream::give_hint;
use cli_store::disk::is_standard_output;
use cli_text::Status;
use cli_watch::hints::report_unseen;
use cli_watch::output::PrintSink;
use cli_watch::{Screen, Watch};
use fault_report::reporting::report_memory;
use line_text::{LineForm, NamingForm};
use pcap_cut::cut::{CutEnd, End, cut};
use pcap_parts::part::PartCut;
use savefile::{Counted, Fault, Header, Source};
use std::alloc::Global;
use std::fs::Files;
use std::io;
use std::io::Write;

/// What a cut needs: its filter, IN, and OUT.
pub struct Job<I, O> {
    pub program: Program,
    pub input: I,
    pub output: O,
}

/// What a cut of a part needs: the range, how many bytes the whole capture has, OUT as the line of
/// the part names it, and what a cut needs.
pub struct PartJob<'n, I, O> {
    pub bytes: ByteRange,
    pub size: u64,
    pub name: &'n str,
    pub job: Job<I, O>,
}

/// Empties the buffer in front of OUT. What fails only now is a fault of OUT too, and goes before a
/// torn record.
fn flush<R, W: PrintSink>(mut end: CutEnd<R, Counted<W>>) -> CutEnd<R, Counted<W>>
    ensures { IsEmptied (λ sink. W.contents sink.inner) (λ sink. W.waits sink.inner) end result }
{
    if end.sink.inner.hand_on().is_err() {
        end.end = End::Output(Fault::Device);
    }
    end
}

/// Cuts the part, and empties the buffer in front of OUT.
fn cut_job<R: Source + Drop, W: PrintSink + Drop>(
    alloc: Global,
    words: &CutWords<'_>,
    job: Job<R, Counted<W>>,
) -> CutEnd<R, Counted<W>>
    ensures { IsCutAndEmptied R.left (λ sink. W.contents sink.inner) (λ sink. W.waits sink.inner) job.input job.output job.program words.now.snap words.now.order words.now.«unit» result }
{
    let Job {
        program,
        input,
        output,
    } = job;
    let header = Header {
        order: words.order,
        unit: words.unit,
        snap: words.snap,
    };
    flush(cut(alloc, input, &program, header, output))
}

/// Cuts a part, empties the buffer in front of OUT, and prints the line of the part, if it was read
/// to its end or to a torn or bad record and all was written.
pub fn cut_and_print<R: Source + Drop, W: PrintSink + Drop, O: Write>(
    alloc: Global,
    words: &CutWords<'_>,
    part: PartJob<'_, R, Counted<W>>,
    out: &mut O,
) -> (CutEnd<R, Counted<W>>, io::Result<()>)
    ensures cut { IsCutAndEmptied R.left (λ sink. W.contents sink.inner) (λ sink. W.waits sink.inner) part.entry.job.input part.entry.job.output part.entry.job.program words.now.snap words.now.order words.now.«unit» result.0 }
    ensures line { PrintsPart part.entry.bytes part.entry.size part.entry.name.now result.0 (O.contents out.old) (O.contents out.new) result.1 }
    ensures none { (IsCounted result.0.end → ⊥) → out.new ≡ out.old }
{
    let PartJob {
        bytes,
        size,
        name,
        job,
    } = part;
    let end = cut_job(alloc, words, job);
    let printed = match PartCut::of(bytes.first, bytes.end, size, name, &end) {
        Some(part) => print_part(alloc, &part, out),
        None => Ok(()),
    };
    (end, printed)
}

/// What a torn record is if IN goes on after the range.
const INSIDE: &str =
    "the range ends inside this record, and the capture goes on: join prints the range to cut in its place";

/// Reports that a range ends inside a record: nothing is wrong with IN then.
fn report_inside<E: HintSink>(
    report: &CutReport,
    words: &CutWords<'_>,
    from: &str,
    err: &mut E,
) -> Status
    ensures { result ≡ status_of report.now.end }
{
    let status = report_end(report.end, from, words.output, err);
    give_hint(INSIDE, err);
    if words.counted {
        let _ = report_count(report.end, report.tally, LineForm::asked(words.json), err);
    }
    status
}

/// Reports how a cut of a range ended, after which IN goes on or not. That nobody reads standard
/// output any more is not reported.
fn report_part<F: Files, E: HintSink>(
    rt: &F,
    report: &CutReport,
    words: &CutWords<'_>,
    (from, goes_on): (&str, bool),
    err: &mut E,
) -> Status {
    if report.is_unread() && is_standard_output(rt, words.output) {
        return Status::Failed;
    }
    match report.end {
        End::Input(Fault::TornRecord(_)) if goes_on => report_inside(report, words, from, err),
        _ => report_cut(report, words, from, err),
    }
}

/// OUT as the line of its part names it: on a terminal with `?` in place of each hidden character;
/// or reports that memory ran out.
fn printed_name<R: AllocGlobal + Screen, E: HintSink>(
    rt: &R,
    output: &str,
    err: &mut E,
) -> Result<String, Status> {
    let form = NamingForm {
        form: LineForm::Text,
        is_terminal: rt.is_output_terminal(),
    };
    let mut name = String::new(rt.alloc());
    match write!(name, "{}", form.named(output)) {
        Ok(()) => Ok(name),
        Err(_) => Err(report_memory(err)),
    }
}

/// Accepts the filter, compares the paths, and opens the part, in this order; then cuts it. Into how
/// many frames the expression does not look is reported last, if OUT was written whole and the line
/// was printed.
fn cut_part<'r, R: Files + AllocGlobal + Screen, O: Write, E: HintSink>(
    rt: &'r R,
    words: &CutWords<'_>,
    bytes: ByteRange,
    out: &mut O,
    err: &mut E,
) -> Result<Status, Status> {
    let Some(path) = words.inputs.first().copied() else {
        return Err(Status::Refused);
    };
    let is_counting = counts_frames(words, err.takes_hints());
    let watch = Watch::new(rt, &[], err.takes_hints()).counting(is_counting);
    let program = read_filter(rt, words, &watch, err)?;
    let read = [words.listing.unwrap_or(path), path];
    let printed = Some(STANDARD_OUTPUT);
    refuse_shared_files(rt, Opening::First, printed, &read, &[words.output], err)?;
    let name = printed_name(rt, words.output, err)?;
    let OpenPart { input, size } = open_part(rt, path, bytes, &watch, err)?;
    let output = late_output(rt, words.output, err)?;
    let part = PartJob {
        bytes,
        size,
        name: name.as_str(),
        job: Job {
            program,
            input,
            output,
        },
    };
    let (end, printed) = cut_and_print(rt.alloc(), words, part, out);
    let printed = report_printed(&printed, err);
    let from = (path, bytes.end < size);
    let status = report_part(rt, &CutReport::of(end), words, from, err).max(printed);
    if is_counting {
        let _ = report_unseen(watch.frames(), status, err);
    }
    Ok(status)
}

/// `bpftap cut --bytes`: the filter is accepted, and the paths are compared, before IN is opened,
/// which is a regular file. OUT is made at its first write.
pub fn cut_part_command<R: Files + AllocGlobal + Screen, O: Write, E: HintSink>(
    rt: &R,
    words: &CutWords<'_>,
    bytes: ByteRange,
    out: &mut O,
    err: &mut E,
) -> Status {
    let replaced = replaced_size(rt, words.output, err);
    match cut_part(rt, words, bytes, out, err) {
        Ok(status) => {
            hint_replaced(rt, replaced, words.output, status, err);
            status
        }
        Err(status) => status,
    }
}
