//! `bpftap cut` of several captures, over files that contracts can know: a split into one OUT.

ghost use Rattle.std.specs.Prelude.{◌≡◌, ◌≢◌, ℕ, List, [], ◌++◌, true, IfOk, IfErr, OnOk, All, length, map, slice_get};
ghost use Rattle.std.specs.List.{AllZip};
ghost use Rattle.line_text.specs.Sending.{Takes};
ghost use Rattle.cli_split.specs.Opened.{IsLate};
ghost use Rattle.cli_split.specs.Statuses.{split_status, written_status};
ghost use Rattle.cli_text.specs.declared.status.Status.TheVariants.{Failed};
ghost use Rattle.fault_report.specs.Reports.{Tells};
ghost use Rattle.cli_store.specs.Files.{Keeps};
ghost use Rattle.cli_cut.specs.Captures.{CutsAll, CutsPackets, HasSpace, IsUnopened, listing_path, part_tally, total_tally, total_told};
ghost use Rattle.cli_cut.specs.Cutting.{IsUncompared, IsUnmade, SparesListing};
ghost use Rattle.cli_cut.specs.Reporting.{TellsCut};

use crate::outcome::Refusal;
use crate::plan::program;
use crate::report::report_tally;
use bpfvm::Program;
use cli_args::cut::CutWords;
use cli_files::paths::Opening;
use cli_report::HintSink;
use cli_report::probe::ProbedInput;
use cli_split::closing::close_files;
use cli_split::hints::hint_ended;
use cli_split::opening::late_captures;
use cli_split::outcome::{ClosedEnd, ClosedPart, Refusal as SplitRefusal};
use cli_split::part::{Part, PartEnd};
use cli_split::plan::SplitLine;
use cli_split::report::{EndedSplit, was_begun};
use cli_split::split::{Room, SplitEnd};
use cli_store::FileStore;
use cli_text::Status;
use line_text::LineForm;
use pcap_cut::cut::Tally;
use savefile::Fault;
use savefile::laws::packets_take_room;
use std::alloc::{AllocError, Global};
use std::io;
use std::io::ErrorKind;

/// The paths of all files that are read.
fn read_paths<'p>(alloc: Global, words: &CutWords<'p>) -> Result<Vec<&'p str>, AllocError>
    ensures { IfOk result (λ paths. paths.items ≡ words.now.inputs.items ++ listing_path words.now.listing) }
{
    let mut paths = Vec::from_slice(alloc, words.inputs.as_slice())?;
    if let Some(listing) = words.listing {
        paths.push(listing)?;
    }
    Ok(paths)
}

/// Refuses an OUT that is a file which is read, as each IN is while OUT is written.
fn check_paths<'p, F: FileStore<'p>>(
    alloc: Global,
    files: &mut F,
    words: &CutWords<'p>,
) -> Result<(), Refusal<'p>>
    ensures kept { Keeps (F.place files.old) (F.place files.new) (F.text files.old) (F.text files.new) (F.pending files.old) (F.pending files.new) }
    ensures opened { F.opened files.new ≡ F.opened files.old }
    ensures apart { F.known ≡ true → OnOk result (All (λ input. F.place files.old input.now ≢ F.place files.old words.now.output.now) words.now.inputs.items) }
    ensures spares { F.known ≡ true → OnOk result (SparesListing (F.place files.old) words.now) }
    ensures refused { F.known ≡ true → IfErr result (IsUncompared (F.place files.old) (F.failed files.new) (F.denied files.new) words.now words.now.inputs.items) }
{
    let Ok(read) = read_paths(alloc, words) else {
        return Err(Refusal::NoMemory);
    };
    match files.check_apart(Opening::Late, false, read.as_slice(), &[words.output]) {
        Ok(()) => Ok(()),
        Err(fault) => Err(Refusal::Paths(fault)),
    }
}

/// The captures, each of which is opened when it is read first.
fn open_captures<'p, F: FileStore<'p>>(
    alloc: Global,
    files: &mut F,
    paths: &[&'p str],
) -> Result<Vec<F::Input>, Refusal<'p>>
    ensures kept { Keeps (F.place files.old) (F.place files.new) (F.text files.old) (F.text files.new) (F.pending files.old) (F.pending files.new) }
    ensures opened { F.known ≡ true → OnOk result (F.opened files.new ≡ F.opened files.old ++ map (λ path. F.place files.old path.now) paths.now) }
    ensures late { F.known ≡ true → IfOk result (λ captures. AllZip (IsLate F.Input.left F.Input.failures (F.place files.old) (F.text files.old)) paths.now captures.items) }
    ensures refused { F.known ≡ true → IfErr result (IsUnopened (F.place files.old) (F.denied files.new) paths.now) }
{
    match late_captures(alloc, files, paths) {
        Ok(captures) => Ok(captures),
        Err(SplitRefusal::File(path, error)) => Err(Refusal::File(path, error)),
        Err(_) => Err(Refusal::NoMemory),
    }
}

/// The memory that a cut needs once OUT is made: so it is not made in vain.
#[derive(Drop)]
struct Space<R, W> {
    room: Room<R, W>,
    parts: Vec<Part<W>>,
    notes: Vec<ProbedInput<()>>,
    closed: Vec<ClosedPart>,
}

/// Reserves the space for this many captures.
fn reserve<R: Drop, W: Drop>(alloc: Global, captures: usize) -> Result<Space<R, W>, AllocError>
    ensures { IfOk result (HasSpace captures) }
{
    Ok(Space {
        room: Room::reserve(alloc, captures, 1)?,
        parts: Vec::with_capacity(alloc, 1)?,
        notes: Vec::with_capacity(alloc, captures)?,
        closed: Vec::with_capacity(alloc, 1)?,
    })
}

/// Cuts the captures into OUT.
fn cut_opened<'p, F: FileStore<'p>>(
    alloc: Global,
    files: &mut F,
    words: &CutWords<'p>,
    program: Program,
    captures: Vec<F::Input>,
) -> Result<ClosedEnd, Refusal<'p>>
    requires late { F.known ≡ true → AllZip (IsLate F.Input.left F.Input.failures (F.place files.old) (F.text files.old)) words.now.inputs.items captures.items }
    requires apart { F.known ≡ true → All (λ read. read ≢ F.place files.old words.now.output.now) (F.opened files.old) }
    ensures others { F.known ≡ true → (p : List ℕ) → p ≢ F.place files.old words.now.output.now → F.text files.new p ≡ F.text files.old p }
    ensures cuts { F.known ≡ true → IfOk result (CutsPackets (F.place files.old) (F.text files.old) (F.text files.new) (F.failed files.new) words.now program) }
    ensures closed { F.known ≡ true → F.pending files.new ≡ F.pending files.old }
    ensures refused { F.known ≡ true → IfErr result (λ refusal. (F.text files.new ≡ F.text files.old) × IsUnmade (F.place files.old) (F.denied files.new) words.now refusal) }
{
    packets_take_room();
    let Ok(space) = reserve(alloc, captures.len()) else {
        return Err(Refusal::NoMemory);
    };
    let Space {
        room,
        mut parts,
        notes,
        closed,
    } = space;
    let sink = match files.create(words.output) {
        Ok(sink) => sink,
        Err(error) => return Err(Refusal::File(words.output, error)),
    };
    parts.push_reserved(Part {
        program,
        snap: words.snap,
        sink,
    });
    let end = room.split(captures, parts, words.order, words.unit);
    Ok(close_files(files, end, notes, closed))
}

/// `bpftap cut` of several captures, whatever the files are. The filter is accepted, and the paths
/// are compared, before a capture is opened; each is opened when it is read first, and OUT is made
/// at its first byte. No other file changes.
pub fn cut_several<'p, F: FileStore<'p>>(
    alloc: Global,
    files: &mut F,
    words: &CutWords<'p>,
) -> Result<ClosedEnd, Refusal<'p>>
    requires none_open { F.opened files.old ≡ [] }
    ensures cuts { F.known ≡ true → CutsAll (F.place files.old) (F.text files.old) (F.text files.new) (F.failed files.new) (F.denied files.new) words.now result }
    // Each file that was made is closed.
    ensures closed { F.known ≡ true → F.pending files.new ≡ F.pending files.old }
{
    let program = program(alloc, files, words.listing, words.expr, words.snap)?;
    check_paths(alloc, files, words)?;
    match open_captures(alloc, files, words.inputs.as_slice()) {
        Ok(captures) => cut_opened(alloc, files, words, program, captures),
        Err(refusal) => Err(refusal),
    }
}

/// How many of the packets were written, if OUT was written whole.
fn part_tally<W>(part: &PartEnd<W>) -> Option<Tally>
    ensures { result ≡ part_tally part.now }
{
    match part.written {
        Ok(()) => Some(part.tally),
        Err(_) => None,
    }
}

/// How many of the packets of all captures were written, if the header of the first capture was
/// read and OUT was written whole. Packets count up to the fault that ended the reading.
pub(crate) fn total_tally<R, W>(end: &SplitEnd<R, W>) -> Option<Tally>
    ensures { result ≡ total_tally end.now }
{
    if !was_begun(end.end) {
        return None;
    }
    match end.parts.get(0) {
        Some(part) => part_tally(part),
        None => None,
    }
}

/// Reports how many of the packets of all captures were written, in a line `67 of 253 packets` or
/// in an object of JSON, if the header of the first capture was read and OUT, the only part, was
/// written whole. Packets count up to the fault that ended the reading. Else it reports nothing.
/// The error is that of standard error, which took a prefix of the line.
#[tactic(auto, using(crate::proofs::Telling::nothing_told))]
pub fn report_total<R, W, E: HintSink>(
    end: &SplitEnd<R, W>,
    form: LineForm,
    err: &mut E,
) -> io::Result<()>
    ensures taken { Takes (E.contents err.old) (E.contents err.new) result (total_told form end.now) }
    ensures told { Tells E.takes_hints E.failed E.contents E.fault_form err.old err.new (total_told form end.now) }
{
    match total_tally(end) {
        Some(tally) => report_tally(tally, form, err),
        None => Ok(()),
    }
}

/// Whether the OUT of a part failed since it is a pipe that nobody reads any more.
fn is_part_unread(part: &ClosedPart) -> bool
    ensures { result ≡ true → written_status part.now.written ≡ Failed }
{
    match (part.written, &part.sink) {
        (Err(Fault::Device), Some(error)) => error.kind() == ErrorKind::BrokenPipe,
        _ => false,
    }
}

/// Whether OUT, the only part, failed so.
pub(crate) fn is_unread(end: &ClosedEnd) -> bool
    ensures { result ≡ true → split_status end.now ≡ Failed }
{
    match end.parts.split_first() {
        Some((part, _)) => is_part_unread(part),
        None => false,
    }
}

/// Reports how a cut of several captures ended, as a split into this OUT, with hints, and returns
/// the exit status. The count comes after the faults and their hints.
pub(crate) fn report_captures<E: HintSink>(
    end: &ClosedEnd,
    words: &CutWords<'_>,
    err: &mut E,
) -> Status
    ensures status { result ≡ split_status end.now }
    ensures told { TellsCut E.takes_hints E.failed E.contents E.fault_form words.now end.now err.old err.new }
{
    let lines = [SplitLine {
        snap: words.snap,
        output: words.output,
        expression: words.expr.unwrap_or(""),
    }];
    let split = EndedSplit {
        captures: words.inputs.as_slice(),
        lines: &lines,
        end,
    };
    let status = split.report_faults(err);
    hint_ended(split.captures, &lines, end, err);
    if words.counted {
        let _ = report_total(end, LineForm::asked(words.json), err);
    }
    status
}
