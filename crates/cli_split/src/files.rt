//! `bpftap split`, over files that contracts can know.

ghost use Rattle.std.specs.Prelude.{◌≡◌, ◌≢◌, ◌⊎◌, [], All, IfErr, IfOk, List, ℕ, length, true};
ghost use Rattle.std.specs.List.{AllZip};
ghost use Rattle.cli_split.specs.Lines.{IsCompiled};
ghost use Rattle.cli_split.specs.Opened.{HasSpace, IsInput, IsLate, IsOutput, IsUnmade};
ghost use Rattle.cli_split.specs.SplitFiles.{AreApart, HaveOwnFiles, IsSplit, SplitsFiles, SplitsInto};
ghost use Rattle.cli_split.specs.declared.outcome.SplitOutcome.TheVariants.{Ended, Refused};

use crate::closing::{close_files, close_unused};
use crate::line::line_for;
use crate::opening::{late_captures, make_parts, read_lines_text};
use crate::outcome::{ClosedPart, Refusal, SplitOutcome, SplitReport};
use crate::part::Part;
use crate::paths::check_paths;
use crate::plan::{SplitLine, read_plan};
use crate::split::Room;
use cli_args::split::SplitWords;
use cli_filter::plan::Plan;
use cli_report::probe::ProbedInput;
use cli_store::FileStore;
use line_text::{LineForm, NamingForm};
use savefile::laws::packets_take_room;
use savefile::{Sink, Source};
use std::alloc::{AllocError, Global};

/// The memory that a split needs once an OUT is made: so none is made in vain.
#[derive(Drop)]
struct Space<'p, R, W> {
    text: &'p [u8],
    room: Room<R, W>,
    parts: Vec<Part<W>>,
    notes: Vec<ProbedInput<()>>,
    closed: Vec<ClosedPart>,
    line: String,
}

/// Reserves the space for this many captures and for these lines of LINES.
fn reserve<'p, R: Drop, W: Drop>(
    alloc: Global,
    form: NamingForm,
    captures: usize,
    lines: &[SplitLine<'p>],
    text: &'p [u8],
) -> Result<Space<'p, R, W>, AllocError>
    ensures { IfOk result (HasSpace captures (length lines.now)) }
{
    Ok(Space {
        text,
        room: Room::reserve(alloc, captures, lines.len())?,
        parts: Vec::with_capacity(alloc, lines.len())?,
        notes: Vec::with_capacity(alloc, captures)?,
        closed: Vec::with_capacity(alloc, lines.len())?,
        line: line_for(alloc, form, lines)?,
    })
}

/// Splits captures into the OUTs of these lines.
fn split_captures<'p, F: FileStore<'p>>(
    files: &mut F,
    words: &SplitWords<'p>,
    plan: Plan<SplitLine<'p>>,
    captures: Vec<F::Input>,
    space: Space<'p, F::Input, F::Output>,
) -> Result<SplitReport<'p>, Refusal<'p>>
    requires space { HasSpace (length captures.items) (length plan.lines.items) space }
    requires all { length plan.programs.items ≡ length plan.lines.items }
    requires programs { AllZip IsCompiled plan.lines.items plan.programs.items }
    requires late { F.known ≡ true → AllZip (IsLate F.Input.left F.Input.failures (F.place files.old) (F.text files.old)) words.now.inputs.items captures.items }
    requires apart { F.known ≡ true → All (λ line. All (λ read. read ≢ F.place files.old line.output.now) (F.opened files.old)) plan.lines.items }
    requires own { F.known ≡ true → HaveOwnFiles (F.place files.old) plan.lines.items }
    ensures lines { IfOk result (λ report. report.lines.items ≡ plan.entry.lines.items) }
    ensures split { F.known ≡ true → IfOk result (λ report. IsSplit (F.place files.old) (F.text files.old) (F.text files.new) (F.failed files.new) words.now plan.entry.lines.items report.end) }
    ensures closed { F.known ≡ true → F.pending files.new ≡ F.pending files.old }
    ensures refused { F.known ≡ true → IfErr result (λ refusal. IsUnmade (IsOutput plan.entry.lines.items) (F.place files.old) (F.denied files.new) refusal × ((p : List ℕ) → F.text files.new p ≡ F.text files.old p)) }
{
    packets_take_room();
    let Plan { lines, programs } = plan;
    let Space {
        text,
        room,
        mut parts,
        notes,
        closed,
        line,
    } = space;
    match make_parts(files, lines.as_slice(), programs, &mut parts) {
        Ok(()) => {}
        Err(refusal) => {
            close_unused(files, parts);
            return Err(refusal);
        }
    }
    let split = room.split(captures, parts, words.order, words.unit);
    let end = close_files(files, split, notes, closed);
    Ok(SplitReport {
        text,
        lines,
        end,
        line,
    })
}

/// Splits the captures as the plan says, whose paths were compared.
fn split_planned<'p, F: FileStore<'p>>(
    alloc: Global,
    files: &mut F,
    words: &SplitWords<'p>,
    plan: Plan<SplitLine<'p>>,
    text: &'p [u8],
) -> Result<SplitReport<'p>, Refusal<'p>>
    requires none_open { F.opened files.old ≡ [] }
    requires all { length plan.programs.items ≡ length plan.lines.items }
    requires programs { AllZip IsCompiled plan.lines.items plan.programs.items }
    requires apart { F.known ≡ true → AreApart (F.place files.old) words.now plan.lines.items }
    requires own { F.known ≡ true → HaveOwnFiles (F.place files.old) plan.lines.items }
    ensures lines { IfOk result (λ report. report.lines.items ≡ plan.entry.lines.items) }
    ensures split { F.known ≡ true → IfOk result (λ report. IsSplit (F.place files.old) (F.text files.old) (F.text files.new) (F.failed files.new) words.now plan.entry.lines.items report.end) }
    ensures closed { F.known ≡ true → F.pending files.new ≡ F.pending files.old }
    ensures refused { F.known ≡ true → IfErr result (λ refusal. (IsUnmade (IsInput words.now.inputs.items) (F.place files.old) (F.denied files.new) refusal ⊎ IsUnmade (IsOutput plan.entry.lines.items) (F.place files.old) (F.denied files.new) refusal)
        × ((p : List ℕ) → F.text files.new p ≡ F.text files.old p)) }
{
    // A name on a terminal needs no more room.
    let form = NamingForm {
        form: LineForm::asked(words.json),
        is_terminal: false,
    };
    let captures = late_captures(alloc, files, words.inputs.as_slice())?;
    let space = reserve(alloc, form, captures.len(), plan.lines.as_slice(), text)?;
    split_captures(files, words, plan, captures, space)
}

/// Accepts LINES, compares the paths, and splits, in this order.
fn split_accepted<'p, F: FileStore<'p>>(
    alloc: Global,
    files: &mut F,
    words: &SplitWords<'p>,
    text: &'p mut Vec<u8>,
) -> Result<SplitReport<'p>, Refusal<'p>>
    requires none_open { F.opened files.old ≡ [] }
    ensures split { F.known ≡ true → IfOk result (SplitsInto (F.place files.old) (F.text files.old) (F.text files.new) (F.printed files.old) (F.failed files.new) words.now) }
    ensures closed { F.known ≡ true → F.pending files.new ≡ F.pending files.old }
    ensures refused { F.known ≡ true → IfErr result (λ refusal. SplitsFiles (F.place files.old) (F.text files.old) (F.text files.new) (F.printed files.old) (F.failed files.new) (F.denied files.new) words.now (Refused refusal)) }
{
    let text = read_lines_text(files, words.lines, text)?;
    let plan = match read_plan(alloc, text) {
        Ok(plan) => plan,
        Err(fault) => return Err(Refusal::Lines(text, fault)),
    };
    check_paths(alloc, files, words, plan.lines.as_slice())?;
    split_planned(alloc, files, words, plan, text)
}

/// `bpftap split`, whatever the files are. LINES, whose text is kept in `text`, is accepted and the paths are compared before a capture is
/// opened. Each OUT is made at its first byte. No other file changes.
pub fn split_files<'p, F: FileStore<'p>>(
    alloc: Global,
    files: &mut F,
    words: &SplitWords<'p>,
    text: &'p mut Vec<u8>,
) -> SplitOutcome<'p>
    requires none_open { F.opened files.old ≡ [] }
    ensures splits { F.known ≡ true → SplitsFiles (F.place files.old) (F.text files.old) (F.text files.new) (F.printed files.old) (F.failed files.new) (F.denied files.new) words.now result }
    // Each file that was made is closed.
    ensures closed { F.known ≡ true → F.pending files.new ≡ F.pending files.old }
{
    match split_accepted(alloc, files, words, text) {
        Ok(report) => SplitOutcome::Ended(report),
        Err(refusal) => SplitOutcome::Refused(refusal),
    }
}
