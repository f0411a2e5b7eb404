//! `bpftap cut` of one capture, over files that contracts can know.

ghost use Rattle.std.specs.Prelude.{◌≡◌, ◌≢◌, ◌⊎◌, ℕ, List, [], ◌∷◌, true, Option, Some, None, IfOk, IfErr, All, option_copied};
ghost use Rattle.cli_files.specs.declared.paths.Opening.TheVariants.{First};
ghost use Rattle.cli_store.specs.Files.{IsApart, Keeps};
ghost use Rattle.cli_cut.specs.Cutting.{CutsFiles, Ends, IsUncompared, IsUnmade};
ghost use Rattle.cli_cut.specs.declared.outcome.CutOutcome.TheVariants.{Ended, Refused};

use crate::outcome::{CutOutcome, CutReport, Refusal};
use crate::plan::program;
use bpfvm::Program;
use cli_args::cut::CutWords;
use cli_files::paths::Opening;
use cli_store::FileStore;
use pcap_cut::cut::{CutEnd, End, cut};
use savefile::laws::packets_take_room;
use savefile::{Fault, Header};
use std::alloc::Global;

/// Refuses an OUT that is IN or the listing's file, or that a standard stream comes from or goes
/// to.
fn check_paths<'p, F: FileStore<'p>>(
    files: &mut F,
    words: &CutWords<'p>,
    input: &'p str,
) -> Result<(), Refusal<'p>>
    ensures kept { Keeps (F.place files.old) (F.place files.new) (F.text files.old) (F.text files.new) (F.pending files.old) (F.pending files.new) }
    ensures opened { F.opened files.new ≡ F.opened files.old }
    ensures apart { F.known ≡ true → IfOk result (λ _. (F.text files.old (F.place files.old input.now) ≡ None) ⊎ (F.place files.old input.now ≢ F.place files.old words.now.output.now)) }
    ensures spares { F.known ≡ true → IfOk result (λ _. (path : List ℕ) → option_copied words.now.listing ≡ Some path → IsApart First (F.place files.old) (F.text files.old) words.now.output.now path) }
    ensures refused { F.known ≡ true → IfErr result (IsUncompared (F.place files.old) (F.failed files.new) (F.denied files.new) words.now (input.entry ∷ [])) }
{
    let read = [words.listing.unwrap_or(input), input];
    match files.check_apart(Opening::First, false, &read, &[words.output]) {
        Ok(()) => Ok(()),
        Err(fault) => Err(Refusal::Paths(fault)),
    }
}

/// Cuts a capture that is open into OUT.
fn cut_opened<'p, F: FileStore<'p>>(
    alloc: Global,
    files: &mut F,
    words: &CutWords<'p>,
    program: &Program,
    source: F::Input,
) -> Result<CutReport, Refusal<'p>>
    requires works { F.known ≡ true → F.Input.failures source ≡ 0 }
    requires apart { F.known ≡ true → All (λ read. read ≢ F.place files.old words.now.output.now) (F.opened files.old) }
    ensures others { F.known ≡ true → (p : List ℕ) → p ≢ F.place files.old words.now.output.now → F.text files.new p ≡ F.text files.old p }
    ensures ends { F.known ≡ true → (text : List ℕ) → F.Input.left source ≡ Some text →
        IfOk result (λ report. Ends (F.text files.old) (F.text files.new) (F.failed files.new) (F.place files.old words.now.output.now) text program.now words.now.snap words.now.order words.now.«unit» report.tally report.end) }
    ensures closed { F.known ≡ true → F.pending files.new ≡ F.pending files.old }
    ensures refused { F.known ≡ true → IfErr result (λ refusal. (F.text files.new ≡ F.text files.old) × IsUnmade (F.place files.old) (F.denied files.new) words.now refusal) }
{
    packets_take_room();
    let sink = match files.create(words.output) {
        Ok(sink) => sink,
        Err(error) => {
            let _ = files.done(source);
            return Err(Refusal::File(words.output, error));
        }
    };
    let header = Header {
        order: words.order,
        unit: words.unit,
        snap: words.snap,
    };
    let CutEnd {
        source,
        sink,
        sent: _,
        tally,
        end,
    } = cut(alloc, source, program, header, sink);
    let noted = files.done(source);
    match files.close(sink) {
        Ok(()) => Ok(CutReport {
            end,
            tally,
            noted,
            unwritten: None,
        }),
        Err(error) => Ok(CutReport {
            end: End::Output(Fault::Device),
            tally,
            noted,
            unwritten: Some(error),
        }),
    }
}

/// Accepts the filter, compares the paths, opens IN, and cuts it, in this order.
fn cut_accepted<'p, F: FileStore<'p>>(
    alloc: Global,
    files: &mut F,
    words: &CutWords<'p>,
    input: &'p str,
) -> Result<CutReport, Refusal<'p>>
    requires none_open { F.opened files.old ≡ [] }
    ensures closed { F.known ≡ true → F.pending files.new ≡ F.pending files.old }
    ensures cut { F.known ≡ true → IfOk result (λ report. CutsFiles (F.place files.old) (F.text files.old) (F.text files.new) (F.failed files.new) (F.denied files.new) words.now input.entry (Ended report)) }
    ensures refused { F.known ≡ true → IfErr result (λ refusal. CutsFiles (F.place files.old) (F.text files.old) (F.text files.new) (F.failed files.new) (F.denied files.new) words.now input.entry (Refused refusal)) }
{
    let program = program(alloc, files, words.listing, words.expr, words.snap)?;
    check_paths(files, words, input)?;
    match files.open(input) {
        Ok(source) => cut_opened(alloc, files, words, &program, source),
        Err(error) => Err(Refusal::File(input, error)),
    }
}

/// `bpftap cut` of one capture, whatever the files are. The filter is accepted, and the paths are
/// compared, before IN is opened; OUT is made at its first byte. No other file changes.
pub fn cut_one<'p, F: FileStore<'p>>(
    alloc: Global,
    files: &mut F,
    words: &CutWords<'p>,
    input: &'p str,
) -> CutOutcome<'p>
    requires none_open { F.opened files.old ≡ [] }
    ensures cuts { F.known ≡ true → CutsFiles (F.place files.old) (F.text files.old) (F.text files.new) (F.failed files.new) (F.denied files.new) words.now input.entry result }
    // Each file that was made is closed.
    ensures closed { F.known ≡ true → F.pending files.new ≡ F.pending files.old }
{
    match cut_accepted(alloc, files, words, input) {
        Ok(report) => CutOutcome::Ended(report),
        Err(refusal) => CutOutcome::Refused(refusal),
    }
}
