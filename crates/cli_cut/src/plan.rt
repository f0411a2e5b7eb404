//! The program that the arguments of `cut` or `check` ask for.

ghost use Rattle.std.specs.Prelude.{◌≡◌, ◌<◌, true, Some, None, IfOk, IfErr, option_copied, take, length, vec_len};
ghost use Rattle.cli_store.specs.Files.{Keeps};
ghost use Rattle.cli_cut.specs.Cutting.{IsGiven, IsUngiven};

use crate::outcome::Refusal;
use crate::report::report_refusal;
use bpfvm::Program;
use cli_args::cut::CutWords;
use cli_files::reading::MAX_TEXT;
use cli_filter::{FilterFault, filter};
use cli_report::HintSink;
use cli_store::{DiskFiles, FileStore};
use cli_text::Status;
use cli_watch::{Screen, Watch};
use std::alloc::Global;
use std::fs::Files;

/// The program of the listing at a path.
pub(crate) fn program_of_listing<'p, F: FileStore<'p>>(
    alloc: Global,
    files: &mut F,
    path: &'p str,
) -> Result<Program, Refusal<'p>>
    ensures kept { Keeps (F.place files.old) (F.place files.new) (F.text files.old) (F.text files.new) (F.pending files.old) (F.pending files.new) }
    ensures opened { F.opened files.new ≡ F.opened files.old }
    ensures given { F.known ≡ true → IfOk result (IsGiven (F.place files.old) (F.text files.old) (Some path.entry.now) None 0) }
    ensures refused { F.known ≡ true → IfErr result (IsUngiven (F.place files.old) (F.text files.old) (F.denied files.new) (Some path.entry.now) None 0) }
{
    match files.read(path, MAX_TEXT + 1) {
        Err(error) => Err(Refusal::File(path, error)),
        Ok(text) if text.as_slice().len() > MAX_TEXT => Err(Refusal::TextTooLong(path)),
        Ok(text) => match filter(alloc, Some(text.as_slice()), None, 0) {
            Ok(program) => Ok(program),
            Err(fault) => Err(Refusal::Filter(Some(text), fault)),
        },
    }
}

/// The program of the listing's file, or of the expression; without either each packet is accepted.
pub(crate) fn program<'p, F: FileStore<'p>>(
    alloc: Global,
    files: &mut F,
    listing: Option<&'p str>,
    expr: Option<&'p str>,
    snap: u32,
) -> Result<Program, Refusal<'p>>
    ensures kept { Keeps (F.place files.old) (F.place files.new) (F.text files.old) (F.text files.new) (F.pending files.old) (F.pending files.new) }
    ensures opened { F.opened files.new ≡ F.opened files.old }
    ensures given { F.known ≡ true → IfOk result (IsGiven (F.place files.old) (F.text files.old) (option_copied listing.entry) (option_copied expr.entry) snap) }
    ensures refused { F.known ≡ true → IfErr result (IsUngiven (F.place files.old) (F.text files.old) (F.denied files.new) (option_copied listing.entry) (option_copied expr.entry) snap) }
{
    match (listing, expr) {
        (Some(path), None) => program_of_listing(alloc, files, path),
        (Some(_), Some(_)) => Err(Refusal::Filter(None, FilterFault::Twice)),
        (None, expr) => match filter(alloc, None, expr, snap) {
            Ok(program) => Ok(program),
            Err(fault) => Err(Refusal::Filter(None, fault)),
        },
    }
}

/// The filter of a cut, over the files of the system; or reports why there is none.
pub(crate) fn read_filter<'r, R: Files + AllocGlobal + Screen, E: HintSink>(
    rt: &'r R,
    words: &CutWords<'_>,
    watch: &Watch<'r, R>,
    err: &mut E,
) -> Result<Program, Status> {
    let mut files = DiskFiles::new(rt, watch);
    match program(
        rt.alloc(),
        &mut files,
        words.listing,
        words.expr,
        words.snap,
    ) {
        Ok(program) => Ok(program),
        Err(refusal) => Err(report_refusal(rt.alloc(), &refusal, words.expr, err)),
    }
}
