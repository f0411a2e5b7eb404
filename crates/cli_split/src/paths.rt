//! Which paths of a split are compared: no file that is read is an OUT, and no two OUTs are one file.

ghost use Rattle.std.specs.Prelude.{◌≡◌, ◌∷◌, ◌≢◌, All, IfErr, IfOk, OnOk, false, true};
ghost use Rattle.cli_store.specs.Files.{Keeps};
ghost use Rattle.cli_split.specs.SplitFiles.{AreApart, AreUnprinted, HaveOwnFiles, IsShared, own_outputs};

use crate::outcome::Refusal;
use crate::plan::{SplitLine, is_null};
use cli_args::split::SplitWords;
use cli_files::paths::Opening;
use cli_store::FileStore;
use std::alloc::{AllocError, Global};

/// The paths of all files that are read.
fn read_paths<'p>(alloc: Global, words: &SplitWords<'p>) -> Result<Vec<&'p str>, AllocError>
    ensures { IfOk result (λ paths. paths.items ≡ words.now.lines ∷ words.now.inputs.items) }
{
    let mut paths = Vec::new(alloc);
    paths.push(words.lines)?;
    paths.extend_from_slice(words.inputs.as_slice())?;
    Ok(paths)
}

/// The OUT of each line, but of the null device, which loses nothing, only the first.
fn own_outputs<'p>(alloc: Global, lines: &[SplitLine<'p>]) -> Result<Vec<&'p str>, AllocError>
    ensures { IfOk result (λ outputs. outputs.items ≡ own_outputs false lines.now) }
{
    let mut outputs = Vec::new(alloc);
    let mut has_null = false;
    for line in lines {
        let null = is_null(line.output);
        if !(has_null && null) {
            outputs.push(line.output)?;
        }
        has_null = has_null || null;
    }
    Ok(outputs)
}

/// Refuses an OUT by which something would be lost: it is a file that is read, the file of another OUT, or the one that lines are printed
/// to.
pub(crate) fn check_paths<'p, F: FileStore<'p>>(
    alloc: Global,
    files: &mut F,
    words: &SplitWords<'p>,
    lines: &[SplitLine<'p>],
) -> Result<(), Refusal<'p>>
    ensures kept { Keeps (F.place files.old) (F.place files.new) (F.text files.old) (F.text files.new) (F.pending files.old) (F.pending files.new) }
    ensures opened { F.opened files.new ≡ F.opened files.old }
    ensures apart { F.known ≡ true → OnOk result (AreApart (F.place files.old) words.now lines.now) }
    ensures own { F.known ≡ true → OnOk result (HaveOwnFiles (F.place files.old) lines.now) }
    ensures unprinted { F.known ≡ true → OnOk result (AreUnprinted (F.place files.old) (F.printed files.old) words.now lines.now) }
    ensures refused { F.known ≡ true → IfErr result (IsShared (F.place files.old) (F.printed files.old) (F.failed files.new) words.now lines.now) }
{
    let read = read_paths(alloc, words)?;
    let outputs = own_outputs(alloc, lines)?;
    match files.check_apart(Opening::Late, true, read.as_slice(), outputs.as_slice()) {
        Ok(()) => Ok(()),
        Err(fault) => Err(Refusal::Paths(fault)),
    }
}
