//! The files that `bpftap steps` reads.

ghost use Rattle.std.specs.Prelude.{◌≡◌, ℕ, List, true, IfErr, IfOk, OnOk, map};
ghost use Rattle.cli_store.specs.Files.{IsCaptureRead, Keeps};
ghost use Rattle.cli_steps.specs.FromFiles.{AreCapturesRead, AreUnread, ArePathsApart, ArePathsRefused, IsInput, IsReason, IsTextAt, IsUnread, IsCaptureUnread, drawn_paths, read_paths};

use crate::outcome::{StepsInput, StepsRefusal};
use cli_args::steps::StepsWords;
use cli_files::paths::Opening;
use cli_files::reading::MAX_TEXT;
use cli_store::FileStore;
use std::alloc::{AllocError, Global};
use tap::MAX_CAPTURES;
use tap_text::plan::read_plan;

/// The text of LISTENERS or of SCRIPT.
fn read_text<'p, F: FileStore<'p>>(
    files: &mut F,
    path: &'p str,
) -> Result<Vec<u8>, StepsRefusal<'p>>
    ensures kept { Keeps (F.place files.old) (F.place files.new) (F.text files.old) (F.text files.new) (F.pending files.old) (F.pending files.new) }
    ensures opened { F.opened files.new ≡ F.opened files.old }
    ensures printed { F.printed files.new ≡ F.printed files.old }
    ensures text { F.known ≡ true → IfOk result (λ text. IsTextAt (F.place files.old) (F.text files.old) path.entry.now text.items) }
    ensures refused { F.known ≡ true → IfErr result (IsUnread (F.place files.old) (F.text files.old) (F.failed files.new) (F.denied files.new) path.entry.now) }
{
    match files.read(path, MAX_TEXT + 1) {
        Err(error) => Err(StepsRefusal::File(path, error)),
        Ok(text) if text.as_slice().len() > MAX_TEXT => Err(StepsRefusal::TextTooLong(path)),
        Ok(text) => Ok(text),
    }
}

/// A capture, or the 24 bytes of its file header if these are refused.
fn read_capture<'p, F: FileStore<'p>>(
    files: &mut F,
    path: &'p str,
) -> Result<Vec<u8>, StepsRefusal<'p>>
    ensures kept { Keeps (F.place files.old) (F.place files.new) (F.text files.old) (F.text files.new) (F.pending files.old) (F.pending files.new) }
    ensures opened { F.opened files.new ≡ F.opened files.old }
    ensures printed { F.printed files.new ≡ F.printed files.old }
    ensures text { F.known ≡ true → IfOk result (λ text. (whole : List ℕ) × IsTextAt (F.place files.old) (F.text files.old) path.entry.now whole × IsCaptureRead whole text.items) }
    ensures refused { F.known ≡ true → IfErr result (IsCaptureUnread (F.place files.old) (F.failed files.new) (F.denied files.new) path.entry.now) }
{
    match files.read_capture(path) {
        Err(error) => Err(StepsRefusal::File(path, error)),
        Ok(text) => Ok(text),
    }
}

/// What is read of the captures, in order.
fn read_captures<'p, F: FileStore<'p>>(
    alloc: Global,
    files: &mut F,
    paths: &[&'p str],
) -> Result<Vec<Vec<u8>>, StepsRefusal<'p>>
    ensures kept { Keeps (F.place files.old) (F.place files.new) (F.text files.old) (F.text files.new) (F.pending files.old) (F.pending files.new) }
    ensures opened { F.opened files.new ≡ F.opened files.old }
    ensures texts { F.known ≡ true → IfOk result (λ texts. AreCapturesRead (F.place files.old) (F.text files.old) paths.now (map (λ t. t.items) texts.items)) }
    ensures refused { F.known ≡ true → IfErr result (AreUnread (F.place files.old) (F.failed files.new) (F.denied files.new) paths.now) }
{
    let mut texts = Vec::new(alloc);
    for path in paths {
        let text = read_capture(files, *path)?;
        if texts.push(text).is_err() {
            return Err(StepsRefusal::NoMemory);
        }
    }
    Ok(texts)
}

/// All paths that are read.
fn read_paths<'p>(alloc: Global, words: &StepsWords<'p>) -> Result<Vec<&'p str>, AllocError>
    ensures { IfOk result (λ paths. paths.items ≡ read_paths words.now) }
{
    let inputs = words.inputs.as_slice();
    let mut paths = Vec::new(alloc);
    paths.push(words.listeners)?;
    paths.push(words.script)?;
    for path in inputs {
        paths.push(*path)?;
    }
    Ok(paths)
}

/// The path of the picture, if one is asked for.
#[tactic(auto, using(crate::proofs::Reasons::drawn_is))]
fn drawn_paths<'w, 'p>(words: &'w StepsWords<'p>) -> &'w [&'p str]
    ensures { result.now ≡ drawn_paths words.now.picture }
{
    words.picture.as_slice()
}

/// Checks the paths before a capture is read. There may not be too many captures, and no file that is read may be the one that the
/// reports are printed to, or the one that the picture is drawn to.
fn check_paths<'p, F: FileStore<'p>>(
    alloc: Global,
    files: &mut F,
    words: &StepsWords<'p>,
) -> Result<(), StepsRefusal<'p>>
    ensures kept { Keeps (F.place files.old) (F.place files.new) (F.text files.old) (F.text files.new) (F.pending files.old) (F.pending files.new) }
    ensures opened { F.opened files.new ≡ F.opened files.old }
    ensures apart { F.known ≡ true → OnOk result (ArePathsApart (F.place files.old) (F.text files.old) (F.printed files.old) words.now) }
    ensures refused { F.known ≡ true → IfErr result (ArePathsRefused (F.place files.old) (F.printed files.old) (F.failed files.new) words.now) }
{
    if words.inputs.len() > MAX_CAPTURES {
        return Err(StepsRefusal::TooMany);
    }
    let Ok(read) = read_paths(alloc, words) else {
        return Err(StepsRefusal::NoMemory);
    };
    let drawn = drawn_paths(words);
    match files.check_apart(Opening::First, true, read.as_slice(), drawn) {
        Ok(()) => Ok(()),
        Err(fault) => Err(StepsRefusal::Paths(fault)),
    }
}

/// Reads LISTENERS and SCRIPT, compares the paths, and reads the captures, in this order.
pub(crate) fn read_input<'p, F: FileStore<'p>>(
    alloc: Global,
    files: &mut F,
    words: &StepsWords<'p>,
) -> Result<StepsInput, StepsRefusal<'p>>
    ensures kept { Keeps (F.place files.old) (F.place files.new) (F.text files.old) (F.text files.new) (F.pending files.old) (F.pending files.new) }
    ensures opened { F.opened files.new ≡ F.opened files.old }
    ensures input { F.known ≡ true → IfOk result (IsInput (F.place files.old) (F.text files.old) (F.printed files.old) words.now) }
    ensures refused { F.known ≡ true → IfErr result (IsReason (F.place files.old) (F.text files.old) (F.printed files.old) (F.failed files.new) (F.denied files.new) words.now) }
{
    let listeners = read_text(files, words.listeners)?;
    let script = read_text(files, words.script)?;
    let plan = match read_plan(alloc, listeners.as_slice(), script.as_slice()) {
        Ok(plan) => plan,
        Err(fault) => return Err(StepsRefusal::Line(listeners, script, fault)),
    };
    check_paths(alloc, files, words)?;
    let captures = read_captures(alloc, files, words.inputs.as_slice())?;
    Ok(StepsInput {
        listeners,
        script,
        plan,
        captures,
    })
}
