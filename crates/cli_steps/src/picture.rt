//! The picture that `bpftap steps -p` draws.

ghost use Rattle.std.specs.Prelude.{◌≡◌, ◌≢◌, [], ℕ, List, Some, true, IfErr, IfOk, OnOk};
ghost use Rattle.std.specs.Io.KnownBytes.{Appends};
ghost use Rattle.savefile.specs.Device.{CountsFailure};
ghost use Rattle.cli_store.specs.Files.{StoresAt};
ghost use Rattle.cli_steps.specs.FromFiles.{HasTrace, IsDrawn, IsNotDrawn, IsUndrawn};

use crate::outcome::PictureFault;
use crate::steps::Replayed;
use cli_args::steps::StepsWords;
use cli_store::FileStore;
use savefile::{Broken, Sink};
use std::alloc::Global;
use tap::{Fault, Trace};
use tap_picture::write_picture;
use tap_text::plan::StepsPlan;

/// Writes all bytes.
fn send_all<S: Sink>(bytes: &[u8], sink: &mut S) -> Result<(), Broken>
    ensures taken { OnOk result (Appends (S.taken sink.old) (S.taken sink.new) bytes.now) }
    ensures named { S.name sink.new ≡ S.name sink.old }
    ensures failures { CountsFailure (S.failures sink.old) (S.failures sink.new) result }
{
    let mut rest = bytes;
    while !rest.is_empty() {
        let written = sink.write(rest)?;
        rest = &rest[written..];
    }
    Ok(())
}

/// The bytes of the picture of a replay.
fn picture_of(alloc: Global, plan: &StepsPlan, trace: &Trace) -> Result<Vec<u8>, PictureFault>
    ensures { IfErr result (λ fault. fault ≡ PictureFault.NoMemory) }
{
    let mut picture = Vec::new(alloc);
    match write_picture(
        plan.specs.as_slice(),
        plan.steps.as_slice(),
        trace,
        &mut picture,
    ) {
        Ok(()) => Ok(picture),
        Err(_) => Err(PictureFault::NoMemory),
    }
}

/// Draws a replay to a file.
fn draw<'p, F: FileStore<'p>>(
    files: &mut F,
    picture: &[u8],
    path: &'p str,
) -> Result<(), PictureFault>
    requires none_open { F.opened files.old ≡ [] }
    ensures others { F.known ≡ true → (at : List ℕ) → at ≢ F.place files.old path.now → F.text files.new at ≡ F.text files.old at }
    ensures stored { F.known ≡ true → OnOk result (StoresAt (F.text files.old) (F.text files.new) (F.place files.old path.now) picture.now) }
    ensures closed { F.known ≡ true → F.pending files.new ≡ F.pending files.old }
    ensures failed { F.known ≡ true → IfErr result (IsUndrawn (Some path.entry) (F.failed files.new)) }
{
    let mut sink = match files.create(path) {
        Ok(sink) => sink,
        Err(error) => return Err(PictureFault::File(Some(error))),
    };
    let sent = send_all(picture, &mut sink);
    match files.close(sink) {
        Err(error) => Err(PictureFault::File(Some(error))),
        Ok(()) if sent.is_err() => Err(PictureFault::File(None)),
        Ok(()) => Ok(()),
    }
}

/// Draws the picture of a replay, if there was one and a picture is wanted, and returns what its file has.
pub(crate) fn draw_wanted<'p, F: FileStore<'p>>(
    alloc: Global,
    files: &mut F,
    words: &StepsWords<'p>,
    plan: &StepsPlan,
    replayed: &Result<Replayed, Fault>,
) -> Result<Option<Vec<u8>>, PictureFault>
    requires none_open { F.opened files.old ≡ [] }
    ensures others { F.known ≡ true → (at : List ℕ) → IsNotDrawn (F.place files.old) words.now.picture at → F.text files.new at ≡ F.text files.old at }
    ensures drawn { F.known ≡ true → HasTrace words.now.picture replayed.now → IfOk result (IsDrawn (F.place files.old) (F.text files.old) (F.text files.new) words.now.picture replayed.now) }
    ensures unplayed { F.known ≡ true → IfErr replayed.now (λ _. (at : List ℕ) → F.text files.new at ≡ F.text files.old at) }
    ensures closed { F.known ≡ true → F.pending files.new ≡ F.pending files.old }
    ensures failed { F.known ≡ true → IfErr result (IsUndrawn words.now.picture (F.failed files.new)) }
{
    let (
        Some(path),
        Ok(
            Replayed {
                trace: Some(trace),
                ..
            },
        ),
    ) = (words.picture, replayed)
    else {
        return Ok(None);
    };
    let picture = picture_of(alloc, plan, trace)?;
    draw(files, picture.as_slice(), path)?;
    Ok(Some(picture))
}
