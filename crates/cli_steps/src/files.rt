//! `bpftap steps`, over files that contracts can know.

ghost use Rattle.std.specs.Prelude.{◌≡◌, [], false, true, map, IfOk, OnErr, option_copied};
ghost use Rattle.std.specs.Io.KnownBytes.{Keeps};
ghost use Rattle.cli_steps.specs.FromFiles.{StepsFiles, detail_for, form_for};
ghost use Rattle.cli_steps.specs.Playing.{IsPrintedWhole, is_traced};
ghost use Rattle.cli_steps.specs.Telling.{PrintsPlayed};

use crate::outcome::{StepsInput, StepsRefusal, StepsReport};
use crate::picture::draw_wanted;
use crate::reading::read_input;
use crate::steps::{Detail, Printing, Replayed, StepsReplay};
use cli_args::steps::StepsWords;
use cli_store::FileStore;
use cli_text::Status;
use cli_watch::output::PrintSink;
use line_text::LineForm;
use std::alloc::{AllocError, Global};
use tap::Fault;

/// What is wanted of the replay: its answers with `-v`, and its trace with `-p`.
fn detail_of(words: &StepsWords<'_>) -> Detail
    ensures { result ≡ detail_for words.now.explained (option_copied words.now.picture) }
{
    if words.explained {
        Detail::Answers
    } else if words.picture.is_some() {
        Detail::Trace
    } else {
        Detail::Reports
    }
}

/// What is printed of the replay, and in which form.
fn printing_of(words: &StepsWords<'_>) -> Printing
    ensures form { result.form ≡ form_for words.now.json }
    ensures detail { result.detail ≡ detail_for words.now.explained (option_copied words.now.picture) }
{
    Printing {
        form: LineForm::asked(words.json),
        detail: detail_of(words),
    }
}

/// The captures as slices.
fn borrow_all(alloc: Global, texts: &[Vec<u8>]) -> Result<Vec<&[u8]>, AllocError>
    ensures { IfOk result (λ slices. map (λ s. s.now) slices.items ≡ map (λ t. t.items) texts.now) }
{
    let mut slices = Vec::with_capacity(alloc, texts.len())?;
    for text in texts {
        slices.push(text.as_slice())?;
    }
    Ok(slices)
}

/// Plays what was read, and prints. The error is that memory was refused before: nothing is printed then.
fn play_input<O: PrintSink>(
    alloc: Global,
    words: &StepsWords<'_>,
    input: &StepsInput,
    out: &mut O,
) -> Result<(Status, Result<Replayed, Fault>), AllocError>
    ensures played { IfOk result (λ played. PrintsPlayed (form_for words.now.json) words.now.explained
        (is_traced (detail_for words.now.explained (option_copied words.now.picture)))
        (map (λ c. c.items) input.now.captures.items) input.now.plan.specs.items input.now.plan.steps.items
        (O.contents out.old) (O.contents out.new) played.0 played.1) }
    ensures nothing { OnErr result (Keeps (O.contents out.old) (O.contents out.new)) }
    ensures handed_on { IfOk result (λ played. IsPrintedWhole played.0 → O.waits out.new ≡ false) }
{
    let captures = borrow_all(alloc, input.captures.as_slice())?;
    let replay = StepsReplay {
        plan: &input.plan,
        captures: captures.as_slice(),
    };
    Ok(replay.print(alloc, printing_of(words), out))
}

/// `bpftap steps`, whatever the files are. LISTENERS and SCRIPT are read, and the paths are compared, before a capture is read. The script
/// is played once. Nothing is printed before a refusal, and no file but the picture changes.
pub fn steps_files<'p, F: FileStore<'p>, O: PrintSink>(
    alloc: Global,
    files: &mut F,
    words: &StepsWords<'p>,
    out: &mut O,
) -> Result<StepsReport, StepsRefusal<'p>>
    requires none_open { F.opened files.old ≡ [] }
    ensures steps { F.known ≡ true → StepsFiles (F.place files.old) (F.text files.old) (F.text files.new) (F.printed files.old) (F.failed files.new) (F.denied files.new) words.now
        (O.contents out.old) (O.contents out.new) result }
    // What was printed whole does not wait, also if a capture ended with a record fault.
    ensures handed_on { IfOk result (λ report. IsPrintedWhole report.status → O.waits out.new ≡ false) }
    // The picture is closed.
    ensures closed { F.known ≡ true → F.pending files.new ≡ F.pending files.old }
{
    let input = read_input(alloc, files, words)?;
    let Ok((status, replayed)) = play_input(alloc, words, &input, out) else {
        return Err(StepsRefusal::NoMemory);
    };
    let drawn = draw_wanted(alloc, files, words, &input.plan, &replayed);
    Ok(StepsReport {
        input,
        status,
        replayed,
        drawn,
    })
}
