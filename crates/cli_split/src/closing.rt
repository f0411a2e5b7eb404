//! How the files of a split are closed.

ghost use Rattle.std.specs.Prelude.{◌≡◌, ◌≢◌, ◌<◌, ◌≤◌, ◌+◌, [], ℕ, List, All, Some, length, true, vec_capacity};
ghost use Rattle.cli_store.specs.Files.{Keeps};
ghost use Rattle.cli_split.specs.Texts.{NotesFailures};
ghost use Rattle.cli_split.specs.Closed.{Closes, ClosesAll};

use crate::outcome::{ClosedEnd, ClosedPart};
use crate::part::{Part, PartEnd};
use crate::split::SplitEnd;
use cli_report::probe::ProbedInput;
use cli_store::FileStore;
use savefile::{Counted, Fault};

/// Closes files that took nothing.
pub(crate) fn close_unused<'p, F: FileStore<'p>>(files: &mut F, parts: Vec<Part<F::Output>>)
    requires made { F.known ≡ true → length parts.items ≤ F.pending files.old }
    requires empty { F.known ≡ true → All (λ part. F.Output.taken part.sink ≡ Some []) parts.items }
    ensures places { F.place files.new ≡ F.place files.old }
    ensures texts { F.known ≡ true → (p : List ℕ) → F.text files.new p ≡ F.text files.old p }
    ensures pending { F.known ≡ true → F.pending files.old ≡ F.pending files.new + length parts.items }
    ensures denied { F.denied files.new ≡ F.denied files.old }
{
    for part in parts {
        let _ = files.close(part.sink);
    }
}

/// Closes the captures, and returns what was noted of them. Only hints need that: a note is left out if `notes`
/// has no room for it and no memory is left.
fn close_captures<'p, F: FileStore<'p>>(
    files: &mut F,
    captures: Vec<F::Input>,
    mut notes: Vec<ProbedInput<()>>,
) -> Vec<ProbedInput<()>>
    ensures kept { Keeps (F.place files.old) (F.place files.new) (F.text files.old) (F.text files.new) (F.pending files.old) (F.pending files.new) }
    ensures failed { F.known ≡ true → NotesFailures F.Input.failures (F.failed files.new) captures.items }
    ensures stays { F.known ≡ true → F.failed files.old ≡ true → F.failed files.new ≡ true }
{
    for capture in captures {
        let _ = notes.push(Counted::new(files.done(capture)));
    }
    notes
}

/// Closes the OUT of a part. If that fails, OUT was not written whole.
fn close_part<'p, F: FileStore<'p>>(files: &mut F, part: PartEnd<F::Output>) -> ClosedPart
    requires made { F.known ≡ true → 0 < F.pending files.old }
    ensures places { F.place files.new ≡ F.place files.old }
    ensures pending { F.known ≡ true → F.pending files.old ≡ F.pending files.new + 1 }
    ensures closes { F.known ≡ true → Closes F.Output.taken F.Output.name F.Output.failures (F.failed files.new) (F.text files.old) (F.text files.new) part result }
    ensures stays { F.known ≡ true → F.failed files.old ≡ true → F.failed files.new ≡ true }
{
    let PartEnd {
        sink,
        sent,
        tally,
        written,
    } = part;
    match files.close(sink) {
        Ok(()) => PartEnd {
            sink: None,
            sent,
            tally,
            written,
        },
        Err(error) => PartEnd {
            sink: Some(error),
            sent,
            tally,
            written: Err(Fault::Device),
        },
    }
}

/// Closes the OUT of each part.
fn close_parts<'p, F: FileStore<'p>>(
    files: &mut F,
    parts: Vec<PartEnd<F::Output>>,
    mut closed: Vec<ClosedPart>,
) -> Vec<ClosedPart>
    requires room { (length closed.items ≡ 0) × (length parts.items ≤ vec_capacity closed) }
    requires made { F.known ≡ true → length parts.items ≤ F.pending files.old }
    ensures places { F.place files.new ≡ F.place files.old }
    ensures pending { F.known ≡ true → F.pending files.old ≡ F.pending files.new + length parts.items }
    ensures closes { F.known ≡ true → ClosesAll F.Output.taken F.Output.name F.Output.failures (F.failed files.new) (F.text files.old) (F.text files.new) parts.items result.items }
    ensures stays { F.known ≡ true → F.failed files.old ≡ true → F.failed files.new ≡ true }
{
    for part in parts {
        closed.push_reserved(close_part(files, part));
    }
    closed
}

/// Closes all files of a split. With room for a note of each capture and for each part no memory is asked for.
pub fn close_files<'p, F: FileStore<'p>>(
    files: &mut F,
    end: SplitEnd<F::Input, F::Output>,
    notes: Vec<ProbedInput<()>>,
    closed: Vec<ClosedPart>,
) -> ClosedEnd
    requires room { (length closed.items ≡ 0) × (length end.parts.items ≤ vec_capacity closed) }
    requires made { F.known ≡ true → length end.parts.items ≤ F.pending files.old }
    ensures places { F.place files.new ≡ F.place files.old }
    ensures pending { F.known ≡ true → F.pending files.old ≡ F.pending files.new + length end.parts.items }
    ensures failed { F.known ≡ true → NotesFailures F.Input.failures (F.failed files.new) end.sources.items }
    ensures closes { F.known ≡ true → ClosesAll F.Output.taken F.Output.name F.Output.failures (F.failed files.new) (F.text files.old) (F.text files.new) end.parts.items result.parts.items }
    ensures end { result.end ≡ end.end }
{
    let SplitEnd {
        sources,
        parts,
        end,
    } = end;
    SplitEnd {
        sources: close_captures(files, sources, notes),
        parts: close_parts(files, parts, closed),
        end,
    }
}
