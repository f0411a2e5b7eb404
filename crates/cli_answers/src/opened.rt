//! The captures that a command reads, over files that contracts can know.

ghost use Rattle.std.specs.Prelude.{◌≡◌, ◌≢◌, true, IfOk, IfErr};
ghost use Rattle.std.specs.List.{AllZip, Any};
ghost use Rattle.cli_store.specs.Files.{Keeps};
ghost use Rattle.cli_answers.specs.Asked.{IsCaptureAt, IsUnopened};

use crate::asked::Unasked;
use cli_files::paths::PathFault;
use cli_report::FailureProbe;
use cli_store::FileStore;
use cli_walk::Stop;
use std::alloc::Global;

/// The captures at these paths, in order, each opened at its first read.
pub fn open_captures<'p, F: FileStore<'p>>(
    alloc: Global,
    files: &mut F,
    paths: &[&'p str],
) -> Result<Vec<F::Input>, Unasked<'p>>
    ensures kept { Keeps (F.place files.old) (F.place files.new) (F.text files.old) (F.text files.new) (F.pending files.old) (F.pending files.new) }
    ensures captures { F.known ≡ true → IfOk result (λ captures. AllZip (IsCaptureAt F.Input.left F.Input.failures (F.place files.old) (F.text files.old)) paths.now captures.items) }
    ensures refused { F.known ≡ true → IfErr result (IsUnopened (F.failed files.new) paths.now) }
{
    let Ok(mut captures) = Vec::with_capacity(alloc, paths.len()) else {
        return Err(Unasked::Paths(PathFault::NoMemory));
    };
    for path in paths {
        match files.late(*path) {
            Ok(capture) => captures.push_reserved(capture),
            Err(error) => {
                let _ = close_captures(files, captures, Ok(()));
                return Err(Unasked::File(*path, error));
            }
        }
    }
    Ok(captures)
}

/// Closes captures, and returns what was noted of the one that ended the reading, if one did.
pub fn close_captures<'p, F: FileStore<'p>>(
    files: &mut F,
    captures: Vec<F::Input>,
    read: Result<(), Stop>,
) -> Option<FailureProbe<()>>
    ensures kept { Keeps (F.place files.old) (F.place files.new) (F.text files.old) (F.text files.new) (F.pending files.old) (F.pending files.new) }
    ensures failed { F.known ≡ true → Any (λ capture. F.Input.failures capture ≢ 0) captures.items → F.failed files.new ≡ true }
    ensures stays { F.known ≡ true → F.failed files.old ≡ true → F.failed files.new ≡ true }
{
    let mut noted = None;
    let mut number: usize = 0;
    for capture in captures {
        let notes = files.done(capture);
        if is_stop_of(read, number) {
            noted = Some(notes);
        }
        number = number.saturating_add(1);
    }
    noted
}

/// Whether the capture of this number ended the reading.
fn is_stop_of(read: Result<(), Stop>, number: usize) -> bool {
    match read {
        Ok(()) => false,
        Err(stop) => stop.number == number,
    }
}
