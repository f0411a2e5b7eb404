//! The captures that a command reads and watches.

use crate::screen::Screen;
use crate::watch::{Watch, WatchedReader};
use cli_files::late::LateInput;
use cli_files::reading::report_io;
use cli_files::retried::Retried;
use cli_report::probe::ProbedInput;
use cli_report::{FailureProbe, HintSink};
use cli_text::Status;
use savefile::Counted;
use std::alloc::{AllocError, Global};
use std::fs;
use std::fs::Files;

/// A capture that is opened at its first read.
pub type WatchedInput<'w, 'r, 'p, R> = ProbedInput<WatchedReader<'w, 'r, R, LateInput<'r, 'p, R>>>;

/// A capture that is open.
pub type WatchedFile<'w, 'r, R> = ProbedInput<
    WatchedReader<'w, 'r, R, Retried<<R as Files>::File>>,
>;

/// The captures at these paths, none of them opened.
pub fn watched_inputs<'w, 'r, 'p, R: Files + Screen>(
    rt: &'r R,
    alloc: Global,
    paths: &[&'p str],
    watch: &'w Watch<'r, R>,
) -> Result<Vec<WatchedInput<'w, 'r, 'p, R>>, AllocError> {
    let mut inputs = Vec::with_capacity(alloc, paths.len())?;
    for path in paths {
        let input = watch.watched(LateInput::new(rt, *path));
        inputs.push(Counted::new(FailureProbe::new(input)))?;
    }
    Ok(inputs)
}

/// Opens the capture at a path, or reports why it can't be opened.
pub fn open_watched<'w, 'r, R: Files + Screen, E: HintSink>(
    rt: &R,
    path: &str,
    watch: &'w Watch<'r, R>,
    err: &mut E,
) -> Result<WatchedFile<'w, 'r, R>, Status> {
    match fs::open(rt, path) {
        Ok(input) => {
            let input = watch.watched(Retried::new(input));
            Ok(Counted::new(FailureProbe::new(input)))
        }
        Err(error) => Err(report_io(&error, path, err)),
    }
}
