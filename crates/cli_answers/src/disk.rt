//! A command over the files of the system.

use cli_files::captures::output_buffer;
use cli_report::failures::hint_output;
use cli_report::{FailureProbe, HintSink};
use cli_store::DiskFiles;
use cli_text::Status;
use cli_watch::output::WatchedOutput;
use cli_watch::{Screen, Watch};
use std::fs::Files;
use std::io::{BufWriter, Write};

/// Standard output of a command whose captures are watched, with a buffer in front of it.
pub type CommandOutput<'w, 'r, R, O> = BufWriter<FailureProbe<WatchedOutput<'w, 'r, R, O>>>;

/// Runs a command over the files of the system, with a buffer in front of the output. The captures
/// at these paths are watched.
pub fn run_over_disk<'r, R: Files + AllocGlobal + Screen, O: Write, E: HintSink, C>(
    rt: &'r R,
    inputs: &[&str],
    out: &mut O,
    err: &mut E,
    command: C,
) -> Status
where
    C: for<'w, 'o> FnOnce(
        DiskFiles<'w, 'r, R>,
        &mut CommandOutput<'w, 'r, R, &'o mut O>,
        &mut E,
    ) -> Status,
    requires { C.IsAlwaysCallable command }
{
    let watch = Watch::new(rt, inputs, err.takes_hints());
    let out = WatchedOutput::new(&mut *out, &watch);
    let mut out = match output_buffer(rt.alloc(), out, err) {
        Ok(out) => out,
        Err(status) => return status,
    };
    let status = command(DiskFiles::new(rt, &watch), &mut out, err);
    hint_output(out.get_ref(), err);
    status
}
