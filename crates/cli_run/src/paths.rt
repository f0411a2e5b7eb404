//! The files of `bpftap run`: those that are compared, the captures that it reads and those that it
//! writes.

ghost use Rattle.std.specs.Prelude.{◌≡◌, ◌<◌, All, IfOk, length, vec_len};

use crate::plan::RunLine;
use crate::tally::{CountingCapture, Output};
use cli_args::run::RunWords;
use cli_files::captures::{OUTPUT_BUFFER, with_buffer};
use cli_files::late::LateFile;
use cli_filter::plan::Plan;
use cli_filter::plan_files::{check_outputs, outputs_of};
use cli_report::{FailureProbe, HintSink};
use cli_text::Status;
use cli_watch::Watch;
use cli_watch::captures::{WatchedInput, watched_inputs};
use fault_report::reporting::report_memory;
use replay_types::RunFault;
use std::alloc::{AllocError, Global};
use std::io;

/// A capture that is opened at its first read.
pub type RunInput<'w, 'r, 'p> = WatchedInput<'w, 'r, 'p, HostRuntime>;

/// A capture that is made at its first write.
pub type RunOutput<'r, 'p> = Output<FailureProbe<LateFile<'r, 'p, HostRuntime>>>;

/// The captures of all interfaces, none of them opened.
fn interface_inputs<'w, 'r, 'p>(
    files: &'r HostRuntime,
    alloc: Global,
    paths: &[Vec<&'p str>],
    watch: &'w Watch<'r, HostRuntime>,
) -> Result<Vec<Vec<RunInput<'w, 'r, 'p>>>, AllocError>
    ensures { IfOk result (λ all. vec_len all ≡ length paths.now) }
{
    let mut all = Vec::with_capacity(alloc, paths.len())?;
    for paths in paths {
        all.push(watched_inputs(files, alloc, paths.as_slice(), watch)?)?;
    }
    Ok(all)
}

/// The captures to write, none of them made.
fn sinks<'r, 'p>(
    files: &'r HostRuntime,
    alloc: Global,
    outputs: &[&'p str],
) -> io::Result<Vec<RunOutput<'r, 'p>>>
    ensures { IfOk result (λ sinks. vec_len sinks ≡ length outputs.now) }
{
    let mut sinks = Vec::with_capacity(alloc, outputs.len())?;
    for path in outputs {
        let late = FailureProbe::new(LateFile::new(files, *path));
        sinks.push(with_buffer(alloc, OUTPUT_BUFFER, CountingCapture::new(late))?)?;
    }
    Ok(sinks)
}

/// The paths of all files that are read.
fn read_paths<'a>(alloc: Global, words: &RunWords<'a>) -> Result<Vec<&'a str>, AllocError> {
    let mut paths = capture_paths(alloc, words)?;
    paths.push(words.listeners)?;
    Ok(paths)
}

/// The paths of the captures of all interfaces.
pub(crate) fn capture_paths<'a>(
    alloc: Global,
    words: &RunWords<'a>,
) -> Result<Vec<&'a str>, AllocError> {
    let mut paths = Vec::new(alloc);
    for inputs in words.inputs.as_slice() {
        paths.extend_from_slice(inputs.as_slice())?;
    }
    Ok(paths)
}

/// Refuses, with a line on `err`, an OUT by which something would be lost: it is a file that is
/// read, the file of another OUT, or the one that lines are printed to.
pub(crate) fn check_paths<E: HintSink>(
    files: &HostRuntime,
    alloc: Global,
    words: &RunWords<'_>,
    lines: &[RunLine<'_>],
    err: &mut E,
) -> Result<(), Status> {
    let Ok(read) = read_paths(alloc, words) else {
        return Err(report_memory(err));
    };
    check_outputs(files, read.as_slice(), lines, err)
}

/// What is replayed over files, each of which is opened when it is first read or written.
#[derive(Drop)]
pub struct LateFiles<'w, 'r, 'i, 'o> {
    pub plan: Plan<RunLine<'o>>,
    pub captures: Vec<Vec<RunInput<'w, 'r, 'i>>>,
    pub sinks: Vec<RunOutput<'r, 'o>>,
    /// What is seen of the captures.
    pub watch: &'w Watch<'r, HostRuntime>,
    ghost interfaces_there: { All (λ line. line.interface < length captures.items) plan.lines.items },
    ghost all_programs: { length plan.programs.items ≡ length plan.lines.items },
    ghost all_sinks: { length sinks.items ≡ length plan.lines.items },
}

/// The files that are replayed, and those that are written.
pub(crate) fn late_files<'w, 'r, 'i, 'o>(
    files: &'r HostRuntime,
    alloc: Global,
    words: &RunWords<'i>,
    plan: Plan<RunLine<'o>>,
    watch: &'w Watch<'r, HostRuntime>,
) -> Result<LateFiles<'w, 'r, 'i, 'o>, RunFault>
    requires there { All (λ line. line.interface < length words.now.inputs.items) plan.lines.items }
    requires programs { length plan.programs.items ≡ length plan.lines.items }
{
    let captures = interface_inputs(files, alloc, words.inputs.as_slice(), watch)?;
    let outputs = outputs_of(alloc, plan.lines.as_slice())?;
    let Ok(sinks) = sinks(files, alloc, outputs.as_slice()) else {
        return Err(RunFault::NoStart);
    };
    Ok(LateFiles {
        plan,
        captures,
        sinks,
        watch,
    })
}
