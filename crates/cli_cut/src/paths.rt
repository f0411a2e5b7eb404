//! OUT of a cut of a part.

use cli_files::captures::with_buffer;
use cli_files::late::LateFile;
use cli_files::reading::report_io;
use cli_report::probe::ProbedOutput;
use cli_report::{FailureProbe, HintSink};
use cli_text::Status;
use std::fs::Files;

/// How many bytes of output are gathered before they are written.
const OUTPUT_BUFFER: usize = 1 << 18;

/// OUT, which is made at its first write, with a buffer in front of it.
pub(crate) type LateOutput<'r, 'p, R> = ProbedOutput<LateFile<'r, 'p, R>>;

/// OUT, which is made at its first write.
pub(crate) fn late_output<'r, 'p, R: Files + AllocGlobal, E: HintSink>(
    rt: &'r R,
    path: &'p str,
    err: &mut E,
) -> Result<LateOutput<'r, 'p, R>, Status> {
    let late = FailureProbe::new(LateFile::new(rt, path));
    match with_buffer(rt.alloc(), OUTPUT_BUFFER, late) {
        Ok(output) => Ok(output),
        Err(error) => Err(report_io(&error, path, err)),
    }
}
