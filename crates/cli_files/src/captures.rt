//! The captures that a command writes, each wrapped to note what a hint needs.

use cli_report::{FailureProbe, HintSink};
use cli_text::Status;
use fault_report::reporting::report_memory;
use savefile::Counted;
use std::alloc::Global;
use std::io;
use std::io::{BufWriter, Write};

/// How many bytes are gathered before they are written, of one capture of many or of standard
/// output.
pub const OUTPUT_BUFFER: usize = 1 << 16;

/// A capture that is written, with a buffer of `room` bytes in front of it.
pub fn with_buffer<W: Write + Drop>(
    alloc: Global,
    room: usize,
    inner: W,
) -> io::Result<Counted<BufWriter<W>>> {
    Ok(Counted::new(BufWriter::with_capacity(alloc, room, inner)?))
}

/// Standard output with a buffer in front of it; or reports that memory ran out.
pub fn output_buffer<W: Write + Drop, E: HintSink>(
    alloc: Global,
    out: W,
    err: &mut E,
) -> Result<BufWriter<FailureProbe<W>>, Status> {
    match BufWriter::with_capacity(alloc, OUTPUT_BUFFER, FailureProbe::new(out)) {
        Ok(out) => Ok(out),
        Err(_) => Err(report_memory(err)),
    }
}
