//! `bpftap parts`, over files.

ghost use Rattle.std.specs.Prelude.{OnOk, if◌then◌else◌};
ghost use Rattle.line_text.specs.declared.form.LineForm.TheVariants.{Json, Text};
ghost use Rattle.cli_parts.specs.Ranges.{ArePrinted};

use crate::guess::{LOOKED_THROUGH, WINDOW, start_after};
use crate::input::{OpenPart, header_bytes, open_regular};
use crate::line::print_range;
use crate::report::hint_path;
use crate::seen::SeenFile;
use cli_args::parts::PartsWords;
use cli_files::captures::output_buffer;
use cli_files::paths::{Opening, STANDARD_OUTPUT, refuse_shared_files};
use cli_files::reading::{report_io, report_printed};
use cli_report::HintSink;
use cli_report::captures::hint_capture_fault;
use cli_report::failures::hint_output;
use cli_text::Status;
use cli_watch::output::WatchedOutput;
use cli_watch::{Screen, Watch};
use fault_report::reporting::report_capture;
use line_text::LineForm;
use pcap_parts::join::FIRST_RECORD;
use savefile::{Header, header_of};
use std::alloc::Global;
use std::fs::Files;
use std::io;
use std::io::{Read, Seek, Write};

/// How many parts a capture has, however short they are.
const SHORT_PARTS: u64 = 1024;

/// At how many places in a row no record seems to begin before no further one is looked for.
const MAX_MISSES: u32 = 256;

/// How many parts are looked for in this many bytes of packets, of `count` that are wanted: more than 1,024 only if each has 64 KiB, and no
/// more than there are bytes.
fn part_count(length: u64, count: u64) -> u64 {
    count
        .min(length.max(1))
        .min(SHORT_PARTS.max(length / WINDOW))
}

/// Where the part of this number, from 0, begins at the earliest, if `count` parts have the same length.
fn part_start(size: u64, count: u64, number: u64) -> u64 {
    let length = size.saturating_sub(FIRST_RECORD) / count.max(1);
    FIRST_RECORD.saturating_add(length.saturating_mul(number))
}

/// Why a capture was not parted.
#[derive(Debug, Drop)]
pub enum PartingFault {
    /// The capture could not be read.
    Input(io::Error),
    /// The ranges could not be printed.
    Output(io::Error),
}

/// Prints the ranges of a capture with this header: from the header to its end, each from where the one before ends.
#[tactic(auto, using(crate::proofs::Printed::none_printed, crate::proofs::Printed::one_more))]
pub fn print_ranges<F: Read + Seek, O: Write>(
    alloc: Global,
    capture: &mut OpenPart<F>,
    header: Header,
    words: &PartsWords<'_>,
    out: &mut O,
) -> Result<(), PartingFault>
    ensures { OnOk result (ArePrinted (O.contents out.old) (O.contents out.new) (if words.now.json then Json else Text) capture.old.size) }
{
    let (size, form) = (capture.size, LineForm::asked(words.json));
    let count = part_count(size.saturating_sub(FIRST_RECORD), words.count);
    let (mut first, mut passed, mut misses) = (FIRST_RECORD, FIRST_RECORD, 0);
    for number in 1..count {
        let earliest = part_start(size, count, number);
        if earliest <= passed || misses == MAX_MISSES {
            continue;
        }
        let start = match start_after(alloc, &mut capture.input, header, earliest) {
            Ok(start) => start,
            Err(error) => return Err(PartingFault::Input(error)),
        };
        let Some(start) = start else {
            (passed, misses) = (
                earliest.saturating_add(LOOKED_THROUGH),
                misses.saturating_add(1),
            );
            continue;
        };
        if let Err(error) = print_range(alloc, form, first, start, out) {
            return Err(PartingFault::Output(error));
        }
        (first, passed, misses) = (start, start, 0);
    }
    match print_range(alloc, form, first, size, out) {
        Ok(()) => Ok(()),
        Err(error) => Err(PartingFault::Output(error)),
    }
}

/// Reports why a capture was not parted, and returns the exit status.
fn report_parting<E: HintSink>(fault: &PartingFault, path: &str, err: &mut E) -> Status {
    match fault {
        PartingFault::Input(error) => report_io(error, path, err),
        PartingFault::Output(error) => report_printed(&Err(*error), err),
    }
}

/// The header of a capture; or reports why it is refused.
fn read_header<F: Read, E: HintSink>(
    alloc: Global,
    file: &mut F,
    path: &str,
    err: &mut E,
) -> Result<Header, Status> {
    let bytes = match header_bytes(alloc, file) {
        Ok(bytes) => bytes,
        Err(error) => return Err(report_io(&error, path, err)),
    };
    match header_of(bytes.as_slice()) {
        Ok(header) => Ok(header),
        Err(fault) => {
            let status = report_capture(fault, path, err);
            hint_path(path, err);
            hint_capture_fault(bytes.as_slice(), fault, err);
            Err(status)
        }
    }
}

/// Prints the ranges of the capture, with a buffer in front of the output.
fn part_capture<R: Files + AllocGlobal + Screen, O: Write, E: HintSink>(
    rt: &R,
    words: &PartsWords<'_>,
    out: &mut O,
    err: &mut E,
) -> Result<Status, Status> {
    let paths = [words.input];
    refuse_shared_files(rt, Opening::First, Some(STANDARD_OUTPUT), &paths, &[], err)?;
    let OpenPart { input, size } = open_regular(rt, words.input, err)?;
    let watch = Watch::new(rt, &paths, err.takes_hints());
    let mut capture = OpenPart {
        input: SeenFile::new(input, &watch),
        size,
    };
    let header = read_header(rt.alloc(), &mut capture.input, words.input, err)?;
    let out = WatchedOutput::new(&mut *out, &watch);
    let mut out = output_buffer(rt.alloc(), out, err)?;
    let printed = print_ranges(rt.alloc(), &mut capture, header, words, &mut out);
    watch.erase();
    let status = match printed {
        Ok(()) => report_printed(&out.flush(), err),
        Err(fault) => report_parting(&fault, words.input, err),
    };
    hint_output(out.get_ref(), err);
    Ok(status)
}

/// `bpftap parts`: prints ranges of the bytes of a capture, which follow each other from the header to the end. The capture is a regular file.
/// Only its header and the bytes about each place are read.
pub fn parts_command<R: Files + AllocGlobal + Screen, O: Write, E: HintSink>(
    rt: &R,
    words: &PartsWords<'_>,
    out: &mut O,
    err: &mut E,
) -> Status {
    match part_capture(rt, words, out, err) {
        Ok(status) | Err(status) => status,
    }
}
