//! The header of a capture and a range of its bytes, as one source.

ghost use Rattle.std.specs.Prelude.{◌≡◌, ◌&&◌, ◌++◌, Some, IfOk, IfSome, nat_le, take};
ghost use Rattle.std.specs.Io.Chain.{chain_remaining};
ghost use Rattle.std.specs.Io.Cursor.{cursor_remaining};
ghost use Rattle.std.specs.Io.Take.{take_remaining};
ghost use Rattle.pcap_parts.specs.Whole.{between};

use crate::placed::{DiskFile, PlacedFile};
use cli_args::places::ByteRange;
use cli_files::reading::report_io;
use cli_files::retried::{Retried, metadata, open_metadata};
use cli_report::HintSink;
use cli_report::probe::{FailureProbe, ProbedInput};
use cli_report::stream::give_hint;
use cli_text::Status;
use cli_text::report::EscapedPath;
use cli_watch::{Screen, Watch, WatchedReader};
use fault_report::Report;
use fault_report::reporting::report_fault;
use savefile::{Counted, HEADER_LEN};
use std::alloc::Global;
use std::fs::{Files, Metadata};
use std::io::{Chain, Cursor, Read, Take};
use std::{fs, io};

/// The header of a capture, and a range of its bytes.
pub type PartBytes<F> = Chain<Cursor<Vec<u8>>, Take<F>>;

/// The same, watched while it is read.
pub type PartInput<'w, 'r, R> = ProbedInput<
    WatchedReader<'w, 'r, R, PartBytes<Retried<<R as Files>::File>>>,
>;

/// A part that is open, and how many bytes the whole capture has.
#[derive(Drop)]
pub struct OpenPart<I> {
    pub input: I,
    pub size: u64,
}

/// Reports that a path leads to no regular file, and returns the exit status.
fn report_irregular<E: HintSink>(path: &str, err: &mut E) -> Status {
    let status = report_fault(&Report::named("NotRegular"), Status::Refused, err);
    give_hint(
        format_args!(
            "{} is no regular file, so it has no bytes to choose from",
            EscapedPath(path)
        ),
        err,
    );
    status
}

/// How many bytes a regular file has; or reports that there is none.
fn regular_size<E: HintSink>(
    metadata: &io::Result<Metadata>,
    path: &str,
    err: &mut E,
) -> Result<u64, Status> {
    match metadata {
        Ok(metadata) if metadata.is_file() => Ok(metadata.len()),
        Ok(_) => Err(report_irregular(path, err)),
        Err(error) => Err(report_io(error, path, err)),
    }
}

/// A regular file, and how many bytes it has; or reports why there is none. Opening a fifo would wait for a writer, so what a path leads to is asked
/// first.
pub(crate) fn open_regular<R: Files, E: HintSink>(
    rt: &R,
    path: &str,
    err: &mut E,
) -> Result<OpenPart<R::File>, Status> {
    regular_size(&metadata(rt, path), path, err)?;
    match fs::open(rt, path) {
        Ok(input) => {
            let size = regular_size(&open_metadata(&input), path, err)?;
            Ok(OpenPart { input, size })
        }
        Err(error) => Err(report_io(&error, path, err)),
    }
}

/// The first bytes of a file, as many as a header has, or fewer if the file is shorter.
pub(crate) fn header_bytes<F: Read>(alloc: Global, file: &mut F) -> io::Result<Vec<u8>>
    ensures { IfOk result (λ front. IfSome (F.remaining file.old) (λ left. front.items ≡ take 24 left)) }
{
    let mut bytes = Vec::new(alloc);
    Retried::new(file)
        .take(HEADER_LEN as u64)
        .read_to_end(&mut bytes)?;
    Ok(bytes)
}

/// Whether these are bytes of a capture of this size, after its header.
fn is_inside(bytes: ByteRange, size: u64) -> bool
    ensures { result ≡ (nat_le 24 bytes.first && nat_le bytes.end size) }
{
    bytes.first >= HEADER_LEN as u64 && bytes.end <= size
}

/// The header of a file, and a range of its bytes.
pub fn header_and_range<F: PlacedFile + Drop>(
    alloc: Global,
    mut file: F,
    bytes: ByteRange,
) -> io::Result<PartBytes<F::Rest>>
    ensures { IfOk result (λ part. IfSome (F.bytes file) (λ whole.
        chain_remaining (cursor_remaining (λ v. Some v.items)) (take_remaining F.Rest.remaining) part ≡ Some (take 24 whole ++ between bytes.first bytes.end whole))) }
{
    let header = file.front(alloc, HEADER_LEN as u64)?;
    let rest = file.rest(bytes.first)?;
    let count = bytes.end.saturating_sub(bytes.first);
    Ok(Cursor::new(header).chain(rest.take(count)))
}

/// Reports that a range is none of the packets of a capture of `size` bytes, and returns the exit status.
fn report_range<E: HintSink>(path: &str, size: u64, err: &mut E) -> Status {
    let status = report_fault(&Report::named("BadRange"), Status::Refused, err);
    let path = EscapedPath(path);
    if size < HEADER_LEN as u64 {
        give_hint(
            format_args!("{path} has {size} bytes, and no whole header"),
            err,
        );
    } else {
        give_hint(
            format_args!("the packets of {path} lie from byte {HEADER_LEN} to {size}"),
            err,
        );
    }
    status
}

/// Opens a part of the capture at a path: its header, and a range of the bytes after it; or reports why there is none.
pub fn open_part<'w, 'r, R: Files + AllocGlobal + Screen, E: HintSink>(
    rt: &R,
    path: &str,
    bytes: ByteRange,
    watch: &'w Watch<'r, R>,
    err: &mut E,
) -> Result<OpenPart<PartInput<'w, 'r, R>>, Status> {
    let OpenPart { input: file, size } = open_regular(rt, path, err)?;
    if !is_inside(bytes, size) {
        return Err(report_range(path, size, err));
    }
    match header_and_range(rt.alloc(), DiskFile::new(file), bytes) {
        Ok(input) => Ok(OpenPart {
            input: Counted::new(FailureProbe::new(watch.watched(input))),
            size,
        }),
        Err(error) => Err(report_io(&error, path, err)),
    }
}
