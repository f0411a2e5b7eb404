//! `bpftap join`, over files.

ghost use Rattle.std.specs.Prelude.{◌≡◌, ◌∷◌, None, false, true, IfOk, map};

use crate::joining::{JoinFault, JoinFiles, join_files};
use crate::report::{LinesFile, report_lines, report_other_file};
use cli_args::join::JoinWords;
use cli_files::late::LateFile;
use cli_files::paths::{Opening, PathFault, STANDARD_OUTPUT, check_shared_files, report_path};
use cli_files::reading::{read_text, report_io};
use cli_files::retried::{Retried, metadata};
use cli_report::failures::hint_failure;
use cli_report::{FailureProbe, HintSink};
use cli_text::Status;
use fault_report::reporting::{report_capture, report_device, report_memory};
use pcap_parts::files::PartFiles;
use pcap_parts::part::PartCut;
use pcap_parts::writing::WriteFault;
use savefile::Counted;
use std::alloc::{AllocError, Global};
use std::fs::Files;
use std::io::{ErrorKind, Write};
use std::{fs, io};

/// What is wrong with a file whose size is another one.
const OTHER_SIZE: &str = "it has another size than its line says: cut this part again";

/// What is wrong with a file whose header is another one.
const OTHER_HEADER: &str =
    "its header differs from that of the first part: give each cut the same -s, -u and -o";

/// The files of the system. Contracts know nothing of them.
#[derive(Drop)]
struct DiskFiles<'r, 'p, R> {
    rt: &'r R,
    words: JoinWords<'p>,
}

impl<R: Files> PartFiles for DiskFiles<'_, '_, R> {
    type File = Counted<FailureProbe<Retried<R::File>>>;

    type Failure = io::Error;

    ghost known = { false };

    ghost text = { λ _ _. None };

    fn open(&self, path: &str) -> io::Result<Self::File> {
        let file = Retried::new(fs::open(self.rt, path)?);
        Ok(Counted::new(FailureProbe::new(file)))
    }

    fn failure(&self, file: Self::File) -> io::Error {
        match file.into_inner().failure() {
            Some(error) => error,
            None => io::Error::from(ErrorKind::Other),
        }
    }
}

/// The paths of all files that are read: LINES, and those of the parts.
#[tactic(auto, using(crate::proofs::Paths::next_path, crate::proofs::Paths::all_paths))]
fn read_paths<'a>(
    alloc: Global,
    lines: &'a str,
    parts: &[PartCut<'a>],
) -> Result<Vec<&'a str>, AllocError>
    ensures { IfOk result (λ paths. map (λ path. path.now) paths.items ≡ lines.now ∷ map (λ part. part.file.now) parts.now) }
{
    let mut paths = Vec::with_capacity(alloc, parts.len().saturating_add(1))?;
    paths.push(lines)?;
    for part in parts {
        paths.push(part.file)?;
    }
    Ok(paths)
}

impl<'p, R: Files + AllocGlobal> JoinFiles<'p> for DiskFiles<'_, 'p, R> {
    ghost apart = { λ _ _. true };

    fn check_apart(&self, parts: &[PartCut<'p>]) -> Result<(), PathFault<'p>> {
        let Ok(read) = read_paths(self.rt.alloc(), self.words.lines, parts) else {
            return Err(PathFault::NoMemory);
        };
        let written = [self.words.output];
        check_shared_files(
            self.rt,
            Opening::Late,
            Some(STANDARD_OUTPUT),
            read.as_slice(),
            &written,
        )
    }

    fn size(&self, path: &str) -> io::Result<Option<u64>> {
        let found = metadata(self.rt, path)?;
        Ok(found.is_file().then_some(found.len()))
    }
}

/// Reports why a file of a part is not joined, and returns the exit status.
fn report_file<E: HintSink>(
    fault: &WriteFault<'_, io::Error>,
    words: &JoinWords<'_>,
    err: &mut E,
) -> Status {
    match fault {
        WriteFault::OtherHeader(path) => report_other_file(path, OTHER_HEADER, err),
        WriteFault::OtherSize(path) => report_other_file(path, OTHER_SIZE, err),
        WriteFault::Unread(path, error) => report_io(error, path, err),
        WriteFault::Output => report_device(words.output, err),
        WriteFault::NoMemory => report_memory(err),
    }
}

/// Reports why LINES, of this text, is not joined, or prints what has to be cut again; returns the exit status.
fn report_join<O: Write, E: HintSink>(
    alloc: Global,
    fault: &JoinFault<'_, io::Error>,
    (words, text): (&JoinWords<'_>, &[u8]),
    out: &mut O,
    err: &mut E,
) -> Status {
    match fault {
        JoinFault::Lines(fault) => {
            let path = words.lines;
            report_lines(alloc, fault, LinesFile { path, text }, out, err)
        }
        JoinFault::Paths(fault) => report_path(fault, err),
        JoinFault::Sizes(fault) | JoinFault::Writing(fault) => report_file(fault, words, err),
    }
}

/// Joins the parts of LINES of the system's files, and reports how that ended.
fn join_system<R: Files + AllocGlobal, O: Write, E: HintSink>(
    rt: &R,
    words: &JoinWords<'_>,
    out: &mut O,
    err: &mut E,
) -> Result<Status, Status> {
    let text = read_text(rt, words.lines, err)?;
    let text = text.as_slice();
    let files = DiskFiles { rt, words: *words };
    let mut sink = Counted::new(FailureProbe::new(LateFile::new(rt, words.output)));
    match join_files(rt.alloc(), &files, text, &mut sink) {
        Ok(None) => Ok(Status::Clean),
        Ok(Some(fault)) => Ok(report_capture(fault, words.output, err)),
        Err(fault) => {
            let status = report_join(rt.alloc(), &fault, (words, text), out, err);
            hint_failure(&sink.inner, err);
            Err(status)
        }
    }
}

/// `bpftap join`: the lines of LINES are accepted, and the paths, the sizes and the headers of the files are compared, before OUT is made. The fault
/// that is reported is that of the whole capture, at its place there.
pub fn join_command<R: Files + AllocGlobal, O: Write, E: HintSink>(
    rt: &R,
    words: &JoinWords<'_>,
    out: &mut O,
    err: &mut E,
) -> Status {
    match join_system(rt, words, out, err) {
        Ok(status) | Err(status) => status,
    }
}
