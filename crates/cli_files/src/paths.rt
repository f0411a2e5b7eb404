//! Which paths are one file. This is checked before a file is opened for writing, so that no file
//! that is read is lost and no two captures go into one file.

ghost use Rattle.std.specs.Prelude.{◌≡◌, Some, codes};
ghost use Rattle.fault_report.specs.Reports.{IsNamed, TellsOne};
ghost use Rattle.fault_report.specs.declared.report.Subject.TheVariants.{File};
ghost use Rattle.cli_text.specs.declared.status.Status.TheVariants.{Refused};
ghost use Rattle.cli_files.specs.Paths.{IsPathReport, IsPathStatus};

use crate::reading::report_io;
use crate::retried::{metadata, symlink_metadata};
use cli_report::HintSink;
use cli_report::stream::give_hint;
use cli_text::Status;
use fault_report::reporting::{report_fault, report_memory};
use fault_report::{Report, Subject};
use std::alloc::{AllocError, AllocFailed, Global};
use std::collections::{BTreeMap, BTreeSet};
use std::fs::{Files, Metadata};
use std::io::ErrorKind;
use std::os::unix::fs::{FileTypeExt, MetadataExt};
use std::{fs, io};

/// The names of the streams that the program reads, prints and reports on.
pub(crate) const STANDARD_INPUT: &str = "/dev/stdin";

pub const STANDARD_OUTPUT: &str = "/dev/stdout";

pub(crate) const STANDARD_ERROR: &str = "/dev/stderr";

/// The system follows no more symbolic links than these.
const MAX_LINKS: usize = 40;

/// The system's error if a folder may not be entered.
const NO_ACCESS: i32 = 13;

/// What distinguishes a file or a folder from every other one of the system.
#[derive(Clone, Copy, Debug, PartialEq, Eq, PartialOrd, Ord)]
pub struct FileId {
    pub device: u64,
    pub inode: u64,
}

/// Where a path leads.
#[derive(Debug, Drop, PartialEq, Eq, PartialOrd, Ord)]
pub enum Target {
    /// A regular file or a fifo that is there.
    File(FileId),
    /// A file that is not there yet: the folder that it would be made in, and its name.
    New(FileId, String),
}

/// When a command opens the files that it reads.
#[derive(Clone, Copy, Debug, PartialEq, Eq)]
pub enum Opening {
    /// Before it makes a file. A missing file is a fault of its own then, and can't be lost.
    First,
    /// One after the other, while it writes: so it could read what it has made.
    Late,
}

/// What a command uses a file for.
#[derive(Clone, Copy, Debug, PartialEq, Eq)]
pub enum Use {
    Read,
    Written,
    StandardInput,
    StandardOutput,
    StandardError,
}

impl Use {
    /// Why a file of this use is no OUT.
    fn objection(self) -> &'static str {
        match self {
            Use::Read => "this command reads that file: name another OUT",
            Use::Written => "it is the OUT of an earlier line: name another one",
            Use::StandardInput => "standard input comes from that file: name another OUT",
            Use::StandardOutput => "standard output goes to that file: name another OUT",
            Use::StandardError => "standard error goes to that file: name another OUT",
        }
    }
}

/// Why the files of a command are refused.
#[derive(Debug, Drop)]
pub enum PathFault<'a> {
    /// This path is no OUT, since its file has this use too.
    Same(&'a str, Use),
    /// This path is read, and standard output goes to its file.
    Printed(&'a str),
    /// The system does not say where this path leads.
    Unknown(&'a str, io::Error),
    NoMemory,
}

impl From<AllocError> for PathFault<'_> {
    fn from(_e: AllocError) -> Self {
        PathFault::NoMemory
    }
}

impl<T: Drop> From<AllocFailed<T>> for PathFault<'_> {
    fn from(_e: AllocFailed<T>) -> Self {
        PathFault::NoMemory
    }
}

fn id_of(metadata: &Metadata) -> FileId {
    FileId {
        device: metadata.dev(),
        inode: metadata.ino(),
    }
}

/// Whether an error says that a path leads nowhere: then nothing can be opened or made there
/// either.
fn is_no_way(error: &io::Error) -> bool {
    match error.kind() {
        ErrorKind::NotFound
        | ErrorKind::NotADirectory
        | ErrorKind::FilesystemLoop
        | ErrorKind::InvalidFilename
        | ErrorKind::InvalidInput => true,
        _ => error.raw_os_error() == Some(NO_ACCESS),
    }
}

/// The file at a path, with symbolic links followed; nothing if no way leads to it.
fn metadata_of<R: Files>(rt: &R, path: &str) -> io::Result<Option<Metadata>> {
    match metadata(rt, path) {
        Ok(metadata) => Ok(Some(metadata)),
        Err(error) if is_no_way(&error) => Ok(None),
        Err(error) => Err(error),
    }
}

/// The folder that a path leads through last, and the name in it.
fn folder_and_name(path: &str) -> (&str, &str) {
    match path.rsplit_once('/') {
        Some(("", name)) => ("/", name),
        Some((folder, name)) => (folder, name),
        None => (".", path),
    }
}

/// Where the symbolic link at a path leads; nothing if there is none.
fn link_target<R: Files + AllocGlobal>(rt: &R, path: &str) -> io::Result<Option<String>> {
    match symlink_metadata(rt, path) {
        Ok(metadata) if metadata.is_symlink() => {}
        Ok(_) => return Ok(None),
        Err(error) if is_no_way(&error) => return Ok(None),
        Err(error) => return Err(error),
    }
    let target = fs::read_link(rt, path)?;
    if target.is_absolute() {
        Ok(Some(String::from_str(rt.alloc(), target.as_str())?))
    } else {
        let (folder, _) = folder_and_name(path);
        Ok(Some(format!(in rt.alloc(); "{folder}/{}", target.as_str())?))
    }
}

/// Where a file would be made by a path at which there is none: a symbolic link at its end is
/// followed.
fn new_file<R: Files + AllocGlobal>(rt: &R, path: &str) -> io::Result<Option<Target>> {
    let mut path = String::from_str(rt.alloc(), path)?;
    for _ in 0..MAX_LINKS {
        match link_target(rt, path.as_str())? {
            Some(target) => path = target,
            None => return in_folder(rt, path.as_str()),
        }
    }
    Err(io::Error::from(ErrorKind::FilesystemLoop))
}

/// The target that a new file would be. None can be made in a folder that does not exist, nor
/// without a name.
fn in_folder<R: Files + AllocGlobal>(rt: &R, path: &str) -> io::Result<Option<Target>> {
    let (folder, name) = folder_and_name(path);
    match metadata_of(rt, folder)? {
        Some(metadata) if metadata.is_dir() && !name.is_empty() => {
            let name = String::from_str(rt.alloc(), name)?;
            Ok(Some(Target::New(id_of(&metadata), name)))
        }
        _ => Ok(None),
    }
}

/// A file that loses something if it is written while it is used otherwise: a regular file or a
/// fifo.
fn lost_file(metadata: &Metadata) -> Option<Target> {
    let is_lost = metadata.is_file() || metadata.file_type().is_fifo();
    is_lost.then_some(Target::File(id_of(metadata)))
}

/// Where a path leads. Nothing if there is no file and none can be made, and for a device or a
/// folder, which lose nothing. An error means that the system does not say.
pub fn target_of<R: Files + AllocGlobal>(rt: &R, path: &str) -> io::Result<Option<Target>> {
    match metadata_of(rt, path)? {
        Some(metadata) => Ok(lost_file(&metadata)),
        None => new_file(rt, path),
    }
}

/// Finds [`target_of`] a path, with the path in the error.
fn named_target<'a, R: Files + AllocGlobal>(
    rt: &R,
    path: &'a str,
) -> Result<Option<Target>, PathFault<'a>> {
    match target_of(rt, path) {
        Ok(target) => Ok(target),
        Err(error) => Err(PathFault::Unknown(path, error)),
    }
}

/// Whether a path that is read leads to no file.
fn is_missing<'a, R: Files>(rt: &R, path: &'a str) -> Result<bool, PathFault<'a>> {
    match metadata_of(rt, path) {
        Ok(metadata) => Ok(metadata.is_none()),
        Err(error) => Err(PathFault::Unknown(path, error)),
    }
}

/// The regular file or pipe that standard output goes to. If the system does not say, nothing can be
/// compared with it.
fn output_file<'a, R: Files>(rt: &R, name: &'a str) -> Result<Option<Target>, PathFault<'a>> {
    match metadata(rt, name) {
        Ok(metadata) => Ok(lost_file(&metadata)),
        Err(error) => Err(PathFault::Unknown(name, error)),
    }
}

/// The regular file or pipe that standard input comes from. Who writes to that pipe waits for what
/// was written there.
fn input_file<R: Files>(rt: &R) -> Result<Option<Target>, PathFault<'static>> {
    match metadata_of(rt, STANDARD_INPUT) {
        Ok(Some(metadata)) => Ok(lost_file(&metadata)),
        Ok(None) => Ok(None),
        Err(error) => Err(PathFault::Unknown(STANDARD_INPUT, error)),
    }
}

/// The regular file that standard error goes to. A pipe loses nothing if another stream goes there
/// too.
fn error_file<R: Files>(rt: &R) -> Result<Option<Target>, PathFault<'static>> {
    match metadata_of(rt, STANDARD_ERROR) {
        Ok(Some(metadata)) if metadata.is_file() => Ok(Some(Target::File(id_of(&metadata)))),
        Ok(_) => Ok(None),
        Err(error) => Err(PathFault::Unknown(STANDARD_ERROR, error)),
    }
}

/// The files of a command, which no further file may be.
#[derive(Drop)]
struct Taken<'a> {
    /// The paths that are read.
    texts: BTreeSet<&'a str>,
    /// The files, each with its latest use.
    targets: BTreeMap<Target, Use>,
}

impl<'a> Taken<'a> {
    fn new(alloc: Global) -> Taken<'a> {
        Taken {
            texts: BTreeSet::new(alloc),
            targets: BTreeMap::new(alloc),
        }
    }

    /// Takes the files that are read, which may be the same file, but not the one that is printed
    /// to; then the file of standard input, and those that are printed and reported to.
    fn add_read<R: Files + AllocGlobal>(
        &mut self,
        rt: &R,
        opening: Opening,
        standard_output: Option<&'a str>,
        paths: &[&'a str],
    ) -> Result<(), PathFault<'a>> {
        let standard_output = match standard_output {
            Some(name) => output_file(rt, name)?,
            None => None,
        };
        for path in paths {
            if opening == Opening::First && is_missing(rt, *path)? {
                continue;
            }
            self.texts.insert(*path)?;
            let target = named_target(rt, *path)?;
            if target.is_some() && target == standard_output {
                return Err(PathFault::Printed(*path));
            }
            self.add(target, Use::Read)?;
        }
        self.add(input_file(rt)?, Use::StandardInput)?;
        self.add(standard_output, Use::StandardOutput)?;
        self.add(error_file(rt)?, Use::StandardError)?;
        Ok(())
    }

    /// Takes the files that are written, each different from all before. A device or a folder, which
    /// loses nothing, is no file.
    fn add_written<'b, R: Files + AllocGlobal>(
        &mut self,
        rt: &R,
        paths: &[&'b str],
    ) -> Result<(), PathFault<'b>> {
        for path in paths {
            let target = named_target(rt, *path)?;
            if target.is_some() && self.texts.contains(*path) {
                return Err(PathFault::Same(*path, Use::Read));
            }
            if let Some(earlier) = self.add(target, Use::Written)? {
                return Err(PathFault::Same(*path, earlier));
            }
        }
        Ok(())
    }

    /// Takes a target for a use, and returns what it was taken for already.
    fn add(
        &mut self,
        target: Option<Target>,
        taken_for: Use,
    ) -> Result<Option<Use>, AllocFailed<(Target, Use)>> {
        match target {
            Some(target) => self.targets.insert(target, taken_for),
            None => Ok(None),
        }
    }
}

/// Reports that a path is the file of something else, and why that is refused.
fn report_same<E: HintSink>(path: &str, objection: &str, err: &mut E) -> Status
    ensures status { result ≡ Refused }
    ensures told { TellsOne E.takes_hints E.failed E.contents E.fault_form (IsNamed (codes "SameFile") (Some (File path.entry))) err.old err.new }
{
    let fault = Report::named("SameFile").about(Subject::File(path));
    let status = report_fault(&fault, Status::Refused, err);
    give_hint(objection, err);
    status
}

/// Reports why files are refused, and returns the exit status.
pub fn report_path<E: HintSink>(fault: &PathFault<'_>, err: &mut E) -> Status
    ensures status { IsPathStatus fault.now result }
    ensures told { TellsOne E.takes_hints E.failed E.contents E.fault_form (IsPathReport fault.now) err.old err.new }
{
    match fault {
        PathFault::Same(path, taken_for) => report_same(*path, taken_for.objection(), err),
        PathFault::Printed(path) => report_same(
            *path,
            "this command reads that file, and standard output goes to it",
            err,
        ),
        PathFault::Unknown(path, error) => report_io(error, path, err),
        PathFault::NoMemory => report_memory(err),
    }
}

/// Checks that no file that is written is one that is read, the file of an earlier path that is
/// written, the one that standard input comes from, or the one that standard output or standard
/// error goes to; and that standard output goes to no file that is read.
///
/// Two paths are one file if they lead to one regular file or fifo, or to one new file; one that is
/// read and one that is written also if they have the same text. `standard_output` is its path, if
/// the command prints there: then it has to lead somewhere, since what can't be compared is
/// refused. With [`Opening::First`] a path that is read and leads to nothing is skipped: the command
/// can't open it.
pub fn check_shared_files<'a, R: Files + AllocGlobal>(
    rt: &R,
    opening: Opening,
    standard_output: Option<&'a str>,
    read: &[&'a str],
    written: &[&'a str],
) -> Result<(), PathFault<'a>> {
    let mut taken = Taken::new(rt.alloc());
    taken.add_read(rt, opening, standard_output, read)?;
    taken.add_written(rt, written)
}

/// Refuses what [`check_shared_files`] refuses: reports why, and returns the exit status.
pub fn refuse_shared_files<R: Files + AllocGlobal, E: HintSink>(
    rt: &R,
    opening: Opening,
    standard_output: Option<&str>,
    read: &[&str],
    written: &[&str],
    err: &mut E,
) -> Result<(), Status> {
    match check_shared_files(rt, opening, standard_output, read, written) {
        Ok(()) => Ok(()),
        Err(fault) => Err(report_path(&fault, err)),
    }
}
