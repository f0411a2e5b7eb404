//! Files in memory: what tests run the commands over.

ghost use Rattle.std.specs.Prelude.{◌≡◌, ◌≢◌, ◌+◌, ◌++◌, ◌∷◌, [], ℕ, List, Some, None, true, false, Option, IfOk, IfErr, OnErr, OnOk, IfSome, IsTrue, ◌↔◌, option_copied, map, take, All};
ghost use Rattle.std.specs.List.{Any};
ghost use Rattle.cli_store.specs.Files.{BeginsAt, HaveOwnPlaces, IsApart, IsCaptureRead, IsLost, IsUnprinted, StoresAt, text_at};
ghost use Rattle.cli_store.specs.Memory.{itself, lookup};

use crate::store::FileStore;
use cli_files::paths::{Opening, PathFault, Use};
use cli_report::FailureProbe;
use savefile::{Broken, Counted, GatheringSink, HEADER_LEN, Sink, Source, header_of};
use std::alloc::{AllocFailed, Global};
use std::collections::VecDeque;
use std::io;
use std::io::{ErrorKind, Write};

/// A file in memory.
#[derive(Drop)]
pub struct MemoryFile<'p> {
    pub path: &'p str,
    pub bytes: Vec<u8>,
}

/// Files in memory. Each path leads to a file of its own.
#[derive(Drop)]
pub struct MemoryFiles<'p> {
    pub alloc: Global,
    /// The files, of which the first of a path counts.
    pub files: Vec<MemoryFile<'p>>,
    /// The paths that were opened, in order.
    pub opened: Vec<&'p str>,
    /// The path of the file that standard output goes to, if it goes to one.
    pub printed: Option<&'p str>,
    /// How many files were made that are not closed yet.
    pub pending: usize,
    /// Whether a file or a device failed, or memory ran out.
    pub failed: bool,
    /// The path of the file that could not be read, opened or made last.
    pub denied: Option<&'p str>,
    pub endurance: Endurance,
}

/// How often files and devices work before they fail, for tests of failures.
#[derive(Clone, Copy, Debug)]
pub struct Endurance {
    /// How many calls go well before the one that fails. Those after it go well again.
    pub calls: usize,
    /// How often each file that is opened can be read.
    pub reads: usize,
    /// How often each file that is made can be written to.
    pub writes: usize,
}

impl Endurance {
    /// No call fails that a test could count.
    pub const MAX: Endurance = Endurance {
        calls: usize::MAX,
        reads: usize::MAX,
        writes: usize::MAX,
    };
}

/// A file in memory that is read.
#[derive(Debug, Drop)]
pub struct MemoryInput {
    bytes: Counted<VecDeque<u8>>,
    /// How often it can be read; if there is no file, never.
    reads: usize,
}

impl Source for MemoryInput {
    ghost left = { λ input. Some input.bytes.inner.items };

    ghost failures = { λ input. input.bytes.failures };

    fn read(&mut self, to: &mut [u8]) -> Result<usize, Broken> {
        if self.reads == 0 {
            self.bytes.failures = self.bytes.failures.wrapping_add(1);
            return Err(Broken);
        }
        self.reads -= 1;
        self.bytes.read(to)
    }
}

/// A file in memory that is written.
#[derive(Debug, Drop)]
pub struct MemoryOutput<'p> {
    path: &'p str,
    taken: Counted<Vec<u8>>,
    /// How often it can be written to.
    writes: usize,
}

impl Sink for MemoryOutput<'_> {
    ghost taken = { λ output. Some output.taken.inner.items };

    ghost name = { λ output. output.path.now };

    ghost failures = { λ output. output.taken.failures };

    fn write(&mut self, from: &[u8]) -> Result<usize, Broken> {
        if self.writes == 0 {
            self.taken.failures = self.taken.failures.wrapping_add(1);
            return Err(Broken);
        }
        self.writes -= 1;
        self.taken.write(from)
    }

    fn flush(&mut self) {
        self.hand_on();
    }
}

impl GatheringSink for MemoryOutput<'_> {
    ghost waits = { λ output. output.taken.waits };

    fn hand_on(&mut self) {
        self.taken.hand_on();
    }
}

impl<'p> MemoryFiles<'p> {
    /// No file.
    pub fn new(alloc: Global) -> MemoryFiles<'p> {
        MemoryFiles {
            alloc,
            files: Vec::new(alloc),
            opened: Vec::new(alloc),
            printed: None,
            pending: 0,
            failed: false,
            denied: None,
            endurance: Endurance::MAX,
        }
    }

    /// Counts a call: the error is that it fails.
    fn spend(&mut self) -> Result<(), ErrorKind>
        ensures { self.new ≡ record self.old { endurance = self.new.endurance } }
    {
        let calls = self.endurance.calls;
        self.endurance.calls = calls.wrapping_sub(1);
        if calls == 0 {
            Err(ErrorKind::Other)
        } else {
            Ok(())
        }
    }

    /// Notes that the file at a path could not be read, opened or made, and returns the error.
    fn deny(&mut self, path: &'p str, kind: ErrorKind) -> io::Error
        ensures { self.new ≡ record self.old { failed = true; denied = Some path.entry } }
    {
        self.failed = true;
        self.denied = Some(path);
        io::Error::from(kind)
    }
}

/// Whether two paths are the same text.
fn is_same_text(one: &str, other: &str) -> bool
    ensures { IsTrue result ↔ (one.now ≡ other.now) }
{
    one == other
}

/// The bytes of the first file of this path.
fn find<'a>(files: &'a [MemoryFile<'_>], path: &str) -> Option<&'a [u8]>
    ensures { option_copied result ≡ lookup files.now path.now }
{
    match files.split_first() {
        None => None,
        Some((file, _)) if file.path == path => Some(file.bytes.as_slice()),
        Some((_, others)) => find(others, path),
    }
}

/// Whether a path that is read leads to the file of OUT.
fn is_lost(files: &[MemoryFile<'_>], opening: Opening, path: &str, output: &str) -> bool
    ensures apart { result ≡ false → IsApart opening itself (lookup files.now) output.now path.now }
    ensures same { result ≡ true → path.now ≡ output.now }
{
    is_same_text(path, output) && (opening == Opening::Late || find(files, path).is_some())
}

/// Whether one of the paths that are read leads to the file of OUT.
#[tactic(auto, using(crate::proofs::Shared::any_later))]
fn is_any_lost(files: &[MemoryFile<'_>], opening: Opening, read: &[&str], output: &str) -> bool
    ensures apart { result ≡ false → All (λ path. IsApart opening itself (lookup files.now) output.now path.now) read.now }
    ensures same { result ≡ true → Any (λ path. path.now ≡ output.now) read.now }
{
    match read.split_first() {
        None => false,
        Some((path, others)) => {
            is_lost(files, opening, *path, output) || is_any_lost(files, opening, others, output)
        }
    }
}

/// Whether one of these paths is this one.
#[tactic(auto, using(crate::proofs::Shared::any_later))]
fn is_among(paths: &[&str], path: &str) -> bool
    ensures apart { result ≡ false → All (λ other. other.now ≢ path.now) paths.now }
    ensures same { result ≡ true → Any (λ other. other.now ≡ path.now) paths.now }
{
    match paths.split_first() {
        None => false,
        Some((other, others)) => is_same_text(*other, path) || is_among(others, path),
    }
}

/// Whether standard output goes to the file at a path.
fn is_printed(printed: Option<&str>, path: &str) -> bool
    ensures { IsTrue result ↔ (option_copied printed.entry ≡ Some path.now) }
{
    match printed {
        Some(printed) => is_same_text(printed, path),
        None => false,
    }
}

/// The file that standard output goes to, if something is printed.
fn printed_if(prints: bool, printed: Option<&str>) -> Option<&str>
    ensures prints { prints ≡ true → option_copied result ≡ option_copied printed.entry }
    ensures silent { prints ≡ false → option_copied result ≡ None }
{
    if prints { printed } else { None }
}

/// The first path that is read of which standard output goes to the file.
#[tactic(auto, using(crate::proofs::Shared::any_later))]
fn find_printed<'p>(
    files: &[MemoryFile<'_>],
    opening: Opening,
    printed: Option<&str>,
    read: &[&'p str],
) -> Option<&'p str>
    ensures none { result ≡ None → All (λ path. IsUnprinted opening itself (lookup files.now) (option_copied printed.entry) path.now) read.now }
    ensures found { IfSome result (λ path. Any (λ other. option_copied printed.entry ≡ Some other.now) read.now) }
{
    let (path, others) = read.split_first()?;
    let is_skipped = opening == Opening::First && find(files, *path).is_none();
    if is_printed(printed, *path) && !is_skipped {
        return Some(*path);
    }
    find_printed(files, opening, printed, others)
}

/// The first OUT that would be lost, and what its file is used for.
fn find_lost<'p>(
    files: &[MemoryFile<'_>],
    opening: Opening,
    printed: Option<&str>,
    read: &[&str],
    outputs: &[&'p str],
) -> Option<(&'p str, Use)>
    ensures apart { result ≡ None → All (λ output. All (λ path. IsApart opening itself (lookup files.now) output.now path.now) read.now) outputs.now }
    ensures own { result ≡ None → HaveOwnPlaces itself outputs.now }
    ensures unshared { result ≡ None → All (λ output. option_copied printed.entry ≢ Some output.now) outputs.now }
    ensures lost { IfSome result (λ found. IsLost itself (option_copied printed.entry) true read.now outputs.now) }
{
    let (output, others) = outputs.split_first()?;
    if is_any_lost(files, opening, read, *output) {
        return Some((*output, Use::Read));
    }
    if is_printed(printed, *output) {
        return Some((*output, Use::StandardOutput));
    }
    if is_among(others, *output) {
        return Some((*output, Use::Written));
    }
    find_lost(files, opening, printed, read, others)
}

/// Files with one more, which goes before the others.
fn put<'p>(files: &mut Vec<MemoryFile<'p>>, path: &'p str, bytes: Vec<u8>) -> Result<(), ErrorKind>
    ensures put { OnOk result (files.new.items ≡ record { path = path.entry; bytes = bytes } ∷ files.old.items) }
    ensures kept { OnErr result (files.new.items ≡ files.old.items) }
{
    match files.insert(0, MemoryFile { path, bytes }) {
        Ok(()) => Ok(()),
        Err(AllocFailed { .. }) => Err(ErrorKind::OutOfMemory),
    }
}

/// A queue of these bytes.
fn queue_of(alloc: Global, bytes: &[u8]) -> Result<VecDeque<u8>, ErrorKind>
    ensures { IfOk result (λ queue. queue.items ≡ bytes.now) }
{
    let mut queue = VecDeque::new(alloc);
    match queue.write_all(bytes) {
        Ok(()) => Ok(queue),
        Err(_) => Err(ErrorKind::OutOfMemory),
    }
}

/// A copy of the first bytes of a file.
fn copy_of(
    alloc: Global,
    files: &[MemoryFile<'_>],
    path: &str,
    most: usize,
) -> Result<Vec<u8>, ErrorKind>
    ensures { IfOk result (λ bytes. (whole : List ℕ) × (lookup files.now path.now ≡ Some whole) × (bytes.items ≡ take most whole)) }
{
    let Some(bytes) = find(files, path) else {
        return Err(ErrorKind::NotFound);
    };
    match Vec::from_slice(alloc, &bytes[..most.min(bytes.len())]) {
        Ok(bytes) => Ok(bytes),
        Err(_) => Err(ErrorKind::OutOfMemory),
    }
}

/// How many bytes of a capture are read: those of its file header, if these are refused, and else all.
fn read_len(whole: &[u8]) -> usize
    ensures { IsCaptureRead whole.now (take result whole.now) }
{
    let header = &whole[..HEADER_LEN.min(whole.len())];
    match header_of(header) {
        Ok(_) => whole.len(),
        Err(_) => HEADER_LEN,
    }
}

/// Opens the file at a path, if there is one, and notes that. If there is none, it can't be
/// read.
fn open_in<'p>(
    alloc: Global,
    files: &[MemoryFile<'_>],
    opened: &mut Vec<&'p str>,
    path: &'p str,
    reads: usize,
) -> Result<MemoryInput, ErrorKind>
    ensures bytes { IfOk result (λ input. (input.bytes.inner.items ≡ text_at (lookup files.now) path.entry.now) × (input.bytes.failures ≡ 0)) }
    ensures opened { OnOk result (opened.new.items ≡ opened.old.items ++ path.entry ∷ []) }
{
    let found = find(files, path);
    let reads = if found.is_some() { reads } else { 0 };
    let queue = queue_of(alloc, found.unwrap_or(&[]))?;
    match opened.push(path) {
        Ok(()) => Ok(MemoryInput {
            bytes: Counted::new(queue),
            reads,
        }),
        Err(_) => Err(ErrorKind::OutOfMemory),
    }
}

impl<'p> MemoryFiles<'p> {
    /// A copy of the first bytes of a file.
    fn copy(&mut self, path: &str, most: usize) -> Result<Vec<u8>, ErrorKind>
        ensures kept { self.new ≡ record self.old { endurance = self.new.endurance } }
        ensures bytes { IfOk result (λ bytes. (whole : List ℕ) × (lookup self.old.files.items path.now ≡ Some whole) × (bytes.items ≡ take most whole)) }
    {
        self.spend()?;
        copy_of(self.alloc, self.files.as_slice(), path, most)
    }

    /// Opens a file, which may be missing.
    fn open_late(&mut self, path: &'p str) -> Result<MemoryInput, ErrorKind>
        ensures files { self.new.files ≡ self.old.files }
        ensures printed { self.new.printed ≡ self.old.printed }
        ensures pending { self.new.pending ≡ self.old.pending }
        ensures bytes { IfOk result (λ input. (input.bytes.inner.items ≡ text_at (lookup self.old.files.items) path.entry.now) × (input.bytes.failures ≡ 0)) }
        ensures opened { OnOk result (self.new.opened.items ≡ self.old.opened.items ++ path.entry ∷ []) }
    {
        self.spend()?;
        open_in(
            self.alloc,
            self.files.as_slice(),
            &mut self.opened,
            path,
            self.endurance.reads,
        )
    }

    /// Opens a file that is there.
    fn open_found(&mut self, path: &'p str) -> Result<MemoryInput, ErrorKind>
        ensures files { self.new.files ≡ self.old.files }
        ensures printed { self.new.printed ≡ self.old.printed }
        ensures pending { self.new.pending ≡ self.old.pending }
        ensures bytes { IfOk result (λ input. lookup self.old.files.items path.entry.now ≡ Some input.bytes.inner.items) }
        ensures works { IfOk result (λ input. input.bytes.failures ≡ 0) }
        ensures opened { OnOk result (self.new.opened.items ≡ self.old.opened.items ++ path.entry ∷ []) }
    {
        if find(self.files.as_slice(), path).is_none() {
            return Err(ErrorKind::NotFound);
        }
        self.open_late(path)
    }

    /// Begins a file that is written.
    fn begin(&mut self, path: &'p str) -> Result<MemoryOutput<'p>, ErrorKind>
        ensures files { self.new.files ≡ self.old.files }
        ensures opened { self.new.opened ≡ self.old.opened }
        ensures printed { self.new.printed ≡ self.old.printed }
        ensures pending { OnOk result (self.new.pending ≡ self.old.pending + 1) }
        ensures unmade { OnErr result (self.new.pending ≡ self.old.pending) }
        ensures begun { IfOk result (λ output. (output.path ≡ path.entry) × (output.taken.inner.items ≡ []) × (output.taken.failures ≡ 0)) }
    {
        self.spend()?;
        if self.pending == usize::MAX {
            return Err(ErrorKind::OutOfMemory);
        }
        self.pending += 1;
        Ok(MemoryOutput {
            path,
            taken: Counted::new(Vec::new(self.alloc)),
            writes: self.endurance.writes,
        })
    }

    /// Makes a file of the bytes that it took, unless there are none.
    fn keep(&mut self, output: MemoryOutput<'p>) -> Result<(), ErrorKind>
        ensures printed { self.new.printed ≡ self.old.printed }
        ensures opened { self.new.opened ≡ self.old.opened }
        ensures denied { self.new.denied ≡ self.old.denied }
        ensures pending { self.new.pending ≡ self.old.pending }
        ensures spared { (p : List ℕ) → p ≢ output.entry.path.now → lookup self.new.files.items p ≡ lookup self.old.files.items p }
        ensures stored { OnOk result (StoresAt (lookup self.old.files.items) (lookup self.new.files.items) output.entry.path.now output.entry.taken.inner.items) }
        ensures begun { BeginsAt (lookup self.old.files.items) (lookup self.new.files.items) output.entry.path.now output.entry.taken.inner.items }
        ensures broke { output.entry.taken.failures ≢ 0 → self.new.failed ≡ true }
        ensures stays { self.old.failed ≡ true → self.new.failed ≡ true }
    {
        let MemoryOutput {
            path,
            taken,
            writes: _,
        } = output;
        let is_broken = taken.failures != 0;
        self.failed = self.failed || is_broken;
        self.spend()?;
        let bytes = taken.into_inner();
        if !bytes.is_empty() {
            put(&mut self.files, path, bytes)?;
        }
        if is_broken {
            Err(ErrorKind::Other)
        } else {
            Ok(())
        }
    }
}

impl<'p> FileStore<'p> for MemoryFiles<'p> {
    type Input = MemoryInput;

    type Output = MemoryOutput<'p>;

    ghost known = { true };

    ghost place = { λ _. itself };

    ghost text = { λ m. lookup m.files.items };

    ghost opened = { λ m. map (λ path. path.now) m.opened.items };

    ghost printed = { λ m. option_copied m.printed };

    ghost pending = { λ m. m.pending };

    ghost failed = { λ m. m.failed };

    ghost denied = { λ m. option_copied m.denied };

    fn check_apart(
        &mut self,
        opening: Opening,
        prints: bool,
        read: &[&'p str],
        outputs: &[&'p str],
    ) -> Result<(), PathFault<'p>> {
        let printed = printed_if(prints, self.printed);
        if let Err(kind) = self.spend() {
            let path = outputs.first().or(read.first()).copied().unwrap_or("");
            return Err(PathFault::Unknown(path, self.deny(path, kind)));
        }
        if let Some(path) = find_printed(self.files.as_slice(), opening, printed, read) {
            return Err(PathFault::Printed(path));
        }
        match find_lost(self.files.as_slice(), opening, printed, read, outputs) {
            Some((path, taken_for)) => Err(PathFault::Same(path, taken_for)),
            None => Ok(()),
        }
    }

    fn read(&mut self, path: &'p str, most: usize) -> io::Result<Vec<u8>> {
        match self.copy(path, most) {
            Ok(bytes) => Ok(bytes),
            Err(kind) => Err(self.deny(path, kind)),
        }
    }

    fn read_capture(&mut self, path: &'p str) -> io::Result<Vec<u8>> {
        let most = match find(self.files.as_slice(), path) {
            Some(whole) => read_len(whole),
            None => 0,
        };
        self.read(path, most)
    }

    fn open(&mut self, path: &'p str) -> io::Result<MemoryInput> {
        match self.open_found(path) {
            Ok(input) => Ok(input),
            Err(kind) => Err(self.deny(path, kind)),
        }
    }

    fn late(&mut self, path: &'p str) -> io::Result<MemoryInput> {
        match self.open_late(path) {
            Ok(input) => Ok(input),
            Err(kind) => Err(self.deny(path, kind)),
        }
    }

    fn done(&mut self, input: MemoryInput) -> FailureProbe<()> {
        self.failed = self.failed || input.bytes.failures != 0;
        FailureProbe::new(())
    }

    fn create(&mut self, path: &'p str) -> io::Result<MemoryOutput<'p>> {
        match self.begin(path) {
            Ok(output) => Ok(output),
            Err(kind) => Err(self.deny(path, kind)),
        }
    }

    fn close(&mut self, output: MemoryOutput<'p>) -> io::Result<()> {
        self.pending -= 1;
        match self.keep(output) {
            Ok(()) => Ok(()),
            Err(kind) => {
                self.failed = true;
                Err(io::Error::from(kind))
            }
        }
    }

    fn is_standard_output(&self, path: &'p str) -> bool {
        is_printed(self.printed, path)
    }
}
