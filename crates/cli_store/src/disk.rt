//! Files of the system, over std. Contracts know nothing of them: this is the part that is trusted.

ghost use Rattle.std.specs.Prelude.{◌≡◌, ℕ, List, Option, true, false, [], None};
ghost use Rattle.cli_store.specs.Files.{Keeps};

use crate::store::FileStore;
use cli_files::captures::with_buffer;
use cli_files::late::{LateFile, LateInput};
use cli_files::paths::{Opening, PathFault, STANDARD_OUTPUT, check_shared_files};
use cli_files::retried::{Retried, metadata};
use cli_report::FailureProbe;
use cli_report::probe::ProbedOutput;
use cli_watch::captures::WatchedInput;
use cli_watch::{Screen, Watch};
use savefile::{Counted, HEADER_LEN, header_of};
use std::fs::Files;
use std::io::{Read, Write};
use std::os::unix::fs::MetadataExt;
use std::{fs, io};

/// How many bytes of an output are gathered before they are written, if nothing else is asked.
const OUTPUT_BUFFER: usize = 1 << 18;

/// Whether a path leads to standard output, as `/dev/stdout` does.
pub fn is_standard_output<R: Files>(rt: &R, path: &str) -> bool {
    match (metadata(rt, path), metadata(rt, STANDARD_OUTPUT)) {
        (Ok(found), Ok(printed)) => { found.dev() == printed.dev() && found.ino() == printed.ino() }
        _ => false,
    }
}

/// The files of the system. Those that are read are watched.
#[derive(Drop)]
pub struct DiskFiles<'w, 'r, R> {
    rt: &'r R,
    watch: &'w Watch<'r, R>,
    gathered: usize,
}

impl<'w, 'r, R> DiskFiles<'w, 'r, R> {
    pub fn new(rt: &'r R, watch: &'w Watch<'r, R>) -> DiskFiles<'w, 'r, R> {
        DiskFiles {
            rt,
            watch,
            gathered: OUTPUT_BUFFER,
        }
    }

    /// The same files, but `gathered` bytes of each output are gathered before they are written.
    pub fn gathering(self, gathered: usize) -> DiskFiles<'w, 'r, R> {
        DiskFiles { gathered, ..self }
    }
}

impl<'p, 'w, 'r, R: Files + AllocGlobal + Screen> FileStore<'p> for DiskFiles<'w, 'r, R> {
    type Input = WatchedInput<'w, 'r, 'p, R>;

    type Output = ProbedOutput<LateFile<'r, 'p, R>>;

    ghost known = { false };

    ghost place = { λ _ path. path };

    ghost text = { λ _ _. None };

    ghost opened = { λ _. [] };

    ghost printed = { λ _. None };

    ghost pending = { λ _. 0 };

    ghost failed = { λ _. false };

    ghost denied = { λ _. None };

    fn check_apart(
        &mut self,
        opening: Opening,
        prints: bool,
        read: &[&'p str],
        outputs: &[&'p str],
    ) -> Result<(), PathFault<'p>> {
        let printed = prints.then_some(STANDARD_OUTPUT);
        check_shared_files(self.rt, opening, printed, read, outputs)
    }

    fn read(&mut self, path: &'p str, most: usize) -> io::Result<Vec<u8>> {
        let mut text = Vec::new(self.rt.alloc());
        let mut file = Retried::new(fs::open(self.rt, path)?).take(most as u64);
        file.read_to_end(&mut text)?;
        Ok(text)
    }

    fn read_capture(&mut self, path: &'p str) -> io::Result<Vec<u8>> {
        let mut text = Vec::new(self.rt.alloc());
        let mut file = Retried::new(fs::open(self.rt, path)?).take(HEADER_LEN as u64);
        file.read_to_end(&mut text)?;
        if header_of(text.as_slice()).is_ok() {
            file.into_inner().read_to_end(&mut text)?;
        }
        Ok(text)
    }

    fn open(&mut self, path: &'p str) -> io::Result<Self::Input> {
        let file = LateInput::opened(self.rt, path)?;
        Ok(Counted::new(FailureProbe::new(self.watch.watched(file))))
    }

    fn late(&mut self, path: &'p str) -> io::Result<Self::Input> {
        let file = LateInput::new(self.rt, path);
        Ok(Counted::new(FailureProbe::new(self.watch.watched(file))))
    }

    /// The line of the progress is erased, before anything is reported of the file.
    fn done(&mut self, input: WatchedInput<'w, 'r, 'p, R>) -> FailureProbe<()>
        ensures kept { Keeps (λ path. path) (λ path. path) (λ _. None) (λ _. None) 0 0 }
        ensures printed { let none : Option (List ℕ) = None in none ≡ none }
        ensures failed { false ≡ true → true ≡ true }
        ensures stays { false ≡ true → true ≡ true }
        ensures denied { let none : Option (List ℕ) = None in none ≡ none }
    {
        self.watch.erase();
        input.into_inner().into_notes()
    }

    fn create(&mut self, path: &'p str) -> io::Result<Self::Output> {
        let late = FailureProbe::new(LateFile::new(self.rt, path));
        with_buffer(self.rt.alloc(), self.gathered, late)
    }

    fn close(&mut self, mut output: Self::Output) -> io::Result<()> {
        match output.inner.flush() {
            Ok(()) => Ok(()),
            Err(error) => Err(output.inner.get_ref().failure().unwrap_or(error)),
        }
    }

    fn is_standard_output(&self, path: &'p str) -> bool {
        is_standard_output(self.rt, path)
    }
}
