//! Files as a command sees them.

ghost use Rattle.std.specs.Prelude.{◌≡◌, ◌≢◌, ◌⊎◌, ℕ, ◌+◌, ◌<◌, List, [], ◌∷◌, ◌++◌, Bool, true, Option, Some, IfErr, IfOk, IfSome, IsTrue, ◌↔◌, OnErr, OnOk, All, take};
ghost use Rattle.cli_files.specs.Reading.{IsRefusedMemory};
ghost use Rattle.cli_store.specs.Files.{BeginsAt, HaveOwnPlaces, IsApart, IsCaptureRead, IsRefusal, IsUnprinted, Keeps, NamesDenied, StoresAt, text_at};

use cli_files::paths::{Opening, PathFault};
use cli_report::FailureProbe;
use savefile::{GatheringSink, Source};
use std::io;

/// The files that a command reads, and the one that it writes. A file is named by the place where
/// its path leads: two paths are one file if they lead to one place.
///
/// Contracts know the files if [`known`](FileStore) holds: those in memory, and not those of the
/// system. Over these a command is the same code, and what is said of its files rests on what
/// [`DiskFiles`](crate::DiskFiles) says.
pub trait FileStore<'p> {
    /// A file that is read. Who has opened one gives it back to [`FileStore::done`].
    type Input: Source + Drop;

    /// A file that is written. Who has made one gives it back to [`FileStore::close`]:
    /// [`pending`](FileStore) counts those that were not.
    type Output: GatheringSink + Drop;

    /// Whether contracts know the files.
    ghost known: { Bool };

    /// Where a path leads.
    ghost place: { Self → List ℕ → List ℕ };

    /// The bytes of the file at a place, if there is one.
    ghost text: { Self → List ℕ → Option (List ℕ) };

    /// The places of the files that were opened, in order.
    ghost opened: { Self → List (List ℕ) };

    /// The place of the file that standard output goes to, if it goes to one.
    ghost printed: { Self → Option (List ℕ) };

    /// How many files were made that are not closed yet.
    ghost pending: { Self → ℕ };

    /// Whether a file or a device failed.
    ghost failed: { Self → Bool };

    /// The place of the file that could not be read, opened or made last, if there was one.
    ghost denied: { Self → Option (List ℕ) };

    /// Checks that no file would be lost: no OUT is a file that is read, another OUT, or a file
    /// that a standard stream comes from or goes to. With `prints` standard output goes to no file
    /// that is read. With [`Opening::First`] a path that is read and leads to no file is skipped,
    /// since it can't be opened.
    fn check_apart(
        &mut self,
        opening: Opening,
        prints: bool,
        read: &[&'p str],
        outputs: &[&'p str],
    ) -> Result<(), PathFault<'p>>
        ensures kept { Keeps (place self.old) (place self.new) (text self.old) (text self.new) (pending self.old) (pending self.new) }
        ensures printed { printed self.new ≡ printed self.old }
        ensures opened { opened self.new ≡ opened self.old }
        ensures apart { known ≡ true → OnOk result (All (λ output. All (λ path. IsApart opening (place self.old) (text self.old) output.now path.now) read.now) outputs.now) }
        ensures own { known ≡ true → OnOk result (HaveOwnPlaces (place self.old) outputs.now) }
        ensures unprinted { known ≡ true → prints ≡ true → OnOk result (All (λ path. IsUnprinted opening (place self.old) (text self.old) (printed self.old) path.now) read.now) }
        ensures unshared { known ≡ true → prints ≡ true → OnOk result (All (λ output. printed self.old ≢ Some (place self.old output.now)) outputs.now) }
        ensures fault { known ≡ true → IfErr result (IsRefusal (place self.old) (printed self.old) (failed self.new) prints read.now outputs.now) }
        ensures denied { known ≡ true → IfErr result (NamesDenied (place self.old) (denied self.new)) };

    /// The first bytes of a file, at most `most`.
    fn read(&mut self, path: &'p str, most: usize) -> io::Result<Vec<u8>>
        ensures kept { Keeps (place self.old) (place self.new) (text self.old) (text self.new) (pending self.old) (pending self.new) }
        ensures printed { printed self.new ≡ printed self.old }
        ensures opened { opened self.new ≡ opened self.old }
        ensures bytes { known ≡ true → IfOk result (λ bytes. (whole : List ℕ) × (text self.old (place self.old path.now) ≡ Some whole) × (bytes.items ≡ take most whole)) }
        ensures failed { known ≡ true → IfErr result (λ error. IsRefusedMemory error ⊎ (failed self.new ≡ true)) }
        ensures denied { known ≡ true → IfErr result (λ error. IsRefusedMemory error ⊎ (denied self.new ≡ Some (place self.old path.now))) };

    /// A capture: the whole file, or its first 24 bytes if they are no file header of a capture. More than these is read only of a
    /// header that is right.
    fn read_capture(&mut self, path: &'p str) -> io::Result<Vec<u8>>
        ensures kept { Keeps (place self.old) (place self.new) (text self.old) (text self.new) (pending self.old) (pending self.new) }
        ensures printed { printed self.new ≡ printed self.old }
        ensures opened { opened self.new ≡ opened self.old }
        ensures bytes { known ≡ true → IfOk result (λ bytes. (whole : List ℕ) × (text self.old (place self.old path.now) ≡ Some whole) × IsCaptureRead whole bytes.items) }
        ensures failed { known ≡ true → IfErr result (λ error. IsRefusedMemory error ⊎ (failed self.new ≡ true)) }
        ensures denied { known ≡ true → IfErr result (λ error. IsRefusedMemory error ⊎ (denied self.new ≡ Some (place self.old path.now))) };

    /// Opens a file.
    fn open(&mut self, path: &'p str) -> io::Result<Self::Input>
        ensures kept { Keeps (place self.old) (place self.new) (text self.old) (text self.new) (pending self.old) (pending self.new) }
        ensures printed { printed self.new ≡ printed self.old }
        ensures opened { known ≡ true → OnOk result (opened self.new ≡ opened self.old ++ place self.old path.now ∷ []) }
        ensures bytes { known ≡ true → IfOk result (λ input. (Self.Input.left input ≡ text self.old (place self.old path.now))
            × ((bytes : List ℕ) × (text self.old (place self.old path.now) ≡ Some bytes))) }
        ensures works { known ≡ true → IfOk result (λ input. Self.Input.failures input ≡ 0) }
        ensures failed { known ≡ true → IfErr result (λ error. IsRefusedMemory error ⊎ (failed self.new ≡ true)) }
        ensures denied { known ≡ true → IfErr result (λ error. IsRefusedMemory error ⊎ (denied self.new ≡ Some (place self.old path.now))) };

    /// A file that is opened when it is read first. That it can't be opened shows only then, as a
    /// failure of what is read. The error is that memory ran out.
    fn late(&mut self, path: &'p str) -> io::Result<Self::Input>
        ensures kept { Keeps (place self.old) (place self.new) (text self.old) (text self.new) (pending self.old) (pending self.new) }
        ensures printed { printed self.new ≡ printed self.old }
        ensures opened { known ≡ true → OnOk result (opened self.new ≡ opened self.old ++ place self.old path.now ∷ []) }
        ensures bytes { known ≡ true → IfOk result (λ input. Self.Input.left input ≡ Some (text_at (text self.old) (place self.old path.now))) }
        ensures works { known ≡ true → IfOk result (λ input. Self.Input.failures input ≡ 0) }
        ensures failed { known ≡ true → IfErr result (λ error. IsRefusedMemory error ⊎ (failed self.new ≡ true)) }
        ensures denied { known ≡ true → IfErr result (λ error. IsRefusedMemory error ⊎ (denied self.new ≡ Some (place self.old path.now))) };

    /// Closes a file that was read, and returns what was noted of it.
    fn done(&mut self, input: Self::Input) -> FailureProbe<()>
        ensures kept { Keeps (place self.old) (place self.new) (text self.old) (text self.new) (pending self.old) (pending self.new) }
        ensures printed { printed self.new ≡ printed self.old }
        ensures failed { known ≡ true → Self.Input.failures input ≢ 0 → failed self.new ≡ true }
        ensures stays { known ≡ true → failed self.old ≡ true → failed self.new ≡ true }
        ensures denied { denied self.new ≡ denied self.old };

    /// A file that is made, or emptied, at its first byte. The error is that memory ran out.
    fn create(&mut self, path: &'p str) -> io::Result<Self::Output>
        requires apart { known ≡ true → All (λ read. read ≢ place self.old path.now) (opened self.old) }
        ensures places { place self.new ≡ place self.old }
        ensures opened { opened self.new ≡ opened self.old }
        ensures printed { printed self.new ≡ printed self.old }
        ensures texts { text self.new ≡ text self.old }
        ensures pending { known ≡ true → OnOk result (pending self.new ≡ pending self.old + 1) }
        ensures unmade { OnErr result (pending self.new ≡ pending self.old) }
        ensures named { known ≡ true → IfOk result (λ output. Self.Output.name output ≡ place self.old path.now) }
        ensures empty { known ≡ true → IfOk result (λ output. Self.Output.taken output ≡ Some []) }
        ensures works { known ≡ true → IfOk result (λ output. Self.Output.failures output ≡ 0) }
        ensures failed { known ≡ true → IfErr result (λ error. IsRefusedMemory error ⊎ (failed self.new ≡ true)) }
        ensures denied { known ≡ true → IfErr result (λ error. IsRefusedMemory error ⊎ (denied self.new ≡ Some (place self.old path.now))) };

    /// Hands on all that the file took, and closes it. The error is why that, or a write before,
    /// failed: the file then has a beginning of what it took, or is as it was.
    fn close(&mut self, output: Self::Output) -> io::Result<()>
        requires made { known ≡ true → 0 < pending self.old }
        ensures places { place self.new ≡ place self.old }
        ensures opened { opened self.new ≡ opened self.old }
        ensures printed { printed self.new ≡ printed self.old }
        ensures pending { known ≡ true → pending self.old ≡ pending self.new + 1 }
        ensures spared { known ≡ true → (p : List ℕ) → p ≢ Self.Output.name output → text self.new p ≡ text self.old p }
        ensures stored { known ≡ true → OnOk result (IfSome (Self.Output.taken output) (StoresAt (text self.old) (text self.new) (Self.Output.name output))) }
        ensures begun { known ≡ true → IfSome (Self.Output.taken output) (BeginsAt (text self.old) (text self.new) (Self.Output.name output)) }
        ensures failed { known ≡ true → IfErr result (λ _. failed self.new ≡ true) }
        ensures broke { known ≡ true → Self.Output.failures output ≢ 0 → failed self.new ≡ true }
        ensures stays { known ≡ true → failed self.old ≡ true → failed self.new ≡ true }
        ensures denied { denied self.new ≡ denied self.old };

    /// Whether a path leads to standard output, as `/dev/stdout` does.
    fn is_standard_output(&self, path: &'p str) -> bool
        ensures { known ≡ true → (IsTrue result ↔ (printed self.now ≡ Some (place self.now path.now))) };
}
