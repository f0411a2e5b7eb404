//! The files that the cuts of parts were written to.

ghost use Rattle.std.specs.Prelude.{◌≡◌, ℕ, List, Bool, true, Option, IfOk, IsSome};

use savefile::Source;

/// The files that the cuts of parts were written to.
///
/// Contracts know their bytes if [`known`](PartFiles) holds: those in memory, and not those of the
/// system.
pub trait PartFiles {
    /// A file that is open.
    type File: Source + Drop;

    /// Why a file can't be opened or read.
    type Failure: Drop;

    /// Whether contracts know the files.
    ghost known: { Bool };

    /// The bytes of the file at a path, if there is one.
    ghost text: { Self → List ℕ → Option (List ℕ) };

    /// Opens a file.
    fn open(&self, path: &str) -> Result<Self::File, Self::Failure>
        ensures bytes { known ≡ true → IfOk result (λ file. Self.File.left file ≡ text self.now path.now) }
        ensures there { known ≡ true → IfOk result (λ file. IsSome (text self.now path.now)) };

    /// Closes a file whose reading failed, and returns why it did.
    fn failure(&self, file: Self::File) -> Self::Failure;
}
