//! A file that is read from any byte on.

ghost use Rattle.std.specs.Prelude.{◌≡◌, ℕ, List, Option, None, Some, IfOk, IfSome, take, drop};

use cli_files::retried::Retried;
use std::alloc::Global;
use std::io;
use std::io::{Read, Seek, SeekFrom};

/// A file that is read from any byte on. Contracts know the bytes of one in memory, and not those of the system's.
pub trait PlacedFile {
    /// What is read from a byte on.
    type Rest: Read + Drop;

    /// All bytes of the file, if contracts know them.
    ghost bytes: { Self → Option (List ℕ) } = { λ _. None };

    /// The first bytes, at most `most`.
    fn front(&mut self, alloc: Global, most: u64) -> io::Result<Vec<u8>>
        ensures kept { bytes self.new ≡ bytes self.old }
        ensures front { IfOk result (λ front. IfSome (bytes self.old) (λ whole. front.items ≡ take most whole)) };

    /// What the file has from a byte on.
    fn rest(self, first: u64) -> io::Result<Self::Rest>
        ensures { IfOk result (λ rest. IfSome (bytes self) (λ whole. Self.Rest.remaining rest ≡ Some (drop first whole))) };
}

/// A file of the system that is open.
#[derive(Drop)]
pub struct DiskFile<F> {
    file: F,
}

impl<F> DiskFile<F> {
    pub fn new(file: F) -> DiskFile<F>
        ensures { result.file ≡ file }
    {
        DiskFile { file }
    }
}

impl<F: Read + Seek + Drop> PlacedFile for DiskFile<F> {
    type Rest = Retried<F>;

    fn front(&mut self, alloc: Global, most: u64) -> io::Result<Vec<u8>> {
        self.file.seek(SeekFrom::Start(0))?;
        let mut front = Vec::new(alloc);
        Retried::new(&mut self.file)
            .take(most)
            .read_to_end(&mut front)?;
        Ok(front)
    }

    fn rest(self, first: u64) -> io::Result<Retried<F>> {
        let DiskFile { mut file } = self;
        file.seek(SeekFrom::Start(first))?;
        Ok(Retried::new(file))
    }
}

/// A file in memory, for tests.
impl<'a> PlacedFile for &'a [u8] {
    type Rest = &'a [u8];

    ghost bytes = { λ text. Some text.now };

    fn front(&mut self, alloc: Global, most: u64) -> io::Result<Vec<u8>> {
        let count = most.min(self.len() as u64) as usize;
        Ok(Vec::from_slice(alloc, &self[..count])?)
    }

    fn rest(self, first: u64) -> io::Result<&'a [u8]> {
        let first = first.min(self.len() as u64) as usize;
        Ok(&self[first..])
    }
}
