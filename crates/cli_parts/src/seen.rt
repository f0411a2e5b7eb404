//! A file that is looked through at places, and shows how far it is.

use cli_watch::{Screen, Watch};
use std::io;
use std::io::{Read, Seek, SeekFrom};

/// A file of which the bytes at some places are read, in order: how far these are is how far the command is.
#[derive(Drop)]
pub(crate) struct SeenFile<'w, 'r, R, F> {
    file: F,
    at: u64,
    watch: &'w Watch<'r, R>,
}

impl<'w, 'r, R: Screen, F> SeenFile<'w, 'r, R, F> {
    pub(crate) fn new(file: F, watch: &'w Watch<'r, R>) -> Self {
        SeenFile { file, at: 0, watch }
    }
}

impl<R: Screen, F: Read> Read for SeenFile<'_, '_, R, F> {
    fn read(&mut self, to: &mut [u8]) -> io::Result<usize> {
        self.file.read(to)
    }
}

impl<R: Screen, F: Seek> Seek for SeenFile<'_, '_, R, F> {
    fn seek(&mut self, to: SeekFrom) -> io::Result<u64> {
        let at = self.file.seek(to)?;
        self.watch.pass(at.saturating_sub(self.at) as usize);
        self.at = self.at.max(at);
        Ok(at)
    }
}
