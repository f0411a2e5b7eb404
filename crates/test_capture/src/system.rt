//! A made system, whose descriptors are numbers, whose files break, and whose calls a signal
//! breaks.

use std::alloc::Allocator;
use std::fs::{Files, Metadata, OpenFile, OpenOptions};
use std::io;
use std::io::{ErrorKind, Read, Seek, SeekFrom, Write};
use std::sync::atomic::Ordering::SeqCst;
use std::sync::atomic::{AtomicBool, AtomicU32};

/// Enough for the standard streams, and a few files.
const DESCRIPTORS: u32 = 8;

/// What `in.pcap` has: a header, and 7 bytes of a record's.
pub const TORN: &[u8] =
    b"\xd4\xc3\xb2\xa1\x02\0\x04\0\0\0\0\0\0\0\0\0\0\0\x04\0\x01\0\0\0\x02\0\0\0\0\0\0";

/// Which descriptors are taken, a bit for each, and which one OUT was given; whether the system
/// says what is at a path; how many of the next calls that make or write a file are refused,
/// whether the one that is refused answers that it took nothing, and how many calls there were.
#[derive(Drop)]
pub struct Table {
    taken: AtomicU32,
    pub output: AtomicU32,
    pub is_told: AtomicBool,
    pub refused: AtomicU32,
    pub takes_nothing: AtomicBool,
    pub calls: AtomicU32,
}

/// No descriptor.
pub const NONE: u32 = u32::MAX;

impl Table {
    /// The table with these descriptors taken.
    pub fn new(open: [bool; 3]) -> Table {
        let [input, output, error] = open;
        let taken = u32::from(input) | u32::from(output) << 1 | u32::from(error) << 2;
        Table {
            taken: AtomicU32::new(taken),
            output: AtomicU32::new(NONE),
            is_told: AtomicBool::new(true),
            refused: AtomicU32::new(0),
            takes_nothing: AtomicBool::new(false),
            calls: AtomicU32::new(0),
        }
    }

    /// Counts a call, and refuses it if one is to be refused still.
    fn call(&self) -> io::Result<()> {
        self.calls.fetch_add(1, SeqCst);
        let Some(refused) = self.refused.load(SeqCst).checked_sub(1) else {
            return Ok(());
        };
        self.refused.store(refused, SeqCst);
        Err(io::Error::from(ErrorKind::Other))
    }

    /// The first descriptor that is free.
    fn free(&self) -> Option<u32> {
        let free = self.taken.load(SeqCst).trailing_ones();
        (free < DESCRIPTORS).then_some(free)
    }

    fn set(&self, number: u32, taken: bool) {
        let bit = 1u32.checked_shl(number).unwrap_or(0);
        let others = self.taken.load(SeqCst) & !bit;
        self.taken
            .store(if taken { others | bit } else { others }, SeqCst);
    }
}

/// The made system.
#[derive(Drop)]
pub struct System<'a> {
    pub table: &'a Table,
}

/// A file of it, whose descriptor is free again when it is dropped. A signal interrupts its calls
/// in turn, the first one too.
pub struct Numbered<'a> {
    number: u32,
    table: &'a Table,
    left: &'static [u8],
    is_broken_off: bool,
}

impl Numbered<'_> {
    /// Breaks off each call but every second one.
    fn turn(&mut self) -> io::Result<()> {
        self.is_broken_off = !self.is_broken_off;
        if self.is_broken_off {
            Err(io::Error::from(ErrorKind::Interrupted))
        } else {
            Ok(())
        }
    }
}

impl Drop for Numbered<'_> {
    fn drop(self) {
        let Numbered {
            number,
            table,
            left: _,
            is_broken_off: _,
        } = self;
        table.set(number, false);
    }
}

impl Read for Numbered<'_> {
    fn read(&mut self, buf: &mut [u8]) -> io::Result<usize> {
        self.turn()?;
        self.left.read(buf)
    }
}

impl Write for Numbered<'_> {
    fn write(&mut self, buf: &[u8]) -> io::Result<usize> {
        self.turn()?;
        match self.table.call() {
            Ok(()) => Ok(buf.len()),
            Err(_) if self.table.takes_nothing.load(SeqCst) => Ok(0),
            Err(error) => Err(error),
        }
    }

    fn flush(&mut self) -> io::Result<()> {
        Ok(())
    }
}

impl Seek for Numbered<'_> {
    fn seek(&mut self, _pos: SeekFrom) -> io::Result<u64> {
        Err(io::Error::from(ErrorKind::Unsupported))
    }
}

impl OpenFile for Numbered<'_> {
    fn metadata(&self) -> io::Result<Metadata> {
        Err(io::Error::from(ErrorKind::Unsupported))
    }

    fn set_len(&self, _size: u64) -> io::Result<()> {
        Ok(())
    }

    fn sync_all(&self) -> io::Result<()> {
        Ok(())
    }

    fn sync_data(&self) -> io::Result<()> {
        Ok(())
    }
}

impl<'a> Files for System<'a> {
    type File = Numbered<'a>;

    type Dir = &'static [u8];

    fn open_file(&self, _how: &OpenOptions, path: &str) -> io::Result<Numbered<'a>> {
        let table = self.table;
        let Some(number) = table.free() else {
            return Err(io::Error::from(ErrorKind::Other));
        };
        let left = if path == "in.pcap" { TORN } else { b"" };
        if path == "/" {
            table.call()?;
        }
        if path == "out.pcap" {
            table.call()?;
            table.output.store(number, SeqCst);
        }
        table.set(number, true);
        Ok(Numbered {
            number,
            table,
            left,
            is_broken_off: false,
        })
    }

    fn open_dir(&self, _path: &str) -> io::Result<&'static [u8]> {
        Err(io::Error::from(ErrorKind::Unsupported))
    }

    fn metadata(&self, _path: &str) -> io::Result<Metadata> {
        if self.table.is_told.load(SeqCst) {
            Err(io::Error::from(ErrorKind::NotFound))
        } else {
            Err(io::Error::from(ErrorKind::Other))
        }
    }

    fn symlink_metadata(&self, _path: &str) -> io::Result<Metadata> {
        Err(io::Error::from(ErrorKind::NotFound))
    }

    fn copy(&self, _from: &str, _to: &str) -> io::Result<u64> {
        Err(io::Error::from(ErrorKind::Unsupported))
    }

    fn rename(&self, _from: &str, _to: &str) -> io::Result<()> {
        Err(io::Error::from(ErrorKind::Unsupported))
    }

    fn remove_file(&self, _path: &str) -> io::Result<()> {
        Err(io::Error::from(ErrorKind::Unsupported))
    }

    fn create_dir(&self, _path: &str) -> io::Result<()> {
        Err(io::Error::from(ErrorKind::Unsupported))
    }

    fn remove_dir(&self, _path: &str) -> io::Result<()> {
        Err(io::Error::from(ErrorKind::Unsupported))
    }

    fn remove_dir_all<B: Allocator>(&self, _alloc: B, _path: &str) -> io::Result<()> {
        Err(io::Error::from(ErrorKind::Unsupported))
    }
}
