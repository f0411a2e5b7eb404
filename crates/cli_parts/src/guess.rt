//! Where a record of a file may begin.

use cli_files::retried::Retried;
use pcap_parts::start::record_start;
use savefile::Header;
use std::alloc::Global;
use std::io;
use std::io::{Read, Seek, SeekFrom};

/// How many bytes are looked through first, and how many if no record seems to begin in these. Eight of the longest records fit into the latter.
static WINDOWS: [u64; 2] = [WINDOW, 1 << 22];

/// How many bytes are looked through first.
pub(crate) const WINDOW: u64 = 1 << 16;

/// In how many bytes no record seems to begin, if none is found: a record is looked for in the front half.
pub(crate) const LOOKED_THROUGH: u64 = 1 << 21;

/// The bytes of a file from a place on, up to this number.
fn bytes_at<F: Read + Seek>(
    alloc: Global,
    file: &mut F,
    at: u64,
    count: u64,
) -> io::Result<Vec<u8>> {
    file.seek(SeekFrom::Start(at))?;
    let mut bytes = Vec::new(alloc);
    Retried::new(file).take(count).read_to_end(&mut bytes)?;
    Ok(bytes)
}

/// The first place from this one on at which a record seems to begin; `None` if none does soon.
pub(crate) fn start_after<F: Read + Seek>(
    alloc: Global,
    file: &mut F,
    header: Header,
    at: u64,
) -> io::Result<Option<u64>> {
    for window in WINDOWS.iter() {
        let bytes = bytes_at(alloc, file, at, *window)?;
        if let Some(start) = record_start(header, bytes.as_slice()) {
            return Ok(Some(at.saturating_add(start as u64)));
        }
    }
    Ok(None)
}
