//! Hints on captures that are refused.

ghost use Rattle.std.specs.Prelude.{◌≡◌, false};

use crate::stream::{HintSink, give_hint};
use byteorder::{BigEndian, ByteOrder, LittleEndian};
use savefile::Fault;
use std::fmt::{Display, Formatter};
use std::io::Write;
use std::{fmt, io};

/// What to do with a capture that is no savefile.
const ANOTHER_FORMAT: &str =
    "this is another capture format: convert it with editcap -F nsecpcap IN OUT";

/// What files of other formats begin with, and what to do with them.
static OTHER_FORMATS: [(&[u8], &str); 8] = [
    (
        &[0x0a, 0x0d, 0x0d, 0x0a],
        "this is pcapng: convert it with editcap -F nsecpcap IN OUT, and see docs/RECIPES.md if it has several link types",
    ),
    (
        &[0x1f, 0x8b],
        "this is compressed: unpack it with gzip -dc IN, into a file or to /dev/stdin",
    ),
    (
        &[0x28, 0xb5, 0x2f, 0xfd],
        "this is compressed: unpack it with zstd -dc IN, into a file or to /dev/stdin",
    ),
    (
        &[0xfd, b'7', b'z', b'X', b'Z'],
        "this is compressed: unpack it with xz -dc IN, into a file or to /dev/stdin",
    ),
    (
        b"BZh",
        "this is compressed: unpack it with bzip2 -dc IN, into a file or to /dev/stdin",
    ),
    (&[0x34, 0xcd, 0xb2, 0xa1], ANOTHER_FORMAT),
    (&[0xa1, 0xb2, 0xcd, 0x34], ANOTHER_FORMAT),
    (b"snoop\0", ANOTHER_FORMAT),
];

/// What a file is that begins with some bytes, and what to do with it.
fn other_format(first: &[u8]) -> Option<&'static str> {
    for (beginning, format) in OTHER_FORMATS.iter() {
        if first.starts_with(*beginning) {
            return Some(*format);
        }
    }
    None
}

/// What a savefile begins with, in either byte order, of microseconds and of nanoseconds.
static SAVEFILES: [[u8; 4]; 4] = [
    [0xd4, 0xc3, 0xb2, 0xa1],
    [0xa1, 0xb2, 0xc3, 0xd4],
    [0x4d, 0x3c, 0xb2, 0xa1],
    [0xa1, 0xb2, 0x3c, 0x4d],
];

/// Whether a text begins as a capture does.
pub fn is_capture(text: &[u8]) -> bool {
    SAVEFILES
        .iter()
        .any(|beginning| text.starts_with(beginning.as_slice()))
}

/// Bytes as hexadecimal numbers, the first four of them.
#[derive(Drop)]
struct Hex<'a>(&'a [u8]);

impl Display for Hex<'_> {
    fn fmt<W: fmt::Write>(&self, f: &mut Formatter<W>) -> fmt::Result {
        for byte in self.0.iter().take(4) {
            write!(f, " {byte:02x}")?;
        }
        Ok(())
    }
}

/// Whether the numbers of a header have their highest byte first.
fn is_big(header: &[u8; 24]) -> bool {
    header[0] == 0xa1
}

/// The number of the link type, with the further bits of its field.
fn link_type(header: &[u8; 24]) -> u32 {
    let field = &header[20..24];
    if is_big(header) {
        BigEndian::read_u32(field)
    } else {
        LittleEndian::read_u32(field)
    }
}

/// The name of a common link type.
fn link_name(number: u32) -> &'static str {
    match number {
        0 | 108 => " (BSD loopback)",
        12 | 14 | 101 => " (raw IP)",
        105 | 127 => " (wireless)",
        113 | 276 => " (Linux cooked, as from the interface `any`)",
        _ => "",
    }
}

/// Whether frames of a link type can be written as those of Ethernet.
fn is_cooked(number: u32) -> bool {
    matches!(number, 0 | 12 | 14 | 101 | 108 | 113 | 276)
}

fn hint_link_type<E: HintSink>(header: &[u8; 24], err: &mut E)
    ensures quiet { E.takes_hints err.old ≡ false → err.new ≡ err.old }
{
    let number = link_type(header);
    if number % 65_536 == 1 {
        return give_hint(
            "link type 1 (Ethernet) with a frame check sequence, which is not supported",
            err,
        );
    }
    give_hint(
        format_args!(
            "link type {number}{}; only Ethernet (1) is supported",
            link_name(number)
        ),
        err,
    );
    give_hint(
        "capture on an Ethernet interface, as with tcpdump -i eth0 -w OUT",
        err,
    );
    if is_cooked(number) {
        give_hint(
            "one that you have: python3 examples/python/cooked.py IN OUT",
            err,
        );
    }
}

fn hint_version<E: HintSink>(header: &[u8; 24], err: &mut E)
    ensures quiet { E.takes_hints err.old ≡ false → err.new ≡ err.old }
{
    let (major, minor) = if is_big(header) {
        (
            BigEndian::read_u16(&header[4..6]),
            BigEndian::read_u16(&header[6..8]),
        )
    } else {
        (
            LittleEndian::read_u16(&header[4..6]),
            LittleEndian::read_u16(&header[6..8]),
        )
    };
    give_hint(
        format_args!(
            "version {major}.{minor}; only 2.4 is supported: convert it with editcap -F nsecpcap IN OUT"
        ),
        err,
    )
}

fn hint_not_savefile<E: HintSink>(first: &[u8], err: &mut E)
    ensures quiet { E.takes_hints err.old ≡ false → err.new ≡ err.old }
{
    match other_format(first) {
        Some(format) => give_hint(format, err),
        None => give_hint(
            format_args!("not a classic pcap file: it starts with{}", Hex(first)),
            err,
        ),
    }
}

/// Whether the magic number of a header says that fractions of a second are nanoseconds.
fn has_nanos(header: &[u8; 24]) -> bool {
    header[0] == 0x4d || header[3] == 0x4d
}

/// A hint on a record whose fraction of a second is too great for the unit of its header.
fn hint_bad_fraction<E: HintSink>(header: &[u8; 24], err: &mut E)
    ensures quiet { E.takes_hints err.old ≡ false → err.new ≡ err.old }
{
    give_hint(
        if has_nanos(header) {
            "its fraction of a second is above 999999999: the file is damaged"
        } else {
            "its fraction of a second is above 999999: the file is damaged, or it has nanoseconds and the magic number of microseconds"
        },
        err,
    )
}

/// Hints on the fault of a capture, from its first bytes: the 24 of a header, or fewer if the
/// capture is shorter.
pub fn hint_capture_fault<E: HintSink>(first: &[u8], fault: Fault, err: &mut E)
    ensures quiet { E.takes_hints err.old ≡ false → err.new ≡ err.old }
{
    match (fault, first.first_chunk::<24>()) {
        (Fault::NotSavefile, _) => hint_not_savefile(first, err),
        (Fault::ShortHeader, _) => give_hint(
            format_args!(
                "it has {} bytes; the header of a capture has 24",
                first.len()
            ),
            err,
        ),
        (Fault::LinkType, Some(header)) => hint_link_type(header, err),
        (Fault::Version, Some(header)) => hint_version(header, err),
        (Fault::TornRecord(_), _) => give_hint(
            "the file ends inside this record: was it cut off, or is it still being written?",
            err,
        ),
        (Fault::BadFraction(_), Some(header)) => hint_bad_fraction(header, err),
        (Fault::TooLong(_), _) => give_hint(
            "it has more than 262144 captured bytes: the file is damaged from this record on",
            err,
        ),
        _ => {}
    }
}
