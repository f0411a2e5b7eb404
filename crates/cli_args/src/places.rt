//! The places of packets, and ranges of bytes, as a word of the command line gives them.

use line_text::fields::number;

/// The places of packets from one to another, both included.
#[derive(Clone, Copy, Debug, PartialEq, Eq)]
pub struct PlaceRange {
    pub first: u64,
    /// At least `first`.
    pub last: u64,
}

/// A range of the bytes of a file: those from `first` on, up to the one before `end`.
#[derive(Clone, Copy, Debug, PartialEq, Eq)]
pub struct ByteRange {
    pub first: u64,
    /// At least `first`.
    pub end: u64,
}

/// What a place or a range of them is.
pub const PLACES_WANTED: &str =
    "-p takes a number from 0 to 18446744073709551615, or two with a - between, the lesser first";

/// The places that `PLACE` or `FIRST-LAST` names; `None` if it has neither form, or if LAST is
/// below FIRST.
pub fn place_range(text: &str) -> Option<PlaceRange> {
    match text.split_once('-') {
        Some((first, last)) => {
            let (first, last) = (place(first)?, place(last)?);
            (first <= last).then_some(PlaceRange { first, last })
        }
        None => {
            let first = place(text)?;
            Some(PlaceRange { first, last: first })
        }
    }
}

/// A place, or the number of a byte: below 2^64.
fn place(text: &str) -> Option<u64> {
    number(text.as_bytes(), u64::MAX)
}

/// The bytes that `FIRST-END` names, from FIRST up to the one before END; `None` if it lacks that
/// form, or if END is below FIRST.
pub fn byte_range(text: &str) -> Option<ByteRange> {
    let (first, end) = text.split_once('-')?;
    let (first, end) = (place(first)?, place(end)?);
    (first <= end).then_some(ByteRange { first, end })
}
