//! Why a split is not begun, and how one ended.

ghost use Rattle.std.specs.Prelude.{◌≡◌};
ghost use Rattle.cli_split.specs.declared.outcome.Refusal.TheVariants.{NoMemory};

use crate::part::PartEnd;
use crate::plan::SplitLine;
use crate::split::SplitEnd;
use cli_files::paths::PathFault;
use cli_filter::plan::PlanFault;
use cli_report::probe::ProbedInput;
use std::alloc::{AllocError, AllocFailed};
use std::io;

/// Why nothing was split.
#[derive(Debug, Drop)]
pub enum Refusal<'p> {
    /// The text of LINES is refused.
    Lines(&'p [u8], PlanFault),
    /// The text of LINES, at this path, has more than [`MAX_TEXT`](cli_files::reading::MAX_TEXT) bytes.
    TextTooLong(&'p str),
    /// A file would be lost.
    Paths(PathFault<'p>),
    /// This file could not be read, or none could be made.
    File(&'p str, io::Error),
    NoMemory,
}

impl From<AllocError> for Refusal<'_> {
    ghost from_gives = { λ _ refusal. refusal ≡ NoMemory };

    fn from(_e: AllocError) -> Self {
        Refusal::NoMemory
    }
}

impl<T: Drop> From<AllocFailed<T>> for Refusal<'_> {
    ghost from_gives = { λ _ refusal. refusal ≡ NoMemory };

    fn from(_e: AllocFailed<T>) -> Self {
        Refusal::NoMemory
    }
}

/// A part whose OUT is closed. In place of the sink stands why that could not be written or closed.
pub type ClosedPart = PartEnd<Option<io::Error>>;

/// A split whose files are closed, with what was noted of each capture.
pub type ClosedEnd = SplitEnd<ProbedInput<()>, Option<io::Error>>;

/// What was split.
#[derive(Drop)]
pub struct SplitReport<'p> {
    /// The text of LINES.
    pub text: &'p [u8],
    /// What LINES asks for.
    pub lines: Vec<SplitLine<'p>>,
    pub end: ClosedEnd,
    /// A line with room for that of each OUT.
    pub line: String,
}

/// What a call of `bpftap split` came to.
#[derive(Drop)]
pub enum SplitOutcome<'p> {
    Refused(Refusal<'p>),
    Ended(SplitReport<'p>),
}
