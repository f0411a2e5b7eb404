//! Why a cut is not begun, and how one ended.

ghost use Rattle.std.specs.Prelude.{◌≡◌, true};
ghost use Rattle.savefile.specs.declared.fault.Fault.TheVariants.{Device};
ghost use Rattle.pcap_cut.specs.declared.cut.End.TheVariants.{Output};
ghost use Rattle.cli_cut.specs.Reporting.{IsGone};

use cli_files::paths::PathFault;
use cli_filter::FilterFault;
use cli_report::FailureProbe;
use cli_report::probe::{ProbedInput, ProbedOutput};
use cli_text::Status;
use pcap_cut::cut::{CutEnd, End, Tally};
use savefile::Fault;
use std::io;
use std::io::{ErrorKind, Write};

/// Why nothing was cut.
#[derive(Debug, Drop)]
pub enum Refusal<'p> {
    /// There is no filter. The text of the listing is kept for a hint.
    Filter(Option<Vec<u8>>, FilterFault),
    /// The text of this LISTING has more than [`MAX_TEXT`](cli_files::reading::MAX_TEXT) bytes.
    TextTooLong(&'p str),
    /// A file would be lost.
    Paths(PathFault<'p>),
    /// This file could not be read, opened or made.
    File(&'p str, io::Error),
    NoMemory,
}

/// How a cut ended that was begun.
#[derive(Debug, Drop)]
pub struct CutReport {
    pub end: End,
    /// How many packets were read and written, if the capture was read to its end or to a torn or
    /// bad record, and all was written.
    pub tally: Tally,
    /// What was noted of IN.
    pub noted: FailureProbe<()>,
    /// Why OUT was not written whole, if its device failed.
    pub unwritten: Option<io::Error>,
}

impl CutReport {
    /// How a cut ended over files whose failures were noted.
    pub(crate) fn of<R: Drop, W: Write + Drop>(
        end: CutEnd<ProbedInput<R>, ProbedOutput<W>>,
    ) -> CutReport
        ensures end { result.end ≡ end.end }
        ensures tally { result.tally ≡ end.tally }
    {
        CutReport {
            end: end.end,
            tally: end.tally,
            noted: end.source.into_inner().into_notes(),
            unwritten: end.sink.inner.get_ref().failure(),
        }
    }

    /// Whether it failed since OUT is a pipe that nobody reads any more.
    pub(crate) fn is_unread(&self) -> bool
        ensures { result ≡ true → (self.now.end ≡ Output Device) × IsGone self.now.unwritten }
    {
        match (self.end, &self.unwritten) {
            (End::Output(Fault::Device), Some(error)) => error.kind() == ErrorKind::BrokenPipe,
            _ => false,
        }
    }
}

/// A call of `bpftap cut` that was reported.
#[derive(Clone, Copy, Debug, PartialEq, Eq)]
pub struct Reported {
    pub status: Status,
    /// Whether what OUT has is known by packets, as `-c` counts them: the captures were read to
    /// their ends or up to a fault, and all was written.
    pub is_counted: bool,
}

/// What a call of `bpftap cut` came to.
#[derive(Debug, Drop)]
pub enum CutOutcome<'p> {
    Refused(Refusal<'p>),
    Ended(CutReport),
}
