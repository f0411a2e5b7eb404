//! Why a script is not played, and what became of one that was.

use crate::steps::Replayed;
use cli_files::paths::PathFault;
use cli_text::Status;
use line_text::LineFault;
use std::io;
use tap::Fault;
use tap_text::plan::StepsPlan;

/// Why nothing was played. The texts are kept for hints.
#[derive(Debug, Drop)]
pub enum StepsRefusal<'p> {
    /// The text of this file has more than [`MAX_TEXT`](cli_files::reading::MAX_TEXT) bytes.
    TextTooLong(&'p str),
    /// LISTENERS, whose text comes first, or SCRIPT has a bad line.
    Line(Vec<u8>, Vec<u8>, LineFault),
    /// There are more captures than a replay takes.
    TooMany,
    /// A file would be lost, or standard output goes to one that is read.
    Paths(PathFault<'p>),
    /// This file could not be read.
    File(&'p str, io::Error),
    NoMemory,
}

/// The texts of the files, and what LISTENERS and SCRIPT ask for.
#[derive(Drop)]
pub struct StepsInput {
    pub listeners: Vec<u8>,
    pub script: Vec<u8>,
    pub plan: StepsPlan,
    /// What was read of the captures, in order: each whole, or the 24 bytes of a file header that is refused.
    pub captures: Vec<Vec<u8>>,
}

/// Why a picture was not drawn whole.
#[derive(Debug, Drop)]
pub enum PictureFault {
    NoMemory,
    /// Its file could not be made or written, with the system's error if that is known.
    File(Option<io::Error>),
}

/// What became of a script that was played.
#[derive(Drop)]
pub struct StepsReport {
    pub input: StepsInput,
    /// The exit status of the replay and of what was printed.
    pub status: Status,
    /// The replay, or why there was none.
    pub replayed: Result<Replayed, Fault>,
    /// The picture as its file has it, if one was asked for and there was a replay.
    pub drawn: Result<Option<Vec<u8>>, PictureFault>,
}
