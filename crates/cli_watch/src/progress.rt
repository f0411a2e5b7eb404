//! How far the reading of captures is, in a line on the terminal.

use crate::screen::Screen;
use cli_files::retried::metadata;
use line_text::Line;
use std::fmt::{Display, Formatter};
use std::fs::Files;
use std::sync::atomic::Ordering::SeqCst;
use std::sync::atomic::{AtomicBool, AtomicU64, AtomicUsize};
use std::time::{Duration, Instant};
use std::{fmt, io, str};

/// How long a command reads before the line is drawn first.
const FIRST_MILLIS: u64 = 1_000;

/// How long a line stays at least before it is drawn anew.
const PERIOD_MILLIS: u64 = 500;

/// Units of a thousand each, of bytes: the greatest first.
static BYTE_UNITS: [(u64, &str); 4] = [
    (1_000_000_000_000, "TB"),
    (1_000_000_000, "GB"),
    (1_000_000, "MB"),
    (1_000, "kB"),
];

/// Units of a thousand each, of packets: the greatest first.
static PACKET_UNITS: [(u64, &str); 3] = [(1_000_000_000, " G"), (1_000_000, " M"), (1_000, " k")];

/// The greatest unit that a number reaches, if it reaches one.
fn unit_of(units: &[(u64, &'static str)], number: u64) -> Option<(u64, &'static str)> {
    units.iter().find(|unit| number >= unit.0).copied()
}

/// A number in a unit, with one decimal, rounded down.
#[derive(Clone, Copy, Drop)]
struct Tenths {
    number: u64,
    unit: u64,
}

impl Display for Tenths {
    fn fmt<W: fmt::Write>(&self, f: &mut Formatter<W>) -> fmt::Result {
        let tenths = self.number / (self.unit / 10).max(1);
        write!(f, "{}.{}", tenths / 10, tenths % 10)
    }
}

/// How far the reading is: `12.4 of 50.0 GB, 18 s, 3.1 M packets`, or without packets if none were
/// read.
#[derive(Clone, Copy, Debug, Drop, PartialEq, Eq)]
pub struct ProgressText {
    /// How many bytes were read.
    pub read: u64,
    /// How many bytes the captures have.
    pub total: u64,
    /// How many seconds it took.
    pub seconds: u64,
    /// How many packets were read.
    pub packets: u64,
}

impl Display for ProgressText {
    fn fmt<W: fmt::Write>(&self, f: &mut Formatter<W>) -> fmt::Result {
        let (unit, name) = unit_of(&BYTE_UNITS, self.total).unwrap_or((1_000, "kB"));
        let read = Tenths {
            number: self.read,
            unit,
        };
        let total = Tenths {
            number: self.total,
            unit,
        };
        write!(f, "{read} of {total} {name}, {} s", self.seconds)?;
        if self.packets == 0 {
            return Ok(());
        }
        match unit_of(&PACKET_UNITS, self.packets) {
            Some((unit, name)) => {
                let packets = Tenths {
                    number: self.packets,
                    unit,
                };
                write!(f, ", {packets}{name} packets")
            }
            None => write!(f, ", {} packets", self.packets),
        }
    }
}

/// Prints as this many blanks.
#[derive(Clone, Copy, Drop)]
struct Blanks(usize);

impl Display for Blanks {
    fn fmt<W: fmt::Write>(&self, f: &mut Formatter<W>) -> fmt::Result {
        for _ in 0..self.0 {
            f.write_char(' ')?;
        }
        Ok(())
    }
}

/// A line that is put over one of `width` characters. The next text begins where it does.
fn line_over(text: &[u8], width: usize) -> io::Result<Line> {
    let shown = str::from_utf8(text).unwrap_or("");
    let mut line = Line::new();
    write!(
        line,
        "\r{shown}{}\r",
        Blanks(width.saturating_sub(text.len()))
    )?;
    Ok(line)
}

/// The line of a command that reads regular files, maybe in several threads.
#[derive(Drop)]
pub(crate) struct Progress {
    total: u64,
    start: Instant,
    read: AtomicU64,
    /// How many milliseconds after the start it was drawn last.
    drawn: AtomicU64,
    /// How many characters are on the screen.
    width: AtomicUsize,
    /// Whether standard output is a terminal.
    is_output_shown: bool,
    /// Whether it is drawn no more.
    is_over: AtomicBool,
}

/// A time in milliseconds, up to 2^64 - 1.
fn millis_of(time: Duration) -> u64 {
    time.as_secs()
        .saturating_mul(1_000)
        .saturating_add(u64::from(time.subsec_millis()))
}

/// How many bytes the files at these paths have, if all are regular.
fn total_size<R: Files>(rt: &R, paths: &[&str]) -> Option<u64> {
    let mut total: u64 = 0;
    for path in paths {
        let Ok(metadata) = metadata(rt, *path) else {
            return None;
        };
        if !metadata.is_file() {
            return None;
        }
        total = total.saturating_add(metadata.len());
    }
    Some(total)
}

impl Progress {
    /// Of a command that begins to read these captures now; nothing if standard error is no
    /// terminal, or not all are regular files.
    pub(crate) fn new<R: Files + Screen>(rt: &R, paths: &[&str]) -> Option<Progress> {
        if !rt.is_error_terminal() {
            return None;
        }
        let total = total_size(rt, paths)?;
        let start = Instant::now(rt).ok()?;
        Some(Progress {
            total,
            start,
            read: AtomicU64::new(0),
            drawn: AtomicU64::new(0),
            width: AtomicUsize::new(0),
            is_output_shown: rt.is_output_terminal(),
            is_over: AtomicBool::new(false),
        })
    }

    /// Whether it is time to draw the line, `millis` milliseconds after the start. Of several
    /// threads that ask, one gets a yes.
    fn is_due(&self, millis: u64) -> bool {
        let drawn = self.drawn.load(SeqCst);
        millis >= FIRST_MILLIS
            && millis.saturating_sub(drawn) >= PERIOD_MILLIS
            && !self.is_over.load(SeqCst)
            && self
                .drawn
                .compare_exchange(drawn, millis, SeqCst, SeqCst)
                .is_ok()
    }

    /// Adds `count` to the bytes that were read, and draws the line if it is time to. `packets`
    /// were read so far.
    pub(crate) fn advance<R: Screen>(&self, rt: &R, count: usize, packets: u64) {
        self.read.fetch_add(count as u64, SeqCst);
        if let Ok(elapsed) = self.start.elapsed(rt) {
            if self.is_due(millis_of(elapsed)) {
                self.draw(rt, elapsed.as_secs(), packets);
            }
        }
    }

    fn draw<R: Screen>(&self, rt: &R, seconds: u64, packets: u64) {
        let text = ProgressText {
            read: self.read.load(SeqCst),
            total: self.total,
            seconds,
            packets,
        };
        let mut shown = Line::new();
        if write!(shown, "{text}").is_ok() {
            self.put(rt, shown.as_bytes());
        }
    }

    /// Puts a text in place of what is on the screen.
    fn put<R: Screen>(&self, rt: &R, text: &[u8]) {
        let width = self.width.swap(text.len(), SeqCst);
        if let Ok(line) = line_over(text, width) {
            rt.show(line.as_bytes());
        }
    }

    /// Erases the line, if it is on the screen.
    pub(crate) fn erase<R: Screen>(&self, rt: &R) {
        if self.width.load(SeqCst) > 0 {
            self.put(rt, b"");
        }
    }

    /// Makes room for a text on standard output. If that is a terminal, the line is erased for
    /// good, since the text may end in the midst of a line.
    pub(crate) fn give_way<R: Screen>(&self, rt: &R) {
        if self.is_output_shown {
            self.erase(rt);
            self.is_over.store(true, SeqCst);
        }
    }
}
