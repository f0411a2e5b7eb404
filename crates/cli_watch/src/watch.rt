//! What is seen of captures while a command reads them.

use crate::frames::{FrameCounts, FrameWalk};
use crate::progress::Progress;
use crate::screen::Screen;
use std::fs::Files;
use std::io;
use std::io::Read;
use std::sync::atomic::AtomicU64;
use std::sync::atomic::Ordering::SeqCst;

/// What is seen of the captures that a command reads, maybe in several threads: their frames, and
/// how far the reading is.
#[derive(Drop)]
pub struct Watch<'r, R> {
    rt: &'r R,
    /// Whether the frames of the captures are counted.
    is_counting: bool,
    frames: AtomicU64,
    unseen: AtomicU64,
    progress: Option<Progress>,
}

impl<'r, R: Files + Screen> Watch<'r, R> {
    /// For a command that begins to read the captures at these paths. The progress is shown if that
    /// is wanted, standard error is a terminal and all captures are regular files; else nothing is
    /// watched.
    pub fn new(rt: &'r R, paths: &[&str], is_wanted: bool) -> Watch<'r, R> {
        let progress = if is_wanted {
            Progress::new(rt, paths)
        } else {
            None
        };
        Watch {
            rt,
            is_counting: progress.is_some(),
            frames: AtomicU64::new(0),
            unseen: AtomicU64::new(0),
            progress,
        }
    }

    /// The same, whose frames are counted too if that is wanted, whether the progress is shown or
    /// not.
    pub fn counting(self, is_wanted: bool) -> Watch<'r, R> {
        Watch {
            is_counting: self.is_counting || is_wanted,
            ..self
        }
    }
}

impl<'r, R: Screen> Watch<'r, R> {
    /// A capture that is watched while it is read.
    pub fn watched<T>(&self, inner: T) -> WatchedReader<'_, 'r, R, T> {
        WatchedReader {
            inner,
            walk: self.is_counting.then_some(FrameWalk::new()),
            watch: self,
        }
    }

    /// How many frames came whole of all captures, up to the first bad record of each.
    pub fn frames(&self) -> FrameCounts {
        FrameCounts {
            frames: self.frames.load(SeqCst),
            unseen: self.unseen.load(SeqCst),
        }
    }

    /// Notes that `count` bytes were read, in which these frames end.
    fn note(&self, count: usize, frames: FrameCounts) {
        self.frames.fetch_add(frames.frames, SeqCst);
        self.unseen.fetch_add(frames.unseen, SeqCst);
        if let Some(progress) = &self.progress {
            progress.advance(self.rt, count, self.frames.load(SeqCst));
        }
    }

    /// Notes that a command which seeks in a capture came this many bytes further.
    pub fn pass(&self, count: usize) {
        self.note(count, FrameCounts::NONE);
    }

    /// Erases the line of the progress, if there is one on the screen. It is called before anything
    /// is written to standard error.
    pub fn erase(&self) {
        if let Some(progress) = &self.progress {
            progress.erase(self.rt);
        }
    }

    /// Makes room for a text on standard output.
    pub(crate) fn give_way(&self) {
        if let Some(progress) = &self.progress {
            progress.give_way(self.rt);
        }
    }
}

/// A reader of a capture that is watched. It gives what the reader inside gives.
#[derive(Drop)]
pub struct WatchedReader<'w, 'r, R, T> {
    inner: T,
    walk: Option<FrameWalk>,
    watch: &'w Watch<'r, R>,
}

impl<R: Screen, T: Read> Read for WatchedReader<'_, '_, R, T> {
    ghost remaining = { λ watched. T.remaining watched.inner };

    fn read(&mut self, to: &mut [u8]) -> io::Result<usize> {
        let read = self.inner.read(to);
        if let (Ok(count), Some(walk)) = (&read, &mut self.walk) {
            self.watch.note(*count, walk.pass(&to[..*count]));
        }
        read
    }
}
