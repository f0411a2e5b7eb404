//! Steps of a replay.

/// A step of a replay. A listener is named by its place in the list of the listeners to open.
#[derive(Clone, Copy, Debug, PartialEq, Eq)]
pub enum Step {
    /// The next packet arrives at every listener; past the last packet nothing happens.
    Arrive,
    /// The listener makes its store the hold, if the hold is empty: the read timeout of bpf(4).
    Flush(u32),
    /// What the listener holds is read.
    Read(u32),
    /// The listener is closed: from now on it takes no packet and gives none.
    Close(u32),
}
