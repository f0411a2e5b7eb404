//! When the store becomes the hold.

/// When a listener makes its store the hold.
#[derive(Clone, Copy, Debug, PartialEq, Eq)]
pub enum Mode {
    /// When a packet finds no room in the store, and at a flush.
    Buffered,
    /// Also directly after each packet that is stored while the hold is empty, so that it can be
    /// read at once. This mode is this project's own, and not BIOCIMMEDIATE of bpf(4).
    Immediate,
}
