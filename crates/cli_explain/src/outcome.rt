//! What packets of `bpftap explain` in full came to.

use cli_text::Status;

/// What printing packets of one capture in full came to.
#[derive(Clone, Copy, Debug)]
pub struct FullEnd {
    pub status: Status,
    /// Whether the next capture is read.
    pub goes_on: bool,
}
