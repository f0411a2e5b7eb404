//! Why `bpftap compare` wrote no packet, before it is reported.

use std::io;

/// Why OUT has no packet.
#[derive(Debug, Drop)]
pub enum OutFault {
    /// OUT could not be made.
    Unmade(io::Error),
    /// The packet has more bytes than a capture takes, or writing it failed, and why.
    Unwritten(Option<io::Error>),
}
