//! The snapshot length that `-s` gives.

use clap::ArgMatches;
use line_text::fields::snapshot_length;

/// What a snapshot length is.
pub(crate) const SNAP_WANTED: &str = "-s takes a number from 0 to 262144";

/// The snapshot length, `None` if it is invalid.
pub(crate) fn snap_of(matches: &ArgMatches<'_>) -> Option<u32> {
    snapshot_length(matches.get_str("snap")?.as_bytes())
}
