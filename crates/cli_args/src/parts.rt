//! The words of `bpftap parts`, by `clap`.

use crate::arguments::Argument;
use crate::subcommand::{bad_value, subcommand};
use clap::{ArgMatches, Command, Error};
use line_text::fields::number;
use std::alloc::{AllocError, Global};

/// What one call of `bpftap parts` asks for.
#[derive(Clone, Copy, Debug)]
pub struct PartsWords<'a> {
    /// How many parts are wanted, 1 to [`MAX_PARTS`].
    pub count: u64,
    /// Whether JSON Lines are printed.
    pub json: bool,
    /// The path of the capture.
    pub input: &'a str,
}

/// How many parts there are at most.
pub const MAX_PARTS: u64 = 1_000_000;

/// What the number of parts is.
const COUNT_WANTED: &str = "N is a number from 1 to 1000000";

const PARTS_EXAMPLES: &str =
    "parts prints a line FIRST-END for each part of IN, in order: the bytes from FIRST up to the one
before END. Cut each by cut --bytes, in any order, on any machine, and put the cuts together by
join. IN is a regular file that does not change meanwhile.

Where a record begins is guessed: where plausible records follow each other. A wrong guess costs
time and no packet, since join finds it. There may be fewer parts than N: 1024 at most, or one for
each 64 KiB of IN.

Examples:
  bpftap parts 4 examples/veth.pcap
  bpftap parts --json 4 examples/veth.pcap | jq .first

Exit status: 0 clean; 1 bad usage, a capture that is refused, or out of memory; 3 a file or device
failed.";

static ARGUMENTS: [Argument; 3] = [
    Argument::Json,
    Argument::Path("N", "How many parts, 1 to 1000000"),
    Argument::Path(
        "IN",
        "Capture to part: a classic savefile of Ethernet frames, in a regular file",
    ),
];

/// The subcommand.
pub fn parts_usage<'a>(alloc: Global) -> Result<Command<'a>, AllocError> {
    subcommand(
        alloc,
        "parts",
        "Print ranges of the bytes of a capture, to cut each apart",
        PARTS_EXAMPLES,
        &ARGUMENTS,
    )
}

/// The words that were found, nothing if one is missing or the number is invalid.
pub fn parts_words<'a>(matches: &ArgMatches<'a>) -> Option<PartsWords<'a>> {
    let count = number(matches.get_str("N")?.as_bytes(), MAX_PARTS)?;
    if count == 0 {
        return None;
    }
    Some(PartsWords {
        count,
        json: matches.get_flag("json"),
        input: matches.get_str("IN")?,
    })
}

/// The error of a number of parts that is none.
pub fn bad_parts_words(alloc: Global) -> Result<Error, AllocError> {
    bad_value(parts_usage(alloc), "bpftap parts", COUNT_WANTED)
}
