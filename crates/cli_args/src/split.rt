//! The words of `bpftap split`, by `clap`.

use crate::arguments::Argument;
use crate::command_line::{order_of, unit_of};
use crate::subcommand::subcommand;
use clap::{ArgMatches, Command};
use savefile::{Order, Unit};
use std::alloc::{AllocError, Global};

/// What one call of `bpftap split` asks for.
#[derive(Drop)]
pub struct SplitWords<'a> {
    /// The path of LINES.
    pub lines: &'a str,
    /// The byte order of each OUT.
    pub order: Order,
    /// The unit of time of each OUT.
    pub unit: Unit,
    /// Whether JSON Lines are printed.
    pub json: bool,
    /// The paths of the captures, in order.
    pub inputs: Vec<&'a str>,
}

const SPLIT_EXAMPLES: &str =
    "LINES has a line SNAP OUT EXPRESSION for each capture to write: the snapshot length (0 means
262144), the path, and the filter, which may be empty. Each OUT is what cut would write for all IN,
one after the other, up to the first fault; each IN is read once. A packet that several lines
accept goes into each of their OUTs, and one that none accepts into none.

split prints a line OUT 67 of 253 for each: 67 of the 253 packets were written. With --json the
line is an object of JSON: {\"file\":\"OUT\",\"kept\":67,\"packets\":253}.

Examples:
  bpftap split examples/split/lines.txt examples/veth.pcap
  bpftap split examples/split/lines.txt examples/veth.pcap examples/veth-big-nano.pcap
  bpftap split --json examples/split/lines.txt examples/veth.pcap | jq .kept

Exit status: 0 clean; 1 bad usage, invalid input, or out of memory; 2 a torn or bad record, after
the packets before it; 3 a file or device failed.";

static ARGUMENTS: [Argument; 5] = [
    Argument::Order,
    Argument::Unit,
    Argument::Json,
    Argument::Path(
        "LINES",
        "File with a line SNAP OUT EXPRESSION for each capture to write",
    ),
    Argument::Paths(
        "IN",
        "Captures to read, in order: classic savefiles of Ethernet frames",
    ),
];

/// The subcommand.
pub fn split_usage<'a>(alloc: Global) -> Result<Command<'a>, AllocError> {
    subcommand(
        alloc,
        "split",
        "Write the packets of captures to several OUT, each with its own filter, in one pass",
        SPLIT_EXAMPLES,
        &ARGUMENTS,
    )
}

/// The words that were found, nothing if one is missing.
pub fn split_words<'a>(
    alloc: Global,
    matches: &ArgMatches<'a>,
) -> Result<Option<SplitWords<'a>>, AllocError> {
    let (Some(lines), Some(inputs)) = (matches.get_str("LINES"), matches.get_strs("IN")) else {
        return Ok(None);
    };
    Ok(Some(SplitWords {
        lines,
        order: order_of(matches),
        unit: unit_of(matches),
        json: matches.get_flag("json"),
        inputs: Vec::from_slice(alloc, inputs)?,
    }))
}
