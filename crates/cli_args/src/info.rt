//! The words of `bpftap info`, by `clap`.

use crate::arguments::Argument;
use crate::subcommand::subcommand;
use clap::{ArgMatches, Command};
use std::alloc::{AllocError, Global};

/// What one call of `bpftap info` asks for.
#[derive(Drop)]
pub struct InfoWords<'a> {
    /// Whether JSON Lines are printed.
    pub json: bool,
    /// The paths of the captures, in order.
    pub inputs: Vec<&'a str>,
}

const INFO_EXAMPLES: &str =
    "info prints a line for each capture: how many packets it has, the sum of their lengths on the wire
and of what was captured, when the first and the last one were captured, how many frames are IPv4,
ARP, IPv6, have a VLAN tag, or are others, the header's byte order, unit of time and snapshot
length, and how it ends: Clean, or the fault and its place. A damaged capture is counted up to its
fault, and the next one is read.

Examples:
  bpftap info examples/veth.pcap
  bpftap info --json examples/*.pcap | jq .packets

Exit status: 0 if every capture is whole; 1 bad usage, a capture that is refused, or out of memory;
2 a torn or bad record; 3 a file or device failed.";

static ARGUMENTS: [Argument; 2] = [
    Argument::Json,
    Argument::Paths(
        "IN",
        "Captures to read: classic savefiles of Ethernet frames",
    ),
];

/// The subcommand.
pub fn info_usage<'a>(alloc: Global) -> Result<Command<'a>, AllocError> {
    subcommand(
        alloc,
        "info",
        "Print what each capture has, and whether it is whole",
        INFO_EXAMPLES,
        &ARGUMENTS,
    )
}

/// The words that were found, nothing if one is missing.
pub fn info_words<'a>(
    alloc: Global,
    matches: &ArgMatches<'a>,
) -> Result<Option<InfoWords<'a>>, AllocError> {
    let Some(inputs) = matches.get_strs("IN") else {
        return Ok(None);
    };
    Ok(Some(InfoWords {
        json: matches.get_flag("json"),
        inputs: Vec::from_slice(alloc, inputs)?,
    }))
}
