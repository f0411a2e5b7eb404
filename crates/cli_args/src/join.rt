//! The words of `bpftap join`, by `clap`.

use crate::arguments::Argument;
use crate::subcommand::subcommand;
use clap::{ArgMatches, Command};
use std::alloc::{AllocError, Global};

/// What one call of `bpftap join` asks for.
#[derive(Clone, Copy, Debug)]
pub struct JoinWords<'a> {
    /// The path of LINES.
    pub lines: &'a str,
    /// The path of the capture that is written.
    pub output: &'a str,
}

const JOIN_EXAMPLES: &str =
    "LINES has the lines that cut --bytes printed, one for each part, sorted by
sort -t- -k1,1n -k2,2nr. OUT is then what one cut of the whole capture writes, byte for byte.

A part that ends inside a record, though the capture goes on, was parted at a wrong place. join
then prints each range FIRST-END that has to be cut in place of such a part and of what follows it,
writes nothing, and ends with 4. Cut these ranges, add their lines to LINES, sort, and join again.
A line whose part begins inside a part that is taken is passed over.

Examples:
  bpftap parts 2 examples/veth.pcap > ranges.txt
  while read range; do bpftap cut --bytes $range -s 0 examples/veth.pcap $range.pcap
  done < ranges.txt > lines.txt
  bpftap join lines.txt whole.pcap

Exit status: 0 clean; 1 bad usage, lines or parts that do not make a whole capture, or out of
memory; 2 the capture has a torn or bad record, and OUT the packets before it; 3 a file or device
failed; 4 ranges have to be cut again.";

static ARGUMENTS: [Argument; 2] = [
    Argument::Path(
        "LINES",
        "File with the lines of cut --bytes, sorted by where their parts begin",
    ),
    Argument::Path("OUT", "Capture to write, made once all lines are accepted"),
];

/// The subcommand.
pub fn join_usage<'a>(alloc: Global) -> Result<Command<'a>, AllocError> {
    subcommand(
        alloc,
        "join",
        "Put together what was cut of the parts of a capture",
        JOIN_EXAMPLES,
        &ARGUMENTS,
    )
}

/// The words that were found, nothing if one is missing.
pub fn join_words<'a>(matches: &ArgMatches<'a>) -> Option<JoinWords<'a>> {
    Some(JoinWords {
        lines: matches.get_str("LINES")?,
        output: matches.get_str("OUT")?,
    })
}
