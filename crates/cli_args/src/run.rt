//! The words of `bpftap run`, by `clap`.

use crate::arguments::Argument;
use crate::subcommand::subcommand;
use clap::{ArgMatches, Command};
use std::alloc::{AllocError, Global};

/// What one call of `bpftap run` asks for.
#[derive(Drop)]
pub struct RunWords<'a> {
    /// The path of LISTENERS.
    pub listeners: &'a str,
    /// Whether JSON Lines are printed.
    pub json: bool,
    /// The paths of the captures of each interface, in order.
    pub inputs: Vec<Vec<&'a str>>,
}

/// The word after which the captures of the next interface begin.
const NEXT_INTERFACE: &str = "+";

const RUN_EXAMPLES: &str =
    "LISTENERS has a line INTERFACE FLUSH SNAP CAPACITY SPARES OUT EXPRESSION for each listener: the
number of its interface, from 0; after how many packets its store becomes readable (0: only when
it is full); the snapshot length (0 means 262144); the size in bytes of each of its buffers; how
many buffers go round between the listener and its writer, 1 to 64; the capture that it writes;
and its filter, which may be empty. An i after CAPACITY makes the listener Immediate: a packet
that is stored can be read at once.

+ separates the captures of one interface from the next. What a listener hands over is written to
its OUT as soon as its writer has nothing more to write, so an OUT can be followed: with FLUSH 1,
or with an i, packet by packet. Threads that wait for captures take no processor.

At the end run prints a line for each listener: how many packets it received, matched, dropped and
wrote, and Clean, Write B or Unfinished. With --json the line is an object of JSON, whose end is
clean, write (with the bytes of OUT) or unfinished.

Examples:
  bpftap run examples/run/listeners.txt examples/veth.pcap
  bpftap run examples/run/two.txt examples/veth.pcap + examples/veth-big-nano.pcap
  bpftap run --json examples/run/listeners.txt examples/veth.pcap | jq .dropped

Exit status: 0 clean; 1 bad usage, invalid input, an Unfinished listener, or out of memory; 2 a
torn or bad record, after the packets before it; 3 a file or device failed.";

static ARGUMENTS: [Argument; 3] = [
    Argument::Json,
    Argument::Path(
        "LISTENERS",
        "File with a line INTERFACE FLUSH SNAP CAPACITY SPARES OUT EXPRESSION per listener",
    ),
    Argument::Paths(
        "IN",
        "Captures to replay, in order; + separates one interface from the next",
    ),
];

/// The subcommand.
pub fn run_usage<'a>(alloc: Global) -> Result<Command<'a>, AllocError> {
    subcommand(
        alloc,
        "run",
        "Replay captures in threads to listeners, each of which writes a capture",
        RUN_EXAMPLES,
        &ARGUMENTS,
    )
}

/// Whether the captures of the next interface begin after a word.
fn is_next_interface(word: &&str) -> bool {
    *word == NEXT_INTERFACE
}

/// The paths of each interface.
fn by_interface<'a>(alloc: Global, words: &[&'a str]) -> Result<Vec<Vec<&'a str>>, AllocError> {
    let mut interfaces = Vec::new(alloc);
    for paths in words.split(is_next_interface) {
        interfaces.push(Vec::from_slice(alloc, paths)?)?;
    }
    Ok(interfaces)
}

/// The words that were found, nothing if one is missing.
pub fn run_words<'a>(
    alloc: Global,
    matches: &ArgMatches<'a>,
) -> Result<Option<RunWords<'a>>, AllocError> {
    let (Some(listeners), Some(inputs)) = (matches.get_str("LISTENERS"), matches.get_strs("IN"))
    else {
        return Ok(None);
    };
    Ok(Some(RunWords {
        listeners,
        json: matches.get_flag("json"),
        inputs: by_interface(alloc, inputs)?,
    }))
}
