//! The words of `bpftap steps`, by `clap`.

use crate::arguments::Argument;
use crate::subcommand::subcommand;
use clap::{ArgMatches, Command};
use std::alloc::{AllocError, Global};

/// What one call of `bpftap steps` asks for.
#[derive(Drop)]
pub struct StepsWords<'a> {
    /// Whether each answer is explained.
    pub explained: bool,
    /// The path of the picture, if `-p` is given.
    pub picture: Option<&'a str>,
    /// Whether JSON Lines are printed.
    pub json: bool,
    /// The path of LISTENERS.
    pub listeners: &'a str,
    /// The path of SCRIPT.
    pub script: &'a str,
    /// The paths of the captures, in order.
    pub inputs: Vec<&'a str>,
}

const STEPS_EXAMPLES: &str =
    "LISTENERS has a line SNAP CAPACITY EXPRESSION for each listener: the snapshot length (0 means
262144), the size in bytes of each of its two buffers, and its filter. An i after CAPACITY makes
the listener Immediate: a packet that is stored can be read at once, if nothing is held.

SCRIPT has a line for each step: arrive, flush L, read L or close L. Listeners and packets are
counted from 0.

Examples:
  bpftap steps examples/steps/listeners.txt examples/steps/script.txt examples/veth.pcap
  bpftap steps -v examples/steps/listeners.txt examples/steps/script.txt examples/veth.pcap
  bpftap steps -p out.svg examples/steps/listeners.txt examples/steps/script.txt examples/veth.pcap

Exit status: 0 clean; 1 bad usage, invalid input, or out of memory; 2 a torn or bad record, after
the reports; 3 a file or device failed.";

static ARGUMENTS: [Argument; 6] = [
    Argument::Flag(
        "explained",
        'v',
        "Print each step's answers first, with the reasons",
    ),
    Argument::Text(
        "picture",
        'p',
        "FILE",
        "Draw what each step found in the buffers to FILE, as SVG",
    ),
    Argument::Json,
    Argument::Path(
        "LISTENERS",
        "File with a line SNAP CAPACITY EXPRESSION for each listener",
    ),
    Argument::Path(
        "SCRIPT",
        "File with a line for each step: arrive, flush L, read L or close L",
    ),
    Argument::Paths(
        "IN",
        "Captures to replay, in order: classic savefiles of Ethernet frames",
    ),
];

/// The subcommand.
pub fn steps_usage<'a>(alloc: Global) -> Result<Command<'a>, AllocError> {
    subcommand(
        alloc,
        "steps",
        "Play a script to listeners over captures, and report what each has read and holds",
        STEPS_EXAMPLES,
        &ARGUMENTS,
    )
}

/// The words that were found, nothing if one is missing.
pub fn steps_words<'a>(
    alloc: Global,
    matches: &ArgMatches<'a>,
) -> Result<Option<StepsWords<'a>>, AllocError> {
    let (Some(listeners), Some(script), Some(inputs)) = (
        matches.get_str("LISTENERS"),
        matches.get_str("SCRIPT"),
        matches.get_strs("IN"),
    ) else {
        return Ok(None);
    };
    Ok(Some(StepsWords {
        explained: matches.get_flag("explained"),
        picture: matches.get_str("picture"),
        json: matches.get_flag("json"),
        listeners,
        script,
        inputs: Vec::from_slice(alloc, inputs)?,
    }))
}
