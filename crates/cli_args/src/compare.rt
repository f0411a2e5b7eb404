//! The words of `bpftap compare`, by `clap`.

use crate::arguments::Argument;
use crate::snap::{SNAP_WANTED, snap_of};
use crate::subcommand::{bad_value, subcommand};
use clap::{ArgMatches, Command, Error};
use std::alloc::{AllocError, Global};

/// What one call of `bpftap compare` asks for.
#[derive(Drop)]
pub struct CompareWords<'a> {
    /// The snapshot length of an expression's program, 1 to [`savefile::MAX_SNAP`].
    pub snap: u32,
    /// The first expression.
    pub first: &'a str,
    /// The second expression, if `-f` is not given.
    pub second: Option<&'a str>,
    /// The path of the listing, if `-f` is given.
    pub listing: Option<&'a str>,
    /// Whether `-q` is given: nothing is printed, and the status says whether a packet is treated
    /// differently.
    pub quiet: bool,
    /// Whether `--json` is given.
    pub json: bool,
    /// The path that a packet which shows the difference is written to, if `-w` is given. There are
    /// no captures then.
    pub output: Option<&'a str>,
    /// The paths of the captures, in order. Without any, the filters are decided for every packet.
    pub inputs: Vec<&'a str>,
}

const COMPARE_USAGE: &str = "bpftap compare [-s N] [-q] [--json] <EXPR1> <EXPR2> <IN>...
       bpftap compare [-s N] [-q] [--json] -f <LISTING> <EXPR1> <IN>...
       bpftap compare [-s N] [-q] [--json] [-w <OUT>] <EXPR1> <EXPR2>
       bpftap compare [-s N] [-q] [--json] [-w <OUT>] -f <LISTING> <EXPR1>";

const COMPARE_EXAMPLES: &str = "Examples:
  bpftap compare 'tcp port 80' 'tcp dst port 80' examples/veth.pcap
  tcpdump -y EN10MB -ddd 'port 53' | bpftap compare -f /dev/stdin 'port 53' examples/veth.pcap
  bpftap compare -q 'port 80 or 443' 'port 443 or 80' examples/veth.pcap && echo the same here
  bpftap compare 'tcp' 'ip proto 6' && echo the same on every packet there can be

For each packet that one filter accepts and the other does not, a line is printed with its place,
time and lengths, and what each filter answers and why, as explain prints it. No and Abort are the
same here: both reject the packet. How many bytes of a packet a program keeps is not compared. At
the end are the counts. Places count from 0 in each capture. With -q the first such packet ends
the reading. An expression that begins with - is written in parentheses. EXPR1 is read first.

Without IN both filters are decided for every packet. compare prints one of these:
  same                                      on every packet, of every length
  same as captured                          if no more bytes were captured than were on the wire
  differ only where one aborts              one is Yes where the frame is too short for the other,
                                            if no more bytes were captured than were on the wire
  differ                                    one is Yes and the other No
  not decided: CAUSE                        nothing is claimed
If they differ, a packet that shows it follows: its lengths, both answers, and its bytes. -w writes
it to OUT, for bpftap explain -p 0 -e EXPR1 OUT.

With --json each packet is an object on a line of its own, and so are the counts. Without IN there
is one object, which has the answer, and the packet that shows the difference with its bytes:
  bpftap compare --json 'tcp' 'ip proto 17' | jq -r .answer

Exit status: 0 all was read, with -q: no packet is treated differently; without IN: the same, or
the same as captured; 1 bad usage, a refused expression, file or listing, or out of memory; 2 a
torn or bad record, after the packets before it; 3 a file or device failed; 4 with -q: a packet is
treated differently; without IN: they differ, also only where one aborts; 5 not decided.";

static ARGUMENTS: [Argument; 8] = [
    Argument::DefaultSnap,
    Argument::Listing,
    Argument::Quiet("Print nothing; end with status 0 if no packet is treated differently, else 4"),
    Argument::Text(
        "output",
        'w',
        "OUT",
        "Without IN: write a packet that shows the difference, if there is one",
    ),
    Argument::Json,
    Argument::Path(
        "EXPR1",
        "First filter: an expression of pcap-filter(7), as one word",
    ),
    Argument::Optional(
        "EXPR2",
        "Second filter: an expression; with -f this is an IN",
    ),
    Argument::Others(
        "IN",
        "Captures to read, in order: classic savefiles of Ethernet frames; none: every packet",
    ),
];

/// The subcommand.
pub fn compare_usage<'a>(alloc: Global) -> Result<Command<'a>, AllocError> {
    let command = subcommand(
        alloc,
        "compare",
        "Print the packets that two filters treat differently: of captures, or of all there can be",
        COMPARE_EXAMPLES,
        &ARGUMENTS,
    )?;
    Ok(command.override_usage(COMPARE_USAGE))
}

/// The paths of the captures: with a listing the second word is the first of them.
fn inputs_of<'a>(
    alloc: Global,
    is_path: bool,
    second: Option<&'a str>,
    others: &[&'a str],
) -> Result<Vec<&'a str>, AllocError> {
    let mut inputs = Vec::with_capacity(alloc, others.len().saturating_add(1))?;
    if let (true, Some(path)) = (is_path, second) {
        inputs.push(path)?;
    }
    inputs.extend_from_slice(others)?;
    Ok(inputs)
}

/// Why words that `clap` took are none of `compare`.
#[derive(Clone, Copy)]
enum Objection {
    Snap,
    Filters,
    Output,
}

impl Objection {
    /// What is wanted instead.
    fn wanted(self) -> &'static str {
        match self {
            Objection::Snap => SNAP_WANTED,
            Objection::Filters => "compare takes EXPR1, and EXPR2 or -f LISTING",
            Objection::Output => "-w OUT goes without IN",
        }
    }
}

/// The words that were found, `None` if one is missing, if the snapshot length is none, or if `-w`
/// comes with captures.
pub fn compare_words<'a>(
    alloc: Global,
    matches: &ArgMatches<'a>,
) -> Result<Option<CompareWords<'a>>, AllocError> {
    let (Some(snap), Some(first)) = (snap_of(matches), matches.get_str("EXPR1")) else {
        return Ok(None);
    };
    if objection_of(matches).is_some() {
        return Ok(None);
    }
    let listing = matches.get_str("listing");
    let second = matches.get_str("EXPR2");
    let others = matches.get_strs("IN").unwrap_or(&[]);
    Ok(Some(CompareWords {
        snap,
        first,
        second: if listing.is_some() { None } else { second },
        listing,
        quiet: matches.get_flag("quiet"),
        json: matches.get_flag("json"),
        output: matches.get_str("output"),
        inputs: inputs_of(alloc, listing.is_some(), second, others)?,
    }))
}

/// What is wrong with words that `clap` took, if anything is.
fn objection_of(matches: &ArgMatches<'_>) -> Option<Objection> {
    let is_path = matches.get_str("listing").is_some();
    let second = matches.get_str("EXPR2").is_some();
    let others = !matches.get_strs("IN").unwrap_or(&[]).is_empty();
    let is_over_captures = others || is_path && second;
    if snap_of(matches).is_none() {
        Some(Objection::Snap)
    } else if !is_path && !second {
        Some(Objection::Filters)
    } else if is_over_captures && matches.get_str("output").is_some() {
        Some(Objection::Output)
    } else {
        None
    }
}

/// The error of a snapshot length that has more than digits, or of words that do not go together.
pub fn bad_compare_words(alloc: Global, matches: &ArgMatches<'_>) -> Result<Error, AllocError> {
    let wanted = match objection_of(matches) {
        Some(objection) => objection.wanted(),
        None => Objection::Filters.wanted(),
    };
    bad_value(compare_usage(alloc), "bpftap compare", wanted)
}
