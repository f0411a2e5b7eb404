//! The words of `bpftap explain`, by `clap`.

use crate::arguments::Argument;
use crate::counting::objection_to_bounds;
use crate::places::{PLACES_WANTED, PlaceRange, place_range};
use crate::snap::{SNAP_WANTED, snap_of};
use crate::subcommand::{bad_value, subcommand};
use clap::{ArgGroup, ArgMatches, Command, Error};
use std::alloc::{AllocError, Global};

/// What one call of `bpftap explain` asks for.
#[derive(Drop)]
pub struct ExplainWords<'a> {
    /// The snapshot length of an expression's program, 1 to [`savefile::MAX_SNAP`].
    pub snap: u32,
    /// The expression, if `-e` is given.
    pub expr: Option<&'a str>,
    /// The path of the listing, if `-f` is given.
    pub listing: Option<&'a str>,
    /// The places of the packets to explain in full, if `-p` is given.
    pub places: Option<PlaceRange>,
    /// Whether `-q` is given: nothing is printed, and the status says whether a packet is accepted.
    pub quiet: bool,
    /// Whether `--json` is given.
    pub json: bool,
    /// The paths of the captures, in order.
    pub inputs: Vec<&'a str>,
}

const EXPLAIN_EXAMPLES: &str = "Examples:
  bpftap explain -e 'tcp dst port 80 or 443' examples/veth.pcap
  bpftap explain -p 2 -e 'tcp dst port 80 or 443' examples/veth.pcap
  bpftap explain -p 2-4 -e 'tcp dst port 80 or 443' examples/veth.pcap
  tcpdump -y EN10MB -ddd 'udp port 53' | bpftap explain -f /dev/stdin examples/veth.pcap
  bpftap explain -c -e 'tcp port 80 or 8080' examples/*.pcap
  bpftap explain -q --exactly 120 -e 'tcp port 80 or 8080' examples/veth.pcap

explain prints a line for each packet: its place, time and lengths; Yes, No or Abort; and the
primitive or relation that decided, after not if one applies to it. Abort means that a test needed
a byte past the captured bytes, or a divisor was 0; not does not turn it. For a listing the line
has the number that the program returned, and the place and name of the instruction where its run
ended; -s applies to an expression, not to a listing. The counts come last. -p explains one packet
in full: how the expression was read, what each primitive looked at, and the program's run; with
-p FIRST-LAST those from one place to another, as far as IN has them. Places count from 0 in each
IN; tcpdump and Wireshark count packets from 1. Several IN are read in order, up to the first
fault, and the counts are of all; -p explains the packet at PLACE of each. With -q the first packet
that is accepted ends the reading, as with grep -q:
  if bpftap explain -q -e 'tcp port 8080' examples/veth.pcap; then echo seen; fi
-c prints only the counts: of each IN after its path, and of several IN, not of one, their sum last.
-l prints the paths of those IN that have an accepted packet. Both end at the first fault: to pass
over a torn IN, call them for each. --exactly, --at-least and --at-most ask how many packets of all
IN are accepted; then all IN are read.
With --json each packet is an object on a line of its own, and so are the counts; with -p the object
has what each primitive looked at, and the program's run:
  bpftap explain --json -e tcp examples/veth.pcap | jq -r '.answer // empty' | sort | uniq -c

Exit status: 0 clean, with -q and -l: a packet is accepted, with a bound: as many as it asks for; 1
bad usage, invalid input, no packet at PLACE, or out of memory; 2 a torn or bad record, after the
packets before it; 3 a file or device failed; 4 with -q and -l: no packet is accepted; with a bound,
whatever else is given: another number of them.";

/// A filter is wanted: an expression, a listing, or both.
fn filter_group<'a>(alloc: Global) -> Result<ArgGroup<'a>, AllocError> {
    ArgGroup::new(alloc, "filter")
        .required(true)
        .multiple(true)
        .arg("expr")?
        .arg("listing")
}

static ARGUMENTS: [Argument; 12] = [
    Argument::DefaultSnap,
    Argument::Text(
        "expr",
        'e',
        "EXPR",
        "Filter expression of pcap-filter(7), as one word; it may be empty",
    ),
    Argument::Listing,
    Argument::Number(
        "place",
        'p',
        "PLACE",
        "Explain only this packet, counted from 0, in full; FIRST-LAST is several",
    ),
    Argument::Flag(
        "counted",
        'c',
        "Print only the counts: of each IN after its path, and of several their sum",
    ),
    Argument::Flag(
        "listed",
        'l',
        "Print only the path of each IN that has an accepted packet",
    ),
    Argument::Quiet("Print nothing; status 0 if a packet is accepted, or as a bound says; else 4"),
    Argument::LongNumber(
        "exactly",
        "N",
        "With -q or -c: status 0 if N packets of all IN are accepted, else 4",
    ),
    Argument::LongNumber(
        "at-least",
        "N",
        "With -q or -c: the same of N packets or more",
    ),
    Argument::LongNumber(
        "at-most",
        "N",
        "With -q or -c: the same of N packets or fewer",
    ),
    Argument::Json,
    Argument::Paths(
        "IN",
        "Captures to read, in order: classic savefiles of Ethernet frames",
    ),
];

/// One packet in full, the counts, paths, or nothing but a status: at most one of these.
fn shown_group<'a>(alloc: Global) -> Result<ArgGroup<'a>, AllocError> {
    ArgGroup::new(alloc, "shown")
        .arg("place")?
        .arg("quiet")?
        .arg("counted")?
        .arg("listed")
}

/// The subcommand, of which no filter is wanted.
fn bare_command<'a>(alloc: Global) -> Result<Command<'a>, AllocError> {
    subcommand(
        alloc,
        "explain",
        "Say for each packet of IN whether the filter accepts it, and what decided",
        EXPLAIN_EXAMPLES,
        &ARGUMENTS,
    )
}

/// The subcommand.
pub fn explain_usage<'a>(alloc: Global) -> Result<Command<'a>, AllocError> {
    let filter = filter_group(alloc)?;
    let shown = shown_group(alloc)?;
    bare_command(alloc)?.group(filter)?.group(shown)
}

/// The places of packets, if they are given; `None` if they are invalid.
fn places_of(matches: &ArgMatches<'_>) -> Option<Option<PlaceRange>> {
    match matches.get_str("place") {
        Some(text) => Some(Some(place_range(text)?)),
        None => Some(None),
    }
}

/// The words that were found, `None` if one is missing, or if the snapshot length or the place is
/// invalid.
pub fn explain_words<'a>(
    alloc: Global,
    matches: &ArgMatches<'a>,
) -> Result<Option<ExplainWords<'a>>, AllocError> {
    let (Some(snap), Some(places)) = (snap_of(matches), places_of(matches)) else {
        return Ok(None);
    };
    let Some(inputs) = matches.get_strs("IN") else {
        return Ok(None);
    };
    Ok(Some(ExplainWords {
        snap,
        expr: matches.get_str("expr"),
        listing: matches.get_str("listing"),
        places,
        quiet: matches.get_flag("quiet"),
        json: matches.get_flag("json"),
        inputs: Vec::from_slice(alloc, inputs)?,
    }))
}

/// What a place, a bound or a snapshot length has to be that is invalid.
fn range_of_value(matches: &ArgMatches<'_>) -> &'static str {
    match places_of(matches) {
        Some(_) if snap_of(matches).is_some() => {
            objection_to_bounds(matches).unwrap_or(SNAP_WANTED)
        }
        Some(_) => SNAP_WANTED,
        None => PLACES_WANTED,
    }
}

/// The error of a snapshot length, a place or a bound that is invalid.
pub fn bad_explain_words(alloc: Global, matches: &ArgMatches<'_>) -> Result<Error, AllocError> {
    bad_value(
        explain_usage(alloc),
        "bpftap explain",
        range_of_value(matches),
    )
}
