//! The words of `bpftap cut`, by `clap`.

use crate::arguments::Argument;
use crate::command_line::{order_of, unit_of};
use crate::places::{ByteRange, byte_range};
use crate::snap::{SNAP_WANTED, snap_of};
use crate::subcommand::{subcommand, usage_error};
use clap::error::ErrorKind;
use clap::{ArgMatches, Command, Error};
use savefile::{Order, Unit};
use std::alloc::{AllocError, Global};

/// What one call of `bpftap cut` asks for.
#[derive(Drop)]
pub struct CutWords<'a> {
    /// The snapshot length, 1 to [`savefile::MAX_SNAP`].
    pub snap: u32,
    /// The path of the listing, if `-f` is given.
    pub listing: Option<&'a str>,
    /// The expression, if `-e` is given.
    pub expr: Option<&'a str>,
    pub order: Order,
    pub unit: Unit,
    /// Whether the packets are counted on standard error.
    pub counted: bool,
    /// Whether the counts and faults are printed as JSON.
    pub json: bool,
    /// The range of bytes of the only IN, if `--bytes` is given.
    pub bytes: Option<ByteRange>,
    /// The paths of the captures that are read, in order.
    pub inputs: Vec<&'a str>,
    /// The path of the capture that is written.
    pub output: &'a str,
}

const CUT_USAGE: &str = "bpftap cut [OPTIONS] -s <N> <IN> <OUT>
       bpftap cut [OPTIONS] -s <N> -w <OUT> <IN>...";

const CUT_EXAMPLES: &str = "Examples:
  bpftap cut -s 0 -e 'udp port 5353' examples/veth.pcap dns.pcap
  bpftap cut -s 0 -f examples/ip.bpf examples/veth.pcap ip.pcap
  bpftap cut -s 64 examples/veth.pcap headers.pcap     # the first 64 bytes of every packet
  bpftap cut -s 0 -e arp -w arp.pcap examples/veth.pcap examples/veth-big-nano.pcap

OUT is the word after IN, or that of -w. Several IN take -w: three words without it are refused. Two
are IN and OUT, so with names from the shell, as *.pcap, always write -w. Several IN are read in
order, up to the first fault; -c counts the packets of all. -u micro cuts nanoseconds off, and -u
nano keeps them. -e and -f exclude each other. Write an expression that begins with - in
parentheses, or after -e=, as in -e='-1 + len > 60'.

Exit status: 0 clean; 1 bad usage, invalid input, or out of memory; 2 a torn or bad record, after
the packets before it; 3 a file or device failed.";

static ARGUMENTS: [Argument; 11] = [
    Argument::Snap,
    Argument::Listing,
    Argument::Text(
        "expr",
        'e',
        "EXPR",
        "Filter expression, as one word; without -e and -f every packet is kept",
    ),
    Argument::Order,
    Argument::Unit,
    Argument::Flag(
        "counted",
        'c',
        "Print on standard error how many of the packets were written",
    ),
    Argument::Json,
    Argument::LongText(
        "bytes",
        "FIRST-END",
        "Cut only these bytes of IN, as parts prints them; print a line for join",
    ),
    Argument::Text(
        "output",
        'w',
        "OUT",
        "Capture to write; then all other words are IN",
    ),
    Argument::Path(
        "IN",
        "Capture to read: a classic savefile of Ethernet frames; with -w several, in order",
    ),
    // What follows IN: OUT, or with `-w` further captures to read.
    Argument::Others(
        "OUT",
        "Without -w: capture to write, created once the filter and the header of IN are accepted",
    ),
];

/// The subcommand.
pub fn cut_usage<'a>(alloc: Global) -> Result<Command<'a>, AllocError> {
    let command = subcommand(
        alloc,
        "cut",
        "Write each packet of IN that the filter accepts, cut to N bytes, to OUT",
        CUT_EXAMPLES,
        &ARGUMENTS,
    )?;
    Ok(command.override_usage(CUT_USAGE))
}

/// OUT: that of `-w`, or the only word after IN; `None` if there is neither.
fn output_of<'a>(matches: &ArgMatches<'a>) -> Option<&'a str> {
    let others = matches.get_strs("OUT").unwrap_or(&[]);
    match (matches.get_str("output"), others) {
        (Some(output), _) => Some(output),
        (None, [output]) => Some(*output),
        (None, _) => None,
    }
}

/// The paths of all IN: the first one, and with `-w` the words after it.
fn inputs_of<'a>(
    alloc: Global,
    first: &'a str,
    matches: &ArgMatches<'a>,
) -> Result<Vec<&'a str>, AllocError> {
    let mut inputs = Vec::new(alloc);
    inputs.push(first)?;
    if matches.get_str("output").is_some() {
        inputs.extend_from_slice(matches.get_strs("OUT").unwrap_or(&[]))?;
    }
    Ok(inputs)
}

/// The range that `--bytes` gives, if it does; an error if it is none.
fn bytes_of(matches: &ArgMatches<'_>) -> Result<Option<ByteRange>, ()> {
    match matches.get_str("bytes") {
        Some(text) => byte_range(text).map(Some).ok_or(()),
        None => Ok(None),
    }
}

/// The words that were found, `None` if one is missing, if the snapshot length or the range is
/// invalid, if several words without `-w` follow IN, or several IN go with a range.
pub fn cut_words<'a>(
    alloc: Global,
    matches: &ArgMatches<'a>,
) -> Result<Option<CutWords<'a>>, AllocError> {
    let (Some(snap), Some(first), Some(output)) = (
        snap_of(matches),
        matches.get_str("IN"),
        output_of(matches),
    ) else {
        return Ok(None);
    };
    let inputs = inputs_of(alloc, first, matches)?;
    let Ok(bytes) = bytes_of(matches) else {
        return Ok(None);
    };
    if bytes.is_some() && inputs.len() > 1 {
        return Ok(None);
    }
    Ok(Some(CutWords {
        snap,
        listing: matches.get_str("listing"),
        expr: matches.get_str("expr"),
        order: order_of(matches),
        unit: unit_of(matches),
        counted: matches.get_flag("counted"),
        json: matches.get_flag("json"),
        bytes,
        inputs,
        output,
    }))
}

/// What is wanted of OUT.
const OUTPUT_WANTED: &str = "OUT is missing: name it after IN, or by -w OUT";

/// What is wanted of OUT if there are several IN.
const NAME_WANTED: &str =
    "several IN take -w, as in bpftap cut -s 0 -w OUT IN1 IN2: so none of them is overwritten";

/// What a range is.
const RANGE_WANTED: &str =
    "--bytes takes FIRST-END, two numbers, the lesser first, and only one IN";

/// The error of words that `clap` took and `cut` refuses: of a snapshot length that has more than
/// digits, of a missing OUT, of a range that is none or has several IN, or of several IN without
/// `-w`.
pub fn bad_cut_words(alloc: Global, matches: &ArgMatches<'_>) -> Result<Error, AllocError> {
    let (kind, wanted) = if snap_of(matches).is_none() {
        (ErrorKind::ValueValidation, SNAP_WANTED)
    } else if matches.get_str("OUT").is_none() {
        (ErrorKind::MissingRequiredArgument, OUTPUT_WANTED)
    } else if output_of(matches).is_some() {
        (ErrorKind::ValueValidation, RANGE_WANTED)
    } else {
        (ErrorKind::TooManyValues, NAME_WANTED)
    };
    usage_error(cut_usage(alloc), "bpftap cut", kind, wanted)
}
