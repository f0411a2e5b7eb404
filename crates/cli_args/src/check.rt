//! The words of `bpftap check`, by `clap`.

use crate::arguments::Argument;
use crate::snap::{SNAP_WANTED, snap_of};
use crate::subcommand::{bad_value, subcommand, usage_error};
use clap::error::ErrorKind;
use clap::{ArgGroup, ArgMatches, Command, Error};
use line_text::fields::number;
use std::alloc::{AllocError, Global};

/// What one call of `bpftap check` asks for.
#[derive(Clone, Copy)]
pub struct CheckWords<'a> {
    /// The expression, if no listing is given.
    pub expr: Option<&'a str>,
    /// The path of the listing, if `-f` is given.
    pub listing: Option<&'a str>,
    /// The snapshot length of an expression's program, 1 to [`savefile::MAX_SNAP`].
    pub snap: u32,
    /// How many options `-d` are given: by one the program is printed by the names of its
    /// instructions, by two as an array of C, and by three as numbers.
    pub named: u8,
    /// Whether the expression is printed as it was read, and no program.
    pub read: bool,
    /// Whether the expression as it was read and the program are printed as JSON.
    pub json: bool,
}

/// A packet of a capture.
#[derive(Clone, Copy)]
pub struct PacketWords<'a> {
    /// Its place, from 0.
    pub place: u64,
    /// The path of the capture.
    pub input: &'a str,
}

/// What one call of `bpftap check --dot` asks for.
#[derive(Clone, Copy)]
pub struct GraphWords<'a> {
    /// The expression, if no listing is given.
    pub expr: Option<&'a str>,
    /// The path of the listing, if `-f` is given.
    pub listing: Option<&'a str>,
    /// The snapshot length of an expression's program, 1 to [`savefile::MAX_SNAP`].
    pub snap: u32,
    /// The packet whose way is marked, if `-p` is given.
    pub packet: Option<PacketWords<'a>>,
}

const CHECK_EXAMPLES: &str = "Examples:
  bpftap check 'tcp dst port 80 or 443'
  bpftap check -d 'tcp dst port 80 or 443'    # the same program, for a person to read
  bpftap check -x 'tcp dst port 80 or 443'    # what was read: tcp dst port 80 or tcp dst port 443
  tcpdump -y EN10MB -ddd 'udp port 53' | bpftap check -d -f /dev/stdin
  bpftap check -f examples/ssh.asm    # the numbers of a program written by hand
  bpftap check 'tcp and 80'       # prints bpftap: NoQualifier 8
  bpftap check ''                 # the empty expression accepts every packet
  bpftap check --dot 'tcp dst port 80 or 443' | dot -Tsvg > filter.svg
  bpftap check --dot -p 2 'tcp dst port 80 or 443' examples/veth.pcap | dot -Tsvg > way.svg

check prints a line with the number of instructions, then a line code jt jf k for each:
tcpdump -ddd prints this form, and cut -f reads it. -d prints a line for each instruction with
its name, as tcpdump -d does, and -dd an array of C. -f reads either form but the array, or
assembly (docs/ASSEMBLY.md). -x prints the expression as it was read, on one line, even if its
program is too long. --json prints one object: the expression as read, and the instructions with
their names and numbers. --dot prints the program as a graph for Graphviz, with a box for each
question; -p marks the way of the packet at PLACE of IN, counted from 0. -s applies to an
expression, not to a listing. Write an expression that begins with - in parentheses; -x prints it
so. The number after a fault's name is the byte of the expression at fault, from 0;
docs/LANGUAGE.md has the language.

Exit status: 0 the program is printed; 1 the expression or listing is refused or the program is
too long, bad usage, or out of memory; 3 a file or standard output failed.";

/// What goes with `-p`.
const PACKET_WANTED: &str = "-p PLACE goes with --dot, and IN after EXPR: --dot -p 2 EXPR IN";

/// What a place is.
const PLACE_WANTED: &str = "-p takes a place, counted from 0, up to 18446744073709551615";

static ARGUMENTS: [Argument; 10] = [
    Argument::Count(
        "named",
        'd',
        "Print instructions by name, as tcpdump -d does; -dd: as an array of C",
    ),
    Argument::Read,
    Argument::Json,
    Argument::LongFlag(
        "dot",
        "Print the program as a graph, for Graphviz: check --dot EXPR | dot -Tsvg > OUT",
    ),
    Argument::Number(
        "place",
        'p',
        "PLACE",
        "With --dot: mark the way of this packet of IN, counted from 0",
    ),
    Argument::DefaultSnap,
    Argument::Expr,
    Argument::Text(
        "listing",
        'f',
        "LISTING",
        "Print the program of this file: assembly, or as tcpdump -d or -ddd prints it",
    ),
    Argument::Word,
    Argument::Optional("IN", "With -p, after EXPR: the capture that has the packet"),
];

/// In what form the program is printed: JSON has all of the others.
fn form_group<'a>(alloc: Global) -> Result<ArgGroup<'a>, AllocError> {
    ArgGroup::new(alloc, "form")
        .arg("named")?
        .arg("read")?
        .arg("json")?
        .arg("dot")
}

/// The subcommand.
pub fn check_usage<'a>(alloc: Global) -> Result<Command<'a>, AllocError> {
    let form = form_group(alloc)?;
    subcommand(
        alloc,
        "check",
        "Print the program of a filter expression, or say what is wrong with it",
        CHECK_EXAMPLES,
        &ARGUMENTS,
    )?
    .group(form)
}

/// The packet that `-p` and IN name, if they do; the error is what is wanted.
fn packet_of<'a>(matches: &ArgMatches<'a>) -> Result<Option<PacketWords<'a>>, &'static str> {
    match (matches.get_str("place"), matches.get_str("IN")) {
        (None, None) => Ok(None),
        (Some(text), Some(input)) if matches.get_flag("dot") => {
            let place = number(text.as_bytes(), u64::MAX).ok_or(PLACE_WANTED)?;
            Ok(Some(PacketWords { place, input }))
        }
        _ => Err(PACKET_WANTED),
    }
}

/// Whether the words of `check` ask for a graph.
pub(crate) fn asks_graph(matches: &ArgMatches<'_>) -> bool {
    matches.get_flag("dot")
}

/// The words that were found, nothing if one is missing, or if the snapshot length or the packet is
/// invalid.
pub fn graph_words<'a>(matches: &ArgMatches<'a>) -> Option<GraphWords<'a>> {
    Some(GraphWords {
        expr: matches.get_str("EXPR").or(matches.get_str("expr")),
        listing: matches.get_str("listing"),
        snap: snap_of(matches)?,
        packet: packet_of(matches).ok()?,
    })
}

/// The words that were found, nothing if one is missing, if the snapshot length is invalid, or if a
/// packet is named.
pub fn check_words<'a>(matches: &ArgMatches<'a>) -> Option<CheckWords<'a>> {
    packet_of(matches).ok()?;
    Some(CheckWords {
        expr: matches.get_str("EXPR").or(matches.get_str("expr")),
        listing: matches.get_str("listing"),
        snap: snap_of(matches)?,
        named: matches.get_count("named"),
        read: matches.get_flag("read"),
        json: matches.get_flag("json"),
    })
}

/// The error of a snapshot length that has more than digits, or of a packet that is named
/// otherwise.
pub fn bad_check_words(alloc: Global, matches: &ArgMatches<'_>) -> Result<Error, AllocError> {
    if let (None, Some(word)) = (matches.get_str("place"), matches.get_str("IN")) {
        return unexpected_word(alloc, word);
    }
    let wanted = match packet_of(matches) {
        Ok(_) => SNAP_WANTED,
        Err(wanted) => wanted,
    };
    bad_value(check_usage(alloc), "bpftap check", wanted)
}

/// The error of a second word without `-p`, as `clap` has it: it may belong to an expression that
/// lacks its quotes.
fn unexpected_word(alloc: Global, word: &str) -> Result<Error, AllocError> {
    let told = format!(in alloc; "unexpected argument '{word}' found")?;
    let kind = ErrorKind::UnknownArgument;
    usage_error(check_usage(alloc), "bpftap check", kind, told.as_str())
}
