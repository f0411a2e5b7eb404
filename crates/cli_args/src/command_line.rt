//! The words of the command line, by `clap`.
use crate::check::{
    CheckWords, GraphWords, asks_graph, bad_check_words, check_usage, check_words, graph_words,
};
use crate::compare::{CompareWords, bad_compare_words, compare_usage, compare_words};
use crate::counting::{CountWords, asks_counts, count_words};
use crate::cut::{CutWords, bad_cut_words, cut_usage, cut_words};
use crate::explain::{ExplainWords, bad_explain_words, explain_usage, explain_words};
use crate::info::{InfoWords, info_usage, info_words};
use crate::join::{JoinWords, join_usage, join_words};
use crate::parts::{PartsWords, bad_parts_words, parts_usage, parts_words};
use crate::refusal::refusal_of;
use crate::run::{RunWords, run_usage, run_words};
use crate::split::{SplitWords, split_usage, split_words};
use crate::steps::{StepsWords, steps_usage, steps_words};
use crate::topics::topic_of;
use clap::error::ErrorKind;
use clap::{Arg, ArgAction, ArgMatches, Command, Error};
use savefile::{Order, Unit};
use std::alloc::{AllocError, Global};
use std::convert::AsStr;

/// What the words ask for.
#[derive(Drop)]
pub enum Request<'a> {
    Check(CheckWords<'a>),
    /// `check` with `--dot`.
    Graph(GraphWords<'a>),
    Explain(ExplainWords<'a>),
    /// `explain` with `-c`, `-l`, or a bound.
    Count(CountWords<'a>),
    Compare(CompareWords<'a>),
    Cut(CutWords<'a>),
    Info(InfoWords<'a>),
    Steps(StepsWords<'a>),
    Run(RunWords<'a>),
    Split(SplitWords<'a>),
    Parts(PartsWords<'a>),
    Join(JoinWords<'a>),
    /// A page of help, as its text.
    Topic(&'static str),
}

/// What the program calls itself, and in which logic it was proved, as `rt version` names it. Kits
/// share one.
const VERSION: &str = "2.8.0, proved in the logic dac8208d650f15bf";

const ABOUT: &str =
    "Filters captures offline, and replays them to listeners that keep and drop packets";

const EXAMPLES: &str = "Examples:
  bpftap check 'tcp dst port 80 or 443'
  bpftap explain -e 'tcp dst port 80 or 443' examples/veth.pcap
  bpftap compare 'tcp port 80' 'tcp dst port 80' examples/veth.pcap
  bpftap cut -s 0 -e 'udp port 5353' examples/veth.pcap dns.pcap
  bpftap cut -s 0 -f examples/ip.bpf examples/veth.pcap ip.pcap
  bpftap info examples/veth.pcap
  bpftap split examples/split/lines.txt examples/veth.pcap
  bpftap parts 4 examples/veth.pcap
  bpftap steps -v examples/steps/listeners.txt examples/steps/script.txt examples/veth.pcap
  bpftap run examples/run/listeners.txt examples/veth.pcap
  bpftap help expressions     # the filter language on one page

The folder examples is that of a clone; an installation has it in share/doc/bpftap of its prefix.

Exit status: 0 clean; 1 bad usage, invalid input, or out of memory; 2 a torn or bad record, after
the packets before it; 3 a file or device failed; 4 an answer, no fault: explain -q or -l accepts
no packet, or with a bound another number of them, compare -q or without IN finds one that is
treated differently, join wants a range to be cut again; 5 compare without IN has not decided it.";

/// The subcommands, in the order of the help.
static SUBCOMMANDS: [&str; 10] = [
    "check", "explain", "compare", "info", "cut", "split", "parts", "join", "steps", "run",
];

/// The option that asks for hints, for the help: [`called_words`](crate::hints::called_words) takes
/// it.
fn hints_arg<'a>(alloc: Global) -> Arg<'a> {
    Arg::new(alloc, "hints")
        .long("hints")
        .action(ArgAction::SetTrue)
        .help("Explain errors, as on a terminal")
}

/// The program without its subcommands.
fn bare_program<'a>(alloc: Global) -> Command<'a> {
    Command::new(alloc, "bpftap")
        .version(VERSION)
        .about(ABOUT)
        .after_help(EXAMPLES)
        .subcommand_required(true)
        .arg_required_else_help(true)
}

/// The subcommand of this name.
pub(crate) fn subcommand_of<'a>(alloc: Global, name: &str) -> Result<Command<'a>, AllocError> {
    match name {
        "check" => check_usage(alloc),
        "explain" => explain_usage(alloc),
        "compare" => compare_usage(alloc),
        "cut" => cut_usage(alloc),
        "info" => info_usage(alloc),
        "split" => split_usage(alloc),
        "parts" => parts_usage(alloc),
        "join" => join_usage(alloc),
        "steps" => steps_usage(alloc),
        _ => run_usage(alloc),
    }
}

/// The program with its subcommands.
pub(crate) fn program<'a>(alloc: Global) -> Result<Command<'a>, AllocError> {
    let mut program = bare_program(alloc).arg(hints_arg(alloc))?;
    for name in SUBCOMMANDS.iter() {
        let subcommand = subcommand_of(alloc, *name)?;
        program = program.subcommand(subcommand)?;
    }
    Ok(program)
}

pub(crate) fn order_of(matches: &ArgMatches<'_>) -> Order {
    match matches.get_str("order") {
        Some("big") => Order::Big,
        _ => Order::Little,
    }
}

pub(crate) fn unit_of(matches: &ArgMatches<'_>) -> Unit {
    match matches.get_str("unit") {
        Some("nano") => Unit::Nano,
        _ => Unit::Micro,
    }
}

/// What the words of `check` ask for; nothing if one is missing or invalid.
fn check_request_of<'a>(words: &ArgMatches<'a>) -> Option<Request<'a>> {
    if asks_graph(words) {
        Some(Request::Graph(graph_words(words)?))
    } else {
        Some(Request::Check(check_words(words)?))
    }
}

/// What the words of `cut` ask for; nothing if one is missing or invalid.
fn cut_request_of<'a>(
    alloc: Global,
    words: &ArgMatches<'a>,
) -> Result<Option<Request<'a>>, AllocError> {
    Ok(cut_words(alloc, words)?.map(Request::Cut))
}

/// What the words of `steps` ask for; nothing if one is missing.
fn steps_request_of<'a>(
    alloc: Global,
    words: &ArgMatches<'a>,
) -> Result<Option<Request<'a>>, AllocError> {
    Ok(steps_words(alloc, words)?.map(Request::Steps))
}

/// What the words of `explain` ask for; nothing if one is missing or invalid.
fn explain_request_of<'a>(
    alloc: Global,
    words: &ArgMatches<'a>,
) -> Result<Option<Request<'a>>, AllocError> {
    if asks_counts(words) {
        Ok(count_words(alloc, words)?.map(Request::Count))
    } else {
        Ok(explain_words(alloc, words)?.map(Request::Explain))
    }
}

/// What the words of `compare` ask for; nothing if one is missing or invalid.
fn compare_request_of<'a>(
    alloc: Global,
    words: &ArgMatches<'a>,
) -> Result<Option<Request<'a>>, AllocError> {
    Ok(compare_words(alloc, words)?.map(Request::Compare))
}

/// What the words of `run` ask for; nothing if one is missing.
fn run_request_of<'a>(
    alloc: Global,
    words: &ArgMatches<'a>,
) -> Result<Option<Request<'a>>, AllocError> {
    Ok(run_words(alloc, words)?.map(Request::Run))
}

/// What the words of `info` ask for; nothing if one is missing.
fn info_request_of<'a>(
    alloc: Global,
    words: &ArgMatches<'a>,
) -> Result<Option<Request<'a>>, AllocError> {
    Ok(info_words(alloc, words)?.map(Request::Info))
}

/// What the words of `split` ask for; nothing if one is missing.
fn split_request_of<'a>(
    alloc: Global,
    words: &ArgMatches<'a>,
) -> Result<Option<Request<'a>>, AllocError> {
    Ok(split_words(alloc, words)?.map(Request::Split))
}

/// What the words of `parts` ask for; nothing if one is missing or invalid.
fn parts_request_of<'a>(words: &ArgMatches<'a>) -> Option<Request<'a>> {
    Some(Request::Parts(parts_words(words)?))
}

/// What the words of `join` ask for; nothing if one is missing.
fn join_request_of<'a>(words: &ArgMatches<'a>) -> Option<Request<'a>> {
    Some(Request::Join(join_words(words)?))
}

/// What the words of a subcommand ask for; nothing if one is missing or wrong.
fn request_of<'a>(
    alloc: Global,
    name: &str,
    words: &ArgMatches<'a>,
) -> Result<Option<Request<'a>>, AllocError> {
    match name {
        "steps" => steps_request_of(alloc, words),
        "run" => run_request_of(alloc, words),
        "info" => info_request_of(alloc, words),
        "split" => split_request_of(alloc, words),
        "explain" => explain_request_of(alloc, words),
        "compare" => compare_request_of(alloc, words),
        "cut" => cut_request_of(alloc, words),
        "check" => Ok(check_request_of(words)),
        "parts" => Ok(parts_request_of(words)),
        "join" => Ok(join_request_of(words)),
        _ => Ok(None),
    }
}

/// The error of words that `clap` took and a subcommand refuses. For `check` it is the snapshot
/// length or the packet, for `cut` that, OUT or a range, for `parts` the number, for `explain`
/// that, the place or a bound, for `compare` that or a missing IN. For the others a word is
/// missing, which `clap` has reported.
fn bad_words(
    alloc: Global,
    name: &str,
    words: &ArgMatches<'_>,
    program: &mut Command<'_>,
) -> Result<Error, AllocError> {
    match name {
        "check" => bad_check_words(alloc, words),
        "cut" => bad_cut_words(alloc, words),
        "explain" => bad_explain_words(alloc, words),
        "compare" => bad_compare_words(alloc, words),
        "parts" => bad_parts_words(alloc),
        _ => program.error(ErrorKind::MissingRequiredArgument, "a word is wanted"),
    }
}

/// What words of a subcommand that `clap` took ask for, or what is wrong with them.
fn asked_of<'a>(
    alloc: Global,
    name: &str,
    words: &ArgMatches<'a>,
    program: &mut Command<'_>,
) -> Result<Request<'a>, Error> {
    match request_of(alloc, name, words)? {
        Some(request) => Ok(request),
        None => Err(bad_words(alloc, name, words, program)?),
    }
}

/// What the words ask for, by this program.
fn read_by<'a, S: AsStr>(
    alloc: Global,
    program: &mut Command<'a>,
    words: &'a [S],
) -> Result<Request<'a>, Error> {
    let matches = program.try_get_matches_from_mut(words)?;
    asked_by(alloc, &matches, program)
}

/// What words that `clap` took ask for.
fn asked_by<'a>(
    alloc: Global,
    matches: &ArgMatches<'a>,
    program: &mut Command<'_>,
) -> Result<Request<'a>, Error> {
    match matches.subcommand() {
        Some((name, words)) => asked_of(alloc, name, words, program),
        None => Err(program.error(ErrorKind::MissingSubcommand, "a subcommand is wanted")?),
    }
}

/// What the words ask for, the program's name first; or `clap`'s error, which for a call for help
/// has the help.
pub fn read_words<'a, S: AsStr>(alloc: Global, words: &'a [S]) -> Result<Request<'a>, Error> {
    if let Some(page) = topic_of(words) {
        return Ok(Request::Topic(page));
    }
    let mut program = program(alloc)?;
    match read_by(alloc, &mut program, words) {
        Ok(request) => Ok(request),
        Err(error) => Err(refusal_of(alloc, words, error)),
    }
}
