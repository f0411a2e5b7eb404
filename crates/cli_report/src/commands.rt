//! Hints on commands and options that there are not, and on words that mean something else here.

ghost use Rattle.std.specs.Prelude.{◌≡◌, false};

use crate::stream::{HintSink, give_hint};
use std::convert::AsStr;

/// How to do what commands of other tools do, by the name that one may try.
static WAYS: [(&str, &str); 59] = [
    ("count", COUNTS),
    ("filter", KEPT),
    ("extract", KEPT),
    ("expressions", LANGUAGE),
    ("expression", LANGUAGE),
    ("filters", LANGUAGE),
    ("language", LANGUAGE),
    ("syntax", LANGUAGE),
    ("read", LOOK),
    ("grep", LOOK),
    ("why", LOOK),
    (
        "merge",
        "to merge by time: mergecap -F nsecpcap -w OUT IN.., and then bpftap cut",
    ),
    ("compile", "to print a program: bpftap check -d EXPR"),
    (
        "replay",
        "to replay captures: bpftap steps, or in threads bpftap run",
    ),
    ("capture", "to capture: tcpdump -i INTERFACE -w OUT"),
    ("convert", "to read pcapng: editcap -F nsecpcap IN OUT"),
    ("print", PRINT),
    ("show", PRINT),
    ("dump", PRINT),
    ("hexdump", BYTES),
    (
        "diff",
        "to compare two filters: bpftap compare EXPR1 EXPR2 IN",
    ),
    ("version", "to print the version: bpftap --version"),
    ("head", FIRST_PACKETS),
    (
        "assemble",
        "to print the program of assembly: bpftap check -f FILE",
    ),
    (
        "disassemble",
        "to print a program as assembly: bpftap check -d -f FILE",
    ),
    ("completions", COMPLETIONS),
    ("completion", COMPLETIONS),
    ("stats", CONTENTS),
    ("summary", CONTENTS),
    ("capinfos", CONTENTS),
    ("list", CONTENTS),
    ("count-packets", CONTENTS),
    ("top", TALKERS),
    ("talkers", TALKERS),
    ("find", MATCHING),
    ("search", MATCHING),
    ("parse", LOOK),
    ("decode", PRINT),
    ("packets", CONTENTS),
    ("stat", CONTENTS),
    ("verify", WHOLE),
    ("validate", WHOLE),
    ("repair", WHOLE),
    ("graph", GRAPH),
    ("dot", GRAPH),
    ("draw", GRAPH),
    (
        "same",
        "to decide whether two filters are the same: bpftap compare EXPR1 EXPR2",
    ),
    (
        "cat",
        "one capture after the other: bpftap cut -s 0 -w OUT IN..",
    ),
    ("slice", BETWEEN_TIMES),
    ("trim", BETWEEN_TIMES),
    ("sort", "to sort by time: reordercap IN OUT"),
    ("sniff", "to capture: tcpdump -i INTERFACE -w OUT"),
    ("json", OBJECTS),
    ("export", OBJECTS),
    ("hex", BYTES),
    ("bytes", BYTES),
    (
        "test",
        "to test for a packet: bpftap explain -q -e EXPR IN, by its status",
    ),
    ("anonymize", OTHER_ADDRESSES),
    ("anonymise", OTHER_ADDRESSES),
];

/// How to write what a filter accepts.
const KEPT: &str = "to keep what a filter accepts: bpftap cut -s 0 -e EXPR IN OUT";

/// Where the filter language is explained.
const LANGUAGE: &str = "the filter language on one page: bpftap help expressions";

/// How to look at packets.
const LOOK: &str = "to look at packets: bpftap explain -e EXPR IN";

/// How to see which hosts send most.
const TALKERS: &str = "who talks most: tshark -r IN -q -z conv,ip";

/// How to name captures by their packets.
const MATCHING: &str = "to name the captures that have such a packet: bpftap explain -l -e EXPR IN";

/// How to look for damage of a capture, and for that of a filter.
const WHOLE: &str =
    "whether captures are whole: bpftap info IN; what is wrong with a filter: bpftap check EXPR";

/// How to draw the program of a filter.
const GRAPH: &str = "to draw a program: bpftap check --dot EXPR | dot -Tsvg > OUT";

/// How to write other addresses into a capture.
const OTHER_ADDRESSES: &str = "to write other addresses: tcprewrite --seed=1 -i IN -o OUT";

/// How to count packets.
const COUNTS: &str = "to count packets: bpftap explain -c -e EXPR IN";

/// How to print what captures have.
const CONTENTS: &str = "what captures have: bpftap info IN";

/// How to print the bytes of a packet.
const BYTES: &str = "to print the bytes of a packet: bpftap explain -p PLACE -e '' IN";

/// How the capture that is written is given.
const OUT_IS_A_WORD: &str = "OUT is the word after IN, or that of -w";

/// How to print packets.
const PRINT: &str = "to print packets: tcpdump -nr IN";

/// How to keep the first packets of a capture.
const FIRST_PACKETS: &str = "to keep the first N packets: editcap -r -F nsecpcap IN OUT 1-N";

/// Where the completions of shells are.
const COMPLETIONS: &str =
    "completions for bash, zsh and fish are files: ./install puts them where shells look for them";

/// How to do what options of other tools do.
static OPTION_WAYS: [(&str, &str); 32] = [
    (
        "-F",
        "to read an expression from a file: -e \"$(cat FILE)\", or for check \"$(cat FILE)\"",
    ),
    ("-A", BETWEEN_TIMES),
    ("-B", BETWEEN_TIMES),
    ("-r", WITHOUT_OPTION),
    ("-w", KEPT),
    ("-n", "addresses are never looked up: leave this option out"),
    (
        "-nn",
        "addresses are never looked up: leave this option out",
    ),
    ("-i", "to capture: tcpdump -i INTERFACE -w OUT"),
    ("-y", "captures are of Ethernet here: leave this option out"),
    ("-c", COUNTS),
    ("--count", COUNTS),
    ("-X", BYTES),
    ("-o", KEPT),
    ("--output", KEPT),
    ("-l", MATCHING),
    ("-v", IN_FULL),
    ("--verbose", IN_FULL),
    ("--invert", REJECTED),
    ("--invert-match", REJECTED),
    ("-d", "to print a program: bpftap check -d EXPR"),
    (
        "-x",
        "to print an expression as it was read: bpftap check -x EXPR",
    ),
    ("--dot", GRAPH),
    ("-m", FIRST_PACKETS),
    ("-C", PIECES),
    ("-G", PIECES),
    ("-W", PIECES),
    ("--snaplen", "-s N is the snapshot length"),
    ("--nano", "-u nano keeps nanoseconds"),
    ("--csv", OBJECTS),
    ("-V", "to print the version: bpftap --version"),
    ("--version", "to print the version: bpftap --version"),
    (
        "-O",
        "programs are not optimised: what nothing reaches is left out",
    ),
];

/// How to keep what a filter rejects.
const REJECTED: &str =
    "what a filter rejects: write not (EXPR) for EXPR; packets that are too short for a test are in neither";

/// How to print more of a packet.
const IN_FULL: &str = "explain prints why for each packet; -p PLACE prints one in full";

/// How to print what other programs read.
const OBJECTS: &str =
    "to print an object for each line, for jq: --json, as in bpftap explain --json -e EXPR IN";

/// How to write a capture in pieces.
const PIECES: &str =
    "in pieces: editcap -c PACKETS -F nsecpcap IN OUT, or -i SECONDS in place of -c PACKETS";

/// How to count what the lines of `split` keep, and how to write pieces of N packets each.
const COUNTS_OF_SPLIT: &str =
    "to count only: /dev/null as OUT of each line; pieces of N packets: editcap -c N -F nsecpcap IN OUT";

/// How filters are given to `split`, and each OUT.
const FILTERS_OF_SPLIT: &str = "filters are in LINES: SNAP OUT EXPRESSION";

/// How filters are given to `run`, and each OUT.
const FILTERS_OF_RUN: &str =
    "filters are in LISTENERS: INTERFACE FLUSH SNAP CAPACITY SPARES OUT EXPRESSION";

/// How `join` is called.
const WORDS_OF_JOIN: &str =
    "join takes LINES, what cut --bytes prints, and OUT; captures become one by bpftap cut -s 0 -w OUT IN.., by time with mergecap";

/// How a capture is written, for `explain` and `info`, which write none.
const CUT_WRITES: &str = "cut writes a capture: bpftap cut -s 0 -e EXPR IN OUT";

/// How to keep the packets between two times.
const BETWEEN_TIMES: &str =
    "to keep packets between two times: editcap -A START -B STOP -F nsecpcap IN OUT";

/// Formats of captures, by their names in editcap.
static FORMATS: [&str; 3] = ["pcap", "nsecpcap", "pcapng"];

/// How captures are given.
const WITHOUT_OPTION: &str =
    "captures are words without an option: IN, and for cut OUT after it, or after -w";

/// The way beside a name in a list.
fn way_of(ways: &[(&'static str, &'static str)], name: &str) -> Option<&'static str> {
    for (known, way) in ways.iter() {
        if *known == name {
            return Some(*way);
        }
    }
    None
}

/// The command among the arguments: the one after the program's name.
pub fn command_of<S: AsStr>(words: &[S]) -> Option<&str> {
    Some(words.get(1)?.as_str())
}

/// How to do what the name of a command that there is not stands for in other tools, if that is
/// known; the program's name comes first. After `help` it is the name that help is wanted on.
pub fn command_way<S: AsStr>(words: &[S]) -> Option<&'static str> {
    let command = command_of(words)?;
    if command == "help" {
        return way_of(&WAYS, words.get(2)?.as_str());
    }
    if command == "cmp" || (command == "diff" && words.iter().any(is_capture_name)) {
        return Some("to compare two captures: cmp, or tcpdump -ttnxxr IN of both and diff");
    }
    if is_capture_name(&command) {
        return Some("a command comes first: bpftap info IN, bpftap explain -e EXPR IN");
    }
    way_of(&WAYS, command)
}

/// Whether these are arguments of a command that has this option itself, or of one to which it
/// means nothing.
fn takes_option<S: AsStr>(words: &[S], option: &str) -> bool {
    matches!(
        (command_of(words), option),
        (Some("compare" | "cut"), "-w")
            | (Some("cut" | "explain"), "-c")
            | (Some("explain"), "-l")
            | (Some("info" | "steps"), "-v")
            | (Some("check"), "-d" | "-x" | "--dot")
            | (Some("cut" | "split"), "-o")
    )
}

/// Where filters go that a command does not take among its arguments, by the name of the command;
/// `None` for one that takes a filter.
pub fn way_of_filter(command: &str) -> Option<&'static str> {
    match command {
        "split" => Some(FILTERS_OF_SPLIT),
        "steps" => Some("filters are in LISTENERS: SNAP CAPACITY EXPRESSION"),
        "run" => Some(FILTERS_OF_RUN),
        "info" => Some("info takes no filter: bpftap explain -c -e EXPR IN"),
        "parts" => Some(
            "parts takes no filter: give it with each part, bpftap cut --bytes FIRST-END -s 0 -e EXPR IN OUT",
        ),
        "join" => Some(WORDS_OF_JOIN),
        _ => None,
    }
}

/// What is said of a file that a command is asked to write by an option that it does not have.
fn way_of_output(command: &str) -> Option<&'static str> {
    match command {
        "cut" => Some(OUT_IS_A_WORD),
        "split" => Some(FILTERS_OF_SPLIT),
        "run" => Some(FILTERS_OF_RUN),
        "join" => Some(WORDS_OF_JOIN),
        "explain" | "info" => Some(CUT_WRITES),
        "compare" => Some("without IN, -w OUT writes a packet that shows the difference"),
        "check" => Some("check prints to standard output: bpftap check EXPR > FILE"),
        _ => None,
    }
}

/// How to do with a command what an option does that another one has.
fn way_of_command(command: &str, option: &str) -> Option<&'static str> {
    match (command, option) {
        ("compare", "-e") => Some("compare takes its expressions as words, without -e"),
        ("parts", "-n") => Some("parts takes N as a word: bpftap parts 4 IN"),
        ("split", "-c" | "--count") => Some(COUNTS_OF_SPLIT),
        ("split", "-l" | "-n") => Some(PIECES),
        ("explain", "-A") => Some(PRINT),
        ("explain" | "cut", "-x" | "-xx" | "-X" | "-XX") => Some(BYTES),
        ("cut" | "split", "-T") => Some("captures are of Ethernet here: leave this option out"),
        ("info" | "compare", "-c") => Some("it prints counts: leave this option out"),
        ("info", "-A" | "-T" | "-B") => Some("info prints all that it has: leave this option out"),
        ("cut" | "split", "-v") => Some(REJECTED),
        (_, "-e" | "-f") => way_of_filter(command),
        (_, "-w" | "-o" | "--output") => way_of_output(command),
        _ => None,
    }
}

/// How to do what an option of another tool, or of another command, does.
fn way_of_option<S: AsStr>(words: &[S], option: &str) -> Option<&'static str> {
    if takes_option(words, option) {
        return None;
    }
    match way_of_command(command_of(words)?, option) {
        Some(way) => Some(way),
        None => way_of(&OPTION_WAYS, option),
    }
}

/// What is said of an option where the command comes: the command that does the same.
fn missing_command<S: AsStr>(words: &[S]) -> Option<&'static str> {
    if !command_of(words)?.starts_with("-") {
        return None;
    }
    if has_word(words, "-i") {
        return way_of(&OPTION_WAYS, "-i");
    }
    if has_word(words, "-w") {
        return Some("a command comes first: bpftap cut -s 0 -e EXPR IN OUT");
    }
    if has_word(words, "-ddd") {
        return Some("a command comes first: bpftap check EXPR");
    }
    if has_word(words, "-d") || has_word(words, "-dd") {
        return Some("a command comes first: bpftap check -d EXPR, or -dd for an array of C");
    }
    Some("a command comes first: bpftap explain -e EXPR IN")
}

/// Whether the name of a capture follows an option `-i` or `-o`.
fn gives_capture<S: AsStr>(words: &[S], option: &str) -> bool {
    words.windows(2).any(|pair| match pair {
        [first, second] => first.as_str() == option && is_capture_name(second),
        _ => false,
    })
}

/// Whether a format of captures follows an option `-F`, as editcap takes it.
fn gives_format<S: AsStr>(words: &[S]) -> bool {
    words.windows(2).any(|pair| match pair {
        [first, second] => first.as_str() == "-F" && FORMATS.contains(&second.as_str()),
        _ => false,
    })
}

/// How to do what the first of the arguments does that is such an option.
fn option_way<S: AsStr>(words: &[S]) -> Option<&'static str> {
    if let Some(way) = missing_command(words) {
        return Some(way);
    }
    if gives_capture(words, "-i") {
        return Some(WITHOUT_OPTION);
    }
    if gives_format(words) {
        return Some("OUT is a classic savefile: leave this option out");
    }
    if gives_number(words, "-n") && (is_cut(words) || command_of(words) == Some("explain")) {
        return Some(FIRST_PACKETS);
    }
    if gives_number(words, "-i") && matches!(command_of(words), Some("cut" | "split")) {
        return Some(PIECES);
    }
    for word in words {
        if let Some(way) = way_of_option(words, word.as_str()) {
            return Some(way);
        }
    }
    if command_of(words) == Some("join") {
        Some(WORDS_OF_JOIN)
    } else {
        None
    }
}

/// A hint on an option that there is not, if one of the arguments is an option of another tool.
pub fn hint_option<S: AsStr, E: HintSink>(words: &[S], err: &mut E)
    ensures quiet { E.takes_hints err.old ≡ false → err.new ≡ err.old }
{
    if let Some(hint) = option_way(words) {
        give_hint(hint, err);
    }
}

/// A hint on the value of an option that does not take it: the name of a capture after `-o`, which
/// takes the order of bytes.
pub fn hint_value<S: AsStr, E: HintSink>(words: &[S], err: &mut E)
    ensures quiet { E.takes_hints err.old ≡ false → err.new ≡ err.old }
{
    if gives_capture(words, "-o") {
        if let Some(hint) = way_of_output(command_of(words).unwrap_or("")) {
            give_hint(hint, err);
        }
    }
}

/// A hint on arguments of which two are not taken together: `-e` of `check`, and the name of a
/// capture.
pub fn hint_conflict<S: AsStr, E: HintSink>(words: &[S], err: &mut E)
    ensures quiet { E.takes_hints err.old ≡ false → err.new ≡ err.old }
{
    let asks_graph = has_word(words, "--dot") || has_word(words, "-p");
    if command_of(words) == Some("check") && asks_graph && words.iter().any(is_capture_name) {
        give_hint(
            "a packet in a graph: bpftap check --dot -p PLACE EXPR IN, without -e",
            err,
        );
    }
}

/// Options of `cut` that a value follows.
static CUT_VALUES: [&str; 7] = ["-e", "-f", "-s", "-o", "-u", "-w", "--bytes"];

/// Whether one of the arguments is this word.
fn has_word<S: AsStr>(words: &[S], wanted: &str) -> bool {
    words.iter().any(|word| word.as_str() == wanted)
}

/// Whether these are arguments of `cut`.
fn is_cut<S: AsStr>(words: &[S]) -> bool {
    command_of(words) == Some("cut")
}

/// Whether one of the arguments after the command is no option, nor the value of one of `cut`.
fn has_plain_word<S: AsStr>(words: &[S]) -> bool {
    words.windows(2).skip(1).any(|pair| match pair {
        [first, second] => !second.as_str().starts_with("-")
            && !CUT_VALUES.contains(&first.as_str()),
        _ => false,
    })
}

/// Hints on arguments of `cut` of which one is missing: the snapshot length, OUT if packets are
/// only counted, or the names of both captures.
fn hint_missing_of_cut<S: AsStr, E: HintSink>(words: &[S], err: &mut E)
    ensures quiet { E.takes_hints err.old ≡ false → err.new ≡ err.old }
{
    if !words.iter().any(|word| word.as_str().starts_with("-s")) {
        give_hint("-s 0 keeps packets whole", err)
    } else if has_word(words, "-c") {
        give_hint(
            "to count only: bpftap explain -c -e EXPR IN, or give /dev/null as OUT",
            err,
        )
    }
    if !has_plain_word(words) {
        give_hint(
            "IN and OUT are words: of the standard streams /dev/stdin and /dev/stdout",
            err,
        )
    }
}

/// A hint on arguments of which one is missing: of `cut` the snapshot length, or OUT if packets
/// are only counted; of `explain` the filter, or IN; of others IN, or the word before it.
pub fn hint_missing<S: AsStr, E: HintSink>(words: &[S], err: &mut E)
    ensures quiet { E.takes_hints err.old ≡ false → err.new ≡ err.old }
{
    if is_cut(words) {
        hint_missing_of_cut(words, err)
    } else if lacks_filter(words) {
        give_hint(every_packet(words), err)
    } else if lacks_capture(words) {
        give_hint("IN is missing: the name of a capture, or /dev/stdin", err)
    } else if let Some(hint) = missing_word(words) {
        give_hint(hint, err)
    }
}

/// How many of the arguments are no options.
fn count_plain<S: AsStr>(words: &[S]) -> usize {
    let mut count: usize = 0;
    for word in words.iter().skip(2) {
        if !word.as_str().starts_with("-") {
            count = count.saturating_add(1);
        }
    }
    count
}

/// Whether these are arguments without a capture: of `explain` with a filter, of `info`, or of
/// another command with all the words that come before IN.
fn lacks_capture<S: AsStr>(words: &[S]) -> bool {
    let has_filter = has_word(words, "-e") || has_word(words, "-f");
    let has_capture = words.iter().any(is_capture_name);
    match command_of(words) {
        Some("explain") => has_filter && !has_capture,
        Some("info") => true,
        Some("split" | "run") => count_plain(words) == 1 && !has_capture,
        Some("steps") => count_plain(words) == 2 && !has_capture,
        _ => false,
    }
}

/// What is said of a word that is missing: of `parts` and `join` the last one, of `parts`, `split`,
/// `steps` and `run` one before IN.
fn missing_word<S: AsStr>(words: &[S]) -> Option<&'static str> {
    let has_capture = words.iter().any(is_capture_name);
    match (command_of(words)?, count_plain(words), has_capture) {
        ("parts", 1, false) => Some("IN is missing: the name of a capture"),
        ("parts", 1, true) => Some("N is missing, how many parts there are: bpftap parts 4 IN"),
        ("join", 1, false) => Some("OUT is missing: the capture that join writes"),
        ("split", 1, true) => Some(
            "LINES is missing, a file of which each line is SNAP OUT EXPRESSION",
        ),
        ("steps", 2, true) => Some("a file is missing: bpftap steps LISTENERS SCRIPT IN"),
        ("run", 1, true) => Some(
            "LISTENERS is missing, a file of lines INTERFACE FLUSH SNAP CAPACITY SPARES OUT EXPRESSION; to filter only: bpftap cut",
        ),
        ("steps", 0 | 1, _) => Some(
            "LISTENERS has lines of SNAP CAPACITY EXPRESSION, and SCRIPT of arrive, flush L, read L or close L: bpftap steps LISTENERS SCRIPT IN",
        ),
        _ => None,
    }
}

/// How `explain` is called with these arguments for every packet.
fn every_packet<S: AsStr>(words: &[S]) -> &'static str {
    if has_word(words, "-c") {
        "of every packet: bpftap explain -c -e '' IN"
    } else if has_word(words, "-l") {
        "of every packet: bpftap explain -l -e '' IN"
    } else {
        "of every packet: bpftap explain -e '' IN"
    }
}

/// Whether a word is a number.
fn is_number(word: &str) -> bool {
    !word.is_empty() && word.bytes().all(|byte| byte.is_ascii_digit())
}

/// Whether a word is the name of a capture.
pub fn is_capture_name<S: AsStr>(word: &S) -> bool {
    let name = word.as_str();
    name.ends_with(".pcap") || name.ends_with(".cap") || name.ends_with(".pcapng")
}

/// Whether a word can be no expression: it is the name of a capture, an option other than those
/// that give a filter, or its number.
fn is_beside_filters<S: AsStr>(word: &S) -> bool {
    let text = word.as_str();
    let gives_filter = text.starts_with("-e") || text.starts_with("-f");
    is_capture_name(word) || is_number(text) || (text.starts_with("-") && !gives_filter)
}

/// Whether these are arguments of `explain` with a capture and without a filter.
fn lacks_filter<S: AsStr>(words: &[S]) -> bool {
    command_of(words) == Some("explain")
        && words.iter().any(is_capture_name)
        && words.iter().skip(2).all(is_beside_filters)
}

/// Whether a number follows an option.
fn gives_number<S: AsStr>(words: &[S], option: &str) -> bool {
    words.windows(2).any(|pair| match pair {
        [first, second] => first.as_str() == option && is_number(second.as_str()),
        _ => false,
    })
}

/// What is said of the name of a file of lines that is such a line: a name with a blank in it.
fn line_way<S: AsStr>(words: &[S]) -> Option<&'static str> {
    let command = command_of(words)?;
    let (first, _) = words.get(2)?.as_str().split_once(" ")?;
    match command {
        "steps" | "split" | "run" if is_number(first) => Some("this is a line: put it into a file"),
        _ => None,
    }
}

/// Hints on arguments with which a command failed to open a file: a `-` that was meant as a stream,
/// a number after `-c`, or a line in place of a file of lines.
pub fn hint_failed_words<S: AsStr, E: HintSink>(words: &[S], err: &mut E)
    ensures quiet { E.takes_hints err.old ≡ false → err.new ≡ err.old }
{
    if has_word(words, "-") {
        give_hint(
            "`-` is the name of a file here: standard input is /dev/stdin, standard output /dev/stdout",
            err,
        );
    }
    if (is_cut(words) || command_of(words) == Some("explain")) && gives_number(words, "-c") {
        give_hint("-c takes no number: it counts packets", err);
        give_hint(FIRST_PACKETS, err);
    }
    if let Some(hint) = line_way(words) {
        give_hint(hint, err);
    }
}

/// A hint on the OUT of `cut` that is a file named `-`.
pub fn hint_dash_output<E: HintSink>(output: &str, err: &mut E)
    ensures quiet { E.takes_hints err.old ≡ false → err.new ≡ err.old }
{
    if output == "-" {
        give_hint(
            "the packets are in a file named `-`: standard output is /dev/stdout",
            err,
        )
    }
}
