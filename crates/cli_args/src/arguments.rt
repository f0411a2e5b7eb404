//! The arguments of the subcommands, each made by what it is.

use clap::{Arg, ArgAction};
use std::alloc::{AllocError, Global};

/// An argument of a subcommand: its name, its letter, what its help calls the value, and the help
/// itself.
#[derive(Clone, Copy)]
pub(crate) enum Argument {
    /// An option without a value.
    Flag(&'static str, char, &'static str),
    /// An option of a name without a letter, and without a value.
    LongFlag(&'static str, &'static str),
    /// An option without a value that may be repeated.
    Count(&'static str, char, &'static str),
    /// An option with a value.
    Text(&'static str, char, &'static str, &'static str),
    /// An option whose value is a number.
    Number(&'static str, char, &'static str, &'static str),
    /// An option of a name without a letter, whose value is a number.
    LongNumber(&'static str, &'static str, &'static str),
    /// An option of a name without a letter, with a value.
    LongText(&'static str, &'static str, &'static str),
    /// The path of a file.
    Path(&'static str, &'static str),
    /// The paths of one file or more.
    Paths(&'static str, &'static str),
    /// A word that may be missing.
    Optional(&'static str, &'static str),
    /// Any number of further words.
    Others(&'static str, &'static str),
    /// The snapshot length that packets are cut to.
    Snap,
    /// The snapshot length of a program that is printed or explained.
    DefaultSnap,
    /// The listing of a filter program.
    Listing,
    /// The byte order of what is written.
    Order,
    /// The unit of time of what is written.
    Unit,
    /// Whether an expression is printed as it was read.
    Read,
    /// Whether only the exit status answers.
    Quiet(&'static str),
    /// Whether JSON Lines are printed.
    Json,
    /// An expression, as a word of its own, if no other filter is given.
    Word,
    /// An expression after `-e`, in place of the word.
    Expr,
}

impl Argument {
    /// The argument as `clap` has it.
    pub fn to_arg<'a>(self, alloc: Global) -> Result<Arg<'a>, AllocError> {
        match self {
            Argument::Flag(name, short, help) => Ok(flag(alloc, name, short, help)),
            Argument::LongFlag(name, help) => Ok(long_flag(alloc, name, help)),
            Argument::Count(name, short, help) => Ok(count(alloc, name, short, help)),
            Argument::Text(name, short, value, help) => Ok(option(alloc, name, short, value, help)),
            Argument::Number(name, short, value, help) => Ok(number(
                alloc, name, short, value, help,
            )),
            Argument::LongNumber(name, value, help) => Ok(long_number(alloc, name, value, help)),
            Argument::LongText(name, value, help) => Ok(long_option(alloc, name, value, help)),
            Argument::Path(name, help) => Ok(path(alloc, name, help)),
            Argument::Paths(name, help) => Ok(paths(alloc, name, help)),
            Argument::Optional(name, help) => Ok(Arg::new(alloc, name).help(help)),
            Argument::Others(name, help) => Ok(Arg::new(alloc, name).help(help).num_args(0..)),
            Argument::Snap => Ok(snap(alloc)),
            Argument::DefaultSnap => Ok(default_snap(alloc)),
            Argument::Listing => Ok(listing(alloc)),
            Argument::Order => Ok(order(alloc)),
            Argument::Unit => Ok(unit(alloc)),
            Argument::Read => read(alloc),
            Argument::Quiet(help) => Ok(quiet(alloc, help)),
            Argument::Json => Ok(json(alloc)),
            Argument::Word => word(alloc),
            Argument::Expr => expr(alloc),
        }
    }
}

/// An option with a value.
fn option<'a>(alloc: Global, name: &'a str, short: char, value: &'a str, help: &'a str) -> Arg<'a> {
    Arg::new(alloc, name)
        .short(short)
        .value_name(value)
        .help(help)
}

/// An option whose value is a number; one with a sign is a value too, and refused as one.
fn number<'a>(alloc: Global, name: &'a str, short: char, value: &'a str, help: &'a str) -> Arg<'a> {
    option(alloc, name, short, value, help).allow_negative_numbers(true)
}

/// An option of a name without a letter, with a value.
fn long_option<'a>(alloc: Global, name: &'a str, value: &'a str, help: &'a str) -> Arg<'a> {
    Arg::new(alloc, name)
        .long(name)
        .value_name(value)
        .help(help)
}

/// An option of a name without a letter, whose value is a number; one with a sign is a value too,
/// and refused as one.
fn long_number<'a>(alloc: Global, name: &'a str, value: &'a str, help: &'a str) -> Arg<'a> {
    long_option(alloc, name, value, help).allow_negative_numbers(true)
}

/// An option without a value.
fn flag<'a>(alloc: Global, name: &'a str, short: char, help: &'a str) -> Arg<'a> {
    Arg::new(alloc, name)
        .short(short)
        .action(ArgAction::SetTrue)
        .help(help)
}

/// An option of a name without a letter, and without a value.
fn long_flag<'a>(alloc: Global, name: &'a str, help: &'a str) -> Arg<'a> {
    Arg::new(alloc, name)
        .long(name)
        .action(ArgAction::SetTrue)
        .help(help)
}

/// An option without a value that may be repeated.
fn count<'a>(alloc: Global, name: &'a str, short: char, help: &'a str) -> Arg<'a> {
    Arg::new(alloc, name)
        .short(short)
        .action(ArgAction::Count)
        .help(help)
}

/// The path of a file.
fn path<'a>(alloc: Global, name: &'a str, help: &'a str) -> Arg<'a> {
    Arg::new(alloc, name).required(true).help(help)
}

/// The paths of one file or more.
fn paths<'a>(alloc: Global, name: &'a str, help: &'a str) -> Arg<'a> {
    path(alloc, name, help).num_args(1..)
}

/// The snapshot length that packets are cut to, which has to be given.
fn snap<'a>(alloc: Global) -> Arg<'a> {
    number(
        alloc,
        "snap",
        's',
        "N",
        "Snapshot length: keep at most N bytes of a packet, 0 to 262144; 0: 262144",
    )
    .required(true)
}

/// The snapshot length of a program that is printed or explained.
fn default_snap<'a>(alloc: Global) -> Arg<'a> {
    number(
        alloc,
        "snap",
        's',
        "N",
        "Snapshot length of the program, 0 to 262144; 0: that",
    )
    .default_value("262144")
}

/// The listing of a filter program.
fn listing<'a>(alloc: Global) -> Arg<'a> {
    option(
        alloc,
        "listing",
        'f',
        "LISTING",
        "Filter program: assembly, or as tcpdump -d or -ddd prints it",
    )
}

/// The byte order of what is written.
fn order<'a>(alloc: Global) -> Arg<'a> {
    option(alloc, "order", 'o', "ORDER", "Byte order of OUT")
        .value_parser(["little", "big"].as_slice())
        .default_value("little")
}

/// The unit of time of what is written.
fn unit<'a>(alloc: Global) -> Arg<'a> {
    option(alloc, "unit", 'u', "UNIT", "Unit of OUT's time stamps")
        .value_parser(["micro", "nano"].as_slice())
        .default_value("micro")
}

/// Whether an expression is printed as it was read.
fn read<'a>(alloc: Global) -> Result<Arg<'a>, AllocError> {
    flag(
        alloc,
        "read",
        'x',
        "Print the expression as it was read, with all that it inherits written out",
    )
    .conflicts_with("named")?
    .conflicts_with("listing")
}

/// Whether only the exit status answers.
fn quiet<'a>(alloc: Global, help: &'a str) -> Arg<'a> {
    flag(alloc, "quiet", 'q', help)
}

/// Whether JSON Lines are printed.
fn json<'a>(alloc: Global) -> Arg<'a> {
    long_flag(
        alloc,
        "json",
        "Print JSON Lines: one object for each line; faults too",
    )
}

/// An expression, as a word of its own, if no other filter is given.
fn word<'a>(alloc: Global) -> Result<Arg<'a>, AllocError> {
    Arg::new(alloc, "EXPR")
        .help("Filter expression of pcap-filter(7), as one word; it may be empty")
        .required_unless_present("expr")?
        .required_unless_present("listing")?
        .conflicts_with("listing")
}

/// An expression after `-e`, in place of the word.
fn expr<'a>(alloc: Global) -> Result<Arg<'a>, AllocError> {
    option(
        alloc,
        "expr",
        'e',
        "EXPR",
        "The expression, as cut and explain take it",
    )
    .conflicts_with("EXPR")?
    .conflicts_with("listing")
}
