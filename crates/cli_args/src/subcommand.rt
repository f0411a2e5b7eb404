//! A subcommand that is made argument by argument.

use crate::arguments::Argument;
use clap::error::ErrorKind;
use clap::{Command, Error};
use std::alloc::{AllocError, Global};

/// The subcommand with one more argument.
fn with_argument<'a>(
    alloc: Global,
    command: Command<'a>,
    argument: Argument,
) -> Result<Command<'a>, AllocError> {
    command.arg(argument.to_arg(alloc)?)
}

/// A subcommand with these arguments, in the order of its help.
pub(crate) fn subcommand<'a>(
    alloc: Global,
    name: &'a str,
    about: &'a str,
    examples: &'a str,
    arguments: &[Argument],
) -> Result<Command<'a>, AllocError> {
    let mut command = Command::new(alloc, name).about(about).after_help(examples);
    for argument in arguments {
        command = with_argument(alloc, command, *argument)?;
    }
    Ok(command)
}

/// The error of words that a subcommand does not take, with the usage of that, by its whole name.
pub(crate) fn usage_error(
    subcommand: Result<Command<'_>, AllocError>,
    name: &str,
    kind: ErrorKind,
    wanted: &str,
) -> Result<Error, AllocError> {
    let mut command = subcommand?.bin_name(name)?;
    command.error(kind, wanted)
}

/// The error of a value that a subcommand does not take, with the usage of that, by its whole name.
pub(crate) fn bad_value(
    subcommand: Result<Command<'_>, AllocError>,
    name: &str,
    wanted: &str,
) -> Result<Error, AllocError> {
    usage_error(subcommand, name, ErrorKind::ValueValidation, wanted)
}
