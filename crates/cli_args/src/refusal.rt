//! The error of arguments that are refused, as it is printed.

use crate::check::check_usage;
use crate::command_line::{program, read_words, subcommand_of};
use crate::compare::compare_usage;
use crate::cut::cut_usage;
use crate::explain::explain_usage;
use crate::subcommand::{bad_value, usage_error};
use clap::Error;
use clap::error::ErrorKind;
use cli_text::report::EscapedPath;
use std::alloc::{AllocError, Global};
use std::convert::AsStr;

/// The option that an expression is given by.
const EXPR_OPTION: &str = "-e";

/// What a word after `-e` is that begins with `-`.
const EXPR_WANTED: &str =
    "-e takes an expression; put one that begins with - in parentheses, as -e '(-1 + len > 60)', or write -e='-1 + len > 60'";

/// What an expression is that is a word of its own and begins with `-`.
const WORD_WANTED: &str =
    "put an expression that begins with - in parentheses, as '(-1 + len > 60)'";

/// Whether `-e` comes before a word that begins with `-`.
fn has_dashed_expression<S: AsStr>(words: &[S]) -> bool {
    let mut after_option = false;
    for word in words {
        let word = word.as_str();
        if after_option && word.starts_with("-") {
            return true;
        }
        after_option = word == EXPR_OPTION;
    }
    false
}

/// Whether a character is in no option.
fn is_of_expression(one: char) -> bool {
    one == ' ' || one == '['
}

/// Whether a word is an expression that begins with `-`.
fn is_dashed<S: AsStr>(word: &S) -> bool {
    let word = word.as_str();
    word.starts_with("-") && !word.starts_with(EXPR_OPTION) && word.contains(is_of_expression)
}

/// The name of the command.
fn command_of<S: AsStr>(words: &[S]) -> &str {
    match words.get(1) {
        Some(word) => word.as_str(),
        None => "",
    }
}

/// The error of an expression after `-e` that begins with `-`, with the usage of its subcommand.
fn dashed_value<S: AsStr>(alloc: Global, words: &[S]) -> Result<Option<Error>, AllocError> {
    let error = match command_of(words) {
        "cut" => bad_value(cut_usage(alloc), "bpftap cut", EXPR_WANTED)?,
        "explain" => bad_value(explain_usage(alloc), "bpftap explain", EXPR_WANTED)?,
        "check" => bad_value(check_usage(alloc), "bpftap check", EXPR_WANTED)?,
        _ => return Ok(None),
    };
    Ok(Some(error))
}

/// The error of an expression without `-e` that begins with `-`, with the usage of its subcommand.
fn dashed_word<S: AsStr>(alloc: Global, words: &[S]) -> Result<Option<Error>, AllocError> {
    let error = match command_of(words) {
        "check" => bad_value(check_usage(alloc), "bpftap check", WORD_WANTED)?,
        "compare" => bad_value(compare_usage(alloc), "bpftap compare", WORD_WANTED)?,
        _ => return Ok(None),
    };
    Ok(Some(error))
}

/// The error of an expression that begins with `-`; `None` if no such one is given.
fn dashed_expression<S: AsStr>(alloc: Global, words: &[S]) -> Result<Option<Error>, AllocError> {
    if has_dashed_expression(words) {
        dashed_value(alloc, words)
    } else if words.iter().any(is_dashed) {
        dashed_word(alloc, words)
    } else {
        Ok(None)
    }
}

/// What comes before clap's advice to put an unknown option after `--`.
const TIP: &str = "\n\n  tip: to pass '";

/// What the text of an error begins with.
const ERROR: &str = "error: ";

/// The error of an unknown option without the advice to put it after `--`, where it would be taken
/// for a file.
fn without_tip<S: AsStr>(alloc: Global, words: &[S], error: Error) -> Result<Error, AllocError> {
    let text = format!(in alloc; "{error}")?;
    let Some((what, _)) = text.as_str().split_once(TIP) else {
        return Ok(error);
    };
    let name = command_of(words);
    let whole_name = format!(in alloc; "bpftap {name}")?;
    usage_error(
        subcommand_of(alloc, name),
        whole_name.as_str(),
        ErrorKind::UnknownArgument,
        what.strip_prefix(ERROR).unwrap_or(what),
    )
}

/// The error of an unknown option: of an expression that begins with `-` it says how that is
/// written.
fn unknown_argument<S: AsStr>(
    alloc: Global,
    words: &[S],
    error: Error,
) -> Result<Error, AllocError> {
    match dashed_expression(alloc, words)? {
        Some(error) => Ok(error),
        None => without_tip(alloc, words, error),
    }
}

/// The error of arguments that are refused. For an expression that `clap` takes for options it is
/// one of its own, and for an unknown option it lacks the advice of `clap` to write the word `--`.
pub fn refusal_of<S: AsStr>(alloc: Global, words: &[S], error: Error) -> Error {
    if error.kind() != ErrorKind::UnknownArgument {
        return error;
    }
    match unknown_argument(alloc, words, error) {
        Ok(error) => error,
        Err(refused) => Error::from(refused),
    }
}

/// The text of an error up to its first empty line.
fn first_lines(text: &str) -> &str {
    let what = match text.split_once("\n\n") {
        Some((what, _)) => what,
        None => text,
    };
    what.strip_prefix(ERROR).unwrap_or(what)
}

/// [`with_way`], if there is memory for its text.
fn error_with_way(alloc: Global, error: &Error, way: &str) -> Result<Error, AllocError> {
    let text = format!(in alloc; "{error}")?;
    let what = first_lines(text.as_str());
    let told = format!(in alloc; "{what}\n\n  tip: {way}")?;
    program(alloc)?.error(ErrorKind::InvalidSubcommand, told.as_str())
}

/// The error of a command that there is not, with the way to do what its name stands for elsewhere
/// in place of the advice of `clap`, which names a command that is spelt alike.
pub fn with_way(alloc: Global, error: &Error, way: &str) -> Error {
    match error_with_way(alloc, error, way) {
        Ok(error) => error,
        Err(refused) => Error::from(refused),
    }
}

/// Whether a word has a control character.
fn has_control<S: AsStr>(word: &S) -> bool {
    word.as_str().chars().any(char::is_control)
}

/// The words with their control characters escaped, as those of paths.
fn escape_all<S: AsStr>(alloc: Global, words: &[S]) -> Result<Vec<String>, AllocError> {
    let mut escaped = Vec::with_capacity(alloc, words.len())?;
    for word in words {
        escaped.push(format!(in alloc; "{}", EscapedPath(word.as_str()))?)?;
    }
    Ok(escaped)
}

/// The error of arguments as it is printed: that of the same arguments with their control
/// characters escaped, so that none of them controls a terminal.
pub fn printed_error<S: AsStr>(alloc: Global, words: &[S], error: Error) -> Error {
    if !words.iter().any(has_control) {
        return error;
    }
    let escaped = match escape_all(alloc, words) {
        Ok(escaped) => escaped,
        Err(refused) => return Error::from(refused),
    };
    match read_words(alloc, escaped.as_slice()) {
        Err(error) => error,
        Ok(_) => error,
    }
}
