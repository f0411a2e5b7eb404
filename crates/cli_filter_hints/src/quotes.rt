//! A hint on an expression whose quotes are missing, or the option before it.

ghost use Rattle.std.specs.Prelude.{◌≡◌, false};

use cli_report::commands::{command_of, is_capture_name, way_of_filter};
use cli_report::stream::{HintSink, give_hint};
use filter_spots::{is_expression, is_word};
use filterlang::{Fault, lex};
use std::alloc::{AllocError, Global};
use std::convert::AsStr;
use std::io::Write;

/// How many bytes of an expression are shown at most.
const MAX_QUOTED: usize = 300;

/// Words with a blank between two of them.
fn join<S: AsStr>(alloc: Global, words: &[S]) -> Result<String, AllocError> {
    let mut text = String::new(alloc);
    for word in words {
        if !text.is_empty() {
            text.push_str(" ")?;
        }
        text.push_str(word.as_str())?;
    }
    Ok(text)
}

/// Whether a word is of tokens of the filter language only.
fn is_lexed(alloc: Global, word: &str) -> Result<bool, AllocError> {
    match lex(alloc, word) {
        Ok(tokens) => Ok(!tokens.is_empty()),
        Err(Fault::NoMemory) => Err(AllocError),
        Err(_) => Ok(false),
    }
}

/// Whether an argument begins with a word of the filter language.
fn begins_with_word(word: &str) -> bool {
    match word.split_once(|one: char| one == ' ' || one == '[') {
        Some((first, _)) => is_word(first),
        None => is_word(word),
    }
}

/// Whether an argument is an option, as `-s` or `--hints`.
fn is_option(word: &str) -> bool {
    match word.as_bytes() {
        [b'-', next, ..] => *next == b'-' || next.is_ascii_alphabetic(),
        _ => false,
    }
}

/// Whether a word is an option with a value after it that is no expression.
fn takes_value(word: &str) -> bool {
    matches!(word, "-s" | "-o" | "-u" | "-f" | "-p" | "-w")
}

/// Where the arguments that look like an expression begin: at the first one that begins with a word
/// of the filter language, or at the tokens right before it, as `!` and `10 <`, but not at an
/// option or its value.
fn beginning_of<S: AsStr>(alloc: Global, words: &[S]) -> Result<Option<usize>, AllocError> {
    let mut beginning = 0;
    let mut is_value = false;
    for (place, word) in words.iter().enumerate() {
        let word = word.as_str();
        if begins_with_word(word) {
            return Ok(Some(beginning));
        }
        if is_value || is_option(word) || !is_lexed(alloc, word)? {
            beginning = place.saturating_add(1);
        }
        is_value = takes_value(word);
    }
    Ok(None)
}

/// Whether these are arguments of `check`, which takes an expression and little else.
fn is_check<S: AsStr>(words: &[S]) -> bool {
    command_of(words) == Some("check")
}

/// Whether every word belongs to an expression that begins with the first one: `check` takes
/// little else, and the quotes are missing.
fn takes_all<S: AsStr>(words: &[S], first: &str) -> bool {
    is_check(words) && !first.contains(' ')
}

/// The arguments that look like an expression: from its beginning on all that are of tokens; of
/// `check` all up to an option or the name of a capture.
fn expression_in<S: AsStr>(alloc: Global, words: &[S]) -> Result<&[S], AllocError> {
    let Some(beginning) = beginning_of(alloc, words)? else {
        return Ok(&words[..0]);
    };
    let rest = words.get(beginning..).unwrap_or(&words[..0]);
    let takes_all = match rest.first() {
        Some(first) => takes_all(words, first.as_str()),
        None => false,
    };
    for (place, word) in rest.iter().enumerate() {
        let is_taken = takes_all && !word.as_str().starts_with("-") && !is_capture_name(word);
        if !is_taken && !is_lexed(alloc, word.as_str())? {
            return Ok(&rest[..place]);
        }
    }
    Ok(rest)
}

/// Whether a word is an option that gives a filter.
fn gives_filter(word: &str) -> bool {
    word.starts_with("-e") || word.starts_with("-f")
}

/// Whether these are arguments of a command that takes an expression after an option, and give it
/// no filter.
fn lacks_option<S: AsStr>(words: &[S]) -> bool {
    let mut takes_one = false;
    for word in words {
        let word = word.as_str();
        if gives_filter(word) {
            return false;
        }
        takes_one = takes_one || word == "explain" || word == "cut";
    }
    takes_one
}

/// Whether a text can be given in quotes as it is: one that begins with `-` would be taken for an
/// option.
fn can_be_quoted(text: &str) -> bool {
    text.len() <= MAX_QUOTED
        && !text.starts_with("-")
        && !text.chars().any(|one| one == '\'' || one.is_control())
}

/// Whether an expression goes on after the name of a capture: words of the filter language stand
/// before that and after it, and the one after it is no option's value.
fn goes_on_after_capture<S: AsStr>(words: &[S]) -> bool {
    let (mut has_begun, mut is_over, mut is_value) = (false, false, false);
    for word in words {
        let text = word.as_str();
        let is_of_filter = begins_with_word(text);
        if is_over && is_of_filter && !is_value {
            return true;
        }
        is_over = is_over || (has_begun && is_capture_name(word));
        has_begun = has_begun || is_of_filter;
        is_value = text == "-e" || takes_value(text);
    }
    false
}

/// Whether a text is suggested as the expression of these arguments: it is one, and all of what is
/// given.
fn is_suggested<S: AsStr>(alloc: Global, words: &[S], text: &str) -> Result<bool, AllocError> {
    if text.is_empty() || !can_be_quoted(text) || goes_on_after_capture(words) {
        Ok(false)
    } else {
        is_expression(alloc, text)
    }
}

/// Whether each of these words is an expression.
fn are_expressions<S: AsStr>(alloc: Global, words: &[S]) -> Result<bool, AllocError> {
    for word in words {
        if !is_expression(alloc, word.as_str())? {
            return Ok(false);
        }
    }
    Ok(true)
}

/// Whether these are arguments of `check` with a capture, and without the option that it goes with.
fn asks_capture<S: AsStr>(words: &[S]) -> bool {
    is_check(words)
        && words.iter().skip(2).any(is_capture_name)
        && !words.iter().any(|word| word.as_str() == "-p")
}

/// Hints on arguments of `check` that name a capture: which command asks one.
fn hint_capture_of_check<E: HintSink>(text: &str, is_suggested: bool, err: &mut E)
    ensures quiet { E.takes_hints err.old ≡ false → err.new ≡ err.old }
{
    if is_suggested {
        give_hint(
            format_args!(
                "check takes IN only with --dot -p PLACE; for a capture: bpftap explain -e '{text}' IN"
            ),
            err,
        )
    } else {
        give_hint(
            "check takes IN only with --dot -p PLACE; for a capture: bpftap explain -e EXPR IN",
            err,
        )
    }
}

/// Hints on arguments of `check` that look like an expression.
fn hint_expression_of_check<S: AsStr, E: HintSink>(
    alloc: Global,
    expression: &[S],
    text: &str,
    is_suggested: bool,
    err: &mut E,
) -> Result<(), AllocError>
    ensures quiet { E.takes_hints err.old ≡ false → err.new ≡ err.old }
{
    if is_suggested {
        give_hint(
            format_args!("an expression is one word, in quotes: '{text}'"),
            err,
        )
    } else if are_expressions(alloc, expression)? {
        give_hint(
            "check takes one expression at a time; two are compared: bpftap compare EXPR1 EXPR2",
            err,
        )
    } else {
        give_hint(ONE_WORD, err)
    }
    Ok(())
}

/// How an expression is given as a word.
const ONE_WORD: &str = "an expression is one word, in quotes, as 'tcp port 80'";

/// Hints on arguments of `compare` that look like an expression.
fn hint_expression_of_compare<E: HintSink>(text: &str, is_suggested: bool, err: &mut E)
    ensures quiet { E.takes_hints err.old ≡ false → err.new ≡ err.old }
{
    if is_suggested {
        give_hint(
            format_args!(
                "compare takes two expressions, each one word, in quotes: bpftap compare '{text}' EXPR2"
            ),
            err,
        )
    } else {
        give_hint(
            "compare takes two expressions, each one word, in quotes: bpftap compare EXPR1 EXPR2",
            err,
        )
    }
}

/// Hints on arguments of `explain` and `cut` that look like an expression.
fn hint_expression_of_filter<E: HintSink>(
    text: &str,
    is_suggested: bool,
    lacks_option: bool,
    err: &mut E,
)
    ensures quiet { E.takes_hints err.old ≡ false → err.new ≡ err.old }
{
    match (is_suggested, lacks_option) {
        (true, true) => give_hint(
            format_args!("an expression goes after -e, in quotes: -e '{text}'"),
            err,
        ),
        (false, true) => give_hint(AFTER_OPTION, err),
        (true, false) => give_hint(
            format_args!("an expression is one word, in quotes: '{text}'"),
            err,
        ),
        (false, false) => give_hint(ONE_WORD, err),
    }
}

/// Whether these arguments of `compare` are no two expressions of a word each: there is a third, or
/// both words are one.
fn lacks_quotes_of_compare<S: AsStr>(expression: &[S], is_suggested: bool) -> bool {
    expression.len() > 2 || (expression.len() == 2 && is_suggested)
}

/// Hints on the arguments among these that look like an expression.
fn hint_expression_in<S: AsStr, E: HintSink>(
    alloc: Global,
    words: &[S],
    expression: &[S],
    err: &mut E,
) -> Result<(), AllocError>
    ensures quiet { E.takes_hints err.old ≡ false → err.new ≡ err.old }
{
    let text = join(alloc, expression)?;
    let text = text.as_str();
    let is_suggested = is_suggested(alloc, words, text)?;
    match command_of(words) {
        Some("check") if asks_capture(words) => hint_capture_of_check(text, is_suggested, err),
        Some("check") if expression.len() > 1 => {
            hint_expression_of_check(alloc, expression, text, is_suggested, err)?
        }
        Some("compare") if lacks_quotes_of_compare(expression, is_suggested) => {
            hint_expression_of_compare(text, is_suggested, err)
        }
        Some("explain" | "cut") if is_misplaced(words, expression) => {
            hint_expression_of_filter(text, is_suggested, lacks_option(words), err)
        }
        _ => {}
    }
    Ok(())
}

/// Whether an expression among the arguments of `explain` or `cut` lacks its quotes, or the option
/// before it.
fn is_misplaced<S: AsStr>(words: &[S], expression: &[S]) -> bool {
    expression.len() > 1
        || (!expression.is_empty() && (lacks_option(words) || goes_on_after_capture(words)))
}

/// A hint on arguments that are refused: if they look like an expression without quotes, or without
/// an option before it, how it is given; for a capture that `check` is given, which command takes
/// it. Without memory for it there is none.
pub fn hint_unquoted<S: AsStr, E: HintSink>(alloc: Global, words: &[S], err: &mut E)
    ensures quiet { E.takes_hints err.old ≡ false → err.new ≡ err.old }
{
    if let Ok(expression) = expression_in(alloc, words) {
        if expression.is_empty() && lacks_option(words) && words.iter().any(is_filter_of_others) {
            return give_hint(AFTER_OPTION, err);
        }
        let _ = hint_expression_in(alloc, words, expression, err);
    }
}

/// Whether a word looks like a filter of another language, or gives one by an option of another
/// tool.
fn is_filter_of_others<S: AsStr>(word: &S) -> bool {
    let word = word.as_str();
    word.contains("==") || word.starts_with("--filter=")
}

/// How an expression is given to `explain` and `cut`.
const AFTER_OPTION: &str = "an expression goes after -e, in quotes, as -e 'tcp port 80'";

/// Whether these are arguments of `cut` for one IN, without a filter.
fn lacks_filter_of_cut<S: AsStr>(words: &[S]) -> bool {
    command_of(words) == Some("cut")
        && lacks_option(words)
        && !words.iter().any(|word| word.as_str() == "-w")
}

/// A hint on arguments with which a command failed to open a file: an expression, if the command
/// takes none among its arguments.
pub fn hint_filter_word<S: AsStr, E: HintSink>(words: &[S], err: &mut E)
    ensures quiet { E.takes_hints err.old ≡ false → err.new ≡ err.old }
{
    let has_filter = words
        .iter()
        .skip(2)
        .any(|word| begins_with_word(word.as_str()));
    if let (true, Some(command)) = (has_filter, command_of(words)) {
        if let Some(hint) = way_of_filter(command) {
            give_hint(hint, err);
        } else if lacks_filter_of_cut(words) {
            give_hint(AFTER_OPTION, err);
        }
    }
}

/// The word after `-f`.
fn listing_of<S: AsStr>(words: &[S]) -> Option<&str> {
    let place = words.iter().position(|word| word.as_str() == "-f")?;
    Some(words.get(place.saturating_add(1))?.as_str())
}

/// A hint on arguments with which a command failed to open a file: `-f` with an expression, which
/// `-e` takes, and `compare` as a word. Without memory for it there is none.
pub fn hint_listing_word<S: AsStr, E: HintSink>(alloc: Global, words: &[S], err: &mut E)
    ensures quiet { E.takes_hints err.old ≡ false → err.new ≡ err.old }
{
    let Some(text) = listing_of(words) else {
        return;
    };
    if !begins_with_word(text) || !can_be_quoted(text) || is_expression(alloc, text) != Ok(true) {
        return;
    }
    if command_of(words) == Some("compare") {
        give_hint(
            format_args!("this is an expression, without -f: bpftap compare '{text}' EXPR2"),
            err,
        );
    } else {
        give_hint(
            format_args!("this is an expression, which goes after -e: -e '{text}'"),
            err,
        );
    }
}
