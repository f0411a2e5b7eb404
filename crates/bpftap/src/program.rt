//! The commands.

use clap::Error;
use clap::error::ErrorKind;
use cli_args::check::{CheckWords, GraphWords};
use cli_args::command_line::{Request, read_words};
use cli_args::compare::CompareWords;
use cli_args::counting::CountWords;
use cli_args::cut::CutWords;
use cli_args::explain::ExplainWords;
use cli_args::info::InfoWords;
use cli_args::parts::PartsWords;
use cli_args::refusal::{printed_error, with_way};
use cli_args::report::{print_page, report_words_fault};
use cli_args::run::RunWords;
use cli_args::split::SplitWords;
use cli_args::steps::StepsWords;
use cli_compare::command::compare_command;
use cli_count::command::count_command;
use cli_cut::command::{check_command, cut_command};
use cli_cut::part::cut_part_command;
use cli_explain::command::explain_command;
use cli_filter_hints::quotes::{hint_filter_word, hint_listing_word, hint_unquoted};
use cli_graph::command::graph_command;
use cli_info::command::info_command;
use cli_parts::join::join_command;
use cli_parts::parts::parts_command;
use cli_report::commands::{
    command_way, hint_conflict, hint_dash_output, hint_failed_words, hint_missing, hint_option,
    hint_value,
};
use cli_report::stream::give_hint;
use cli_report::{ErrorStream, HintSink};
use cli_run::command::{NamesFiles, run_command};
use cli_split::command::split_command;
use cli_steps::command::steps_command;
use cli_text::Status;
use cli_text::report::EscapedPath;
use cli_watch::Screen;
use cli_watch::output::PrintSink;
use filter_spots::is_word;
use line_text::LineForm;
use std::alloc::Global;
use std::convert::AsStr;
use std::fs::Files;
use std::io::Write;
use std::sync::Wait;
use std::thread::Threads;

/// Runs the command that the words ask for, the program's name first. What was asked for goes to
/// `out`, faults go to `err`, and the exit status comes back.
pub fn run<
    R: Files + AllocGlobal + NamesFiles + Screen + Threads + Wait + Sync,
    S: AsStr,
    O: PrintSink,
    W: Write,
>(rt: &R, words: &[S], out: &mut O, err: &mut ErrorStream<W>) -> Status {
    let status = dispatch(rt, words, out, err);
    if status == Status::Failed {
        hint_failed_words(words, err);
        hint_listing_word(rt.alloc(), words, err);
        hint_filter_word(words, err);
    }
    status
}

/// What the words ask for. As each command below it is a function of its own, since else one frame
/// on the stack has the locals of all.
#[inline(never)]
fn request_of<'a, S: AsStr>(alloc: Global, words: &'a [S]) -> Result<Request<'a>, Error> {
    read_words(alloc, words)
}

/// [`run`], once all standard streams are open.
fn dispatch<
    R: Files + AllocGlobal + NamesFiles + Screen + Threads + Wait + Sync,
    S: AsStr,
    O: PrintSink,
    W: Write,
>(rt: &R, words: &[S], out: &mut O, err: &mut ErrorStream<W>) -> Status {
    match request_of(rt.alloc(), words) {
        Ok(Request::Check(asked)) => check(rt, &asked, out, err),
        Ok(Request::Graph(asked)) => graph(rt, &asked, out, err),
        Ok(Request::Explain(asked)) => {
            let status = explain(rt, &asked, out, err);
            hint_several(rt.alloc(), words, asked.inputs.as_slice(), status, err)
        }
        Ok(Request::Count(asked)) => {
            let status = count(rt, &asked, out, err);
            hint_several(rt.alloc(), words, asked.inputs.as_slice(), status, err)
        }
        Ok(Request::Compare(asked)) => {
            let status = compare(rt, &asked, out, err);
            hint_words(rt.alloc(), words, status, err)
        }
        Ok(Request::Cut(asked)) => {
            let status = cut(rt, &asked, out, err);
            if status == Status::Clean || status == Status::Damaged {
                hint_dash_output(asked.output, err);
                hint_expression_as_output(&asked, err);
            }
            hint_several(rt.alloc(), words, asked.inputs.as_slice(), status, err)
        }
        Ok(Request::Info(asked)) => info(rt, &asked, out, err),
        Ok(Request::Steps(asked)) => steps(rt, &asked, out, err),
        Ok(Request::Run(asked)) => replay(rt, &asked, out, err),
        Ok(Request::Split(asked)) => split(rt, &asked, out, err),
        Ok(Request::Parts(asked)) => parts(rt, &asked, out, err),
        Ok(Request::Join(asked)) => join_command(rt, &asked, out, err),
        Ok(Request::Topic(page)) => print_page(page, out, err),
        Err(error) => report_usage(rt.alloc(), words, error, out, err),
    }
}

/// `check`.
#[inline(never)]
fn check<R: Files + AllocGlobal + Screen, O: PrintSink, W: Write>(
    rt: &R,
    words: &CheckWords<'_>,
    out: &mut O,
    err: &mut ErrorStream<W>,
) -> Status {
    err.set_form(LineForm::asked(words.json));
    check_command(rt, words, out, err)
}

/// `check --dot`.
#[inline(never)]
fn graph<R: Files + AllocGlobal + Screen, O: Write, W: Write>(
    rt: &R,
    words: &GraphWords<'_>,
    out: &mut O,
    err: &mut ErrorStream<W>,
) -> Status {
    graph_command(rt, words, out, err)
}

/// `explain`.
#[inline(never)]
fn explain<R: Files + AllocGlobal + Screen, O: Write, W: Write>(
    rt: &R,
    words: &ExplainWords<'_>,
    out: &mut O,
    err: &mut ErrorStream<W>,
) -> Status {
    err.set_form(LineForm::asked(words.json));
    explain_command(rt, words, out, err)
}

/// `explain -c`.
#[inline(never)]
fn count<R: Files + AllocGlobal + Screen, O: Write, W: Write>(
    rt: &R,
    words: &CountWords<'_>,
    out: &mut O,
    err: &mut ErrorStream<W>,
) -> Status {
    err.set_form(LineForm::asked(words.json));
    count_command(rt, words, out, err)
}

/// `compare`.
#[inline(never)]
fn compare<R: Files + AllocGlobal + Screen, O: Write, W: Write>(
    rt: &R,
    words: &CompareWords<'_>,
    out: &mut O,
    err: &mut ErrorStream<W>,
) -> Status {
    err.set_form(LineForm::asked(words.json));
    compare_command(rt, words, out, err)
}

/// `cut`.
#[inline(never)]
fn cut<R: Files + AllocGlobal + Screen, O: Write, W: Write>(
    rt: &R,
    words: &CutWords<'_>,
    out: &mut O,
    err: &mut ErrorStream<W>,
) -> Status {
    err.set_form(LineForm::asked(words.json));
    match words.bytes {
        Some(bytes) => cut_part_command(rt, words, bytes, out, err),
        None => cut_command(rt, words, err),
    }
}

/// `info`.
#[inline(never)]
fn info<R: Files + AllocGlobal + Screen, O: Write, W: Write>(
    rt: &R,
    words: &InfoWords<'_>,
    out: &mut O,
    err: &mut ErrorStream<W>,
) -> Status {
    err.set_form(LineForm::asked(words.json));
    info_command(rt, words, out, err)
}

/// `steps`.
#[inline(never)]
fn steps<R: Files + AllocGlobal + Screen, O: Write, W: Write>(
    rt: &R,
    words: &StepsWords<'_>,
    out: &mut O,
    err: &mut ErrorStream<W>,
) -> Status {
    err.set_form(LineForm::asked(words.json));
    steps_command(rt, words, out, err)
}

/// `run`.
#[inline(never)]
fn replay<R: Files + AllocGlobal + NamesFiles + Screen + Threads + Wait + Sync, O: Write, W: Write>(
    rt: &R,
    words: &RunWords<'_>,
    out: &mut O,
    err: &mut ErrorStream<W>,
) -> Status {
    err.set_form(LineForm::asked(words.json));
    run_command(rt, words, out, err)
}

/// `split`.
#[inline(never)]
fn split<R: Files + AllocGlobal + Screen, O: Write, W: Write>(
    rt: &R,
    words: &SplitWords<'_>,
    out: &mut O,
    err: &mut ErrorStream<W>,
) -> Status {
    err.set_form(LineForm::asked(words.json));
    split_command(rt, words, out, err)
}

/// `parts`.
#[inline(never)]
fn parts<R: Files + AllocGlobal + Screen, O: Write, W: Write>(
    rt: &R,
    words: &PartsWords<'_>,
    out: &mut O,
    err: &mut ErrorStream<W>,
) -> Status {
    err.set_form(LineForm::asked(words.json));
    parts_command(rt, words, out, err)
}

/// Hints on arguments that look like an expression without quotes, if the command failed. Returns
/// the exit status.
fn hint_words<S: AsStr, E: HintSink>(
    alloc: Global,
    words: &[S],
    status: Status,
    err: &mut E,
) -> Status {
    if status == Status::Refused || status == Status::Failed {
        hint_unquoted(alloc, words, err);
    }
    status
}

/// Hints on arguments of which several are taken for captures, if the command failed: they may be
/// an expression without quotes. Returns the exit status.
fn hint_several<S: AsStr, E: HintSink>(
    alloc: Global,
    words: &[S],
    inputs: &[&str],
    status: Status,
    err: &mut E,
) -> Status {
    if inputs.len() > 1 {
        hint_words(alloc, words, status, err)
    } else {
        status
    }
}

/// The error of arguments as it is printed: of a command of other tools it has the way to do the
/// same here.
fn usage_error<S: AsStr>(alloc: Global, words: &[S], error: Error) -> Error {
    let error = printed_error(alloc, words, error);
    match command_way(words) {
        Some(way) if error.kind() == ErrorKind::InvalidSubcommand => with_way(alloc, &error, way),
        _ => error,
    }
}

/// Reports what is wrong with the words, or prints help, and answers the exit status.
#[inline(never)]
fn report_usage<S: AsStr, O: Write, E: HintSink>(
    alloc: Global,
    words: &[S],
    error: Error,
    out: &mut O,
    err: &mut E,
) -> Status {
    let error = usage_error(alloc, words, error);
    let status = report_words_fault(&error, out, err);
    match error.kind() {
        ErrorKind::UnknownArgument => {
            hint_option(words, err);
            hint_unquoted(alloc, words, err)
        }
        ErrorKind::ArgumentConflict => {
            hint_conflict(words, err);
            hint_unquoted(alloc, words, err)
        }
        ErrorKind::InvalidValue => hint_value(words, err),
        ErrorKind::TooManyValues => {
            hint_failed_words(words, err);
            hint_unquoted(alloc, words, err)
        }
        ErrorKind::InvalidSubcommand => hint_expression_for_command(words, err),
        ErrorKind::MissingRequiredArgument => hint_missing_word(alloc, words, err),
        _ => {}
    }
    status
}

/// A hint on an OUT of `cut` that looks like an expression: several words, or one where no filter
/// is given.
fn hint_expression_as_output<E: HintSink>(words: &CutWords<'_>, err: &mut E) {
    let has_filter = words.expr.is_some() || words.listing.is_some();
    if begins_with_word(words.output) && (words.output.contains(' ') || !has_filter) {
        give_hint(
            format_args!(
                "the packets are in a file named {}: an expression goes after -e",
                EscapedPath(words.output)
            ),
            err,
        );
    }
}

/// Whether an argument begins with a word of the filter language.
fn begins_with_word(word: &str) -> bool {
    match word.split_once(|one: char| one == ' ' || one == '[') {
        Some((first, _)) => is_word(first),
        None => is_word(word),
    }
}

/// A hint on an expression in the place of a command.
fn hint_expression_for_command<S: AsStr, E: HintSink>(words: &[S], err: &mut E) {
    if let Some(name) = words.get(1) {
        if begins_with_word(name.as_str()) {
            give_hint(
                "an expression goes to a command: bpftap explain -e EXPR IN, or bpftap check EXPR",
                err,
            );
        }
    }
}

/// Hints on arguments of which one is missing.
fn hint_missing_word<S: AsStr, E: HintSink>(alloc: Global, words: &[S], err: &mut E) {
    hint_missing(words, err);
    if takes_expression_for_capture(words) {
        hint_unquoted(alloc, words, err)
    }
}

/// Whether these are arguments of `explain` or `cut` without a filter: it took an expression that
/// is given without `-e` for a capture.
fn takes_expression_for_capture<S: AsStr>(words: &[S]) -> bool {
    words
        .iter()
        .take(3)
        .any(|word| matches!(word.as_str(), "explain" | "cut"))
        && !words.iter().any(gives_filter)
}

/// Whether a word is an option that gives a filter.
fn gives_filter<S: AsStr>(word: &S) -> bool {
    let word = word.as_str();
    word.starts_with("-e") || word.starts_with("-f")
}
