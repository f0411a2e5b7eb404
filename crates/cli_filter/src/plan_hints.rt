//! Hints on a plan that is refused, below the line of its fault.

ghost use Rattle.std.specs.Prelude.{◌≡◌, false};

use crate::filters::hint_expression;
use crate::plan::{PlanFault, PlanLine, read_lines};
use cli_report::HintSink;
use cli_report::files::hint_bad_line;
use cli_report::stream::give_hint;
use filtergen::ExpressionFault;
use std::alloc::Global;
use visible_text::Shown;

/// Whether an expression begins with the end of a path, which has a blank.
fn begins_with_path(expression: &str) -> bool {
    expression
        .split(' ')
        .next()
        .unwrap_or("")
        .ends_with(".pcap")
}

/// A hint on the expression of a line. If it begins with the end of a path, OUT ended at the blank in that, and nothing is said of the rest.
fn hint_line_expression<E: HintSink>(
    alloc: Global,
    output: &str,
    expression: &str,
    fault: ExpressionFault,
    err: &mut E,
)
    ensures quiet { E.takes_hints err.old ≡ false → err.new ≡ err.old }
{
    if begins_with_path(expression) {
        give_hint(
            format_args!(
                "OUT ends at the first blank, and is `{}` here: give a path without blanks",
                Shown(output.as_bytes())
            ),
            err,
        );
    } else {
        hint_expression(alloc, expression, fault, err);
    }
}

/// Hints on the line or the expression that is refused. `form` is the form of a line.
pub fn hint_plan<'a, L: PlanLine<'a>, E: HintSink>(
    alloc: Global,
    text: &'a [u8],
    terms: L::Terms,
    form: &str,
    fault: PlanFault,
    err: &mut E,
)
    ensures quiet { E.takes_hints err.old ≡ false → err.new ≡ err.old }
{
    match fault {
        PlanFault::Line(line) => hint_bad_line(text, line, form, err),
        PlanFault::Expression(n, fault) => {
            let lines: Result<Vec<L>, PlanFault> = read_lines(alloc, text, terms, usize::MAX);
            if let Some(line) = lines.as_ref().ok().and_then(|lines| lines.get(n)) {
                hint_line_expression(alloc, line.output(), line.expression(), fault, err);
            }
        }
        PlanFault::TooMany | PlanFault::NoMemory => {}
    }
}
