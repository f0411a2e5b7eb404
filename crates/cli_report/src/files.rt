//! Hints on files, and on the lines of LINES, LISTENERS, SCRIPT and LISTING.

ghost use Rattle.std.specs.Prelude.{◌≡◌, false};
ghost use Rattle.listener.specs.Messages.{size};
ghost use Rattle.line_text.specs.declared.form.LineForm.TheVariants.{Json};
ghost use Rattle.fault_report.specs.Reports.{TellsMore};

use crate::captures::is_capture;
use crate::stream::{HintSink, give_hint, print_below};
use fault_report::FaultSink;
use line_text::fields::first_line;
use std::io;
use visible_text::Shown;

/// The form of a line of LINES, and what else it needs.
pub const LINES: &str = "SNAP OUT EXPRESSION, with SNAP up to 262144 and an OUT of its own";

/// The form of a line of LISTENERS of `bpftap steps`, and what else it needs.
pub const LISTENERS_OF_STEPS: &str = "SNAP CAPACITY EXPRESSION, with SNAP up to 262144";

/// The form of a line of LISTENERS of `bpftap run`, and what else it needs.
pub const LISTENERS_OF_RUN: &str =
    "INTERFACE FLUSH SNAP CAPACITY SPARES OUT EXPRESSION, with captures of INTERFACE, SNAP up to 262144 and an OUT of its own";

/// The form of a line of SCRIPT.
pub const SCRIPT: &str = "`arrive`, `flush L`, `read L` or `close L`";

/// The form of a line of LISTING.
pub const LISTING: &str = "CODE JT JF K, four numbers, after a first line with how many there are";

/// Why a file could not be opened, read, made or written, as the system says it.
pub fn hint_reason<E: HintSink>(error: &io::Error, err: &mut E)
    ensures quiet { E.takes_hints err.old ≡ false → err.new ≡ err.old }
{
    give_hint(*error, err)
}

/// A line of a text, counted from 1, without the byte 10 at its end; empty if there are fewer
/// lines.
pub fn line_at(text: &[u8], number: usize) -> &[u8] {
    let mut rest = text;
    for _ in 1..number {
        (_, rest) = first_line(rest);
    }
    let (line, _) = first_line(rest);
    line
}

/// How many lines a text has, the last of which may lack its end.
pub fn count_lines(text: &[u8]) -> usize {
    let ended = text.iter().filter(|byte| **byte == b'\n').count();
    if text.is_empty() || text.ends_with(b"\n") {
        ended
    } else {
        ended.saturating_add(1)
    }
}

/// A hint that shows a line, counted from 1.
pub fn show_line<E: HintSink>(text: &[u8], number: usize, err: &mut E)
    ensures quiet { E.takes_hints err.old ≡ false → err.new ≡ err.old }
{
    let line = line_at(text, number);
    if line.is_empty() {
        give_hint(format_args!("line {number} is empty"), err);
    } else {
        give_hint(format_args!("line {number} is: {}", Shown(line)), err);
    }
}

/// What is said of a capture if another file is wanted.
const CAPTURE: &str =
    "this is a capture, and no file of lines: IN comes after LINES, LISTENERS and SCRIPT; join takes none, and cut -s 0 -w OUT IN.. joins captures";

/// Hints on a malformed line: the line itself, and the form. Of a capture only that it is one.
pub fn hint_bad_line<E: HintSink>(text: &[u8], number: usize, form: &str, err: &mut E)
    ensures quiet { E.takes_hints err.old ≡ false → err.new ≡ err.old }
{
    if is_capture(text) {
        give_hint(CAPTURE, err);
        return give_hint(
            format_args!("a line of the file that is wanted: {form}"),
            err,
        );
    }
    show_line(text, number, err);
    if line_at(text, number).ends_with(b"\r") {
        give_hint(
            "it ends in a carriage return: remove it, for example with tr -d '\\r'",
            err,
        );
    }
    give_hint(format_args!("its form is: {form}"), err)
}

/// The first line of a text, counted from 1, that ends in a carriage return.
fn line_with_return(text: &[u8]) -> Option<usize> {
    let before = text
        .split(|byte| *byte == b'\n')
        .position(|line| line.ends_with(b"\r"))?;
    Some(before.saturating_add(1))
}

/// Names the first line of a file that ends in a carriage return, whether hints are wanted or not:
/// it is part of the field before it, such as the name of an OUT. Below an object of JSON it prints
/// nothing.
pub fn name_returns<E: FaultSink>(file: &str, text: &[u8], err: &mut E)
    ensures object { E.fault_form err.old ≡ Json → err.new ≡ err.old }
    ensures more { TellsMore E.takes_hints E.failed E.contents E.fault_form err.old err.new }
{
    if let Some(number) = line_with_return(text) {
        let _ = print_below(
            format_args!(
                "line {number} of {file} ends in a carriage return, which stays part of it: take that away, as by tr -d '\\r'"
            ),
            err,
        );
    }
}

/// [`name_returns`] as a hint.
pub fn hint_returns<E: HintSink>(file: &str, text: &[u8], err: &mut E)
    ensures quiet { E.takes_hints err.old ≡ false → err.new ≡ err.old }
{
    if err.takes_hints() {
        name_returns(file, text, err);
    }
}

/// Hints on a step of SCRIPT, counted from 0, that names a listener that does not exist.
pub fn hint_no_listener<E: HintSink>(script: &[u8], step: usize, listeners: usize, err: &mut E)
    ensures quiet { E.takes_hints err.old ≡ false → err.new ≡ err.old }
{
    let number = step.saturating_add(1);
    give_hint(
        format_args!(
            "line {number} of SCRIPT is: {}",
            Shown(line_at(script, number))
        ),
        err,
    );
    give_hint(
        format_args!("LISTENERS has {listeners} lines, and its listeners are counted from 0"),
        err,
    )
}

/// The size of a record that keeps `snap` bytes of a packet: the least capacity with this snapshot
/// length.
fn least_capacity(snap: u32) -> u64
    ensures { result ≡ size snap }
{
    32 + u64::from(snap).div_ceil(8) * 8
}

/// A hint on a capacity that is out of its range: the least and the most with this snapshot length.
pub fn hint_capacity<E: HintSink>(snap: u32, capacity: usize, err: &mut E)
    ensures quiet { E.takes_hints err.old ≡ false → err.new ≡ err.old }
{
    let least = least_capacity(snap);
    give_hint(
        format_args!("with SNAP {snap}, CAPACITY is {least} to 1048576 bytes, not {capacity}"),
        err,
    )
}
