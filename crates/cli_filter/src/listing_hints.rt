//! Hints on a listing that is refused.

ghost use Rattle.std.specs.Prelude.{◌≡◌, false};

use bpfvm::{Invalid, ListingFault};
use cli_report::HintSink;
use cli_report::files::{LISTING, count_lines, hint_bad_line, line_at, show_line};
use cli_report::stream::give_hint;
use line_text::fields::first_line;
use visible_text::Shown;

/// The line of the first instruction of a listing.
const FIRST_INSN: usize = 2;

/// How many spaces a line of an instruction has.
const SPACES: usize = 3;

/// Whether a line looks like an instruction.
fn looks_like_insn(line: &[u8]) -> bool {
    line.iter().filter(|byte| **byte == b' ').count() == SPACES
}

/// Hints on a line that lacks its form. A first line that is an instruction lacks the count before
/// it.
fn hint_line<E: HintSink>(listing: &[u8], line: usize, err: &mut E)
    ensures quiet { E.takes_hints err.old ≡ false → err.new ≡ err.old }
{
    hint_bad_line(listing, line, LISTING, err);
    if line == 1 && looks_like_insn(line_at(listing, 1)) {
        give_hint(
            format_args!(
                "put a first line {} before it: tcpdump -ddd prints the count, and bpfc -f tcpdump does not",
                count_lines(listing)
            ),
            err,
        )
    }
}

/// A hint on a count that is not the number of the lines after it.
fn hint_count<E: HintSink>(listing: &[u8], err: &mut E)
    ensures quiet { E.takes_hints err.old ≡ false → err.new ≡ err.old }
{
    let (first, rest) = first_line(listing);
    give_hint(
        format_args!(
            "the first line says {}, and the lines after it are {}: is the listing complete?",
            Shown(first),
            count_lines(rest)
        ),
        err,
    )
}

/// The place of the instruction that a program is refused for, of up to this many; none if their
/// number is the fault.
pub(crate) fn insn_at_fault(fault: Invalid, count: usize) -> Option<usize> {
    match fault {
        Invalid::NoReturn => Some(count.saturating_sub(1)),
        _ => fault.place(),
    }
}

/// A hint on instructions that are no program, which a text of this kind has.
pub(crate) fn hint_invalid<E: HintSink>(fault: Invalid, text: &str, err: &mut E)
    ensures quiet { E.takes_hints err.old ≡ false → err.new ≡ err.old }
{
    match fault {
        Invalid::Empty => give_hint(
            "a program has 1 to 512 instructions, the last one a return",
            err,
        ),
        Invalid::TooMany => give_hint(
            "a program has at most 512 instructions: write a shorter filter, or several",
            err,
        ),
        Invalid::UnknownCode(_) => give_hint(
            "its code is not one of bpf(4): extensions such as Linux's are not supported",
            err,
        ),
        Invalid::JumpOut(_) => give_hint(
            format_args!("it jumps past the last instruction: is the {text} complete?"),
            err,
        ),
        Invalid::Cell(_) => give_hint("the scratch memory has the cells 0 to 15", err),
        Invalid::ZeroDivisor(_) => give_hint("the divisor is 0", err),
        Invalid::NoReturn => give_hint(
            format_args!("the last instruction is not a return: is the {text} complete?"),
            err,
        ),
    }
}

/// Hints on a listing whose instructions are no program: the line of the instruction, and what is
/// wrong with it.
fn hint_program<E: HintSink>(listing: &[u8], fault: Invalid, err: &mut E)
    ensures quiet { E.takes_hints err.old ≡ false → err.new ≡ err.old }
{
    if let Some(place) = insn_at_fault(fault, count_lines(listing).saturating_sub(1)) {
        show_line(listing, place.saturating_add(FIRST_INSN), err);
    }
    hint_invalid(fault, "listing", err)
}

/// Hints on a text that is no listing of a program: the line that is wrong, and what to do.
pub(crate) fn hint_listing<E: HintSink>(listing: &[u8], fault: ListingFault, err: &mut E)
    ensures quiet { E.takes_hints err.old ≡ false → err.new ≡ err.old }
{
    match fault {
        ListingFault::BadLine(line) => hint_line(listing, line, err),
        ListingFault::Count => hint_count(listing, err),
        ListingFault::Program(fault) => hint_program(listing, fault, err),
    }
}
