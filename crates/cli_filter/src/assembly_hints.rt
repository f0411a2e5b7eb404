//! Hints on assembly that is refused.

ghost use Rattle.std.specs.Prelude.{◌≡◌, false};

use crate::listing_hints::{hint_invalid, insn_at_fault};
use bpf_asm::{AssemblyFault, Cause};
use bpfvm::Invalid;
use cli_report::HintSink;
use cli_report::files::{line_at, show_line};
use cli_report::stream::give_hint;
use filterlang::parse;
use std::alloc::{AllocError, Global};
use std::str;

/// Whether a byte is no blank of assembly.
fn is_no_blank(byte: &u8) -> bool {
    *byte != b' ' && *byte != b'\t' && *byte != b'\r'
}

/// Whether a byte belongs to a name, which a label is.
fn is_in_name(byte: &u8) -> bool {
    byte.is_ascii_alphanumeric() || *byte == b'_' || *byte == b'-' || *byte == b'%'
}

/// A text from a byte on; nothing of it if there is no such byte.
fn rest_from(text: &[u8], start: Option<usize>) -> &[u8] {
    text.get(start.unwrap_or(text.len())..).unwrap_or(&[])
}

/// A text without the blanks at its front.
fn without_blanks(text: &[u8]) -> &[u8] {
    rest_from(text, text.iter().position(is_no_blank))
}

/// What follows the `*/` that ends a comment.
fn after_comment(text: &[u8]) -> &[u8] {
    let Some(end) = text.windows(2).position(|pair| pair == b"*/".as_slice()) else {
        return &[];
    };
    text.get(end.saturating_add(2)..).unwrap_or(&[])
}

/// A line from its first byte on that is neither a blank nor in a comment.
fn skip_blanks(line: &[u8]) -> &[u8] {
    let mut rest = without_blanks(line);
    for _ in 0..line.len() {
        match rest.strip_prefix(b"/*") {
            Some(comment) => rest = without_blanks(after_comment(comment)),
            None => break,
        }
    }
    if rest.starts_with(b";") { &[] } else { rest }
}

/// A line without the place in front of its instruction.
fn skip_place(line: &[u8]) -> &[u8] {
    match line.strip_prefix(b"(") {
        Some(place) => {
            let close = rest_from(place, place.iter().position(|byte| *byte == b')'));
            skip_blanks(close.strip_prefix(b")").unwrap_or(close))
        }
        None => line,
    }
}

/// A line without its label.
fn skip_label(line: &[u8]) -> &[u8] {
    let after = skip_blanks(rest_from(line, line.iter().position(|byte| !is_in_name(byte))));
    match after.strip_prefix(b":") {
        Some(rest) => skip_blanks(rest),
        None => line,
    }
}

/// Whether a line of assembly, which is read, has an instruction.
fn has_insn(line: &[u8]) -> bool {
    !skip_label(skip_place(skip_blanks(line))).is_empty()
}

/// The line, counted from 1, of the instruction at a place, or of the last one.
fn line_of_insn(text: &[u8], place: usize) -> usize {
    let mut found: usize = 0;
    let mut passed: usize = 0;
    let mut number: usize = 0;
    for line in text.split(|byte| *byte == b'\n') {
        number = number.saturating_add(1);
        if passed <= place && has_insn(line) {
            found = number;
            passed = passed.saturating_add(1);
        }
    }
    found
}

/// Hints on assembly whose instructions are no program: the line of the instruction, and what is
/// wrong with it.
fn hint_program<E: HintSink>(text: &[u8], fault: Invalid, err: &mut E)
    ensures quiet { E.takes_hints err.old ≡ false → err.new ≡ err.old }
{
    if let Some(place) = insn_at_fault(fault, usize::MAX) {
        show_line(text, line_of_insn(text, place), err);
    }
    hint_invalid(fault, "program", err)
}

/// How to fix a line of assembly.
fn advice_of(cause: Cause) -> &'static str {
    match cause {
        Cause::BadByte =>
            "no word, number or sign: a comment begins with `;`, or is `/* .. */` on one line",
        Cause::BadNumber =>
            "write a number as 12, -1, 014 (octal) or 0xc, from -2147483648 to 4294967295",
        Cause::LongLabel => "a label has at most 32 bytes",
        Cause::UnknownName =>
            "no instruction has this name, or this label is a word of assembly: names are in small letters, comments begin with `;`",
        Cause::BadOperand =>
            "write a number as #3, a jump as `jeq #3, LABEL` (`a` and `x` are registers, no labels), a comment after `;`: docs/ASSEMBLY.md has the operands of each name",
        Cause::LabelTwice => "an earlier line has this label: choose another",
        Cause::BadPlace =>
            "the number in parentheses counts the instructions before it: a line is missing or repeated, so print the image again",
        Cause::NoLabel => "no line begins with this label and a colon",
        Cause::JumpBack => "a jump leads to a later line: the machine has no loops",
        Cause::JumpTooFar =>
            "a conditional jump passes at most 255 instructions: let it lead to a `ja`",
    }
}

/// A text without what comes after a `#` in its lines.
fn without_comments(alloc: Global, text: &[u8]) -> Result<Vec<u8>, AllocError> {
    let mut rest = Vec::new(alloc);
    for line in text.split(|byte| *byte == b'\n') {
        let end = line.iter().position(|byte| *byte == b'#');
        rest.extend_from_slice(&line[..end.unwrap_or(line.len())])?;
        rest.push(b'\n')?;
    }
    Ok(rest)
}

/// Whether a text is a filter expression, with comments or without.
fn is_expression(alloc: Global, text: &[u8]) -> bool {
    let Ok(text) = without_comments(alloc, text) else {
        return false;
    };
    match str::from_utf8(text.as_slice()) {
        Ok(text) => parse(alloc, text).is_ok(),
        Err(_) => false,
    }
}

/// Whether a line is one of an array of C, or begins one.
fn is_of_array(line: &[u8]) -> bool {
    let line = skip_blanks(line);
    line.starts_with(b"{") || line.starts_with(b"struct ") || line.starts_with(b"BPF_")
}

/// What of Linux's extensions stands in assembly, in brackets or after `#`.
static EXTENSIONS: [&[u8]; 14] = [
    b"proto",
    b"type",
    b"poff",
    b"ifidx",
    b"nla",
    b"nlan",
    b"mark",
    b"queue",
    b"hatype",
    b"rxhash",
    b"cpu",
    b"rand",
    b"vlan_tci",
    b"vlanp",
];

/// Whether a line of assembly asks for an extension of Linux.
fn has_extension(line: &[u8]) -> bool {
    line.split(|byte| !is_in_name(byte))
        .any(|word| EXTENSIONS.contains(&word))
}

/// How to fix a line of a text that is no assembly, which may be of another kind.
fn advice_on(alloc: Global, text: &[u8], line: &[u8], cause: Cause) -> &'static str {
    if is_expression(alloc, text) {
        "this is a filter expression: give it as \"$(sed 's/#.*//' FILE)\" where an expression goes, as after -e"
    } else if is_of_array(line) {
        "this looks like an array of C, as check -dd prints it: docs/RECIPES.md makes a listing of one"
    } else if cause == Cause::BadOperand && has_extension(line) {
        "this is an extension of Linux: tcpdump -y EN10MB -ddd EXPR, without -i, makes a program that has none"
    } else {
        advice_of(cause)
    }
}

/// Hints on a text that is no assembly of a program: the line that is wrong, and what to do.
pub(crate) fn hint_assembly<E: HintSink>(
    alloc: Global,
    text: &[u8],
    fault: AssemblyFault,
    err: &mut E,
)
    ensures quiet { E.takes_hints err.old ≡ false → err.new ≡ err.old }
{
    match fault {
        AssemblyFault::Line(number, cause) => {
            show_line(text, number, err);
            if err.takes_hints() {
                give_hint(advice_on(alloc, text, line_at(text, number), cause), err);
            }
        }
        AssemblyFault::Program(fault) => hint_program(text, fault, err),
        AssemblyFault::TextTooLong => give_hint(
            "assembly has at most 65536 bytes: a program of 512 instructions needs no more",
            err,
        ),
        AssemblyFault::NoMemory => {}
    }
}
