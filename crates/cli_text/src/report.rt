//! What the program reports on standard error, and the exit status that goes with it.

ghost use Rattle.std.specs.Prelude.{◌≡◌, IfOk, IfSome, Some, encode_utf8_all};
ghost use Rattle.std.specs.Char.Escape.{escape_default};
ghost use Rattle.std.specs.Fmt.{WritesOnOk};
ghost use Rattle.line_text.specs.Sending.{Takes};
ghost use Rattle.cli_text.specs.declared.status.Status.TheVariants.{Refused};
ghost use Rattle.cli_text.specs.Paths.{escaped_path, shown_characters};
ghost use Rattle.cli_text.specs.Telling.{fault_status, is_unread, output_line, print_status_of, told_line};

use crate::status::Status;
use line_text::Line;
use line_text::sending::send;
use savefile::Fault;
use std::fmt::{Display, Formatter};
use std::io::{ErrorKind, Write};
use std::{fmt, io};

/// The result of a command.
#[derive(Debug, Drop)]
pub struct Outcome {
    /// The exit status.
    pub status: Status,
    /// Whether standard error took what was reported.
    pub told: io::Result<()>,
}

/// The line of a fault, if it has at most 512 bytes.
fn line_of<D: Display + Drop>(fault: D) -> io::Result<Line>
    ensures { IfOk result (λ line. IfSome (D.output fault) (λ text. line ≡ told_line text)) }
{
    let mut line = Line::new();
    writeln!(line, "bpftap: {fault}")?;
    Ok(line)
}

/// Reports a fault in a line of its own, which goes out in one piece. If standard error fails, it
/// took a prefix of the line. A line of more than 512 bytes is not reported.
pub fn report_line<E: Write, D: Display + Drop>(fault: D, err: &mut E) -> io::Result<()>
    ensures { IfSome (D.output fault) (λ text. Takes (E.contents err.old) (E.contents err.new) result (told_line text)) }
{
    let line = line_of(fault)?;
    send(line.as_bytes(), err)
}

/// Reports a fault in a line of its own, whatever its length, and gives the status back. If
/// standard error itself fails, only the status is left.
pub fn report_fault<E: Write, D: Display + Drop>(fault: D, status: Status, err: &mut E) -> Status
    ensures { result ≡ status }
{
    let _ = match line_of(&fault) {
        Ok(line) => send(line.as_bytes(), err),
        Err(_) => writeln!(err, "bpftap: {fault}"),
    };
    status
}

/// Reports why the arguments of the command line could not be taken.
pub fn report_words<E: Write>(error: io::Error, err: &mut E) -> Status
    ensures { result ≡ Refused }
{
    match error.kind() {
        ErrorKind::OutOfMemory => report_fault(Fault::NoMemory, Status::Refused, err),
        ErrorKind::InvalidData => report_fault(
            "a word of the command line is not UTF-8",
            Status::Refused,
            err,
        ),
        _ => report_fault(error, Status::Refused, err),
    }
}

/// Writes the escape of a character in a Rust string. No clause of the standard library says what
/// an escape prints, so its characters are written one after the other.
fn write_escape<W: fmt::Write>(f: &mut Formatter<W>, character: char) -> fmt::Result
    ensures { WritesOnOk W.write_str_gives f.old result (encode_utf8_all (escape_default character)) f.new }
{
    for part in character.escape_default() {
        f.write_char(part)?;
    }
    Ok(())
}

/// Writes a character of a path as it is shown.
fn write_shown<W: fmt::Write>(f: &mut Formatter<W>, character: char) -> fmt::Result
    ensures { WritesOnOk W.write_str_gives f.old result (encode_utf8_all (shown_characters character)) f.new }
{
    if character.is_control() {
        write_escape(f, character)
    } else {
        f.write_char(character)
    }
}

/// Writes a path as it is shown.
fn write_path<W: fmt::Write>(f: &mut Formatter<W>, path: &str) -> fmt::Result
    ensures { WritesOnOk W.write_str_gives f.old result (escaped_path path.now) f.new }
{
    for character in path.chars() {
        write_shown(f, character)?;
    }
    Ok(())
}

/// A path in a line of its own: control characters are written as in a Rust string, `\n` or
/// `\u{1b}`.
#[derive(Clone, Copy)]
pub struct EscapedPath<'a>(pub &'a str);

impl Display for EscapedPath<'_> {
    ghost output = { λ path. Some (escaped_path path.0.now) };

    fn fmt<W: fmt::Write>(&self, f: &mut Formatter<W>) -> fmt::Result {
        write_path(f, self.0)
    }
}

/// The exit status of a fault.
pub fn fault_status(fault: Fault) -> Status
    ensures { result ≡ fault_status fault }
{
    match fault {
        Fault::Device => Status::Failed,
        Fault::TornRecord(_) | Fault::BadFraction(_) | Fault::TooLong(_) => Status::Damaged,
        _ => Status::Refused,
    }
}

/// The exit status of printing.
pub fn print_status(printed: &io::Result<()>) -> Status
    ensures { result ≡ print_status_of printed.now }
{
    match printed {
        Ok(()) => Status::Clean,
        Err(_) => Status::Failed,
    }
}

/// Whether nobody reads any more what is printed, as after `| head`.
fn is_unread(kind: ErrorKind) -> bool
    ensures { result ≡ is_unread kind }
{
    matches!(kind, ErrorKind::BrokenPipe)
}

/// Reports that standard output failed, if it did, in a line `bpftap: Device standard output`. If
/// nobody reads what is printed any more, it reports nothing.
pub fn report_output<E: Write>(printed: &io::Result<()>, err: &mut E) -> io::Result<()>
    ensures { Takes (E.contents err.old) (E.contents err.new) result (output_line printed.now) }
{
    match printed {
        Ok(()) => Ok(()),
        Err(error) if is_unread(error.kind()) => Ok(()),
        Err(_) => report_line("Device standard output", err),
    }
}
