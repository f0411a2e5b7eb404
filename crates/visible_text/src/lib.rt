//! Texts of files, of the command line and of expressions, as a terminal shows them.
#![tactic(auto)]

ghost use Rattle.std.specs.Prelude.{◌≡◌, Some, encode_utf8_all, false, map};
ghost use Rattle.std.specs.Char.{is_control};
ghost use Rattle.std.specs.Fmt.{WritesOnOk};
ghost use Rattle.visible_text.specs.Hidden.{is_hidden, marked, marked_name, printed_name, turns_text};

use std::fmt::{Display, Formatter};
use std::{fmt, str};

/// At most this many characters of a text are shown.
const MAX_SHOWN: usize = 60;

/// Whether a character turns the direction of the text after it.
fn turns_text(character: char) -> bool
    ensures { result ≡ turns_text character }
{
    matches!(character, '\u{202a}'..='\u{202e}' | '\u{2066}'..='\u{2069}')
}

/// Whether a character controls how a text is shown: a control character, or one that turns the
/// direction of the text after it.
pub fn is_hidden(character: char) -> bool
    ensures { result ≡ is_hidden character }
{
    character.is_control() || turns_text(character)
}

/// What is shown for a character on a terminal, in one column as a rule: a blank for a tab or the
/// end of a line, and `?` for each other control character, so that no text of a file or of the
/// command line controls the terminal.
pub fn visible(character: char) -> char
    ensures { is_control result ≡ false }
{
    match character {
        '\t' | '\n' | '\r' => ' ',
        _ if character.is_control() => '?',
        _ => character,
    }
}

/// The first 60 characters of a text. In bytes that are not UTF-8, each byte that is not ASCII is
/// shown as `?`.
#[derive(Clone, Copy)]
pub struct Shown<'a>(pub &'a [u8]);

impl Display for Shown<'_> {
    fn fmt<W: fmt::Write>(&self, f: &mut Formatter<W>) -> fmt::Result {
        match str::from_utf8(self.0) {
            Ok(text) => write_text(text, f),
            Err(_) => write_bytes(self.0, f),
        }
    }
}

fn write_text<W: fmt::Write>(text: &str, f: &mut Formatter<W>) -> fmt::Result {
    for character in text.chars().take(MAX_SHOWN) {
        f.write_char(visible(character))?;
    }
    Ok(())
}

fn write_bytes<W: fmt::Write>(bytes: &[u8], f: &mut Formatter<W>) -> fmt::Result {
    for byte in bytes.iter().take(MAX_SHOWN) {
        let character = if byte.is_ascii() {
            char::from(*byte)
        } else {
            '?'
        };
        f.write_char(visible(character))?;
    }
    Ok(())
}

/// `?` for a hidden character, else the character.
fn marked(character: char) -> char
    ensures { result ≡ marked character }
{
    if is_hidden(character) { '?' } else { character }
}

/// Writes a name with `?` in place of each hidden character.
fn write_marked<W: fmt::Write>(name: &str, f: &mut Formatter<W>) -> fmt::Result
    ensures { WritesOnOk W.write_str_gives f.old result (marked_name name.now) f.new }
{
    for character in name.chars() {
        f.write_char(marked(character))?;
    }
    Ok(())
}

/// The name of a file in a line of standard output: as it is, or on a terminal with `?` in place of
/// each hidden character, as `ls` prints it. It has no more bytes than the name.
#[derive(Clone, Copy)]
pub struct PrintedName<'a> {
    pub name: &'a str,
    /// Whether standard output is a terminal.
    pub is_terminal: bool,
}

impl Display for PrintedName<'_> {
    ghost output = { λ printed. Some (printed_name printed.is_terminal printed.name.now) };

    fn fmt<W: fmt::Write>(&self, f: &mut Formatter<W>) -> fmt::Result {
        if self.is_terminal {
            write_marked(self.name, f)
        } else {
            f.write_str(self.name)
        }
    }
}
