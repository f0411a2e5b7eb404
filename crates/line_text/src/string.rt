//! A text as a JSON string.

ghost use Rattle.std.specs.Prelude.{◌≡◌, ◌<◌, ◌++◌, EachIndex, IsTrue, OnOk, Some, slice_index, string_bytes, true};
ghost use Rattle.std.specs.Fmt.{WritesOnOk};
ghost use Rattle.line_text.specs.Strings.{escaped, escape_text, is_plain, json_string, number_escape};

use std::alloc::AllocError;
use std::fmt;
use std::fmt::{Display, Formatter};
use visible_text::is_hidden;

/// Whether this byte is an ASCII character without an escape.
fn is_plain(byte: u8) -> bool
    ensures { result ≡ is_plain byte }
{
    (32..127).contains(&byte) && byte != b'"' && byte != b'\\'
}

/// Whether each byte of a text is an ASCII character without an escape.
fn is_plain_text(text: &str) -> bool
    ensures { IsTrue result → EachIndex text.now (λ k. is_plain (slice_index text.now k) ≡ true) }
{
    text.as_bytes().iter().all(|byte| is_plain(*byte))
}

/// Writes the number of a character, of at most 16 bits, as a JSON string has it.
fn write_number<W: fmt::Write>(f: &mut Formatter<W>, character: char) -> fmt::Result
    requires { character < 65536 }
    ensures { WritesOnOk W.write_str_gives f.old result (number_escape character) f.new }
{
    let code = u32::from(character);
    write!(f, "\\u{:02x}{:02x}", code / 256, code % 256)
}

/// Writes a character as it stands in a JSON string.
#[tactic(auto, unfolding(crate::specs::Strings::escape_text))]
fn write_character<W: fmt::Write>(f: &mut Formatter<W>, character: char) -> fmt::Result
    ensures { WritesOnOk W.write_str_gives f.old result (escape_text character) f.new }
{
    if is_hidden(character) {
        write_number(f, character)
    } else if character == '"' || character == '\\' {
        write!(f, "\\{character}")
    } else {
        f.write_char(character)
    }
}

/// Writes a text as it stands in a JSON string, character after character.
fn write_characters<W: fmt::Write>(f: &mut Formatter<W>, text: &str) -> fmt::Result
    ensures { WritesOnOk W.write_str_gives f.old result (escaped text.now) f.new }
{
    for character in text.chars() {
        write_character(f, character)?;
    }
    Ok(())
}

/// A text as it stands in a JSON string, as [`put_string`] writes it, which takes no memory.
#[derive(Clone, Copy)]
pub struct JsonEscaped<'a>(pub &'a str);

impl Display for JsonEscaped<'_> {
    ghost output = { λ text. Some (escaped text.0.now) };

    #[tactic(auto, using(crate::proofs::Escapes::escaped_plain))]
    fn fmt<W: fmt::Write>(&self, f: &mut Formatter<W>) -> fmt::Result {
        // Most texts have no escape, and are written at once.
        if is_plain_text(self.0) {
            f.write_str(self.0)
        } else {
            write_characters(f, self.0)
        }
    }
}

/// A text as a JSON string, as [`put_string`] appends it, which takes no memory.
#[derive(Clone, Copy)]
pub struct JsonString<'a>(pub &'a str);

impl Display for JsonString<'_> {
    ghost output = { λ text. Some (json_string text.0.now) };

    #[tactic(auto, unfolding(crate::specs::Strings::json_string))]
    fn fmt<W: fmt::Write>(&self, f: &mut Formatter<W>) -> fmt::Result {
        write!(f, "\"{}\"", JsonEscaped(self.0))
    }
}

/// Appends a text as a JSON string: in quotes, with `\"`, `\\`, and `\u` with four digits for each
/// control character, from U+0000 to U+001F and U+007F to U+009F, and for each character that turns
/// the direction of text, U+202A to U+202E and U+2066 to U+2069. All else stays as it is, in UTF-8.
/// It fails if memory is refused; the line is then unspecified.
pub fn put_string(line: &mut String, text: &str) -> Result<(), AllocError>
    ensures { OnOk result (string_bytes line.new ≡ string_bytes line.old ++ json_string text.now) }
{
    write!(line, "{}", JsonString(text))
}
