//! The part of an expression round a place in it, and a caret under the place.

ghost use Rattle.std.specs.Prelude.{◌≤◌, ◌+◌, length};

use std::fmt;
use std::fmt::{Display, Formatter};
use visible_text::visible;

/// At most this many bytes of a text are shown before a place, and as many after it.
const AROUND: usize = 36;

/// What is shown in place of the text before or after the part that is shown.
const CUT: &str = "..";

/// The part of a text around a place, as it is shown: at most 36 bytes before the place and 36 from
/// there on, with `..` for what is left out.
#[derive(Clone, Copy)]
pub struct Excerpt<'a> {
    text: &'a str,
    start: usize,
    place: usize,
    end: usize,
    ghost before: { start ≤ place },
    ghost behind: { place ≤ end },
}

impl<'a> Excerpt<'a> {
    /// The part of a text around a place; around its end for a place past it.
    pub fn new(text: &'a str, place: usize) -> Excerpt<'a>
        ensures before { result.place ≤ result.start + AROUND }
        ensures behind { result.end ≤ result.place + AROUND }
        ensures within { result.end ≤ length text.now }
    {
        let place = place.min(text.len());
        Excerpt {
            text,
            start: place.saturating_sub(AROUND),
            place,
            end: text.len().min(place.saturating_add(AROUND)),
        }
    }
}

/// The text, a character in a column: every character before the place that a fault names is ASCII,
/// since tokens are.
impl Display for Excerpt<'_> {
    fn fmt<W: fmt::Write>(&self, f: &mut Formatter<W>) -> fmt::Result {
        if self.start > 0 {
            f.write_str(CUT)?;
        }
        for (at, character) in self.text.char_indices() {
            if self.start <= at && at < self.end {
                f.write_char(visible(character))?;
            }
        }
        if self.end < self.text.len() {
            f.write_str(CUT)?;
        }
        Ok(())
    }
}

/// A caret, below the place of an excerpt.
#[derive(Clone, Copy)]
pub struct Caret<'a>(pub Excerpt<'a>);

/// A blank for each character that the excerpt shows before its place, and then the caret.
impl Display for Caret<'_> {
    fn fmt<W: fmt::Write>(&self, f: &mut Formatter<W>) -> fmt::Result {
        if self.0.start > 0 {
            f.write_str("  ")?;
        }
        for (at, _character) in self.0.text.char_indices() {
            if self.0.start <= at && at < self.0.place {
                f.write_char(' ')?;
            }
        }
        f.write_char('^')
    }
}
