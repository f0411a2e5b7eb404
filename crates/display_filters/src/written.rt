//! What is written here for a test of a display filter.

use filter_spots::Spot;
use std::alloc::{AllocError, Global};
use std::fmt;
use std::fmt::{Display, Formatter};
use visible_text::Shown;

/// A list of more bytes is not written out.
const MAX_LIST: usize = 60;

/// A test in words of this language.
#[derive(Clone, Copy)]
pub(crate) enum Written<'a> {
    /// A test with no value of the display filter in it.
    Test(&'static str),
    /// Two words, or a number of the packet and a sign, and the value after them.
    Valued(&'static str, &'static str, &'a [u8]),
    /// A layer, a test that it is not to pass, the value of this, and whether the two are written
    /// without parentheses.
    Not(&'static str, &'static str, &'a [u8], bool),
    /// A layer, a test with the word `portrange`, and the first and the last port.
    Ports(&'static str, &'static str, u16, u16),
    /// A layer, a test, and a list of the values that this may have.
    Group(&'static str, &'static str, &'a [u8]),
    /// A number of the packet, and a list of the values that it may have.
    Either(&'static str, &'a [u8]),
    /// A number of the packet, and bits of it of which one is to be set.
    Bits(&'static str, &'a [u8]),
}

impl Display for Written<'_> {
    fn fmt<W: fmt::Write>(&self, f: &mut Formatter<W>) -> fmt::Result {
        match self {
            Written::Test(test) => f.write_str(*test),
            Written::Valued(layer, test, value) => write!(f, "{layer} {test} {}", Shown(*value)),
            Written::Not(layer, test, value, true) => {
                write!(f, "{layer} and not {test} {}", Shown(*value))
            }
            Written::Not(layer, test, value, false) => {
                write!(f, "({layer} and not {test} {})", Shown(*value))
            }
            Written::Ports(layer, test, first, last) => {
                write!(f, "{layer} {test} {first}-{last}")
            }
            Written::Group(layer, test, list) => write_group(*layer, *test, *list, f),
            Written::Either(number, list) => write_either(*number, *list, f),
            Written::Bits(number, bits) => write!(f, "{number} & {} != 0", Shown(*bits)),
        }
    }
}

/// Whether a byte separates the items of a list: a comma, or a blank, as in older versions.
fn separates_items(byte: &u8) -> bool {
    *byte == b',' || *byte == b' '
}

/// A test of several values, as a group: with `or`, in parentheses.
fn write_group<W: fmt::Write>(
    layer: &'static str,
    test: &'static str,
    list: &[u8],
    f: &mut Formatter<W>,
) -> fmt::Result {
    write!(f, "{layer} {test} (")?;
    for (at, item) in list
        .split(separates_items)
        .filter(|item| !item.is_empty())
        .enumerate()
    {
        if at > 0 {
            f.write_str(" or ")?;
        }
        write!(f, "{}", Shown(item))?;
    }
    f.write_char(')')
}

/// Tests of a number for several values, in parentheses.
fn write_either<W: fmt::Write>(
    number: &'static str,
    list: &[u8],
    f: &mut Formatter<W>,
) -> fmt::Result {
    f.write_char('(')?;
    for (at, item) in list
        .split(separates_items)
        .filter(|item| !item.is_empty())
        .enumerate()
    {
        if at > 0 {
            f.write_str(" or ")?;
        }
        write!(f, "{number} = {}", Shown(item))?;
    }
    f.write_char(')')
}

/// What is written here for a test of a display filter, and that test: it prints as a sentence.
#[derive(Clone, Copy)]
pub struct DisplayAdvice<'a> {
    written: Written<'a>,
    test: &'a [u8],
    /// The layer of a flag that nothing compares: the flag alone asks for that there.
    layer: Option<&'a [u8]>,
    /// Whether the filter joins tests by `&&` and by `||`, without parentheses.
    is_mixed: bool,
}

impl<'a> DisplayAdvice<'a> {
    /// The same for a flag that nothing compares, of this layer.
    pub(crate) fn alone(self, layer: &'a [u8]) -> DisplayAdvice<'a> {
        DisplayAdvice {
            layer: Some(layer),
            ..self
        }
    }
}

impl Display for DisplayAdvice<'_> {
    fn fmt<W: fmt::Write>(&self, f: &mut Formatter<W>) -> fmt::Result {
        write!(
            f,
            "this looks like a display filter of Wireshark: write `{}` for `{}`",
            self.written,
            Shown(self.test)
        )?;
        if let Some(layer) = self.layer {
            write!(
                f,
                " if the flag is to be set; in Wireshark it alone is the same as `{}`",
                Shown(layer)
            )?;
        }
        if self.is_mixed {
            f.write_str(
                ", and parentheses round what `&&` joins: here it binds no tighter than `||`",
            )?;
        }
        Ok(())
    }
}

/// Whether a text has a part.
fn has_part(text: &[u8], part: &[u8]) -> bool {
    (0..text.len()).any(|at| match text.get(at..) {
        Some(rest) => rest.starts_with(part),
        None => false,
    })
}

/// Whether a display filter has both signs that join tests, or words for them, and no parentheses.
fn is_mixed(filter: &[u8]) -> bool {
    let has_and = has_part(filter, b"&&") || has_part(filter, b" and ");
    let has_or = has_part(filter, b"||") || has_part(filter, b" or ");
    has_and && has_or && !filter.contains(&b'(')
}

/// What helps, if something does; or that memory was refused.
pub(crate) type Found<'a> = Result<Option<DisplayAdvice<'a>>, AllocError>;

/// What helps at a test of a display filter, of `len` bytes from a place on, if the text reads on
/// with what is written for it.
pub(crate) fn advise<'a>(
    alloc: Global,
    start: Spot<'a>,
    len: usize,
    written: Written<'a>,
) -> Found<'a> {
    let place = start.before().len();
    let test = start.between(place, place.saturating_add(len));
    let put = format!(in alloc; "{written}")?;
    match start.without(place, len) {
        Some(gap) if test.len() <= MAX_LIST && gap.takes(alloc, put.as_str())? => {
            Ok(Some(DisplayAdvice {
                written,
                test,
                layer: None,
                is_mixed: is_mixed(start.at(0).rest()),
            }))
        }
        _ => Ok(None),
    }
}
