//! What is written in place of a part of an expression.

use crate::addresses::AsGroup;
use crate::advice::{Advice, Found};
use crate::colons::Endpoint;
use filter_spots::Spot;
use std::alloc::Global;
use std::fmt;
use std::fmt::{Display, Formatter};
use visible_text::Shown;

/// What is written in place of a part of an expression.
#[derive(Clone, Copy)]
pub enum Instead<'a> {
    /// The same for each such part.
    Text(&'static str),
    /// An address with a port, as two tests.
    Endpoint(Endpoint<'a>),
    /// A list with commas or bars, as a group.
    Group(&'a [u8]),
    /// The two numbers of a range.
    Range(&'a [u8], &'a [u8]),
    /// One port, or those from the first to the last.
    Ports(u16, u16),
    /// A `not` or nothing, and a test with its value.
    Valued(&'static str, &'a [u8], &'a [u8]),
    /// A layer, a test that it is not to pass and its value, and whether the two are written without
    /// parentheses.
    Not(&'a [u8], &'a [u8], &'a [u8], bool),
    /// A number of the packet, and bits of it of which one is to be set.
    Bits(&'a [u8], &'a [u8]),
    /// Flags as one number, and a flag more.
    Flags(&'a [u8], &'static str),
}

impl Display for Instead<'_> {
    fn fmt<W: fmt::Write>(&self, f: &mut Formatter<W>) -> fmt::Result {
        match self {
            Instead::Text(text) => f.write_str(*text),
            Instead::Endpoint(endpoint) => write!(f, "{endpoint}"),
            Instead::Group(list) => write!(f, "{}", AsGroup(*list)),
            Instead::Range(first, last) => write!(f, "{}-{}", Shown(*first), Shown(*last)),
            Instead::Ports(first, last) if first == last => write!(f, "port {first}"),
            Instead::Ports(first, last) => write!(f, "portrange {first}-{last}"),
            Instead::Valued(not, test, value) => {
                write!(f, "{not}{} {}", Shown(*test), Shown(*value))
            }
            Instead::Not(layer, test, value, true) => {
                let (layer, test) = (Shown(*layer), Shown(*test));
                write!(f, "{layer} and not {test} {}", Shown(*value))
            }
            Instead::Not(layer, test, value, false) => {
                let (layer, test) = (Shown(*layer), Shown(*test));
                write!(f, "({layer} and not {test} {})", Shown(*value))
            }
            Instead::Bits(number, bits) => {
                write!(f, "{} & ({}) != 0", Shown(*number), Shown(*bits))
            }
            Instead::Flags(flags, flag) => write!(f, "{}|{flag}", Shown(*flags)),
        }
    }
}

/// What helps at the part of an expression from one place to another, if the text reads on with
/// what is written for it.
pub(crate) fn advise_instead<'a>(
    alloc: Global,
    spot: Spot<'a>,
    start: usize,
    end: usize,
    instead: Instead<'a>,
) -> Found<'a> {
    let put = format!(in alloc; "{instead}")?;
    match spot.without(start, end.saturating_sub(start)) {
        Some(gap) if gap.takes(alloc, put.as_str())? => {
            Ok(Some(Advice::Instead(instead, spot.between(start, end))))
        }
        _ => Ok(None),
    }
}
