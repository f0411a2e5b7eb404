//! What is written here for several values of a field: for a list, and for a range of ports.

use crate::comparisons::{Comparison, IN, items_of};
use crate::fields::Field;
use crate::written::Written;
use filter_spots::{after_blanks, port_of, ports_of, without_blanks};

/// The end of the words for a range of ports.
const RANGE: &str = "range";

/// What asks for one of several values of a field.
pub(crate) fn of_several<'a>(
    field: &'static Field,
    comparison: Comparison<'a>,
) -> Option<Written<'a>> {
    if comparison.sign == IN {
        return of_list(field, items_of(comparison.value)?);
    }
    if !field.wide.ends_with(RANGE) {
        return None;
    }
    let (first, last) = ports_of(comparison.sign.as_bytes(), port_of(comparison.value)?)?;
    Some(Written::Ports(field.layer, field.wide, first, last))
}

/// The first and the last port of a range with two dots, as `80..90`.
fn range_of(text: &[u8]) -> Option<(u16, u16)> {
    let dots = text.windows(2).position(|pair| pair == b"..".as_slice())?;
    let first = without_blanks(text.get(..dots)?);
    let last = after_blanks(text.get(dots.saturating_add(2)..)?);
    Some((
        port_of(after_blanks(first))?,
        port_of(without_blanks(last))?,
    ))
}

/// What asks for one of the values of a list.
fn of_list<'a>(field: &'static Field, list: &'a [u8]) -> Option<Written<'a>> {
    let is_ports = field.wide.ends_with(RANGE);
    match range_of(list) {
        Some((first, last)) if is_ports => {
            Some(Written::Ports(field.layer, field.wide, first, last))
        }
        _ if list.contains(&b'/') => None,
        _ => Some(Written::Group(field.layer, field.test, list)),
    }
}
