//! A comparison as a display filter has it: a sign or a word, and a value.

use filter_spots::after_blanks;

/// What compares, as a display filter has it and as it is written here.
struct Sign {
    compares: &'static [u8],
    written: &'static str,
}

/// The longer before what they begin with.
static SIGNS: [Sign; 15] = [
    Sign {
        compares: b"==",
        written: "=",
    },
    Sign {
        compares: b"=",
        written: "=",
    },
    Sign {
        compares: b"!=",
        written: "!=",
    },
    Sign {
        compares: b">=",
        written: ">=",
    },
    Sign {
        compares: b"<=",
        written: "<=",
    },
    Sign {
        compares: b">",
        written: ">",
    },
    Sign {
        compares: b"<",
        written: "<",
    },
    Sign {
        compares: b"eq ",
        written: "=",
    },
    Sign {
        compares: b"ne ",
        written: "!=",
    },
    Sign {
        compares: b"gt ",
        written: ">",
    },
    Sign {
        compares: b"lt ",
        written: "<",
    },
    Sign {
        compares: b"ge ",
        written: ">=",
    },
    Sign {
        compares: b"le ",
        written: "<=",
    },
    Sign {
        compares: b"in ",
        written: IN,
    },
    Sign {
        compares: b"in{",
        written: IN,
    },
];

/// Words that search in the data, which compare too.
static SEARCHES: [&[u8]; 2] = [b"contains ", b"matches "];

/// The word before a list of values.
pub(crate) const IN: &str = "in";

/// A comparison after a field: its sign as it is written here, its value, and how many bytes it has
/// with the blanks before it.
#[derive(Clone, Copy)]
pub(crate) struct Comparison<'a> {
    pub sign: &'static str,
    pub value: &'a [u8],
    pub len: usize,
}

/// Whether a text is compared by what follows it.
pub(crate) fn is_compared(after: &[u8]) -> bool {
    let next = after_blanks(after);
    SIGNS.iter().any(|sign| next.starts_with(sign.compares))
        || SEARCHES.iter().any(|word| next.starts_with(*word))
}

/// Whether a byte ends a value.
fn ends_value(byte: &u8) -> bool {
    matches!(
        *byte,
        b' ' | b'\t' | b'\r' | b'\n' | b'(' | b')' | b'&' | b'|'
    )
}

/// What closes a list that begins with this byte.
fn close_of(open: u8) -> Option<u8> {
    match open {
        b'{' => Some(b'}'),
        b'(' => Some(b')'),
        _ => None,
    }
}

/// The value at the front of a text: a list in braces or in parentheses, or what has no blank.
fn value_at(text: &[u8]) -> &[u8] {
    let close = match text.first() {
        Some(first) => close_of(*first),
        None => None,
    };
    let end = match close {
        Some(close) => text
            .iter()
            .position(|byte| *byte == close)
            .map(|last| last.saturating_add(1)),
        None => text.iter().position(ends_value),
    };
    text.get(..end.unwrap_or(text.len())).unwrap_or(text)
}

/// A number right after a field, as if a sign were between them.
fn number_at(after: &[u8]) -> Option<Comparison<'_>> {
    let next = after_blanks(after);
    if next.len() == after.len() || !next.first()?.is_ascii_digit() {
        return None;
    }
    let value = value_at(next);
    let left = next.len().saturating_sub(value.len());
    Some(Comparison {
        sign: "=",
        value,
        len: after.len().saturating_sub(left),
    })
}

/// The comparison at the front of a text, after blanks.
pub(crate) fn comparison_at(after: &[u8]) -> Option<Comparison<'_>> {
    let next = after_blanks(after);
    let Some(sign) = SIGNS.iter().find(|sign| next.starts_with(sign.compares)) else {
        return number_at(after);
    };
    let len = sign
        .compares
        .strip_suffix(b"{")
        .unwrap_or(sign.compares)
        .len();
    let rest = after_blanks(next.get(len..)?);
    let value = value_at(rest);
    let left = rest.len().saturating_sub(value.len());
    Some(Comparison {
        sign: sign.written,
        value,
        len: after.len().saturating_sub(left),
    })
}

/// The number after a `&`, which is asked for bits, and how many bytes both have with blanks.
pub(crate) fn mask_at(after: &[u8]) -> Option<(&[u8], usize)> {
    let next = after_blanks(after).strip_prefix(b"&")?;
    if next.starts_with(b"&") {
        return None;
    }
    let rest = after_blanks(next);
    let mask = value_at(rest);
    let left = rest.len().saturating_sub(mask.len());
    Some((mask, after.len().saturating_sub(left)))
}

/// The items of a list, without the braces or parentheses round them.
pub(crate) fn items_of(value: &[u8]) -> Option<&[u8]> {
    let close = close_of(*value.first()?)?;
    let (last, front) = value.split_last()?;
    if *last == close { front.get(1..) } else { None }
}

/// Whether a test ends right before a text.
pub(crate) fn ends_test(after: &[u8]) -> bool {
    let next = after_blanks(after);
    next.is_empty()
        || [b")".as_slice(), b"&&", b"||", b"and ", b"or "]
            .iter()
            .any(|joint| next.starts_with(*joint))
}
