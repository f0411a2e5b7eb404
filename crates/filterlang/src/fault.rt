//! Why a text is refused.

ghost use Rattle.std.specs.Prelude.{◌≡◌, Some};
ghost use Rattle.filterlang.specs.Faults.{fault_name, fault_place, fault_text};
ghost use Rattle.filterlang.specs.declared.fault.Fault.TheVariants.{NoMemory};

use std::alloc::{AllocError, AllocFailed};
use std::fmt;
use std::fmt::{Display, Formatter};
use thiserror::Error;

/// Why a text is no filter expression. A number is the place of the fault: a byte of the text,
/// counted from 0. It prints as its name, and then its place if it has one.
#[derive(Clone, Copy, Debug, PartialEq, Eq, Error)]
pub enum Fault {
    /// The text has more than 8,192 bytes.
    TextTooLong,
    /// No token begins with this byte.
    BadByte(usize),
    /// A word, or a name after a backslash, that the language lacks; the place of a name is its
    /// backslash.
    BadWord(usize),
    /// A number or dotted address that is misspelled or too great, at its first digit.
    BadNumber(usize),
    /// A token, or the end of the text, with which no expression can go on.
    Syntax(usize),
    /// An identifier without a phrase, if the nearest primitive to its left has no qualifiers to
    /// give, or there is none.
    NoQualifier(usize),
    /// A phrase whose qualifiers do not go together, at its first word.
    BadQualifier(usize),
    /// An identifier of a kind that the type does not take; or a net's mask of fewer than four
    /// parts, at the mask.
    BadIdentifier(usize),
    /// A net with bits outside its mask, at its address.
    NetBits(usize),
    /// A number out of its range, at the number: of an identifier, or the size of an accessor.
    OutOfRange(usize),
    /// A divisor that is the literal 0 or a named value 0, in parentheses or not, at its first
    /// token.
    DivideByZero(usize),
    /// The `(`, `[`, `not` or unary `-` that would be the 65th open one.
    TooNested(usize),
    /// Memory was refused.
    NoMemory,
}

impl Fault {
    /// Its name, without a place.
    pub fn name(self) -> &'static str
        ensures { result.now ≡ fault_name self }
    {
        match self {
            Fault::TextTooLong => "TextTooLong",
            Fault::BadByte(_) => "BadByte",
            Fault::BadWord(_) => "BadWord",
            Fault::BadNumber(_) => "BadNumber",
            Fault::Syntax(_) => "Syntax",
            Fault::NoQualifier(_) => "NoQualifier",
            Fault::BadQualifier(_) => "BadQualifier",
            Fault::BadIdentifier(_) => "BadIdentifier",
            Fault::NetBits(_) => "NetBits",
            Fault::OutOfRange(_) => "OutOfRange",
            Fault::DivideByZero(_) => "DivideByZero",
            Fault::TooNested(_) => "TooNested",
            Fault::NoMemory => "NoMemory",
        }
    }

    /// The byte at which the text is at fault, counted from 0.
    pub fn place(self) -> Option<usize>
        ensures { result ≡ fault_place self }
    {
        match self {
            Fault::BadByte(place)
            | Fault::BadWord(place)
            | Fault::BadNumber(place)
            | Fault::Syntax(place)
            | Fault::NoQualifier(place)
            | Fault::BadQualifier(place)
            | Fault::BadIdentifier(place)
            | Fault::NetBits(place)
            | Fault::OutOfRange(place)
            | Fault::DivideByZero(place)
            | Fault::TooNested(place) => Some(place),
            Fault::TextTooLong | Fault::NoMemory => None,
        }
    }
}

impl Display for Fault {
    ghost output = { λ fault. Some (fault_text fault) };

    fn fmt<W: fmt::Write>(&self, f: &mut Formatter<W>) -> fmt::Result {
        match self.place() {
            Some(place) => write!(f, "{} {place}", self.name()),
            None => f.write_str(self.name()),
        }
    }
}

impl From<AllocError> for Fault {
    ghost from_gives = { λ _ e. e ≡ NoMemory };

    fn from(_refused: AllocError) -> Fault {
        Fault::NoMemory
    }
}

impl<T: Drop> From<AllocFailed<T>> for Fault {
    ghost from_gives = { λ _ e. e ≡ NoMemory };

    fn from(_refused: AllocFailed<T>) -> Fault {
        Fault::NoMemory
    }
}
