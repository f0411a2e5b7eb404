//! Which fields of a packet a number is made of, as far as it matters for the order in which bits
//! are asked for. Nothing rests on it.

use filter_meaning::calculate;
use filter_tree::Operator;

/// The most fields of a number that are kept.
const MOST_PARTS: usize = 6;

/// A field that is part of a number.
#[derive(Clone, Copy, Debug, PartialEq, Eq)]
pub(crate) struct Part {
    /// Its first byte. The four of the length on the wire come before those of the frame.
    pub first: u32,
    /// How many bytes it has.
    pub bytes: u32,
    /// By how many places it is moved up in the number.
    pub moved: i32,
}

/// A number: which one it is if that is known, and else fields that it is made of.
#[derive(Clone, Copy, Debug, PartialEq, Eq)]
pub(crate) struct Shape {
    pub number: Option<u32>,
    pub parts: [Option<Part>; MOST_PARTS],
}

impl Part {
    /// The place after the one of its highest bit.
    fn end(self) -> i32 {
        let bits = self.bytes.min(8) * 8;
        self.moved.saturating_add(bits as i32)
    }

    /// The same field, moved up by `places`.
    fn up(self, places: i32) -> Part {
        Part {
            first: self.first,
            bytes: self.bytes,
            moved: self.moved.saturating_add(places),
        }
    }

    /// Whether another field has bits at the same place.
    fn meets(self, other: Option<Part>) -> bool {
        match other {
            Some(other) => { other != self && self.moved < other.end() && other.moved < self.end() }
            None => false,
        }
    }
}

/// The place of the highest bit of a number, and 0 of 0.
fn highest_bit(number: u32) -> i32 {
    let above = number.leading_zeros().min(31);
    31 - above as i32
}

impl Shape {
    /// Nothing is known.
    pub const UNKNOWN: Shape = Shape {
        number: None,
        parts: [None; MOST_PARTS],
    };

    /// A number.
    pub fn number(number: u32) -> Shape {
        Shape {
            number: Some(number),
            parts: [None; MOST_PARTS],
        }
    }

    /// A field.
    pub fn field(first: u32, bytes: u32) -> Shape {
        let part = Part {
            first,
            bytes,
            moved: 0,
        };
        Shape::UNKNOWN.with_part(Some(part))
    }

    /// The same, and one more field, if it is none of them and there is room.
    fn with_part(self, part: Option<Part>) -> Shape {
        let mut parts = self.parts;
        for place in 0..MOST_PARTS {
            if parts[place] == part {
                break;
            }
            if parts[place].is_none() {
                parts[place] = part;
                break;
            }
        }
        Shape {
            number: None,
            parts,
        }
    }

    /// The same fields. Which number it is is not known.
    pub fn unknown(self) -> Shape {
        let parts = self.parts;
        Shape {
            number: None,
            parts,
        }
    }

    /// How many bits its fields have.
    pub fn bits(&self) -> u32 {
        let mut bits = 0u32;
        for part in self.parts {
            let bytes = part.map_or(0, |part| part.bytes);
            bits = bits.saturating_add(bytes.min(8) * 8);
        }
        bits
    }

    /// The fields of both.
    pub fn with(self, other: Shape) -> Shape {
        let mut all = self;
        for part in other.parts {
            all = all.with_part(part);
        }
        all
    }

    /// The same fields, each moved up by `places`. Which number it is is not known.
    pub fn moved(self, places: i32) -> Shape {
        let mut all = Shape::UNKNOWN;
        for part in self.parts {
            if let Some(part) = part {
                all = all.with_part(Some(part.up(places)));
            }
        }
        all
    }

    /// What an operator makes of a number and a constant.
    fn by_constant(self, operator: Operator, constant: u32) -> Shape {
        match operator {
            Operator::ShiftLeft => self.moved(constant.min(32) as i32),
            Operator::ShiftRight => self.moved(0i32.saturating_sub(constant.min(32) as i32)),
            Operator::Times => self.moved(highest_bit(constant)),
            Operator::Divide => self.moved(0i32.saturating_sub(highest_bit(constant))),
            _ => self,
        }
    }

    /// What an operator makes of two numbers.
    pub fn calculated(operator: Operator, first: Shape, second: Shape) -> Shape {
        match (first.number, second.number) {
            (Some(one), Some(other)) => match calculate(operator, one, other) {
                Some(number) => Shape::number(number),
                None => Shape::UNKNOWN,
            },
            (None, Some(constant)) => first.by_constant(operator, constant),
            (Some(constant), None) if operator == Operator::Times => {
                second.by_constant(operator, constant)
            }
            _ => first.with(second),
        }
    }

    /// Whether it has a field with bits at a place of this field, which is one of its own.
    fn has_beside(&self, part: Option<Part>) -> bool {
        match part {
            Some(part) => self.parts.iter().any(|other| part.meets(*other)),
            None => false,
        }
    }

    /// Whether two of its fields have bits at the same place.
    pub fn is_joined(&self) -> bool {
        self.parts.iter().any(|part| self.has_beside(*part))
    }
}
