//! What the accumulator of a program holds, in words.

use bpfvm::{Insn, code};
use frame_fields::{FieldPart, Layers, Notation, part_of_frame, part_of_payload};
use std::fmt;
use std::fmt::{Display, Formatter};

/// The bytes of an Ethernet header, from which a program counts in front of the header of IPv4.
const ETHERNET_LEN: usize = 14;

/// What a load brings.
#[derive(Clone, Copy, Debug, PartialEq, Eq)]
pub(crate) enum Source {
    /// A field of a header, or part of one.
    Part(FieldPart),
    /// `size` bytes from a place of the frame.
    Bytes { at: usize, size: usize },
    /// `size` bytes from a place past X.
    PastX { at: usize, size: usize },
    /// The length on the wire.
    Length,
    /// Something that was calculated.
    Calculated,
}

impl Source {
    /// How a number of it is written.
    pub(crate) fn notation(self) -> Notation {
        match self {
            Source::Part(part) => part.notation(),
            Source::Length => Notation::Decimal,
            _ => Notation::Hex,
        }
    }
}

impl Display for Source {
    fn fmt<W: fmt::Write>(&self, f: &mut Formatter<W>) -> fmt::Result {
        match *self {
            Source::Part(part) => write!(f, "{part}"),
            Source::Bytes { at, size: 1 } => write!(f, "byte {at}"),
            Source::Bytes { at, size } => {
                write!(
                    f,
                    "bytes {at}-{}",
                    at.saturating_add(size).saturating_sub(1)
                )
            }
            Source::PastX { at, size: 1 } => write!(f, "byte X + {at}"),
            Source::PastX { at, size } => write!(f, "{size} bytes at X + {at}"),
            Source::Length => f.write_str("length on the wire"),
            Source::Calculated => f.write_str("A"),
        }
    }
}

/// What the accumulator holds: what was loaded, and the bits of it that were kept, if not all were.
#[derive(Clone, Copy, Debug, PartialEq, Eq)]
pub(crate) struct Held {
    pub source: Source,
    pub mask: Option<u32>,
}

impl Held {
    pub(crate) const CALCULATED: Held = Held {
        source: Source::Calculated,
        mask: None,
    };

    pub(crate) fn whole(source: Source) -> Held {
        Held { source, mask: None }
    }

    /// How a number of it is written.
    pub(crate) fn notation(self) -> Notation {
        match self.mask {
            Some(_) => Notation::Hex,
            None => self.source.notation(),
        }
    }

    /// Whether it is a field of this name, whole.
    pub(crate) fn is_field(self, name: &str) -> bool {
        match self {
            Held {
                source: Source::Part(FieldPart::Whole(field)),
                mask: None,
            } => field.name == name,
            _ => false,
        }
    }
}

impl Display for Held {
    fn fmt<W: fmt::Write>(&self, f: &mut Formatter<W>) -> fmt::Result {
        match self.mask {
            Some(mask) => write!(f, "{} & {mask:#x}", self.source),
            None => write!(f, "{}", self.source),
        }
    }
}

/// How many bytes a load of this code takes.
fn size_of(code: u16) -> usize {
    match code {
        code::LD_W_ABS | code::LD_W_IND => 4,
        code::LD_H_ABS | code::LD_H_IND => 2,
        _ => 1,
    }
}

/// The bytes that a load takes from a place of the frame.
fn of_frame(insn: &Insn, ethertype: Option<u16>) -> Source {
    let (at, size) = (insn.k as usize, size_of(insn.code));
    let layers = Layers {
        ethertype,
        payload: None,
    };
    match part_of_frame(layers, at, size) {
        Some(part) => Source::Part(part),
        None => Source::Bytes { at, size },
    }
}

/// The bytes that a load takes past X, which is the length of the header of IPv4 as programs for
/// ports have it.
fn past_x(insn: &Insn, protocol: Option<u8>) -> Source {
    let (at, size) = (insn.k as usize, size_of(insn.code));
    let part = match at.checked_sub(ETHERNET_LEN) {
        Some(inside) => part_of_payload(protocol, inside, size),
        None => None,
    };
    match part {
        Some(part) => Source::Part(part),
        None => Source::PastX { at, size },
    }
}

/// What the accumulator holds after an instruction, if a frame of this type and protocol is asked.
pub(crate) fn held_after(
    held: Held,
    insn: &Insn,
    ethertype: Option<u16>,
    protocol: Option<u8>,
) -> Held {
    match insn.code {
        code::LD_W_ABS | code::LD_H_ABS | code::LD_B_ABS => Held::whole(of_frame(insn, ethertype)),
        code::LD_W_IND | code::LD_H_IND | code::LD_B_IND => Held::whole(past_x(insn, protocol)),
        code::LD_LEN => Held::whole(Source::Length),
        code::AND_K if held.mask.is_none() && held.source != Source::Calculated => Held {
            source: held.source,
            mask: Some(insn.k),
        },
        code::LDX_IMM | code::LDX_MEM | code::LDX_LEN | code::LDX_MSH => held,
        code::ST | code::STX | code::TAX => held,
        code::JA | code::JEQ_K | code::JEQ_X | code::JGT_K | code::JGT_X => held,
        code::JGE_K | code::JGE_X | code::JSET_K | code::JSET_X => held,
        _ => Held::CALCULATED,
    }
}
