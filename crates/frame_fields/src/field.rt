//! Fields, and their numbers in words.

use std::fmt;
use std::fmt::{Display, Formatter};

/// How the number of a field is written.
#[derive(Clone, Copy, Debug, PartialEq, Eq)]
pub enum Notation {
    /// `0x1f90`
    Hex,
    /// `8080`
    Decimal,
    /// `192.0.2.1`
    Dotted,
    /// `IPv4`, or else as [`Notation::Hex`].
    EtherType,
    /// `TCP`, or else as [`Notation::Decimal`].
    Protocol,
}

/// A field of a header: its name, and how its number is written.
#[derive(Clone, Copy, Debug, PartialEq, Eq)]
pub struct FrameField {
    pub name: &'static str,
    pub notation: Notation,
}

/// Bytes of a frame: the field that they are, or are part of.
#[derive(Clone, Copy, Debug, PartialEq, Eq)]
pub enum FieldPart {
    Whole(FrameField),
    /// Of this field these bytes, both included, counted from 0.
    Bytes(FrameField, usize, usize),
}

impl FieldPart {
    /// How the number of these bytes is written: of a part in hexadecimal.
    pub fn notation(self) -> Notation {
        match self {
            FieldPart::Whole(field) => field.notation,
            FieldPart::Bytes(_, _, _) => Notation::Hex,
        }
    }
}

/// `destination port`, or `Ethernet source, bytes 2-5`.
impl Display for FieldPart {
    fn fmt<W: fmt::Write>(&self, f: &mut Formatter<W>) -> fmt::Result {
        match *self {
            FieldPart::Whole(field) => f.write_str(field.name),
            FieldPart::Bytes(field, first, last) if first == last => {
                write!(f, "{}, byte {first}", field.name)
            }
            FieldPart::Bytes(field, first, last) => {
                write!(f, "{}, bytes {first}-{last}", field.name)
            }
        }
    }
}

/// A number in a notation.
#[derive(Clone, Copy, Debug, PartialEq, Eq)]
pub struct Written {
    pub number: u64,
    pub notation: Notation,
}

/// The name of a number of the field `ethertype`.
fn type_name(number: u64) -> Option<&'static str> {
    match number {
        0x0800 => Some("IPv4"),
        0x0806 => Some("ARP"),
        0x8035 => Some("RARP"),
        0x8100 => Some("VLAN"),
        0x86dd => Some("IPv6"),
        0x88a8 => Some("VLAN (802.1ad)"),
        _ => None,
    }
}

/// The name of a number of the field `protocol`.
fn protocol_name(number: u64) -> Option<&'static str> {
    match number {
        1 => Some("ICMP"),
        2 => Some("IGMP"),
        6 => Some("TCP"),
        17 => Some("UDP"),
        47 => Some("GRE"),
        50 => Some("ESP"),
        51 => Some("AH"),
        58 => Some("ICMPv6"),
        89 => Some("OSPF"),
        132 => Some("SCTP"),
        _ => None,
    }
}

impl Display for Written {
    fn fmt<W: fmt::Write>(&self, f: &mut Formatter<W>) -> fmt::Result {
        let number = self.number;
        match self.notation {
            Notation::Hex => write!(f, "{number:#x}"),
            Notation::Decimal => write!(f, "{number}"),
            Notation::Dotted => {
                let (first, second) = (number >> 24 & 255, number >> 16 & 255);
                let (third, fourth) = (number >> 8 & 255, number & 255);
                write!(f, "{first}.{second}.{third}.{fourth}")
            }
            Notation::EtherType => match type_name(number) {
                Some(name) => f.write_str(name),
                None => write!(f, "{number:#x}"),
            },
            Notation::Protocol => match protocol_name(number) {
                Some(name) => f.write_str(name),
                None => write!(f, "{number}"),
            },
        }
    }
}
