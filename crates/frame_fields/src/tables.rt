//! The fields of each header: where they begin in it, how many bytes they have, and their names.

use crate::field::{FieldPart, FrameField, Notation};

/// A field in its header: where it begins, how many bytes it has, its name, and how its number is
/// written.
pub(crate) type Row = (usize, usize, &'static str, Notation);

/// These bytes of a header, if they are a field or part of it.
fn part_of(row: &Row, at: usize, size: usize) -> Option<FieldPart> {
    let (begin, len, name, notation) = *row;
    let first = at.checked_sub(begin)?;
    let end = first.checked_add(size)?;
    let field = FrameField { name, notation };
    if size == 0 || end > len {
        None
    } else if size == len {
        Some(FieldPart::Whole(field))
    } else {
        Some(FieldPart::Bytes(field, first, end.saturating_sub(1)))
    }
}

/// The field of a header that has these bytes.
pub(crate) fn find_part(rows: &[Row], at: usize, size: usize) -> Option<FieldPart> {
    rows.iter().find_map(|row| part_of(row, at, size))
}

pub(crate) static ETHERNET: [Row; 3] = [
    (0, 6, "Ethernet destination", Notation::Hex),
    (6, 6, "Ethernet source", Notation::Hex),
    (12, 2, "ethertype", Notation::EtherType),
];

/// RFC 791.
pub(crate) static IPV4: [Row; 10] = [
    (0, 1, "version and IHL", Notation::Hex),
    (1, 1, "type of service", Notation::Hex),
    (2, 2, "total length", Notation::Decimal),
    (4, 2, "identification", Notation::Hex),
    (6, 2, "flags and fragment offset", Notation::Hex),
    (8, 1, "time to live", Notation::Decimal),
    (9, 1, "protocol", Notation::Protocol),
    (10, 2, "header checksum", Notation::Hex),
    (12, 4, "source address", Notation::Dotted),
    (16, 4, "destination address", Notation::Dotted),
];

/// RFC 826, with addresses of Ethernet and IPv4.
pub(crate) static ARP: [Row; 9] = [
    (0, 2, "hardware address space", Notation::Decimal),
    (2, 2, "protocol address space", Notation::Hex),
    (4, 1, "hardware address length", Notation::Decimal),
    (5, 1, "protocol address length", Notation::Decimal),
    (6, 2, "opcode", Notation::Decimal),
    (8, 6, "sender hardware address", Notation::Hex),
    (14, 4, "sender protocol address", Notation::Dotted),
    (18, 6, "target hardware address", Notation::Hex),
    (24, 4, "target protocol address", Notation::Dotted),
];

/// RFC 793.
pub(crate) static TCP: [Row; 9] = [
    (0, 2, "source port", Notation::Decimal),
    (2, 2, "destination port", Notation::Decimal),
    (4, 4, "sequence number", Notation::Decimal),
    (8, 4, "acknowledgment number", Notation::Decimal),
    (12, 1, "data offset", Notation::Hex),
    (13, 1, "control bits", Notation::Hex),
    (14, 2, "window", Notation::Decimal),
    (16, 2, "checksum", Notation::Hex),
    (18, 2, "urgent pointer", Notation::Decimal),
];

/// RFC 768.
pub(crate) static UDP: [Row; 4] = [
    (0, 2, "source port", Notation::Decimal),
    (2, 2, "destination port", Notation::Decimal),
    (4, 2, "length", Notation::Decimal),
    (6, 2, "checksum", Notation::Hex),
];

/// RFC 9260.
pub(crate) static SCTP: [Row; 4] = [
    (0, 2, "source port", Notation::Decimal),
    (2, 2, "destination port", Notation::Decimal),
    (4, 4, "verification tag", Notation::Hex),
    (8, 4, "checksum", Notation::Hex),
];

/// RFC 792.
pub(crate) static ICMP: [Row; 3] = [
    (0, 1, "type", Notation::Decimal),
    (1, 1, "code", Notation::Decimal),
    (2, 2, "checksum", Notation::Hex),
];

/// What TCP, UDP and SCTP have in the same place.
pub(crate) static PORTS: [Row; 2] = [
    (0, 2, "source port", Notation::Decimal),
    (2, 2, "destination port", Notation::Decimal),
];
