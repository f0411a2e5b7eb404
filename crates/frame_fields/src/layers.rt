//! What is known of the headers of a frame, and the field that bytes belong to by that.

use crate::field::FieldPart;
use crate::tables::{ARP, ETHERNET, ICMP, IPV4, PORTS, Row, SCTP, TCP, UDP, find_part};

/// The bytes of the header of an Ethernet frame.
const ETHERNET_LEN: usize = 14;

/// Where the number of the protocol of IPv4 is in a frame.
const PROTOCOL_AT: usize = 23;

const TYPE_IPV4: u16 = 0x0800;

const TYPE_ARP: u16 = 0x0806;

const TYPE_RARP: u16 = 0x8035;

/// The bits of the fragment offset.
const OFFSET_BITS: u16 = 0x1fff;

/// What follows the header of IPv4.
#[derive(Clone, Copy, Debug, PartialEq, Eq)]
pub struct Payload {
    /// Where it begins in the frame.
    pub at: usize,
    pub protocol: u8,
}

/// What is known of the headers of a frame.
#[derive(Clone, Copy, Debug, PartialEq, Eq)]
pub struct Layers {
    pub ethertype: Option<u16>,
    /// Of IPv4 that is no later fragment.
    pub payload: Option<Payload>,
}

impl Layers {
    /// If nothing is known.
    pub const UNKNOWN: Layers = Layers {
        ethertype: None,
        payload: None,
    };
}

/// Two bytes of a frame as a number, if they were captured.
fn half_at(frame: &[u8], at: usize) -> Option<u16> {
    let high = frame.get(at)?;
    let low = frame.get(at.checked_add(1)?)?;
    Some(u16::from(*high) << 8 | u16::from(*low))
}

/// What follows the header of IPv4 of a frame, unless it is a later fragment.
fn payload_of(frame: &[u8]) -> Option<Payload> {
    let first = frame.get(ETHERNET_LEN)?;
    let protocol = frame.get(PROTOCOL_AT)?;
    if half_at(frame, 20)? & OFFSET_BITS != 0 {
        return None;
    }
    Some(Payload {
        at: ETHERNET_LEN + 4 * usize::from(*first & 15),
        protocol: *protocol,
    })
}

/// What the captured bytes of a frame say of its headers.
pub fn layers_of(frame: &[u8]) -> Layers {
    let ethertype = half_at(frame, 12);
    Layers {
        ethertype,
        payload: if ethertype == Some(TYPE_IPV4) {
            payload_of(frame)
        } else {
            None
        },
    }
}

/// The fields of what follows the header of IPv4, by its protocol.
fn rows_of_protocol(protocol: u8) -> &'static [Row] {
    match protocol {
        1 => &ICMP,
        6 => &TCP,
        17 => &UDP,
        132 => &SCTP,
        _ => &[],
    }
}

/// The field that `size` bytes belong to, from byte `at` of what follows the header of IPv4.
/// Without a protocol these are the ports, if they can be.
pub fn part_of_payload(protocol: Option<u8>, at: usize, size: usize) -> Option<FieldPart> {
    match protocol {
        Some(protocol) => find_part(rows_of_protocol(protocol), at, size),
        None => find_part(&PORTS, at, size),
    }
}

/// The field that `size` bytes belong to, from byte `at` of a packet of this type.
fn part_of_packet(ethertype: Option<u16>, at: usize, size: usize) -> Option<FieldPart> {
    match ethertype {
        Some(TYPE_IPV4) => find_part(&IPV4, at, size),
        Some(TYPE_ARP | TYPE_RARP) => find_part(&ARP, at, size),
        _ => None,
    }
}

/// The field that `size` bytes of a frame belong to, from byte `at` on.
pub fn part_of_frame(layers: Layers, at: usize, size: usize) -> Option<FieldPart> {
    let Some(inside) = at.checked_sub(ETHERNET_LEN) else {
        return find_part(&ETHERNET, at, size);
    };
    match layers.payload {
        Some(payload) if at >= payload.at => {
            part_of_payload(Some(payload.protocol), at - payload.at, size)
        }
        _ => part_of_packet(layers.ethertype, inside, size),
    }
}
