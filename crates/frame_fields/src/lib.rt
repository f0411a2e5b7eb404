//! Names for the bytes of an Ethernet frame, as RFC 791 (IPv4), 792 (ICMP), 793 (TCP), 768 (UDP)
//! and 826 (ARP) name its fields, and how their numbers are written. They are labels: nothing is
//! decided by them.
#![tactic(auto)]

mod field;
mod layers;
mod tables;

pub use field::{FieldPart, FrameField, Notation, Written};
pub use layers::{Layers, Payload, layers_of, part_of_frame, part_of_payload};
