//! The caller that the page of `cli_answers` shows, crates/cli_answers/README.md.

use crate::same::same;
use cli_answers::filter::of_expression;
use cli_answers::seek::find_first;
use savefile::Fault;
use std::alloc::Global;

/// Whether a capture in memory has a packet that an expression accepts, as far as it can be read; `None` if the text is no expression.
pub fn has_packet(alloc: Global, capture: &[u8], expr: &str) -> Option<Result<bool, Fault>> {
    let filter = of_expression(alloc, expr).ok()?;
    Some(find_first(alloc, capture, &filter).found)
}

/// A header, the first 14 bytes of an ARP frame, and half of a record's header.
const CAPTURE: &[u8] = b"\xd4\xc3\xb2\xa1\x02\0\x04\0\0\0\0\0\0\0\0\0\0\0\x04\0\x01\0\0\0\
\x01\0\0\0\0\0\0\0\x0e\0\0\0\x0e\0\0\0\xff\xff\xff\xff\xff\xff\0\x01\x02\x03\x04\x05\x08\x06\
\x02\0\0\0\0\0\0\0";

#[test]
fn a_packet_is_found_before_the_fault(rt: HostRuntime) {
    let found = has_packet(rt.alloc(), CAPTURE, "arp");
    same(&rt, found, Some(Ok(true)));
    let found = has_packet(rt.alloc(), CAPTURE, "ip");
    same(&rt, found, Some(Err(Fault::TornRecord(1))));
    let found = has_packet(rt.alloc(), CAPTURE, "arp and");
    same(&rt, found, None);
}
