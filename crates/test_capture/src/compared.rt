//! The caller that the page of `cli_compare` shows, crates/cli_compare/README.md.

use crate::same::same;
use cli_answers::PacketForm;
use cli_answers::filter::of_expression;
use cli_compare::FilterPair;
use cli_compare::each::{DifferenceCounts, compare_each};
use filterlang::Fault;
use std::alloc::Global;

/// Appends a line for each packet of a capture in memory that two expressions treat differently, and returns the counts.
pub fn compared(
    alloc: Global,
    capture: &[u8],
    first: &str,
    second: &str,
    out: &mut Vec<u8>,
) -> Result<DifferenceCounts, Fault> {
    let pair = FilterPair {
        first: of_expression(alloc, first)?,
        second: of_expression(alloc, second)?,
    };
    Ok(compare_each(alloc, capture, &pair, PacketForm::Text, out).counts)
}

/// A header; the first 14 bytes of an ARP frame at second 1, and of an IPv4 frame at second 2.
const CAPTURE: &[u8] = b"\xd4\xc3\xb2\xa1\x02\0\x04\0\0\0\0\0\0\0\0\0\0\0\x04\0\x01\0\0\0\
\x01\0\0\0\0\0\0\0\x0e\0\0\0\x0e\0\0\0\xff\xff\xff\xff\xff\xff\0\x01\x02\x03\x04\x05\x08\x06\
\x02\0\0\0\0\0\0\0\x0e\0\0\0\x0e\0\0\0\xff\xff\xff\xff\xff\xff\0\x01\x02\x03\x04\x05\x08\0";

const LINES: &str =
    "place 1 time 2.000000000 len 14 captured 14 first Abort not tcp, byte 23 is not captured second Yes ip
";

#[test]
fn a_cut_frame_differs(rt: HostRuntime) {
    let mut out: Vec<u8> = Vec::new(rt.alloc());
    let counts = compared(rt.alloc(), CAPTURE, "not tcp", "arp or ip", &mut out).expect(
        &rt,
        "two expressions",
    );
    let wanted = DifferenceCounts {
        packets: 2,
        first: 0,
        second: 1,
        unseen: 0,
    };
    same(&rt, (out.as_slice(), counts), (LINES.as_bytes(), wanted));
}
