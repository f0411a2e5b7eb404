//! The caller that the page of `cli_explain` shows, crates/cli_explain/README.md.

use crate::same::same;
use cli_answers::PacketForm;
use cli_answers::counts::VerdictCounts;
use cli_answers::filter::of_expression;
use cli_explain::each::explain_each;
use filterlang::Fault;
use std::alloc::Global;

/// Appends a line for each packet of a capture in memory, and returns how many an expression accepts and rejects.
pub fn explained(
    alloc: Global,
    capture: &[u8],
    expr: &str,
    out: &mut Vec<u8>,
) -> Result<VerdictCounts, Fault> {
    let filter = of_expression(alloc, expr)?;
    Ok(explain_each(alloc, capture, &filter, PacketForm::Text, out).counts)
}

/// A header; the first 14 bytes of an ARP frame at second 1, and of an IPv4 frame at second 2.
const CAPTURE: &[u8] = b"\xd4\xc3\xb2\xa1\x02\0\x04\0\0\0\0\0\0\0\0\0\0\0\x04\0\x01\0\0\0\
\x01\0\0\0\0\0\0\0\x0e\0\0\0\x0e\0\0\0\xff\xff\xff\xff\xff\xff\0\x01\x02\x03\x04\x05\x08\x06\
\x02\0\0\0\0\0\0\0\x0e\0\0\0\x0e\0\0\0\xff\xff\xff\xff\xff\xff\0\x01\x02\x03\x04\x05\x08\0";

const LINES: &str = "place 0 time 1.000000000 len 14 captured 14 Yes not tcp
place 1 time 2.000000000 len 14 captured 14 Abort not tcp, byte 23 is not captured
2 packets: 1 Yes, 0 No, 1 Abort
";

#[test]
fn a_cut_frame_aborts(rt: HostRuntime) {
    let mut out: Vec<u8> = Vec::new(rt.alloc());
    let counts = explained(rt.alloc(), CAPTURE, "not tcp", &mut out).expect(&rt, "an expression");
    let wanted = VerdictCounts {
        packets: 2,
        yes: 1,
        no: 0,
        abort: 1,
        unseen: 0,
    };
    same(&rt, (out.as_slice(), counts), (LINES.as_bytes(), wanted));
}
