//! Pairs of expressions by how they differ, written down by hand from the tables of
//! docs/LANGUAGE.md.

use crate::same::same;
use filter_same::{Sameness, decide};
use filterlang::parse;
use std::process::Abort;

/// Pairs of which a packet gets Yes from one and No from the other.
static DIFFER: [(&str, &str); 12] = [
    ("tcp", "udp"),
    ("ip", "arp"),
    ("net 10.0.0.0/8", "net 10.0.0.0/9"),
    ("src portrange 80-90", "src portrange 80-91"),
    ("less 100", "less 101"),
    ("greater 1000", "greater 1001"),
    ("src host 10.0.0.1", "src host 10.0.0.2"),
    ("ether multicast", "ether broadcast"),
    ("port 80", "tcp port 80"),
    ("not tcp", "not udp"),
    ("ip proto 6", "ether proto 0x800"),
    (
        "tcp and (port 80 or port 443)",
        "tcp and port 80 or port 443",
    ),
];

/// Pairs that accept the same packets of those that are captured at most as far as they were on the
/// wire.
static CAPTURED: [(&str, &str); 7] = [
    ("ip", "ip and greater 14"),
    ("arp", "arp and greater 14"),
    ("tcp", "tcp and greater 24"),
    ("tcp", "tcp and not less 23"),
    ("ether broadcast", "ether broadcast and greater 6"),
    ("tcp or (ip and less 20)", "tcp"),
    ("less 5 and ip", "ip and not ip"),
];

/// Pairs that never get Yes and No of such a packet, and one of which aborts where the other says
/// Yes.
static SHORT: [(&str, &str); 9] = [
    ("port 80 or 443", "port 443 or 80"),
    ("host 10.0.0.1 or 10.0.0.2", "host 10.0.0.2 or 10.0.0.1"),
    ("host 10.0.0.1", "dst host 10.0.0.1 or src host 10.0.0.1"),
    ("ip or less 100", "less 100 or ip"),
    ("portrange 80-90", "portrange 80-85 or portrange 86-90"),
    ("net 10.0.0.0/8", "net 10.0.0.0/9 or net 10.128.0.0/9"),
    ("ether broadcast or ether multicast", "ether multicast"),
    ("ip or not ip", ""),
    ("tcp or less 24", "less 24 or tcp"),
];

/// What is known of two texts.
pub(crate) fn found(rt: &(impl Abort + AllocGlobal), first: &str, second: &str) -> Sameness {
    let first = parse(rt.alloc(), first).expect(rt, "an expression");
    let second = parse(rt.alloc(), second).expect(rt, "an expression");
    decide(rt.alloc(), &first, &second, 500_000).expect(rt, "there is memory")
}

#[test]
fn what_differs_has_a_witness(rt: HostRuntime) {
    for (first, second) in DIFFER.iter() {
        let differs = matches!(found(&rt, first, second), Sameness::Differ(_));
        same(&rt, differs, true);
    }
}

#[test]
fn what_cannot_be_captured_is_no_difference(rt: HostRuntime) {
    for (first, second) in CAPTURED.iter() {
        same(
            &rt,
            found(&rt, first, second) == Sameness::SameAsCaptured,
            true,
        );
    }
}

#[test]
fn what_differs_by_an_abort_has_a_short_witness(rt: HostRuntime) {
    for (first, second) in SHORT.iter() {
        let is_short = matches!(found(&rt, first, second), Sameness::Short(_));
        same(&rt, is_short, true);
    }
}
