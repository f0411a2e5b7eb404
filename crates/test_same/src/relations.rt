//! Relations against primitives and other relations. The answers are written down by hand, from the
//! tables of docs/LANGUAGE.md.

use crate::kinds::found;
use crate::same::same;
use filter_same::Sameness;

/// Pairs that accept the same packets, of every captured length.
static SAME: [(&str, &str); 20] = [
    ("ip[0] & 15 = 5", "5 = 15 & ip[0]"),
    ("tcp[13] & 2 != 0", "tcp[tcpflags] & tcp-syn != 0"),
    ("tcp[13] & 3 = 1 + 2", "tcp[13] & (tcp-fin | tcp-syn) = 3"),
    ("ip[9] = 6", "ip proto 6"),
    ("ether[0] & 1 = 1", "ether multicast"),
    ("ether[0] & 1 = 0", "not ether multicast"),
    ("ether[12:2] = 0x800", "ip"),
    ("len <= 100", "less 100"),
    ("100 < len", "greater 101"),
    ("len = 100", "less 100 and greater 100"),
    ("len != 100", "less 99 or greater 101"),
    ("tcp[0:2] = 80", "tcp src port 80"),
    ("tcp[2:2] > 1023", "tcp dst portrange 1024-65535"),
    ("udp[2:2] <= 53", "udp dst portrange 0-53"),
    (
        "ip[12:4] & 0xff000000 = 0x0a000000",
        "ip src net 10.0.0.0/8",
    ),
    ("udp[0:2] != 53", "udp[0:2] < 53 or udp[0:2] > 53"),
    ("icmp[0] = 8", "icmp[icmptype] = icmp-echo"),
    ("ip[0] >= 64 and ip[0] <= 79", "ip[0] & 0xf0 = 0x40"),
    ("arp[6:2] = 1", "arp[6] = 0 and arp[7] = 1"),
    ("rarp[0] >= 128", "128 & rarp[0] = 128"),
];

/// Pairs of which a packet gets Yes from one and No from the other.
static DIFFER: [(&str, &str); 8] = [
    ("ip[0] = 69", "ip[0] & 15 = 5"),
    ("ip[0] & 1 = 0", "ip[0] & 2 = 0"),
    ("len < 100", "less 100"),
    ("tcp[13] = 2", "tcp[13] & 2 != 0"),
    ("udp[2:2] = 53", "tcp[2:2] = 53"),
    ("tcp", "tcp and ip[8] > 1"),
    ("ip[9] > 5", "5 > ip[9]"),
    ("tcp[13] & 2 = 0", "not tcp[13] & 2 != 0"),
];

#[test]
fn relations_that_accept_the_same_are_the_same(rt: HostRuntime) {
    for (first, second) in SAME.iter() {
        same(&rt, found(&rt, first, second) == Sameness::Same, true);
    }
}

#[test]
fn relations_that_differ_have_a_witness(rt: HostRuntime) {
    for (first, second) in DIFFER.iter() {
        let differs = matches!(found(&rt, first, second), Sameness::Differ(_));
        same(&rt, differs, true);
    }
}

#[test]
fn relations_are_cut_short(rt: HostRuntime) {
    let captured = found(&rt, "ip[0] = 69", "ip[0] = 69 and len >= 15");
    same(&rt, captured == Sameness::SameAsCaptured, true);
    let short = found(&rt, "ip[0] = 69 or ip[40] = 2", "ip[40] = 2 or ip[0] = 69");
    same(&rt, matches!(short, Sameness::Short(_)), true);
}
