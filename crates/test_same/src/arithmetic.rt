//! Arithmetic, and bytes at computed offsets. The answers are written down by hand, from the tables
//! of docs/LANGUAGE.md.

use crate::kinds::found;
use crate::same::same;
use filter_same::Sameness;

/// Pairs that accept the same packets, of every captured length.
static SAME: [(&str, &str); 25] = [
    ("ip[0] + 1 = 70", "ip[0] = 69"),
    ("len - 14 = 100", "len = 114"),
    ("len * 2 = 200", "len = 100 or len = 2147483748"),
    ("ip[0] = ip[1]", "ip[1] = ip[0]"),
    ("ip[8] > 30 and ip[8] < 33", "ip[8] - 31 < 2"),
    ("ip[8] / 64 * 64 = ip[8]", "ip[8] & 63 = 0"),
    ("ip[8] % 8 = 3", "ip[8] & 7 = 3"),
    ("1 << (ip[8] & 31) = 16", "ip[8] & 31 = 4"),
    ("1 << ip[8] = 0", "ip[8] >= 32"),
    ("ip[8] >> 4 = 4", "ip[8] & 0xf0 = 64"),
    ("(ip[1] & 0xfc) >> 2 = 46", "ip[1] & 0xfc = 184"),
    ("ip[8] ^ 255 = 0", "ip[8] = 255"),
    ("ip[8] | 1 = 255", "ip[8] >= 254"),
    ("-ip[8] = 0 - 5", "ip[8] = 5"),
    ("ip[ip[0] & 0xf] = 7", "ip[ip[0] % 16] = 7"),
    // By how much a number is shifted, and the smaller factor of a product, are asked for first.
    (
        "ip[12:4] << (ip[8] & 31) = 256",
        "(ip[12:4] << (ip[8] & 31)) - 256 = 0",
    ),
    (
        "(ip[6:2] & 0x1fff) << ip[1] != 1",
        "1 != (ip[6:2] & 0x1fff) << ip[1]",
    ),
    ("ip[8] * ip[9] > 600", "600 < ip[9] * ip[8]"),
    (
        "tcp[((tcp[12] & 0xf0) >> 2):4] = 0x48545450",
        "tcp[(tcp[12] / 16 * 4):4] = 0x48545450",
    ),
    // Fields that are compared with one another: their bits are asked for in turn.
    ("ip[12:4] = ip[16:4]", "ip[12:4] - ip[16:4] = 0"),
    ("tcp[8:4] > tcp[4:4]", "tcp[4:4] < tcp[8:4]"),
    ("len - 14 != ip[2:2]", "len != ip[2:2] + 14"),
    (
        "udp[4:2] != ip[2:2] - ((ip[0] & 0xf) << 2)",
        "ip[2:2] - 4 * (ip[0] % 16) != udp[4:2]",
    ),
    (
        "ip[12:4] & 0xffffff00 = ip[16:4] & 0xffffff00",
        "(ip[12:4] ^ ip[16:4]) & 0xffffff00 = 0",
    ),
    (
        "ether[0:4] = ether[6:4] and ether[4:2] = ether[10:2]",
        "ether[0:4] - ether[6:4] = 0 and ether[4:2] ^ ether[10:2] = 0",
    ),
];

/// Pairs of which a packet gets Yes from one and No from the other.
static DIFFER: [(&str, &str); 10] = [
    ("ip[0] + 1 = 70", "ip[0] = 70"),
    ("len - 14 = 100", "len = 113"),
    ("ip[8] - 31 < 2", "ip[8] > 31 and ip[8] < 33"),
    ("len * 2 = 200", "len = 100"),
    ("1 << ip[8] = 0", "ip[8] > 32"),
    ("ip[ip[0] & 0xf] = 7", "ip[5] = 7"),
    ("ip[8] / 3 = 2", "ip[8] % 3 = 2"),
    (
        "ip[12:4] = ip[16:4]",
        "ip[12:4] & 0xffffff00 = ip[16:4] & 0xffffff00",
    ),
    ("tcp[8:4] > tcp[4:4]", "tcp[8:4] >= tcp[4:4]"),
    (
        "tcp[(tcp[12] >> 2):4] = 0x5353482d and (tcp[((tcp[12] >> 2) + 4):2] = 0x312e or tcp[((tcp[12] >> 2) + 4):2] = 0x322e)",
        "tcp[(tcp[12] >> 2):4] = 0x5353482d and tcp[((tcp[12] >> 2) + 4):2] = 0x312e",
    ),
];

#[test]
fn what_calculates_the_same_is_the_same(rt: HostRuntime) {
    for (first, second) in SAME.iter() {
        same(&rt, found(&rt, first, second) == Sameness::Same, true);
    }
}

#[test]
fn what_calculates_another_number_differs(rt: HostRuntime) {
    for (first, second) in DIFFER.iter() {
        let differs = matches!(found(&rt, first, second), Sameness::Differ(_));
        same(&rt, differs, true);
    }
}

#[test]
fn a_divisor_of_0_aborts(rt: HostRuntime) {
    let short = found(&rt, "10 / ip[8] = 5 or ip[8] = 0", "ip[8] = 2 or ip[8] = 0");
    same(&rt, matches!(short, Sameness::Short(_)), true);
    let never = found(&rt, "ip[8] / (ip[9] - ip[9]) = 5", "ip and not ip");
    same(&rt, never == Sameness::Same, true);
}
