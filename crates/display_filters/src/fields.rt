//! Fields of display filters, and what is written here for a test of one.

use crate::comparisons::{
    Comparison, IN, comparison_at, ends_test, is_compared, items_of, mask_at,
};
use crate::ranges::of_several;
use crate::written::{Found, Written, advise};
use filter_spots::{Run, Spot, without_blanks};
use std::alloc::Global;

/// Protocols that fields of display filters begin with.
static PROTOCOLS: [&[u8]; 18] = [
    b"eth", b"ip", b"ipv6", b"arp", b"tcp", b"udp", b"icmp", b"icmpv6", b"dns", b"http", b"tls",
    b"ssl", b"frame", b"vlan", b"dhcp", b"bootp", b"sctp", b"igmp",
];

/// The layer that each frame has.
const ETHER: &str = "ether";

/// A field that words of this language ask for: its layer, the words that its value follows, and
/// the words for what has more than one value, a net or a range of ports.
pub(crate) struct Field {
    name: &'static [u8],
    pub layer: &'static str,
    pub test: &'static str,
    pub wide: &'static str,
}

/// A field that is a number of the packet.
struct Number {
    name: &'static [u8],
    layer: &'static str,
    written: &'static str,
}

/// A flag, and what asks whether it is set and whether it is not.
struct Flag {
    name: &'static [u8],
    set: &'static str,
    unset: &'static str,
}

static FIELDS: [Field; 26] = [
    Field {
        name: b"ip.addr",
        layer: "ip",
        test: "host",
        wide: "net",
    },
    Field {
        name: b"ip.src",
        layer: "ip",
        test: "src host",
        wide: "src net",
    },
    Field {
        name: b"ip.dst",
        layer: "ip",
        test: "dst host",
        wide: "dst net",
    },
    Field {
        name: b"ip.host",
        layer: "ip",
        test: "host",
        wide: "net",
    },
    Field {
        name: b"ip.src_host",
        layer: "ip",
        test: "src host",
        wide: "src net",
    },
    Field {
        name: b"ip.dst_host",
        layer: "ip",
        test: "dst host",
        wide: "dst net",
    },
    Field {
        name: b"ip.proto",
        layer: "ip",
        test: "proto",
        wide: "",
    },
    Field {
        name: b"arp.src.proto_ipv4",
        layer: "arp",
        test: "src host",
        wide: "src net",
    },
    Field {
        name: b"arp.dst.proto_ipv4",
        layer: "arp",
        test: "dst host",
        wide: "dst net",
    },
    Field {
        name: b"eth.addr",
        layer: ETHER,
        test: "host",
        wide: "",
    },
    Field {
        name: b"eth.src",
        layer: ETHER,
        test: "src",
        wide: "",
    },
    Field {
        name: b"eth.dst",
        layer: ETHER,
        test: "dst",
        wide: "",
    },
    Field {
        name: b"eth.type",
        layer: ETHER,
        test: "proto",
        wide: "",
    },
    Field {
        name: b"tcp.port",
        layer: "tcp",
        test: "port",
        wide: "portrange",
    },
    Field {
        name: b"tcp.srcport",
        layer: "tcp",
        test: "src port",
        wide: "src portrange",
    },
    Field {
        name: b"tcp.dstport",
        layer: "tcp",
        test: "dst port",
        wide: "dst portrange",
    },
    Field {
        name: b"udp.port",
        layer: "udp",
        test: "port",
        wide: "portrange",
    },
    Field {
        name: b"udp.srcport",
        layer: "udp",
        test: "src port",
        wide: "src portrange",
    },
    Field {
        name: b"udp.dstport",
        layer: "udp",
        test: "dst port",
        wide: "dst portrange",
    },
    Field {
        name: b"tcp.sport",
        layer: "tcp",
        test: "src port",
        wide: "src portrange",
    },
    Field {
        name: b"tcp.dport",
        layer: "tcp",
        test: "dst port",
        wide: "dst portrange",
    },
    Field {
        name: b"udp.sport",
        layer: "udp",
        test: "src port",
        wide: "src portrange",
    },
    Field {
        name: b"udp.dport",
        layer: "udp",
        test: "dst port",
        wide: "dst portrange",
    },
    Field {
        name: b"sctp.port",
        layer: "sctp",
        test: "port",
        wide: "portrange",
    },
    Field {
        name: b"sctp.srcport",
        layer: "sctp",
        test: "src port",
        wide: "src portrange",
    },
    Field {
        name: b"sctp.dstport",
        layer: "sctp",
        test: "dst port",
        wide: "dst portrange",
    },
];

static NUMBERS: [Number; 26] = [
    Number {
        name: b"frame.len",
        layer: "",
        written: "len",
    },
    Number {
        name: b"ip.ttl",
        layer: "ip",
        written: "ip[8]",
    },
    Number {
        name: b"ip.len",
        layer: "ip",
        written: "ip[2:2]",
    },
    Number {
        name: b"ip.id",
        layer: "ip",
        written: "ip[4:2]",
    },
    Number {
        name: b"ip.flags",
        layer: "ip",
        written: "ip[6] >> 5",
    },
    Number {
        name: b"ip.checksum",
        layer: "ip",
        written: "ip[10:2]",
    },
    Number {
        name: b"ip.frag_offset",
        layer: "ip",
        written: "(ip[6:2] & 0x1fff)",
    },
    Number {
        name: b"ip.hdr_len",
        layer: "ip",
        written: "(ip[0] & 15) * 4",
    },
    Number {
        name: b"ip.dsfield",
        layer: "ip",
        written: "ip[1]",
    },
    Number {
        name: b"ip.dsfield.dscp",
        layer: "ip",
        written: "(ip[1] >> 2)",
    },
    Number {
        name: b"ip.dsfield.ecn",
        layer: "ip",
        written: "(ip[1] & 3)",
    },
    Number {
        name: b"arp.opcode",
        layer: "arp",
        written: "arp[6:2]",
    },
    Number {
        name: b"icmp.type",
        layer: "icmp",
        written: "icmp[icmptype]",
    },
    Number {
        name: b"icmp.code",
        layer: "icmp",
        written: "icmp[icmpcode]",
    },
    Number {
        name: b"icmp.ident",
        layer: "icmp",
        written: "icmp[4:2]",
    },
    Number {
        name: b"icmp.seq",
        layer: "icmp",
        written: "icmp[6:2]",
    },
    Number {
        name: b"tcp.flags",
        layer: "tcp",
        written: "(tcp[12:2] & 0xfff)",
    },
    Number {
        name: b"tcp.window_size_value",
        layer: "tcp",
        written: "tcp[14:2]",
    },
    Number {
        name: b"tcp.seq_raw",
        layer: "tcp",
        written: "tcp[4:4]",
    },
    Number {
        name: b"tcp.ack_raw",
        layer: "tcp",
        written: "tcp[8:4]",
    },
    Number {
        name: b"tcp.hdr_len",
        layer: "tcp",
        written: "(tcp[12] >> 4) * 4",
    },
    Number {
        name: b"tcp.checksum",
        layer: "tcp",
        written: "tcp[16:2]",
    },
    Number {
        name: b"tcp.urgent_pointer",
        layer: "tcp",
        written: "tcp[18:2]",
    },
    Number {
        name: b"tcp.len",
        layer: "tcp",
        written: "ip[2:2] - ((ip[0] & 15) << 2) - ((tcp[12] & 0xf0) >> 2)",
    },
    Number {
        name: b"udp.length",
        layer: "udp",
        written: "udp[4:2]",
    },
    Number {
        name: b"udp.checksum",
        layer: "udp",
        written: "udp[6:2]",
    },
];

static FLAGS: [Flag; 10] = [
    Flag {
        name: b"tcp.flags.syn",
        set: "tcp[tcpflags] & tcp-syn != 0",
        unset: "tcp[tcpflags] & tcp-syn = 0",
    },
    Flag {
        name: b"tcp.flags.ack",
        set: "tcp[tcpflags] & tcp-ack != 0",
        unset: "tcp[tcpflags] & tcp-ack = 0",
    },
    Flag {
        name: b"tcp.flags.fin",
        set: "tcp[tcpflags] & tcp-fin != 0",
        unset: "tcp[tcpflags] & tcp-fin = 0",
    },
    Flag {
        name: b"tcp.flags.reset",
        set: "tcp[tcpflags] & tcp-rst != 0",
        unset: "tcp[tcpflags] & tcp-rst = 0",
    },
    Flag {
        name: b"tcp.flags.push",
        set: "tcp[tcpflags] & tcp-push != 0",
        unset: "tcp[tcpflags] & tcp-push = 0",
    },
    Flag {
        name: b"tcp.flags.urg",
        set: "tcp[tcpflags] & tcp-urg != 0",
        unset: "tcp[tcpflags] & tcp-urg = 0",
    },
    Flag {
        name: b"tcp.flags.ece",
        set: "tcp[tcpflags] & 64 != 0",
        unset: "tcp[tcpflags] & 64 = 0",
    },
    Flag {
        name: b"tcp.flags.cwr",
        set: "tcp[tcpflags] & 128 != 0",
        unset: "tcp[tcpflags] & 128 = 0",
    },
    Flag {
        name: b"ip.flags.mf",
        set: "ip[6:2] & 0x2000 != 0",
        unset: "ip[6:2] & 0x2000 = 0",
    },
    Flag {
        name: b"ip.flags.df",
        set: "ip[6:2] & 0x4000 != 0",
        unset: "ip[6:2] & 0x4000 = 0",
    },
];

/// Values that a flag has if it is set.
static TRUE: [&[u8]; 5] = [b"1", b"0x1", b"true", b"True", b"TRUE"];

/// Values that a flag has if it is not set.
static FALSE: [&[u8]; 5] = [b"0", b"0x0", b"false", b"False", b"FALSE"];

/// Whether a name with dots is a field: one of a protocol, or one that is compared.
pub fn is_field(name: &[u8], after: &[u8]) -> bool {
    let protocol = name.split(|byte| *byte == b'.').next().unwrap_or(name);
    PROTOCOLS.contains(&protocol) || is_compared(after)
}

/// What helps at a field, if there are words here for what is asked of it.
pub fn of_field<'a>(alloc: Global, spot: Spot<'a>, name: Run<'a>) -> Found<'a> {
    let start = spot.at(name.start);
    let len = name.bytes.len();
    let after = spot.at(name.start.saturating_add(len)).rest();
    if let Some((bits, mask)) = mask_at(after) {
        return of_bits(alloc, start, name.bytes, bits, len.saturating_add(mask));
    }
    match comparison_at(after) {
        Some(comparison) => of_comparison(alloc, start, name.bytes, comparison),
        None if ends_test(after) && !is_after_sign(start) => {
            of_field_alone(alloc, start, name.bytes)
        }
        None => Ok(None),
    }
}

/// Whether a sign that compares is right before a place.
fn is_after_sign(start: Spot<'_>) -> bool {
    match without_blanks(start.before()).last() {
        Some(byte) => matches!(*byte, b'=' | b'<' | b'>'),
        None => false,
    }
}

/// What helps at a field that nothing compares. Of a flag it is what asks whether it is set.
fn of_field_alone<'a>(alloc: Global, start: Spot<'a>, name: &'a [u8]) -> Found<'a> {
    let Some(flag) = FLAGS.iter().find(|flag| flag.name == name) else {
        return of_layer(alloc, start, name);
    };
    let layer = name.split(|byte| *byte == b'.').next().unwrap_or(name);
    match advise(alloc, start, name.len(), Written::Test(flag.set))? {
        Some(advice) => Ok(Some(advice.alone(layer))),
        None => Ok(None),
    }
}

/// What helps at another field that nothing compares: its layer, which each packet has that has
/// it.
fn of_layer<'a>(alloc: Global, start: Spot<'a>, name: &[u8]) -> Found<'a> {
    let of_field = FIELDS.iter().find(|field| field.name == name);
    let of_number = NUMBERS.iter().find(|number| number.name == name);
    let layer = match (of_field, of_number) {
        (Some(field), _) => field.layer,
        (None, Some(number)) => number.layer,
        (None, None) => "",
    };
    if layer.is_empty() || layer == ETHER {
        return Ok(None);
    }
    advise(alloc, start, name.len(), Written::Test(layer))
}

/// What helps at a number of the packet of which bits are asked for.
fn of_bits<'a>(
    alloc: Global,
    start: Spot<'a>,
    name: &[u8],
    bits: &'a [u8],
    len: usize,
) -> Found<'a> {
    let end = start.before().len().saturating_add(len);
    let Some(number) = NUMBERS.iter().find(|number| number.name == name) else {
        return Ok(None);
    };
    if is_compared(start.at(end).rest()) {
        advise(
            alloc,
            start,
            len,
            Written::Valued(number.written, "&", bits),
        )
    } else {
        advise(alloc, start, len, Written::Bits(number.written, bits))
    }
}

/// What helps at a field that is compared.
fn of_comparison<'a>(
    alloc: Global,
    start: Spot<'a>,
    name: &[u8],
    comparison: Comparison<'a>,
) -> Found<'a> {
    let is_alone = start.joins_tests();
    match written_for(name, comparison, is_alone) {
        Some(written) => {
            let len = name.len().saturating_add(comparison.len);
            advise(alloc, start, len, written)
        }
        None => Ok(None),
    }
}

/// What is written for a comparison of a field with a value.
fn written_for<'a>(name: &[u8], comparison: Comparison<'a>, is_alone: bool) -> Option<Written<'a>> {
    if let Some(flag) = FLAGS.iter().find(|flag| flag.name == name) {
        return of_flag(flag, comparison);
    }
    if let Some(number) = NUMBERS.iter().find(|number| number.name == name) {
        return of_number(number, comparison);
    }
    let field = FIELDS.iter().find(|field| field.name == name)?;
    match comparison.sign {
        "=" => Some(of_value(field, comparison.value)),
        "!=" => Some(of_other_value(field, comparison.value, is_alone)),
        _ => of_several(field, comparison),
    }
}

/// What asks whether a flag is set, or is not, as a comparison does.
fn of_flag(flag: &'static Flag, comparison: Comparison<'_>) -> Option<Written<'static>> {
    let (same, other) = match comparison.sign {
        "=" => (flag.set, flag.unset),
        "!=" => (flag.unset, flag.set),
        _ => return None,
    };
    if TRUE.contains(&comparison.value) {
        Some(Written::Test(same))
    } else if FALSE.contains(&comparison.value) {
        Some(Written::Test(other))
    } else {
        None
    }
}

/// What compares a number of the packet.
fn of_number<'a>(number: &'static Number, comparison: Comparison<'a>) -> Option<Written<'a>> {
    if comparison.sign == IN {
        let list = items_of(comparison.value)?;
        if list.windows(2).any(|pair| pair == b"..".as_slice()) {
            None
        } else {
            Some(Written::Either(number.written, list))
        }
    } else {
        Some(Written::Valued(number.written, comparison.sign, comparison.value))
    }
}

/// The words for a value: those for a net if it has a mask.
fn test_for(field: &'static Field, value: &[u8]) -> &'static str {
    if value.contains(&b'/') {
        field.wide
    } else {
        field.test
    }
}

/// What asks for a value of a field.
fn of_value<'a>(field: &'static Field, value: &'a [u8]) -> Written<'a> {
    Written::Valued(field.layer, test_for(field, value), value)
}

/// What asks for each other value of a field, in a packet that has the field.
fn of_other_value<'a>(field: &'static Field, value: &'a [u8], is_alone: bool) -> Written<'a> {
    if field.layer == ETHER {
        Written::Valued("not ether", field.test, value)
    } else {
        Written::Not(field.layer, test_for(field, value), value, is_alone)
    }
}
