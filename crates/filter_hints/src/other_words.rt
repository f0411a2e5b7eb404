//! What helps at words of libpcap's language that this one lacks.

use crate::advice::{Advice, Found};
use crate::instead::{Instead, advise_instead};
use filter_spots::{PROTO, Spot, after_blanks, first_word, without_last_word};
use std::alloc::Global;

/// Words that libpcap reads on Ethernet, for what is not Ethernet with IPv4 or ARP.
static OTHER_LINKS: [&[u8]; 30] = [
    b"ip6", b"icmp6", b"vlan", b"mpls", b"pppoed", b"pppoes", b"geneve", b"atalk", b"aarp",
    b"decnet", b"ipx", b"llc", b"lat", b"sca", b"moprc", b"mopdl", b"stp", b"netbeui", b"iso",
    b"clnp", b"esis", b"es-is", b"isis", b"is-is", b"l1", b"l2", b"iih", b"lsp", b"csnp", b"psnp",
];

/// Words of display filters for IPv6.
static IPV6_WORDS: [&[u8]; 2] = [b"ipv6", b"icmpv6"];

/// Words of libpcap's language, and of other tools, that mean `ether` on Ethernet.
static MEAN_ETHER: [&[u8]; 6] = [b"link", b"wlan", b"fddi", b"tr", b"eth", b"ethernet"];

/// Words that `ether` goes before.
static AFTER_ETHER: [&[u8]; 6] = [
    b"host",
    b"src",
    b"dst",
    b"proto",
    b"broadcast",
    b"multicast",
];

/// The word of libpcap's language for wireless links.
const WIRELESS: &[u8] = b"wlan";

/// A word of libpcap's language that no program for captures stands for, and what is written
/// instead.
struct Remark {
    word: &'static [u8],
    said: &'static str,
}

static REMARKS: [Remark; 6] = [
    Remark {
        word: b"than",
        said: "`less 60` is up to 60 bytes and `greater 60` is 60 and more; `len < 60` and `len > 60` leave out 60",
    },
    Remark {
        word: b"inbound",
        said: "a capture has no directions: write `not ether src` and the address of the interface",
    },
    Remark {
        word: b"outbound",
        said: "a capture has no directions: write `ether src` and the address of the interface",
    },
    Remark {
        word: b"gateway",
        said: "write `ether host` with the Ethernet address of the gateway, and `not host` with its IPv4 address",
    },
    Remark {
        word: b"protochain",
        said: "`protochain` needs a loop, and filter programs have none: `proto` looks at the IPv4 header only",
    },
    Remark {
        word: b"ifname",
        said: "a capture of Ethernet does not name interfaces",
    },
];

/// A protocol that is written by its number.
struct ByNumber {
    name: &'static [u8],
    number: &'static str,
    primitive: &'static str,
}

/// Protocols over IPv4 that have no name after `proto`: all but the last are no words of the
/// language.
static BY_NUMBER: [ByNumber; 12] = [
    ByNumber {
        name: b"igmp",
        number: "2",
        primitive: "proto 2",
    },
    ByNumber {
        name: b"igrp",
        number: "9",
        primitive: "proto 9",
    },
    ByNumber {
        name: b"esp",
        number: "50",
        primitive: "proto 50",
    },
    ByNumber {
        name: b"ah",
        number: "51",
        primitive: "proto 51",
    },
    ByNumber {
        name: b"ipip",
        number: "4",
        primitive: "proto 4",
    },
    ByNumber {
        name: b"gre",
        number: "47",
        primitive: "proto 47",
    },
    ByNumber {
        name: b"eigrp",
        number: "88",
        primitive: "proto 88",
    },
    ByNumber {
        name: b"ospf",
        number: "89",
        primitive: "proto 89",
    },
    ByNumber {
        name: b"pim",
        number: "103",
        primitive: "proto 103",
    },
    ByNumber {
        name: b"vrrp",
        number: "112",
        primitive: "proto 112",
    },
    ByNumber {
        name: b"carp",
        number: "112",
        primitive: "proto 112",
    },
    ByNumber {
        name: b"sctp",
        number: "132",
        primitive: "proto 132",
    },
];

/// A word that other tools have, and what is written for it here.
struct OtherWord {
    word: &'static [u8],
    written: &'static str,
}

static OTHER_WORDS: [OtherWord; 17] = [
    OtherWord {
        word: b"source",
        written: "src",
    },
    OtherWord {
        word: b"destination",
        written: "dst",
    },
    OtherWord {
        word: b"from",
        written: "src",
    },
    OtherWord {
        word: b"to",
        written: "dst",
    },
    OtherWord {
        word: b"length",
        written: "len",
    },
    OtherWord {
        word: b"dport",
        written: "dst port",
    },
    OtherWord {
        word: b"sport",
        written: "src port",
    },
    OtherWord {
        word: b"ttl",
        written: "ip[8]",
    },
    OtherWord {
        word: b"ipv4",
        written: "ip",
    },
    OtherWord {
        word: b"mac",
        written: "ether host",
    },
    OtherWord {
        word: b"srcport",
        written: "src port",
    },
    OtherWord {
        word: b"dstport",
        written: "dst port",
    },
    OtherWord {
        word: b"srcip",
        written: "src host",
    },
    OtherWord {
        word: b"dstip",
        written: "dst host",
    },
    OtherWord {
        word: b"protocol",
        written: "proto",
    },
    OtherWord {
        word: b"network",
        written: "net",
    },
    OtherWord {
        word: b"subnet",
        written: "net",
    },
];

/// Comparisons that search in the data, of which only display filters have the words.
static OF_TEXT: [&[u8]; 2] = [b"contains", b"matches"];

/// What is said of a search in the data.
const SEARCH: &str =
    "a filter looks at bytes at known places: `tcp[tcp[12] >> 4 << 2:4] = 0x47455420` finds `GET ` at the front of the data of TCP; that of UDP begins at `udp[8]`";

/// Units of lengths, which have no word here.
static UNITS: [&[u8]; 4] = [b"bytes", b"byte", b"octets", b"octet"];

/// Words of other tools for every packet.
static EVERY_PACKET: [&[u8]; 2] = [b"any", b"all"];

/// A named value that the language lacks: what it begins with, what follows, and its number.
struct OtherValue {
    prefix: &'static str,
    name: &'static [u8],
    number: &'static str,
}

/// Flags of TCP and types of ICMP that the language has no names for.
static OTHER_VALUES: [OtherValue; 13] = [
    OtherValue {
        prefix: "tcp-",
        name: b"psh",
        number: "tcp-push",
    },
    OtherValue {
        prefix: "tcp-",
        name: b"reset",
        number: "tcp-rst",
    },
    OtherValue {
        prefix: "tcp-",
        name: b"ece",
        number: "64",
    },
    OtherValue {
        prefix: "tcp-",
        name: b"cwr",
        number: "128",
    },
    OtherValue {
        prefix: "icmp-",
        name: b"routeradvert",
        number: "9",
    },
    OtherValue {
        prefix: "icmp-",
        name: b"routersolicit",
        number: "10",
    },
    OtherValue {
        prefix: "icmp-",
        name: b"paramprob",
        number: "12",
    },
    OtherValue {
        prefix: "icmp-",
        name: b"tstamp",
        number: "13",
    },
    OtherValue {
        prefix: "icmp-",
        name: b"tstampreply",
        number: "14",
    },
    OtherValue {
        prefix: "icmp-",
        name: b"ireq",
        number: "15",
    },
    OtherValue {
        prefix: "icmp-",
        name: b"ireqreply",
        number: "16",
    },
    OtherValue {
        prefix: "icmp-",
        name: b"maskreq",
        number: "17",
    },
    OtherValue {
        prefix: "icmp-",
        name: b"maskreply",
        number: "18",
    },
];

/// What helps at the second word of a named value that the language lacks.
pub(crate) fn of_value<'a>(alloc: Global, spot: Spot<'a>) -> Found<'a> {
    for value in OTHER_VALUES.iter() {
        let prefix = value.prefix;
        if value.name == spot.word() && spot.before().ends_with(prefix.as_bytes()) {
            let start = spot.before().len().saturating_sub(prefix.len());
            return advise_instead(alloc, spot, start, spot.end(), Instead::Text(value.number));
        }
    }
    Ok(None)
}

/// What helps at a protocol that is written by its number.
fn of_protocol<'a>(alloc: Global, spot: Spot<'a>, protocol: &ByNumber) -> Found<'a> {
    let written = if spot.has_backslash() || spot.last() == PROTO {
        protocol.number
    } else {
        protocol.primitive
    };
    if let Some(advice) = of_written(alloc, spot, written)? {
        return Ok(Some(advice));
    }
    if spot.after_word().starts_with(b"[") {
        return Ok(Some(Advice::Said(
            "write `[..]` only after `ether`, `ip`, `arp`, `rarp`, `tcp`, `udp` or `icmp`",
        )));
    }
    Ok(None)
}

/// What helps at a word for which something else is written here, if the text reads on with that.
pub(crate) fn of_written<'a>(alloc: Global, spot: Spot<'a>, written: &'static str) -> Found<'a> {
    advise_instead(
        alloc,
        spot,
        spot.before().len(),
        spot.end(),
        Instead::Text(written),
    )
}

/// What helps at the unit of a length, if the text reads on without it.
pub(crate) fn of_unit<'a>(alloc: Global, spot: Spot<'a>) -> Found<'a> {
    if !UNITS.contains(&spot.word()) {
        return Ok(None);
    }
    match spot.without_name() {
        Some(gap) if gap.takes(alloc, "")? => Ok(Some(Advice::Round(
            "leave out `",
            spot.word(),
            "`: lengths are numbers of bytes",
        ))),
        _ => Ok(None),
    }
}

/// What helps at a word for every packet, if the text has no other.
pub(crate) fn of_every_packet<'a>(spot: Spot<'a>) -> Option<Advice<'a>> {
    if EVERY_PACKET.contains(&spot.word()) && spot.is_whole_text() {
        Some(Advice::Said("every packet is the empty expression, `''`"))
    } else {
        None
    }
}

/// What helps at a word that means `ether`, if something follows that `ether` goes before.
fn of_ether<'a>(alloc: Global, spot: Spot<'a>) -> Found<'a> {
    let next = after_blanks(spot.after_word());
    let is_before = next.starts_with(b"[") || AFTER_ETHER.contains(&first_word(next));
    if is_before {
        of_written(alloc, spot, "ether")
    } else {
        Ok(None)
    }
}

/// What helps at a word of libpcap's language, or at a protocol, for which something else is
/// written here.
pub(crate) fn of_other_word<'a>(alloc: Global, spot: Spot<'a>) -> Found<'a> {
    let word = spot.word();
    if spot.before().ends_with(b"[") {
        return Ok(None);
    }
    if let Some(other) = OTHER_WORDS.iter().find(|other| other.word == word) {
        return of_written(alloc, spot, other.written);
    }
    if MEAN_ETHER.contains(&word) {
        return of_ether(alloc, spot);
    }
    for protocol in BY_NUMBER.iter() {
        if protocol.name == word {
            return of_protocol(alloc, spot, protocol);
        }
    }
    Ok(None)
}

/// What helps at a word for what this profile leaves out, or that no program for captures stands
/// for.
pub(crate) fn of_left_out<'a>(spot: Spot<'a>) -> Option<Advice<'a>> {
    let (before, after) = ("only Ethernet with IPv4 is supported, not `", "`");
    let word = spot.word();
    if OTHER_LINKS.contains(&word) {
        Some(Advice::Elsewhere(before, word, after))
    } else if word == WIRELESS || IPV6_WORDS.contains(&word) {
        Some(Advice::Round(before, word, after))
    } else {
        let remark = REMARKS.iter().find(|remark| remark.word == word)?;
        Some(Advice::Said(remark.said))
    }
}

/// What helps at `broadcast` after `ip`, which here is a word of Ethernet.
pub(crate) fn of_ip_broadcast<'a>(spot: Spot<'a>) -> Option<Advice<'a>> {
    let is_name = without_last_word(spot.before()).ends_with(b"\\");
    if spot.word() == b"broadcast".as_slice() && spot.last() == b"ip".as_slice() && !is_name {
        Some(Advice::Said(
            "`ip broadcast` depends on the mask of a net: write the address, as in `dst host 192.0.2.255`",
        ))
    } else {
        None
    }
}

/// What helps at an accessor of `sctp`, which is a word of the language that has none.
pub(crate) fn of_sctp<'a>(spot: Spot<'a>) -> Option<Advice<'a>> {
    if spot.word() == b"sctp".as_slice() && spot.after_word().starts_with(b"[") {
        Some(Advice::Said(
            "no accessor of `sctp`: `ip[(ip[0] & 15) << 2]` is the first byte after the IPv4 header",
        ))
    } else {
        None
    }
}

/// What helps at a word that is compared as only a field is.
pub(crate) fn of_text<'a>(spot: Spot<'a>) -> Option<Advice<'a>> {
    let next = after_blanks(spot.after_word());
    let is_of_text = OF_TEXT.contains(&spot.word())
        || OF_TEXT.iter().any(|one| next.starts_with(*one));
    if is_of_text && !spot.takes_address() {
        Some(Advice::Said(SEARCH))
    } else {
        None
    }
}
