//! Pages of help that no subcommand has.

use std::convert::AsStr;

/// `bpftap help expressions`: the filter language on one page. `tests/program.py words` compiles
/// each example.
const EXPRESSIONS: &str =
    r"Filter expressions say which packets are wanted. The language is that of pcap-filter(7) for
Ethernet with IPv4. Put an expression in single quotes.

Examples:
  ip                                            also arp, rarp, tcp, udp, icmp, sctp
  host 192.0.2.1                                IPv4, ARP or RARP from or to this address
  src host 192.0.2.1                            src, dst, src or dst, src and dst
  net 10.0.0.0/8                                also net 10, or net 10.0.0.0 mask 255.0.0.0
  port 53                                       TCP, UDP or SCTP from or to this port
  tcp dst port 80 or 443                        443 inherits tcp dst port
  udp portrange 5000-6000                       both ends included
  port (80 or 443 or 8080)                      one phrase for a group
  ether host 0:1:2:3:4:5                        an Ethernet address; ether src, ether dst
  ether proto 0x88cc                            an Ethernet type, from 1501
  proto 47                                      an IPv4 protocol by its number
  ip proto \udp                                 or by its name
  broadcast                                     also multicast, ip multicast
  greater 1000                                  at least 1,000 bytes on the wire; less 60
  not (arp or rarp) and not ip multicast        not, and, or; also !, &&, ||
  len - 14 > 1000                               len is the length on the wire
  ip[8] < 5                                     byte 8 of the IPv4 header, from 0
  tcp[2:2] = 80                                 two bytes; after a colon 1, 2 or 4
  tcp[tcpflags] & (tcp-syn | tcp-ack) = tcp-syn the first segment of each connection
  icmp[icmptype] = icmp-echo                    pings
  ether[0] & 1 = 0 and ip[16] >= 224            any byte of the frame

'and' and 'or' have the same precedence, from the left; 'not' applies to the next term. An
identifier without a qualifier takes those of the nearest primitive to its left.

A test of a byte that was not captured rejects the packet, also under 'not'.

tcp, port 53 and the like accept IPv4 only: no IPv6, which tcpdump accepts too, and no frame with a
VLAN tag. Names of hosts and services are not read either. tcpdump compiles all of those:
  tcpdump -y EN10MB -ddd 'ip6 and port 80' > f.bpf, and then -f f.bpf

'bpftap check -x EXPR' prints how an expression is read, 'bpftap explain -e EXPR IN' what it
answers. docs/LANGUAGE.md has the grammar and the meaning of each test.
";

/// The names of the page on expressions.
static EXPRESSION_NAMES: [&str; 6] = [
    "expressions",
    "expression",
    "filters",
    "filter",
    "language",
    "syntax",
];

/// The page that the arguments ask for, the program's name first: by `help` and a name of the page.
pub(crate) fn topic_of<S: AsStr>(words: &[S]) -> Option<&'static str> {
    match (words.get(1), words.get(2), words.get(3)) {
        (Some(help), Some(topic), None)
            if help.as_str() == "help" && EXPRESSION_NAMES.contains(&topic.as_str()) => {
            Some(EXPRESSIONS)
        }
        _ => None,
    }
}
