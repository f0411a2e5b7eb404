//! Which tokens a text has.

use crate::same::{same, same_in};
use filterlang::{
    Comparison, EthernetAddress, Joint, Kind, Operator, Parts, Protocol, Side, Token, TypeWord, lex,
};
use std::process::Abort;

const HOST: Kind = Kind::Type(TypeWord::Host);

const EQUAL: Kind = Kind::Comparison(Comparison::Equal);

const ZERO_TO_FIVE: EthernetAddress = EthernetAddress {
    octets: [0, 1, 2, 3, 4, 5],
};

static TEXTS: [(&str, &[(Kind, usize, usize)]); 18] = [
    ("", &[]),
    (" \t\r\n", &[]),
    (
        "len-60",
        &[
            (Kind::Len, 0, 3),
            (Kind::Operator(Operator::Minus), 3, 4),
            (Kind::Number(60), 4, 6),
        ],
    ),
    (
        "ip[0:2]",
        &[
            (Kind::Protocol(Protocol::Ip), 0, 2),
            (Kind::OpenBracket, 2, 3),
            (Kind::Number(0), 3, 4),
            (Kind::Colon, 4, 5),
            (Kind::Number(2), 5, 6),
            (Kind::CloseBracket, 6, 7),
        ],
    ),
    (
        " tcp\tdst\r\nport 20",
        &[
            (Kind::Protocol(Protocol::Tcp), 1, 4),
            (Kind::Side(Side::Dst), 5, 8),
            (Kind::Type(TypeWord::Port), 10, 14),
            (Kind::Number(20), 15, 17),
        ],
    ),
    ("0:1:2:3:4:5", &[(Kind::Ethernet(ZERO_TO_FIVE), 0, 11)]),
    (
        "a:b:c:d:e:f",
        &[(
            Kind::Ethernet(EthernetAddress {
                octets: [0x0a, 0x0b, 0x0c, 0x0d, 0x0e, 0x0f],
            }),
            0,
            11,
        )],
    ),
    (
        "00:1A:2b:3C:4d:fF",
        &[(
            Kind::Ethernet(EthernetAddress {
                octets: [0, 0x1a, 0x2b, 0x3c, 0x4d, 0xff],
            }),
            0,
            17,
        )],
    ),
    (
        "0:1:2:3:4:5:6",
        &[
            (Kind::Number(0), 0, 1),
            (Kind::Colon, 1, 2),
            (
                Kind::Ethernet(EthernetAddress {
                    octets: [1, 2, 3, 4, 5, 6],
                }),
                2,
                13,
            ),
        ],
    ),
    (
        "0:1:2:3:4:567",
        &[
            (Kind::Number(0), 0, 1),
            (Kind::Colon, 1, 2),
            (Kind::Number(1), 2, 3),
            (Kind::Colon, 3, 4),
            (Kind::Number(2), 4, 5),
            (Kind::Colon, 5, 6),
            (Kind::Number(3), 6, 7),
            (Kind::Colon, 7, 8),
            (Kind::Number(4), 8, 9),
            (Kind::Colon, 9, 10),
            (Kind::Number(567), 10, 13),
        ],
    ),
    (
        "1:2]",
        &[
            (Kind::Number(1), 0, 1),
            (Kind::Colon, 1, 2),
            (Kind::Number(2), 2, 3),
            (Kind::CloseBracket, 3, 4),
        ],
    ),
    (
        "ether host 0:1:2:3:4:5)",
        &[
            (Kind::Protocol(Protocol::Ether), 0, 5),
            (HOST, 6, 10),
            (Kind::Ethernet(ZERO_TO_FIVE), 11, 22),
            (Kind::Close, 22, 23),
        ],
    ),
    (
        "tcp-syn-1 icmp-echoreply icmp-echo-",
        &[
            (Kind::Named(2), 0, 7),
            (Kind::Operator(Operator::Minus), 7, 8),
            (Kind::Number(1), 8, 9),
            (Kind::Named(0), 10, 24),
            (Kind::Named(8), 25, 34),
            (Kind::Operator(Operator::Minus), 34, 35),
        ],
    ),
    (
        "icmp-",
        &[
            (Kind::Protocol(Protocol::Icmp), 0, 4),
            (Kind::Operator(Operator::Minus), 4, 5),
        ],
    ),
    (
        "tcp-ip",
        &[
            (Kind::Protocol(Protocol::Tcp), 0, 3),
            (Kind::Operator(Operator::Minus), 3, 4),
            (Kind::Protocol(Protocol::Ip), 4, 6),
        ],
    ),
    (
        "<<=>>=!==",
        &[
            (Kind::Operator(Operator::ShiftLeft), 0, 2),
            (EQUAL, 2, 3),
            (Kind::Operator(Operator::ShiftRight), 3, 5),
            (EQUAL, 5, 6),
            (Kind::Comparison(Comparison::NotEqual), 6, 8),
            (EQUAL, 8, 9),
        ],
    ),
    (
        "&&&|||!tcp",
        &[
            (Kind::Joint(Joint::And), 0, 2),
            (Kind::Operator(Operator::BitAnd), 2, 3),
            (Kind::Joint(Joint::Or), 3, 5),
            (Kind::Operator(Operator::BitOr), 5, 6),
            (Kind::Not, 6, 7),
            (Kind::Protocol(Protocol::Tcp), 7, 10),
        ],
    ),
    (
        "net 10.0.0.0/8",
        &[
            (Kind::Type(TypeWord::Net), 0, 3),
            (
                Kind::Dotted {
                    address: 0x0a00_0000,
                    parts: Parts::Four,
                },
                4,
                12,
            ),
            (Kind::Operator(Operator::Divide), 12, 13),
            (Kind::Number(8), 13, 14),
        ],
    ),
];

/// A token of a text is of this kind, from this place to that.
fn is_token(rt: &impl Abort, text: &str, token: &Token, wanted: (Kind, usize, usize)) {
    let found = (token.kind, token.span.start, token.span.end);
    same_in(rt, text, found, wanted);
}

/// A text has these tokens.
fn has_tokens(rt: &(impl Abort + AllocGlobal), text: &str, wanted: &[(Kind, usize, usize)]) {
    let tokens = lex(rt.alloc(), text).expect(rt, "the text has tokens");
    are_tokens(rt, text, tokens.as_slice(), wanted);
}

fn are_tokens(rt: &impl Abort, text: &str, tokens: &[Token], wanted: &[(Kind, usize, usize)]) {
    same_in(rt, text, tokens.len(), wanted.len());
    for (token, one) in tokens.iter().zip(wanted) {
        is_token(rt, text, token, *one);
    }
}

#[test]
fn texts_have_these_tokens(rt: HostRuntime) {
    for (text, wanted) in TEXTS.iter() {
        has_tokens(&rt, text, wanted);
    }
}

static WORDS: [(&str, Kind); 44] = [
    ("ether", Kind::Protocol(Protocol::Ether)),
    ("ip", Kind::Protocol(Protocol::Ip)),
    ("arp", Kind::Protocol(Protocol::Arp)),
    ("rarp", Kind::Protocol(Protocol::Rarp)),
    ("tcp", Kind::Protocol(Protocol::Tcp)),
    ("udp", Kind::Protocol(Protocol::Udp)),
    ("icmp", Kind::Protocol(Protocol::Icmp)),
    ("sctp", Kind::Protocol(Protocol::Sctp)),
    ("host", HOST),
    ("net", Kind::Type(TypeWord::Net)),
    ("port", Kind::Type(TypeWord::Port)),
    ("portrange", Kind::PortRange),
    ("proto", Kind::Type(TypeWord::Proto)),
    ("src", Kind::Side(Side::Src)),
    ("dst", Kind::Side(Side::Dst)),
    ("and", Kind::Joint(Joint::And)),
    ("or", Kind::Joint(Joint::Or)),
    ("not", Kind::Not),
    ("mask", Kind::Mask),
    ("less", Kind::Less),
    ("greater", Kind::Greater),
    ("len", Kind::Len),
    ("broadcast", Kind::Broadcast),
    ("multicast", Kind::Multicast),
    ("tcpflags", Kind::Named(13)),
    ("tcp-fin", Kind::Named(1)),
    ("tcp-syn", Kind::Named(2)),
    ("tcp-rst", Kind::Named(4)),
    ("tcp-push", Kind::Named(8)),
    ("tcp-ack", Kind::Named(16)),
    ("tcp-urg", Kind::Named(32)),
    ("icmptype", Kind::Named(0)),
    ("icmpcode", Kind::Named(1)),
    ("icmp-echoreply", Kind::Named(0)),
    ("icmp-unreach", Kind::Named(3)),
    ("icmp-redirect", Kind::Named(5)),
    ("icmp-echo", Kind::Named(8)),
    ("icmp-timxceed", Kind::Named(11)),
    ("\\tcp", Kind::Name(Protocol::Tcp)),
    ("\\udp", Kind::Name(Protocol::Udp)),
    ("\\icmp", Kind::Name(Protocol::Icmp)),
    ("\\ip", Kind::Name(Protocol::Ip)),
    ("\\arp", Kind::Name(Protocol::Arp)),
    ("\\rarp", Kind::Name(Protocol::Rarp)),
];

static SIGNS: [(&str, Kind); 25] = [
    ("(", Kind::Open),
    (")", Kind::Close),
    ("[", Kind::OpenBracket),
    ("]", Kind::CloseBracket),
    (":", Kind::Colon),
    ("+", Kind::Operator(Operator::Plus)),
    ("-", Kind::Operator(Operator::Minus)),
    ("*", Kind::Operator(Operator::Times)),
    ("/", Kind::Operator(Operator::Divide)),
    ("%", Kind::Operator(Operator::Modulo)),
    ("&", Kind::Operator(Operator::BitAnd)),
    ("^", Kind::Operator(Operator::BitXor)),
    ("|", Kind::Operator(Operator::BitOr)),
    ("<<", Kind::Operator(Operator::ShiftLeft)),
    (">>", Kind::Operator(Operator::ShiftRight)),
    ("!", Kind::Not),
    ("&&", Kind::Joint(Joint::And)),
    ("||", Kind::Joint(Joint::Or)),
    ("=", EQUAL),
    ("==", EQUAL),
    ("!=", Kind::Comparison(Comparison::NotEqual)),
    ("<", Kind::Comparison(Comparison::Less)),
    (">", Kind::Comparison(Comparison::Greater)),
    ("<=", Kind::Comparison(Comparison::LessOrEqual)),
    (">=", Kind::Comparison(Comparison::GreaterOrEqual)),
];

static NUMBERS: [(&str, Kind); 15] = [
    ("0", Kind::Number(0)),
    ("10", Kind::Number(10)),
    ("4294967295", Kind::Number(4_294_967_295)),
    ("017", Kind::Number(15)),
    ("00", Kind::Number(0)),
    ("037777777777", Kind::Number(4_294_967_295)),
    ("0x800", Kind::Number(0x800)),
    ("0XfF", Kind::Number(255)),
    ("0xffffffff", Kind::Number(4_294_967_295)),
    ("0x0000000000001", Kind::Number(1)),
    (
        "10.1",
        Kind::Dotted {
            address: 0x0a01_0000,
            parts: Parts::Two,
        },
    ),
    (
        "10.1.2",
        Kind::Dotted {
            address: 0x0a01_0200,
            parts: Parts::Three,
        },
    ),
    (
        "10.1.2.3",
        Kind::Dotted {
            address: 0x0a01_0203,
            parts: Parts::Four,
        },
    ),
    (
        "255.255.255.255",
        Kind::Dotted {
            address: 0xffff_ffff,
            parts: Parts::Four,
        },
    ),
    (
        "010.08.000.1",
        Kind::Dotted {
            address: 0x0a08_0001,
            parts: Parts::Four,
        },
    ),
];

/// Each of these texts is one token.
fn each_is_one_token(rt: &(impl Abort + AllocGlobal), rows: &[(&str, Kind)]) {
    for (text, kind) in rows {
        has_tokens(rt, text, &[(*kind, 0, text.len())]);
    }
}

#[test]
fn each_word_is_one_token(rt: HostRuntime) {
    each_is_one_token(&rt, WORDS.as_slice());
}

#[test]
fn each_sign_is_one_token(rt: HostRuntime) {
    each_is_one_token(&rt, SIGNS.as_slice());
}

#[test]
fn each_number_and_address_is_one_token(rt: HostRuntime) {
    each_is_one_token(&rt, NUMBERS.as_slice());
}

/// A text of 8,192 bytes has as many tokens as signs.
fn has_as_many_as_signs(rt: &(impl Abort + AllocGlobal), sign: &str, signs: usize) {
    let text = sign.repeat(rt.alloc(), signs).expect(rt, "memory");
    same(rt, text.len(), 8192);
    let tokens = lex(rt.alloc(), text.as_str()).expect(rt, "tokens");
    same_in(rt, sign, tokens.len(), signs);
}

#[test]
fn a_text_has_8192_bytes_at_most(rt: HostRuntime) {
    has_as_many_as_signs(&rt, "(", 8192);
    has_as_many_as_signs(&rt, "1 ", 4096);
}
