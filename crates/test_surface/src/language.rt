//! The language: tokens, and faults with their places.
use crate::common::{repeated, same};
use filterlang::{Fault, Token, lex, parse};

#[test]
fn tokens_are_slices_of_the_text_in_order(rt: HostRuntime) {
    let rows = [
        ("len-60", "len|-|60|"),
        ("ip[0:2]", "ip|[|0|:|2|]|"),
        ("ether host 0:1:2:3:4:5", "ether|host|0:1:2:3:4:5|"),
        (
            "tcp[tcpflags]&tcp-syn!=0",
            "tcp|[|tcpflags|]|&|tcp-syn|!=|0|",
        ),
        (
            "proto \\tcp\r\n\t or 10.0.0.0/8",
            "proto|\\tcp|or|10.0.0.0|/|8|",
        ),
        ("1<<2>>0x1F<=010>=6==7", "1|<<|2|>>|0x1F|<=|010|>=|6|==|7|"),
        ("", ""),
    ];
    for (text, want) in rows {
        let mut found = String::new(rt.alloc());
        let tokens: Vec<Token> = lex(rt.alloc(), text).expect(&rt, "tokens");
        for token in tokens.iter() {
            let part = text.get(token.span.start..token.span.end);
            found
                .push_str(part.expect(&rt, "a slice"))
                .expect(&rt, "memory");
            found.push_str("|").expect(&rt, "memory");
        }
        same(&rt, found.as_str(), want);
    }
}

#[test]
fn faults_are_named_with_their_places(rt: HostRuntime) {
    // The faults of the first rows are found by the lexer.
    let rows = [
        ("tcp # udp", true, Some(Fault::BadByte(4))),
        ("tcp \u{e9}", true, Some(Fault::BadByte(4))),
        ("tcp udq # 08", true, Some(Fault::BadWord(4))),
        ("proto \\sctp", true, Some(Fault::BadWord(6))),
        ("length", true, Some(Fault::BadWord(0))),
        ("TCP", true, Some(Fault::BadWord(0))),
        ("tcp-synx", true, Some(Fault::BadWord(4))),
        ("08 = 8", true, Some(Fault::BadNumber(0))),
        ("len = 4294967296", true, Some(Fault::BadNumber(6))),
        ("host 10.0.0.256", true, Some(Fault::BadNumber(5))),
        ("0x", true, Some(Fault::BadNumber(0))),
        ("1.2.3.4.5", true, Some(Fault::BadNumber(0))),
        ("tcp and 80", false, Some(Fault::NoQualifier(8))),
        (
            "portrange 20-30 and 40",
            false,
            Some(Fault::NoQualifier(20)),
        ),
        ("len = 1 or 80", false, Some(Fault::NoQualifier(11))),
        ("proto tcp", false, Some(Fault::Syntax(6))),
        ("port 80 and", false, Some(Fault::Syntax(11))),
        ("tcp % udp", false, Some(Fault::Syntax(4))),
        ("(tcp", false, Some(Fault::Syntax(4))),
        ("tcp)", false, Some(Fault::Syntax(3))),
        ("10.0.0.1", false, Some(Fault::NoQualifier(0))),
        ("net 10.0.0.1/8", false, Some(Fault::NetBits(4))),
        (
            "net 10.0.0.1 mask 255.0.0.0",
            false,
            Some(Fault::NetBits(4)),
        ),
        ("port 65536", false, Some(Fault::OutOfRange(5))),
        ("ether proto 1500", false, Some(Fault::OutOfRange(12))),
        ("ip[0:3] = 1", false, Some(Fault::OutOfRange(5))),
        ("net 256", false, Some(Fault::OutOfRange(4))),
        ("proto 256", false, Some(Fault::OutOfRange(6))),
        ("net 10.0.0.0/33", false, Some(Fault::OutOfRange(13))),
        ("tcp host 10.0.0.1", false, Some(Fault::BadQualifier(0))),
        ("sctp[0] = 1", false, Some(Fault::BadQualifier(0))),
        ("src proto 6", false, Some(Fault::BadQualifier(0))),
        ("host 10.0", false, Some(Fault::BadIdentifier(5))),
        ("port 10.0.0.1", false, Some(Fault::BadIdentifier(5))),
        ("ether host 10.0.0.1", false, Some(Fault::BadIdentifier(11))),
        ("len / 0 = 1", false, Some(Fault::DivideByZero(6))),
        ("len % 0 = 1", false, Some(Fault::DivideByZero(6))),
        ("len / (icmptype) = 1", false, Some(Fault::DivideByZero(6))),
        ("", false, None),
        ("tcp", false, None),
        ("not (arp or rarp) and host 10.0.0.1", false, None),
    ];
    for (text, by_lexer, want) in rows {
        let found = (parse(rt.alloc(), text).err(), lex(rt.alloc(), text).err());
        let in_words = if by_lexer { want } else { None };
        same(&rt, (text, found), (text, (want, in_words)));
    }
}

#[test]
fn length_and_nesting_are_bounded_on_both_sides(rt: HostRuntime) {
    let rows = [
        (("(", 64), "tcp", (")", 64), None),
        (("(", 65), "tcp", (")", 65), Some(Fault::TooNested(64))),
        (("!", 64), "tcp", ("", 0), None),
        (("!", 65), "tcp", ("", 0), Some(Fault::TooNested(64))),
        (("", 0), "tcp", (" ", 8_189), None),
        (("", 0), "tcp", (" ", 8_190), Some(Fault::TextTooLong)),
        (("#", 8_193), "", ("", 0), Some(Fault::TextTooLong)),
        (("#", 8_192), "", ("", 0), Some(Fault::BadByte(0))),
    ];
    for (before, expr, after, want) in rows {
        let (first, last) = (
            repeated(&rt, before.0, before.1),
            repeated(&rt, after.0, after.1),
        );
        let text = format!(in rt.alloc(); "{first}{expr}{last}").expect(&rt, "memory");
        let found = parse(rt.alloc(), text.as_str()).err();
        same(&rt, (before, after, found), (before, after, want));
    }
}
