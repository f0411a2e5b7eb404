//! The words, names and signs of the language.

ghost use Rattle.std.specs.Prelude.{◌≡◌, length, IfSome};
ghost use Rattle.filterlang.specs.Words.{words, names, signs, stands, stands_whole, whole_word, standing};
ghost use Rattle.filterlang.specs.Finding.{IsLengthWithin, first_of};

use crate::token::{Joint, Kind, Protocol, Side, TypeWord};
use filter_tree::{Comparison, Operator};

/// The words of pcap-filter(7), the hyphenated ones first: so the first match at a place is the
/// longest there.
pub(crate) const WORDS: [(&[u8], Kind); 38] = [
    (b"tcp-fin", Kind::Named(1)),
    (b"tcp-syn", Kind::Named(2)),
    (b"tcp-rst", Kind::Named(4)),
    (b"tcp-push", Kind::Named(8)),
    (b"tcp-ack", Kind::Named(16)),
    (b"tcp-urg", Kind::Named(32)),
    (b"icmp-echoreply", Kind::Named(0)),
    (b"icmp-unreach", Kind::Named(3)),
    (b"icmp-redirect", Kind::Named(5)),
    (b"icmp-echo", Kind::Named(8)),
    (b"icmp-timxceed", Kind::Named(11)),
    (b"tcpflags", Kind::Named(13)),
    (b"icmptype", Kind::Named(0)),
    (b"icmpcode", Kind::Named(1)),
    (b"ether", Kind::Protocol(Protocol::Ether)),
    (b"ip", Kind::Protocol(Protocol::Ip)),
    (b"arp", Kind::Protocol(Protocol::Arp)),
    (b"rarp", Kind::Protocol(Protocol::Rarp)),
    (b"tcp", Kind::Protocol(Protocol::Tcp)),
    (b"udp", Kind::Protocol(Protocol::Udp)),
    (b"icmp", Kind::Protocol(Protocol::Icmp)),
    (b"sctp", Kind::Protocol(Protocol::Sctp)),
    (b"host", Kind::Type(TypeWord::Host)),
    (b"net", Kind::Type(TypeWord::Net)),
    (b"port", Kind::Type(TypeWord::Port)),
    (b"portrange", Kind::PortRange),
    (b"proto", Kind::Type(TypeWord::Proto)),
    (b"src", Kind::Side(Side::Src)),
    (b"dst", Kind::Side(Side::Dst)),
    (b"and", Kind::Joint(Joint::And)),
    (b"or", Kind::Joint(Joint::Or)),
    (b"not", Kind::Not),
    (b"mask", Kind::Mask),
    (b"less", Kind::Less),
    (b"greater", Kind::Greater),
    (b"len", Kind::Len),
    (b"broadcast", Kind::Broadcast),
    (b"multicast", Kind::Multicast),
];

/// The names after a backslash.
pub(crate) const NAMES: [(&[u8], Kind); 6] = [
    (b"tcp", Kind::Name(Protocol::Tcp)),
    (b"udp", Kind::Name(Protocol::Udp)),
    (b"icmp", Kind::Name(Protocol::Icmp)),
    (b"ip", Kind::Name(Protocol::Ip)),
    (b"arp", Kind::Name(Protocol::Arp)),
    (b"rarp", Kind::Name(Protocol::Rarp)),
];

/// The signs, the longer ones first: so the first match at a place is the longest there.
pub(crate) const SIGNS: [(&[u8], Kind); 25] = [
    (b"<<", Kind::Operator(Operator::ShiftLeft)),
    (b">>", Kind::Operator(Operator::ShiftRight)),
    (b"&&", Kind::Joint(Joint::And)),
    (b"||", Kind::Joint(Joint::Or)),
    (b"==", Kind::Comparison(Comparison::Equal)),
    (b"!=", Kind::Comparison(Comparison::NotEqual)),
    (b"<=", Kind::Comparison(Comparison::LessOrEqual)),
    (b">=", Kind::Comparison(Comparison::GreaterOrEqual)),
    (b"(", Kind::Open),
    (b")", Kind::Close),
    (b"[", Kind::OpenBracket),
    (b"]", Kind::CloseBracket),
    (b":", Kind::Colon),
    (b"+", Kind::Operator(Operator::Plus)),
    (b"-", Kind::Operator(Operator::Minus)),
    (b"*", Kind::Operator(Operator::Times)),
    (b"/", Kind::Operator(Operator::Divide)),
    (b"%", Kind::Operator(Operator::Modulo)),
    (b"&", Kind::Operator(Operator::BitAnd)),
    (b"^", Kind::Operator(Operator::BitXor)),
    (b"|", Kind::Operator(Operator::BitOr)),
    (b"!", Kind::Not),
    (b"=", Kind::Comparison(Comparison::Equal)),
    (b"<", Kind::Comparison(Comparison::Less)),
    (b">", Kind::Comparison(Comparison::Greater)),
];

/// Whether the text begins with a word, and no letter or digit follows it.
fn stands_whole(text: &[u8], word: &[u8]) -> bool
    ensures { result ≡ stands_whole text.now word.now }
{
    text.starts_with(word)
        && !text[word.len()..]
            .first()
            .is_some_and(u8::is_ascii_alphanumeric)
}

/// The first word of a table that the text begins with as a whole, and how many bytes it has.
fn whole_word(table: &[(&[u8], Kind)], text: &[u8]) -> Option<(Kind, usize)>
    ensures { result ≡ first_of (stands_whole text.now) table.now }
{
    let (word, kind) = table.iter().find(|entry| stands_whole(text, entry.0))?;
    Some((*kind, word.len()))
}

/// The first sign of a table that the text begins with, and how many bytes it has.
fn leading_sign(table: &[(&[u8], Kind)], text: &[u8]) -> Option<(Kind, usize)>
    ensures { result ≡ first_of (stands text.now) table.now }
{
    let (sign, kind) = table.iter().find(|entry| text.starts_with(entry.0))?;
    Some((*kind, sign.len()))
}

/// The longest word that the text begins with as a whole, and how many bytes it has.
pub(crate) fn word_at(text: &[u8]) -> Option<(Kind, usize)>
    ensures value { result ≡ whole_word words text.now }
    ensures within { IfSome result (λ word. IsLengthWithin word.1 (length text.now)) }
{
    whole_word(WORDS.as_slice(), text)
}

/// The name that the text begins with, after a backslash, and how many bytes it has.
pub(crate) fn name_at(text: &[u8]) -> Option<(Kind, usize)>
    ensures value { result ≡ whole_word names text.now }
    ensures within { IfSome result (λ name. IsLengthWithin name.1 (length text.now)) }
{
    whole_word(NAMES.as_slice(), text)
}

/// The longest sign at the front of the text, and how many bytes it has.
pub(crate) fn sign_at(text: &[u8]) -> Option<(Kind, usize)>
    ensures value { result ≡ standing signs text.now }
    ensures within { IfSome result (λ sign. IsLengthWithin sign.1 (length text.now)) }
{
    leading_sign(SIGNS.as_slice(), text)
}
