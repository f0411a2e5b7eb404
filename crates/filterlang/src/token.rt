//! The tokens of the language.

use filter_tree::{Comparison, EthernetAddress, Operator};

/// A protocol word.
#[derive(Clone, Copy, Debug, PartialEq, Eq)]
pub enum Protocol {
    Ether,
    Ip,
    Arp,
    Rarp,
    Tcp,
    Udp,
    Icmp,
    Sctp,
}

/// A word for a direction: source or destination.
#[derive(Clone, Copy, Debug, PartialEq, Eq)]
pub enum Side {
    Src,
    Dst,
}

/// A word for the type of an identifier.
#[derive(Clone, Copy, Debug, PartialEq, Eq)]
pub enum TypeWord {
    Host,
    Net,
    Port,
    Proto,
}

/// What joins two terms.
#[derive(Clone, Copy, Debug, PartialEq, Eq)]
pub enum Joint {
    And,
    Or,
}

/// How many parts a dotted address was written with.
#[derive(Clone, Copy, Debug, PartialEq, Eq)]
pub enum Parts {
    Two,
    Three,
    Four,
}

/// What a token is, with its value read.
#[derive(Clone, Copy, Debug, PartialEq, Eq)]
pub enum Kind {
    Protocol(Protocol),
    Side(Side),
    Type(TypeWord),
    PortRange,
    Joint(Joint),
    Not,
    Mask,
    Less,
    Greater,
    Len,
    Broadcast,
    Multicast,
    /// A named value, such as `tcp-syn`.
    Named(u32),
    Number(u32),
    /// A dotted IPv4 address in network order; missing parts on the right are zero.
    Dotted { address: u32, parts: Parts },
    Ethernet(EthernetAddress),
    /// A name after a backslash.
    Name(Protocol),
    Operator(Operator),
    Comparison(Comparison),
    Open,
    Close,
    OpenBracket,
    CloseBracket,
    Colon,
}

/// Which bytes of the text a token is: from `start` on, up to `end`, which is past its last.
#[derive(Clone, Copy, Debug, PartialEq, Eq)]
pub struct Span {
    pub start: usize,
    pub end: usize,
}

/// A token of a text. Its own text is that slice of the source.
#[derive(Clone, Copy, Debug, PartialEq, Eq)]
pub struct Token {
    pub kind: Kind,
    pub span: Span,
}
