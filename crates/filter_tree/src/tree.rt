//! The trees of expressions.

/// A sign of arithmetic. `Minus` is the unary sign too.
#[derive(Clone, Copy, Debug, PartialEq, Eq)]
pub enum Operator {
    Plus,
    Minus,
    Times,
    Divide,
    Modulo,
    BitAnd,
    BitXor,
    BitOr,
    ShiftLeft,
    ShiftRight,
}

/// A comparison of two values.
#[derive(Clone, Copy, Debug, PartialEq, Eq)]
pub enum Comparison {
    Equal,
    NotEqual,
    Less,
    Greater,
    LessOrEqual,
    GreaterOrEqual,
}

/// An Ethernet address: its six octets in network order.
#[derive(Clone, Copy, Debug, PartialEq, Eq)]
pub struct EthernetAddress {
    pub octets: [u8; 6],
}

/// Which side of a packet an identifier is for.
#[derive(Clone, Copy, Debug, PartialEq, Eq)]
pub enum Direction {
    Src,
    Dst,
    SrcOrDst,
    SrcAndDst,
}

/// A protocol whose addresses are those of IPv4.
#[derive(Clone, Copy, Debug, PartialEq, Eq)]
pub enum Network {
    Ip,
    Arp,
    Rarp,
}

/// A protocol that has ports.
#[derive(Clone, Copy, Debug, PartialEq, Eq)]
pub enum Transport {
    Tcp,
    Udp,
    Sctp,
}

/// A protocol word that is a primitive of its own.
#[derive(Clone, Copy, Debug, PartialEq, Eq)]
pub enum Plain {
    Ip,
    Arp,
    Rarp,
    Tcp,
    Udp,
    Icmp,
    Sctp,
}

/// A test of a packet that is no relation.
#[derive(Clone, Copy, Debug, PartialEq, Eq)]
pub enum Primitive {
    /// A protocol word without a phrase or an identifier.
    Protocol(Plain),
    /// A host or a net: the address under the mask. A host has a mask of ones.
    Net {
        network: Option<Network>,
        direction: Direction,
        address: u32,
        mask: u32,
    },
    /// An Ethernet host, by its address.
    EtherHost {
        direction: Direction,
        address: EthernetAddress,
    },
    /// A port, or a range of ports with both its ends in it.
    Ports {
        transport: Option<Transport>,
        direction: Direction,
        low: u16,
        high: u16,
    },
    /// The protocol number of IPv4.
    IpProto(u8),
    /// The type field of an Ethernet frame.
    EtherProto(u16),
    EtherBroadcast,
    EtherMulticast,
    IpMulticast,
    /// An original length of at most this many bytes.
    Less(u32),
    /// An original length of at least this many bytes.
    Greater(u32),
}

/// The layer whose bytes an accessor reads.
#[derive(Clone, Copy, Debug, PartialEq, Eq)]
pub enum Layer {
    Ether,
    Ip,
    Arp,
    Rarp,
    Tcp,
    Udp,
    Icmp,
}

/// How many bytes an accessor reads.
#[derive(Clone, Copy, Debug, PartialEq, Eq)]
pub enum Size {
    One,
    Two,
    Four,
}

/// A value of arithmetic, of 32 bits. Parentheses leave no node.
#[derive(Debug, PartialEq, Eq)]
pub enum Value {
    Number(u32),
    /// The length on the wire.
    Length,
    Negation(Box<Value>),
    Binary(Operator, Box<Value>, Box<Value>),
    /// The bytes of a layer, at an index.
    Accessor(Layer, Box<Value>, Size),
}

/// A filter expression as a tree. Parentheses leave no node.
#[derive(Debug, PartialEq, Eq)]
pub enum Expr {
    /// The empty text, which accepts every packet.
    Everything,
    Test(Primitive),
    Relation(Comparison, Value, Value),
    Not(Box<Expr>),
    And(Box<Expr>, Box<Expr>),
    Or(Box<Expr>, Box<Expr>),
}

/// A chain of signs has thousands of levels at its left. A loop goes down there, so that it needs
/// no stack for each.
impl Drop for Value {
    fn drop(mut self) {
        loop {
            match self {
                Value::Number(_) | Value::Length => return,
                Value::Negation(operand) => self = Box::into_inner(operand),
                Value::Binary(_, left, _right) => self = Box::into_inner(left),
                Value::Accessor(_, index, _) => self = Box::into_inner(index),
            }
        }
    }
}

/// A chain of `and` and `or` has thousands of levels at its left, too.
impl Drop for Expr {
    fn drop(mut self) {
        loop {
            match self {
                Expr::Everything | Expr::Test(_) => return,
                Expr::Relation(_, _left, _right) => return,
                Expr::Not(operand) => self = Box::into_inner(operand),
                Expr::And(left, _right) => self = Box::into_inner(left),
                Expr::Or(left, _right) => self = Box::into_inner(left),
            }
        }
    }
}
