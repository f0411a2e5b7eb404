//! Members of lists: the links of a chain of `or`, or the negations in a chain of `and`, that
//! differ only in their numbers.

ghost use Rattle.std.specs.Prelude.{◌≡◌, ◌≢◌, ◌+◌, ◌≤◌, IfSome, MatchOption, None};
ghost use Rattle.filter_tree.specs.Trees.{amount_of, tree_of, number as literal, both};
ghost use Rattle.filter_tree.specs.declared.headers.TheConstants.{ETHER_DST, ETHER_SRC};
ghost use Rattle.filter_tree.specs.declared.tree.Comparison.TheVariants.{Equal};
ghost use Rattle.filter_meaning.specs.Meaning.{Packet, and_then, by_direction, plain_test, in_any_net, has_any_ports, is_address, primitive_test, relation_test, meaning};
ghost use Rattle.filtergen_facts.specs.Facts.{after_expr, LOOK_BACK};
ghost use Rattle.filtergen_facts.specs.Lists.{direction_of, net_form, ports_form, network_of, transport_of, no_bytes, member_test, IsBroader, Reaches, ArePorts, IsPort, Covers, IsApart, Includes, IsMember, of_tcp_or_udp, AreJoined, turned, last_link, after_left, list_weight};
ghost use Rattle.filtergen_facts.specs.declared.lists.Sides.TheVariants as sides;
ghost use Rattle.std.specs.Bool.{OnTrue, OnFalse};
ghost use Rattle.filtergen_facts.specs.Weights.{value_weight, weight};

use crate::packet_facts::PacketFacts;
use filter_tree::headers::{
    ETHERTYPE_ARP, ETHERTYPE_REVARP, IPPROTO_ICMP, IPPROTO_SCTP, IPPROTO_TCP, IPPROTO_UDP,
};
use filter_tree::{
    Comparison, Direction, EthernetAddress, Expr, Layer, Network, Plain, Primitive, Size,
    Transport, Value,
};

/// How the links of a chain are joined.
#[derive(Clone, Copy)]
pub enum Chain {
    /// Tests by `or`.
    AnyOf,
    /// Negations of tests by `and`.
    NoneOf,
}

/// Which tests a list is made of.
#[derive(Clone, Copy, PartialEq, Eq)]
pub enum Form {
    /// Hosts and nets of any protocol.
    Net,
    IpNet,
    ArpNet,
    RarpNet,
    /// Ports and port ranges of any protocol.
    Ports,
    TcpPorts,
    UdpPorts,
    SctpPorts,
    /// Ports of TCP or UDP. No member has this form: two lists, of TCP and of UDP, with the same
    /// numbers become one.
    TcpOrUdpPorts,
    IpProto,
    EtherProto,
    /// Ethernet hosts that share their first two bytes.
    EtherHost,
    /// Relations that look at the same bytes.
    Bytes,
}

/// Whether a test is for the source, the destination, or either of them.
#[derive(Clone, Copy, PartialEq, Eq)]
pub enum Sides {
    Source,
    Destination,
    Either,
}

/// Bytes of a packet.
#[derive(Clone, Copy, PartialEq, Eq)]
pub struct Bytes {
    pub layer: Layer,
    pub index: u16,
    pub size: Size,
}

/// What the members of a list have in common.
#[derive(Clone, Copy, PartialEq, Eq)]
pub struct ListKind {
    pub form: Form,
    pub sides: Sides,
    /// The mask of hosts and nets.
    pub mask: u32,
    /// The first two bytes of Ethernet hosts. The other four are a member's number.
    pub head: u16,
    /// The bytes that relations look at.
    pub bytes: Bytes,
}

/// The numbers from low to high, both included.
#[derive(Clone, Copy, Default)]
pub struct ValueRange {
    pub low: u32,
    pub high: u32,
}

/// A primitive or a relation as a member of a list.
#[derive(Clone, Copy)]
pub struct Member {
    pub kind: ListKind,
    pub range: ValueRange,
    /// The primitive, or `None` for a relation.
    pub primitive: Option<Primitive>,
}

impl Default for Member {
    fn default() -> Member {
        Member::numbered(Form::Bytes, 0)
    }
}

impl Default for ListKind {
    fn default() -> ListKind {
        Member::default().kind
    }
}

impl Sides {
    /// Whether these sides include the others.
    fn is_broader(self, other: Sides) -> bool
        ensures { OnTrue result (IsBroader self other) }
    {
        match (self, other) {
            (Sides::Either, _) => true,
            (Sides::Source, Sides::Source) => true,
            (Sides::Destination, Sides::Destination) => true,
            _ => false,
        }
    }

    /// Whether an IPv4 address of the other sides is captured if one of these is: the destination
    /// comes after the source.
    fn reaches(self, other: Sides) -> bool
        ensures { OnTrue result (Reaches self other) }
    {
        match self {
            Sides::Destination => true,
            _ => self.is_broader(other),
        }
    }
}

impl Bytes {
    /// Whether they are bytes of the ports that tests of this form look at.
    fn are_ports(self, form: Form) -> bool
        ensures { OnTrue result (ArePorts form self) }
    {
        let last = match self.size {
            Size::One => 3,
            Size::Two => 2,
            Size::Four => 0,
        };
        match (form, self.layer) {
            (Form::TcpPorts, Layer::Tcp) => self.index <= last,
            (Form::UdpPorts, Layer::Udp) => self.index <= last,
            _ => false,
        }
    }

    /// Whether they are one of the ports that tests of this form look at.
    fn are_a_port(self, form: Form) -> bool
        ensures { OnTrue result (IsPort form self) }
    {
        match (form, self.layer, self.size, self.index) {
            (Form::TcpPorts, Layer::Tcp, Size::Two, 0 | 2) => true,
            (Form::UdpPorts, Layer::Udp, Size::Two, 0 | 2) => true,
            _ => false,
        }
    }
}

impl ValueRange {
    /// Whether it includes another range.
    pub(crate) fn has(self, other: ValueRange) -> bool
        ensures { OnTrue result ((self.low ≤ other.low) × (other.high ≤ self.high)) }
    {
        self.low <= other.low && other.high <= self.high
    }

    /// Whether two ranges are equal.
    pub(crate) fn is(self, other: ValueRange) -> bool
        ensures { OnTrue result (self ≡ other) }
    {
        self.low == other.low && self.high == other.high
    }
}

impl ListKind {
    /// Whether two kinds are equal.
    pub fn is(self, other: ListKind) -> bool
        ensures same { OnTrue result (self ≡ other) }
        ensures differ { OnFalse result (self ≢ other) }
    {
        if self == other { true } else { false }
    }

    /// Whether a test of this kind loads all that a test of the other kind does. Masks and first
    /// bytes make no difference.
    fn is_broader(self, other: ListKind) -> bool
        ensures { OnTrue result (Covers self other) }
    {
        let alike = ListKind {
            sides: self.sides,
            mask: self.mask,
            head: self.head,
            ..other
        };
        self.is(alike) && self.sides.is_broader(other.sides)
    }

    /// Whether it loads both ports, and the other kind looks at bytes of these.
    fn has_ports(self, other: ListKind) -> bool
        ensures { OnTrue result (Covers self other) }
    {
        match (self.sides, other.form) {
            (Sides::Either, Form::Bytes) => other.bytes.are_ports(self.form),
            _ => false,
        }
    }

    /// Whether no test of the other kind can abort once a test of this kind was No.
    pub fn settles(self, other: ListKind) -> bool
        ensures { OnTrue result (Covers self other) }
    {
        self.is_broader(other) || self.has_ports(other)
    }

    /// Whether all tests of this kind are No if one of them is and a test of the other kind aborts:
    /// the packet then has another type or protocol.
    pub(crate) fn is_apart(self, other: ListKind) -> bool
        ensures { OnTrue result (IsApart self other) }
    {
        match (self.form, other.form) {
            (Form::IpNet, Form::Net) => self.sides.reaches(other.sides),
            (Form::TcpPorts, Form::UdpPorts | Form::SctpPorts) => true,
            (Form::UdpPorts, Form::TcpPorts | Form::SctpPorts) => true,
            (Form::SctpPorts, Form::TcpPorts | Form::UdpPorts) => true,
            _ => false,
        }
    }

    /// The kind of the same ports of UDP if this kind is of TCP, and the other way round.
    pub(crate) fn of_other_protocol(self) -> Option<ListKind>
        ensures { IfSome result (λ other. AreJoined self other (of_tcp_or_udp self)) }
    {
        let form = match self.form {
            Form::TcpPorts => Form::UdpPorts,
            Form::UdpPorts => Form::TcpPorts,
            _ => return None,
        };
        Some(ListKind { form, ..self })
    }

    /// The kind of the same ports of TCP or UDP.
    pub(crate) fn of_tcp_or_udp(self) -> ListKind
        ensures { result ≡ of_tcp_or_udp self }
    {
        let form = Form::TcpOrUdpPorts;
        ListKind { form, ..self }
    }

    /// Whether it is for both ports of TCP or UDP, at which relations may look as well.
    pub(crate) fn has_both_ports(self) -> bool {
        match self.form {
            Form::TcpPorts | Form::UdpPorts => self.sides == Sides::Either,
            _ => false,
        }
    }

    /// Whether a test of the other kind is No if a test of this kind is that includes its numbers.
    pub(crate) fn includes(self, other: ListKind) -> bool
        ensures { OnTrue result (Includes self other) }
    {
        match (self.sides, other.form) {
            (Sides::Either, Form::Bytes) => other.bytes.are_a_port(self.form),
            _ => false,
        }
    }
}

impl Chain {
    /// The last link of an expression in a chain.
    pub fn last_of(self, expr: &Expr) -> &Expr
        ensures { tree_of result.now ≡ last_link self (tree_of expr.now) }
    {
        match (self, expr) {
            (Chain::AnyOf, Expr::Or(_, right)) => right,
            (Chain::NoneOf, Expr::And(_, right)) => right,
            _ => expr,
        }
    }

    /// What is known at a list after the expression to its left, if there is one.
    pub fn facts_after(self, known: PacketFacts, left: Option<&Expr>) -> PacketFacts
        ensures { MatchOption left.entry (result ≡ known) (λ t. result ≡ after_left self known (tree_of t.now)) }
    {
        match (self, left) {
            (Chain::NoneOf, Some(left)) => known.after_expr(left),
            _ => known,
        }
    }
}

/// The bytes of a kind that is not of relations.
const NO_BYTES: Bytes = Bytes {
    layer: Layer::Ether,
    index: 0,
    size: Size::One,
};

fn sides_of(direction: Direction) -> Option<Sides>
    ensures { IfSome result (λ s. direction_of s ≡ direction) }
{
    match direction {
        Direction::Src => Some(Sides::Source),
        Direction::Dst => Some(Sides::Destination),
        Direction::SrcOrDst => Some(Sides::Either),
        Direction::SrcAndDst => None,
    }
}

fn net_form(network: Option<Network>) -> Form
    ensures { result ≡ net_form network }
{
    match network {
        None => Form::Net,
        Some(Network::Ip) => Form::IpNet,
        Some(Network::Arp) => Form::ArpNet,
        Some(Network::Rarp) => Form::RarpNet,
    }
}

fn ports_form(transport: Option<Transport>) -> Form
    ensures { result ≡ ports_form transport }
{
    match transport {
        None => Form::Ports,
        Some(Transport::Tcp) => Form::TcpPorts,
        Some(Transport::Udp) => Form::UdpPorts,
        Some(Transport::Sctp) => Form::SctpPorts,
    }
}

/// The network that a protocol word stands for.
fn network_of(word: Plain) -> Option<Network>
    ensures { result ≡ network_of word }
{
    match word {
        Plain::Ip => Some(Network::Ip),
        Plain::Arp => Some(Network::Arp),
        Plain::Rarp => Some(Network::Rarp),
        _ => None,
    }
}

/// The transport that a protocol word stands for.
fn transport_of(word: Plain) -> Option<Transport>
    ensures { result ≡ transport_of word }
{
    match word {
        Plain::Tcp => Some(Transport::Tcp),
        Plain::Udp => Some(Transport::Udp),
        Plain::Sctp => Some(Transport::Sctp),
        _ => None,
    }
}

/// The primitive that a protocol word and a primitive without a protocol after it make together:
/// `tcp` and `port 80` make `tcp port 80`.
fn primitive_of_both(word: Plain, primitive: Primitive) -> Option<Primitive>
    ensures { IfSome result (λ q. (p : Packet)
        → and_then (plain_test word p) (primitive_test primitive p) ≡ primitive_test q p) }
{
    match primitive {
        Primitive::Net {
            network: None,
            direction,
            address,
            mask,
        } => Some(Primitive::Net {
            network: Some(network_of(word)?),
            direction,
            address,
            mask,
        }),
        Primitive::Ports {
            transport: None,
            direction,
            low,
            high,
        } => Some(Primitive::Ports {
            transport: Some(transport_of(word)?),
            direction,
            low,
            high,
        }),
        _ => None,
    }
}

/// The number of a value that is written as one, if 16 bits hold it.
fn low_literal(value: &Value) -> Option<u16>
    ensures { IfSome result (λ n. amount_of value.now ≡ literal n) }
{
    match value {
        Value::Number(n) => u16::try_from(*n).ok(),
        _ => None,
    }
}

impl Member {
    /// A member with one number, without sides.
    fn numbered(form: Form, number: u32) -> Member
        ensures { result ≡ record {
          kind = record { form = form; sides = sides.Source; mask = 0; head = 0; bytes = no_bytes };
          range = record { low = number; high = number };
          primitive = None;
        } }
    {
        let (low, high) = (number, number);
        Member {
            kind: ListKind {
                form,
                sides: Sides::Source,
                mask: 0,
                head: 0,
                bytes: NO_BYTES,
            },
            range: ValueRange { low, high },
            primitive: None,
        }
    }

    fn of_net(
        network: Option<Network>,
        direction: Direction,
        address: u32,
        mask: u32,
    ) -> Option<Member>
        ensures same { IfSome result (λ m. (p : Packet) → in_any_net network direction address mask p ≡ member_test m p) }
        ensures weighs { IfSome result (λ m. list_weight m.kind.form 1 ≡ 40) }
    {
        let mut member = Member::numbered(net_form(network), address);
        member.kind.sides = sides_of(direction)?;
        member.kind.mask = mask;
        Some(member)
    }

    fn of_ports(
        transport: Option<Transport>,
        direction: Direction,
        low: u32,
        high: u32,
    ) -> Option<Member>
        ensures same { IfSome result (λ m. (p : Packet) → has_any_ports transport direction low high p ≡ member_test m p) }
        ensures weighs { IfSome result (λ m. list_weight m.kind.form 1 ≡ 40) }
    {
        let mut member = Member::numbered(ports_form(transport), low);
        member.kind.sides = sides_of(direction)?;
        member.range.high = high;
        Some(member)
    }

    fn of_ethernet(direction: Direction, address: EthernetAddress) -> Option<Member>
        ensures same { IfSome result (λ m. (p : Packet)
            → by_direction direction (is_address address.octets ETHER_SRC) (is_address address.octets ETHER_DST) p ≡ member_test m p) }
        ensures weighs { IfSome result (λ m. list_weight m.kind.form 1 ≡ 40) }
    {
        let [a, b, c, d, e, f] = address.octets;
        let mut member = Member::numbered(Form::EtherHost, u32::from_be_bytes([c, d, e, f]));
        member.kind.sides = sides_of(direction)?;
        member.kind.head = u16::from_be_bytes([a, b]);
        Some(member)
    }

    /// A protocol word. `ip` is no member: what follows it has to know that the packet is IPv4.
    fn of_word(word: Plain) -> Option<Member>
        ensures same { IfSome result (λ m. (p : Packet) → plain_test word p ≡ member_test m p) }
        ensures weighs { IfSome result (λ m. list_weight m.kind.form 1 ≡ 40) }
    {
        match word {
            Plain::Ip => None,
            Plain::Arp => Some(Member::numbered(Form::EtherProto, ETHERTYPE_ARP)),
            Plain::Rarp => Some(Member::numbered(Form::EtherProto, ETHERTYPE_REVARP)),
            Plain::Icmp => Some(Member::numbered(Form::IpProto, IPPROTO_ICMP)),
            Plain::Tcp => Some(Member::numbered(Form::IpProto, IPPROTO_TCP)),
            Plain::Udp => Some(Member::numbered(Form::IpProto, IPPROTO_UDP)),
            Plain::Sctp => Some(Member::numbered(Form::IpProto, IPPROTO_SCTP)),
        }
    }

    /// A primitive of which lists are made.
    fn asked_by(primitive: Primitive) -> Option<Member>
        ensures same { IfSome result (λ m. (p : Packet) → primitive_test primitive p ≡ member_test m p) }
        ensures weighs { IfSome result (λ m. list_weight m.kind.form 1 ≡ 40) }
    {
        match primitive {
            Primitive::Protocol(word) => Member::of_word(word),
            Primitive::Net {
                network,
                direction,
                address,
                mask,
            } => Member::of_net(network, direction, address, mask),
            Primitive::EtherHost { direction, address } => Member::of_ethernet(direction, address),
            Primitive::Ports {
                transport,
                direction,
                low,
                high,
            } => Member::of_ports(transport, direction, u32::from(low), u32::from(high)),
            Primitive::IpProto(number) => Some(Member::numbered(Form::IpProto, u32::from(number))),
            Primitive::EtherProto(number) => {
                Some(Member::numbered(Form::EtherProto, u32::from(number)))
            }
            _ => None,
        }
    }

    /// A primitive as a member, which remembers it.
    fn of(primitive: Primitive) -> Option<Member>
        ensures same { IfSome result (λ m. (p : Packet) → primitive_test primitive p ≡ member_test m p) }
        ensures weighs { IfSome result (λ m. list_weight m.kind.form 1 ≡ 40) }
        ensures member { IfSome result IsMember }
    {
        let mut member = Member::asked_by(primitive)?;
        member.primitive = Some(primitive);
        Some(member)
    }

    /// A relation that compares bytes, at an index that is written as a number, with a number.
    fn of_bytes(value: &Value, number: u32) -> Option<Member>
        ensures same { IfSome result (λ m. (p : Packet) → relation_test Equal (amount_of value.now) (literal number) p ≡ member_test m p) }
        ensures weighs { IfSome result (λ m. list_weight m.kind.form 1 ≤ 10 + value_weight (amount_of value.now)) }
        ensures member { IfSome result IsMember }
    {
        match value {
            Value::Accessor(layer, index, size) => {
                let (layer, index, size) = (*layer, low_literal(index)?, *size);
                let mut member = Member::numbered(Form::Bytes, number);
                member.kind.bytes = Bytes { layer, index, size };
                Some(member)
            }
            _ => None,
        }
    }

    fn of_relation(comparison: Comparison, left: &Value, right: &Value) -> Option<Member>
        ensures same { IfSome result (λ m. (p : Packet) → relation_test comparison (amount_of left.now) (amount_of right.now) p ≡ member_test m p) }
        ensures weighs { IfSome result (λ m.
            list_weight m.kind.form 1 ≤ 10 + (value_weight (amount_of left.now) + value_weight (amount_of right.now))) }
        ensures member { IfSome result IsMember }
    {
        match (comparison, right) {
            (Comparison::Equal, Value::Number(n)) => Member::of_bytes(left, *n),
            _ => None,
        }
    }

    /// Two operands of `and`: `tcp and port 80` is the member `tcp port 80`. `port 80 and tcp` is
    /// none: on a packet of another protocol `port 80` may abort before `tcp` is tested.
    fn of_both(left: &Expr, right: &Expr) -> Option<Member>
        ensures same { IfSome result (λ m. (p : Packet) → meaning (both (tree_of left.now) (tree_of right.now)) p ≡ member_test m p) }
        ensures weighs { IfSome result (λ m. list_weight m.kind.form 1 ≤ weight (both (tree_of left.now) (tree_of right.now))) }
        ensures member { IfSome result IsMember }
    {
        match (left, right) {
            (Expr::Test(Primitive::Protocol(word)), Expr::Test(primitive)) => {
                Member::of(primitive_of_both(*word, *primitive)?)
            }
            _ => None,
        }
    }

    fn of_expr(expr: &Expr) -> Option<Member>
        ensures same { IfSome result (λ m. (p : Packet) → meaning (tree_of expr.now) p ≡ member_test m p) }
        ensures weighs { IfSome result (λ m. list_weight m.kind.form 1 ≤ weight (tree_of expr.now)) }
        ensures member { IfSome result IsMember }
    {
        match expr {
            Expr::Test(primitive) => Member::of(*primitive),
            Expr::Relation(comparison, left, right) => {
                Member::of_relation(*comparison, left, right)
            }
            Expr::And(left, right) => Member::of_both(left, right),
            _ => None,
        }
    }

    /// A link of a chain as a member: in a chain of `and`, the operand of its `not`.
    pub fn of_link(chain: Chain, expr: &Expr) -> Option<Member>
        ensures same { IfSome result (λ m. (p : Packet) → meaning (tree_of expr.now) p ≡ turned chain (member_test m p)) }
        ensures weighs { IfSome result (λ m. list_weight m.kind.form 1 ≤ weight (tree_of expr.now)) }
        ensures member { IfSome result IsMember }
    {
        match (chain, expr) {
            (Chain::AnyOf, _) => Member::of_expr(expr),
            (Chain::NoneOf, Expr::Not(operand)) => Member::of_expr(operand),
            _ => None,
        }
    }
}
