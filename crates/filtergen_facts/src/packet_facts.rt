//! What passed tests have shown of a packet. The compiler does not test it again.

ghost use Rattle.std.specs.Prelude.{◌≡◌, ◌⊎◌, true, Some, None, IfSome};
ghost use Rattle.filter_meaning.specs.Meaning.{protocol_number};
ghost use Rattle.filter_tree.specs.Trees.{amount_of, tree_of};
ghost use Rattle.filtergen_facts.specs.Facts.{has_type, has_protocol, has_first_fragment, implies, with_fact, of_layer, begins_with_ip, of_plain, of_network, of_primitive, after_layers, after_expr, LOOK_BACK};

use filter_meaning::protocol_number;
use filter_tree::headers::{
    ETHERTYPE_ARP, ETHERTYPE_IP, ETHERTYPE_REVARP, IPPROTO_ICMP, IPPROTO_SCTP, IPPROTO_TCP,
    IPPROTO_UDP,
};
use filter_tree::{Expr, Layer, Network, Plain, Primitive, Transport, Value};

/// How many levels of `and` deep an operand is searched for what it shows. Each operand of a chain
/// searches those to its left, so without a bound the time would grow with the square of the
/// chain's length.
const LOOK_BACK: u32 = 16;

/// What is known of a packet.
#[derive(Clone, Copy)]
pub enum PacketFacts {
    Nothing,
    /// The Ethernet type.
    Type(u32),
    /// IPv4 with this protocol number.
    Protocol(u32),
    /// IPv4 with this protocol number, and no later fragment.
    FirstFragment(u32),
}

impl PacketFacts {
    /// Whether the Ethernet type is known to be this.
    pub fn has_type(self, number: u32) -> bool
        ensures { result ≡ has_type self number }
    {
        match self {
            PacketFacts::Nothing => false,
            PacketFacts::Type(own) => number == own,
            PacketFacts::Protocol(_) | PacketFacts::FirstFragment(_) => number == ETHERTYPE_IP,
        }
    }

    /// Whether it is known to be IPv4 with this protocol number.
    pub fn has_protocol(self, number: u32) -> bool
        ensures { result ≡ has_protocol self number }
    {
        match self {
            PacketFacts::Nothing | PacketFacts::Type(_) => false,
            PacketFacts::Protocol(own) | PacketFacts::FirstFragment(own) => number == own,
        }
    }

    /// Whether it is known to be IPv4 with this protocol number and no later fragment.
    pub fn has_first_fragment(self, number: u32) -> bool
        ensures { result ≡ has_first_fragment self number }
    {
        match self {
            PacketFacts::Nothing | PacketFacts::Type(_) | PacketFacts::Protocol(_) => false,
            PacketFacts::FirstFragment(own) => number == own,
        }
    }

    /// Whether a packet with these facts has this fact.
    fn implies(self, fact: PacketFacts) -> bool
        ensures { result ≡ implies self fact }
    {
        match fact {
            PacketFacts::Nothing => true,
            PacketFacts::Type(number) => self.has_type(number),
            PacketFacts::Protocol(number) => self.has_protocol(number),
            PacketFacts::FirstFragment(number) => self.has_first_fragment(number),
        }
    }

    /// What is known after one more passed test. Of two facts of which neither implies the other,
    /// the new one is kept.
    pub fn with_fact(self, fact: PacketFacts) -> PacketFacts
        ensures { result ≡ with_fact self fact }
    {
        if self.implies(fact) { self } else { fact }
    }

    /// What an accessor's layer shows.
    pub fn of_layer(layer: Layer) -> PacketFacts
        ensures { result ≡ of_layer layer }
    {
        match layer {
            Layer::Ether => PacketFacts::Nothing,
            Layer::Ip => PacketFacts::Type(ETHERTYPE_IP),
            Layer::Arp => PacketFacts::Type(ETHERTYPE_ARP),
            Layer::Rarp => PacketFacts::Type(ETHERTYPE_REVARP),
            Layer::Tcp => PacketFacts::FirstFragment(IPPROTO_TCP),
            Layer::Udp => PacketFacts::FirstFragment(IPPROTO_UDP),
            Layer::Icmp => PacketFacts::FirstFragment(IPPROTO_ICMP),
        }
    }

    fn of_plain(word: Plain) -> PacketFacts
        ensures { result ≡ of_plain word }
    {
        match word {
            Plain::Ip => PacketFacts::Type(ETHERTYPE_IP),
            Plain::Arp => PacketFacts::Type(ETHERTYPE_ARP),
            Plain::Rarp => PacketFacts::Type(ETHERTYPE_REVARP),
            Plain::Icmp => PacketFacts::Protocol(IPPROTO_ICMP),
            Plain::Tcp => PacketFacts::Protocol(IPPROTO_TCP),
            Plain::Udp => PacketFacts::Protocol(IPPROTO_UDP),
            Plain::Sctp => PacketFacts::Protocol(IPPROTO_SCTP),
        }
    }

    fn of_network(network: Network) -> PacketFacts
        ensures { result ≡ of_network network }
    {
        match network {
            Network::Ip => PacketFacts::Type(ETHERTYPE_IP),
            Network::Arp => PacketFacts::Type(ETHERTYPE_ARP),
            Network::Rarp => PacketFacts::Type(ETHERTYPE_REVARP),
        }
    }

    /// What a passed primitive shows.
    fn of_primitive(primitive: Primitive) -> PacketFacts
        ensures { result ≡ of_primitive primitive }
    {
        match primitive {
            Primitive::Protocol(word) => PacketFacts::of_plain(word),
            Primitive::Net { network, .. } => match network {
                Some(network) => PacketFacts::of_network(network),
                None => PacketFacts::Nothing,
            },
            Primitive::Ports { transport, .. } => match transport {
                Some(transport) => PacketFacts::FirstFragment(protocol_number(transport)),
                None => PacketFacts::Nothing,
            },
            Primitive::IpProto(number) => PacketFacts::Protocol(u32::from(number)),
            Primitive::EtherProto(number) => PacketFacts::Type(u32::from(number)),
            Primitive::IpMulticast => PacketFacts::Type(ETHERTYPE_IP),
            Primitive::EtherHost { .. } | Primitive::EtherBroadcast => PacketFacts::Nothing,
            Primitive::EtherMulticast | Primitive::Less(_) | Primitive::Greater(_) =>
                PacketFacts::Nothing,
        }
    }

    /// The packet's protocol, if it is known and the test is for its ports. `asked` is the protocol
    /// of the test; `None` is any with ports.
    pub fn transport_of(self, asked: Option<Transport>) -> Option<Transport>
        ensures { IfSome result
            (λ t. (has_protocol self (protocol_number t) ≡ true) × ((asked ≡ None) ⊎ (asked ≡ Some t))) }
    {
        let transport = match asked {
            Some(transport) => transport,
            None if self.has_protocol(IPPROTO_TCP) => Transport::Tcp,
            None if self.has_protocol(IPPROTO_UDP) => Transport::Udp,
            None => Transport::Sctp,
        };
        if self.has_protocol(protocol_number(transport)) {
            Some(transport)
        } else {
            None
        }
    }

    /// What is known after the tests for the layers of a value's accessors.
    pub fn after_layers(self, value: &Value) -> PacketFacts
        ensures { result ≡ after_layers self (amount_of value.now) }
    {
        match value {
            Value::Number(_) | Value::Length => self,
            Value::Negation(operand) => self.after_layers(operand),
            Value::Binary(_, left, right) => self.after_layers(left).after_layers(right),
            Value::Accessor(layer, index, _) => {
                self.with_fact(PacketFacts::of_layer(*layer))
                    .after_layers(index)
            }
        }
    }

    /// Whether the layer of a value's first accessor is IPv4, or a protocol in it.
    pub fn begins_with_ip(value: &Value) -> bool
        ensures { result ≡ begins_with_ip (amount_of value.now) }
    {
        match value {
            Value::Number(_) | Value::Length => false,
            Value::Negation(operand) => PacketFacts::begins_with_ip(operand),
            Value::Binary(_, left, _) => PacketFacts::begins_with_ip(left),
            Value::Accessor(layer, _, _) => PacketFacts::of_layer(*layer).has_type(ETHERTYPE_IP),
        }
    }

    /// What is known if an expression is Yes, from its operands at most `levels` of `and` deep.
    fn after_within(self, levels: u32, expr: &Expr) -> PacketFacts
        ensures { result ≡ after_expr levels self (tree_of expr.now) }
    {
        match expr {
            Expr::Everything | Expr::Not(_) | Expr::Or(_, _) => self,
            Expr::Test(primitive) => self.with_fact(PacketFacts::of_primitive(*primitive)),
            Expr::Relation(_, left, right) => self.after_layers(left).after_layers(right),
            Expr::And(_, _) if levels == 0 => self,
            Expr::And(left, right) => self
                .after_within(levels - 1, left)
                .after_within(levels - 1, right),
        }
    }

    /// What is known if an expression is Yes.
    pub fn after_expr(self, expr: &Expr) -> PacketFacts
        ensures { result ≡ after_expr LOOK_BACK self (tree_of expr.now) }
    {
        self.after_within(LOOK_BACK, expr)
    }
}
