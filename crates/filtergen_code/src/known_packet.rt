//! Primitives and relations of a packet of which something is known: what tests to their left have
//! shown is not tested again.
//!
//! Code is written from its end, so what a run does last is emitted first. `next` is where a run
//! goes on after a test.

ghost use Rattle.std.specs.Prelude.{◌≡◌, ◌+◌, ◌≤◌, ◌⊎◌, true, Some, None, max};
ghost use Rattle.std.specs.Bool.{OnTrue};
ghost use Rattle.filter_tree.specs.declared.tree.Network.TheVariants as networks;
ghost use Rattle.filter_tree.specs.Trees.{amount_of};
ghost use Rattle.filtergen_facts.specs.Weights.{value_weight, value_need};
ghost use Rattle.filter_meaning.specs.Meaning.{is_protocol, plain_test, in_any_net, has_any_ports, protocol_number, primitive_test, relation_test};
ghost use Rattle.filter_tree.specs.declared.headers.TheConstants.{ETHERTYPE_IP};
ghost use Rattle.filtergen_facts.specs.Facts.{has_type, has_protocol, begins_with_ip};
ghost use Rattle.filtergen_code.specs.Parts.{plain_cost, cost, relation_cost};
ghost use Rattle.filtergen_code.specs.Emission.{CanEmit};
ghost use Rattle.filtergen_code.specs.Entries.{AreTargets, DecidesGiven, EmitsGiven, GuardsIp, GuardsKnown, CanEmitBy};

use crate::code::{Code, Exits, Full};
use crate::entries::{Context, Entry};
use crate::primitives::{IP_ADDRESSES, NetTest, PortTest};
use filter_meaning::protocol_number;
use filter_tree::headers::{ETHERTYPE_IP, IPPROTO_ICMP, IPPROTO_SCTP, IPPROTO_TCP, IPPROTO_UDP};
use filter_tree::{Comparison, Network, Plain, Primitive, Transport, Value};
use filtergen_facts::PacketFacts;

/// Whether a host or a net of this protocol, or of any protocol, can be one of IPv4.
fn may_be_ip(network: Option<Network>) -> bool
    ensures { OnTrue result ((network ≡ None) ⊎ (network ≡ Some networks.Ip)) }
{
    match network {
        None => true,
        Some(Network::Ip) => true,
        Some(_) => false,
    }
}

impl Code {
    /// Emits the test for IPv4 in front of a test for IPv4 packets, unless the packet is known to
    /// be one.
    pub fn emit_ip_guard_given(&mut self, next: usize, context: Context) -> Entry
        requires { CanEmit 4 (record { yes = next; no = context.targets.no.other }) self.old }
        ensures { GuardsIp context.known next context.targets result self.old self.new }
    {
        if context.known.has_type(ETHERTYPE_IP) {
            return Entry::at(next);
        }
        self.emit_ip_guard(next, context.targets.no.other)
    }

    /// Emits the test for a first fragment in front of a test for first fragments, unless the
    /// packet is known to be one. It is known to be of this protocol.
    pub fn emit_fragment_guard_given(
        &mut self,
        asked: Option<Transport>,
        transport: Transport,
        first_fragment: usize,
        context: Context,
    ) -> Entry
        requires known { has_protocol context.known (protocol_number transport) ≡ true }
        requires asked { (asked ≡ None) ⊎ (asked ≡ Some transport) }
        requires ready { CanEmit 4 (record { yes = first_fragment; no = context.targets.no.ip }) self.old }
        ensures { GuardsKnown context.known asked transport first_fragment context.targets result self.old self.new }
    {
        if context.known.has_first_fragment(protocol_number(transport)) {
            return Entry::at(first_fragment);
        }
        let (yes, no) = (first_fragment, context.targets.no.ip);
        let mut entry = Entry::at(self.emit_fragment_test(Exits { yes, no }));
        entry.first_fragment = first_fragment;
        entry.transport = Some(transport);
        entry
    }

    /// Emits the test for ports from low to high of a packet that is known to be of this protocol.
    fn emit_ports_given(
        &mut self,
        asked: Option<Transport>,
        transport: Transport,
        ports: PortTest,
        context: Context,
    ) -> Entry
        requires known { has_protocol context.known (protocol_number transport) ≡ true }
        requires asked { (asked ≡ None) ⊎ (asked ≡ Some transport) }
        requires ready { CanEmitBy 19 context.targets self.old }
        ensures { DecidesGiven context.known 19 (has_any_ports asked ports.direction ports.low ports.high) context.targets result
            self.old self.new }
    {
        let exits = context.targets.first_fragment_exits(Some(transport));
        let first_fragment = self.emit_header_and_ports(ports, exits);
        self.emit_fragment_guard_given(asked, transport, first_fragment, context)
    }

    /// Emits the test for a host or a net of a packet that is known to be IPv4.
    fn emit_net_given(&mut self, network: Option<Network>, net: NetTest, context: Context) -> Entry
        requires known { has_type context.known ETHERTYPE_IP ≡ true }
        requires network { (network ≡ None) ⊎ (network ≡ Some networks.Ip) }
        requires ready { CanEmitBy 10 context.targets self.old }
        ensures { DecidesGiven context.known 10 (in_any_net network net.direction net.address net.mask) context.targets result
            self.old self.new }
    {
        let exits = context.targets.ip_exits();
        Entry::at(self.emit_addresses(IP_ADDRESSES, net, exits))
    }

    /// Emits what the test for IPv4 with this protocol number needs.
    fn emit_ip_protocol_given(&mut self, number: u32, context: Context) -> Entry
        requires { CanEmitBy 8 context.targets self.old }
        ensures { DecidesGiven context.known 8 (is_protocol number) context.targets result self.old self.new }
    {
        if context.known.has_protocol(number) {
            return context.targets.yes;
        }
        if context.known.has_type(ETHERTYPE_IP) {
            let exits = context.targets.ip_exits();
            return Entry::at(self.emit_protocol_number(number, exits));
        }
        self.emit_ip_protocol(number, context.targets)
    }

    fn emit_protocol_word_given(&mut self, word: Plain, context: Context) -> Entry
        requires { CanEmitBy (plain_cost word) context.targets self.old }
        ensures { DecidesGiven context.known (plain_cost word) (plain_test word) context.targets result self.old self.new }
    {
        match word {
            Plain::Icmp => self.emit_ip_protocol_given(IPPROTO_ICMP, context),
            Plain::Tcp => self.emit_ip_protocol_given(IPPROTO_TCP, context),
            Plain::Udp => self.emit_ip_protocol_given(IPPROTO_UDP, context),
            Plain::Sctp => self.emit_ip_protocol_given(IPPROTO_SCTP, context),
            _ => self.emit_protocol_word(word, context.targets),
        }
    }

    /// Emits what a relation needs.
    #[tactic(auto, using(crate::proofs::Bounds::relation_bound))]
    pub fn emit_relation_given(
        &mut self,
        comparison: Comparison,
        left: &Value,
        right: &Value,
        context: Context,
    ) -> Result<Entry, Full>
        requires need { max (value_need (amount_of left.now)) (1 + value_need (amount_of right.now)) ≤ 16 }
        requires targets { AreTargets self.old context.targets }
        ensures { EmitsGiven context.known (8 + (value_weight (amount_of left.now) + value_weight (amount_of right.now)))
            (relation_test comparison (amount_of left.now) (amount_of right.now)) context.targets self.old self.new result }
    {
        if PacketFacts::begins_with_ip(left) {
            return self.emit_ip_relation_given(comparison, left, right, context);
        }
        let exits = context.targets.any_exits();
        let place = self.emit_relation(context.known, comparison, left, right, exits)?;
        Ok(Entry::at(place))
    }

    /// Emits what a relation needs whose first accessor is of IPv4: an IPv4 packet enters it after
    /// the test of the type.
    fn emit_ip_relation_given(
        &mut self,
        comparison: Comparison,
        left: &Value,
        right: &Value,
        context: Context,
    ) -> Result<Entry, Full>
        requires need { max (value_need (amount_of left.now)) (1 + value_need (amount_of right.now)) ≤ 16 }
        requires begins { begins_with_ip (amount_of left.now) ≡ true }
        requires targets { AreTargets self.old context.targets }
        ensures { EmitsGiven context.known (relation_cost (amount_of left.now) (amount_of right.now) + 4)
            (relation_test comparison (amount_of left.now) (amount_of right.now)) context.targets self.old self.new result }
    {
        let of_ip = context.known.with_fact(PacketFacts::Type(ETHERTYPE_IP));
        let exits = context.targets.ip_exits();
        let next = self.emit_relation(of_ip, comparison, left, right, exits)?;
        self.room(4)?;
        Ok(self.emit_ip_guard_given(next, context))
    }

    pub fn emit_primitive_given(&mut self, primitive: Primitive, context: Context) -> Entry
        requires { CanEmitBy (cost primitive) context.targets self.old }
        ensures { DecidesGiven context.known (cost primitive) (primitive_test primitive) context.targets result self.old self.new }
    {
        match primitive {
            Primitive::Protocol(word) => self.emit_protocol_word_given(word, context),
            Primitive::IpProto(number) => self.emit_ip_protocol_given(u32::from(number), context),
            Primitive::Ports {
                transport: asked,
                direction,
                low,
                high,
            } => {
                let ports = PortTest::new(direction, low, high);
                match context.known.transport_of(asked) {
                    Some(transport) => self.emit_ports_given(asked, transport, ports, context),
                    None => self.emit_primitive(primitive, context.targets),
                }
            }
            Primitive::Net {
                network,
                direction,
                address,
                mask,
            } => {
                if context.known.has_type(ETHERTYPE_IP) && may_be_ip(network) {
                    let net = NetTest {
                        direction,
                        address,
                        mask,
                    };
                    self.emit_net_given(network, net, context)
                } else {
                    self.emit_primitive(primitive, context.targets)
                }
            }
            _ => self.emit_primitive(primitive, context.targets),
        }
    }
}
