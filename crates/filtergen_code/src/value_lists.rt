//! Lists: one test for all members, by the form of the list. What the members share is tested once.
//!
//! Code is written from its end, so what a run does last is emitted first.

ghost use Rattle.std.specs.Prelude.{◌≡◌, ◌<◌, ◌≤◌, length};
ghost use Rattle.filter_meaning.specs.Meaning.{is_type, is_first_fragment_of, protocol_number, in_layer, within};
ghost use Rattle.filter_tree.specs.declared.headers.TheConstants.{ETHERTYPE_IP};
ghost use Rattle.filtergen_facts.specs.Lists.{any_of, direction_of, ip_addresses_test, arp_addresses_test, any_net_test, ip_net_test, arp_net_test, ports_test, tcp_or_udp_ports_test, ip_protocol_test, ether_type_test, ether_host_test, bytes_test, kind_test};
ghost use Rattle.filtergen_code.specs.ValueLists.{in_ranges, comparisons_cost, net_sides_cost, any_net_cost, one_net_cost, ports_cost, number_cost, ethernet_cost, bytes_cost, list_cost, AreComparisons, EmitsGroup, EmitsGroupGiven};
ghost use Rattle.filtergen_code.specs.Emission.{AreExits, Extends, Decides, OrFull};
ghost use Rattle.filtergen_code.specs.Entries.{AreTargets};

use crate::code::{Code, Exits, Full};
use crate::entries::{Context, Entry, Targets};
use crate::insns::{Field, Jump, Operand, load_insn};
use crate::primitives::{ARP_ADDRESSES, IP_ADDRESSES};
use crate::value_in_list::{Location, are_two_hosts};
use filter_meaning::protocol_number;
use filter_tree::Transport::{Sctp, Tcp, Udp};
use filter_tree::headers::{ETHERTYPE_ARP, ETHERTYPE_IP, ETHERTYPE_REVARP};
use filter_tree::{Layer, Transport};
use filtergen_facts::{Form, Group, PacketFacts, ValueRange};

fn is_within(range: ValueRange, number: u32) -> bool
    ensures { result ≡ within range.low range.high number }
{
    range.low <= number && number <= range.high
}

/// Whether a number is in one of these ranges.
pub(crate) fn has_number(ranges: &[ValueRange], number: u32) -> bool
    ensures { result ≡ in_ranges ranges.now number }
{
    let mut found = false;
    for range in ranges {
        if is_within(*range, number) {
            found = true;
        }
    }
    found
}

impl Code {
    /// Emits a list of Ethernet types. Its answer for IPv4 is known here, so the type is compared
    /// with IPv4 first.
    fn emit_type_list(&mut self, group: &Group, targets: Targets) -> Result<Entry, Full>
        requires many { 2 ≤ length group.now.ranges.items }
        requires targets { AreTargets self.old targets }
        ensures { EmitsGroup number_cost (λ k. ether_type_test) group.now targets self.old self.new result }
    {
        let ranges = group.ranges.as_slice();
        let other = self.emit_lookup(
            Location::At(Field::ETHER_TYPE),
            ranges,
            targets.other_exits(),
        )?;
        self.room(4)?;
        Ok(self.emit_ip_split(targets.for_answer(has_number(ranges, ETHERTYPE_IP)), other))
    }

    fn emit_protocol_list(&mut self, group: &Group, context: Context) -> Result<Entry, Full>
        requires many { 2 ≤ length group.now.ranges.items }
        requires targets { AreTargets self.old context.targets }
        ensures { EmitsGroupGiven number_cost (λ k. ip_protocol_test) group.now context self.old self.new result }
    {
        let ranges = group.ranges.as_slice();
        let exits = context.targets.ip_exits();
        let next = self.emit_lookup(Location::At(Field::IP_P), ranges, exits)?;
        self.room(4)?;
        Ok(self.emit_ip_guard_given(next, context))
    }

    fn emit_ip_net_list(&mut self, group: &Group, context: Context) -> Result<Entry, Full>
        requires many { 2 ≤ length group.now.ranges.items }
        requires targets { AreTargets self.old context.targets }
        ensures { EmitsGroupGiven one_net_cost (λ k. ip_net_test (direction_of k.sides) k.mask) group.now context self.old self.new result }
    {
        let next = self.emit_address_lookup(IP_ADDRESSES, group, context.targets.ip_exits())?;
        self.room(4)?;
        Ok(self.emit_ip_guard_given(next, context))
    }

    /// Emits a list of hosts or nets of ARP or RARP. A packet of another type may still be IPv4, so
    /// it goes to the exits for any packet.
    fn emit_arp_list(&mut self, number: u32, group: &Group, targets: Targets) -> Result<Entry, Full>
        requires many { 2 ≤ length group.now.ranges.items }
        requires targets { AreTargets self.old targets }
        ensures { EmitsGroup one_net_cost (λ k. arp_net_test number (direction_of k.sides) k.mask) group.now targets self.old self.new result }
    {
        let exits = targets.any_exits();
        let next = self.emit_address_lookup(ARP_ADDRESSES, group, exits)?;
        self.room(4)?;
        Ok(Entry::at(self.emit_ether_type(number, Exits { yes: next, ..exits })))
    }

    /// Emits the last comparisons for ARP and RARP. Those for IPv4, at this place, serve for them
    /// if they lead to the same exits.
    fn emit_last_comparisons_of_others(
        &mut self,
        of_ip: usize,
        group: &Group,
        targets: Targets,
    ) -> Result<(), Full>
        requires some { 0 < length group.now.ranges.items }
        requires ip { AreExits self.old (record { yes = targets.yes.ip; no = targets.no.ip }) }
        requires other { AreExits self.old (record { yes = targets.yes.other; no = targets.no.other }) }
        requires there { AreComparisons group.now.ranges.items (record { yes = targets.yes.ip; no = targets.no.ip }) of_ip self.old }
        ensures { OrFull (comparisons_cost (length group.now.ranges.items)) self.old result (λ done.
            Extends (comparisons_cost (length group.now.ranges.items)) self.old self.new
            × AreComparisons group.now.ranges.items (record { yes = targets.yes.other; no = targets.no.other }) (length self.new) self.new) }
    {
        if targets.is_one_for_all_types() {
            self.room(1)?;
            self.emit_relay(of_ip, 0);
            Ok(())
        } else {
            self.emit_last_comparisons(group, targets.other_exits())?;
            Ok(())
        }
    }

    /// Emits the lookups of hosts or nets for packets whose type is known, and returns the place
    /// for IPv4 and the place for ARP and RARP, which have their addresses at the same offsets. All
    /// types share the last comparisons if they lead to the same exits. Two hosts are looked up
    /// otherwise, with so few last comparisons that each type has its own.
    fn emit_net_lookups(&mut self, group: &Group, targets: Targets) -> Result<(usize, usize), Full>
        requires many { 2 ≤ length group.now.ranges.items }
        requires targets { AreTargets self.old targets }
        ensures { OrFull (net_sides_cost (length group.now.ranges.items)) self.old result (λ places.
            Decides (net_sides_cost (length group.now.ranges.items))
            (any_of (ip_addresses_test (direction_of group.now.kind.sides) group.now.kind.mask) group.now.ranges.items)
            (record { yes = targets.yes.ip; no = targets.no.ip }) places.0 self.old self.new
            × Decides (net_sides_cost (length group.now.ranges.items))
            (any_of (arp_addresses_test (direction_of group.now.kind.sides) group.now.kind.mask) group.now.ranges.items)
            (record { yes = targets.yes.other; no = targets.no.other }) places.1 self.old self.new) }
    {
        let (of_ip, of_others) = (targets.ip_exits(), targets.other_exits());
        if are_two_hosts(group) {
            let ip = self.emit_address_lookup(IP_ADDRESSES, group, of_ip)?;
            let next = self.emit_address_lookup(ARP_ADDRESSES, group, of_others)?;
            return Ok((ip, next));
        }
        let last = self.emit_last_comparisons(group, of_ip)?;
        let ip = self.emit_address_lookup_before(IP_ADDRESSES, group, of_ip)?;
        self.emit_last_comparisons_of_others(last, group, targets)?;
        let next = self.emit_address_lookup_before(ARP_ADDRESSES, group, of_others)?;
        Ok((ip, next))
    }

    /// Emits a list of hosts or nets of any protocol: three comparisons of one type.
    fn emit_any_net_list(&mut self, group: &Group, targets: Targets) -> Result<Entry, Full>
        requires many { 2 ≤ length group.now.ranges.items }
        requires targets { AreTargets self.old targets }
        ensures { EmitsGroup any_net_cost (λ k. any_net_test (direction_of k.sides) k.mask) group.now targets self.old self.new result }
    {
        let (ip, yes) = self.emit_net_lookups(group, targets)?;
        self.room(10)?;
        let exits = targets.other_exits();
        let arp = Exits { yes, ..exits };
        self.emit_branch(Jump::Equal, Operand::Constant(ETHERTYPE_REVARP), arp);
        let no = self.len();
        self.emit_branch(
            Jump::Equal,
            Operand::Constant(ETHERTYPE_ARP),
            Exits { no, ..arp },
        );
        let (yes, no) = (ip, self.len());
        self.emit_branch(
            Jump::Equal,
            Operand::Constant(ETHERTYPE_IP),
            Exits { yes, no },
        );
        self.emit(load_insn(Field::ETHER_TYPE));
        let mut entry = Entry::at(ip);
        entry.any = self.len();
        entry.other = entry.any;
        Ok(entry)
    }

    /// Emits a list of hosts or nets of any protocol, or only what it needs of a packet known to be
    /// IPv4.
    fn emit_net_list(&mut self, group: &Group, context: Context) -> Result<Entry, Full>
        requires many { 2 ≤ length group.now.ranges.items }
        requires targets { AreTargets self.old context.targets }
        ensures { EmitsGroupGiven any_net_cost (λ k. any_net_test (direction_of k.sides) k.mask) group.now context self.old self.new result }
    {
        if context.known.has_type(ETHERTYPE_IP) {
            self.emit_ip_net_list(group, context)
        } else {
            self.emit_any_net_list(group, context.targets)
        }
    }

    fn emit_port_list(
        &mut self,
        asked: Option<Transport>,
        group: &Group,
        context: Context,
    ) -> Result<Entry, Full>
        requires many { 2 ≤ length group.now.ranges.items }
        requires targets { AreTargets self.old context.targets }
        ensures { EmitsGroupGiven ports_cost (λ k. ports_test asked (direction_of k.sides)) group.now context self.old self.new result }
    {
        match context.known.transport_of(asked) {
            Some(transport) => {
                let exits = context.targets.first_fragment_exits(Some(transport));
                let next = self.emit_port_lookup(group, exits)?;
                self.room(4)?;
                Ok(self.emit_fragment_guard_given(asked, transport, next, context))
            }
            None => {
                let exits = context.targets.first_fragment_exits(asked);
                let next = self.emit_port_lookup(group, exits)?;
                self.room(18)?;
                let entry = self.emit_transport_guard(asked, next, context.targets);
                Ok(entry.with_other_protocol(asked, context.targets.no))
            }
        }
    }

    /// Emits a list of ports or port ranges of TCP or UDP. Both protocols share all but the
    /// comparison of the protocol number.
    fn emit_tcp_or_udp_port_list(&mut self, group: &Group, context: Context) -> Result<Entry, Full>
        requires many { 2 ≤ length group.now.ranges.items }
        requires targets { AreTargets self.old context.targets }
        ensures { EmitsGroupGiven ports_cost (λ k. tcp_or_udp_ports_test (direction_of k.sides)) group.now context self.old self.new result }
    {
        let exits = context.targets.ip_exits();
        let yes = self.emit_port_lookup(group, exits)?;
        self.room(15)?;
        let yes = self.emit_fragment_test(Exits { yes, ..exits });
        let next = self.emit_tcp_or_udp(Exits { yes, ..exits });
        Ok(self.emit_ip_guard_given(next, context))
    }

    /// Emits a list of Ethernet hosts that share their first two bytes.
    #[tactic(auto, using(crate::proofs::Leading::decides_any))]
    pub fn emit_ethernet_list(&mut self, group: &Group, targets: Targets) -> Result<Entry, Full>
        requires some { 0 < length group.now.ranges.items }
        requires targets { AreTargets self.old targets }
        ensures { EmitsGroup ethernet_cost (λ k. ether_host_test (direction_of k.sides) k.head) group.now targets self.old self.new result }
    {
        let entry = self.emit_ethernet_lookup(group, targets.any_exits())?;
        Ok(Entry::at(entry))
    }

    /// Emits a list of bytes of TCP or UDP. A packet known to be a first fragment of the protocol
    /// is only looked up.
    fn emit_transport_bytes_list(
        &mut self,
        transport: Transport,
        group: &Group,
        context: Context,
    ) -> Result<Entry, Full>
        requires layer { in_layer group.now.kind.bytes.layer ≡ is_first_fragment_of (protocol_number transport) }
        requires some { 0 < length group.now.ranges.items }
        requires targets { AreTargets self.old context.targets }
        ensures { EmitsGroupGiven bytes_cost (λ k. bytes_test k.bytes) group.now context self.old self.new result }
    {
        let asked = Some(transport);
        let exits = context.targets.first_fragment_exits(asked);
        let next = self.emit_bytes_lookup(group, exits)?;
        if context.known.has_protocol(protocol_number(transport)) {
            self.room(4)?;
            Ok(self.emit_fragment_guard_given(asked, transport, next, context))
        } else {
            self.room(18)?;
            Ok(self.emit_transport_guard(asked, next, context.targets))
        }
    }

    fn emit_ip_bytes_list(&mut self, group: &Group, context: Context) -> Result<Entry, Full>
        requires layer { in_layer group.now.kind.bytes.layer ≡ is_type ETHERTYPE_IP }
        requires some { 0 < length group.now.ranges.items }
        requires targets { AreTargets self.old context.targets }
        ensures { EmitsGroupGiven bytes_cost (λ k. bytes_test k.bytes) group.now context self.old self.new result }
    {
        let next = self.emit_bytes_lookup(group, context.targets.ip_exits())?;
        self.room(4)?;
        Ok(self.emit_ip_guard_given(next, context))
    }

    /// Emits a list of bytes of a layer whose test spares the code after it nothing.
    fn emit_other_bytes_list(&mut self, group: &Group, context: Context) -> Result<Entry, Full>
        requires some { 0 < length group.now.ranges.items }
        requires targets { AreTargets self.old context.targets }
        ensures { EmitsGroupGiven bytes_cost (λ k. bytes_test k.bytes) group.now context self.old self.new result }
    {
        let exits = context.targets.any_exits();
        let next = self.emit_bytes_lookup(group, exits)?;
        self.room(12)?;
        let layer = PacketFacts::of_layer(group.kind.bytes.layer);
        Ok(Entry::at(self.emit_rest_of(context.known, layer, Exits { yes: next, ..exits })))
    }

    pub fn emit_bytes_list(&mut self, group: &Group, context: Context) -> Result<Entry, Full>
        requires some { 0 < length group.now.ranges.items }
        requires targets { AreTargets self.old context.targets }
        ensures { EmitsGroupGiven bytes_cost (λ k. bytes_test k.bytes) group.now context self.old self.new result }
    {
        match group.kind.bytes.layer {
            Layer::Ip => self.emit_ip_bytes_list(group, context),
            Layer::Tcp => self.emit_transport_bytes_list(Tcp, group, context),
            Layer::Udp => self.emit_transport_bytes_list(Udp, group, context),
            Layer::Ether | Layer::Arp | Layer::Rarp | Layer::Icmp => {
                self.emit_other_bytes_list(group, context)
            }
        }
    }

    /// Emits a list of at least two members, or only what it needs of a packet of which something
    /// is known.
    pub fn emit_list(&mut self, group: &Group, context: Context) -> Result<Entry, Full>
        requires many { 2 ≤ length group.now.ranges.items }
        requires targets { AreTargets self.old context.targets }
        ensures { EmitsGroupGiven (list_cost group.now.kind.form) kind_test group.now context self.old self.new result }
    {
        match group.kind.form {
            Form::Net => self.emit_net_list(group, context),
            Form::IpNet => self.emit_ip_net_list(group, context),
            Form::ArpNet => self.emit_arp_list(ETHERTYPE_ARP, group, context.targets),
            Form::RarpNet => self.emit_arp_list(ETHERTYPE_REVARP, group, context.targets),
            Form::Ports => self.emit_port_list(None, group, context),
            Form::TcpPorts => self.emit_port_list(Some(Tcp), group, context),
            Form::UdpPorts => self.emit_port_list(Some(Udp), group, context),
            Form::SctpPorts => self.emit_port_list(Some(Sctp), group, context),
            Form::TcpOrUdpPorts => self.emit_tcp_or_udp_port_list(group, context),
            Form::IpProto => self.emit_protocol_list(group, context),
            Form::EtherProto => self.emit_type_list(group, context.targets),
            Form::EtherHost => self.emit_ethernet_list(group, context.targets),
            Form::Bytes => self.emit_bytes_list(group, context),
        }
    }
}
