//! The primitives. Code is written from its end, so what a run does last is emitted first. `next`
//! is where a run goes on after a test.

ghost use Rattle.std.specs.Prelude.{◌≡◌, ◌≢◌, ◌+◌, ◌≤◌, ◌==◌, true, if◌then◌else◌, None, length};
ghost use Rattle.filtergen_trim.specs.declared.unreached.TheConstants.{MAX_CODE};
ghost use Rattle.filter_tree.specs.declared.tree.Primitive.TheVariants.{IpMulticast, Less};
ghost use Rattle.filter_tree.specs.declared.headers.TheConstants.{ETHER_DST, ETHER_SRC, ETHERTYPE_IP, IP_P, IPPROTO_TCP, IPPROTO_UDP};
ghost use Rattle.filtergen_code.specs.declared.insns.TheConstants.{NETWORK};
ghost use Rattle.filtergen_code.specs.declared.primitives.TheConstants.{ARP_ADDRESSES};
ghost use Rattle.filter_meaning.specs.Meaning.{check, byte, and_test, is_type, is_protocol, plain_test, by_direction, has_address, in_net, in_any_net, is_address, within, has_port, has_any_ports, protocol_number, primitive_test};
ghost use Rattle.filtergen_code.specs.Insns.{plain_insn};
ghost use Rattle.filtergen_code.specs.Emission.{IsPlace, CanEmit, Chooses, ChoosesAfter, same_index, Follows, Decides};
ghost use Rattle.filtergen_code.specs.Entries.{DecidesBy, GuardsPorts, CanEmitBy};
ghost use Rattle.filtergen_code.specs.Parts.{side_cost, side_offset, side_test, port_after, has_tcp_or_udp_number, has_port_number, number_of, plain_cost, cost};
ghost use Rattle.filtergen_code.specs.Remaining.{is_unfragmented};

use crate::code::{Code, Exits};
use crate::entries::{Entry, Targets};
use crate::insns::{Field, Jump, NETWORK, Operand, load_insn, plain_insn};
use bpfvm::code;
use filter_meaning::{BROADCAST, protocol_number};
use filter_tree::headers::{
    ARP_SPA, ARP_TPA, ETHER_DST, ETHER_SRC, ETHERTYPE_ARP, ETHERTYPE_IP, ETHERTYPE_REVARP, IP_DST,
    IP_OFFMASK, IP_SRC, IPPROTO_ICMP, IPPROTO_SCTP, IPPROTO_TCP, IPPROTO_UDP,
};
use filter_tree::{Direction, EthernetAddress, Network, Plain, Primitive, Transport};

/// Offsets in the frame of the source and the destination address of IPv4.
pub(crate) const IP_ADDRESSES: (u32, u32) = (IP_SRC as u32, IP_DST as u32);

/// Offsets in the frame of the sender's and the target's address of ARP and RARP.
pub(crate) const ARP_ADDRESSES: (u32, u32) = (ARP_SPA as u32, ARP_TPA as u32);

/// A test of the source or the destination, at an offset in the frame.
#[derive(Clone, Copy)]
pub(crate) enum FieldTest {
    /// The address of a host or a net of IPv4.
    Ip(u32, NetTest),
    Ethernet(u32, EthernetAddress),
}

/// A test of the ports from low to high on the sides that a direction chooses.
#[derive(Clone, Copy)]
pub(crate) struct PortTest {
    pub direction: Direction,
    pub low: u32,
    pub high: u32,
}

impl PortTest {
    pub fn new(direction: Direction, low: u16, high: u16) -> PortTest
        ensures { result ≡ record { direction = direction; low = low; high = high } }
    {
        PortTest {
            direction,
            low: u32::from(low),
            high: u32::from(high),
        }
    }
}

/// A test of the IPv4 addresses on the sides that a direction chooses, for the bits under a mask.
#[derive(Clone, Copy)]
pub(crate) struct NetTest {
    pub direction: Direction,
    pub address: u32,
    pub mask: u32,
}

fn plain_cost(word: Plain) -> usize
    ensures { result ≡ plain_cost word }
{
    match word {
        Plain::Ip => 4,
        Plain::Arp | Plain::Rarp | Plain::Icmp | Plain::Tcp | Plain::Udp | Plain::Sctp => 8,
    }
}

/// How many instructions a primitive takes at most: its loads, masks and jumps, and two relays for
/// each jump.
pub(crate) fn cost(primitive: Primitive) -> usize
    ensures value { result ≡ cost primitive }
    ensures within { result ≤ 38 }
{
    match primitive {
        Primitive::Protocol(word) => plain_cost(word),
        Primitive::Net {
            network: Some(_),
            ..
        } => 14,
        Primitive::Net { network: None, .. } => 30,
        Primitive::EtherHost { .. } => 16,
        Primitive::Ports { .. } => 33,
        Primitive::IpProto(_) | Primitive::EtherProto(_) => 8,
        Primitive::EtherBroadcast | Primitive::IpMulticast => 8,
        Primitive::EtherMulticast | Primitive::Less(_) | Primitive::Greater(_) => 4,
    }
}

impl Code {
    pub fn emit_ether_type(&mut self, number: u32, exits: Exits) -> usize
        requires { CanEmit 4 exits self.old }
        ensures { Decides 4 (is_type number) exits result self.old self.new }
    {
        self.emit_test(Field::ETHER_TYPE, Jump::Equal, number, exits)
    }

    pub fn emit_protocol_number(&mut self, number: u32, exits: Exits) -> usize
        requires { CanEmit 4 exits self.old }
        ensures { Decides 4 (λ p. check (λ b. b == number) (byte IP_P p)) exits result self.old self.new }
    {
        self.emit_test(Field::IP_P, Jump::Equal, number, exits)
    }

    /// Emits the test for IPv4 in front of a test for IPv4 packets. A packet of another type goes
    /// to the other place.
    pub fn emit_ip_guard(&mut self, next: usize, other: usize) -> Entry
        requires { CanEmit 4 (record { yes = next; no = other }) self.old }
        ensures test { Decides 4 (is_type ETHERTYPE_IP) (record { yes = next; no = other }) result.any self.old self.new }
        ensures places { result ≡
            record { any = result.any; ip = next; other = other; first_fragment = next; transport = None } }
    {
        self.emit_ip_split(Entry::at(next), other)
    }

    /// Emits the test for IPv4. A packet of IPv4 goes on at the given entry, a packet of another
    /// type at the other place.
    pub fn emit_ip_split(&mut self, ip: Entry, other: usize) -> Entry
        requires { CanEmit 4 (record { yes = ip.ip; no = other }) self.old }
        ensures test { Decides 4 (is_type ETHERTYPE_IP) (record { yes = ip.ip; no = other }) result.any self.old self.new }
        ensures places { result ≡
            record { any = result.any; ip = ip.ip; other = other; first_fragment = ip.first_fragment; transport = ip.transport } }
    {
        let (yes, no) = (ip.ip, other);
        let any = self.emit_ether_type(ETHERTYPE_IP, Exits { yes, no });
        Entry { any, other, ..ip }
    }

    /// Emits the test of an Ethernet type other than IPv4. If the targets differ for IPv4, that
    /// type is tested first.
    fn emit_non_ip_type(&mut self, number: u32, targets: Targets) -> Entry
        requires number { number ≢ ETHERTYPE_IP }
        requires ready { CanEmitBy 8 targets self.old }
        ensures { DecidesBy 8 (is_type number) targets result self.old self.new }
    {
        if targets.is_one_for_all_types() {
            let mut entry = targets.no;
            entry.any = self.emit_ether_type(number, targets.any_exits());
            entry.other = entry.any;
            return entry;
        }
        let other = self.emit_ether_type(number, targets.other_exits());
        self.emit_ip_split(targets.no, other)
    }

    fn emit_any_type(&mut self, number: u32, targets: Targets) -> Entry
        requires { CanEmitBy 8 targets self.old }
        ensures { DecidesBy 8 (is_type number) targets result self.old self.new }
    {
        if number == ETHERTYPE_IP {
            self.emit_protocol_word(Plain::Ip, targets)
        } else {
            self.emit_non_ip_type(number, targets)
        }
    }

    /// Emits the test for IPv4 with this protocol number.
    pub fn emit_ip_protocol(&mut self, number: u32, targets: Targets) -> Entry
        requires { CanEmitBy 8 targets self.old }
        ensures { DecidesBy 8 (is_protocol number) targets result self.old self.new }
    {
        let next = self.emit_protocol_number(number, targets.ip_exits());
        self.emit_ip_guard(next, targets.no.other)
    }

    /// Emits the test that an IPv4 packet is no later fragment.
    pub fn emit_fragment_test(&mut self, exits: Exits) -> usize
        requires { CanEmit 4 exits self.old }
        ensures { Decides 4 is_unfragmented exits result self.old self.new }
    {
        self.emit_test(Field::IP_OFF, Jump::AnyBit, IP_OFFMASK, exits.opposite())
    }

    /// Emits the comparisons of the accumulator with the protocol numbers of TCP and UDP.
    fn emit_tcp_or_udp_branch(&mut self, exits: Exits)
        requires { CanEmit 6 exits self.old }
        ensures { Chooses 6 (λ r. if r.accumulator == IPPROTO_TCP then true else r.accumulator == IPPROTO_UDP) exits self.old self.new }
    {
        self.emit_branch(Jump::Equal, Operand::Constant(IPPROTO_UDP), exits);
        let no = self.len();
        self.emit_branch(
            Jump::Equal,
            Operand::Constant(IPPROTO_TCP),
            Exits { no, ..exits },
        );
    }

    /// Emits the test for the protocol number of TCP or UDP. An exit that begins with the same load
    /// is entered after it.
    pub fn emit_tcp_or_udp(&mut self, exits: Exits) -> usize
        requires { CanEmit 7 exits self.old }
        ensures { Decides 7 has_tcp_or_udp_number exits result self.old self.new }
    {
        let load = load_insn(Field::IP_P);
        let exits = self.exits_after(load, exits);
        self.emit_tcp_or_udp_branch(exits);
        self.emit(load);
        self.len()
    }

    /// Emits the test for a protocol number with ports. An exit that begins with the same load is
    /// entered after it.
    fn emit_protocol_with_ports(&mut self, exits: Exits) -> usize
        requires { CanEmit 10 exits self.old }
        ensures { Decides 10 has_port_number exits result self.old self.new }
    {
        let load = load_insn(Field::IP_P);
        let exits = self.exits_after(load, exits);
        self.emit_branch(Jump::Equal, Operand::Constant(IPPROTO_SCTP), exits);
        let sctp = self.len();
        self.emit_tcp_or_udp_branch(Exits { no: sctp, ..exits });
        self.emit(load);
        self.len()
    }

    /// Emits the test for a port from low to high, at an offset after the IPv4 header whose length
    /// is in the index register.
    fn emit_port(&mut self, offset: u32, low: u32, high: u32, exits: Exits) -> usize
        requires offset { offset ≤ 2 }
        requires ready { CanEmit 7 exits self.old }
        ensures { ChoosesAfter 6 (plain_insn 0x48 (NETWORK + offset)) (λ r. within low high r.accumulator) exits result
            self.old self.new }
    {
        self.emit_range_branch(low, high, exits);
        self.emit(plain_insn(code::LD_H_IND, NETWORK + offset));
        self.len()
    }

    /// Emits the tests of the ports that a direction chooses. They share the header's length in the
    /// index register.
    fn emit_port_sides(&mut self, ports: PortTest, exits: Exits) -> usize
        requires { CanEmit 14 exits self.old }
        ensures test { Follows same_index 14
            (λ r. by_direction ports.direction (port_after r.index ports.low ports.high 0) (port_after r.index ports.low ports.high 2))
            exits result self.old self.new }
        ensures front { result ≡ length self.new }
    {
        let (low, high) = (ports.low, ports.high);
        match ports.direction {
            Direction::Src => self.emit_port(0, low, high, exits),
            Direction::Dst => self.emit_port(2, low, high, exits),
            Direction::SrcOrDst => {
                let next = self.emit_port(2, low, high, exits);
                self.emit_port(0, low, high, Exits { no: next, ..exits })
            }
            Direction::SrcAndDst => {
                let next = self.emit_port(2, low, high, exits);
                self.emit_port(0, low, high, Exits { yes: next, ..exits })
            }
        }
    }

    /// Emits the load of the IPv4 header's length and the tests of the ports. An exit that begins
    /// with the same load is entered after it: the length is still in the index register.
    pub fn emit_header_and_ports(&mut self, ports: PortTest, exits: Exits) -> usize
        requires { CanEmit 15 exits self.old }
        ensures { Decides 15 (by_direction ports.direction (has_port ports.low ports.high 0) (has_port ports.low ports.high 2)) exits
            result self.old self.new }
    {
        let header = plain_insn(code::LDX_MSH, NETWORK);
        let exits = self.exits_after(header, exits);
        self.emit_port_sides(ports, exits);
        self.emit(header);
        self.len()
    }

    /// Emits the test of the protocol number of a transport protocol; `None` is any with ports.
    fn emit_transport_number(&mut self, asked: Option<Transport>, exits: Exits) -> usize
        requires { CanEmit 10 exits self.old }
        ensures { Decides 10 (number_of asked) exits result self.old self.new }
    {
        match asked {
            None => self.emit_protocol_with_ports(exits),
            Some(transport) => self.emit_protocol_number(protocol_number(transport), exits),
        }
    }

    /// Emits the tests of type, protocol number and fragment in front of a test for first
    /// fragments. If any protocol will do, its forms share all but the protocol number.
    pub fn emit_transport_guard(
        &mut self,
        asked: Option<Transport>,
        first_fragment: usize,
        targets: Targets,
    ) -> Entry
        requires room { length self.old + 18 ≤ MAX_CODE }
        requires first_fragment { IsPlace self.old first_fragment }
        requires ip { IsPlace self.old targets.no.ip }
        requires other { IsPlace self.old targets.no.other }
        ensures { GuardsPorts asked first_fragment targets result self.old self.new }
    {
        let (yes, no) = (first_fragment, targets.no.ip);
        let yes = self.emit_fragment_test(Exits { yes, no });
        let ip = self.emit_transport_number(asked, Exits { yes, no });
        let mut entry = self.emit_ip_guard(ip, targets.no.other);
        entry.first_fragment = first_fragment;
        entry.transport = asked;
        entry
    }

    /// Emits the test for ports from low to high of one protocol or of any.
    fn emit_ports(&mut self, asked: Option<Transport>, ports: PortTest, targets: Targets) -> Entry
        requires { CanEmitBy 33 targets self.old }
        ensures { DecidesBy 33 (has_any_ports asked ports.direction ports.low ports.high) targets result self.old self.new }
    {
        let exits = targets.first_fragment_exits(asked);
        let first_fragment = self.emit_header_and_ports(ports, exits);
        self.emit_transport_guard(asked, first_fragment, targets)
    }

    /// Emits the test of an IPv4 address under a mask. A mask of ones takes no instruction.
    fn emit_address(&mut self, offset: u32, address: u32, mask: u32, exits: Exits) -> usize
        requires { CanEmit 5 exits self.old }
        ensures { Decides 5 (has_address address mask offset) exits result self.old self.new }
    {
        if mask == u32::MAX {
            self.emit_test(Field::Word(offset), Jump::Equal, address, exits)
        } else {
            self.emit_masked_test(Field::Word(offset), mask, address, exits)
        }
    }

    /// Emits the test of an Ethernet address. The last four bytes come first, so that a byte past
    /// the captured ones aborts in any case.
    fn emit_ethernet(&mut self, offset: u32, address: EthernetAddress, exits: Exits) -> usize
        requires offset { offset ≤ 40 }
        requires ready { CanEmit 8 exits self.old }
        ensures { Decides 8 (is_address address.octets offset) exits result self.old self.new }
    {
        let [a, b, c, d, e, f] = address.octets;
        let high = u32::from(u16::from_be_bytes([a, b]));
        let low = u32::from_be_bytes([c, d, e, f]);
        let next = self.emit_test(Field::Half(offset), Jump::Equal, high, exits);
        let exits = Exits { yes: next, ..exits };
        self.emit_test(Field::Word(offset + 2), Jump::Equal, low, exits)
    }

    fn emit_side(&mut self, side: FieldTest, exits: Exits) -> usize
        requires offset { side_offset side ≤ 40 }
        requires ready { CanEmit (side_cost side) exits self.old }
        ensures { Decides (side_cost side) (side_test side) exits result self.old self.new }
    {
        match side {
            FieldTest::Ip(offset, net) => self.emit_address(offset, net.address, net.mask, exits),
            FieldTest::Ethernet(offset, address) => self.emit_ethernet(offset, address, exits),
        }
    }

    /// Emits the test of the source, of the destination, or of both.
    fn emit_sides(
        &mut self,
        direction: Direction,
        source: FieldTest,
        destination: FieldTest,
        exits: Exits,
    ) -> usize
        requires source { side_offset source ≤ 40 }
        requires destination { side_offset destination ≤ 40 }
        requires ready { CanEmit (side_cost destination + side_cost source) exits self.old }
        ensures { Decides (side_cost destination + side_cost source)
            (by_direction direction (side_test source) (side_test destination)) exits result self.old self.new }
    {
        match direction {
            Direction::Src => self.emit_side(source, exits),
            Direction::Dst => self.emit_side(destination, exits),
            Direction::SrcOrDst => {
                let next = self.emit_side(destination, exits);
                self.emit_side(source, Exits { no: next, ..exits })
            }
            Direction::SrcAndDst => {
                let next = self.emit_side(destination, exits);
                self.emit_side(source, Exits { yes: next, ..exits })
            }
        }
    }

    /// Emits the tests of the IPv4 addresses that a direction chooses, at these offsets in the
    /// frame.
    pub fn emit_addresses(&mut self, offsets: (u32, u32), net: NetTest, exits: Exits) -> usize
        requires source { offsets.0 ≤ 40 }
        requires destination { offsets.1 ≤ 40 }
        requires ready { CanEmit 10 exits self.old }
        ensures { Decides 10
            (by_direction net.direction (has_address net.address net.mask offsets.0) (has_address net.address net.mask offsets.1)) exits
            result self.old self.new }
    {
        let source = FieldTest::Ip(offsets.0, net);
        let destination = FieldTest::Ip(offsets.1, net);
        self.emit_sides(net.direction, source, destination, exits)
    }

    /// Emits the test for a host or a net of ARP or RARP. A packet of another type may still be
    /// IPv4, so it goes to the exits for any packet.
    #[tactic(auto, using(crate::proofs::Leading::decides_any))]
    fn emit_arp_net(&mut self, number: u32, net: NetTest, targets: Targets) -> Entry
        requires { CanEmitBy 14 targets self.old }
        ensures { DecidesBy 14 (and_test (is_type number)
            (by_direction net.direction (has_address net.address net.mask ARP_ADDRESSES.0) (has_address net.address net.mask ARP_ADDRESSES.1)))
            targets result self.old self.new }
    {
        let exits = targets.any_exits();
        let next = self.emit_addresses(ARP_ADDRESSES, net, exits);
        Entry::at(self.emit_ether_type(number, Exits { yes: next, ..exits }))
    }

    fn emit_net(&mut self, network: Network, net: NetTest, targets: Targets) -> Entry
        requires { CanEmitBy 14 targets self.old }
        ensures { DecidesBy 14 (in_net network net.direction net.address net.mask) targets result self.old self.new }
    {
        match network {
            Network::Ip => {
                let next = self.emit_addresses(IP_ADDRESSES, net, targets.ip_exits());
                self.emit_ip_guard(next, targets.no.other)
            }
            Network::Arp => self.emit_arp_net(ETHERTYPE_ARP, net, targets),
            Network::Rarp => self.emit_arp_net(ETHERTYPE_REVARP, net, targets),
        }
    }

    /// Emits the test for a host or a net of any protocol: three comparisons of one type. ARP and
    /// RARP have their addresses at the same offsets.
    fn emit_any_net(&mut self, net: NetTest, targets: Targets) -> Entry
        requires { CanEmitBy 30 targets self.old }
        ensures { DecidesBy 30 (in_any_net None net.direction net.address net.mask) targets result self.old self.new }
    {
        let exits = targets.other_exits();
        let next = self.emit_addresses(ARP_ADDRESSES, net, exits);
        let arp = Exits { yes: next, ..exits };
        self.emit_branch(Jump::Equal, Operand::Constant(ETHERTYPE_REVARP), arp);
        let no = self.len();
        self.emit_branch(
            Jump::Equal,
            Operand::Constant(ETHERTYPE_ARP),
            Exits { no, ..arp },
        );
        let no = self.len();
        let yes = self.emit_addresses(IP_ADDRESSES, net, targets.ip_exits());
        self.emit_branch(
            Jump::Equal,
            Operand::Constant(ETHERTYPE_IP),
            Exits { yes, no },
        );
        self.emit(load_insn(Field::ETHER_TYPE));
        // The place for other types compares the accumulator with them, so a packet known to be of
        // another type enters at the load.
        let mut entry = Entry::at(yes);
        entry.any = self.len();
        entry.other = entry.any;
        entry
    }

    #[tactic(auto, using(crate::proofs::Leading::decides_any))]
    pub fn emit_protocol_word(&mut self, word: Plain, targets: Targets) -> Entry
        requires { CanEmitBy (plain_cost word) targets self.old }
        ensures { DecidesBy (plain_cost word) (plain_test word) targets result self.old self.new }
    {
        match word {
            Plain::Ip => self.emit_ip_guard(targets.yes.ip, targets.no.other),
            Plain::Arp => self.emit_non_ip_type(ETHERTYPE_ARP, targets),
            Plain::Rarp => self.emit_non_ip_type(ETHERTYPE_REVARP, targets),
            Plain::Icmp => self.emit_ip_protocol(IPPROTO_ICMP, targets),
            Plain::Tcp => self.emit_ip_protocol(IPPROTO_TCP, targets),
            Plain::Udp => self.emit_ip_protocol(IPPROTO_UDP, targets),
            Plain::Sctp => self.emit_ip_protocol(IPPROTO_SCTP, targets),
        }
    }

    fn emit_ether_host(
        &mut self,
        direction: Direction,
        address: EthernetAddress,
        exits: Exits,
    ) -> usize
        requires { CanEmit 16 exits self.old }
        ensures { Decides 16 (by_direction direction (is_address address.octets ETHER_SRC) (is_address address.octets ETHER_DST)) exits
            result self.old self.new }
    {
        let source = FieldTest::Ethernet(ETHER_SRC as u32, address);
        let destination = FieldTest::Ethernet(ETHER_DST as u32, address);
        self.emit_sides(direction, source, destination, exits)
    }

    /// Emits the test for a multicast destination of IPv4, from 224.0.0.0 on.
    fn emit_ip_multicast(&mut self, targets: Targets) -> Entry
        requires { CanEmitBy 8 targets self.old }
        ensures { DecidesBy 8 (primitive_test IpMulticast) targets result self.old self.new }
    {
        let exits = targets.ip_exits();
        let next = self.emit_test(Field::Byte(IP_DST as u32), Jump::GreaterOrEqual, 224, exits);
        self.emit_ip_guard(next, targets.no.other)
    }

    /// Emits the test for a wire length of at most `bytes`.
    fn emit_less(&mut self, bytes: u32, exits: Exits) -> usize
        requires { CanEmit 4 exits self.old }
        ensures { Decides 4 (primitive_test (Less bytes)) exits result self.old self.new }
    {
        self.emit_test(Field::Length, Jump::Greater, bytes, exits.opposite())
    }

    #[tactic(auto, using(crate::proofs::Leading::decides_any))]
    pub fn emit_primitive(&mut self, primitive: Primitive, targets: Targets) -> Entry
        requires { CanEmitBy (cost primitive) targets self.old }
        ensures { DecidesBy (cost primitive) (primitive_test primitive) targets result self.old self.new }
    {
        let exits = targets.any_exits();
        match primitive {
            Primitive::Protocol(word) => self.emit_protocol_word(word, targets),
            Primitive::Net {
                network,
                direction,
                address,
                mask,
            } => {
                let net = NetTest {
                    direction,
                    address,
                    mask,
                };
                match network {
                    Some(network) => self.emit_net(network, net, targets),
                    None => self.emit_any_net(net, targets),
                }
            }
            Primitive::EtherHost { direction, address } => {
                Entry::at(self.emit_ether_host(direction, address, exits))
            }
            Primitive::Ports {
                transport,
                direction,
                low,
                high,
            } => { self.emit_ports(transport, PortTest::new(direction, low, high), targets) }
            Primitive::IpProto(number) => self.emit_ip_protocol(u32::from(number), targets),
            Primitive::EtherProto(number) => self.emit_any_type(u32::from(number), targets),
            Primitive::EtherBroadcast => Entry::at(self.emit_ethernet(0, BROADCAST, exits)),
            Primitive::EtherMulticast => {
                Entry::at(self.emit_test(Field::Byte(0), Jump::AnyBit, 1, exits))
            }
            Primitive::IpMulticast => self.emit_ip_multicast(targets),
            Primitive::Less(bytes) => Entry::at(self.emit_less(bytes, exits)),
            Primitive::Greater(bytes) => {
                Entry::at(self.emit_test(Field::Length, Jump::GreaterOrEqual, bytes, exits))
            }
        }
    }
}
