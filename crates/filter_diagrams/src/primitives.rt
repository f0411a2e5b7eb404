//! Primitives as nodes of decision diagrams.

ghost use Rattle.std.specs.Prelude.{◌≡◌, ◌≤◌, ◌<◌, ◌^◌, IfOk, IfSome, Some, None};
ghost use Rattle.filter_tree.specs.declared.tree.Primitive.TheVariants.{EtherHost, EtherMulticast, IpMulticast, Less, Greater};
ghost use Rattle.filter_meaning.specs.Meaning.{is_type, is_protocol, is_first_fragment_of, plain_test, by_direction, has_address, in_net, in_any_net, has_port, has_ports, has_any_ports, is_address, address_number, and_test, primitive_test};
ghost use Rattle.filter_symbols.specs.Symbols.{SaysOf, Extends};

use crate::builder::Builder;
use crate::fields::{AT_LEAST, AT_MOST, Bytes, GREATER};
use crate::refusal::Refusal;
use filter_bdd::Stop;
use filter_meaning::protocol_number;
use filter_tree::headers::{
    ARP_SPA, ARP_TPA, ETHER_DST, ETHER_SRC, ETHER_TYPE, ETHERTYPE_ARP, ETHERTYPE_IP,
    ETHERTYPE_REVARP, IP_DST, IP_OFF, IP_OFFMASK, IP_P, IP_SRC, IPPROTO_ICMP, IPPROTO_SCTP,
    IPPROTO_TCP, IPPROTO_UDP,
};
use filter_tree::{Direction, EthernetAddress, Network, Plain, Primitive, Transport};

/// The addresses of a net, and which side of a packet they are wanted on.
#[derive(Clone, Copy)]
struct Net {
    direction: Direction,
    address: u32,
    mask: u32,
}

/// Ports from `low` to `high`, and which side of a packet they are wanted on.
#[derive(Clone, Copy)]
struct Ports {
    direction: Direction,
    low: u16,
    high: u16,
}

/// The number that six octets are in network order.
fn number_of_address(address: EthernetAddress) -> u64
    ensures number { result ≡ address_number address.octets }
    ensures six { result < 2 ^ 48 }
{
    let [a, b, c, d, e, f] = address.octets;
    u64::from_be_bytes([0, 0, a, b, c, d, e, f])
}

impl Builder {
    /// The Ethernet type.
    pub(crate) fn is_type(&mut self, number: u32) -> Result<u32, Stop>
        requires { number < 2 ^ 16 }
        ensures means { IfOk result (SaysOf self.new.symbols (is_type number)) }
        ensures extends { Extends self.old.symbols self.new.symbols }
    {
        self.equals(ETHER_TYPE as u32, 2, u64::from(number))
    }

    /// IPv4 with this protocol number.
    #[tactic(auto, using(crate::proofs::Builders::extends_more, crate::proofs::Builders::extends_same, crate::proofs::Builders::inside_extended))]
    fn is_protocol(&mut self, number: u32) -> Result<u32, Stop>
        requires { number < 2 ^ 8 }
        ensures means { IfOk result (SaysOf self.new.symbols (is_protocol number)) }
        ensures extends { Extends self.old.symbols self.new.symbols }
    {
        let ip = self.is_type(ETHERTYPE_IP)?;
        let protocol = self.equals(IP_P as u32, 1, u64::from(number))?;
        self.both(ip, protocol)
    }

    /// IPv4 with this protocol number, and no later fragment.
    #[tactic(auto, using(crate::proofs::Builders::extends_more, crate::proofs::Builders::extends_same, crate::proofs::Builders::inside_extended))]
    pub(crate) fn is_first_fragment_of(&mut self, number: u32) -> Result<u32, Stop>
        requires { number < 2 ^ 8 }
        ensures means { IfOk result (SaysOf self.new.symbols (is_first_fragment_of number)) }
        ensures extends { Extends self.old.symbols self.new.symbols }
    {
        let protocol = self.is_protocol(number)?;
        let offset = Bytes {
            offset: IP_OFF as u32,
            size: 2,
            mask: IP_OFFMASK as u64,
        };
        let first = self.masked(offset, 0)?;
        self.both(protocol, first)
    }

    /// A protocol word.
    fn is_plain(&mut self, word: Plain) -> Result<u32, Stop>
        ensures means { IfOk result (SaysOf self.new.symbols (plain_test word)) }
        ensures extends { Extends self.old.symbols self.new.symbols }
    {
        match word {
            Plain::Ip => self.is_type(ETHERTYPE_IP),
            Plain::Arp => self.is_type(ETHERTYPE_ARP),
            Plain::Rarp => self.is_type(ETHERTYPE_REVARP),
            Plain::Icmp => self.is_protocol(IPPROTO_ICMP),
            Plain::Tcp => self.is_protocol(IPPROTO_TCP),
            Plain::Udp => self.is_protocol(IPPROTO_UDP),
            Plain::Sctp => self.is_protocol(IPPROTO_SCTP),
        }
    }

    /// An Ethernet type, and the addresses at two offsets.
    #[tactic(auto, using(crate::proofs::Builders::extends_more, crate::proofs::Builders::extends_same, crate::proofs::Builders::inside_extended))]
    fn in_net_at(&mut self, number: u32, offsets: (u32, u32), net: Net) -> Result<u32, Stop>
        requires number { number < 2 ^ 16 }
        requires source { offsets.0 < 2 ^ 16 }
        requires destination { offsets.1 < 2 ^ 16 }
        ensures means { IfOk result (SaysOf self.new.symbols (and_test (is_type number) (by_direction net.direction (has_address net.address net.mask offsets.0) (has_address net.address net.mask offsets.1)))) }
        ensures extends { Extends self.old.symbols self.new.symbols }
    {
        let address = u64::from(net.address);
        let mask = u64::from(net.mask);
        let (source, destination) = offsets;
        let network = self.is_type(number)?;
        let bytes = Bytes {
            offset: source,
            size: 4,
            mask,
        };
        let source = self.masked(bytes, address)?;
        let bytes = Bytes {
            offset: destination,
            size: 4,
            mask,
        };
        let destination = self.masked(bytes, address)?;
        let side = self.directed(net.direction, source, destination)?;
        self.both(network, side)
    }

    /// A host or net of a protocol.
    fn is_in_net(&mut self, network: Network, net: Net) -> Result<u32, Stop>
        ensures means { IfOk result (SaysOf self.new.symbols (in_net network net.direction net.address net.mask)) }
        ensures extends { Extends self.old.symbols self.new.symbols }
    {
        match network {
            Network::Ip => self.in_net_at(ETHERTYPE_IP, (IP_SRC as u32, IP_DST as u32), net),
            Network::Arp => self.in_net_at(ETHERTYPE_ARP, (ARP_SPA as u32, ARP_TPA as u32), net),
            Network::Rarp => self.in_net_at(
                ETHERTYPE_REVARP,
                (ARP_SPA as u32, ARP_TPA as u32),
                net,
            ),
        }
    }

    /// A host or net of any protocol.
    #[tactic(auto, using(crate::proofs::Builders::extends_more, crate::proofs::Builders::extends_same, crate::proofs::Builders::inside_extended))]
    fn is_in_some_net(&mut self, net: Net) -> Result<u32, Stop>
        ensures means { IfOk result (SaysOf self.new.symbols (in_any_net None net.direction net.address net.mask)) }
        ensures extends { Extends self.old.symbols self.new.symbols }
    {
        let ip = self.is_in_net(Network::Ip, net)?;
        let arp = self.is_in_net(Network::Arp, net)?;
        let rarp = self.is_in_net(Network::Rarp, net)?;
        let first = self.either(ip, arp)?;
        self.either(first, rarp)
    }

    /// A port, `offset` bytes after the IPv4 header, which has `header` words.
    #[tactic(auto, using(crate::proofs::Builders::extends_more, crate::proofs::Builders::extends_same, crate::proofs::Builders::inside_extended))]
    fn has_port(&mut self, header: u32, offset: u32, ports: Ports) -> Result<u32, Stop>
        requires known { self.old.symbols.header ≡ Some header }
        requires header { header < 16 }
        requires offset { offset ≤ 2 }
        ensures means { IfOk result (SaysOf self.new.symbols (has_port ports.low ports.high offset)) }
        ensures extends { Extends self.old.symbols self.new.symbols }
    {
        let bytes = Bytes {
            offset: 14 + 4 * header + offset,
            size: 2,
            mask: u64::MAX,
        };
        let low = self.bytes_test(bytes, u64::from(ports.low), AT_LEAST)?;
        let high = self.bytes_test(bytes, u64::from(ports.high), AT_MOST)?;
        self.both(low, high)
    }

    /// The ports of a protocol number.
    #[tactic(auto, using(crate::proofs::Builders::extends_more, crate::proofs::Builders::extends_same, crate::proofs::Builders::inside_extended))]
    fn has_ports(&mut self, header: u32, number: u32, ports: Ports) -> Result<u32, Stop>
        requires known { self.old.symbols.header ≡ Some header }
        requires header { header < 16 }
        requires number { number < 2 ^ 8 }
        ensures means { IfOk result (SaysOf self.new.symbols (has_ports number ports.direction ports.low ports.high)) }
        ensures extends { Extends self.old.symbols self.new.symbols }
    {
        let first = self.is_first_fragment_of(number)?;
        let source = self.has_port(header, 0, ports)?;
        let destination = self.has_port(header, 2, ports)?;
        let side = self.directed(ports.direction, source, destination)?;
        self.both(first, side)
    }

    /// The ports of any protocol.
    #[tactic(auto, using(crate::proofs::Builders::extends_more, crate::proofs::Builders::extends_same, crate::proofs::Builders::inside_extended))]
    fn has_some_ports(&mut self, header: u32, ports: Ports) -> Result<u32, Stop>
        requires known { self.old.symbols.header ≡ Some header }
        requires header { header < 16 }
        ensures means { IfOk result (SaysOf self.new.symbols (has_any_ports None ports.direction ports.low ports.high)) }
        ensures extends { Extends self.old.symbols self.new.symbols }
    {
        let tcp = self.has_ports(header, IPPROTO_TCP, ports)?;
        let udp = self.has_ports(header, IPPROTO_UDP, ports)?;
        let sctp = self.has_ports(header, IPPROTO_SCTP, ports)?;
        let first = self.either(tcp, udp)?;
        self.either(first, sctp)
    }

    /// A port or a range of ports. It needs the header length.
    fn has_any_ports(&mut self, transport: Option<Transport>, ports: Ports) -> Result<u32, Refusal>
        requires { IfSome self.old.symbols.header (λ n. n < 16) }
        ensures means { IfOk result (SaysOf self.new.symbols (has_any_ports transport ports.direction ports.low ports.high)) }
        ensures extends { Extends self.old.symbols self.new.symbols }
    {
        let Some(header) = self.symbols.header else {
            return Err(Refusal::Header);
        };
        match transport {
            Some(transport) => Ok(self.has_ports(header, protocol_number(transport), ports)?),
            None => Ok(self.has_some_ports(header, ports)?),
        }
    }

    /// An Ethernet host.
    #[tactic(auto, using(crate::proofs::Builders::extends_more, crate::proofs::Builders::extends_same, crate::proofs::Builders::inside_extended))]
    fn is_ether_host(&mut self, direction: Direction, address: EthernetAddress) -> Result<u32, Stop>
        ensures means { IfOk result (SaysOf self.new.symbols (primitive_test (EtherHost direction address))) }
        ensures extends { Extends self.old.symbols self.new.symbols }
    {
        let number = number_of_address(address);
        let source = self.equals(ETHER_SRC as u32, 6, number)?;
        let destination = self.equals(ETHER_DST as u32, 6, number)?;
        self.directed(direction, source, destination)
    }

    /// An IPv4 packet to a multicast address.
    #[tactic(auto, using(crate::proofs::Builders::extends_more, crate::proofs::Builders::extends_same, crate::proofs::Builders::inside_extended))]
    fn is_ip_multicast(&mut self) -> Result<u32, Stop>
        ensures means { IfOk result (SaysOf self.new.symbols (primitive_test IpMulticast)) }
        ensures extends { Extends self.old.symbols self.new.symbols }
    {
        let ip = self.is_type(ETHERTYPE_IP)?;
        let bytes = Bytes {
            offset: IP_DST as u32,
            size: 1,
            mask: u64::MAX,
        };
        let multicast = self.bytes_test(bytes, 224, AT_LEAST)?;
        self.both(ip, multicast)
    }

    /// A frame to an Ethernet multicast address.
    fn is_ether_multicast(&mut self) -> Result<u32, Stop>
        ensures means { IfOk result (SaysOf self.new.symbols (primitive_test EtherMulticast)) }
        ensures extends { Extends self.old.symbols self.new.symbols }
    {
        let bytes = Bytes {
            offset: 0,
            size: 1,
            mask: 1,
        };
        self.bytes_test(bytes, 0, GREATER)
    }

    /// A wire length of at most `number` bytes.
    fn is_at_most(&mut self, number: u32) -> Result<u32, Stop>
        ensures means { IfOk result (SaysOf self.new.symbols (primitive_test (Less number))) }
        ensures extends { Extends self.old.symbols self.new.symbols }
    {
        self.wire_test(number, AT_MOST)
    }

    /// A wire length of at least `number` bytes.
    fn is_at_least(&mut self, number: u32) -> Result<u32, Stop>
        ensures means { IfOk result (SaysOf self.new.symbols (primitive_test (Greater number))) }
        ensures extends { Extends self.old.symbols self.new.symbols }
    {
        self.wire_test(number, AT_LEAST)
    }

    /// A primitive.
    #[inline(never)]
    pub(crate) fn primitive(&mut self, asked: Primitive) -> Result<u32, Refusal>
        requires { IfSome self.old.symbols.header (λ n. n < 16) }
        ensures means { IfOk result (SaysOf self.new.symbols (primitive_test asked)) }
        ensures extends { Extends self.old.symbols self.new.symbols }
    {
        match asked {
            Primitive::Protocol(word) => Ok(self.is_plain(word)?),
            Primitive::Net {
                network,
                direction,
                address,
                mask,
            } => {
                let net = Net {
                    direction,
                    address,
                    mask,
                };
                match network {
                    Some(network) => Ok(self.is_in_net(network, net)?),
                    None => Ok(self.is_in_some_net(net)?),
                }
            }
            Primitive::EtherHost { direction, address } => {
                Ok(self.is_ether_host(direction, address)?)
            }
            Primitive::Ports {
                transport,
                direction,
                low,
                high,
            } => {
                let ports = Ports {
                    direction,
                    low,
                    high,
                };
                self.has_any_ports(transport, ports)
            }
            Primitive::IpProto(number) => Ok(self.is_protocol(u32::from(number))?),
            Primitive::EtherProto(number) => Ok(self.is_type(u32::from(number))?),
            Primitive::EtherBroadcast => Ok(self.equals(ETHER_DST as u32, 6, 0xffff_ffff_ffff)?),
            Primitive::EtherMulticast => Ok(self.is_ether_multicast()?),
            Primitive::IpMulticast => Ok(self.is_ip_multicast()?),
            Primitive::Less(number) => Ok(self.is_at_most(number)?),
            Primitive::Greater(number) => Ok(self.is_at_least(number)?),
        }
    }
}
