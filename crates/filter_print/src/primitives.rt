//! Primitives as texts.

ghost use Rattle.std.specs.Prelude.{◌≡◌, ◌≤◌, Some};
ghost use Rattle.std.specs.Fmt.{WritesOnOk};
ghost use Rattle.filterlang.specs.Qualifiers.{mask_of};
ghost use Rattle.filter_print.specs.Primitives.{plain_text, network_text, transport_text, direction_text, address_text, octet_text, octets_text, ethernet_text, mask_text, net_text, ports_text, primitive_text};

use filterlang::{Direction, EthernetAddress, Network, Plain, Primitive, Transport};
use std::fmt;
use std::fmt::{Display, Formatter, Write};

/// A protocol word without a phrase or an identifier.
fn plain_text(plain: Plain) -> &'static str
    ensures { result.now ≡ plain_text plain }
{
    match plain {
        Plain::Ip => "ip",
        Plain::Arp => "arp",
        Plain::Rarp => "rarp",
        Plain::Tcp => "tcp",
        Plain::Udp => "udp",
        Plain::Icmp => "icmp",
        Plain::Sctp => "sctp",
    }
}

/// The protocol of hosts and nets, followed by a space, or nothing.
fn network_text(network: Option<Network>) -> &'static str
    ensures { result.now ≡ network_text network }
{
    match network {
        None => "",
        Some(Network::Ip) => "ip ",
        Some(Network::Arp) => "arp ",
        Some(Network::Rarp) => "rarp ",
    }
}

/// The protocol of ports, followed by a space, or nothing.
fn transport_text(transport: Option<Transport>) -> &'static str
    ensures { result.now ≡ transport_text transport }
{
    match transport {
        None => "",
        Some(Transport::Tcp) => "tcp ",
        Some(Transport::Udp) => "udp ",
        Some(Transport::Sctp) => "sctp ",
    }
}

/// A direction, followed by a space; source or destination is not written out.
fn direction_text(direction: Direction) -> &'static str
    ensures { result.now ≡ direction_text direction }
{
    match direction {
        Direction::Src => "src ",
        Direction::Dst => "dst ",
        Direction::SrcOrDst => "",
        Direction::SrcAndDst => "src and dst ",
    }
}

/// The mask with this many leading one bits.
fn mask_of(bits: u32) -> u32
    requires { bits ≤ 32 }
    ensures { result ≡ mask_of bits }
{
    ((1u64 << 32) - (1u64 << (32 - bits))) as u32
}

/// An octet of an Ethernet address, which is printed as two hexadecimal digits.
#[derive(Clone, Copy)]
struct Octet(u8);

impl Display for Octet {
    ghost output = { λ octet. Some (octet_text octet.0) };

    fn fmt<W: Write>(&self, f: &mut Formatter<W>) -> fmt::Result {
        let (high, low) = (self.0 / 16, self.0 % 16);
        write!(f, "{high:x}{low:x}")
    }
}

/// Writes an IPv4 address.
#[tactic(auto, unfolding(crate::specs::Primitives::address_text))]
fn write_address<W: Write>(f: &mut Formatter<W>, address: u32) -> fmt::Result
    ensures { WritesOnOk W.write_str_gives f.old result (address_text address) f.new }
{
    let octets = address.to_be_bytes();
    let (a, b, c, d) = (octets[0], octets[1], octets[2], octets[3]);
    write!(f, "{a}.{b}.{c}.{d}")
}

/// Three octets of an Ethernet address, which are printed with colons between them.
#[derive(Clone, Copy)]
struct Octets(u8, u8, u8);

impl Display for Octets {
    ghost output = { λ octets. Some (octets_text octets.0 octets.1 octets.2) };

    #[tactic(auto, unfolding(crate::specs::Primitives::octets_text))]
    fn fmt<W: Write>(&self, f: &mut Formatter<W>) -> fmt::Result {
        let (a, b, c) = (Octet(self.0), Octet(self.1), Octet(self.2));
        write!(f, "{a}:{b}:{c}")
    }
}

/// Writes an Ethernet address.
#[tactic(auto, unfolding(crate::specs::Primitives::ethernet_text))]
fn write_ethernet<W: Write>(f: &mut Formatter<W>, address: &EthernetAddress) -> fmt::Result
    ensures { WritesOnOk W.write_str_gives f.old result (ethernet_text address.now.octets) f.new }
{
    let octets = address.octets;
    let first = Octets(octets[0], octets[1], octets[2]);
    let second = Octets(octets[3], octets[4], octets[5]);
    write!(f, "{first}:{second}")
}

/// Writes the mask of a net.
#[tactic(auto, unfolding(crate::specs::Primitives::mask_text))]
fn write_mask<W: Write>(f: &mut Formatter<W>, mask: u32) -> fmt::Result
    ensures { WritesOnOk W.write_str_gives f.old result (mask_text mask) f.new }
{
    let bits = mask.leading_ones();
    if mask_of(bits) == mask {
        return write!(f, "/{bits}");
    }
    f.write_str(" mask ")?;
    write_address(f, mask)
}

/// Writes a host or a net.
#[tactic(auto, unfolding(crate::specs::Primitives::net_text))]
fn write_net<W: Write>(f: &mut Formatter<W>, address: u32, mask: u32) -> fmt::Result
    ensures { WritesOnOk W.write_str_gives f.old result (net_text address mask) f.new }
{
    if mask == u32::MAX {
        f.write_str("host ")?;
        return write_address(f, address);
    }
    f.write_str("net ")?;
    write_address(f, address)?;
    write_mask(f, mask)
}

/// Writes a port or a range of ports.
#[tactic(auto, unfolding(crate::specs::Primitives::ports_text))]
fn write_ports<W: Write>(f: &mut Formatter<W>, low: u16, high: u16) -> fmt::Result
    ensures { WritesOnOk W.write_str_gives f.old result (ports_text low high) f.new }
{
    if low == high {
        write!(f, "port {low}")
    } else {
        write!(f, "portrange {low}-{high}")
    }
}

/// Writes a primitive.
#[tactic(auto, unfolding(crate::specs::Primitives::primitive_text))]
pub(crate) fn write_primitive<W: Write>(f: &mut Formatter<W>, primitive: &Primitive) -> fmt::Result
    ensures { WritesOnOk W.write_str_gives f.old result (primitive_text primitive.now) f.new }
{
    match primitive {
        Primitive::Protocol(plain) => f.write_str(plain_text(*plain)),
        Primitive::Net {
            network,
            direction,
            address,
            mask,
        } => {
            f.write_str(network_text(*network))?;
            f.write_str(direction_text(*direction))?;
            write_net(f, *address, *mask)
        }
        Primitive::EtherHost { direction, address } => {
            f.write_str("ether ")?;
            f.write_str(direction_text(*direction))?;
            f.write_str("host ")?;
            write_ethernet(f, address)
        }
        Primitive::Ports {
            transport,
            direction,
            low,
            high,
        } => {
            f.write_str(transport_text(*transport))?;
            f.write_str(direction_text(*direction))?;
            write_ports(f, *low, *high)
        }
        Primitive::IpProto(number) => write!(f, "ip proto {number}"),
        Primitive::EtherProto(number) => write!(f, "ether proto {number}"),
        Primitive::EtherBroadcast => f.write_str("ether broadcast"),
        Primitive::EtherMulticast => f.write_str("ether multicast"),
        Primitive::IpMulticast => f.write_str("ip multicast"),
        Primitive::Less(number) => write!(f, "less {number}"),
        Primitive::Greater(number) => write!(f, "greater {number}"),
    }
}
