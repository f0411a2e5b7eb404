//! Primitives: what each looks at, in order, and what it answers.

ghost use Rattle.std.specs.Prelude.{◌≡◌, ◌≤◌, ◌<◌, ◌^◌};
ghost use Rattle.filter_meaning.specs.Looks.{packet, type_asked, protocol_asked, first_fragment_asked, plain_asked, directed_asked, net_asked, any_net_asked, ports_asked, any_ports_asked, primitive_asked};
ghost use Rattle.filter_meaning.specs.Notes.{Noted, side_asked};
ghost use Rattle.filter_tree.specs.declared.headers.TheConstants.{ARP_TPA};
ghost use Rattle.filter_tree.specs.declared.tree.Primitive.TheVariants.{IpMulticast};

use crate::cause::AbortCause;
use crate::frame::{Frame, Notes};
use crate::headers::{BROADCAST, protocol_number};
use filter_tree::headers::{
    ARP_SPA, ARP_TPA, DST_PORT, ETHER_DST, ETHER_HDR_LEN, ETHER_SRC, ETHER_TYPE, ETHERTYPE_ARP,
    ETHERTYPE_IP, ETHERTYPE_REVARP, IP_DST, IP_OFF, IP_OFFMASK, IP_P, IP_SRC, IPPROTO_ICMP,
    IPPROTO_SCTP, IPPROTO_TCP, IPPROTO_UDP, SRC_PORT,
};
use filter_tree::{Direction, EthernetAddress, Network, Plain, Primitive, Transport};

/// What a test answers, or why it aborts.
pub(crate) type Answer = Result<bool, AbortCause>;

/// The Ethernet type.
#[inline(always)]
pub(crate) fn is_type(number: u32, frame: &Frame<'_>, notes: &mut Notes) -> Answer
    ensures answer { result ≡ (type_asked number (packet frame.now)).answer }
    ensures noted { Noted notes.old notes.new (type_asked number (packet frame.now)).looks }
{
    Ok(frame.half(ETHER_TYPE, notes)? == number)
}

/// IPv4 with this protocol number.
#[inline(always)]
pub(crate) fn is_protocol(number: u32, frame: &Frame<'_>, notes: &mut Notes) -> Answer
    ensures answer { result ≡ (protocol_asked number (packet frame.now)).answer }
    ensures noted { Noted notes.old notes.new (protocol_asked number (packet frame.now)).looks }
{
    if !is_type(ETHERTYPE_IP, frame, notes)? {
        return Ok(false);
    }
    Ok(frame.byte(IP_P, notes)? == number)
}

/// IPv4 with this protocol number, and no later fragment.
#[inline(always)]
pub(crate) fn is_first_fragment_of(number: u32, frame: &Frame<'_>, notes: &mut Notes) -> Answer
    ensures answer { result ≡ (first_fragment_asked number (packet frame.now)).answer }
    ensures noted { Noted notes.old notes.new (first_fragment_asked number (packet frame.now)).looks }
{
    if !is_protocol(number, frame, notes)? {
        return Ok(false);
    }
    Ok(frame.half(IP_OFF, notes)? & IP_OFFMASK == 0)
}

/// A protocol word.
fn is_plain(word: Plain, frame: &Frame<'_>, notes: &mut Notes) -> Answer
    ensures answer { result ≡ (plain_asked word (packet frame.now)).answer }
    ensures noted { Noted notes.old notes.new (plain_asked word (packet frame.now)).looks }
{
    match word {
        Plain::Ip => is_type(ETHERTYPE_IP, frame, notes),
        Plain::Arp => is_type(ETHERTYPE_ARP, frame, notes),
        Plain::Rarp => is_type(ETHERTYPE_REVARP, frame, notes),
        Plain::Icmp => is_protocol(IPPROTO_ICMP, frame, notes),
        Plain::Tcp => is_protocol(IPPROTO_TCP, frame, notes),
        Plain::Udp => is_protocol(IPPROTO_UDP, frame, notes),
        Plain::Sctp => is_protocol(IPPROTO_SCTP, frame, notes),
    }
}

/// What a side of a packet is compared with, at the source's and the destination's place.
#[derive(Clone, Copy)]
enum Side {
    /// Four bytes under a mask.
    Address { address: u32, mask: u32 },
    /// Six bytes.
    Ether(EthernetAddress),
    /// Two bytes, at an offset that counts from the end of the IPv4 header.
    Port { low: u32, high: u32 },
}

impl Side {
    /// Whether the packet has it at an offset.
    #[inline(always)]
    fn is_at(self, offset: usize, frame: &Frame<'_>, notes: &mut Notes) -> Answer
        requires { offset ≤ ARP_TPA }
        ensures answer { result ≡ (side_asked self offset (packet frame.now)).answer }
        ensures noted { Noted notes.old notes.new (side_asked self offset (packet frame.now)).looks }
    {
        match self {
            Side::Address { address, mask } => Ok(frame.word(offset, notes)? & mask == address),
            Side::Ether(address) => {
                let [a, b, c, d, e, f] = address.octets;
                let number = u64::from_be_bytes([0, 0, a, b, c, d, e, f]);
                Ok(frame.six(offset, notes)? == number)
            }
            Side::Port { low, high } => {
                let header = 4 * (frame.byte(ETHER_HDR_LEN, notes)? & 15) as usize;
                let port = frame.half(ETHER_HDR_LEN + header + offset, notes)?;
                Ok(low <= port && port <= high)
            }
        }
    }

    /// Whether the packet has it at the sides that a direction chooses, the source's first.
    #[inline(always)]
    fn is_of(
        self,
        direction: Direction,
        offsets: (usize, usize),
        frame: &Frame<'_>,
        notes: &mut Notes,
    ) -> Answer
        requires source { offsets.0 ≤ ARP_TPA }
        requires destination { offsets.1 ≤ ARP_TPA }
        ensures answer { result ≡ (directed_asked direction (side_asked self) offsets.0 offsets.1 (packet frame.now)).answer }
        ensures noted { Noted notes.old notes.new (directed_asked direction (side_asked self) offsets.0 offsets.1 (packet frame.now)).looks }
    {
        let (source, destination) = offsets;
        match direction {
            Direction::Src => self.is_at(source, frame, notes),
            Direction::Dst => self.is_at(destination, frame, notes),
            Direction::SrcOrDst => {
                if self.is_at(source, frame, notes)? {
                    return Ok(true);
                }
                self.is_at(destination, frame, notes)
            }
            Direction::SrcAndDst => {
                if !self.is_at(source, frame, notes)? {
                    return Ok(false);
                }
                self.is_at(destination, frame, notes)
            }
        }
    }
}

/// A host or a net of one protocol.
fn is_in_net(
    network: Network,
    direction: Direction,
    side: Side,
    frame: &Frame<'_>,
    notes: &mut Notes,
) -> Answer
    ensures answer { result ≡ (net_asked network direction (side_asked side) (packet frame.now)).answer }
    ensures noted { Noted notes.old notes.new (net_asked network direction (side_asked side) (packet frame.now)).looks }
{
    let (number, offsets) = match network {
        Network::Ip => (ETHERTYPE_IP, (IP_SRC, IP_DST)),
        Network::Arp => (ETHERTYPE_ARP, (ARP_SPA, ARP_TPA)),
        Network::Rarp => (ETHERTYPE_REVARP, (ARP_SPA, ARP_TPA)),
    };
    if !is_type(number, frame, notes)? {
        return Ok(false);
    }
    side.is_of(direction, offsets, frame, notes)
}

/// A host or a net of a protocol; without one that of IPv4, or else of ARP, or else of RARP.
fn is_in_any_net(
    network: Option<Network>,
    direction: Direction,
    side: Side,
    frame: &Frame<'_>,
    notes: &mut Notes,
) -> Answer
    ensures answer { result ≡ (any_net_asked network direction (side_asked side) (packet frame.now)).answer }
    ensures noted { Noted notes.old notes.new (any_net_asked network direction (side_asked side) (packet frame.now)).looks }
{
    if let Some(network) = network {
        return is_in_net(network, direction, side, frame, notes);
    }
    if is_in_net(Network::Ip, direction, side, frame, notes)? {
        return Ok(true);
    }
    if is_in_net(Network::Arp, direction, side, frame, notes)? {
        return Ok(true);
    }
    is_in_net(Network::Rarp, direction, side, frame, notes)
}

/// A port of one protocol number.
fn has_ports(
    number: u32,
    direction: Direction,
    side: Side,
    frame: &Frame<'_>,
    notes: &mut Notes,
) -> Answer
    ensures answer { result ≡ (ports_asked number direction (side_asked side) (packet frame.now)).answer }
    ensures noted { Noted notes.old notes.new (ports_asked number direction (side_asked side) (packet frame.now)).looks }
{
    if !is_first_fragment_of(number, frame, notes)? {
        return Ok(false);
    }
    side.is_of(direction, (SRC_PORT, DST_PORT), frame, notes)
}

/// A port of a protocol; without one that of TCP, or else of UDP, or else of SCTP.
fn has_any_ports(
    transport: Option<Transport>,
    direction: Direction,
    side: Side,
    frame: &Frame<'_>,
    notes: &mut Notes,
) -> Answer
    ensures answer { result ≡ (any_ports_asked transport direction (side_asked side) (packet frame.now)).answer }
    ensures noted { Noted notes.old notes.new (any_ports_asked transport direction (side_asked side) (packet frame.now)).looks }
{
    if let Some(transport) = transport {
        return has_ports(protocol_number(transport), direction, side, frame, notes);
    }
    if has_ports(IPPROTO_TCP, direction, side, frame, notes)? {
        return Ok(true);
    }
    if has_ports(IPPROTO_UDP, direction, side, frame, notes)? {
        return Ok(true);
    }
    has_ports(IPPROTO_SCTP, direction, side, frame, notes)
}

/// The destination of IPv4 is from 224.0.0.0 on.
fn is_ip_multicast(frame: &Frame<'_>, notes: &mut Notes) -> Answer
    ensures answer { result ≡ (primitive_asked IpMulticast (packet frame.now)).answer }
    ensures noted { Noted notes.old notes.new (primitive_asked IpMulticast (packet frame.now)).looks }
{
    if !is_type(ETHERTYPE_IP, frame, notes)? {
        return Ok(false);
    }
    Ok(224 <= frame.byte(IP_DST, notes)?)
}

/// A primitive.
pub(crate) fn primitive(primitive: Primitive, frame: &Frame<'_>, notes: &mut Notes) -> Answer
    ensures answer { result ≡ (primitive_asked primitive (packet frame.now)).answer }
    ensures noted { Noted notes.old notes.new (primitive_asked primitive (packet frame.now)).looks }
{
    match primitive {
        Primitive::Protocol(word) => is_plain(word, frame, notes),
        Primitive::Net {
            network,
            direction,
            address,
            mask,
        } => is_in_any_net(
            network,
            direction,
            Side::Address { address, mask },
            frame,
            notes,
        ),
        Primitive::EtherHost { direction, address } => {
            Side::Ether(address).is_of(direction, (ETHER_SRC, ETHER_DST), frame, notes)
        }
        Primitive::Ports {
            transport,
            direction,
            low,
            high,
        } => {
            let (low, high) = (u32::from(low), u32::from(high));
            has_any_ports(transport, direction, Side::Port { low, high }, frame, notes)
        }
        Primitive::IpProto(number) => is_protocol(u32::from(number), frame, notes),
        Primitive::EtherProto(number) => is_type(u32::from(number), frame, notes),
        Primitive::EtherBroadcast => Side::Ether(BROADCAST).is_at(ETHER_DST, frame, notes),
        Primitive::EtherMulticast => Ok(frame.byte(ETHER_DST, notes)? & 1 != 0),
        Primitive::IpMulticast => is_ip_multicast(frame, notes),
        Primitive::Less(bytes) => Ok(frame.length(notes) <= bytes),
        Primitive::Greater(bytes) => Ok(bytes <= frame.length(notes)),
    }
}
