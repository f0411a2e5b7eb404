//! Which qualifiers go together, and which identifiers they take.

ghost use Rattle.std.specs.Prelude.{◌≡◌, ◌≤◌, IfOk};
ghost use Rattle.std.specs.Result.{result_ok};
ghost use Rattle.filterlang.specs.Qualifiers.{network_of, transport_of, qualifiers_of, mask_of, bits_of, between, port_of, net_of, identified};
ghost use Rattle.filterlang.specs.declared.phrases.qualifiers.Qualifiers.TheVariants.{Net, IpProto, EtherProto};

use crate::token::{Parts, Protocol, TypeWord};
use filter_tree::headers::{
    ETHERTYPE_ARP, ETHERTYPE_IP, ETHERTYPE_REVARP, IPPROTO_ICMP, IPPROTO_TCP, IPPROTO_UDP,
};
use filter_tree::{Direction, EthernetAddress, Network, Primitive, Transport};

/// The qualifiers before an identifier, as they are written.
#[derive(Clone, Copy)]
pub(crate) struct Phrase {
    pub protocol: Option<Protocol>,
    pub direction: Option<Direction>,
    pub type_word: Option<TypeWord>,
}

/// Qualifiers that go together, with those that are not written filled in.
#[derive(Clone, Copy)]
pub(crate) enum Qualifiers {
    Host {
        network: Option<Network>,
        direction: Direction,
    },
    Net {
        network: Option<Network>,
        direction: Direction,
    },
    EtherHost(Direction),
    Port {
        transport: Option<Transport>,
        direction: Direction,
    },
    IpProto,
    EtherProto,
}

/// What an identifier is spelled as.
#[derive(Clone, Copy)]
pub(crate) enum Identifier {
    Number(u32),
    Dotted {
        address: u32,
        parts: Parts,
    },
    /// An address, `/` and a number of bits.
    Prefix {
        address: u32,
        bits: u32,
    },
    /// An address, `mask` and an address of this many parts.
    Masked {
        address: u32,
        mask: u32,
        parts: Parts,
    },
    Ethernet(EthernetAddress),
    Name(Protocol),
}

/// Why an identifier does not fit its qualifiers.
#[derive(Clone, Copy)]
pub(crate) enum Misfit {
    /// It is of a kind that the type does not take.
    Identifier,
    /// Its mask has fewer than four parts.
    Mask,
    /// Its address has bits outside its mask.
    NetBits,
    /// Its number is out of range.
    Range,
}

/// The protocol of a host or net, which may be missing.
fn network_of(protocol: Option<Protocol>) -> Option<Option<Network>>
    ensures { result ≡ network_of protocol }
{
    match protocol {
        None => Some(None),
        Some(Protocol::Ip) => Some(Some(Network::Ip)),
        Some(Protocol::Arp) => Some(Some(Network::Arp)),
        Some(Protocol::Rarp) => Some(Some(Network::Rarp)),
        _ => None,
    }
}

/// The protocol of a port, which may be missing.
pub(crate) fn transport_of(protocol: Option<Protocol>) -> Option<Option<Transport>>
    ensures { result ≡ transport_of protocol }
{
    match protocol {
        None => Some(None),
        Some(Protocol::Tcp) => Some(Some(Transport::Tcp)),
        Some(Protocol::Udp) => Some(Some(Transport::Udp)),
        Some(Protocol::Sctp) => Some(Some(Transport::Sctp)),
        _ => None,
    }
}

/// The qualifiers of a phrase, if they go together. Without a direction source or destination is
/// meant, without a type a host.
pub(crate) fn qualifiers_of(phrase: Phrase) -> Option<Qualifiers>
    ensures { result ≡ qualifiers_of phrase }
{
    let direction = phrase.direction.unwrap_or(Direction::SrcOrDst);
    match (phrase.type_word.unwrap_or(TypeWord::Host), phrase.protocol) {
        (TypeWord::Host, Some(Protocol::Ether)) => Some(Qualifiers::EtherHost(direction)),
        (TypeWord::Host, protocol) => {
            let network = network_of(protocol)?;
            Some(Qualifiers::Host { network, direction })
        }
        (TypeWord::Net, protocol) => {
            let network = network_of(protocol)?;
            Some(Qualifiers::Net { network, direction })
        }
        (TypeWord::Port, protocol) => {
            let transport = transport_of(protocol)?;
            Some(Qualifiers::Port {
                transport,
                direction,
            })
        }
        (TypeWord::Proto, protocol) => match (protocol, phrase.direction) {
            (None | Some(Protocol::Ip), None) => Some(Qualifiers::IpProto),
            (Some(Protocol::Ether), None) => Some(Qualifiers::EtherProto),
            _ => None,
        },
    }
}

/// The mask with this many leading one bits.
fn mask_of(bits: u32) -> u32
    requires { bits ≤ 32 }
    ensures { result ≡ mask_of bits }
{
    ((1u64 << 32) - (1u64 << (32 - bits))) as u32
}

/// As many bits as the parts of a dotted address have.
fn bits_of(parts: Parts) -> u32
    ensures value { result ≡ bits_of parts }
    ensures within { result ≤ 32 }
{
    match parts {
        Parts::Two => 16,
        Parts::Three => 24,
        Parts::Four => 32,
    }
}

/// The number, if it is within these bounds.
fn between(low: u32, high: u32, n: u32) -> Result<u32, Misfit>
    ensures value { result_ok result ≡ between low high n }
    ensures within { IfOk result (λ m. (low ≤ m) × (m ≤ high)) }
{
    if low <= n && n <= high {
        Ok(n)
    } else {
        Err(Misfit::Range)
    }
}

/// The port of this number.
pub(crate) fn port_of(n: u32) -> Result<u16, Misfit>
    ensures { result_ok result ≡ port_of n }
{
    Ok(between(0, 65535, n)? as u16)
}

/// A net, whose address has no bits outside its mask.
fn net_of(
    network: Option<Network>,
    direction: Direction,
    address: u32,
    mask: u32,
) -> Result<Primitive, Misfit>
    ensures { result_ok result ≡ net_of network direction address mask }
{
    if address & mask == address {
        Ok(Primitive::Net {
            network,
            direction,
            address,
            mask,
        })
    } else {
        Err(Misfit::NetBits)
    }
}

/// The net that an identifier names.
fn net_of_identifier(
    network: Option<Network>,
    direction: Direction,
    id: Identifier,
) -> Result<Primitive, Misfit>
    ensures { result_ok result ≡ identified (Net network direction) id }
{
    match id {
        Identifier::Number(n) => {
            let first = between(0, 255, n)?;
            Ok(Primitive::Net {
                network,
                direction,
                address: first * 0x100_0000,
                mask: mask_of(8),
            })
        }
        Identifier::Dotted { address, parts } => {
            net_of(network, direction, address, mask_of(bits_of(parts)))
        }
        Identifier::Prefix { address, bits } => {
            let bits = between(0, 32, bits)?;
            net_of(network, direction, address, mask_of(bits))
        }
        Identifier::Masked {
            address,
            mask,
            parts: Parts::Four,
        } => net_of(network, direction, address, mask),
        Identifier::Masked { .. } => Err(Misfit::Mask),
        _ => Err(Misfit::Identifier),
    }
}

/// The protocol number of IPv4 that an identifier names.
fn ip_proto_of(id: Identifier) -> Result<Primitive, Misfit>
    ensures { result_ok result ≡ identified IpProto id }
{
    let number = match id {
        Identifier::Number(n) => between(0, 255, n)?,
        Identifier::Name(Protocol::Icmp) => IPPROTO_ICMP,
        Identifier::Name(Protocol::Tcp) => IPPROTO_TCP,
        Identifier::Name(Protocol::Udp) => IPPROTO_UDP,
        _ => return Err(Misfit::Identifier),
    };
    Ok(Primitive::IpProto(number as u8))
}

/// The Ethernet type that an identifier names.
fn ether_proto_of(id: Identifier) -> Result<Primitive, Misfit>
    ensures { result_ok result ≡ identified EtherProto id }
{
    let number = match id {
        Identifier::Number(n) => between(1501, 65535, n)?,
        Identifier::Name(Protocol::Ip) => ETHERTYPE_IP,
        Identifier::Name(Protocol::Arp) => ETHERTYPE_ARP,
        Identifier::Name(Protocol::Rarp) => ETHERTYPE_REVARP,
        _ => return Err(Misfit::Identifier),
    };
    Ok(Primitive::EtherProto(number as u16))
}

/// The test that an identifier gives under its qualifiers.
pub(crate) fn identified(qualifiers: Qualifiers, id: Identifier) -> Result<Primitive, Misfit>
    ensures { result_ok result ≡ identified qualifiers id }
{
    match (qualifiers, id) {
        (
            Qualifiers::Host { network, direction },
            Identifier::Dotted {
                address,
                parts: Parts::Four,
            },
        ) => Ok(Primitive::Net {
            network,
            direction,
            address,
            mask: u32::MAX,
        }),
        (Qualifiers::Net { network, direction }, id) => net_of_identifier(network, direction, id),
        (Qualifiers::EtherHost(direction), Identifier::Ethernet(address)) => {
            Ok(Primitive::EtherHost { direction, address })
        }
        (
            Qualifiers::Port {
                transport,
                direction,
            },
            Identifier::Number(n),
        ) => {
            let port = port_of(n)?;
            Ok(Primitive::Ports {
                transport,
                direction,
                low: port,
                high: port,
            })
        }
        (Qualifiers::IpProto, id) => ip_proto_of(id),
        (Qualifiers::EtherProto, id) => ether_proto_of(id),
        _ => Err(Misfit::Identifier),
    }
}
