//! The frame that filters look into: offsets of its fields in bytes from its first one, and the
//! numbers that they have.
//!
//! Ethernet with a type field (RFC 894), ARP for IPv4 over it (RFC 826, and RFC 903 for RARP), and
//! IPv4 (RFC 791) with the protocols that filters name (RFC 792, 793, 768, 9260). The names are
//! those of BSD's headers, or made as they are.

/// The destination's and the source's Ethernet address, and the Ethernet type: six, six and two
/// bytes.
pub const ETHER_DST: usize = 0;

pub const ETHER_SRC: usize = 6;

pub const ETHER_TYPE: usize = 12;

/// How long the Ethernet header is: the IPv4 header, or the ARP packet, begins there.
pub const ETHER_HDR_LEN: usize = 14;

/// Ethernet types.
pub const ETHERTYPE_IP: u32 = 0x0800;

pub const ETHERTYPE_ARP: u32 = 0x0806;

pub const ETHERTYPE_REVARP: u32 = 0x8035;

/// Where the fields of IPv4 are: flags and fragment offset in two bytes, the protocol in one, and
/// the addresses in four each.
pub const IP_OFF: usize = 20;

pub const IP_P: usize = 23;

pub const IP_SRC: usize = 26;

pub const IP_DST: usize = 30;

/// The bits of the fragment offset, without the flags.
pub const IP_OFFMASK: u32 = 0x1fff;

/// Protocol numbers of IPv4.
pub const IPPROTO_ICMP: u32 = 1;

pub const IPPROTO_TCP: u32 = 6;

pub const IPPROTO_UDP: u32 = 17;

pub const IPPROTO_SCTP: u32 = 132;

/// Where the IPv4 addresses of ARP and RARP are, the sender's and the target's: four bytes each.
pub const ARP_SPA: usize = 28;

pub const ARP_TPA: usize = 38;

/// Where the ports of TCP, UDP and SCTP are, in bytes from the end of the IPv4 header: two bytes
/// each.
pub const SRC_PORT: usize = 0;

pub const DST_PORT: usize = 2;

const _: () = prove!(ETHER_DST == 0 && ETHER_SRC == 6 && ETHER_TYPE == 12 && ETHER_HDR_LEN == 14);

const _: () = prove!(
    ETHERTYPE_IP == 0x0800 && ETHERTYPE_ARP == 0x0806 && ETHERTYPE_REVARP == 0x8035
);

const _: () = prove!(IP_OFF == 20 && IP_P == 23 && IP_SRC == 26 && IP_DST == 30);

const _: () = prove!(IP_OFFMASK == 0x1fff);

const _: () = prove!(
    IPPROTO_ICMP == 1 && IPPROTO_TCP == 6 && IPPROTO_UDP == 17 && IPPROTO_SCTP == 132
);

const _: () = prove!(ARP_SPA == 28 && ARP_TPA == 38 && SRC_PORT == 0 && DST_PORT == 2);
