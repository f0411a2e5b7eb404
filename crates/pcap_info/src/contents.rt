//! What is counted of the packets of a capture.

ghost use Rattle.std.specs.Prelude.{◌≡◌};
ghost use Rattle.pcap_info.specs.Contents.{kind_of, kind_of_type, with_frame, with_packet};

use byteorder::{BigEndian, ByteOrder};
use savefile::PacketRef;

/// The bytes of the header of an Ethernet frame, whose last two are its type.
const ETHERNET_LEN: usize = 14;

/// What an Ethernet frame carries, by its type.
#[derive(Clone, Copy, Debug, PartialEq, Eq)]
pub enum FrameKind {
    Ipv4,
    Arp,
    Ipv6,
    /// A frame with a VLAN tag: one of IEEE 802.1Q, or an outer one of 802.1ad or of the time
    /// before it.
    Vlan,
    /// Any other frame, and one of which fewer than 14 bytes were captured.
    Other,
}

/// The kind of a type, as IEEE's registry has them.
fn kind_of_type(number: u16) -> FrameKind
    ensures { result ≡ kind_of_type number }
{
    match number {
        0x0800 => FrameKind::Ipv4,
        0x0806 => FrameKind::Arp,
        0x86dd => FrameKind::Ipv6,
        0x8100 | 0x88a8 | 0x9100 => FrameKind::Vlan,
        _ => FrameKind::Other,
    }
}

/// The kind of a frame, of which these bytes were captured.
pub fn kind_of(frame: &[u8]) -> FrameKind
    ensures { result ≡ kind_of frame.now }
{
    if frame.len() < ETHERNET_LEN {
        return FrameKind::Other;
    }
    kind_of_type(BigEndian::read_u16(&frame[12..]))
}

/// How many frames there are of each kind, each up to 2^64 - 1.
#[derive(Clone, Copy, Debug, PartialEq, Eq)]
pub struct KindCounts {
    pub ipv4: u64,
    pub arp: u64,
    pub ipv6: u64,
    pub vlan: u64,
    pub other: u64,
}

impl KindCounts {
    /// Of no frame.
    pub const NONE: KindCounts = KindCounts {
        ipv4: 0,
        arp: 0,
        ipv6: 0,
        vlan: 0,
        other: 0,
    };

    /// These, and one frame more.
    fn with(self, kind: FrameKind) -> KindCounts
        ensures { result ≡ with_frame self kind }
    {
        let mut counts = self;
        match kind {
            FrameKind::Ipv4 => counts.ipv4 = self.ipv4.saturating_add(1),
            FrameKind::Arp => counts.arp = self.arp.saturating_add(1),
            FrameKind::Ipv6 => counts.ipv6 = self.ipv6.saturating_add(1),
            FrameKind::Vlan => counts.vlan = self.vlan.saturating_add(1),
            FrameKind::Other => counts.other = self.other.saturating_add(1),
        }
        counts
    }
}

/// When a packet was captured: seconds since 1970, and nanoseconds below one second.
#[derive(Clone, Copy, Debug, PartialEq, Eq)]
pub struct Moment {
    pub sec: u32,
    pub nanos: u32,
}

/// What the packets of a capture are, counted. Each number goes up to 2^64 - 1.
#[derive(Clone, Copy, Debug, PartialEq, Eq)]
pub struct Contents {
    pub packets: u64,
    /// The sum of their lengths on the wire, in bytes.
    pub len: u64,
    /// How many bytes of them were captured.
    pub captured: u64,
    /// When the first one was captured, and the last one, in the order of the file.
    pub first: Option<Moment>,
    pub last: Option<Moment>,
    pub kinds: KindCounts,
}

impl Contents {
    /// Of no packet.
    pub const NONE: Contents = Contents {
        packets: 0,
        len: 0,
        captured: 0,
        first: None,
        last: None,
        kinds: KindCounts::NONE,
    };

    /// These, and one packet more.
    #[inline(always)]
    pub(crate) fn with(self, packet: &PacketRef<'_>) -> Contents
        ensures { result ≡ with_packet self packet.now }
    {
        let moment = Some(Moment {
            sec: packet.sec,
            nanos: packet.nanos,
        });
        Contents {
            packets: self.packets.saturating_add(1),
            len: self.len.saturating_add(packet.len as u64),
            captured: self.captured.saturating_add(packet.bytes.len() as u64),
            first: self.first.or(moment),
            last: moment,
            kinds: self.kinds.with(kind_of(packet.bytes)),
        }
    }
}
